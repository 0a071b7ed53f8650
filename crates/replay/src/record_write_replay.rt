// The stored records, written and refused, run through `btree_v2_record::write_record`; each answer is counted once.

ghost use Rattle.std.specs.Prelude.{◌≡◌, ◌+◌};

use crate::record_write_answers::{RECORD_WRITE_BYTES, RECORD_WRITE_ROWS};
use crate::rows;
use crate::rows::MARK;
use crate::tally::Tally;
use btree_v2_record::RecordValues;

// Whether writing the record of a row has its three numbers and leaves the bytes that are due in the output, the next of the stored bytes.
fn agrees(row: &[u64; 9], bytes: &mut &[u8]) -> bool {
    let due = rows::next_part(bytes, 32, row[5]);
    let values = RecordValues {
        name_hash: row[1],
        heap_id: row[2],
        message_flags: row[3],
        creation_order: row[4],
    };
    let output = &mut [MARK; 32][..due.len()];
    let written = btree_v2_record::write_record(rows::byte(row[0]), values, output);
    answers::numbers_of(written)[..] == row[6..] && &*output == due
}

// The stored answers.
pub(crate) fn stored() -> Tally
    ensures { result.agreed + result.differed ≡ 40 }
{
    Tally::of(RECORD_WRITE_ROWS.as_chunks().0, &RECORD_WRITE_BYTES, agrees)
}
