// The stored records, good and damaged, run through `btree_v2_record::read_record`; each answer is counted once.

ghost use Rattle.std.specs.Prelude.{◌≡◌, ◌+◌};

use crate::record_read_answers::{RECORD_READ_BYTES, RECORD_READ_ROWS};
use crate::rows;
use crate::tally::Tally;

// Whether reading the record of a row, the next of the stored bytes, has its five numbers.
fn agrees(row: &[u64; 7], bytes: &mut &[u8]) -> bool {
    let record = rows::next_part(bytes, 32, row[1]);
    let answer = btree_v2_record::read_record(rows::byte(row[0]), record);
    answers::numbers_of(answer)[..] == row[2..]
}

// The stored answers.
pub(crate) fn stored() -> Tally
    ensures { result.agreed + result.differed ≡ 39 }
{
    Tally::of(RECORD_READ_ROWS.as_chunks().0, &RECORD_READ_BYTES, agrees)
}
