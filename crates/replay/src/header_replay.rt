// The stored headers, good and damaged, run through `btree_v2_header::BTreeV2Header::parse`; each answer is counted once.

ghost use Rattle.std.specs.Prelude.{◌≡◌, ◌+◌};

use crate::header_answers::{HEADER_BYTES, HEADER_ROWS};
use crate::rows;
use crate::tally::Tally;
use btree_v2_header::BTreeV2Header;

// Whether the header of a row has its nine numbers; its file is the next of the stored bytes.
fn agrees(row: &[u64; 14], bytes: &mut &[u8]) -> bool {
    let file = rows::next_part(bytes, 128, row[0]);
    let answer = BTreeV2Header::parse(file, row[1], row[2], rows::byte(row[3]), rows::byte(row[4]));
    answers::numbers_of(answer)[..] == row[5..]
}

// The stored answers.
pub(crate) fn stored() -> Tally
    ensures { result.agreed + result.differed ≡ 62 }
{
    Tally::of(HEADER_ROWS.as_chunks().0, &HEADER_BYTES, agrees)
}
