// The stored keys, found and not, run through `btree_v2_find::find`; each answer is counted once.

ghost use Rattle.std.specs.Prelude.{◌≡◌, ◌+◌};

use crate::find_answers::{FIND_BYTES, FIND_ROWS};
use crate::rows;
use crate::tally::Tally;
use field::Field;

// Whether finding the key of a row has its six numbers; the row says where in the stored bytes its file begins, and its length.
fn agrees(row: &[u64; 20]) -> bool {
    let file = numbers::part(&FIND_BYTES, row[0], row[1]);
    let key = Field {
        start: row[11],
        width: row[12],
    };
    let found = btree_v2_find::find(file, rows::header(&row[2..]), key, row[13]);
    answers::found_numbers(found)[..] == row[14..]
}

// The stored answers.
pub(crate) fn stored() -> Tally
    ensures { result.agreed + result.differed ≡ 91 }
{
    Tally::of(FIND_ROWS.as_chunks().0, &[], |row, _| agrees(row))
}
