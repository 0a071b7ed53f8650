// The stored looks at a leaf, good and damaged, run through `btree_v2_leaf_view::copy_leaf_record`; each answer is counted once.

ghost use Rattle.std.specs.Prelude.{◌≡◌, ◌+◌};

use crate::look_answers::{LOOK_BYTES, LOOK_ROWS};
use crate::rows;
use crate::rows::MARK;
use crate::tally::Tally;
use btree_v2_leaf::{Leaf, Node};

// Whether the look of a row has its three numbers and leaves the bytes that are due in the output; the file and those are the next of the
// stored bytes.
fn agrees(row: &[u64; 10], bytes: &mut &[u8]) -> bool {
    let file = rows::next_part(bytes, 64, row[0]);
    let due = rows::next_part(bytes, 16, row[6]);
    let output = &mut [MARK; 16][..due.len()];
    let node = Node {
        address: row[2],
        records: rows::number16(row[3]),
    };
    let leaf = Leaf::new(node, rows::number16(row[4]));
    let copied = btree_v2_leaf_view::copy_leaf_record(file, row[1], leaf, row[5], output);
    answers::numbers_of(copied)[..] == row[7..] && &*output == due
}

// The stored answers.
pub(crate) fn stored() -> Tally
    ensures { result.agreed + result.differed ≡ 40 }
{
    Tally::of(LOOK_ROWS.as_chunks().0, &LOOK_BYTES, agrees)
}
