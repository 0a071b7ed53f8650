// The stored trees, good and damaged, run through `btree_v2_collect::collect::collect_btree_v2_records`, and a leaf without its checksum; each answer
// is counted once.

ghost use Rattle.std.specs.Prelude.{◌≡◌, ◌+◌};

use crate::collect_answers::{COLLECT_BYTES, COLLECT_ROWS};
use crate::rows;
use crate::rows::MARK;
use crate::tally::Tally;
use btree_v2_collect::collect;
use btree_v2_header::BTreeV2Header;
use node_info::Geometry;

// Whether collecting the tree of a row has its seven numbers and leaves the bytes that are due in the output; the file and those are the next
// of the stored bytes.
fn agrees(row: &[u64; 18], bytes: &mut &[u8]) -> bool {
    let file = rows::next_part(bytes, 1024, row[0]);
    let due = rows::next_part(bytes, 512, row[10]);
    let output = &mut [MARK; 512][..due.len()];
    let collected = collect::collect_btree_v2_records(file, rows::header(&row[1..]), output);
    answers::collected_numbers(collected)[..] == row[11..] && &*output == due
}

// The stored answers.
pub(crate) fn stored() -> Tally
    ensures { result.agreed + result.differed ≡ 54 }
{
    Tally::of(COLLECT_ROWS.as_chunks().0, &COLLECT_BYTES, agrees)
}

// Whether collecting from a file that is one leaf of one record of 8 bytes has these numbers and leaves the output as it was.
fn leaf(file: &[u8], due: [u64; 7]) -> bool {
    let geometry = Geometry {
        node_size: 40,
        record_size: 8,
        offset_size: 8,
    };
    let header = BTreeV2Header {
        tree_type: 5,
        geometry,
        depth: 0,
        root_node_address: 0,
        num_records_in_root: 1,
        total_records: 1,
        base: 0,
    };
    let mut output = [MARK; 8];
    let collected = collect::collect_btree_v2_records(file, header, &mut output);
    answers::collected_numbers(collected) == due && output == [MARK; 8]
}

// A leaf whose file ends 3 bytes after its records ends early; with a byte more, its checksum differs.
pub(crate) fn ends() -> Tally
    ensures { result.agreed + result.differed ≡ 2 }
{
    let short = leaf(b"BTLF\x00\x05record 0\xff\xff\xff", [1, 18, 17, 0, 0, 0, 0]);
    let whole = leaf(
        b"BTLF\x00\x05record 0\xff\xff\xff\xff",
        [6, 0xffffffff, 0x51d3ac40, 0, 0, 0, 0],
    );
    Tally::default().with(short).with(whole)
}
