// The tree that a header describes, in a part of a file.

ghost use Rattle.std.specs.Prelude.{◌≤◌, ◌<◌};

use btree_v2_header::BTreeV2Header;
use btree_v2_internal::Node;
use node_info::Geometry;
use refusal::Refusal;

// A tree with records: the part of a file that it is in, its root, its sizes and its depth.
#[derive(Clone, Copy)]
pub struct Tree<'a> {
    pub file: &'a [u8],
    pub root: Node,
    pub geometry: Geometry,
    pub depth: u16,
    ghost sized: { 0 < geometry.record_size },
    ghost deep: { depth ≤ 32 },
}

impl<'a> Tree<'a> {
    ghost use Rattle.btree_v2_collect.specs.Opening.{Opens};

    // The header's tree in this file, where it has records; refused where its base or its figures are. Collecting and finding begin with it.
    #[tactic(auto, using(crate::proofs::Opening::beyond, crate::proofs::Opening::empty, crate::proofs::Opening::tested, crate::proofs::Opening::root_sized, crate::proofs::Opening::root_deep))]
    pub fn open(file: &'a [u8], header: &BTreeV2Header) -> Result<Option<Tree<'a>>, Refusal>
        ensures { Opens file.now header.now result }
    {
        let part = read_checks::part_from(file, header.base)?;
        if read_checks::is_empty(header.total_records, header.num_records_in_root) {
            return Ok(None);
        }
        read_checks::check_root(header.geometry.record_size, header.depth)?;
        let root = Node {
            address: header.root_node_address,
            records: header.num_records_in_root,
        };
        Ok(Some(Tree {
            file: part,
            root,
            geometry: header.geometry,
            depth: header.depth,
        }))
    }
}
