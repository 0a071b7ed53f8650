// Finding a record by its key: a descent through the tree, one node of each level.

#![tactic(auto)]

ghost use Rattle.std.specs.Prelude.{◌≡◌, ◌≤◌, true, length};
ghost use Rattle.field.specs.Field.{number_field, number_at};
ghost use Rattle.btree_v2_collect.specs.Walk.{record_place};
ghost use Rattle.btree_v2_collect.specs.Collect.{collect_tests};
ghost use Rattle.btree_v2_find.specs.Find.{last_with, bound, bounding, descent, find_cells, found_at};
ghost use Rattle.btree_v2_find.specs.Descending.{bound_at};
ghost use Rattle.btree_v2_find.specs.Answers.{place_of, found_cells, found_of};

use btree_v2_collect::tree::Tree;
use btree_v2_header::BTreeV2Header;
use btree_v2_internal::{Internal, Node};
use btree_v2_leaf::Leaf;
use field::Field;
use node_info::NodeInfo;
use refusal::Refusal;

// What finding answers: the nodes read, in a refused call too, and the place of the record that was found, where there is one.
#[derive(Clone, Copy)]
pub struct Found {
    pub nodes: u64,
    pub place: Result<Option<u64>, Refusal>,
}

// A key that is sought in a tree, by a field that its records have.
#[derive(Clone, Copy)]
struct Search<'a> {
    tree: Tree<'a>,
    key: Field,
    sought: u64,
    ghost has_key: { number_field key tree.geometry.record_size ≡ true },
}

// Where a search in one node leads: to a child of it, and to the place of its bounding record, where that has the key sought.
#[derive(Clone, Copy)]
struct Step {
    child: u16,
    place: Option<u64>,
}

impl<'a> Search<'a> {
    // The number of the node's first record whose key is not below the one sought, where there is one. The file has the node's records.
    #[tactic(auto, using(crate::proofs::Searching::has_bytes))]
    fn bound(&self, node: Node) -> Option<usize>
        requires { record_place self.now.tree.geometry node.address node.records ≤ length self.now.tree.file.now }
        ensures { result ≡ bound_at self.now.tree.file.now self.now.tree.geometry self.now.key self.now.sought node.address node.records }
    {
        let size = self.tree.geometry.record_size;
        node.records_in(self.tree.file, size)
            .chunks_exact(size as usize)
            .position(|record| self.sought <= self.key.read(record, 0))
    }

    // The search in a node, whose records the file has.
    #[tactic(auto, using(crate::proofs::Searching::child_none, crate::proofs::Searching::place_none, crate::proofs::Searching::child_some, crate::proofs::Searching::place_some))]
    fn step(&self, node: Node) -> Step
        requires { record_place self.now.tree.geometry node.address node.records ≤ length self.now.tree.file.now }
        ensures child { result.child ≡ bound self.now.tree.file.now self.now.tree.geometry self.now.key self.now.sought node.address node.records }
        ensures place { place_of result.place ≡ last_with (number_at self.now.tree.file.now self.now.key) self.now.sought
            (bounding self.now.tree.file.now self.now.tree.geometry self.now.key self.now.sought node.address node.records) }
    {
        match self.bound(node) {
            None => Step {
                child: node.records,
                place: None,
            },
            Some(i) => {
                let offset = i as u64 * (self.tree.geometry.record_size as u64);
                let place = node.address + format::PREFIX_SIZE + offset;
                let same = self.key.read(self.tree.file, place) == self.sought;
                Step {
                    child: i as u16,
                    place: same.then_some(place),
                }
            }
        }
    }

    // The descent from the root on; it counts the nodes whose tests pass. The count is lent: a refused descent has one too, which `?` would lose.
    #[tactic(auto, using(crate::proofs::Descending::internal_stops, crate::proofs::Descending::leaf_stops))]
    fn descend(&self, nodes: &mut u64) -> Result<Option<u64>, Refusal>
        requires { nodes.old ≡ 0 }
        ensures { let s = self.now in let t = s.tree in found_cells (found_of nodes.new result) ≡ find_cells t.file.now s.key s.sought
            (descent t.file.now t.geometry s.key s.sought (collect_tests t.file.now t.geometry) t.depth t.root.address t.root.records) }
    {
        let tree = &self.tree;
        let mut info = NodeInfo::EMPTY;
        info.fill(tree.geometry, tree.depth);
        let mut node = tree.root;
        let mut kept = None;
        for level in (0..tree.depth).rev() {
            let internal = Internal::new(node, tree.geometry, &info, level);
            internal.check(tree.file)?;
            *nodes += 1;
            let step = self.step(node);
            kept = step.place.or(kept);
            node = internal.child(tree.file, step.child);
        }
        let leaf = Leaf::new(node, tree.geometry.record_size);
        leaf.check(tree.file)?;
        *nodes += 1;
        Ok(self.step(node).place.or(kept))
    }
}

// Seeks the record of the header's tree; it counts the nodes whose tests pass.
#[tactic(auto, using(crate::proofs::Calls::refuses, crate::proofs::Calls::finds_nothing, crate::proofs::Calls::key_refused, crate::proofs::Calls::descends))]
fn seek(
    file: &[u8],
    header: BTreeV2Header,
    key: Field,
    sought: u64,
    nodes: &mut u64,
) -> Result<Option<u64>, Refusal>
    requires { nodes.old ≡ 0 }
    ensures { found_cells (found_of nodes.new result) ≡ found_at file.now header key sought }
{
    let Some(tree) = Tree::open(file, &header)? else {
        return Ok(None);
    };
    if !key.is_in(tree.geometry.record_size) {
        return Err(Refusal::InvalidKeyField);
    }
    let search = Search { tree, key, sought };
    search.descend(nodes)
}

// Finds the record of the header's tree that has this key in this field. Its place counts from the header's base on, as the addresses do.
pub fn find(file: &[u8], header: BTreeV2Header, key: Field, sought: u64) -> Found
    ensures { found_cells result ≡ found_at file.now header key sought }
{
    let mut nodes = 0;
    let place = seek(file, header, key, sought, &mut nodes);
    Found { nodes, place }
}
