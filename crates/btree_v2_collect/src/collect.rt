// Collecting: the records of a tree, put out end to end into a lent output.

ghost use Rattle.std.specs.Prelude.{◌≡◌, ◌+◌, ◌-◌, ◌*◌, ◌≤◌, ◌<◌, ◌++◌, length};
ghost use Rattle.refusal.specs.Answer.{cells, verdict_of};
ghost use Rattle.node_info.specs.Table.{info_at};
ghost use Rattle.btree_v2_collect.specs.Collect.{collected_at, count_cells};
ghost use Rattle.btree_v2_collect.specs.Answers.{Ends, collected_cells};
ghost use Rattle.btree_v2_collect.specs.Collecting.{counts_of};

use crate::tree::Tree;
use crate::{Collected, Tally};
use btree_v2_header::BTreeV2Header;
use btree_v2_internal::{Internal, Node};
use btree_v2_leaf::Leaf;
use node_info::NodeInfo;
use refusal::Refusal;

// A walk over a tree: the capacity table up to its depth, the output, which the records fill from the front on, and what has been counted.
#[derive(Drop)]
struct Walk<'a> {
    tree: Tree<'a>,
    info: &'a NodeInfo,
    output: &'a mut [u8],
    tally: Tally,
    ghost table: { info.now ≡ info_at tree.geometry tree.depth },
    ghost within: { tally.records * tree.geometry.record_size ≤ length output.now },
}

// How many of n records of this size fit into `room` bytes. The division is left out where all fit: by `(room / each).min(all)`, collecting from
// nodes of 40 to 128 bytes takes 4 to 9 in 100 longer, and at 64/11/8 more than its aim of 1.1 of a plain collector.
fn fitting(n: u16, size: u16, room: usize) -> usize
    requires { 0 < size }
    ensures { (result ≤ n) × (result * size ≤ room) × (result < n → room < (result + 1) * size) }
{
    let all = n as usize;
    let each = size as usize;
    if all * each <= room {
        return all;
    }
    room / each
}

impl Walk<'_> {
    ghost use Rattle.btree_v2_collect.specs.Walk.{records_put, own_record_run};
    ghost use Rattle.btree_v2_collect.specs.Collecting.{NodeThere, ChildrenLeft, internal_at, node_walk, children_walk};
    ghost use Rattle.btree_v2_collect.specs.State.{Walks};

    // Puts n records from place `from` of the file on out, after those that are there: as many as fit, and 15 where one does not.
    #[tactic(auto, using(crate::proofs::Putting::put_all, crate::proofs::Putting::put_part))]
    fn put_records(&mut self, from: usize, n: u16) -> Result<(), Refusal>
        requires { from + n * self.old.tree.geometry.record_size ≤ length self.old.tree.file.now }
        ensures { Walks self.old (records_put self.old.tree.file.now self.old.tree.geometry n from) result self.new }
    {
        let size = self.tree.geometry.record_size;
        let at = self.tally.records as usize * (size as usize);
        let fit = fitting(n, size, self.output.len() - at);
        let bytes = fit * (size as usize);
        numbers::put(self.output, at, &self.tree.file[from..from + bytes]);
        self.tally.records += fit as u64;
        if fit < n as usize {
            return Err(Refusal::OutputTooShort(self.output.len() as u64));
        }
        Ok(())
    }

    // Reads a leaf, whose records are put out at once.
    #[tactic(auto, using(crate::proofs::Steps::leaf_stops, crate::proofs::Steps::leaf_reads, crate::proofs::Nodes::leaf_tested, crate::proofs::Nodes::leaf_there))]
    fn collect_leaf(&mut self, node: Node) -> Result<(), Refusal>
        ensures { Walks self.old (node_walk self.old.tree.file.now self.old.tree.geometry 0 node.address node.records) result self.new }
    {
        let leaf = Leaf::new(node, self.tree.geometry.record_size);
        leaf.check(self.tree.file)?;
        self.tally.leaves = self.tally.leaves.saturating_add(1);
        let from = (node.address + format::PREFIX_SIZE) as usize;
        self.put_records(from, node.records)
    }

    // Puts record i of the internal node at this address out.
    #[tactic(auto, using(crate::proofs::Steps::own_record_stops, crate::proofs::Steps::own_record_puts, crate::proofs::Nodes::begin_fits))]
    fn put_own_record(&mut self, address: u64, i: u16) -> Result<(), Refusal>
        requires { NodeThere self.old.tree.file.now self.old.tree.geometry address (i + 1) }
        ensures { Walks self.old (own_record_run self.old.tree.file.now self.old.tree.geometry address i) result self.new }
    {
        let size = self.tree.geometry.record_size as usize;
        let from = (address + format::PREFIX_SIZE) as usize + i as usize * size;
        self.put_records(from, 1)?;
        self.tally.internal_records = self.tally.internal_records.saturating_add(1);
        Ok(())
    }

    // An internal node whose children have level `under`.
    fn internal(&self, under: u16, node: Node) -> Internal
        requires { under ≤ self.now.tree.depth }
        ensures { result ≡ internal_at self.now.tree.geometry under node }
    {
        Internal::new(node, self.tree.geometry, self.info, under)
    }

    // Reads the node of this level: a leaf, or an internal node with its children and its records between them. Handed on as it came, an answer has
    // 32 bytes and not one: so in both functions, collecting from nodes of 40 and 64 bytes took some 5 in 100 longer; its aim is 1.1 of a plain collector.
    #[cycle(collect_children_collect_node)]
    #[tactic(auto, using(crate::proofs::Steps::node_stops, crate::proofs::Steps::node_reads, crate::proofs::Nodes::tested_at, crate::proofs::Moves::walks_accepted))]
    fn collect_node(&mut self, level: u16, node: Node) -> Result<(), Refusal>
        requires { level ≤ self.old.tree.depth }
        ensures { Walks self.old (node_walk self.old.tree.file.now self.old.tree.geometry level node.address node.records) result self.new }
    {
        if level == 0 {
            self.collect_leaf(node)?;
            return Ok(());
        }
        let under = level - 1;
        let internal = self.internal(under, node);
        internal.check(self.tree.file)?;
        self.tally.internals = self.tally.internals.saturating_add(1);
        self.collect_children(&internal, under, 0, node.records)?;
        Ok(())
    }

    // Reads the children of an internal node from child `first` to child `last`, with the records between them: one child, or the first half, the
    // record in the middle, and the second half. One variable has all the answers, each taken apart by `let .. else`: by `?` a halving takes 48 bytes
    // more of the stack, and collecting from nodes of 40 and 64 bytes 5 to 13 in 100 longer, more than the same aim.
    #[cycle(collect_children_collect_node)]
    #[tactic(auto, using(crate::proofs::Moves::first_refused, crate::proofs::Moves::middle_refused, crate::proofs::Moves::others_read, crate::proofs::Moves::walks_accepted, crate::proofs::Moves::child_refused, crate::proofs::Moves::child_read))]
    fn collect_children(
        &mut self,
        internal: &Internal,
        under: u16,
        first: u16,
        last: u16,
    ) -> Result<(), Refusal>
        requires { ChildrenLeft self.old.tree.file.now self.old.tree.geometry self.old.tree.depth internal.now under first last }
        ensures { Walks self.old (children_walk self.old.tree.file.now self.old.tree.geometry under internal.now.node.address
            internal.now.node.records (last - first) first) result self.new }
    {
        let mut read = Ok(());
        if first == last {
            let child = internal.child(self.tree.file, first);
            read = self.collect_node(under, child);
            let Ok(()) = read else {
                return read;
            };
            return Ok(());
        }
        let middle = first + (last - first) / 2;
        read = self.collect_children(internal, under, first, middle);
        let Ok(()) = read else {
            return read;
        };
        read = self.put_own_record(internal.node.address, middle);
        let Ok(()) = read else {
            return read;
        };
        read = self.collect_children(internal, under, middle + 1, last);
        let Ok(()) = read else {
            return read;
        };
        Ok(())
    }
}

// What a call answers that ends like this.
#[tactic(auto, using(crate::proofs::Calls::count_cells_of))]
fn ended(verdict: Result<(), Refusal>, tally: Tally) -> Collected
    ensures is { result ≡ record { verdict = verdict; tally = tally } }
    ensures cells { collected_cells result ≡ cells 3 (verdict_of verdict) ++ count_cells (counts_of tally) }
{
    Collected { verdict, tally }
}

impl Tree<'_> {
    ghost use Rattle.btree_v2_collect.specs.Collecting.{node_walk};
    ghost use Rattle.btree_v2_collect.specs.Walk.{no_counts};

    // Collects from the root on.
    fn collect(&self, output: &mut [u8]) -> Collected
        ensures { let t = self.now in Ends (node_walk t.file.now t.geometry t.depth t.root.address t.root.records no_counts output.old) result output.new }
    {
        let mut info = NodeInfo::EMPTY;
        info.fill(self.geometry, self.depth);
        let mut walk = Walk {
            tree: *self,
            info: &info,
            output,
            tally: Tally::default(),
        };
        let verdict = walk.collect_node(self.depth, self.root);
        ended(verdict, walk.tally)
    }
}

// Collects the records of the tree that a header describes into the front of the output. Its addresses count from the header's base on.
pub fn collect_btree_v2_records(file: &[u8], header: BTreeV2Header, output: &mut [u8]) -> Collected
    ensures { Ends (collected_at file.now header output.old) result output.new }
{
    match Tree::open(file, &header) {
        Ok(Some(tree)) => tree.collect(output),
        Ok(None) => ended(Ok(()), Tally::default()),
        Err(cause) => ended(Err(cause), Tally::default()),
    }
}
