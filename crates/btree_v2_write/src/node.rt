// Filling one node: a leaf or an internal node, in its place of the image. Its fields are put front to back, as many as a budget has; a contract
// says for every budget what the node then is.

ghost use Rattle.std.specs.Prelude.{◌≡◌, ◌+◌, ◌*◌, ◌^◌, ◌≤◌, ◌<◌, length, take, ltb};
ghost use Rattle.numbers.specs.Numbers.{pick};
ghost use Rattle.numbers.specs.Places.{stored, joined, filled_to};
ghost use Rattle.format.specs.Fields.{leaf_fields};
ghost use Rattle.btree_v2_write.specs.Filled.{Filled};

use crate::filling::Filling;
use format::Request;
use node_info::NodeInfo;
use plan::Distribution;

// What all nodes of a tree share: the numbers of the write, the list of its records, and the table of its levels.
#[derive(Clone, Copy)]
pub(crate) struct Writing<'a> {
    pub(crate) request: Request,
    pub(crate) records: &'a [u8],
    pub(crate) info: &'a NodeInfo,
}

// A place in a writing: the nodes and the records before it, which are the numbers of the next node and record.
#[derive(Clone, Copy)]
pub(crate) struct Place {
    pub(crate) nodes: usize,
    pub(crate) records: usize,
}

// A child in numbers, as its writing returns it: its root's records, all its records, and its nodes.
#[derive(Clone, Copy)]
pub(crate) struct Child {
    pub(crate) records: u64,
    pub(crate) total: u64,
    pub(crate) nodes: usize,
}

// An internal node in numbers: its records and those of its children; a child of the larger share and one of the smaller; the bytes of a record
// count and of a total in a pointer; and the place of the first node and record below it. No invariant bounds these numbers: the laws of one pass
// are of every node.
#[derive(Clone, Copy)]
pub(crate) struct InternalNode {
    pub(crate) distributed: Distribution,
    pub(crate) large: Child,
    pub(crate) small: Child,
    pub(crate) count_size: usize,
    pub(crate) total_size: usize,
    pub(crate) first: Place,
}

// The records of child i. Not a method of plan's `Distribution`, which would be public: it asks for a `base` that one can be added to, and a public
// function asks nothing.
pub(crate) fn share(distributed: &Distribution, i: u64) -> u64
    requires { distributed.now.base < 2 ^ 32 }
    ensures { result ≡ pick (ltb i distributed.now.extra) (distributed.now.base + 1) distributed.now.base }
{
    distributed.of_child(i, distributed.base + 1, distributed.base)
}

impl Writing<'_> {
    ghost use Rattle.btree_v2_write.specs.Shares.{child_shares, with_one, records_after, pointer_to, pointers_to, children_of, pointer_of, PointerFits, PointersFit, InternalNodeFits, internal_node_fields};

    // Fills a leaf of n records, the first of them record r: its first `budget` fields.
    fn fill_leaf(&self, node: &mut [u8], n: usize, r: usize, budget: usize)
        requires { (self.now.request.geometry.node_size ≤ length node.old) × (10 + n * self.now.request.geometry.record_size ≤ self.now.request.geometry.node_size)
            × ((r + n) * self.now.request.geometry.record_size ≤ length self.now.records.now) }
        ensures { node.new ≡ filled_to budget (leaf_fields self.now.request self.now.records.now n r) node.old }
    {
        let geometry = self.request.geometry;
        let mut filling = Filling::begin(node, b"BTLF", self.request.tree_type, budget);
        filling.put_records(self.records, geometry.record_size as usize, n, r);
        filling.finish(geometry.node_size as usize);
    }

    // Writes a leaf of n records as the next node: its first `budget` fields.
    #[tactic(auto, using(crate::proofs::Nodes::node_placed))]
    pub(crate) fn write_leaf(&self, image: &mut [u8], n: usize, at: Place, budget: usize)
        requires { ((at.nodes + 1) * self.now.request.geometry.node_size ≤ length image.old) × (10 + n * self.now.request.geometry.record_size ≤ self.now.request.geometry.node_size)
            × ((at.records + n) * self.now.request.geometry.record_size ≤ length self.now.records.now) }
        ensures { image.new ≡ stored image.old (at.nodes * self.now.request.geometry.node_size) (joined (take budget (leaf_fields self.now.request self.now.records.now n at.records))) }
    {
        let from = at.nodes * (self.request.geometry.node_size as usize);
        self.fill_leaf(&mut image[from..], n, at.records, budget);
    }

    // Puts the node's own records as the next fields, those that may still be put.
    #[tactic(auto, using(crate::proofs::Internal::record_place_lem, crate::proofs::Internal::record_there))]
    fn put_own_records(&self, filling: &mut Filling<'_>, internal: &InternalNode)
        requires { (internal.now.distributed.base < 2 ^ 32) × (filling.old.at + internal.now.distributed.kept * self.now.request.geometry.record_size ≤ length filling.old.node.now)
            × ((internal.now.first.records + with_one (child_shares internal.now)) * self.now.request.geometry.record_size ≤ length self.now.records.now) × (0 < self.now.request.geometry.record_size) }
        ensures { Filled filling.old (records_after self.now.request.geometry.record_size self.now.records.now (child_shares internal.now) internal.now.first.records) filling.new }
    {
        let record_size = self.request.geometry.record_size as usize;
        let mut next = internal.first.records;
        for i in 0..internal.distributed.kept {
            next += share(&internal.distributed, i) as usize;
            filling.put_records(self.records, record_size, 1, next);
            next += 1;
        }
    }

    // The address of node j.
    pub(crate) fn node_address(&self, j: usize) -> u64
        requires { self.now.request.start + j * self.now.request.geometry.node_size < 2 ^ 64 }
        ensures { result ≡ self.now.request.start + j * self.now.request.geometry.node_size }
    {
        self.request.start + (j as u64) * (self.request.geometry.node_size as u64)
    }

    // Puts address, record count and total of a node's pointer to a child as the next fields, those that may still be put; the child's first node
    // is node j.
    fn put_pointer(
        &self,
        filling: &mut Filling<'_>,
        internal: &InternalNode,
        child: Child,
        j: usize,
    )
        requires { PointerFits self.now.request (length filling.old.node.now) filling.old.at child (pointer_of self.now.request internal.now) j }
        ensures { Filled filling.old (pointer_to self.now.request (pointer_of self.now.request internal.now) child j) filling.new }
    {
        let address = self.node_address(j + (child.nodes - 1));
        filling.put_number(address, self.request.geometry.offset_size as usize);
        filling.put_number(child.records, internal.count_size);
        filling.put_number(child.total, internal.total_size);
    }

    // Puts the pointers to a node's children as the next fields, those that may still be put.
    fn put_pointers(&self, filling: &mut Filling<'_>, internal: &InternalNode)
        requires { PointersFit self.now.request (length filling.old.node.now) filling.old.at internal.now }
        ensures { Filled filling.old (pointers_to self.now.request (pointer_of self.now.request internal.now) (children_of internal.now) internal.now.first.nodes) filling.new }
    {
        let mut next = internal.first.nodes;
        for i in 0..=internal.distributed.kept {
            let child = internal
                .distributed
                .of_child(i, internal.large, internal.small);
            self.put_pointer(filling, internal, child, next);
            next += child.nodes;
        }
    }

    // Fills an internal node: its first `budget` fields.
    fn fill_internal(&self, node: &mut [u8], internal: &InternalNode, budget: usize)
        requires numbers { InternalNodeFits self.now.request (length self.now.records.now) internal.now }
        requires room { self.now.request.geometry.node_size ≤ length node.old }
        ensures { node.new ≡ filled_to budget (internal_node_fields self.now.request self.now.records.now internal.now) node.old }
    {
        let mut filling = Filling::begin(node, b"BTIN", self.request.tree_type, budget);
        self.put_own_records(&mut filling, internal);
        self.put_pointers(&mut filling, internal);
        filling.finish(self.request.geometry.node_size as usize);
    }

    // Writes an internal node as node j of the image: its first `budget` fields.
    #[tactic(auto, using(crate::proofs::Nodes::node_placed))]
    pub(crate) fn write_internal(
        &self,
        image: &mut [u8],
        internal: &InternalNode,
        j: usize,
        budget: usize,
    )
        requires numbers { InternalNodeFits self.now.request (length self.now.records.now) internal.now }
        requires room { (j + 1) * self.now.request.geometry.node_size ≤ length image.old }
        ensures { image.new ≡ stored image.old (j * self.now.request.geometry.node_size) (joined (take budget (internal_node_fields self.now.request self.now.records.now internal.now))) }
    {
        let from = j * (self.request.geometry.node_size as usize);
        self.fill_internal(&mut image[from..], internal, budget);
    }
}
