// Internal nodes: their tests, of the front, which every node has, and of the body; and the child that a pointer leads to.

#![tactic(auto)]

ghost use Rattle.std.specs.Prelude.{◌≡◌, ◌*◌, ◌^◌, ◌<◌};
ghost use Rattle.refusal.specs.Answer.{verdict_of};
ghost use Rattle.node_info.specs.Table.{pointer_size, pointer_in};
ghost use Rattle.btree_v2_internal.specs.Internal.{internal_body, internal_test};
ghost use Rattle.btree_v2_internal.specs.Pointers.{address_at, records_at};

use node_info::{ChildPointer, Geometry, NodeInfo};
pub use read_checks::Node;
use refusal::Refusal;

// An internal node, and the bytes of its records and of its pointers' fields.
#[derive(Clone, Copy)]
pub struct Internal {
    pub node: Node,
    pub record_size: u16,
    pub pointer: ChildPointer,
}

impl Internal {
    // This node of a tree with these sizes and this table, where its children have level `under`.
    pub fn new(node: Node, geometry: Geometry, info: &NodeInfo, under: u16) -> Internal
        ensures { result ≡ record {
          node = node;
          record_size = geometry.record_size;
          pointer = pointer_in info.now geometry.offset_size under;
        } }
    {
        Internal {
            node,
            record_size: geometry.record_size,
            pointer: info.pointer_to(geometry.offset_size, under),
        }
    }

    // The bytes of this many of its pointers.
    fn pointers_size(self, count: u32) -> u64
        ensures size { result ≡ count * pointer_size self.pointer }
        ensures small { result < 2 ^ 42 }
    {
        count as u64 * self.pointer.size()
    }

    // Its tests. The two lines are a leaf's as well, with another signature and body: a trait of the two types would be longer.
    #[tactic(auto, unfolding(crate::specs::Internal::internal_test))]
    pub fn check(&self, file: &[u8]) -> Result<(), Refusal>
        ensures { let x = self.now in verdict_of result ≡ internal_test file.now x.record_size x.pointer.offset_size
            (pointer_size x.pointer) x.node.address x.node.records }
    {
        read_checks::check_front(file, self.node.address, b"BTIN")?;
        self.check_body(file)
    }

    // The tests after those of the front: the records and the pointers are there, and offsets have one of the sizes.
    #[tactic(auto, unfolding(crate::specs::Internal::internal_body))]
    pub fn check_body(&self, file: &[u8]) -> Result<(), Refusal>
        ensures { let x = self.now in verdict_of result ≡ internal_body file.now x.record_size x.pointer.offset_size
            (pointer_size x.pointer) x.node.address x.node.records }
    {
        let rest = numbers::part(file, self.node.address, file.len() as u64);
        let records_end = self.node.records_end(self.record_size);
        read_checks::ensure_len(rest, 0, records_end)?;
        let pointers = self.pointers_size(self.node.records as u32 + 1);
        read_checks::ensure_len(rest, records_end, pointers)?;
        node_info::check_offset_size(self.pointer.offset_size)
    }

    // The child that pointer i leads to. A place that is saturated at 2^64 - 1 is past the end of every file.
    #[tactic(auto, using(crate::proofs::Nodes::address_is, crate::proofs::Nodes::records_is, numbers::proofs::Numbers::num_fits_w16))]
    pub fn child(&self, file: &[u8], i: u16) -> Node
        ensures address { result.address ≡ address_at file.now self.now i }
        ensures records { result.records ≡ records_at file.now self.now i }
    {
        let records_end = self.node.records_end(self.record_size);
        let pointer = self.pointer;
        let before = records_end + self.pointers_size(i as u32);
        let at = self.node.address.saturating_add(before);
        let next = at.saturating_add(pointer.offset_size as u64);
        let address = numbers::read_le(file, at as usize, pointer.offset_size as usize);
        // a count is taken modulo 65,536: its first two bytes hold that
        let count_size = (pointer.count_size as usize).min(2);
        let records = numbers::read_le(file, next as usize, count_size) as u16;
        Node { address, records }
    }
}
