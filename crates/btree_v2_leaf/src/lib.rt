// A leaf: its tests, of the front, which every node has, and of the body; and the bytes of its records.

#![tactic(auto)]

ghost use Rattle.std.specs.Prelude.{◌≡◌, ◌+◌, ◌*◌};
ghost use Rattle.numbers.specs.Numbers.{part};
ghost use Rattle.refusal.specs.Answer.{verdict_of};
ghost use Rattle.format.specs.Bytes.{prefix_size};
ghost use Rattle.btree_v2_leaf.specs.Leaf.{leaf_body, leaf_test};

pub use read_checks::Node;
use refusal::Refusal;

// A leaf as the pointer to it and the tree's header have it.
#[derive(Clone, Copy)]
pub struct Leaf {
    pub node: Node,
    pub record_size: u16,
}

impl Leaf {
    // This node of a tree with records of this size.
    pub fn new(node: Node, record_size: u16) -> Leaf
        ensures { result ≡ record { node = node; record_size = record_size } }
    {
        Leaf { node, record_size }
    }

    // Its tests, as collecting makes them.
    #[tactic(auto, unfolding(crate::specs::Leaf::leaf_test))]
    pub fn check(self, file: &[u8]) -> Result<(), Refusal>
        ensures { verdict_of result ≡ leaf_test file.now self.record_size self.node.address self.node.records }
    {
        read_checks::check_front(file, self.node.address, b"BTLF")?;
        self.check_body(file)
    }

    // The tests after those of the front: the records are there, the 4 bytes of the checksum are, and the checksum is right.
    #[tactic(auto, unfolding(crate::specs::Leaf::leaf_body))]
    pub fn check_body(self, file: &[u8]) -> Result<(), Refusal>
        ensures { verdict_of result ≡ leaf_body file.now self.record_size self.node.address self.node.records }
    {
        let size = self.node.records_end(self.record_size);
        read_checks::ensure_len(file, self.node.address, size)?;
        let end = self.node.address + size;
        read_checks::ensure_len(file, end, 4)?;
        read_checks::check_checksum(file, self.node.address as usize, end as usize)
    }

    // The bytes of its records, or as many as there are.
    pub fn records(self, file: &[u8]) -> &[u8]
        ensures { result.now ≡ part file.now (self.node.address + prefix_size) (self.node.records * self.record_size) }
    {
        self.node.records_in(file, self.record_size)
    }
}
