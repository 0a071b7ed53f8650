// A node that is filled front to back, field after field, within a budget of fields. The place of a later field is got here alone, by putting
// the fields before it.

ghost use Rattle.std.specs.Prelude.{◌≡◌, [], ◌∷◌, ◌+◌, ◌-◌, ◌*◌, ◌^◌, ◌≤◌, ◌<◌, length};
ghost use Rattle.numbers.specs.Numbers.{le};
ghost use Rattle.format.specs.Bytes.{prefix_size};
ghost use Rattle.format.specs.Fields.{front_fields, record_fields};
ghost use Rattle.btree_v2_stamp.specs.Stamped.{stamped};
ghost use Rattle.btree_v2_write.specs.Filled.{start, Filled, Passed};

// Copies a slice over another of the same length. A loop: by `copy_from_slice`, which calls the C library's memmove, a write of 1,000,000 records of
// 11 bytes took a tenth longer, more than its aim of 1.03 of the time before nodes were filled in one pass.
fn copy(to: &mut [u8], from: &[u8])
    requires { length to.old ≡ length from.now }
    ensures { to.new ≡ from.now }
{
    for (i, byte) in from.iter().enumerate() {
        to[i] = *byte;
    }
}

// The budget of a whole node: more than a node has fields.
pub(crate) const WHOLE: usize = usize::MAX;

// A node, where its next field goes, and how many fields may still be put. Where none may, the place goes on all the same.
#[derive(Drop)]
pub(crate) struct Filling<'a> {
    node: &'a mut [u8],
    at: usize,
    left: usize,
}

impl<'a> Filling<'a> {
    // Puts the first fields of a node, if the budget has them: the signature, the version and the tree type.
    pub(crate) fn begin(
        node: &'a mut [u8],
        signature: &[u8; 4],
        tree_type: u8,
        budget: usize,
    ) -> Filling<'a>
        requires { prefix_size ≤ length node.old }
        ensures { Filled (start node.entry budget) (front_fields signature.now tree_type) result }
    {
        btree_v2_stamp::put_front(node, signature, tree_type, budget);
        Filling {
            node,
            at: format::PREFIX_SIZE as usize,
            left: budget.saturating_sub(3),
        }
    }

    // Goes on behind `fields` fields, of `bytes` bytes in all.
    fn pass(&mut self, fields: usize, bytes: usize)
        requires { self.old.at + bytes < 2 ^ 64 }
        ensures { Passed self.old fields bytes self.new }
    {
        self.at += bytes;
        self.left = self.left.saturating_sub(fields);
    }

    // Puts x in `width` bytes as the next field, if it may still be put.
    pub(crate) fn put_number(&mut self, x: u64, width: usize)
        requires { self.old.at + width ≤ length self.old.node.now }
        ensures { Filled self.old (le width x ∷ []) self.new }
    {
        if 0 < self.left {
            numbers::write_le(self.node, self.at, x, width);
        }
        self.pass(1, width);
    }

    // Puts the n records from record r of the list on as the next fields, each of `size` bytes: in one copy, those that may still be put. The list
    // and not a slice of these records: with that, contracts here would say its length in place of the bound, and callers cut it out first.
    pub(crate) fn put_records(&mut self, records: &[u8], size: usize, n: usize, r: usize)
        requires { (self.old.at + n * size ≤ length self.old.node.now) × ((r + n) * size ≤ length records.now) }
        ensures { Filled self.old (record_fields size records.now n r) self.new }
    {
        let bytes = n.min(self.left) * size;
        let first = r * size;
        copy(
            &mut self.node[self.at..self.at + bytes],
            &records[first..first + bytes],
        );
        self.pass(n, n * size);
    }

    // Puts the last fields of a node, those that may still be put: the checksum of all before it, and zeros to the node size.
    pub(crate) fn finish(self, node_size: usize)
        ensures { self.exit.0.now ≡ stamped self.entry.node.now self.entry.at node_size self.entry.left }
    {
        let Filling { node, at, left } = self;
        btree_v2_stamp::stamp(node, at, node_size, left);
    }
}
