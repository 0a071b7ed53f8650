// Writing subtrees, node after node: the children of a node first, and then the node.

ghost use Rattle.std.specs.Prelude.{◌≡◌, ◌+◌, ◌^◌, ◌<◌, length};
ghost use Rattle.btree_v2_write.specs.Subtrees.{after, RightBelow, Ready, SubtreeWritten};

use crate::filling::WHOLE;
use crate::node;
use crate::node::{Child, InternalNode, Place, Writing};

impl Place {
    // The place after a subtree that was written here, and the record that follows it.
    fn after(self, child: &Child) -> Place
        requires { (self.nodes + child.now.nodes < 2 ^ 64) × (self.records + child.now.total + 1 < 2 ^ 64) }
        ensures { result ≡ after self child.now }
    {
        Place {
            nodes: self.nodes + child.nodes,
            records: self.records + (child.total as usize) + 1,
        }
    }
}

impl Writing<'_> {
    // Writes the nodes of a subtree of n records from this place on, and gives the subtree in numbers. The children go first, one after another,
    // and then the root, whose pointers are made of what the children's calls returned: the first child is one of the larger size, where there
    // is one, and the last one of the smaller. The place reached goes on by what each returned. It asks for a table that is right of the levels below
    // the root's.
    pub(crate) fn write_subtree(&self, image: &mut [u8], depth: usize, n: u64, at: Place) -> Child
        requires sized { 0 < self.now.request.geometry.record_size }
        requires table { RightBelow self.now.request self.now.info.now depth }
        requires ready { Ready self.now.request (length self.now.records.now) (length image.old) depth n at.nodes at.records }
        ensures { SubtreeWritten self.now.request self.now.records.now image.old image.new depth n at.nodes at.records result }
    {
        if depth == 0 {
            self.write_leaf(image, n as usize, at, WHOLE);
            return Child {
                records: n,
                total: n,
                nodes: 1,
            };
        }
        let under = depth - 1;
        let distributed = plan::distribute(self.info.levels[under].cum_max_nrec, n);
        let large = self.write_subtree(image, under, node::share(&distributed, 0), at);
        let mut small = large;
        let mut next = at.after(&large);
        for i in 1..=distributed.kept {
            small = self.write_subtree(image, under, node::share(&distributed, i), next);
            next = next.after(&small);
        }
        let internal = InternalNode {
            distributed,
            large,
            small,
            count_size: self.info.max_nrec_size as usize,
            total_size: self.info.levels[under].cum_max_nrec_size as usize,
            first: at,
        };
        self.write_internal(image, &internal, next.nodes, WHOLE);
        Child {
            records: distributed.kept,
            total: n,
            nodes: next.nodes + 1 - at.nodes,
        }
    }
}
