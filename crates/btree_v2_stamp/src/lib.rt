// What stands around the contents of the header and of every node: signature, version and type in front, checksum and zeros behind; and the
// header itself. A budget says how many of these fields are put: what stands after each of them is part of the promise, for every budget.
// Where there is no room for the bytes, nothing is changed: that is promised too and can't fail, so no Option.

#![tactic(auto)]

ghost use Rattle.std.specs.Prelude.{◌≡◌, ◌≤◌, length};
ghost use Rattle.numbers.specs.Places.{stored, put};
ghost use Rattle.format.specs.Bytes.{header_bytes};
ghost use Rattle.btree_v2_stamp.specs.Header.{fixed_bytes};
ghost use Rattle.btree_v2_stamp.specs.Stamped.{fronted, stamped};

use format::Request;

// When a node is split and merged, in percent of its capacity; written into the header alone.
const SPLIT_PERCENT: u64 = 100;

const MERGE_PERCENT: u64 = 40;

// What a header says of a tree: its depth, the address and the records of its root, and the records in all.
#[derive(Clone, Copy)]
pub struct Root {
    pub depth: u64,
    pub address: u64,
    pub records: u64,
    pub total: u64,
}

// Puts the signature, the version and the tree type, the first `budget` of them, where six bytes are there; else changes nothing.
#[tactic(auto, using(crate::proofs::Frames::fronts))]
pub fn put_front(node: &mut [u8], signature: &[u8; 4], tree_type: u8, budget: usize)
    ensures { node.new ≡ fronted node.old signature.now tree_type budget }
{
    if node.len() < 6 || budget < 1 {
        return;
    }
    numbers::put(node, 0, signature);
    if budget < 2 {
        return;
    }
    node[4] = 0;
    if budget < 3 {
        return;
    }
    node[5] = tree_type;
}

// Puts the checksum of the first `used` bytes after them, and then zeros to the node size, the first `budget` of the two, where that much is
// there; else changes nothing.
#[tactic(auto, using(crate::proofs::Frames::stamps))]
pub fn stamp(node: &mut [u8], used: usize, node_size: usize, budget: usize)
    ensures { node.new ≡ stamped node.old used node_size budget }
{
    if node.len() < node_size || node_size < 4 || node_size - 4 < used || budget < 1 {
        return;
    }
    let sum = checksum::jenkins_lookup3(&node[..used]);
    numbers::write_le(node, used, sum as u64, 4);
    if budget < 2 {
        return;
    }
    node[used + 4..node_size].fill(0);
}

// Puts the header's first sixteen bytes, to the merge percent.
#[tactic(auto, using(crate::proofs::Headers::fixed_put))]
fn put_fixed(header: &mut [u8], request: &Request, depth: u64)
    requires { 16 ≤ length header.old }
    ensures { header.new ≡ stored header.old 0 (fixed_bytes request.now depth) }
{
    let geometry = request.geometry;
    put_front(header, b"BTHD", request.tree_type, 3);
    numbers::write_le(header, 6, geometry.node_size as u64, 4);
    numbers::write_le(header, 10, geometry.record_size as u64, 2);
    numbers::write_le(header, 12, depth, 2);
    numbers::write_le(header, 14, SPLIT_PERCENT, 1);
    numbers::write_le(header, 15, MERGE_PERCENT, 1);
}

// Puts the bytes of a request's header where they fit; else changes nothing.
#[tactic(auto, using(crate::proofs::Headers::header_short, crate::proofs::Headers::header_put))]
pub fn write_header(header: &mut [u8], request: &Request, root: &Root)
    ensures { header.new ≡ put header.old 0 (header_bytes request.now root.now.depth root.now.address root.now.records root.now.total) }
{
    let offset_size = request.geometry.offset_size as usize;
    let length_size = request.length_size as usize;
    let size = request.header_size() as usize;
    if header.len() < size {
        return;
    }
    put_fixed(header, request, root.depth);
    numbers::write_le(header, 16, root.address, offset_size);
    numbers::write_le(header, 16 + offset_size, root.records, 2);
    numbers::write_le(header, 18 + offset_size, root.total, length_size);
    stamp(header, size - 4, size, 2);
}
