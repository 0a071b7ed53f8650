// What writer and readers share: the sizes that the format fixes, and what a write is given. The bytes are definitions.

#![tactic(auto)]

ghost use Rattle.std.specs.Prelude.{◌≡◌};
ghost use Rattle.format.specs.Bytes.{header_size};

use node_info::Geometry;

// Bytes of a node before its records: signature, version, type.
pub const PREFIX_SIZE: u64 = 6;

// Bytes of a header beside the root's address and the number of records in all.
pub const HEADER_OVERHEAD: u64 = 22;

// The numbers that a write is given: any may be, also as its type and its sizes, and each has an answer.
#[derive(Clone, Copy)]
pub struct Request {
    pub tree_type: u8,
    pub record_count: u64,
    pub geometry: Geometry,
    pub length_size: u8,
    // the address of the first node
    pub start: u64,
}

impl Request {
    // The bytes of its header.
    pub fn header_size(&self) -> u64
        ensures { result ≡ header_size self.now.geometry.offset_size self.now.length_size }
    {
        HEADER_OVERHEAD + (self.geometry.offset_size as u64) + (self.length_size as u64)
    }
}
