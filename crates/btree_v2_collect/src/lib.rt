// Collecting the records of a version 2 B-tree.

#![tactic(auto)]

use refusal::Refusal;

pub mod collect;
pub mod tree;

// Records put out, leaves read, internal nodes read, and records from internal nodes, each saturated at 2^64 - 1.
#[derive(Clone, Copy, Default)]
pub struct Tally {
    pub records: u64,
    pub leaves: u64,
    pub internals: u64,
    pub internal_records: u64,
}

// What collecting answers: the counts stand in a refused call too, up to where it stopped.
#[derive(Clone, Copy)]
pub struct Collected {
    pub verdict: Result<(), Refusal>,
    pub tally: Tally,
}
