// What the header reader, the leaf's look and the readers of a tree share: their tests, and where a node's records are.

#![tactic(auto)]

ghost use Rattle.std.specs.Prelude.{◌≡◌, ◌≤◌, ◌<◌, [], ◌+◌, ◌*◌, ◌^◌, length, drop, MatchResult};
ghost use Rattle.refusal.specs.Answer.{accepted, verdict_of, answer_of};
ghost use Rattle.numbers.specs.Numbers.{part};
ghost use Rattle.refusal.specs.declared.Refusal.TheVariants.{BaseBeyondFile};
ghost use Rattle.format.specs.Bytes.{prefix_size, records_end};
ghost use Rattle.read_checks.specs.Base.{base_test};
ghost use Rattle.read_checks.specs.Tests.{needs, same, front_test, checksum_test, no_records, root_test};

use node_info::NodeInfo;
use refusal::Refusal;

// A node as the pointer to it has it: where it begins, and how many records it has.
#[derive(Clone, Copy)]
pub struct Node {
    pub address: u64,
    pub records: u16,
}

impl Node {
    // The place in it where its records end.
    pub fn records_end(self, record_size: u16) -> u64
        ensures end { result ≡ records_end record_size self.records }
        ensures small { result < 2 ^ 33 }
    {
        format::PREFIX_SIZE + record_size as u64 * self.records as u64
    }

    // The bytes of its records, or as many as there are.
    pub fn records_in(self, file: &[u8], record_size: u16) -> &[u8]
        ensures { result.now ≡ part file.now (self.address + prefix_size) (self.records * record_size) }
    {
        let first = self.address.saturating_add(format::PREFIX_SIZE);
        numbers::part(file, first, record_size as u64 * self.records as u64)
    }
}

// The part of the file from `base` on; refusal 18 where the base is beyond the file's length.
#[tactic(auto, unfolding(crate::specs::Base::on_part))]
pub fn part_from(file: &[u8], base: u64) -> Result<&[u8], Refusal>
    ensures verdict { answer_of (λ part. []) result ≡ base_test file.now base }
    ensures cases { MatchResult result (λ part. (base ≤ length file.now) × (part.now ≡ drop base file.now))
        (λ cause. (length file.now < base) × (cause ≡ BaseBeyondFile)) }
{
    file.get(base as usize..).ok_or(Refusal::BaseBeyondFile)
}

// Refusal 1 where fewer than `count` bytes are there from `at` on.
pub fn ensure_len(data: &[u8], at: u64, count: u64) -> Result<(), Refusal>
    ensures { verdict_of result ≡ needs (at + count) (length «data».now) (accepted []) }
{
    let available = data.len() as u64;
    let expected = at.saturating_add(count);
    if available < expected {
        return Err(Refusal::UnexpectedEof {
            expected,
            available,
        });
    }
    Ok(())
}

// Whether four bytes are there at `at`, and are this signature.
#[tactic(auto, using(crate::proofs::Checks::signature_none, crate::proofs::Checks::signature_starts))]
pub fn has_signature(data: &[u8], at: usize, signature: &[u8; 4]) -> bool
    ensures { result ≡ same (part «data».now at 4) signature.now }
{
    data.get(at..)
        .is_some_and(|rest| rest.starts_with(signature))
}

// The front of a node: its first 6 bytes are there, and it has this signature.
#[tactic(auto, unfolding(crate::specs::Tests::front_test))]
pub fn check_front(file: &[u8], address: u64, signature: &[u8; 4]) -> Result<(), Refusal>
    ensures { verdict_of result ≡ front_test file.now signature.now address }
{
    ensure_len(file, address, format::PREFIX_SIZE)?;
    if has_signature(file, address as usize, signature) {
        return Ok(());
    }
    Err(Refusal::InvalidBTreeV2Signature)
}

// Refusal 6 where the number in the four bytes at `end` is not the checksum of the bytes from `from` to there; each is of as many bytes
// as there are.
#[tactic(auto, using(numbers::proofs::Numbers::num_fits_w32), unfolding(crate::specs::Tests::checksum_test))]
pub fn check_checksum(data: &[u8], from: usize, end: usize) -> Result<(), Refusal>
    ensures { verdict_of result ≡ checksum_test «data».now from end (accepted []) }
{
    let stored = numbers::read_le(data, end, 4) as u32;
    let bytes = numbers::part(data, from as u64, end.saturating_sub(from) as u64);
    let computed = checksum::jenkins_lookup3(bytes);
    if stored != computed {
        return Err(Refusal::ChecksumMismatch {
            expected: stored,
            computed,
        });
    }
    Ok(())
}

// Whether a tree has no records by its header: none in all, or none in the root.
pub fn is_empty(total_records: u64, root_records: u16) -> bool
    ensures { result ≡ no_records total_records root_records }
{
    total_records == 0 || root_records == 0
}

// What is tested before the root: records have bytes, and the tree is not too deep.
#[tactic(auto, unfolding(crate::specs::Tests::root_test))]
pub fn check_root(record_size: u16, depth: u16) -> Result<(), Refusal>
    ensures { verdict_of result ≡ root_test record_size depth }
{
    if record_size == 0 {
        return Err(Refusal::ZeroRecordSize);
    }
    if NodeInfo::LEVEL_LIMIT < depth {
        return Err(Refusal::DepthAboveLimit(depth));
    }
    Ok(())
}
