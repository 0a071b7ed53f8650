// Every refusal of a write, decided from numbers alone: no buffer is lent here.

#![tactic(auto)]

ghost use Rattle.std.specs.Prelude.{◌≡◌, ◌-◌, ◌*◌, ◌^◌, ◌≤◌, ◌<◌};
ghost use Rattle.numbers.specs.Numbers.{saturated};
ghost use Rattle.refusal.specs.Answer.{verdict_of};
ghost use Rattle.write_checks.specs.Tests.{length_answer, Checked};

use format::Request;
use plan::PlanAndTable;
use refusal::Refusal;

// The lengths of the lent buffers.
#[derive(Clone, Copy)]
pub struct Lengths {
    pub records: u64,
    pub header: u64,
    pub image: u64,
}

// The largest number that a field of this size holds, or 2^64 - 1 where it holds more.
#[tactic(auto, using(crate::proofs::Checking::power_low, crate::proofs::Checking::power_high))]
fn largest(size: u8) -> u64
    ensures { result ≡ saturated (2 ^ (8 * size) - 1) }
{
    1u64.checked_shl(8 * (size as u32))
        .map_or(u64::MAX, |past| past - 1)
}

// Refusals 12 to 15, where a plan is accepted whose image has these bytes.
#[tactic(auto, unfolding(crate::specs::Tests::length_answer))]
fn test_lengths(request: Request, image_size: u64, lengths: Lengths) -> Result<(), Refusal>
    requires offset { 2 ^ (8 * request.geometry.offset_size) ≤ 2 ^ 64 }
    requires few { request.record_count < 2 ^ 24 }
    ensures { verdict_of result ≡ length_answer request image_size lengths }
{
    let record_count = request.record_count;
    if lengths.records != record_count * (request.geometry.record_size as u64) {
        return Err(Refusal::RecordBufferLength(lengths.records));
    }
    if largest(request.length_size) < record_count {
        return Err(Refusal::CountAboveLengthSize(record_count));
    }
    let start = request.start;
    let most = largest(request.geometry.offset_size);
    let end = start.checked_add(image_size);
    if end.is_none_or(|end| most < end) {
        return Err(Refusal::AddressAboveOffsetSize(start));
    }
    if lengths.header < request.header_size() {
        return Err(Refusal::OutputTooShort(lengths.header));
    }
    if lengths.image < image_size {
        return Err(Refusal::OutputTooShort(lengths.image));
    }
    Ok(())
}

// Every refusal of the call, decided from its numbers and the lengths of the lent buffers; accepted, the plan and its table.
#[tactic(auto, using(crate::proofs::Checking::power_fits, crate::proofs::Checking::records_few, crate::proofs::Checking::checked_passed, crate::proofs::Checking::checked_lengths), unfolding(crate::specs::Writing::write_answer))]
pub fn check(request: Request, lengths: Lengths) -> Result<PlanAndTable, Refusal>
    ensures { Checked request lengths result }
{
    node_info::check_offset_size(request.geometry.offset_size)?;
    node_info::check_length_size(request.length_size)?;
    let laid = plan::lay_out(request.record_count, request.geometry)?;
    test_lengths(request, laid.plan.image_size, lengths)?;
    Ok(laid)
}
