// A write, the header reader and the collector, one after another: demand 3 as one claim on the three calls.

#![tactic(auto)]

ghost use Rattle.round_trip.specs.ThreeCalls.{lent, on_parsed, Collects, Answered};

use btree_v2_collect::{Collected, Tally};
use btree_v2_header::BTreeV2Header;
use format::Request;
use plan::BTreeV2Plan;
use refusal::Refusal;

// The three calls' answers. Where the header is refused, nothing is collected and the verdict is that refusal.
#[derive(Clone, Copy)]
pub struct RoundTrip {
    pub written: Result<BTreeV2Plan, Refusal>,
    pub header: Result<BTreeV2Header, Refusal>,
    pub collected: Collected,
}

// What is lent for reading: a file, the base from which the part begins that is read, and the place of the header in that part.
#[derive(Clone, Copy)]
pub struct Reading<'a> {
    pub file: &'a [u8],
    pub base: u64,
    pub place: u64,
}

// Collects the tree of a header that was read, or hands its refusal on.
#[tactic(auto, using(crate::proofs::Claims::collects_refused))]
fn collect_parsed(
    file: &[u8],
    parsed: Result<BTreeV2Header, Refusal>,
    output: &mut [u8],
) -> Collected
    ensures { Collects (on_parsed parsed file.now output.old) result output.new }
{
    match parsed {
        Ok(header) => btree_v2_collect::collect::collect_btree_v2_records(file, header, output),
        Err(cause) => Collected {
            verdict: Err(cause),
            tally: Tally::default(),
        },
    }
}

// Writes a tree, reads the header at a place of the part of a file from a base on, and collects the tree of that header.
pub fn round_trip(
    request: Request,
    records: &[u8],
    header: &mut [u8],
    image: &mut [u8],
    reading: Reading<'_>,
    output: &mut [u8],
) -> RoundTrip
    ensures { Answered request (lent records.now header.old image.old reading.entry output.old)
        result header.new image.new output.new }
{
    let written = btree_v2_write::write(request, records, header, image);
    let Reading { file, base, place } = reading;
    let offset_size = request.geometry.offset_size;
    let parsed = BTreeV2Header::parse(file, base, place, offset_size, request.length_size);
    let collected = collect_parsed(file, parsed, output);
    RoundTrip {
        written,
        header: parsed,
        collected,
    }
}
