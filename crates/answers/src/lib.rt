// Every call's answer as a C caller's numbers: the refusal's number, 0 where the call is accepted, then the figures or the refusal's values, then
// zeros.

#![tactic(auto)]

ghost use Rattle.std.specs.Prelude.{◌≡◌, ℕ, List, [], ◌∷◌, ◌++◌};
ghost use Rattle.refusal.specs.Answer.{accepted, answer_of, cells};
ghost use Rattle.numbers.specs.Places.{put};
ghost use Rattle.plan.specs.Planned.{plan_numbers};
ghost use Rattle.btree_v2_header.specs.Header.{header_figures};
ghost use Rattle.btree_v2_header.specs.Answers.{header_answer_of};
ghost use Rattle.btree_v2_record.specs.Answers.{values_of};
ghost use Rattle.btree_v2_collect.specs.Answers.{collected_cells};
ghost use Rattle.btree_v2_find.specs.Answers.{found_cells};

use btree_v2_collect::Collected;
use btree_v2_find::Found;
use btree_v2_header::BTreeV2Header;
use btree_v2_record::RecordValues;
use plan::BTreeV2Plan;
use refusal::{Code, Refusal};

// What an accepted call gives, in an answer of N numbers.
pub trait Figures<const N: usize> {
    ghost figures: { Self → List ℕ };

    // 0, the figures, and zeros.
    fn told(self) -> [u64; N]
        ensures { result ≡ cells N (accepted (figures self)) };
}

// The answer of a call that gives figures or is refused.
pub fn numbers_of<const N: usize, T: Figures<N>>(given: Result<T, Refusal>) -> [u64; N]
    ensures { result ≡ cells N (answer_of T.figures given) }
{
    match given {
        Ok(figures) => figures.told(),
        Err(cause) => {
            let mut numbers = [0; N];
            answer_columns::put_refusal(&mut numbers, cause);
            numbers
        }
    }
}

// A header read's first eight numbers, all but the base, over the front of an array; where it has fewer places nothing is changed.
#[tactic(auto, using(crate::proofs::Headers::header_put))]
pub fn put_header(answer: &mut [u64], parsed: Result<BTreeV2Header, Refusal>)
    ensures { answer.new ≡ put answer.old 0 (cells 8 (header_answer_of parsed)) }
{
    let told: [u64; 9] = numbers_of(parsed);
    numbers::put(answer, 0, &told[..8]);
}

// The plan's figures, which are those of a write too.
impl Figures<5> for BTreeV2Plan {
    ghost figures = { plan_numbers };

    #[tactic(auto, unfolding(refusal::specs::Answer::cells))]
    fn told(self) -> [u64; 5] {
        [
            0,
            self.depth as u64,
            self.nodes,
            self.leaves,
            self.image_size,
        ]
    }
}

// The header's fields, and the base that a header read carries.
impl Figures<9> for BTreeV2Header {
    ghost figures = { λ h. header_figures h ++ (h.base ∷ []) };

    #[tactic(auto, unfolding(refusal::specs::Answer::cells))]
    fn told(self) -> [u64; 9] {
        let geometry = self.geometry;
        [
            0,
            self.tree_type as u64,
            geometry.node_size as u64,
            geometry.record_size as u64,
            self.depth as u64,
            self.root_node_address,
            self.num_records_in_root as u64,
            self.total_records,
            self.base,
        ]
    }
}

// A record's four values.
impl Figures<5> for RecordValues {
    ghost figures = { values_of };

    #[tactic(auto, unfolding(refusal::specs::Answer::cells))]
    fn told(self) -> [u64; 5] {
        [
            0,
            self.name_hash,
            self.heap_id,
            self.message_flags,
            self.creation_order,
        ]
    }
}

// The length of what was put out.
impl Figures<3> for u64 {
    ghost figures = { λ length. length ∷ [] };

    #[tactic(auto, unfolding(refusal::specs::Answer::cells))]
    fn told(self) -> [u64; 3] {
        [0, self, 0]
    }
}

// The refusal's number and values, zeros where the run is accepted, and the counts of both.
pub fn collected_numbers(collected: Collected) -> [u64; 7]
    ensures { result ≡ collected_cells collected }
{
    let code = Code::from(collected.verdict);
    let tally = collected.tally;
    [
        code.number,
        code.first,
        code.second,
        tally.records,
        tally.leaves,
        tally.internals,
        tally.internal_records,
    ]
}

// The refusal's number and values, zeros where the call is accepted, and the nodes read; 1 and the place, or zeros where none was found.
#[tactic(auto, unfolding(refusal::specs::Answer::cells))]
pub fn found_numbers(found: Found) -> [u64; 6]
    ensures { result ≡ found_cells found }
{
    match found.place {
        Ok(Some(at)) => [0, 0, 0, found.nodes, 1, at],
        Ok(None) => [0, 0, 0, found.nodes, 0, 0],
        Err(cause) => {
            let code = Code::from(cause);
            [code.number, code.first, code.second, found.nodes, 0, 0]
        }
    }
}
