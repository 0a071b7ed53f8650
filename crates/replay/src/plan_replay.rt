// The stored plans, run through `plan::BTreeV2Plan::new`; each answer is counted once.

ghost use Rattle.std.specs.Prelude.{◌≡◌, ◌+◌};

use crate::plan_answers::PLANS;
use crate::rows;
use crate::tally::Tally;
use plan::BTreeV2Plan;

// Whether the plan of a row has its five numbers.
fn agrees(row: &[u64; 9]) -> bool {
    let answer = BTreeV2Plan::new(row[0], rows::geometry(row[2], row[1], row[3]));
    answers::numbers_of(answer)[..] == row[4..]
}

// The stored answers.
pub(crate) fn stored() -> Tally
    ensures { result.agreed + result.differed ≡ 308 }
{
    Tally::of(PLANS.as_chunks().0, &[], |row, _| agrees(row))
}
