// The lists of checksums, run through `checksum::jenkins_lookup3`; each answer is counted once.

ghost use Rattle.std.specs.Prelude.{◌≡◌, ◌+◌, ◌≤◌, eqb};
ghost use Rattle.checksum.specs.Lookup3.{lookup3};
ghost use Rattle.replay.specs.Inputs.{bytes_of};

use crate::checksum_answers::ANSWERS;
use crate::rows;
use crate::tally::Tally;

// The values that lookup3.c publishes for start value 0.
pub(crate) fn published() -> Tally
    ensures { result.agreed + result.differed ≡ 2 }
{
    let empty = checksum::jenkins_lookup3(b"") == 0xdeadbeef;
    let phrase = checksum::jenkins_lookup3(b"Four score and seven years ago") == 0x17770551;
    Tally::default().with(empty).with(phrase)
}

// Whether the input of length n has the given checksum.
fn agrees(n: usize, answer: u32) -> bool
    requires { n ≤ 60 }
    ensures { result ≡ eqb (lookup3 (bytes_of n n)) answer }
{
    let bytes = rows::input::<60>(n as u64);
    checksum::jenkins_lookup3(&bytes[..n]) == answer
}

// The stored answers, to the inputs of each length from 0 on. Counted here, since an answer's place is its input, which `Tally::of` does not tell.
pub(crate) fn stored() -> Tally
    ensures { result.agreed + result.differed ≡ 61 }
{
    let agreed = ANSWERS
        .iter()
        .enumerate()
        .filter(|(n, answer)| agrees(*n, **answer))
        .count() as u64;
    Tally {
        agreed,
        differed: ANSWERS.len() as u64 - agreed,
    }
}
