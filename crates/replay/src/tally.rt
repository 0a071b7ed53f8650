// The count of a list's answers: how many agreed and how many differed, and the line that says so.

ghost use Rattle.std.specs.Prelude.{◌≡◌, ◌+◌, ◌<◌, length};
ghost use Rattle.replay.specs.Counted.{counted};

use std::{fmt, io};

#[derive(Clone, Copy, Default)]
pub(crate) struct Tally {
    pub(crate) agreed: u64,
    pub(crate) differed: u64,
}

impl Tally {
    // One answer more, which agreed or differed. Lists of two or four answers are chains of this, since a list of them would be no shorter.
    pub(crate) fn with(self, agrees: bool) -> Self
        requires { self.agreed + self.differed < 65536 }
        ensures value { result ≡ counted agrees self }
        ensures sum { result.agreed + result.differed ≡ self.agreed + self.differed + 1 }
    {
        Tally {
            agreed: self.agreed + u64::from(agrees),
            differed: self.differed + u64::from(!agrees),
        }
    }

    // Counts each row once: whether its answer agrees. A call may take the part that belongs to its row off the front of the bytes.
    // Each caller makes its numbers rows by `as_chunks`: the check does not cover a bound on a call that names the row's length. A loop: with
    // `rows.iter().filter(..).count()` it was not proved that the calls may be made.
    pub(crate) fn of<T, F: FnMut(&T, &mut &[u8]) -> bool>(
        rows: &[T],
        bytes: &[u8],
        mut agrees: F,
    ) -> Self
        requires few { length rows.now < 65536 }
        requires calls { F.IsAlwaysCallable agrees }
        ensures { result.agreed + result.differed ≡ length rows.now }
    {
        let mut rest = bytes;
        let mut tally = Tally::default();
        for row in rows {
            tally = tally.with(agrees(row, &mut rest));
        }
        tally
    }

    // Writes the list's name and the two counts, as a line.
    pub(crate) fn print(self, rt: HostRuntime, name: &str) -> io::Result<()> {
        println!(rt; "{name}: {self}")
    }
}

impl fmt::Display for Tally {
    fn fmt<W: fmt::Write>(&self, f: &mut fmt::Formatter<W>) -> fmt::Result {
        write!(f, "{} agreed, {} differed", self.agreed, self.differed)
    }
}
