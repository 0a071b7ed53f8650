// Runs lists of known answers through the libraries; a line for each list says how many agreed and how many differed.
// A part of the format has two modules here: NAME_answers holds the list, NAME_replay runs it and returns its tally. The functions that
// compare an answer with a row (`agrees`, `leaf`), and `request`, which makes a call's input of one, promise nothing of their result: the answers
// due stand in the code alone, so a contract could only repeat it. `print`, `fmt` and `main` write, of which no contract speaks.
// A list's numbers and its bytes stay two flat arrays, the text that rust/differential prints; the program sees them as rows and as parts.

#![tactic(auto)]

use std::io;

mod checksum_answers;
mod checksum_replay;
mod collect_answers;
mod collect_replay;
mod find_answers;
mod find_replay;
mod header_answers;
mod header_replay;
mod image_answers;
mod image_replay;
mod look_answers;
mod look_replay;
mod plan_answers;
mod plan_replay;
mod record_read_answers;
mod record_read_replay;
mod record_write_answers;
mod record_write_replay;
mod rows;
mod tally;

fn main(rt: HostRuntime) -> io::Result<()> {
    checksum_replay::published().print(rt, "checksum, published values")?;
    checksum_replay::stored().print(rt, "checksum, stored answers")?;
    plan_replay::stored().print(rt, "plan, stored answers")?;
    image_replay::stored().print(rt, "image, stored answers")?;
    image_replay::limits().print(rt, "image, limits")?;
    header_replay::stored().print(rt, "header, stored answers")?;
    collect_replay::stored().print(rt, "collect, stored answers")?;
    collect_replay::ends().print(rt, "collect, ends of a leaf")?;
    find_replay::stored().print(rt, "find, stored answers")?;
    look_replay::stored().print(rt, "look, stored answers")?;
    record_read_replay::stored().print(rt, "record read, stored answers")?;
    record_write_replay::stored().print(rt, "record write, stored answers")?;
    Ok(())
}
