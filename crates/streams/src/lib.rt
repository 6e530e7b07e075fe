// Reading for the two programs, and why either of them ends early.
#![tactic(auto)]

ghost use Rattle.std.specs.Prelude.{◌≡◌, ◌<◌, ◌≤◌, IfOk, IfSome, length, take};

use std::fmt;
use std::io::Read;

// A read or a write that failed.
#[derive(Clone, Copy)]
pub enum Failure {
    Unread,
    Unwritten,
}

impl fmt::Display for Failure {
    fn fmt<W: fmt::Write>(&self, f: &mut fmt::Formatter<W>) -> fmt::Result {
        match self {
            Failure::Unread => write!(f, "the input could not be read"),
            Failure::Unwritten => write!(f, "the output could not be written whole"),
        }
    }
}

// One read into the buffer from a place on: the place that it came to, which lies further on; none where the buffer is full or the
// input ends. What was read before stays: it takes the buffer with the place, and not its rest, so that the contract can say so. The
// loop around it is in each program: the program of calls does nothing between two reads, and the listing program prints.
pub fn read_on<R: Read>(input: &mut R, buf: &mut [u8], at: usize) -> Result<Option<usize>, Failure>
    ensures within { IfOk result (λ read. IfSome read (λ to. (at < to) × (to ≤ length buf.new))) }
    ensures before { take at buf.new ≡ take at buf.old }
{
    if buf.len() <= at {
        return Ok(None);
    }
    let got = input.read(&mut buf[at..]).map_err(|_| Failure::Unread)?;
    Ok((got != 0).then_some(at + got))
}
