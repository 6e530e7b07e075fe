// The listing program: reads records from standard input up to close and prints the listing, or at the first refusal only
// the line `X n`. Where reading or writing fails, it says so in one line on standard error.
#![tactic(auto)]

ghost use Rattle.std.specs.Prelude.{◌≡◌, ◌≤◌, IfOk, length, take};
ghost use Rattle.listing.specs.Listing.{suffices};
ghost use Rattle.listing.specs.Program.{ends_early};
ghost use Rattle.listing_program.specs.Shown.{Shown};

use listing::Printed;
use std::io::{Print, Read, Write};
use streams::Failure;

// What is printed for the bytes read: the call below, with the contract that the loop carries on.
fn print_first(read: &[u8], out: &mut [u8]) -> Printed
    requires { suffices ≤ length out.old }
    ensures { Shown read.now result.count out.new × (result.more ≡ ends_early read.now) }
{
    listing_program::print(read, out)
}

// How many bytes were read, and how many are to be written.
#[derive(Clone, Copy)]
pub struct Answered {
    pub at: usize,
    pub count: usize,
}

// Reads until the bytes are answered, at close or at a refusal: bytes after them change nothing (`answered`). Where the input
// ends before, the answer is what it was; a full buffer is always answered (`full_answered`). A read that fails is not the end
// of the input. (A `while`: a read says how far it came.)
fn print_input<R: Read>(input: &mut R, buf: &mut [u8], out: &mut [u8]) -> Result<Answered, Failure>
    requires { suffices ≤ length out.old }
    ensures { IfOk result (λ a. Shown (take a.at buf.new) a.count out.new) }
{
    let mut at: usize = 0;
    let mut printed = print_first(&buf[..at], out);
    while printed.more {
        let Some(to) = streams::read_on(input, buf, at)? else {
            break;
        };
        at = to;
        printed = print_first(&buf[..at], out);
    }
    Ok(Answered {
        at,
        count: printed.count,
    })
}

fn serve(rt: &HostRuntime) -> Result<(), Failure> {
    let mut buf = [0u8; 4096];
    let mut out = [0u8; listing::SUFFICES];
    let answered = print_input(&mut rt.stdin(), &mut buf, &mut out)?;
    rt.stdout()
        .write_all(&out[..answered.count])
        .map_err(|_| Failure::Unwritten)
}

fn main(rt: HostRuntime) {
    if let Err(failure) = serve(&rt) {
        let _ = eprintln!(rt; "profiler: {failure}");
    }
}
