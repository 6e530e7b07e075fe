// Calls for tests. It reads calls from standard input up to its end, each one byte `T` or `L` and a length n of four bytes,
// big-endian, at most 65,536. `T`: n bytes follow, and the taker is called once on them; it prints `A answer used`. `L`: a
// listing into a lent slice of n bytes, each FF hexadecimal; it prints `A answer count` and then the count bytes written.
// Anything else ends it with the line `malformed`. A read or a write that fails ends it with a line on standard error.
#![tactic(auto)]

use day::Day;
use records::Refusal;
use std::io::{Print, Write};
use streams::Failure;

// The longest slice of a call.
const LONGEST: usize = 65536;

fn put(rt: &HostRuntime, out: &[u8]) -> Result<(), Failure> {
    rt.stdout().write_all(out).map_err(|_| Failure::Unwritten)
}

// No call: the line that says so, and there is no other.
fn malformed(rt: &HostRuntime) -> Result<bool, Failure> {
    put(rt, b"malformed\n")?;
    Ok(false)
}

// `A answer number`
#[tactic(auto, using(lines::proofs::Decimals::line_two, lines::proofs::Decimals::word_width))]
fn put_answer(rt: &HostRuntime, answer: Result<(), Refusal>, number: usize) -> Result<(), Failure> {
    let n = gristpebble::answer_number(answer);
    let mut line = [0u8; 44];
    let vs = [n as u64, number as u64];
    let count = lines_text::put_line(&mut line, b'A', &vs);
    put(rt, &line[..count])
}

// Reads until the buffer is full or the input ends; how many bytes there were. (A `while`: a read says how far it came.)
fn read_full(rt: &HostRuntime, buf: &mut [u8]) -> Result<usize, Failure> {
    let mut at: usize = 0;
    while let Some(to) = streams::read_on(&mut rt.stdin(), buf, at)? {
        at = to;
    }
    Ok(at)
}

// The next n bytes are a record's slice, which the day takes.
fn take_record(rt: &HostRuntime, day: &mut Day, n: usize) -> Result<bool, Failure> {
    let mut buf = [0u8; LONGEST];
    let Some(record) = buf.get_mut(..n) else {
        return malformed(rt);
    };
    if read_full(rt, record)? < n {
        return malformed(rt);
    }
    let s = day_take::take_front(*day, record);
    *day = s.day;
    put_answer(rt, s.answer, s.used)?;
    Ok(true)
}

// The day's listing into a lent slice of n bytes.
fn list_day(rt: &HostRuntime, day: &Day, n: usize) -> Result<bool, Failure> {
    let mut buf = [255u8; LONGEST];
    let Some(out) = buf.get_mut(..n) else {
        return malformed(rt);
    };
    let listed = listing_print::list(*day, out);
    let count = listed.unwrap_or(0);
    put_answer(rt, listed.map(|_| ()), count)?;
    // as many bytes as were counted are there; no proof says so here
    put(rt, out.get(..count).ok_or(Failure::Unwritten)?)?;
    Ok(true)
}

// One call; whether there may be another.
fn serve_one(rt: &HostRuntime, day: &mut Day) -> Result<bool, Failure> {
    let mut head = [0u8; 5];
    let got = read_full(rt, &mut head)?;
    if got == 0 {
        return Ok(false);
    }
    if got < 5 {
        return malformed(rt);
    }
    let n = records_bytes::number(&head, 1) as usize;
    match head[0] {
        b'T' => take_record(rt, day, n),
        b'L' => list_day(rt, day, n),
        _ => malformed(rt),
    }
}

// Call after call. A proved loop has to end, and nothing says that the input does: it goes no further than a number of turns that no run
// uses up.
fn serve(rt: &HostRuntime) -> Result<(), Failure> {
    let mut day = day_enter::empty_day();
    for _ in 0..u64::MAX {
        if !serve_one(rt, &mut day)? {
            break;
        }
    }
    Ok(())
}

fn main(rt: HostRuntime) {
    if let Err(failure) = serve(&rt) {
        let _ = eprintln!(rt; "calls: {failure}");
    }
}
