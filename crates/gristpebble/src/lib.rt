// The library for others: records in, the listing out.
#![tactic(auto)]

ghost use Rattle.std.specs.Prelude.{◌≡◌, ◌≤◌, Ok, length};
ghost use Rattle.records.specs.Answers.{number_of};
ghost use Rattle.listing.specs.Listing.{suffices, printed_day};
ghost use Rattle.listing.specs.Result.{list_ran, lent_ran, listed, listed_result, listed_lent};
ghost use Rattle.gristpebble.specs.Ended.{open_day, ended_by};

use day::Day;
use day_step::{take_close, take_record};
use profile::Taken;
use records::Refusal;

// The records of `input` up to close are taken, and the listing of the day is written to the front of `out`. The result is the
// count of bytes written, or the first refusal; then `out` is as it was. Where the slice suffices for any day that records
// make, the listing is not measured first. The loop is a `while`: each turn goes on by as many bytes as its record used, which no
// iterator gives.
pub fn listing(input: &[u8], out: &mut [u8]) -> Result<usize, Refusal>
    ensures { (result ≡ listed input.now out.old) × (out.new ≡ listed_lent input.now out.old) }
{
    let mut day = day_enter::empty_day();
    let mut rest = input;
    while day.found.is_none() {
        let used = take_record(&mut day, rest)?;
        rest = &rest[used..];
    }
    listing_print::list_lent(&day, out, listing::SUFFICES <= out.len())
}

// The end of the records at one of this kind, none of a unit, an opening and an instruction: a close of what was taken, with the
// listing of the closed day, or no kind.
pub fn close_run(taken: Taken, kind: u8, out: &mut [u8]) -> Result<usize, Refusal>
    requires { (ended_by (open_day taken) kind).answer ≡ Ok tt → length (printed_day (ended_by (open_day taken) kind).day) ≤ suffices }
    ensures { (result ≡ list_ran (ended_by (open_day taken) kind) out.old) × (out.new ≡ lent_ran (ended_by (open_day taken) kind) out.old) }
{
    if kind != 4 {
        return Err(Refusal::UnknownKind);
    }
    let mut day = Day { taken, found: None };
    take_close(&mut day)?;
    listing_print::list_lent(&day, out, out.len() >= listing::SUFFICES)
}

// `listing` with its result in one number, for C, which has no `Result`: the count of bytes written, or, at a refusal, its number times
// 2^32.
#[tactic(auto, unfolding(listing::specs::Result::listed_result))]
pub fn gristpebble_listing(input: &[u8], out: &mut [u8]) -> u64
    ensures { (result ≡ listed_result input.now out.old) × (out.new ≡ listed_lent input.now out.old) }
{
    match listing(input, out) {
        Ok(count) => count as u64,
        Err(refusal) => u64::from(refusal.number()) * 4294967296,
    }
}

// The paper's number of an answer: 0 for an acceptance.
pub fn answer_number(answer: Result<(), Refusal>) -> u8
    ensures { result ≡ number_of answer }
{
    match answer {
        Ok(()) => 0,
        Err(refusal) => refusal.number(),
    }
}
