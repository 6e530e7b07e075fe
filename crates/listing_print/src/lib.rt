// The listing of a day into a lent slice: measured first, where it is not known to fit, then written.
#![tactic(auto)]

ghost use Rattle.std.specs.Prelude.{◌≡◌, true, ◌+◌, ◌-◌, ◌<◌, ◌≤◌, length};
ghost use Rattle.lines.specs.Writing.{Written};
ghost use Rattle.listing.specs.Listing.{printed_day, list_of, lent_after};
ghost use Rattle.listing_print.specs.Parts.{most_bytes, with_finding};

use day::Day;
use lines_kinds::{Measure, Sink, Writer};
use profile::{Finding, Taken};
use records::Refusal;

// ---- the whole listing, each part after the parts already put

// The lines of a day by what was let in and what close found: F, S, Q, E.
fn put_lines<S: Sink>(sink: &mut S, taken: &Taken, found: &Finding)
    requires { S.has_room sink.old (printed_day (with_finding taken.now found.now)) most_bytes }
    ensures { S.takes sink.old (printed_day (with_finding taken.now found.now)) most_bytes sink.new }
{
    listing_parts::put_fates(sink, &found.fates, taken.count);
    listing_parts::put_courses(
        sink,
        taken.unit_or_zeros(),
        &found.courses,
        found.started,
        level::MOST_SECONDS,
    );
    listing_parts::put_quantities(sink, &found.sums, level::MOST_HALF_HOURS);
    listing_parts::put_closing(sink, listing_parts::closing_of(found.last, found.end));
}

// The width of the listing of a day.
pub fn day_width(day: &Day) -> usize
    ensures { result ≡ length (printed_day day.now) }
{
    let none = Finding::none();
    let found = day.found.as_ref().unwrap_or(&none);
    let mut measure = Measure::default();
    put_lines(&mut measure, &day.taken, found);
    measure.width
}

// The whole listing where there is room for it.
fn put_day(out: &mut [u8], taken: &Taken, found: &Finding) -> usize
    requires { length (printed_day (with_finding taken.now found.now)) ≤ length out.old }
    ensures { Written (printed_day (with_finding taken.now found.now)) result out.old out.new }
{
    let mut writer = Writer { out, at: 0 };
    put_lines(&mut writer, taken, found);
    writer.at
}

// ---- asking for it

// The listing of a day at the front of the lent slice: the count of bytes written; refused where the day is not closed or the
// slice is too short, and then nothing is written. Where the caller knows that it fits, it is not measured.
pub fn list_lent(day: &Day, out: &mut [u8], fits: bool) -> Result<usize, Refusal>
    requires { fits ≡ true → length (printed_day day.now) ≤ length out.old }
    ensures { (result ≡ list_of day.now out.old) × (out.new ≡ lent_after day.now out.old) }
{
    let Some(found) = &day.found else {
        return Err(Refusal::NotReady);
    };
    if !fits && out.len() < day_width(day) {
        return Err(Refusal::SliceTooShort);
    }
    Ok(put_day(out, &day.taken, found))
}

// The same of a day that is handed over, always measured.
pub fn list(day: Day, out: &mut [u8]) -> Result<usize, Refusal>
    ensures { (result ≡ list_of day out.old) × (out.new ≡ lent_after day out.old) }
{
    list_lent(&day, out, false)
}
