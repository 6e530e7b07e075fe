// What close finds from what was taken: the fates, the courses, twice the area up to each half-hour boundary, the last course and the
// state at the day's end; and refusal 27.
#![tactic(auto)]

ghost use Rattle.std.specs.Prelude.{◌≡◌, ◌≤◌, length};
ghost use Rattle.level.specs.Numbers.{most_half_hours};
ghost use Rattle.profile.specs.Profile.{found, paper};
ghost use Rattle.profile.specs.Finding.{arrays_of};
ghost use Rattle.day_close.specs.Laying.{over_fate, over_all, marks_of};
ghost use Rattle.day_close.specs.Closed.{close_read};

use profile::{Finding, Taken};
use records::Refusal;
use validation::{Numbered, place_of};

// ---- the fates

// One fate laid over what validation gave; nothing where the number has no place, or where step 1 settled the fate: a 1 stays.
#[tactic(auto, using(crate::proofs::Laying::overs))]
fn lay_fate(fates: &mut [u8], number: u32, fate: u8)
    ensures { fates.new ≡ over_fate fates.old number fate }
{
    match place_of(number, fates.len()) {
        Some(at) if fates[at] != 1 => fates[at] = fate,
        _ => {}
    }
}

// The fates of those that act laid over, the first of them last.
// The fates stand beside those that act: the walk, which finds them, has no use for numbers.
fn lay_fates(fates: &mut [u8], acts: &[Numbered], own: &[u8])
    requires { length acts.now ≡ length own.now }
    ensures { fates.new ≡ over_all fates.old (marks_of acts.now own.now) }
{
    for (o, fate) in acts.iter().rev().zip(own.iter().rev()) {
        lay_fate(fates, o.number, *fate);
    }
}

// ---- what close finds

// From what was taken, in a day of so many half-hours. A count above the places that there are reads like them all. (At most 48
// half-hours are asked by four public functions, this among them; no type holds that, since each of them goes by the number alone.)
pub fn find(t: Taken, halves: u32) -> Finding
    requires { halves ≤ most_half_hours }
    ensures { result ≡ arrays_of (found paper halves t) }
{
    let v = validation_kept::validate(t.instructions, t.count, level::HALF_HOUR * halves);
    let acts = v.acts.as_slice();
    let unit = t.unit_or_zeros();
    let first = profile_effects::start_course(unit, t.start_or_zeros());
    let f = profile_follow::follow_day(unit, first, acts, halves);
    let w = f.walk;
    let mut fates = v.fates;
    let given = t.count.min(level::INSTRUCTIONS);
    lay_fates(&mut fates[..given], acts, w.fates.as_slice());
    let started = w.courses.len();
    let courses = w.courses.into_array();
    let sums = f.sums;
    Finding {
        fates,
        started,
        courses,
        sums,
        last: w.now,
        end: f.end,
    }
}

// What close finds from what was taken; refused where a quantity lies above the short-term maximum.
#[tactic(auto, using(crate::proofs::Closed::read_high, crate::proofs::Closed::read_low))]
pub fn find_close(taken: Taken) -> Result<Finding, Refusal>
    ensures { result ≡ close_read taken }
{
    let found = find(taken, level::MOST_HALF_HOURS);
    if profile_quantity::quantity_too_high(
        taken.unit_or_zeros(),
        found.sums,
        level::MOST_HALF_HOURS,
    ) {
        return Err(Refusal::QuantityTooHigh);
    }
    Ok(found)
}
