// Which instruction is used at each effective time, steps 1 and 2: over up to forty instructions with their numbers.
#![tactic(auto)]

ghost use Rattle.std.specs.Prelude.{◌≡◌, ◌+◌, ◌-◌, ◌<◌, ◌≤◌, ◌&&◌, [], length, option_to_list};
ghost use Rattle.level.specs.Numbers.{instruction_places};
ghost use Rattle.validation.specs.Kept.{group, used_of, next_time, used};
ghost use Rattle.validation_groups.specs.Working.{no_numbered, sequence_of, time_at, latest_at};
ghost use Rattle.validation_groups.specs.Working.{has_time_at, follows_time, alone_at, in_time_order, Rising, LatestAsked, UsedAsked};

use level::{Few, INSTRUCTIONS};
use records::{Effect, Instruction};
use validation::Numbered;
use validation_rank::{better, of_code, used_of};

// Some of the instructions with their numbers, in order.
pub type Sequence = Few<Numbered, INSTRUCTIONS>;

// A place that holds none. Field by field: the compiler then sees zeros, and fills an array of them at once.
pub fn no_one() -> Numbered
    ensures { result ≡ no_numbered }
{
    let i = records_bytes::no_instruction();
    let meaning = i.meaning;
    let instruction = Instruction {
        effective: i.effective,
        issue: i.issue,
        meaning,
        level: i.level,
        up: i.up,
        down: i.down,
    };
    Numbered {
        number: 0,
        instruction,
    }
}

// None of them.
pub fn none() -> Sequence
    ensures { result ≡ sequence_of [] }
{
    Few::new(no_one())
}

// ---- step 1: of equal effective times only the latest issue time stays

// The latest issue time of those at the effective time t; 0 where there is none.
fn latest_at(os: &[Numbered], t: u32) -> u32
    ensures { result ≡ latest_at os.now t }
{
    os.iter()
        .filter(|o| o.instruction.effective == t)
        .map(|o| o.instruction.issue)
        .max()
        .unwrap_or(0)
}

// There is such a place, and it has the time t.
#[tactic(auto, unfolding(crate::specs::Working::has_time_at))]
fn has_time(os: &[Numbered], at: usize, t: u32) -> bool
    ensures { result ≡ has_time_at os.now at t }
{
    at < os.len() && os[at].instruction.effective == t
}

// The place before has the time t.
#[tactic(auto, unfolding(crate::specs::Working::follows_time))]
fn follows_time(os: &[Numbered], at: usize, t: u32) -> bool
    requires { at ≤ length os.now }
    ensures { result ≡ follows_time os.now at t }
{
    0 < at && os[at - 1].instruction.effective == t
}

// They stand in time order, and neither neighbour of a place has its time: no other has it.
#[tactic(auto, unfolding(crate::specs::Working::alone_at))]
fn stands_alone(os: &[Numbered], at: usize, ordered: bool) -> bool
    requires { at < length os.now }
    ensures { result ≡ (ordered && alone_at os.now at) }
{
    let t = os[at].instruction.effective;
    ordered && !has_time(os, at + 1, t) && !follows_time(os, at, t)
}

// The latest issue time of those at the effective time of a place; `before` is that for the place before it.
pub fn latest_of(os: &[Numbered], at: usize, ordered: bool, before: u32) -> u32
    requires { LatestAsked os.now at ordered before }
    ensures { result ≡ latest_at os.now (time_at os.now at) }
{
    let i = os[at].instruction;
    if stands_alone(os, at, ordered) {
        return i.issue;
    }
    if follows_time(os, at, i.effective) {
        return before;
    }
    latest_at(os, i.effective)
}

// ---- step 2: the one that is used of those left at one effective time

// The one that is used of those left at the effective time t.
fn used_at(os: &[Numbered], t: u32) -> Option<Numbered>
    ensures { option_to_list result ≡ used_of (group os.now t) }
{
    let latest = latest_at(os, t);
    let mut best = None;
    let mut sync = None;
    let mut desy = None;
    for o in os {
        let i = o.instruction;
        if i.effective != t || i.issue < latest {
            continue;
        }
        best = better(best, *o);
        sync = sync.or(of_code(*o, Effect::Sync));
        desy = desy.or(of_code(*o, Effect::Desy));
    }
    used_of(best, sync, desy)
}

// ---- those used, in time order

// The least effective time from t on; the day's end where there is none before it.
fn next_time(os: &[Numbered], t: u32, end: u32) -> u32
    ensures { result ≡ next_time end os.now t }
{
    os.iter()
        .map(|o| o.instruction.effective)
        .filter(|time| t <= *time && *time < end)
        .min()
        .unwrap_or(end)
}

// They stand in the order of their effective times.
pub fn in_order(os: &[Numbered]) -> bool
    ensures { result ≡ in_time_order os.now }
{
    os.is_sorted_by_key(|o| o.instruction.effective)
}

// Those used, where they stand in time order: those at one time stand side by side, and one alone is used as it is.
fn used_ordered(os: &[Numbered], end: u32) -> Sequence
    requires { (length os.now ≤ instruction_places) × Rising os.now }
    ensures { result ≡ sequence_of (used end os.now) }
{
    let mut out = none();
    for run in os.chunk_by(|a, b| a.instruction.effective == b.instruction.effective) {
        let first = &run[0];
        let t = first.instruction.effective;
        if end <= t {
            return out;
        }
        if run.len() == 1 {
            out.push(*first);
        } else if let Some(o) = used_at(os, t) {
            out.push(o);
        }
    }
    out
}

// Those used, whatever the order of the times: those at the next time, one time after another.
fn used_any(os: &[Numbered], end: u32) -> Sequence
    requires { length os.now ≤ instruction_places }
    ensures { result ≡ sequence_of (used end os.now) }
{
    let mut out = none();
    let mut t = 0;
    for _ in 0..os.len() {
        let next = next_time(os, t, end);
        if end <= next {
            return out;
        }
        if let Some(o) = used_at(os, next) {
            out.push(o);
        }
        t = next + 1;
    }
    out
}

// Those used, in the order of their effective times. Two ways: where they stand in time order, as they mostly do, one walk finds them; else
// each next time is looked for, so that nothing is sorted. Which it is, `in_order` finds once; it goes beside the slice, since a struct of
// both would be made for three calls.
pub fn used_in(os: &[Numbered], end: u32, ordered: bool) -> Sequence
    requires { UsedAsked os.now ordered }
    ensures exactly { result ≡ sequence_of (used end os.now) }
    ensures few { length (used end os.now) ≤ instruction_places }
{
    if ordered {
        used_ordered(os, end)
    } else {
        used_any(os, end)
    }
}
