// Which instructions are kept, steps 1 to 4: over up to forty instructions with their numbers. Steps 1 and 2 are in `validation_groups`.
#![tactic(auto)]

ghost use Rattle.std.specs.Prelude.{◌≡◌, ℕ, ◌≤◌, [], length};
ghost use Rattle.level.specs.Lists.{filled};
ghost use Rattle.level.specs.Numbers.{instruction_places};
ghost use Rattle.validation.specs.Kept.{numbered, actors};
ghost use Rattle.validation_groups.specs.Working.{sequence_of, UsedAsked};
ghost use Rattle.validation_kept.specs.Outcome.{validation_of};
ghost use Rattle.validation_kept.specs.Late.{late_fate_by, LateFates, settle_fate, SettledBy, fates_to};

use level::INSTRUCTIONS;
use records::Instruction;
use validation::{Numbered, place_of};
use validation_groups::{Sequence, in_order, latest_of, none, used_in};
use validation_sequence::check_all;

// What steps 1 to 4 come to: the fates by number, and those that act, in time order.
// A fate stays a number: the paper's fates have no other name, F prints it, and a finding may be handed in with any, of which a type of nine
// values would ask more.
#[derive(Clone, Copy)]
pub struct Validation {
    pub fates: [u8; INSTRUCTIONS],
    pub acts: Sequence,
}

// Later than any acting time; `never` of the definitions. With it, the last kept one needs no case of its own.
const NEVER: u64 = 8589934592;

// The instructions with their numbers: from 1 as entered.
fn number_all(instructions: &[Instruction]) -> Sequence
    requires { length instructions.now ≤ instruction_places }
    ensures { result ≡ sequence_of (numbered 1 instructions.now) }
{
    let mut out = none();
    for (i, x) in instructions.iter().enumerate() {
        out.push(Numbered {
            number: i as u32 + 1,
            instruction: *x,
        });
    }
    out
}

// ---- step 4: by acting time

// The fate that step 4 gives one that acts at the time own: 6 where the earliest of those after it acts no later, else 8 where it
// acts at the day's end or later; 0 where it acts.
#[tactic(auto, unfolding(crate::specs::Late::late_fate_by))]
fn late_fate(earliest: u64, own: u64, end: u32) -> u8
    ensures { result ≡ late_fate_by end own earliest }
{
    if earliest <= own {
        6
    } else if end as u64 <= own {
        8
    } else {
        0
    }
}

// The fates that step 4 gives the kept ones, by their places: from the last, with the earliest acting time of those after.
// They stand beside the kept ones: a `Few` of pairs would be filled from the front, and would copy each instruction.
fn late_fates(kept: &Sequence, end: u32) -> [u8; INSTRUCTIONS]
    ensures { LateFates end kept.now.these result }
{
    let mut out = [0; INSTRUCTIONS];
    let mut earliest = NEVER;
    for (i, k) in kept.as_slice().iter().enumerate().rev() {
        let own = k.acting();
        out[i] = late_fate(earliest, own, end);
        earliest = earliest.min(own);
    }
    out
}

// The fate of a number, where none is settled (step 3 puts its own over any): "the first step that settles it counts".
#[tactic(auto, unfolding(crate::specs::Late::settle_fate))]
fn settle_fate(fates: &mut [u8; INSTRUCTIONS], number: u32, fate: u8)
    ensures value { fates.new ≡ settle_fate fates.old number fate }
    ensures long { length fates.new ≡ instruction_places }
{
    match place_of(number, INSTRUCTIONS) {
        Some(at) if fates[at] == 2 => fates[at] = fate,
        _ => {}
    }
}

// The fates with those of step 4.
fn settle_late(
    kept: &Sequence,
    late: &[u8; INSTRUCTIONS],
    before: [u8; INSTRUCTIONS],
) -> [u8; INSTRUCTIONS]
    ensures { SettledBy kept.now.these late.now before result }
{
    let mut out = before;
    for (k, fate) in kept.as_slice().iter().zip(late) {
        settle_fate(&mut out, k.number, *fate);
    }
    out
}

// Those of the kept ones that act, in time order, by the fates of step 4.
fn acts_of(kept: &Sequence, late: &[u8; INSTRUCTIONS]) -> Sequence
    ensures { (end : ℕ) → LateFates end kept.now.these late.now → result ≡ sequence_of (actors end kept.now.these) }
{
    let mut out = none();
    for (k, fate) in kept.as_slice().iter().zip(late) {
        if *fate == 0 {
            out.push(*k);
        }
    }
    out
}

// ---- the four steps together

// The fates by number: 1 where step 1 settles it, else what the later steps say.
fn fates_of(all: &[Numbered], ordered: bool, later: &[u8; INSTRUCTIONS]) -> [u8; INSTRUCTIONS]
    requires { UsedAsked all.now ordered }
    ensures { result ≡ filled instruction_places 0 (fates_to all.now later.now (length all.now)) }
{
    let mut out = [0; INSTRUCTIONS];
    let mut latest = 0;
    for (i, o) in all.iter().enumerate() {
        latest = latest_of(all, i, ordered, latest);
        let superseded = o.instruction.issue < latest;
        out[i] = if superseded { 1 } else { later[i] };
    }
    out
}

// Which of the first `count` instructions are kept, in a day of `end` seconds. A count above forty reads like forty; where there
// is none, nothing is looked at.
pub fn validate(instructions: [Instruction; INSTRUCTIONS], count: usize, end: u32) -> Validation
    ensures { result ≡ validation_of instructions count end }
{
    if count == 0 {
        return Validation {
            fates: [0; INSTRUCTIONS],
            acts: none(),
        };
    }
    let entered = number_all(&instructions[..count.min(INSTRUCTIONS)]);
    let all = entered.as_slice();
    let ordered = in_order(all);
    let used = used_in(all, end, ordered);
    // fate 2, until a later step settles it
    let mut marks = [2; INSTRUCTIONS];
    let kept = check_all(used.as_slice(), &mut marks);
    let late = late_fates(&kept, end);
    let later = settle_late(&kept, &late, marks);
    let fates = fates_of(all, ordered, &later);
    let acts = acts_of(&kept, &late);
    Validation { fates, acts }
}
