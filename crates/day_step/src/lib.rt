// Taking the record at the front of the input into a day: a unit, an opening, an instruction by its front (`day_enter`), or
// close.
#![tactic(auto)]

ghost use Rattle.std.specs.Prelude.{◌≡◌};
ghost use Rattle.profile.specs.Profile.{paper};
ghost use Rattle.day.specs.Day.{found_in};
ghost use Rattle.day.specs.Step.{step_of};
ghost use Rattle.day_step.specs.Taking.{kind_at, stepped, TakenBy, close_taken};

use day::{Day, Stepped};
use profile::{Start, Taken};
use records::{Kind, Refusal};

// A unit at the front of the input: the bytes used, or its refusal, which leaves what was taken as it was.
fn take_unit(taken: &mut Taken, closed: bool, input: &[u8]) -> Result<usize, Refusal>
    ensures { TakenBy 1 taken.old closed input.now result taken.new }
{
    let unit = day_enter::unit_front(taken.unit.is_some(), closed, input)?;
    taken.unit = Some(unit);
    Ok(records::UNIT_SIZE)
}

// An opening.
fn take_opening(taken: &mut Taken, closed: bool, input: &[u8]) -> Result<usize, Refusal>
    ensures { TakenBy 2 taken.old closed input.now result taken.new }
{
    let unit = taken.unit.as_ref();
    let opening = day_enter::opening_front(unit, taken.start.is_some(), closed, input)?;
    taken.start = Some(Start::from(opening));
    Ok(records::OPENING_SIZE)
}

// An instruction.
fn take_instruction(taken: &mut Taken, closed: bool, input: &[u8]) -> Result<usize, Refusal>
    ensures { TakenBy 3 taken.old closed input.now result taken.new }
{
    let instruction = day_enter::instruction_front(
        taken.unit.is_some(),
        closed,
        taken.count,
        input,
    )?;
    taken.instructions[taken.count] = instruction;
    taken.count += 1;
    Ok(records::INSTRUCTION_SIZE)
}

// A close of the day.
pub fn take_close(day: &mut Day) -> Result<usize, Refusal>
    ensures { stepped result day.new ≡ close_taken (found_in paper) day.old }
{
    day_enter::close_front(day.taken.start.is_some(), day.found.is_some())?;
    let found = day_close::find_close(day.taken)?;
    day.found = Some(found);
    Ok(records::CLOSE_SIZE)
}

// The kind of the record at the front of the input.
fn kind_at(input: &[u8]) -> Result<Kind, Refusal>
    ensures { result ≡ kind_at input.now }
{
    if input.is_empty() {
        return Err(Refusal::TooFewBytes);
    }
    Kind::try_from(input[0])
}

// The record at the front of the input, taken into the day: the bytes used, or its refusal, which leaves the day as it was.
pub fn take_record(day: &mut Day, input: &[u8]) -> Result<usize, Refusal>
    ensures { stepped result day.new ≡ step_of day.old input.now }
{
    let closed = day.found.is_some();
    match kind_at(input)? {
        Kind::Unit => take_unit(&mut day.taken, closed, input),
        Kind::Opening => take_opening(&mut day.taken, closed, input),
        Kind::Instruction => take_instruction(&mut day.taken, closed, input),
        Kind::Close => take_close(day),
    }
}

// Taking the record at the front of the input: the answer, the day after it, and how many bytes it used.
pub fn step(day: Day, input: &[u8]) -> Stepped
    ensures { result ≡ step_of day input.now }
{
    let mut next = day;
    match take_record(&mut next, input) {
        Ok(used) => Stepped {
            answer: Ok(()),
            day: next,
            used,
        },
        Err(refusal) => Stepped {
            answer: Err(refusal),
            day: next,
            used: 0,
        },
    }
}
