// A unit, an opening or an instruction at the front of the input, as a day with this state answers it: the refusals in the
// paper's order, and what the record says. A slice of any kind is read as one of the kind asked for.
#![tactic(auto)]

ghost use Rattle.std.specs.Prelude.{◌≡◌, option_copied};
ghost use Rattle.day.specs.Step.{too_high};
ghost use Rattle.day_enter.specs.Fronts.{unit_front, opening_front, instruction_front, close_front};
ghost use Rattle.profile.specs.Taken.{no_taken};
ghost use Rattle.day.specs.Day.{empty};

use day::Day;
use profile::Taken;
use records::{Instruction, Opening, Refusal, UnitData};

// ---- nothing let in

// Nothing let in. By hand, since an instruction has no `Default` (`records_bytes::no_instruction`).
#[tactic(auto, unfolding(profile::specs::Taken::no_taken))]
pub fn no_taken() -> Taken
    ensures { result ≡ no_taken }
{
    Taken {
        unit: None,
        start: None,
        count: 0,
        instructions: [records_bytes::no_instruction(); level::INSTRUCTIONS],
    }
}

// The day that has taken no record.
#[tactic(auto, unfolding(day::specs::Day::empty))]
pub fn empty_day() -> Day
    ensures { result ≡ empty }
{
    Day {
        taken: no_taken(),
        found: None,
    }
}

// ---- a record at the front of the input

// A unit at the front of the input.
#[tactic(auto, unfolding(crate::specs::Fronts::unit_front))]
pub fn unit_front(has_unit: bool, closed: bool, input: &[u8]) -> Result<UnitData, Refusal>
    ensures { result ≡ unit_front has_unit closed input.now }
{
    if input.len() < records::UNIT_SIZE {
        return Err(Refusal::TooFewBytes);
    }
    if closed {
        return Err(Refusal::AfterClose);
    }
    if has_unit {
        return Err(Refusal::SecondOne);
    }
    records_unit::read_unit(&input[1..records::UNIT_SIZE])
}

// Refusal 22: level or target above the short-term maximum, or seconds off with a level above 0.
#[tactic(auto, unfolding(day::specs::Step::too_high, level::specs::Level::from_kw))]
fn too_high(unit: &UnitData, o: &Opening) -> bool
    ensures { result ≡ too_high unit.now o.now }
{
    level::Level::from_kw(unit.maximum).grains < u64::from(o.level)
        || unit.maximum < o.target
        || (0 < o.level && 0 < o.off)
}

// An opening at the front of the input.
#[tactic(auto, unfolding(crate::specs::Fronts::opening_front))]
pub fn opening_front(
    unit: Option<&UnitData>,
    has_start: bool,
    closed: bool,
    input: &[u8],
) -> Result<Opening, Refusal>
    ensures { result ≡ opening_front (option_copied unit.entry) has_start closed input.now }
{
    if input.len() < records::OPENING_SIZE {
        return Err(Refusal::TooFewBytes);
    }
    if closed {
        return Err(Refusal::AfterClose);
    }
    if has_start {
        return Err(Refusal::SecondOne);
    }
    let Some(unit) = unit else {
        return Err(Refusal::BeforeUnit);
    };
    let opening = records_fields::read_opening(&input[1..records::OPENING_SIZE])?;
    if too_high(unit, &opening) {
        return Err(Refusal::OpeningTooHigh);
    }
    Ok(opening)
}

// An instruction at the front of the input.
#[tactic(auto, unfolding(crate::specs::Fronts::instruction_front))]
pub fn instruction_front(
    has_unit: bool,
    closed: bool,
    count: usize,
    input: &[u8],
) -> Result<Instruction, Refusal>
    ensures { result ≡ instruction_front has_unit closed count input.now }
{
    if input.len() < records::INSTRUCTION_SIZE {
        return Err(Refusal::TooFewBytes);
    }
    if closed {
        return Err(Refusal::AfterClose);
    }
    if !has_unit {
        return Err(Refusal::BeforeUnit);
    }
    if level::INSTRUCTIONS <= count {
        return Err(Refusal::TooManyInstructions);
    }
    records_fields::read_instruction(level::MOST_SECONDS, &input[1..records::INSTRUCTION_SIZE])
}

// A close, before anything is found.
#[tactic(auto, unfolding(crate::specs::Fronts::close_front))]
pub fn close_front(has_start: bool, closed: bool) -> Result<(), Refusal>
    ensures { result ≡ close_front has_start closed }
{
    if closed {
        return Err(Refusal::AfterClose);
    }
    if !has_start {
        return Err(Refusal::NotReady);
    }
    Ok(())
}
