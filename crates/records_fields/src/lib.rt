// The bodies of an opening and of an instruction, each decoded once: refusals 5 to 9, and what the fields say.
#![tactic(auto)]

ghost use Rattle.std.specs.Prelude.{◌≡◌};
ghost use Rattle.records.specs.Fields.{opening_fits, figures_fit};
ghost use Rattle.records.specs.Records.{issue_of, opening_of, instruction_of};
ghost use Rattle.records_fields.specs.Decoded.{opening_read, instruction_with, instruction_read};

use level::Level;
use records::{Effect, Heat, Instruction, MOST_OFF, MOST_RATE, Meaning, Opening, Refusal};

// An issue time lies at most so many seconds before or after 06:00: a week.
const WEEK: u32 = 604800;

// An opening's fields lie in their ranges.
#[tactic(auto, unfolding(records::specs::Fields::opening_fits))]
fn opening_fits(o: &Opening) -> bool
    ensures { result ≡ opening_fits o.now }
{
    u64::from(o.level) <= Level::LARGEST
        && o.target <= Level::MOST_KW
        && Heat::try_from(o.heat).is_ok()
        && o.off <= MOST_OFF
}

// What the fields of a body say as an opening, in their ranges or not.
#[tactic(auto, unfolding(records::specs::Records::opening_of))]
pub fn opening_in(body: &[u8]) -> Opening
    ensures { result ≡ opening_of body.now }
{
    Opening {
        level: records_bytes::number(body, 0),
        target: records_bytes::number(body, 4),
        heat: records_bytes::number(body, 8),
        off: records_bytes::number(body, 12),
    }
}

// The opening that a body holds, where its fields lie in their ranges.
#[tactic(auto, unfolding(records::specs::Fields::opening_answer))]
pub fn read_opening(body: &[u8]) -> Result<Opening, Refusal>
    ensures { result ≡ opening_read body.now }
{
    let opening = opening_in(body);
    if !opening_fits(&opening) {
        return Err(Refusal::OpeningField);
    }
    Ok(opening)
}

// A signed issue time as seconds above -604,800.
#[tactic(auto, unfolding(records::specs::Records::issue_of))]
fn issue_of(n: u32) -> u32
    ensures { result ≡ issue_of n }
{
    n.wrapping_add(WEEK)
}

// Level and rates are what the code allows: MWOF carries them, the others 0.
#[tactic(auto, unfolding(records::specs::Fields::figures_fit))]
fn figures_fit(i: &Instruction) -> bool
    ensures { result ≡ figures_fit i.now }
{
    if i.meaning.effect == Effect::Mwof {
        return i.level <= Level::MOST_KW && i.up <= MOST_RATE && i.down <= MOST_RATE;
    }
    i.level == 0 && i.up == 0 && i.down == 0
}

// What the fields of a body say as an instruction whose code means this.
fn instruction_with(meaning: Meaning, body: &[u8]) -> Instruction
    ensures { result ≡ instruction_with meaning body.now }
{
    Instruction {
        effective: records_bytes::number(body, 0),
        issue: issue_of(records_bytes::number(body, 4)),
        meaning,
        level: records_bytes::number(body, 9),
        up: records_bytes::number(body, 13),
        down: records_bytes::number(body, 17),
    }
}

// What the fields of a body say as an instruction, allowed or not. A code that has no meaning reads like the last one, FAIL.
#[tactic(auto, unfolding(records::specs::Records::instruction_of))]
pub fn instruction_in(body: &[u8]) -> Instruction
    ensures { result ≡ instruction_of body.now }
{
    let meaning = records_bytes::decode(records_bytes::byte(body, 8));
    let fail = Meaning {
        lag: 0,
        rank: 7,
        effect: Effect::Fail,
    };
    instruction_with(meaning.unwrap_or(fail), body)
}

// The instruction that a body holds, where its fields are what kind 3 allows, in a day of so many seconds.
#[tactic(auto, unfolding(records::specs::Records::instruction_of, records::specs::Fields::instruction_answer))]
pub fn read_instruction(end: u32, body: &[u8]) -> Result<Instruction, Refusal>
    ensures { result ≡ instruction_read end body.now }
{
    let code = records_bytes::byte(body, 8);
    let meaning = records_bytes::decode(code).ok_or(Refusal::CodeField)?;
    let instruction = instruction_with(meaning, body);
    if end <= instruction.effective {
        return Err(Refusal::EffectiveTime);
    }
    if 2 * WEEK < instruction.issue {
        return Err(Refusal::IssueTime);
    }
    if !figures_fit(&instruction) {
        return Err(Refusal::LevelOrRates);
    }
    Ok(instruction)
}
