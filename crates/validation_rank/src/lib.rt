// Which instruction is used of those at one effective time, step 2: ranks and carriers.
#![tactic(auto)]

ghost use Rattle.std.specs.Prelude.{◌≡◌, List, [], ◌∷◌, option_to_list};
ghost use Rattle.level.specs.Choice.{pick};
ghost use Rattle.records.specs.declared.Effect.TheVariants.{Sync, Desy};
ghost use Rattle.validation.specs.declared.Numbered.{Numbered};
ghost use Rattle.validation.specs.Kept.{goes_before, or_else, present, carrying, merged, used_of};
ghost use Rattle.validation_rank.specs.Best.{best_from};

use records::{Effect, Instruction};
use validation::Numbered;

// ---- step 2: the one that is used of those left at one effective time

// x, entered after o, goes before it.
#[tactic(auto, unfolding(validation::specs::Kept::goes_before))]
fn goes_before(x: Numbered, o: Numbered) -> bool
    ensures { result ≡ goes_before x o }
{
    let i = x.instruction;
    let j = o.instruction;
    i.meaning.rank < j.meaning.rank
        || x.effect() == Effect::Mwof && o.effect() == Effect::Mwof && j.level < i.level
}

// The one of two that goes before the other; o was entered first.
fn higher(x: Numbered, o: Numbered) -> Numbered
    ensures { result ≡ pick (goes_before x o) x o }
{
    if goes_before(x, o) { x } else { o }
}

// The highest ranked so far, with o looked at.
#[tactic(auto, unfolding(validation::specs::Kept::highest, crate::specs::Best::best_from))]
pub fn better(best: Option<Numbered>, o: Numbered) -> Option<Numbered>
    ensures { option_to_list result ≡ best_from (option_to_list best) (o ∷ []) }
{
    match best {
        Some(b) => Some(higher(o, b)),
        None => Some(o),
    }
}

// o, where it has this code.
#[tactic(auto, unfolding(validation::specs::Kept::present, level::specs::Lists::those))]
pub fn of_code(o: Numbered, code: Effect) -> Option<Numbered>
    ensures { option_to_list result ≡ present code (o ∷ []) }
{
    if o.effect() == code { Some(o) } else { None }
}

// c with the level and the rates of m.
#[tactic(auto, unfolding(validation::specs::Kept::carrying))]
fn carry(m: Numbered, c: Numbered) -> Numbered
    ensures { result ≡ carrying m c }
{
    let i = m.instruction;
    Numbered {
        number: c.number,
        instruction: Instruction {
            level: i.level,
            up: i.up,
            down: i.down,
            ..c.instruction
        },
    }
}

// The highest ranked of a group; an MWOF goes into the carrier, where there is one.
#[tactic(auto, unfolding(validation::specs::Kept::merged))]
fn merge(highest: Numbered, carrier: Option<Numbered>) -> Numbered
    ensures { (g : List Numbered) → option_to_list carrier ≡ or_else (present Sync g) (present Desy g) → result ∷ [] ≡ merged g highest }
{
    match carrier {
        Some(c) if highest.effect() == Effect::Mwof => carry(highest, c),
        _ => highest,
    }
}

// The one that is used of a group: by its highest ranked, its earliest SYNC and its earliest DESY.
pub fn used_of(
    best: Option<Numbered>,
    sync: Option<Numbered>,
    desy: Option<Numbered>,
) -> Option<Numbered>
    ensures { (g : List Numbered) → option_to_list best ≡ best_from [] g → option_to_list sync ≡ present Sync g →
        option_to_list desy ≡ present Desy g → option_to_list result ≡ used_of g }
{
    let highest = best?;
    Some(merge(highest, sync.or(desy)))
}
