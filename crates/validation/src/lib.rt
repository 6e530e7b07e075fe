// Which instructions are kept.
#![tactic(auto)]

ghost use Rattle.std.specs.Prelude.{◌≡◌, ◌<◌, ◌^◌, MatchOption};
ghost use Rattle.validation.specs.Kept.{effect_of, acting};
ghost use Rattle.validation.specs.Places.{NoPlace, PlaceOf};

// An instruction with its number. A carrier has the level and the rates of the MWOF that it carries.
// The numbers begin at 1; a place with no instruction has 0, and any may be handed in: `place_of` gets over it. No `Option`: an instruction has one.
#[derive(Clone, Copy)]
pub struct Numbered {
    pub number: u32,
    pub instruction: records::Instruction,
}

impl Numbered {
    // What it does, by its code.
    pub fn effect(&self) -> records::Effect
        ensures { result ≡ effect_of self.now }
    {
        self.instruction.meaning.effect
    }

    // The second at which it acts: effective time and lag. The sum of two fields of 32 bits may pass 32 bits.
    #[tactic(auto, unfolding(crate::specs::Kept::acting))]
    pub fn acting(&self) -> u64
        ensures { (result ≡ acting self.now) × (result < 2 ^ 33) }
    {
        let i = self.instruction;
        let lag = i.meaning.lag as u64;
        i.effective as u64 + lag
    }
}

// The place of a number among so many, where it has one: the numbers begin at 1.
pub fn place_of(number: u32, places: usize) -> Option<usize>
    ensures { MatchOption result (NoPlace number places) (PlaceOf number places) }
{
    let at = number.checked_sub(1)? as usize;
    if at < places { Some(at) } else { None }
}
