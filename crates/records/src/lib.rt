// Records: what they hold, and the answers that they get.
#![tactic(auto)]

// The bytes of a record of each kind, with the byte of kind.
pub const UNIT_SIZE: usize = 249;

pub const OPENING_SIZE: usize = 17;

pub const INSTRUCTION_SIZE: usize = 22;

pub const CLOSE_SIZE: usize = 1;

// The highest that a rate in kW a minute may be, and the seconds off, of which more are not counted. Of a level it is `Level::MOST_KW`.
pub const MOST_RATE: u32 = 200000;

pub const MOST_OFF: u32 = 10000000;

// The kinds of records, with their numbers.
#[derive(Clone, Copy)]
pub enum Kind {
    Unit = 1,
    Opening = 2,
    Instruction = 3,
    Close = 4,
}

impl TryFrom<u8> for Kind {
    ghost use Rattle.std.specs.Prelude.{◌≡◌};
    ghost use Rattle.records.specs.Kinds.{kind_by};

    type Error = Refusal;

    ghost try_from_gives = { λ k r. r ≡ kind_by k };

    fn try_from(byte: u8) -> Result<Self, Refusal> {
        match byte {
            1 => Ok(Kind::Unit),
            2 => Ok(Kind::Opening),
            3 => Ok(Kind::Instruction),
            4 => Ok(Kind::Close),
            _ => Err(Refusal::UnknownKind),
        }
    }
}

// A soak or dwell trigger: a level in kW, and the minutes that the unit holds there. 0 minutes: no hold.
#[derive(Clone, Copy, Default)]
pub struct Trigger {
    pub level: u32,
    pub minutes: u32,
}

// A start-up column: block load in kW, rates in kW a minute, breaks in kW, soak triggers.
#[derive(Clone, Copy, Default)]
pub struct Column {
    pub block: u32,
    pub rates: [u32; 3],
    pub breaks: [u32; 2],
    pub soaks: [Trigger; 2],
}

// A ramp-up or ramp-down list.
#[derive(Clone, Copy, Default)]
pub struct Ramp {
    pub rates: [u32; 5],
    pub breaks: [u32; 4],
}

// The deload list.
#[derive(Clone, Copy, Default)]
pub struct Deload {
    pub rates: [u32; 2],
    pub breaks: [u32; 1],
}

// A unit's technical data. Levels in kW, cooling boundaries in minutes; `msg` is the Minimum Stable Generation.
// The columns stand by heat: hot, warm, cold.
#[derive(Clone, Copy, Default)]
pub struct UnitData {
    pub capacity: u32,
    pub maximum: u32,
    pub msg: u32,
    pub hot: u32,
    pub warm: u32,
    pub columns: [Column; 3],
    pub up: Ramp,
    pub dwells: [Trigger; 3],
    pub down: Ramp,
    pub deload: Deload,
}

// The heats of a start, with the paper's numbers. (The structs' fields keep the number, since callers may hand in any.)
#[derive(Clone, Copy)]
pub enum Heat {
    Hot = 1,
    Warm = 2,
    Cold = 3,
}

impl TryFrom<u32> for Heat {
    ghost use Rattle.std.specs.Prelude.{◌≡◌};
    ghost use Rattle.records.specs.Heats.{heat_of};

    type Error = Refusal;

    ghost try_from_gives = { λ n r. r ≡ heat_of n };

    fn try_from(number: u32) -> Result<Self, Refusal> {
        match number {
            1 => Ok(Heat::Hot),
            2 => Ok(Heat::Warm),
            3 => Ok(Heat::Cold),
            _ => Err(Refusal::OpeningField),
        }
    }
}

impl Heat {
    ghost use Rattle.std.specs.Prelude.{◌≡◌};
    ghost use Rattle.records.specs.Heats.{heat_number};

    // The paper's number of a heat.
    pub fn number(self) -> u32
        ensures { result ≡ heat_number self }
    {
        self as u32
    }
}

// The opening: level at 06:00 in grains, target in kW, heat (1 hot, 2 warm, 3 cold), seconds off.
#[derive(Clone, Copy, Default)]
pub struct Opening {
    pub level: u32,
    pub target: u32,
    pub heat: u32,
    pub off: u32,
}

// What an instruction does at its acting second (Table 7), with the number of its code.
#[derive(Clone, Copy, PartialEq, Eq)]
pub enum Effect {
    Trip = 1,
    Mwof = 2,
    Mxon = 3,
    Sync = 4,
    Mxof = 5,
    Desy = 6,
    Fail = 7,
}

impl Effect {
    ghost use Rattle.std.specs.Prelude.{◌≡◌};
    ghost use Rattle.records.specs.Codes.{code_number};

    // The paper's number of a code.
    pub fn number(self) -> u8
        ensures { result ≡ code_number self }
    {
        self as u8
    }
}

// What a code means: the lag in seconds, the rank (1 the highest), the effect.
#[derive(Clone, Copy)]
pub struct Meaning {
    pub lag: u32,
    pub rank: u8,
    pub effect: Effect,
}

// A dispatch instruction. The issue time is kept as seconds above -604,800; level in kW; up and down rate in kW a
// minute, 0 for none given: the paper's own number, which the record carries, so no `Option`.
#[derive(Clone, Copy)]
pub struct Instruction {
    pub effective: u32,
    pub issue: u32,
    pub meaning: Meaning,
    pub level: u32,
    pub up: u32,
    pub down: u32,
}

// The refusals of both lists, with the paper's numbers.
#[derive(Clone, Copy, PartialEq, Eq)]
pub enum Refusal {
    UnknownKind = 1,
    TooFewBytes = 2,
    UnitField = 3,
    UnitDisagrees = 4,
    OpeningField = 5,
    CodeField = 6,
    EffectiveTime = 7,
    IssueTime = 8,
    LevelOrRates = 9,
    SecondOne = 20,
    BeforeUnit = 21,
    OpeningTooHigh = 22,
    TooManyInstructions = 23,
    AfterClose = 24,
    NotReady = 25,
    SliceTooShort = 26,
    QuantityTooHigh = 27,
}

impl Refusal {
    ghost use Rattle.std.specs.Prelude.{◌≡◌};
    ghost use Rattle.records.specs.Answers.{refusal_number};

    // The paper's number of a refusal.
    pub fn number(self) -> u8
        ensures { result ≡ refusal_number self }
    {
        // (Named, so that the edits that plant another number tell it from the two above.)
        let refusal = self;
        refusal as u8
    }
}
