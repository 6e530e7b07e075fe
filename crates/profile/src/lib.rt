// The operating profile of a day.
#![tactic(auto)]

ghost use Rattle.std.specs.Prelude.{◌≡◌, []};
ghost use Rattle.records.specs.Records.{unit_of, opening_of};

use course::Course;
use records::{Instruction, Opening, UnitData};

// The course under way: whether the unit is maximised, the target (kW) that MXOF goes back to, and the seconds off where
// the course began. (What `Course`, `Setting`, `Start` and this share is no struct of its own: each definition that builds or reads
// one would go a step further, as `now.unit.ordered`.)
#[derive(Clone, Copy, Default)]
pub struct UnderWay {
    pub course: Course,
    pub maximised: bool,
    pub ordered: u32,
    pub off: u32,
}

// What an instruction is read with: the level just before (grains), and the seconds off.
#[derive(Clone, Copy, Default)]
pub struct State {
    pub level: u64,
    pub off: u32,
}

// What a fate-0 instruction sets: the level that its course starts from (grains), the target (kW), the heat, the rates
// that replace all five of their kind (0 for none), whether it maximises, and the target that MXOF goes back to.
#[derive(Clone, Copy)]
pub struct Setting {
    pub from: u64,
    pub target: u32,
    pub heat: u32,
    pub up: u32,
    pub down: u32,
    pub maximised: bool,
    pub ordered: u32,
}

// What a day starts from at 06:00: the level (grains), the target (kW), the heat, the rates that replace all five of their kind (0
// for none), whether the unit is maximised, the target that MXOF goes back to, and the seconds off. The level has the 32 bits of the
// record, so that the sums of no day overflow.
#[derive(Clone, Copy, Default)]
pub struct Start {
    pub level: u32,
    pub target: u32,
    pub heat: u32,
    pub up: u32,
    pub down: u32,
    pub maximised: bool,
    pub ordered: u32,
    pub off: u32,
}

// The opening starts a course: no rate replaced, not maximised.
impl From<Opening> for Start {
    ghost use Rattle.std.specs.Prelude.{◌≡◌};
    ghost use Rattle.profile.specs.Taken.{start_of};

    ghost from_gives = { λ o s. s ≡ start_of o };

    #[tactic(auto, unfolding(crate::specs::Taken::start_of))]
    fn from(o: Opening) -> Self {
        Start {
            level: o.level,
            target: o.target,
            heat: o.heat,
            up: 0,
            down: 0,
            maximised: false,
            ordered: o.target,
            off: o.off,
        }
    }
}

// What was let in: the unit, what the day starts from, and the instructions, `count` of them. (Here and in `Finding` an array and
// its count are no `level::Few`: the calls promise for a count above the places, too.)
#[derive(Clone, Copy)]
pub struct Taken {
    pub unit: Option<UnitData>,
    pub start: Option<Start>,
    pub count: usize,
    pub instructions: [Instruction; level::INSTRUCTIONS],
}

// A unit of zeros.
#[tactic(auto, unfolding(records::specs::Records::unit_of, records::specs::Records::column_of, records::specs::Records::trigger_of))]
pub fn no_unit() -> UnitData
    ensures { result ≡ unit_of [] }
{
    UnitData::default()
}

// An opening of zeros.
#[tactic(auto, unfolding(records::specs::Records::opening_of))]
pub fn no_opening() -> Opening
    ensures { result ≡ opening_of [] }
{
    Opening::default()
}

impl Taken {
    ghost use Rattle.std.specs.Prelude.{◌≡◌};
    ghost use Rattle.profile.specs.Taken.{unit_or_zeros, start_or_zeros};

    // The unit; zeros while there is none.
    pub fn unit_or_zeros(&self) -> UnitData
        ensures { result ≡ unit_or_zeros self.now }
    {
        self.unit.unwrap_or(no_unit())
    }

    // What the opening starts; zeros while there is none.
    pub fn start_or_zeros(&self) -> Start
        ensures { result ≡ start_or_zeros self.now }
    {
        self.start.unwrap_or(Start::from(no_opening()))
    }
}

// What close found: the fates by number, the courses (`started` of them), twice the recorded area from 06:00 to each half-hour
// boundary (grain-seconds), the last course under way, and the state at the day's end.
#[derive(Clone, Copy, Default)]
pub struct Finding {
    pub fates: [u8; level::INSTRUCTIONS],
    pub started: usize,
    pub courses: [Course; level::COURSES],
    pub sums: [u64; level::BOUNDARIES],
    pub last: UnderWay,
    pub end: State,
}

impl Finding {
    ghost use Rattle.std.specs.Prelude.{◌≡◌};
    ghost use Rattle.profile.specs.Finding.{no_finding};

    // Nothing found.
    pub fn none() -> Finding
        ensures { result ≡ no_finding }
    {
        Finding::default()
    }
}

// The closing state, which E prints: level, target (kW), heat, seconds off.
#[derive(Clone, Copy)]
pub struct Closing {
    pub level: level::Level,
    pub target: u32,
    pub heat: u32,
    pub off: u32,
}
