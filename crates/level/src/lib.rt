// Levels in grains.
#![tactic(auto)]

ghost use Rattle.std.specs.Prelude.{◌≡◌};
ghost use Rattle.level.specs.Level.{from_kw};

mod few;

pub use few::Few;

// ---- numbers that more than one place needs, each said once; `specs/Numbers` has the same

// The seconds of a half-hour.
pub const HALF_HOUR: u32 = 1800;
// The half-hours, and the seconds, of the longest day that there is; its boundaries are one more than its half-hours.
pub const MOST_HALF_HOURS: u32 = 48;

pub const MOST_SECONDS: u32 = HALF_HOUR * MOST_HALF_HOURS;

pub const BOUNDARIES: usize = MOST_HALF_HOURS as usize + 1;
// Places for instructions, and for courses: one for each instruction, and that of the start.
pub const INSTRUCTIONS: usize = 40;

pub const COURSES: usize = INSTRUCTIONS + 1;

// ---- levels

// A level. A grain is 1/60 kW, so that a rate of r kW a minute is r grains a second. (The grain is document 01's own unit.)
#[derive(Clone, Copy, Default)]
pub struct Level {
    pub grains: u64,
}

impl Level {
    // Grains in a kW.
    pub const GRAINS_IN_A_KW: u64 = 60;
    // The largest level that a record may state, in kW and in grains.
    pub const MOST_KW: u32 = 2000000;

    pub const LARGEST: u64 = Level::GRAINS_IN_A_KW * Level::MOST_KW as u64;

    // A function with a name, and no `From<u32>`: the name says the unit.
    pub fn from_kw(kw: u32) -> Level
        ensures { result ≡ from_kw kw }
    {
        let wide = kw as u64;
        Level {
            grains: Level::GRAINS_IN_A_KW * wide,
        }
    }
}
