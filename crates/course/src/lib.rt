// Courses.
#![tactic(auto)]

// A course (document 01's own term): what the opening or one instruction sets going. It begins at a second of the day,
// at the level `start` (after any step), and goes to `target` (kW), with the start-up column of `heat`. `up` and `down`
// replace all five ramp-up or ramp-down rates (kW a minute; 0: none does). 0 for none is the paper's own number, which a
// record carries: so no `Option`.
#[derive(Clone, Copy, Default)]
pub struct Course {
    pub begin: u32,
    pub start: level::Level,
    pub target: u32,
    // A number: callers may hand in any, E prints it as it is, and a type of three would ask more of them.
    pub heat: u32,
    pub up: u32,
    pub down: u32,
}

// Which way a course's level goes on its way to the target.
#[derive(Clone, Copy)]
pub enum Heading {
    Rising,
    Falling,
}

// A straight piece of a course: from one second to another, and the levels there (grains).
#[derive(Clone, Copy)]
pub struct Piece {
    pub from: u32,
    pub to: u32,
    pub enter: u64,
    pub leave: u64,
}

// A segment (Appendix P's word): the straight way of a course to a stop (grains), the rate (grains a second), and the
// hold at that stop (seconds).
#[derive(Clone, Copy)]
pub struct Segment {
    pub way: u64,
    pub rate: u64,
    pub hold: u64,
}
