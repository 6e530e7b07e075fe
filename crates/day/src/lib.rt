// The day: what was let in, and once it is closed, what close found.
#![tactic(auto)]

use records::Refusal;

// A day: what was let in, and what close found. It is closed where there is a finding.
#[derive(Clone, Copy)]
pub struct Day {
    pub taken: profile::Taken,
    pub found: Option<profile::Finding>,
}

// What taking a record gives: the answer, the day after it, and how many bytes it used.
// Not one `Result`: a refusal returns the day and the bytes used too, the same day and none.
#[derive(Clone, Copy)]
pub struct Stepped {
    pub answer: Result<(), Refusal>,
    pub day: Day,
    pub used: usize,
}
