// The listing of a day.
#![tactic(auto)]

// What printing for an input gives: how many bytes of the lent slice were written, and whether the input ends too early to be
// answered. Not an `Option`: a line is printed where it ends too early, too.
#[derive(Clone, Copy)]
pub struct Printed {
    pub count: usize,
    pub more: bool,
}

// "46,080 bytes always suffice": for the listing of any day that records make.
pub const SUFFICES: usize = 46080;
