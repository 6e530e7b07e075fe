// The taker of one record: what it returns holds the rest of the caller's slice.
#![tactic(auto)]

ghost use Rattle.std.specs.Prelude.{◌≡◌, drop};
ghost use Rattle.day.specs.Step.{step_of};
ghost use Rattle.day_take.specs.Rest.{rest_after};

use day::{Day, Stepped};

// What taking a record gives, and the part of the caller's slice that it did not use.
#[derive(Clone, Copy)]
pub struct TakenRest<'a> {
    pub stepped: Stepped,
    pub rest: &'a [u8],
}

// What is left of the input after a step.
pub fn rest_after<'a>(s: Stepped, input: &'a [u8]) -> &'a [u8]
    ensures { result.now ≡ rest_after s input.now }
{
    let used = s.used;
    if used <= input.len() {
        return &input[used..];
    }
    input
}

// Taking the record at the front of the input. On a refusal: its number, the same day, the whole slice.
#[tactic(auto, using(crate::proofs::Laws::rest_is))]
pub fn take<'a>(day: Day, input: &'a [u8]) -> TakenRest<'a>
    ensures { (result.stepped ≡ step_of day input.now) × (result.rest.now ≡ drop (step_of day input.now).used input.now) }
{
    let stepped = day_step::step(day, input);
    let rest = rest_after(stepped, input);
    TakenRest { stepped, rest }
}

// What `day_step::step` promises, by way of `take`: the program of calls takes its records by this, so that `take` is what runs when
// it is tested. The bytes used are as the rest shows them: so many as the input has more.
#[tactic(auto, using(crate::proofs::Laws::counted_is))]
pub fn take_front(day: Day, input: &[u8]) -> Stepped
    ensures { result ≡ step_of day input.now }
{
    let taken = take(day, input);
    Stepped {
        answer: taken.stepped.answer,
        day: taken.stepped.day,
        used: input.len().saturating_sub(taken.rest.len()),
    }
}
