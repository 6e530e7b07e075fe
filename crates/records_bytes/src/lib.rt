// Readers of bytes, numbers and codes.
#![tactic(auto)]

ghost use Rattle.std.specs.Prelude.{◌≡◌, ◌<◌, ◌^◌, get_or};
ghost use Rattle.records.specs.Codes.{meaning_of};
ghost use Rattle.records.specs.Records.{number_at, no_instruction};

use records::{Effect, Instruction, Meaning};

// Lag, rank and effect of a code byte.
#[tactic(auto, unfolding(records::specs::Codes::meaning_of))]
pub fn decode(code: u8) -> Option<Meaning>
    ensures { result ≡ meaning_of code }
{
    let (lag, effect) = match code {
        1 => (0, Effect::Trip),
        2 => (120, Effect::Mwof),
        3 => (120, Effect::Mxon),
        4 => (0, Effect::Sync),
        5 => (120, Effect::Mxof),
        6 => (120, Effect::Desy),
        7 => (0, Effect::Fail),
        _ => return None,
    };
    Some(Meaning {
        lag,
        rank: code,
        effect,
    })
}

// What a place for an instruction holds that none has taken: zeros.
// By hand, since no effect is the usual one and `Effect` has no `Default`.
pub fn no_instruction() -> Instruction
    ensures { result ≡ no_instruction }
{
    let effect = Effect::Trip;
    let meaning = Meaning {
        lag: 0,
        rank: 0,
        effect,
    };
    Instruction {
        effective: 0,
        issue: 0,
        meaning,
        level: 0,
        up: 0,
        down: 0,
    }
}

// The byte at a place; 0 past the end.
pub fn byte(s: &[u8], at: usize) -> u8
    ensures { result ≡ get_or s.now at 0 }
{
    s.get(at).copied().unwrap_or(0)
}

// The number whose four bytes begin at a place. Where the body has all four, the compiler reads them at once.
pub fn number(body: &[u8], at: usize) -> u32
    requires { at < 2 ^ 32 }
    ensures { result ≡ number_at body.now at }
{
    if at + 4 <= body.len() {
        return u32::from_be_bytes([body[at], body[at + 1], body[at + 2], body[at + 3]]);
    }
    u32::from_be_bytes([
        byte(body, at),
        byte(body, at + 1),
        byte(body, at + 2),
        byte(body, at + 3),
    ])
}
