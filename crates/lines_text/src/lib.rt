// Writers of decimal numbers and of a line of any kind, each of which fills the front of the part that it is lent.
#![tactic(auto)]

ghost use Rattle.std.specs.Prelude.{◌≤◌, length};
ghost use Rattle.lines.specs.Text.{decimal, field, line};
ghost use Rattle.lines.specs.Writing.{Written, Measured};

// The digits of v at the front of out; how many there are.
pub fn put_decimal(out: &mut [u8], v: u64) -> usize
    requires { length (decimal v) ≤ length out.old }
    ensures { Written (decimal v) result out.old out.new }
{
    let width = decimal_width(v);
    itoa::write_digits(v, out, width);
    width
}

// A blank and the digits of v.
pub fn put_field(out: &mut [u8], v: u64) -> usize
    requires { length (field v) ≤ length out.old }
    ensures { Written (field v) result out.old out.new }
{
    out[0] = b' ';
    let n = put_decimal(&mut out[1..], v);
    n + 1
}

// A line of any kind: its letter, the numbers vs, a line feed.
pub fn put_line(out: &mut [u8], letter: u8, vs: &[u64]) -> usize
    requires { length (line letter vs.now) ≤ length out.old }
    ensures { Written (line letter vs.now) result out.old out.new }
{
    out[0] = letter;
    let mut at: usize = 1;
    for v in vs {
        at += put_field(&mut out[at..], *v);
    }
    out[at] = b'\n';
    at + 1
}

// How many digits v has: one more than its logarithm, and one for 0, which has none.
#[tactic(auto, using(crate::proofs::Digits::widths))]
pub fn decimal_width(v: u64) -> usize
    ensures { Measured (decimal v) 20 result }
{
    match v.checked_ilog10() {
        Some(log) => log as usize + 1,
        None => 1,
    }
}
