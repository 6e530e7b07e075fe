// The listing program between reading and writing: an input, and what is printed for it, in a lent slice.
#![tactic(auto)]

ghost use Rattle.std.specs.Prelude.{◌≡◌};
ghost use Rattle.records.specs.Answers.{refusal_number};
ghost use Rattle.lines.specs.Lines.{x_line};
ghost use Rattle.lines.specs.Writing.{Written};
ghost use Rattle.listing.specs.Program.{fitting, print_of, print_lent};

use lines_kinds::{Measure, Writer};
use listing::Printed;
use records::Refusal;

// The line `X n` of a refusal at the front of the lent slice, where there is room for it.
fn put_refusal(out: &mut [u8], refusal: Refusal) -> usize
    ensures { Written (fitting (x_line (refusal_number refusal)) out.old) result out.old out.new }
{
    let number = refusal.number() as u64;
    let mut measure = Measure::default();
    lines_kinds::put_x(&mut measure, number);
    if out.len() < measure.width {
        return 0;
    }
    let mut writer = Writer { out, at: 0 };
    lines_kinds::put_x(&mut writer, number);
    writer.at
}

// What the listing program prints for the input, at the front of the lent slice: the listing, or the line of the first refusal.
// Where the slice is too short for it, nothing is written. `more`: the input ends too early to be answered, and bytes after it
// may change what is printed.
pub fn print(input: &[u8], out: &mut [u8]) -> Printed
    ensures { (result ≡ print_of input.now out.old) × (out.new ≡ print_lent input.now out.old) }
{
    match gristpebble::listing(input, out) {
        Ok(count) => Printed { count, more: false },
        Err(refusal) => {
            if refusal == Refusal::SliceTooShort {
                return Printed {
                    count: 0,
                    more: false,
                };
            }
            Printed {
                count: put_refusal(out, refusal),
                more: refusal == Refusal::TooFewBytes,
            }
        }
    }
}
