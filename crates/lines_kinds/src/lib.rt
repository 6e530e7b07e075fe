// Places for lines, and the four kinds of line and the line of a refusal, put into any of them.
#![tactic(auto)]

ghost use Rattle.std.specs.Prelude.{◌≡◌, ◌<◌, ◌+◌, ◌*◌, ◌^◌, ℕ, List, length};
ghost use Rattle.lines.specs.Lines.{f_line, s_line, q_line, e_line, x_line};
ghost use Rattle.lines.specs.Text.{line};
ghost use Rattle.lines.specs.Writing.{SinkLaws};
ghost use Rattle.lines_kinds.specs.Sinks.{can_count, counts, can_keep, keeps};
ghost use Rattle.lines_kinds.specs.Laws.{measuring, keeping};

// A place for lines, one after another: it counts their bytes, or it keeps them.
pub trait Sink {
    // It has room for these bytes, at most so many.
    ghost has_room: { Self → List ℕ → ℕ → Type 0 };

    // It has taken these bytes, at most so many, and is another place now.
    ghost takes: { Self → List ℕ → ℕ → Self → Type 0 };

    // A line of any kind: its letter, the numbers, a line feed.
    fn put(&mut self, letter: u8, numbers: &[u64])
        requires { has_room self.old (line letter numbers.now) (21 * length numbers.now + 2) }
        ensures { takes self.old (line letter numbers.now) (21 * length numbers.now + 2) self.new };

    ghost laws: { SinkLaws has_room takes };
}

// How many bytes the lines have.
#[derive(Clone, Copy, Default)]
pub struct Measure {
    pub width: usize,
}

impl Sink for Measure {
    ghost has_room = { can_count };

    ghost takes = { counts };

    ghost laws = { measuring };

    fn put(&mut self, _letter: u8, numbers: &[u64]) {
        self.width += 2;
        for v in numbers {
            self.width += lines_text::decimal_width(*v) + 1;
        }
    }
}

// The bytes of the lines, in a lent slice up to the byte `at`. (The slice with the place, and not its rest: its maker asks how many
// bytes were written, and its laws say what the whole slice holds.)
#[derive(Drop)]
pub struct Writer<'a> {
    pub out: &'a mut [u8],
    pub at: usize,
}

impl<'a> Sink for Writer<'a> {
    ghost has_room = { can_keep };

    ghost takes = { keeps };

    ghost laws = { keeping };

    fn put(&mut self, letter: u8, numbers: &[u64]) {
        self.at += lines_text::put_line(&mut self.out[self.at..], letter, numbers);
    }
}

// ---- the lines of the paper, a function for each: `put` alone takes any letter with any numbers

// `F n fate`
#[tactic(auto, unfolding(lines::specs::Lines::f_line))]
pub fn put_f<S: Sink>(sink: &mut S, n: u64, fate: u64)
    requires { S.has_room sink.old (f_line n fate) 44 }
    ensures { S.takes sink.old (f_line n fate) 44 sink.new }
{
    sink.put(b'F', &[n, fate]);
}

// `S from to level level`: seconds, then grains where the run is entered and where it is left.
#[tactic(auto, unfolding(lines::specs::Lines::s_line))]
pub fn put_s<S: Sink>(sink: &mut S, from: u64, to: u64, enter: u64, leave: u64)
    requires { S.has_room sink.old (s_line from to enter leave) 86 }
    ensures { S.takes sink.old (s_line from to enter leave) 86 sink.new }
{
    sink.put(b'S', &[from, to, enter, leave]);
}

// `Q first last kW`
#[tactic(auto, unfolding(lines::specs::Lines::q_line))]
pub fn put_q<S: Sink>(sink: &mut S, first: u64, last: u64, kw: u64)
    requires { S.has_room sink.old (q_line first last kw) 65 }
    ensures { S.takes sink.old (q_line first last kw) 65 sink.new }
{
    sink.put(b'Q', &[first, last, kw]);
}

// `E level target heat off`: grains, kW, heat, seconds.
#[tactic(auto, unfolding(lines::specs::Lines::e_line))]
pub fn put_e<S: Sink>(sink: &mut S, level: u64, target: u64, heat: u64, off: u64)
    requires { S.has_room sink.old (e_line level target heat off) 86 }
    ensures { S.takes sink.old (e_line level target heat off) 86 sink.new }
{
    sink.put(b'E', &[level, target, heat, off]);
}

// `X n`, of the listing program.
#[tactic(auto, unfolding(lines::specs::Lines::x_line))]
pub fn put_x<S: Sink>(sink: &mut S, n: u64)
    requires { S.has_room sink.old (x_line n) 23 }
    ensures { S.takes sink.old (x_line n) 23 sink.new }
{
    sink.put(b'X', &[n]);
}
