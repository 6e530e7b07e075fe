// The lines of a day, kind by kind, put into any place for lines: to be counted, or to be kept.
#![tactic(auto)]

ghost use Rattle.std.specs.Prelude.{◌≡◌, ◌+◌, ◌*◌, ◌-◌, ◌<◌, ◌≤◌, length, take, drop, get_or};
ghost use Rattle.level.specs.Numbers.{most_half_hours, instruction_places, course_places};
ghost use Rattle.course.specs.Headings.{Short};
ghost use Rattle.profile.specs.Profile.{begin_of, closing_by};
ghost use Rattle.profile.specs.Finding.{quantity_at};
ghost use Rattle.course_rates.specs.Ways.{target_of};
ghost use Rattle.course_walk.specs.Walk.{beginning};
ghost use Rattle.listing_parts.specs.Rest.{fate_lines, piece_line, lines_left, courses_lines, quantity_lines, RunAsked, RunEnds, closing_line};

use lines_kinds::Sink;

// ---- F lines

// The lines of the first `count` fates. (An array with its count, as the day holds it, and no slice: a day may be handed in with any
// count, and one above the places means all of them.)
pub fn put_fates<S: Sink>(sink: &mut S, fates: &[u8; level::INSTRUCTIONS], count: usize)
    requires { S.has_room sink.old (fate_lines count fates.now) (44 * instruction_places) }
    ensures { S.takes sink.old (fate_lines count fates.now) (44 * instruction_places) sink.new }
{
    let n = count.min(level::INSTRUCTIONS);
    for (i, fate) in fates[..n].iter().enumerate() {
        lines_kinds::put_f(sink, i as u64 + 1, *fate as u64);
    }
}

// ---- S lines

// The line of the straight piece from p to q.
#[tactic(auto, unfolding(crate::specs::Rest::piece_line))]
fn put_piece<S: Sink>(sink: &mut S, p: course_walk::Place, q: course_walk::Place)
    requires { S.has_room sink.old (piece_line p q) 86 }
    ensures { S.takes sink.old (piece_line p q) 86 sink.new }
{
    lines_kinds::put_s(sink, p.second as u64, q.second as u64, p.level, q.level);
}

// The lines of a course, from where it begins to the second n. (A `while`: it goes along a course, which is no list.)
fn put_course<S: Sink>(sink: &mut S, r: &course_rates::Route, n: u32)
    requires short { Short r.now.heading (target_of r.now) r.now.course.start.grains }
    requires room { S.has_room sink.old (lines_left r.now n (beginning r.now.course r.now.course.begin)) 369367187370 }
    ensures { S.takes sink.old (lines_left r.now n (beginning r.now.course r.now.course.begin)) 369367187370 sink.new }
{
    let mut from = course_walk::begin_at(r, 0);
    while from.place.second < n {
        let to = course_walk::walk_on(r, from, n);
        put_piece(sink, from.place, to.place);
        from = to;
    }
}

// Where a course ends: where the first of the later ones begins, if there is one, else at the day's end.
fn end_of(later: &[course::Course], end: u32) -> u32
    ensures { result ≡ begin_of end later.now }
{
    match later.first() {
        Some(next) => next.begin,
        None => end,
    }
}

// The lines of the first `started` courses, of a day that ends at the second `end`. (An array with its count, as at `put_fates`.)
pub fn put_courses<S: Sink>(
    sink: &mut S,
    u: records::UnitData,
    cs: &[course::Course; level::COURSES],
    started: usize,
    end: u32,
)
    requires { S.has_room sink.old (courses_lines u end (take started cs.now)) (369367187370 * course_places) }
    ensures { S.takes sink.old (courses_lines u end (take started cs.now)) (369367187370 * course_places) sink.new }
{
    let began = &cs[..started.min(level::COURSES)];
    for (i, c) in began.iter().enumerate() {
        let route = course_rates::Route::new(u, *c);
        put_course(sink, &route, end_of(&began[i + 1..], end));
    }
}

// ---- Q lines

// Twice the area of the half-hour from the boundary i on; 0 where the sums fall.
fn twice_at(sums: &[u64; level::BOUNDARIES], i: usize) -> u64
    requires { i < most_half_hours }
    ensures { result ≡ get_or sums.now (i + 1) 0 - get_or sums.now i 0 }
{
    sums[i + 1].saturating_sub(sums[i])
}

// The boundary at which a run of the quantity kw ends, from the boundary `from` on, the last being `end`; `twice` is an area that
// gives kw, and the same area needs no rounding.
fn run_end(sums: &[u64; level::BOUNDARIES], twice: u64, kw: u64, from: usize, end: usize) -> usize
    requires { RunAsked twice kw from end }
    ensures { RunEnds (quantity_at sums.now) kw from end result }
{
    (from..end)
        .find(|&i| {
            let x = twice_at(sums, i);
            x != twice && profile_quantity::quantity_of(x) != kw
        })
        .unwrap_or(end)
}

// The lines of the quantities, of a day of so many half-hours. (A `while`: it goes from the end of one run to the end of the next.
// `chunk_by` would ask for a slice of quantities, and there is none: each is rounded from two of the sums where it is needed. And an
// array with `halves`: so many half-hours have a boundary more, so that a slice would be cut one longer than the day by each caller.)
pub fn put_quantities<S: Sink>(sink: &mut S, sums: &[u64; level::BOUNDARIES], halves: u32)
    requires halves_le_most_half_hours { halves ≤ most_half_hours }
    requires room { S.has_room sink.old (quantity_lines halves sums.now) (65 * most_half_hours) }
    ensures { S.takes sink.old (quantity_lines halves sums.now) (65 * most_half_hours) sink.new }
{
    let end = halves as usize;
    let mut i: usize = 0;
    while i < end {
        let twice = twice_at(sums, i);
        let kw = profile_quantity::quantity_of(twice);
        let last = run_end(sums, twice, kw, i + 1, end);
        lines_kinds::put_q(sink, i as u64 + 1, last as u64, kw);
        i = last;
    }
}

// ---- E line

// The closing state, by the last course under way and the state at the day's end.
pub fn closing_of(last: profile::UnderWay, end: profile::State) -> profile::Closing
    ensures { result ≡ closing_by last end }
{
    profile::Closing {
        level: level::Level { grains: end.level },
        target: last.course.target,
        heat: last.course.heat,
        off: end.off,
    }
}

// The line of the closing state.
#[tactic(auto, unfolding(crate::specs::Rest::closing_line))]
pub fn put_closing<S: Sink>(sink: &mut S, e: profile::Closing)
    requires { S.has_room sink.old (closing_line e) 86 }
    ensures { S.takes sink.old (closing_line e) 86 sink.new }
{
    lines_kinds::put_e(
        sink,
        e.level.grains,
        e.target as u64,
        e.heat as u64,
        e.off as u64,
    );
}
