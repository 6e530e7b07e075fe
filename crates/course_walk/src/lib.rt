// Along a course, one straight piece after another: `begin_at`, `walk_on`. A course goes by its own lists; proofs/Own.antt says that
// they do for it what the unit's do.
#![tactic(auto)]

ghost use Rattle.std.specs.Prelude.{◌≡◌, ◌+◌, ◌*◌, ◌-◌, ◌/◌, min, ◌<◌, ◌≤◌, ◌^◌};
ghost use Rattle.level.specs.Bounds.{level_bound};
ghost use Rattle.course.specs.Course.{toward};
ghost use Rattle.course_rates.specs.Ways.{target_of, lists_by};
ghost use Rattle.course_walk.specs.Walk.{Reaches, WalkAhead, RunAhead, Known, unknown, reached_at, onward};
ghost use Rattle.course_walk.specs.Walk.{after_hold, after_rest, after_run, after_short, along, rest_along, rest_run};

// ---- going along a course

// Where a course stands at a second: its level, and the seconds left of a hold.
#[derive(Clone, Copy)]
pub struct Place {
    pub second: u32,
    pub level: u64,
    pub left: u64,
}

// How far a course has been followed: the place, and what is left there of the segment under way, where one is known.
#[derive(Clone, Copy)]
pub struct Reached {
    pub place: Place,
    pub rest: Option<course::Segment>,
}

// At a place where no segment is known.
fn arrived(place: Place) -> Reached
    ensures { result ≡ unknown place }
{
    Reached { place, rest: None }
}

// The level v moved by m in the heading's direction.
#[tactic(auto, using(crate::proofs::Onward::room_up, crate::proofs::Onward::room_down), unfolding(course::specs::Course::toward))]
pub fn moved(heading: course::Heading, v: u64, m: u64) -> u64
    requires { Reaches heading v m }
    ensures { result ≡ toward heading v m }
{
    match heading {
        course::Heading::Rising => v + m,
        course::Heading::Falling => v - m,
    }
}

// To the end of a hold, or to the second n.
#[tactic(auto, unfolding(crate::specs::Walk::after_hold))]
fn after_hold(p: Place, n: u32) -> Place
    requires { p.second < n }
    ensures { result ≡ after_hold n p }
{
    let held = p.left.min((n - p.second) as u64);
    Place {
        second: p.second + held as u32,
        level: p.level,
        left: p.left - held,
    }
}

// At rest to the second n.
#[tactic(auto, unfolding(crate::specs::Walk::after_rest))]
fn after_rest(p: Place, n: u32) -> Place
    ensures { result ≡ after_rest n p }
{
    Place {
        second: n,
        level: p.level,
        left: 0,
    }
}

// A second to the stop of a segment.
#[tactic(auto, unfolding(crate::specs::Walk::after_short))]
fn after_short(heading: course::Heading, p: Place, s: course::Segment) -> Place
    requires second_bound { p.second + 1 < 2 ^ 32 }
    requires reaches { Reaches heading p.level s.way }
    ensures { result ≡ after_short heading p s }
{
    let level = moved(heading, p.level, s.way);
    Place {
        second: p.second + 1,
        level,
        left: s.hold,
    }
}

// f seconds at the full rate of a segment, with what is left of it; where that is nothing, its hold begins.
#[tactic(auto, using(crate::proofs::Onward::reaches_less), unfolding(crate::specs::Walk::after_run, crate::specs::Walk::rest_run))]
fn after_run(heading: course::Heading, p: Place, s: course::Segment, f: u32) -> Reached
    requires { RunAhead heading p s f }
    ensures { result ≡ record { place = after_run heading f p s; rest = rest_run f s } }
{
    let m = (f as u64) * s.rate;
    let level = moved(heading, p.level, m);
    let second = p.second + f;
    if m == s.way {
        return arrived(Place {
            second,
            level,
            left: s.hold,
        });
    }
    let place = Place {
        second,
        level,
        left: 0,
    };
    let rest = course::Segment {
        way: s.way - m,
        rate: s.rate,
        hold: s.hold,
    };
    Reached {
        place,
        rest: Some(rest),
    }
}

// The whole seconds at full rate before the stop of a segment, or before the second n.
fn run_seconds(p: Place, s: course::Segment, n: u32) -> u32
    requires second_lt_n { p.second < n }
    requires le_rate { 1 ≤ s.rate }
    ensures { result ≡ min (s.way / s.rate) (n - p.second) }
{
    let full = s.way / s.rate;
    full.min((n - p.second) as u64) as u32
}

// The straight piece that a segment begins with. Kept with heading, place and segment as parameters: a struct of them would be made
// for this call and taken apart again.
#[tactic(auto, using(crate::proofs::Onward::full_way), unfolding(crate::specs::Walk::along, crate::specs::Walk::rest_along))]
fn along_segment(heading: course::Heading, p: Place, s: course::Segment, n: u32) -> Reached
    requires second_lt_n { p.second < n }
    requires reaches { Reaches heading p.level s.way }
    ensures { result ≡ record { place = along heading n p s; rest = rest_along n p s } }
{
    if s.rate == 0 {
        return arrived(after_rest(p, n));
    }
    if s.way < s.rate {
        return arrived(after_short(heading, p, s));
    }
    let f = run_seconds(p, s, n);
    after_run(heading, p, s, f)
}

// To the end of the straight piece that begins where the course was reached, and no further than the second n. The run and
// the shorter last second before a stop go by one segment, found once.
pub fn walk_on(r: &course_rates::Route, from: Reached, n: u32) -> Reached
    requires { WalkAhead r.now from n }
    ensures onward { result.place ≡ onward r.now.heading (lists_by r.now) (target_of r.now) n from.place }
    ensures known { Known r.now.heading (lists_by r.now) (target_of r.now) result }
    ensures low { from.place.level < level_bound → result.place.level < level_bound }
{
    let p = from.place;
    let t = course_rates::grains_of(r.course.target);
    if let Some(s) = from.rest {
        return along_segment(r.heading, p, s, n);
    }
    if 0 < p.left {
        return arrived(after_hold(p, n));
    }
    if p.level == t {
        return arrived(after_rest(p, n));
    }
    let ahead = course_stops::segment_from(r, p.level);
    along_segment(r.heading, p, ahead, n)
}

// Where a course begins, with so many seconds left of a hold; the segment that lies ahead, unless it holds or is at its target.
#[tactic(auto, unfolding(crate::specs::Walk::reached_at))]
pub fn begin_at(r: &course_rates::Route, left: u64) -> Reached
    ensures { result ≡ reached_at r.now.heading (lists_by r.now) (target_of r.now)
        (record { second = r.now.course.begin; level = r.now.course.start.grains; left = left }) }
{
    let level = r.course.start.grains;
    let place = Place {
        second: r.course.begin,
        level,
        left,
    };
    if (0 < left) | (level == course_rates::grains_of(r.course.target)) {
        return arrived(place);
    }
    let rest = course_stops::segment_from(r, level);
    Reached {
        place,
        rest: Some(rest),
    }
}
