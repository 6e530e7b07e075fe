// A course at a level: its next stop, the hold there, the segment that lies ahead.
#![tactic(auto)]

ghost use Rattle.std.specs.Prelude.{◌≡◌, ◌+◌, ◌*◌, ◌<◌, ◌≤◌, ◌^◌, [], ◌∷◌, map, length, ltb};
ghost use Rattle.level.specs.Choice.{pick};
ghost use Rattle.level.specs.Level.{grains};
ghost use Rattle.course.specs.declared.Heading.TheVariants.{Rising, Falling};
ghost use Rattle.course.specs.Lists.{in_grains};
ghost use Rattle.course.specs.Course.{gap, nearest, next_stop, holding, hold_at};
ghost use Rattle.course_rates.specs.Ways.{target_of, lists_by, timed_levels};
ghost use Rattle.course_stops.specs.Ahead.{segment_to, segment_from};

// ---- the hold at a level

// The seconds for which a trigger holds the level w.
#[tactic(auto, using(crate::proofs::Holds::held_at, crate::proofs::Holds::held_off))]
fn held_by(g: records::Trigger, w: u64) -> u64
    ensures { (result ≡ holding w (in_grains g ∷ [])) × (result ≤ 60 * 2 ^ 32) }
{
    if course_rates::grains_of(g.level) == w {
        return g.minutes as u64 * 60;
    }
    0
}

// Added where triggers coincide. Kept as a `for`: of `.map(..).sum()` no proof was found that it stays below the bound.
fn held<const N: usize>(w: u64, gs: [records::Trigger; N]) -> u64
    requires { N ≤ 3 }
    ensures { (result ≡ holding w (map in_grains gs.entry)) × (result ≤ 180 * 2 ^ 32) }
{
    let mut seconds = 0;
    for g in &gs {
        seconds += held_by(*g, w);
    }
    seconds
}

// The hold (seconds) at the stop w. Below MSG only soaks hold, and only a rising level.
#[tactic(auto, using(crate::proofs::Holds::hold_target, crate::proofs::Holds::hold_dwell, crate::proofs::Holds::hold_soak, crate::proofs::Holds::hold_no_soak), unfolding(course_rates::specs::Ways::lists_by))]
pub fn hold_at(r: &course_rates::Route, w: u64) -> u64
    ensures { (result ≡ hold_at r.now.heading (lists_by r.now) (target_of r.now) w) × (result ≤ 180 * 2 ^ 32) }
{
    if w == course_rates::grains_of(r.course.target) {
        return 0;
    }
    if course_rates::grains_of(r.msg) <= w {
        return held(w, r.dwells);
    }
    match r.heading {
        course::Heading::Rising => held(w, r.column.soaks),
        course::Heading::Falling => 0,
    }
}

// ---- the next stop

// The level w, where it lies past v and before n; else n.
#[tactic(auto, using(crate::proofs::Nexts::up_behind, crate::proofs::Nexts::up_near, crate::proofs::Nexts::up_far, crate::proofs::Nexts::down_behind, crate::proofs::Nexts::down_near, crate::proofs::Nexts::down_far))]
fn nearer(heading: course::Heading, v: u64, w: u64, n: u64) -> u64
    ensures { result ≡ nearest heading v n (w ∷ []) }
{
    let ahead = match heading {
        course::Heading::Rising => (v < w) & (w < n),
        course::Heading::Falling => (w < v) & (n < w),
    };
    if ahead {
        return w;
    }
    n
}

// With some breaks.
#[tactic(auto, using(crate::proofs::Nexts::near_breaks))]
fn break_stop<const N: usize>(heading: course::Heading, v: u64, bs: [u32; N], n: u64) -> u64
    ensures { result ≡ nearest heading v n (map grains bs.entry) }
{
    bs.iter().fold(
        n,
        |stop, b| nearer(heading, v, course_rates::grains_of(*b), stop),
    )
}

// The level of a trigger with minutes; without them v itself, which never counts, so that each trigger has a level to compare.
fn trigger_level(v: u64, g: records::Trigger) -> u64
    ensures { result ≡ pick (ltb 0 g.minutes) (grains g.level) v }
{
    let w = course_rates::grains_of(g.level);
    if g.minutes == 0 {
        return v;
    }
    w
}

// With some triggers, which count where they have minutes. Kept with a level for each: of a `fold` after a `filter` no proof was found.
#[tactic(auto, using(crate::proofs::Nexts::near_triggers))]
fn trigger_stop<const N: usize>(
    heading: course::Heading,
    v: u64,
    gs: [records::Trigger; N],
    n: u64,
) -> u64
    ensures { result ≡ nearest heading v n (timed_levels gs.entry) }
{
    gs.iter().fold(n, |stop, g| nearer(heading, v, trigger_level(v, *g), stop))
}

// The candidates in turn, the nearest so far going along; the target is the furthest. Only the lists of the level's own side
// of MSG are looked at, and no break or trigger is asked for its side: across MSG it lies behind, or MSG comes first. (Rising and
// falling are two functions: each has other lists below MSG and above it.)
#[tactic(auto, using(crate::proofs::Sides::rising_above, crate::proofs::Sides::rising_below))]
fn stop_rising(r: &course_rates::Route, v: u64) -> u64
    ensures { result ≡ next_stop Rising (lists_by r.now) (target_of r.now) v }
{
    let t = course_rates::grains_of(r.course.target);
    let msg = course_rates::grains_of(r.msg);
    let heading = course::Heading::Rising;
    if msg <= v {
        let d = trigger_stop(heading, v, r.dwells, t);
        return break_stop(heading, v, r.ramp.breaks, d);
    }
    let m = nearer(heading, v, msg, t);
    let s = trigger_stop(heading, v, r.column.soaks, m);
    break_stop(heading, v, r.column.breaks, s)
}

#[tactic(auto, using(crate::proofs::Sides::falling_above, crate::proofs::Sides::falling_below))]
fn stop_falling(r: &course_rates::Route, v: u64) -> u64
    ensures { result ≡ next_stop Falling (lists_by r.now) (target_of r.now) v }
{
    let t = course_rates::grains_of(r.course.target);
    let msg = course_rates::grains_of(r.msg);
    let heading = course::Heading::Falling;
    if v <= msg {
        return break_stop(heading, v, r.deload.breaks, t);
    }
    let m = nearer(heading, v, msg, t);
    let d = trigger_stop(heading, v, r.dwells, m);
    break_stop(heading, v, r.ramp.breaks, d)
}

// The next stop past the level v, and the target where nothing stops the course before.
pub fn next_stop(r: &course_rates::Route, v: u64) -> u64
    ensures { result ≡ next_stop r.now.heading (lists_by r.now) (target_of r.now) v }
{
    match r.heading {
        course::Heading::Rising => stop_rising(r, v),
        course::Heading::Falling => stop_falling(r, v),
    }
}

// ---- segments

// The segment from the level v to the stop w.
#[tactic(auto, unfolding(crate::specs::Ahead::segment_to, course::specs::Course::gap))]
fn segment_to(r: &course_rates::Route, v: u64, w: u64) -> course::Segment
    ensures { result ≡ segment_to r.now.heading (lists_by r.now) (target_of r.now) v w }
{
    course::Segment {
        way: v.abs_diff(w),
        rate: r.rate_at(v),
        hold: hold_at(r, w),
    }
}

// The segment from the level v to the next stop: way, rate and hold.
#[tactic(auto, unfolding(crate::specs::Ahead::segment_from))]
pub fn segment_from(r: &course_rates::Route, v: u64) -> course::Segment
    ensures { result ≡ segment_from r.now.heading (lists_by r.now) (target_of r.now) v }
{
    segment_to(r, v, next_stop(r, v))
}
