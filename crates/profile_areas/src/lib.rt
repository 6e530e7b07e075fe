// Along a course up to a second: the running sum of twice its area, noted at each half-hour boundary that a piece passes, and the
// seconds off.
#![tactic(auto)]

ghost use Rattle.std.specs.Prelude.{◌≡◌, ◌+◌, ◌≤◌};
ghost use Rattle.profile_areas.specs.Passing.{summed, Noted, line_from, piece_from, LineAhead, PieceAhead, CourseAhead, Passing};
ghost use Rattle.profile_areas.specs.Watching.{off_starting, off_between};

// ---- the seconds off

// The seconds off where a course begins.
#[tactic(auto, unfolding(profile::specs::State::held, crate::specs::Watching::off_starting))]
pub fn off_starting(c: course::Course, off: u32) -> u32
    ensures { result ≡ off_starting c off }
{
    if c.start.grains == 0 {
        off.min(records::MOST_OFF)
    } else {
        0
    }
}

// The seconds off at q, by those at p.
#[tactic(auto, unfolding(profile::specs::State::held, crate::specs::Watching::off_between))]
pub fn off_between(p: course_walk::Place, q: course_walk::Place, off: u32) -> u32
    requires { p.second ≤ q.second }
    ensures { result ≡ off_between p q off }
{
    if p.level == 0 && q.level == 0 {
        off.saturating_add(q.second - p.second)
            .min(records::MOST_OFF)
    } else {
        0
    }
}

// ---- areas

// Twice the area of a day up to a second: what is noted at each half-hour boundary, and the total up to now.
#[derive(Clone, Copy)]
pub struct Sums {
    pub noted: [u64; level::BOUNDARIES],
    pub total: u64,
}

impl Sums {
    // A level that goes straight on by `rate` a second, from one second to another: half-hour by half-hour its area is added to the
    // total, and the total noted at the boundary ahead, where it stays once the boundary is passed.
    fn note_line(&mut self, heading: course::Heading, level: u64, rate: u64, from: u32, to: u32)
        requires { LineAhead heading level rate from to (summed from self.old) }
        ensures { Noted (line_from heading level rate from) (summed from self.old) (summed to self.new) }
    {
        let mut at = from;
        let mut v = level;
        for half in from / level::HALF_HOUR..to.div_ceil(level::HALF_HOUR) {
            let n = to.min((half + 1) * level::HALF_HOUR);
            let time = (n - at) as u64;
            let w = course_walk::moved(heading, v, time * rate);
            self.total += time * (v + w);
            self.noted[half as usize + 1] = self.total;
            at = n;
            v = w;
        }
    }

    // The straight piece of a course from p to q, added to the total. A piece within one half-hour is one product.
    #[tactic(auto, unfolding(course::specs::Course::gap))]
    pub fn note_piece(
        &mut self,
        heading: course::Heading,
        p: course_walk::Place,
        q: course_walk::Place,
    )
        requires { PieceAhead heading p q (summed p.second self.old) }
        ensures { Noted (piece_from heading p q) (summed p.second self.old) (summed q.second self.new) }
    {
        if q.second <= p.second {
            return;
        }
        let half = p.second / level::HALF_HOUR + 1;
        let time = (q.second - p.second) as u64;
        if half * level::HALF_HOUR < q.second {
            let way = p.level.abs_diff(q.level);
            self.note_line(heading, p.level, way / time, p.second, q.second);
        } else {
            self.total += time * (p.level + q.level);
            self.noted[half as usize] = self.total;
        }
    }
}

// ---- along a course

// How far a course was followed on the way to a second: where the last piece ended before it, the place at that second, and the
// seconds off at both.
#[derive(Clone, Copy)]
pub struct Passed {
    pub reached: course_walk::Reached,
    pub ahead: course_walk::Place,
    pub off: u32,
    pub later: u32,
}

// From where a course was reached towards the second n: every piece that ends before n is added. The one that n cuts is not:
// the course may go on. (A `while`: it goes along a course, which is no list, and stops within a piece.) The hint puts it in its
// place at both of its calls, in the loop over those that act and at the day's end.
#[inline(always)]
pub fn pass_to(
    sums: &mut Sums,
    r: &course_rates::Route,
    from: course_walk::Reached,
    begun: u32,
    n: u32,
) -> Passed
    requires { CourseAhead r.now from n (summed from.place.second sums.old) }
    ensures { Passing r.now from.place begun n (summed from.place.second sums.old) sums.new result }
{
    let mut at = from;
    let mut off = begun;
    while at.place.second < n {
        let p = at.place;
        let next = course_walk::walk_on(r, at, n);
        let q = next.place;
        let later = off_between(p, q, off);
        if n <= q.second {
            return Passed {
                reached: at,
                ahead: q,
                off,
                later,
            };
        }
        sums.note_piece(r.heading, p, q);
        off = later;
        at = next;
    }
    let p = at.place;
    Passed {
        reached: at,
        ahead: p,
        off,
        later: off,
    }
}
