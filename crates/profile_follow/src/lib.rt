// The instructions that act, followed along the day from 06:00 to its end: the courses, the fates, twice the area up to each half-hour
// boundary, and the state at its end.
#![tactic(auto)]

ghost use Rattle.std.specs.Prelude.{◌≡◌, [], ◌∷◌, ◌<◌, ◌≤◌, length};
ghost use Rattle.level.specs.Numbers.{most_half_hours, instruction_places, course_places};
ghost use Rattle.profile_follow.specs.Walk.{walk_of, went_on, replaced_by};
ghost use Rattle.profile_follow.specs.Following.{set_out, went_to, Followable, ended, FollowedBy};

use course::Course;
use level::{COURSES, Few, INSTRUCTIONS};
use profile::{State, UnderWay};
use profile_areas::Sums;
use records::UnitData;
use validation::Numbered;

// ---- what is kept on the way

// How far they are followed: the course under way, the courses so far with it as the last, and the fates, in acting order, of
// those that have acted.
#[derive(Clone, Copy)]
pub struct Walk {
    pub now: UnderWay,
    pub courses: Few<Course, COURSES>,
    pub fates: Few<u8, INSTRUCTIONS>,
}

impl Walk {
    // None has acted yet.
    #[tactic(auto, unfolding(crate::specs::Walk::walk_of))]
    fn begin(now: UnderWay) -> Walk
        ensures { result ≡ walk_of now (record { marks = []; courses = now ∷ [] }) }
    {
        let mut courses = Few::new(Course::default());
        courses.push(now.course);
        Walk {
            now,
            courses,
            fates: Few::new(0),
        }
    }

    // One more acts, with fate 7: the course under way goes on.
    #[tactic(auto, unfolding(crate::specs::Walk::went_on))]
    fn go_on(&mut self)
        requires { length self.old.fates.these < instruction_places }
        ensures { self.new ≡ went_on self.old }
    {
        self.fates.push(7);
    }

    // One more acts, with fate 0: another course begins.
    #[tactic(auto, unfolding(crate::specs::Walk::replaced_by))]
    fn replace(&mut self, next: UnderWay)
        requires { (length self.old.fates.these < instruction_places) × (length self.old.courses.these < course_places) }
        ensures { self.new ≡ replaced_by self.old next }
    {
        self.now = next;
        self.courses.push(next.course);
        self.fates.push(0);
    }
}

// How far the course under way is followed: its route, where it was reached, and the seconds off there.
#[derive(Clone, Copy)]
pub struct OnCourse {
    pub route: course_rates::Route,
    pub reached: course_walk::Reached,
    pub off: u32,
}

impl OnCourse {
    // A course at its beginning.
    #[tactic(auto, unfolding(crate::specs::Following::set_out, course_rates::specs::Ways::route_of, course_walk::specs::Walk::beginning))]
    fn set_out(u: UnitData, now: UnderWay) -> OnCourse
        ensures { result ≡ set_out u now }
    {
        let route = course_rates::Route::new(u, now.course);
        let reached = course_walk::begin_at(&route, 0);
        let off = profile_areas::off_starting(now.course, now.off);
        OnCourse {
            route,
            reached,
            off,
        }
    }

    // The same course further on.
    fn further(self, s: profile_areas::Passed) -> OnCourse
        ensures { result ≡ went_to self s }
    {
        OnCourse {
            reached: s.reached,
            off: s.off,
            ..self
        }
    }
}

// The state at the place q, with so many seconds off.
fn state_at(q: course_walk::Place, off: u32) -> State
    ensures { result ≡ record { level = q.level; off = off } }
{
    State {
        level: q.level,
        off,
    }
}

// What following comes to: the walk, twice the recorded area from 06:00 to each half-hour boundary, and the state at the day's end.
#[derive(Clone, Copy)]
pub struct FollowedDay {
    pub walk: Walk,
    pub sums: [u64; level::BOUNDARIES],
    pub end: State,
}

// At the end of a day of so many half-hours: the places past its last boundary hold 0.
fn end_day(w: Walk, sums: [u64; level::BOUNDARIES], end: State, halves: u32) -> FollowedDay
    requires { halves ≤ most_half_hours }
    ensures { result ≡ ended w sums end halves }
{
    let mut kept = sums;
    kept[halves as usize + 1..].fill(0);
    FollowedDay {
        walk: w,
        sums: kept,
        end,
    }
}

// ---- one instruction after another

// Those that act, from the course `first` on, once along a day of so many half-hours; each read with the state just before.
// Fate 7: the course under way goes on. Fate 0: it ends there, and a new one begins.
pub fn follow_day(u: UnitData, first: UnderWay, acts: &[Numbered], halves: u32) -> FollowedDay
    requires { Followable u first acts.now halves }
    ensures { FollowedBy u first acts.now halves result }
{
    let mut w = Walk::begin(first);
    let mut g = OnCourse::set_out(u, first);
    let mut sums = Sums {
        noted: [0; level::BOUNDARIES],
        total: 0,
    };
    for o in acts {
        let t = o.acting() as u32;
        let s = profile_areas::pass_to(&mut sums, &g.route, g.reached, g.off, t);
        let state = state_at(s.ahead, s.later);
        match profile_effects::outcome_of(u, w.now, *o, state) {
            None => {
                w.go_on();
                g = g.further(s);
            }
            Some(set) => {
                sums.note_piece(g.route.heading, s.reached.place, s.ahead);
                let next = profile_effects::begin_course(u, *o, set, state);
                w.replace(next);
                g = OnCourse::set_out(u, next);
            }
        }
    }
    let end = level::HALF_HOUR * halves;
    let s = profile_areas::pass_to(&mut sums, &g.route, g.reached, g.off, end);
    sums.note_piece(g.route.heading, s.reached.place, s.ahead);
    end_day(w, sums.noted, state_at(s.ahead, s.later), halves)
}
