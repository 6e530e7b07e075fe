// A course with the lists that it goes by, and its rate at a level.
#![tactic(auto)]

ghost use Rattle.std.specs.Prelude.{◌≡◌, ◌+◌, ◌-◌, ◌<◌, ◌≤◌, length, map, get_or};
ghost use Rattle.level.specs.Level.{grains};
ghost use Rattle.records.specs.Heats.{heat_number};
ghost use Rattle.course.specs.Lists.{place_of, column_for, replaced};
ghost use Rattle.course.specs.Course.{passed, rate_at};
ghost use Rattle.course_rates.specs.Ways.{GrainsOf, heading_of, ramp_for, route_with, route_of, lists_by, has_passed};

// So many kW in grains. It stands beside `Level::from_kw` for its contract: how many they are, and below 2^38, as a course's levels are.
#[tactic(auto, unfolding(level::specs::Level::from_kw, level::specs::Level::grains))]
pub fn grains_of(kw: u32) -> u64
    ensures { GrainsOf kw result }
{
    level::Level::from_kw(kw).grains
}

// The place of a heat's column.
#[tactic(auto, unfolding(course::specs::Lists::place_of))]
fn place_for(heat: records::Heat) -> usize
    ensures { (result ≡ place_of (heat_number heat)) × (result < 3) }
{
    match heat {
        records::Heat::Hot => 0,
        records::Heat::Warm => 1,
        records::Heat::Cold => 2,
    }
}

// The same by the heat's number. One that no record can have reads like cold.
#[tactic(auto, using(crate::proofs::Rates::place_by_heat))]
pub fn place_of(heat: u32) -> usize
    ensures { (result ≡ place_of heat) × (result < 3) }
{
    let known = records::Heat::try_from(heat);
    place_for(known.unwrap_or(records::Heat::Cold))
}

// The start-up column of a heat.
#[tactic(auto, unfolding(course::specs::Lists::column_for))]
pub fn column_for(u: records::UnitData, heat: u32) -> records::Column
    ensures { result ≡ column_for u heat }
{
    u.columns[place_of(heat)]
}

// Whether a course rises or falls. One that begins at its target has no way to go, and falls.
pub fn heading_of(c: course::Course) -> course::Heading
    ensures { result ≡ heading_of c }
{
    if c.start.grains < grains_of(c.target) {
        return course::Heading::Rising;
    }
    course::Heading::Falling
}

// The ramp of a heading: ramp-up for a rising course, ramp-down for a falling one.
pub fn ramp_for(u: records::UnitData, heading: course::Heading) -> records::Ramp
    ensures { result ≡ ramp_for u heading }
{
    match heading {
        course::Heading::Rising => u.up,
        course::Heading::Falling => u.down,
    }
}

// A course with the lists of its unit that it goes by: the column of its heat, the ramp of its heading, dwells, deload.
#[derive(Clone, Copy)]
pub struct Route {
    pub course: course::Course,
    pub heading: course::Heading,
    pub msg: u32,
    pub column: records::Column,
    pub ramp: records::Ramp,
    pub dwells: [records::Trigger; 3],
    pub deload: records::Deload,
}

// Whether a level v has passed a break: at or below it when rising, strictly below when falling.
fn has_passed(heading: course::Heading, v: u64, b: u32) -> bool
    ensures { result ≡ has_passed heading v b }
{
    let w = grains_of(b);
    match heading {
        course::Heading::Rising => w <= v,
        course::Heading::Falling => w < v,
    }
}

// The count of breaks that the level v has passed.
#[tactic(auto, using(crate::proofs::Rates::counted))]
fn passed<const N: usize>(heading: course::Heading, v: u64, breaks: [u32; N]) -> usize
    ensures { (result ≡ passed heading v (map grains breaks.entry)) × (result ≤ N) }
{
    breaks
        .iter()
        .filter(|b| has_passed(heading, v, **b))
        .count()
}

// The rate at the level v by a list that has one rate more than breaks.
fn rate_by<const M: usize, const N: usize>(
    heading: course::Heading,
    v: u64,
    rates: [u32; M],
    breaks: [u32; N],
) -> u64
    requires { N < M }
    ensures { result ≡ get_or rates.entry (passed heading v (map grains breaks.entry)) 0 }
{
    rates[passed(heading, v, breaks)] as u64
}

impl Route {
    // The course of a unit, with its own lists.
    #[tactic(auto, unfolding(crate::specs::Ways::route_of))]
    pub fn new(u: records::UnitData, c: course::Course) -> Route
        ensures { result ≡ route_of u c }
    {
        Route::headed(u, c, heading_of(c))
    }

    // The same with the ramp of either heading.
    pub fn headed(u: records::UnitData, c: course::Course, heading: course::Heading) -> Route
        ensures { result ≡ route_with u c heading }
    {
        let column = column_for(u, c.heat);
        let ramp = ramp_for(u, heading);
        let dwells = u.dwells;
        let deload = u.deload;
        Route {
            course: c,
            heading,
            msg: u.msg,
            column,
            ramp,
            dwells,
            deload,
        }
    }

    // The rate at the level v by the ramp, all of whose rates r replaces unless it is 0.
    #[tactic(auto, using(crate::proofs::Rates::own_rate, crate::proofs::Rates::given_rate))]
    fn ramp_rate(&self, v: u64, r: u32) -> u64
        ensures { result ≡ get_or (replaced r self.now.ramp.rates) (passed self.now.heading v (map grains self.now.ramp.breaks)) 0 }
    {
        let n = passed(self.heading, v, self.ramp.breaks);
        if r == 0 {
            return self.ramp.rates[n] as u64;
        }
        r as u64
    }

    // The rate (grains a second) at the level v. "Rising below MSG uses the column, otherwise ramp-up; falling above MSG uses
    // ramp-down, otherwise deload."
    #[tactic(auto, using(crate::proofs::Rates::rate_column, crate::proofs::Rates::rate_up, crate::proofs::Rates::rate_down, crate::proofs::Rates::rate_deload))]
    pub fn rate_at(&self, v: u64) -> u64
        ensures { result ≡ rate_at self.now.heading (lists_by self.now) v }
    {
        let msg = grains_of(self.msg);
        match self.heading {
            course::Heading::Rising => {
                if v < msg {
                    return rate_by(self.heading, v, self.column.rates, self.column.breaks);
                }
                self.ramp_rate(v, self.course.up)
            }
            course::Heading::Falling => {
                if msg < v {
                    return self.ramp_rate(v, self.course.down);
                }
                rate_by(self.heading, v, self.deload.rates, self.deload.breaks)
            }
        }
    }
}
