// What an instruction comes to at its acting second, and the course that it begins.
#![tactic(auto)]

ghost use Rattle.std.specs.Prelude.{◌≡◌, ◌<◌, ◌^◌};
ghost use Rattle.records.specs.declared.Effect.TheVariants.{Mwof, Sync};
ghost use Rattle.records.specs.Heats.{heat_number};
ghost use Rattle.validation.specs.Kept.{acting};
ghost use Rattle.profile.specs.Effects.{heat_by, outcome_by, outcome, stepped, course_from, under_way, start_course, begun};
ghost use Rattle.profile_effects.specs.Kept.{kept};

use course::Course;
use level::Level;
use profile::{Setting, Start, State, UnderWay};
use records::{Effect, Heat, Instruction, UnitData};
use validation::Numbered;

// ---- what each instruction comes to at its acting second

// What an instruction would set that goes on as before: from the level just before to the same target, by the same heat, with its own
// rates. Only MXON turns maximised on.
fn kept(now: UnderWay, i: Instruction, s: State) -> Setting
    ensures { result ≡ kept now i s }
{
    Setting {
        from: s.level,
        target: now.course.target,
        heat: now.course.heat,
        up: i.up,
        down: i.down,
        maximised: false,
        ordered: now.ordered,
    }
}

// The heat of a start after so many seconds off.
#[tactic(auto, unfolding(profile::specs::Effects::heat_by))]
fn heat_by(u: UnitData, off: u32) -> Heat
    ensures { heat_number result ≡ heat_by u off }
{
    let seconds = u64::from(off);
    if seconds <= 60 * u64::from(u.hot) {
        Heat::Hot
    } else if seconds <= 60 * u64::from(u.warm) {
        Heat::Warm
    } else {
        Heat::Cold
    }
}

// MWOF(x): target the smaller of x and capacity; from 0 with the cold column.
#[tactic(auto, unfolding(profile::specs::Effects::outcome_by, profile::specs::Effects::mwof_target))]
fn mwof(u: UnitData, now: UnderWay, i: Instruction, s: State) -> Option<Setting>
    ensures { result ≡ outcome_by u now i s Mwof }
{
    let target = i.level.min(u.capacity);
    let heat = if s.level == 0 {
        Heat::Cold.number()
    } else {
        now.course.heat
    };
    let set = Setting {
        target,
        heat,
        ordered: target,
        ..kept(now, i, s)
    };
    (s.level != 0 || i.level != 0).then_some(set)
}

// SYNC: target the larger of its x and MSG, at most capacity; column by seconds off.
#[tactic(auto, unfolding(profile::specs::Effects::outcome_by, profile::specs::Effects::sync_target))]
fn sync(u: UnitData, now: UnderWay, i: Instruction, s: State) -> Option<Setting>
    ensures { result ≡ outcome_by u now i s Sync }
{
    let target = i.level.max(u.msg).min(u.capacity);
    let heat = heat_by(u, s.off).number();
    let set = Setting {
        target,
        heat,
        ordered: target,
        ..kept(now, i, s)
    };
    (s.level == 0).then_some(set)
}

// What an instruction comes to, read with the state just before. (One `match` over the effects: its arms are the rows of Table 7, and
// that of FAIL, which never acts.)
#[tactic(auto, unfolding(profile::specs::Effects::outcome_by))]
pub fn outcome_of(u: UnitData, now: UnderWay, o: Numbered, s: State) -> Option<Setting>
    ensures { result ≡ outcome u now o.instruction s }
{
    let i = o.instruction;
    let above = s.level != 0;
    let same = kept(now, i, s);
    match i.meaning.effect {
        Effect::Trip => above.then_some(Setting {
            from: 0,
            target: 0,
            ..same
        }),
        Effect::Mwof => mwof(u, now, i, s),
        Effect::Mxon => (above && !now.maximised).then_some(Setting {
            target: u.maximum,
            up: u.up.rates[4],
            maximised: true,
            ..same
        }),
        Effect::Sync => sync(u, now, i, s),
        Effect::Mxof => now.maximised.then_some(Setting {
            target: now.ordered,
            down: u.down.rates[0],
            ..same
        }),
        Effect::Desy => above.then_some(Setting { target: 0, ..same }),
        Effect::Fail => None,
    }
}

// ---- the course that it starts

// "At level 0 with a target above 0 the level goes at once to the smaller of block load and target."
#[tactic(auto, unfolding(profile::specs::Effects::stepped))]
fn step_up(block: u64, target: u64, v: u64) -> u64
    ensures { result ≡ stepped block target v }
{
    if v == 0 && 0 < target {
        block.min(target)
    } else {
        v
    }
}

// The course (document 01's own term) that a setting makes at a second.
#[tactic(auto, unfolding(profile::specs::Effects::course_from, level::specs::Level::from_kw))]
fn course_from(u: UnitData, begin: u32, g: Setting) -> Course
    ensures { result ≡ course_from u begin g }
{
    let block = Level::from_kw(course_rates::column_for(u, g.heat).block);
    let target = Level::from_kw(g.target);
    let grains = step_up(block.grains, target.grains, g.from);
    Course {
        begin,
        start: Level { grains },
        target: g.target,
        heat: g.heat,
        up: g.up,
        down: g.down,
    }
}

// It under way, the unit having been off so many seconds where it began.
#[tactic(auto, unfolding(profile::specs::Effects::under_way))]
fn under_way(u: UnitData, begin: u32, g: Setting, off: u32) -> UnderWay
    ensures { result ≡ under_way u begin g off }
{
    UnderWay {
        course: course_from(u, begin, g),
        maximised: g.maximised,
        ordered: g.ordered,
        off,
    }
}

// The course that the start of a day sets going at 06:00. (Its setting is written out: a `From` would serve this one place.)
#[tactic(auto, unfolding(profile::specs::Effects::start_course))]
pub fn start_course(u: UnitData, s: Start) -> UnderWay
    ensures { result ≡ start_course u s }
{
    let g = Setting {
        from: u64::from(s.level),
        target: s.target,
        heat: s.heat,
        up: s.up,
        down: s.down,
        maximised: s.maximised,
        ordered: s.ordered,
    };
    under_way(u, 0, g, s.off)
}

// The course that an instruction of fate 0 begins at its acting second with what it sets.
#[tactic(auto, unfolding(profile::specs::Effects::begun))]
pub fn begin_course(u: UnitData, o: Numbered, g: Setting, s: State) -> UnderWay
    requires { acting o < 2 ^ 32 }
    ensures { result ≡ begun u o g s }
{
    under_way(u, o.acting() as u32, g, s.off)
}
