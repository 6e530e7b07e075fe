// A unit's body: its 62 numbers, the unit that they make, their ranges, and whether the figures agree (refusals 3 and 4).
#![tactic(auto)]

ghost use Rattle.std.specs.Prelude.{◌≡◌, ◌+◌, ◌<◌, ◌≤◌, ltb};
ghost use Rattle.records.specs.Records.{numbers, trigger_of, column_of, unit_of};
ghost use Rattle.level.specs.Lists.{some};
ghost use Rattle.records.specs.Fields.{unit_ranges, fit_from, falls, disagrees};
ghost use Rattle.records_unit.specs.Decoded.{unit_read, RampAt};

use level::Level;
use records::{Column, Deload, MOST_RATE, Ramp, Refusal, Trigger, UnitData};

// The 62 numbers of a unit's body.
pub fn unit_numbers(body: &[u8]) -> [u32; 62]
    ensures { result ≡ numbers body.now 62 }
{
    std::array::from_fn(|i| records_bytes::number(body, i * 4))
}

// The trigger whose level and minutes stand at these places.
#[tactic(auto, unfolding(records::specs::Records::trigger_of))]
fn trigger_of(ns: [u32; 62], at: usize, minutes: usize) -> Trigger
    requires { (at < 62) × (minutes < 62) }
    ensures { result ≡ trigger_of ns at minutes }
{
    Trigger {
        level: ns[at],
        minutes: ns[minutes],
    }
}

// The start-up column whose ten numbers begin at a place.
#[tactic(auto, unfolding(records::specs::Records::column_of))]
fn column_of(ns: [u32; 62], at: usize) -> Column
    requires { at + 10 ≤ 62 }
    ensures { result ≡ column_of ns at }
{
    Column {
        block: ns[at],
        rates: [ns[at + 1], ns[at + 2], ns[at + 3]],
        breaks: [ns[at + 4], ns[at + 5]],
        soaks: [
            trigger_of(ns, at + 6, at + 8),
            trigger_of(ns, at + 7, at + 9),
        ],
    }
}

// The ramp list whose nine numbers begin at a place.
fn ramp_at(ns: [u32; 62], at: usize) -> Ramp
    requires { at + 9 ≤ 62 }
    ensures { RampAt ns at result }
{
    Ramp {
        rates: [ns[at], ns[at + 1], ns[at + 2], ns[at + 3], ns[at + 4]],
        breaks: [ns[at + 5], ns[at + 6], ns[at + 7], ns[at + 8]],
    }
}

// The unit of 62 numbers.
#[tactic(auto, unfolding(records::specs::Records::unit_of))]
pub fn unit_of(ns: [u32; 62]) -> UnitData
    ensures { result ≡ unit_of ns }
{
    UnitData {
        capacity: ns[0],
        maximum: ns[1],
        msg: ns[2],
        hot: ns[3],
        warm: ns[4],
        columns: [column_of(ns, 5), column_of(ns, 15), column_of(ns, 25)],
        up: ramp_at(ns, 35),
        dwells: [
            trigger_of(ns, 44, 47),
            trigger_of(ns, 45, 48),
            trigger_of(ns, 46, 49),
        ],
        down: ramp_at(ns, 50),
        deload: Deload {
            rates: [ns[59], ns[60]],
            breaks: [ns[61]],
        },
    }
}

// From the lowest to the highest that a number may be. No `RangeInclusive`: `a..=b` is a call, which a constant cannot hold.
#[derive(Clone, Copy)]
struct Range {
    low: u32,
    high: u32,
}

// Levels in kW.
const LEVEL: Range = Range {
    low: 0,
    high: Level::MOST_KW,
};

const MAXIMUM: Range = Range {
    low: 1,
    high: Level::MOST_KW,
};

// Rates in kW a minute, soak and dwell minutes, cooling boundaries in minutes.
const RATE: Range = Range {
    low: 1,
    high: MOST_RATE,
};

const HOLD: Range = Range { low: 0, high: 1440 };

const BOUNDARY: Range = Range {
    low: 0,
    high: 100000,
};

// The range of each of a unit's 62 numbers.
const RANGES: [Range; 62] = [
    MAXIMUM, // capacity
    MAXIMUM, // short-term maximum
    MAXIMUM, // MSG
    BOUNDARY, // hot boundary
    BOUNDARY, // warm boundary
    LEVEL, // hot block load
    RATE, // hot rate 1
    RATE, // hot rate 2
    RATE, // hot rate 3
    LEVEL, // hot break 1
    LEVEL, // hot break 2
    LEVEL, // hot soak trigger 1
    LEVEL, // hot soak trigger 2
    HOLD, // hot soak minutes 1
    HOLD, // hot soak minutes 2
    LEVEL, // warm block load
    RATE, // warm rate 1
    RATE, // warm rate 2
    RATE, // warm rate 3
    LEVEL, // warm break 1
    LEVEL, // warm break 2
    LEVEL, // warm soak trigger 1
    LEVEL, // warm soak trigger 2
    HOLD, // warm soak minutes 1
    HOLD, // warm soak minutes 2
    LEVEL, // cold block load
    RATE, // cold rate 1
    RATE, // cold rate 2
    RATE, // cold rate 3
    LEVEL, // cold break 1
    LEVEL, // cold break 2
    LEVEL, // cold soak trigger 1
    LEVEL, // cold soak trigger 2
    HOLD, // cold soak minutes 1
    HOLD, // cold soak minutes 2
    RATE, // ramp-up rate 1
    RATE, // ramp-up rate 2
    RATE, // ramp-up rate 3
    RATE, // ramp-up rate 4
    RATE, // ramp-up rate 5
    LEVEL, // ramp-up break 1
    LEVEL, // ramp-up break 2
    LEVEL, // ramp-up break 3
    LEVEL, // ramp-up break 4
    LEVEL, // dwell trigger 1
    LEVEL, // dwell trigger 2
    LEVEL, // dwell trigger 3
    HOLD, // dwell minutes 1
    HOLD, // dwell minutes 2
    HOLD, // dwell minutes 3
    RATE, // ramp-down rate 1
    RATE, // ramp-down rate 2
    RATE, // ramp-down rate 3
    RATE, // ramp-down rate 4
    RATE, // ramp-down rate 5
    LEVEL, // ramp-down break 1
    LEVEL, // ramp-down break 2
    LEVEL, // ramp-down break 3
    LEVEL, // ramp-down break 4
    RATE, // deload rate 1
    RATE, // deload rate 2
    LEVEL, // deload break
];

// All 62 numbers lie in their ranges. Each is looked at, whatever the ones before it say, so no `all`.
fn all_fit(ns: &[u32; 62]) -> bool
    ensures { result ≡ fit_from unit_ranges ns.now 0 }
{
    RANGES.iter().zip(ns).fold(
        true,
        |fit, (range, n)| fit & ((range.low <= *n) & (*n <= range.high)),
    )
}

// A break lies below the one before it.
fn breaks_fall(breaks: &[u32]) -> bool
    ensures { result ≡ falls breaks.now }
{
    !breaks.is_sorted()
}

// A column's breaks fall.
fn columns_fall(columns: &[Column; 3]) -> bool
    ensures { result ≡ some (λ c. falls c.breaks) columns.now }
{
    columns.iter().any(|c| breaks_fall(&c.breaks))
}

// A block load lies above a level.
fn some_block_above(msg: u32, columns: &[Column; 3]) -> bool
    ensures { result ≡ some (λ c. ltb msg c.block) columns.now }
{
    columns.iter().any(|c| msg < c.block)
}

// A unit's figures disagree.
#[tactic(auto, unfolding(records::specs::Fields::disagrees))]
fn unit_disagrees(u: &UnitData) -> bool
    ensures { result ≡ disagrees u.now }
{
    columns_fall(&u.columns)
        || breaks_fall(&u.up.breaks)
        || breaks_fall(&u.down.breaks)
        || breaks_fall(&u.deload.breaks)
        || u.maximum < u.capacity
        || u.capacity < u.msg
        || some_block_above(u.msg, &u.columns)
        || u.warm < u.hot
}

// The unit that a body holds, where its numbers lie in their ranges and its figures agree.
#[tactic(auto, unfolding(records::specs::Fields::unit_answer))]
pub fn read_unit(body: &[u8]) -> Result<UnitData, Refusal>
    ensures { result ≡ unit_read body.now }
{
    let ns = unit_numbers(body);
    let unit = unit_of(ns);
    if !all_fit(&ns) {
        return Err(Refusal::UnitField);
    }
    if unit_disagrees(&unit) {
        return Err(Refusal::UnitDisagrees);
    }
    Ok(unit)
}
