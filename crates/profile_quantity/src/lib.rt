// The quantity of twice an area, and refusal 27.
#![tactic(auto)]

ghost use Rattle.std.specs.Prelude.{◌≡◌, ◌≤◌};
ghost use Rattle.level.specs.Numbers.{most_half_hours};
ghost use Rattle.profile.specs.Profile.{rounded};
ghost use Rattle.profile_quantity.specs.Summing.{some_above};

// The quantity (kW) of twice an area: "the floor of (that + 108,000)/216,000". That sum may pass 64 bits; this one does not.
#[tactic(auto, unfolding(profile::specs::Profile::rounded))]
pub fn quantity_of(twice: u64) -> u64
    ensures { result ≡ rounded twice }
{
    (twice / 108000 + 1) / 2
}

// A quantity of the first so many half-hours lies above the short-term maximum. Rounding takes twice an area above it from half a kW
// more on. (An array with `halves`: so many half-hours have a boundary more, so that a slice would be cut one longer by each caller.)
pub fn quantity_too_high(u: records::UnitData, sums: [u64; level::BOUNDARIES], halves: u32) -> bool
    requires { halves ≤ most_half_hours }
    ensures { result ≡ some_above u.maximum sums halves }
{
    let limit = u64::from(u.maximum) * 216000 + 108000;
    let before = &sums[..halves as usize];
    before
        .iter()
        .zip(&sums[1..])
        .any(|(a, b)| limit <= b.saturating_sub(*a))
}
