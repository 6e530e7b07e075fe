// Which instructions are kept, step 3: in time order, each against the last kept one.
#![tactic(auto)]

ghost use Rattle.std.specs.Prelude.{◌≡◌, ◌<◌, [], ◌∷◌, ◌++◌, map, length, option_to_list, option_copied, MatchOption};
ghost use Rattle.level.specs.Numbers.{instruction_places};
ghost use Rattle.validation.specs.Kept.{mark, repeats, turned, check};
ghost use Rattle.validation_sequence.specs.Working.{set_fate, marked, none_checked, SetsOut, StepThree};
ghost use Rattle.validation_sequence.specs.Working.{sync_places, NoSync, LatestSync, NoneWithinHour, LatestWithinHour, FailedOne};

use level::{Few, INSTRUCTIONS};
use records::Effect;
use validation::{Numbered, place_of};
use validation_groups::{Sequence, none};

// The fate of a number, over any that stands there; a number that has no place is passed over.
#[tactic(auto, unfolding(crate::specs::Working::set_fate))]
fn put_fate(fates: &mut [u8; INSTRUCTIONS], number: u32, fate: u8)
    ensures value { fates.new ≡ set_fate fates.old number fate }
    ensures long { length fates.new ≡ instruction_places }
{
    if let Some(at) = place_of(number, INSTRUCTIONS) {
        fates[at] = fate;
    }
}

// One repeats the last kept one: SYNC after SYNC, DESY after DESY, TRIP after TRIP.
#[tactic(auto, unfolding(validation::specs::Kept::repeats))]
fn is_repeat(o: &Numbered, last: Option<&Numbered>) -> bool
    ensures { result ≡ repeats o.now (option_to_list (option_copied last.entry)) }
{
    match last {
        Some(k) => {
            let own = o.effect();
            own == k.effect() && (own == Effect::Sync || own == Effect::Desy || own == Effect::Trip)
        }
        None => false,
    }
}

// The places of the SYNCs among the kept ones, in order: they are noted, so that a FAIL need not look for the latest.
type Places = Few<usize, INSTRUCTIONS>;

// Where o, which is kept at this place, is a SYNC, its place is noted.
#[tactic(auto, unfolding(crate::specs::Working::sync_places))]
fn note_sync(syncs: &mut Places, o: &Numbered, at: usize)
    requires { length syncs.old.these < instruction_places }
    ensures { syncs.new.these ≡ syncs.old.these ++ sync_places at (o.now ∷ []) }
{
    if o.effect() == Effect::Sync {
        syncs.push(at);
    }
}

// The place of the latest SYNC: the last of those that are noted. (The kept ones are there for the contract.)
fn latest_sync(_kept: &[Numbered], syncs: &[usize]) -> Option<usize>
    requires { syncs.now ≡ sync_places 0 _kept.now }
    ensures { MatchOption result (NoSync _kept.now) (LatestSync _kept.now) }
{
    syncs.last().copied()
}

// The place of the latest kept SYNC, where it is at most an hour before o.
fn sync_within_hour(kept: &[Numbered], syncs: &[usize], o: &Numbered) -> Option<usize>
    requires { syncs.now ≡ sync_places 0 kept.now }
    ensures { MatchOption result (NoneWithinHour kept.now o.now) (LatestWithinHour kept.now o.now) }
{
    let at = latest_sync(kept, syncs)?;
    let sync = kept[at].instruction;
    let own = o.instruction;
    if own.effective as u64 <= sync.effective as u64 + 3600 {
        Some(at)
    } else {
        None
    }
}

// Fate 4 for all of these.
fn void_all(kept: &[Numbered], fates: &mut [u8; INSTRUCTIONS])
    ensures value { fates.new ≡ marked fates.old (map (mark 4) (turned kept.now [])) }
    ensures long { length fates.new ≡ instruction_places }
{
    for k in kept {
        put_fate(fates, k.number, 4);
    }
}

// A FAIL: fate 5. Where the latest kept SYNC is within the hour, that SYNC and all kept after it get fate 4 and leave the list.
fn fail_one(kept: &mut Sequence, syncs: &mut Places, o: &Numbered, fates: &mut [u8; INSTRUCTIONS])
    requires { syncs.old.these ≡ sync_places 0 kept.old.these }
    ensures failed { FailedOne kept.old.these fates.old o.now kept.new.these fates.new }
    ensures noted { syncs.new.these ≡ sync_places 0 kept.new.these }
{
    if let Some(at) = sync_within_hour(kept.as_slice(), syncs.as_slice(), o) {
        void_all(&kept.as_slice()[at..], fates);
        kept.truncate(at);
        syncs.truncate(syncs.len().saturating_sub(1));
    }
    put_fate(fates, o.number, 5);
}

// Step 3 over those used: each against the last kept one. The fates go to their numbers.
pub fn check_all(used: &[Numbered], fates: &mut [u8; INSTRUCTIONS]) -> Sequence
    requires { SetsOut used.now fates.old }
    ensures { StepThree result.these fates.new (check none_checked used.now) }
{
    let mut kept = none();
    let mut syncs = Few::new(0);
    for o in used {
        if o.effect() == Effect::Fail {
            fail_one(&mut kept, &mut syncs, o, fates);
        } else if is_repeat(o, kept.as_slice().last()) {
            put_fate(fates, o.number, 3);
        } else {
            note_sync(&mut syncs, o, kept.len());
            kept.push(*o);
        }
    }
    kept
}
