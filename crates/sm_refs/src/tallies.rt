//! How many attached disks use each volume: a map from volumes to counts above 0.

ghost use Rattle.std.specs.Prelude.{◌≡◌, ◌≢◌, ◌+◌, ◌<◌, ◌≤◌, [], ◌∷◌, All, AllPairs};
ghost use Rattle.sm_base.specs.declared.names.Name.{Name};
ghost use Rattle.sm_refs.specs.Attached.{tally, one_in, HoldsChain};
ghost use Rattle.sm_refs.specs.Rooms.{room_of};
ghost use Rattle.sm_refs.specs.Tallies.{AreAbove};

use crate::removal::remove;
use indexmap::IndexMap;
use sm_base::Name;

/// The count of a volume, 0 where it has none.
#[tactic(auto, unfolding(crate::specs::Attached::same_name))]
pub(crate) fn count(counts: &IndexMap<Name, u32>, volume: &Name) -> u32
    ensures { result ≡ tally counts.now.entries volume.now }
{
    counts.get(volume).copied().unwrap_or(0)
}

/// Gives a volume this count. A count of 0 is not kept.
#[tactic(auto, unfolding(crate::specs::Attached::same_name))]
pub(crate) fn set_count(counts: &mut IndexMap<Name, u32>, volume: &Name, count: u32)
    requires above { AreAbove counts.old.entries }
    requires room { tally counts.old.entries volume.now ≡ 0 → 0 < count → HoldsChain counts.old.entries (volume.now ∷ []) (room_of counts.old) }
    ensures given { tally counts.new.entries volume.now ≡ count }
    ensures others { (other : Name) → other ≢ volume.now → tally counts.new.entries other ≡ tally counts.old.entries other }
    ensures above { AreAbove counts.new.entries }
    ensures room { room_of counts.old ≤ room_of counts.new }
{
    // `len` is called for its clause that no volume has two entries.
    let _len = counts.len();
    if count == 0 {
        remove(counts, volume);
        return;
    }
    if let Some(kept) = counts.get_mut(volume) {
        *kept = count;
        return;
    }
    let Ok(_) = counts.insert(*volume, count) else {
        unreachable!()
    };
}

/// Counts each volume of a chain once more.
pub(crate) fn count_more(counts: &mut IndexMap<Name, u32>, chain: &[Name])
    requires above { AreAbove counts.old.entries }
    requires differ { AllPairs (λ a b. a ≢ b) chain.now }
    requires below_most { All (λ volume. tally counts.old.entries volume < u32.MAX) chain.now }
    requires room { HoldsChain counts.old.entries chain.now (room_of counts.old) }
    ensures counts { (volume : Name) → tally counts.new.entries volume ≡ tally counts.old.entries volume + one_in chain.now volume }
    ensures above { AreAbove counts.new.entries }
    ensures room { room_of counts.old ≤ room_of counts.new }
{
    'volumes: for volume in chain {
        let before = count(counts, volume);
        set_count(counts, volume, before + 1);
    }
}

/// Counts each volume of a chain once less.
pub(crate) fn count_less(counts: &mut IndexMap<Name, u32>, chain: &[Name])
    requires above { AreAbove counts.old.entries }
    requires differ { AllPairs (λ a b. a ≢ b) chain.now }
    requires counted { All (λ volume. 0 < tally counts.old.entries volume) chain.now }
    ensures counts { (volume : Name) → tally counts.old.entries volume ≡ tally counts.new.entries volume + one_in chain.now volume }
    ensures above { AreAbove counts.new.entries }
    ensures room { room_of counts.old ≤ room_of counts.new }
{
    'volumes: for volume in chain {
        let before = count(counts, volume);
        set_count(counts, volume, before - 1);
    }
}
