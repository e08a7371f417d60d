//! The attachments of a repository.

ghost use Rattle.std.specs.Prelude.{◌≡◌, ◌≢◌, ◌+◌, ◌<◌, ◌≤◌, [], ◌∷◌, ◌++◌, length, All, AllPairs, IsNone, IsSome, IfOk};
ghost use Rattle.sm_base.specs.declared.names.Name.{Name};
ghost use Rattle.sm_refs.specs.Attached.{mode_of, without, count_of, CountsMore, CountsLess, HoldsChain};

use crate::removal::remove;
use crate::tallies;
use indexmap::IndexMap;
use sm_base::{Mode, Name, NoMemory};
use std::alloc::Global;
use std::marker::Model;
use uuid::Uuid;

/// The attached disks with their modes, in the order of attaching, and the volumes of their chains with the
/// number of attached disks that use each. No count is 0.
#[derive(Drop)]
pub struct Attachments {
    disks: IndexMap<Uuid, Mode>,
    counts: IndexMap<Name, u32>,
}

impl Model for Attachments {
    ghost use Rattle.sm_refs.specs.Attached.{Attached};

    ghost Value = { Attached };

    ghost use Rattle.sm_refs.specs.Kept.{attached_of, AreCounted};

    ghost view = { attached_of };

    ghost invariant = { AreCounted };
}

impl Attachments {
    /// Nothing is attached, and there is room for `room` disks and for `room` volumes.
    pub fn new(alloc: Global, room: usize) -> Result<Attachments, NoMemory>
        ensures disks { IfOk result (λ a. a.disks ≡ []) }
        ensures counts { IfOk result (λ a. a.counts ≡ []) }
        ensures room { IfOk result (λ a. room ≤ a.room) }
    {
        let Ok(disks) = IndexMap::with_capacity(alloc, room) else {
            return Err(NoMemory);
        };
        let Ok(counts) = IndexMap::with_capacity(alloc, room) else {
            return Err(NoMemory);
        };
        Ok(Attachments { disks, counts })
    }

    /// How a disk is attached, and `None` where it is not.
    #[tactic(auto, unfolding(crate::specs::Attached::same_uuid))]
    pub fn mode(&self, disk: &Uuid) -> Option<Mode>
        ensures { result ≡ mode_of self.now disk.now }
    {
        self.disks.get(disk).copied()
    }

    /// How many attached disks use a volume.
    pub fn count(&self, volume: &Name) -> u32
        ensures { result ≡ count_of self.now volume.now }
    {
        tallies::count(&self.counts, volume)
    }

    /// Attaches a disk. `chain` has the volumes of its chain, each of them once: their counts rise by one.
    #[tactic(auto, unfolding(crate::specs::Attached::same_uuid))]
    pub fn enter(&mut self, disk: Uuid, mode: Mode, chain: &[Name])
        requires not_attached { mode_of self.old disk ≡ None }
        requires differ { AllPairs (λ a b. a ≢ b) chain.now }
        requires below_most { All (λ volume. count_of self.old volume < u32.MAX) chain.now }
        requires room_for_disk { length self.old.disks < self.old.room }
        requires room_for_chain { HoldsChain self.old.counts chain.now self.old.room }
        ensures disks { self.new.disks ≡ self.old.disks ++ (disk, mode) ∷ [] }
        ensures counts { CountsMore chain.now self.old self.new }
        ensures room { self.old.room ≤ self.new.room }
    {
        let Ok(_) = self.disks.insert(disk, mode) else {
            unreachable!()
        };
        tallies::count_more(&mut self.counts, chain);
    }

    /// Detaches a disk. `chain` has the volumes of its chain, each of them once: their counts fall by one.
    #[tactic(auto, unfolding(crate::specs::Attached::same_uuid))]
    pub fn leave(&mut self, disk: &Uuid, chain: &[Name])
        requires attached { IsSome (mode_of self.old disk.now) }
        requires differ { AllPairs (λ a b. a ≢ b) chain.now }
        requires counted { All (λ volume. 0 < count_of self.old volume) chain.now }
        ensures disks { self.new.disks ≡ without disk.now self.old.disks }
        ensures counts { CountsLess chain.now self.old self.new }
        ensures room { self.old.room ≤ self.new.room }
    {
        remove(&mut self.disks, disk);
        tallies::count_less(&mut self.counts, chain);
    }

    /// Notes that a fork has put `base` under `leaf`, into each chain that has the leaf: the base gets the leaf's
    /// count.
    pub fn forked(&mut self, leaf: &Name, base: Name)
        requires none_yet { count_of self.old base ≡ 0 }
        requires room { HoldsChain self.old.counts (base ∷ []) self.old.room }
        ensures base { count_of self.new base ≡ count_of self.old leaf.now }
        ensures others { (volume : Name) → volume ≢ base → count_of self.new volume ≡ count_of self.old volume }
        ensures disks { self.new.disks ≡ self.old.disks }
        ensures room { self.old.room ≤ self.new.room }
    {
        let users = self.count(leaf);
        tallies::set_count(&mut self.counts, &base, users);
    }

    /// Notes that `child` is no longer linked to `out`, so that each chain that has the child has lost `out`: the
    /// count of `out` falls by the child's.
    pub fn relinked(&mut self, child: &Name, out: &Name)
        requires enough { count_of self.old child.now ≤ count_of self.old out.now }
        ensures out { count_of self.new out.now + count_of self.old child.now ≡ count_of self.old out.now }
        ensures others { (volume : Name) → volume ≢ out.now → count_of self.new volume ≡ count_of self.old volume }
        ensures disks { self.new.disks ≡ self.old.disks }
        ensures room { self.old.room ≤ self.new.room }
    {
        let users = self.count(out) - self.count(child);
        tallies::set_count(&mut self.counts, out, users);
    }

    /// Notes that the leaf of an attached disk was folded into `parent`, whose volume has got the leaf's name, so that no
    /// chain has the parent's name any more. The leaf's name stays in each chain that had it, and keeps its count.
    pub fn swapped(&mut self, parent: &Name)
        ensures parent { count_of self.new parent.now ≡ 0 }
        ensures others { (volume : Name) → volume ≢ parent.now → count_of self.new volume ≡ count_of self.old volume }
        ensures disks { self.new.disks ≡ self.old.disks }
        ensures room { self.old.room ≤ self.new.room }
    {
        tallies::set_count(&mut self.counts, parent, 0);
    }
}
