//! Laws of a fork: at each moment between its commits the disks are those from before, and all checks of an opening pass that
//! passed before.

ghost use Rattle.std.specs.Prelude.{◌≡◌, ℕ, List, None};
ghost use Rattle.sm_base.specs.declared.names.Name.{Name};
ghost use Rattle.sm_record.specs.declared.records.Record.{Record};
ghost use Rattle.sm_machine.specs.Disks.{with_disk};
ghost use Rattle.sm_standing.specs.Checks.{first_fault};
ghost use Rattle.sm_standing.specs.Contents.{Content};
ghost use Rattle.sm_standing.specs.Images.{Image};
ghost use Rattle.sm_standing.specs.Standing.{disks, disk_in};
ghost use Rattle.sm_standing.specs.Forks.{IsForkable, IsForking, IsForked, IsForkMoment};

/// While the entry of a fork is there, the disks are those from before it.
pub fn law_forking()
    ensures { (a b : Content) (disk base twin : List ℕ) (n m : Name) (i : Image) → IsForkable a disk base twin n i
        → IsForking a b disk base twin n m → disks b ≡ disks a }
{}

/// While the entry of a fork is there, no check of an opening fails that did not fail before it.
pub fn law_fork_sound()
    ensures { (a b : Content) (disk base twin : List ℕ) (n m : Name) (i : Image) → IsForkable a disk base twin n i → first_fault a ≡ None
        → IsForkMoment a b disk base twin n m → first_fault b ≡ None }
{}

/// Once the entry is removed there is one disk more: the twin, with the sectors of the disk.
pub fn law_fork_ended()
    ensures { (a b : Content) (disk base twin : List ℕ) (n m : Name) (i j k : Image) (entry : Record) → IsForkable a disk base twin n i
        → IsForked a b disk base twin n m i j k entry → disks b ≡ with_disk (disk_in a twin entry n) (disks a) }
{}
