//! Laws of the list of disks.

ghost use Rattle.std.specs.Prelude.{◌≡◌, ◌≢◌, List, ℕ, None, Some, not};
ghost use Rattle.std.specs.List.{filter};
ghost use Rattle.std.specs.Option.{option_map};
ghost use Rattle.sm_base.specs.declared.names.Name.{Name};
ghost use Rattle.sm_record.specs.declared.records.Record.{Record};
ghost use Rattle.common_laws.specs.Lists.{In};
ghost use Rattle.sm_machine.specs.Disks.{Disk, is_disk, on_disk, with_disk};
ghost use Rattle.sm_standing.specs.Contents.{Content, records};
ghost use Rattle.sm_standing.specs.Images.{sectors_read};
ghost use Rattle.sm_standing.specs.Standing.{disks, disk_at, standing_volume};
ghost use Rattle.sm_standing.specs.Ordered.{Rising, disk_cmp};

/// The disks stand in order of UUID, each once.
pub fn law_disks_in_order()
    ensures { (c : Content) → Rising disk_cmp (disks c) }
{}

/// The disks follow from the disk of each UUID.
pub fn law_disks_follow()
    ensures { (a b : Content) → ((u : List ℕ) → disk_at b u ≡ disk_at a u) → disks b ≡ disks a }
{}

/// Where one UUID that was no disk is this disk, and each other is as it was, the disks are one more.
pub fn law_one_disk_more()
    ensures { (a b : Content) (d : Disk) → disk_at a d.uuid ≡ None → disk_at b d.uuid ≡ Some d
        → ((u : List ℕ) → u ≢ d.uuid → disk_at b u ≡ disk_at a u) → disks b ≡ with_disk d (disks a) }
{}

/// Where the disk of one UUID is changed, if it is one, and each other is as it was, that disk of the list is changed.
pub fn law_one_disk_changed()
    ensures { (a b : Content) (u : List ℕ) (f : Disk → Disk) → ((d : Disk) → (f d).uuid ≡ d.uuid) → disk_at b u ≡ option_map f (disk_at a u)
        → ((v : List ℕ) → v ≢ u → disk_at b v ≡ disk_at a v) → disks b ≡ on_disk u f (disks a) }
{}

/// Where one UUID is no disk any more, and each other is as it was, the disks are one less.
pub fn law_one_disk_less()
    ensures { (a b : Content) (u : List ℕ) → disk_at b u ≡ None
        → ((v : List ℕ) → v ≢ u → disk_at b v ≡ disk_at a v) → disks b ≡ filter (λ d. not (is_disk u d)) (disks a) }
{}

/// A disk has the UUID, the fields of a record of that UUID, and the sectors that are read of its standing volume.
pub fn law_disk()
    ensures record { (c : Content) (u : List ℕ) (d : Disk) → disk_at c u ≡ Some d
        → (r : Record) × In r (records c) × (r.uuid ≡ u) × (d.uuid ≡ u) × (d.label ≡ r.label) × (d.origin ≡ r.origin) × (d.read_only ≡ r.read_only) }
    ensures sectors { (c : Content) (u : List ℕ) (d : Disk) → disk_at c u ≡ Some d → (n : Name) × (standing_volume c.table u ≡ Some n) × (d.sectors ≡ sectors_read c n) }
{}
