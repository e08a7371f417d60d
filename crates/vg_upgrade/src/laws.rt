//! What stands on each image that a stop leaves of a repository while it is taken over.

ghost use Rattle.std.specs.Prelude.{ℕ, List, ◌≡◌, ◌≤◌, ◌<◌, ◌⊎◌, length};
ghost use Rattle.sm_disk.specs.Held.{Allows, Held, May};
ghost use Rattle.vg_meta.specs.Tables.{VolumeTable};
ghost use Rattle.vg_meta.specs.Text.{text};
ghost use Rattle.vg_layout.specs.Opening.{StandsOn, version_of};
ghost use Rattle.vg_layout.specs.Places.{narrow_frame, slot_bytes};
ghost use Rattle.vg_layout.specs.Sectors.{Plate, Pointer};
ghost use Rattle.vg_upgrade.specs.Upgrades.{IsTakenOver, MayLeave, new_pointer};

/// On each image that a device allows while a group is taken over the same table stands, by version 1 or by version 2; and what a
/// stop leaves of the extents, where these are kept, it might have left before, beside the same table.
pub fn law_upgrade()
    ensures old { (size : ℕ) (was : ℕ → List ℕ) (h : Held) (p : Plate) (at : Pointer) (t : VolumeTable) (image : ℕ → List ℕ) → MayLeave size was h p at t image
        → version_of image ≡ 1 → StandsOn size image (record { plate = p; pointer = at; table = t }) }
    ensures new { (size : ℕ) (was : ℕ → List ℕ) (h : Held) (p : Plate) (at : Pointer) (t : VolumeTable) (image : ℕ → List ℕ) → MayLeave size was h p at t image
        → length (text t) ≤ slot_bytes narrow_frame → version_of image ≡ 2
        → StandsOn size image (record { plate = p; pointer = new_pointer t; table = t }) }
    ensures either { (size : ℕ) (was : ℕ → List ℕ) (h : Held) (p : Plate) (at : Pointer) (t : VolumeTable) (image : ℕ → List ℕ) → MayLeave size was h p at t image
        → (version_of image ≡ 1) ⊎ (version_of image ≡ 2) }
    ensures begins { (size : ℕ) (h : Held) (p : Plate) (at : Pointer) (t : VolumeTable) → StandsOn size h.floor (record { plate = p; pointer = at; table = t }) → version_of h.floor ≡ 1
        → ((q : ℕ) (v : List ℕ) → q < 4096 → May h q v → v ≡ h.floor q) → IsTakenOver size h.floor h p at t }
    ensures before { (size : ℕ) (was : ℕ → List ℕ) (a b : Held) (p : Plate) (at : Pointer) (t : VolumeTable) (image : ℕ → List ℕ) → IsTakenOver size was a p at t → 4096 ≤ size
        → length (text t) ≤ slot_bytes narrow_frame → ((q : ℕ) (v : List ℕ) → 4096 ≤ q → May b q v → May a q v) → Allows size b image
        → (whole : ℕ → List ℕ) × (k : Pointer) × Allows size a whole × StandsOn size whole (record { plate = p; pointer = k; table = t }) × ((q : ℕ) → 4096 ≤ q → whole q ≡ image q) }
{}
