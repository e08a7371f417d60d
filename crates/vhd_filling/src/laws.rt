//! What follows for the callers: a volume that grows, and the image at the end. Each function is one law, in its contract.

ghost use Rattle.std.specs.Prelude.{◌≡◌, ℕ, List, Option};
ghost use Rattle.sm_base.specs.Numbers.{IsGeometry};
ghost use Rattle.sm_base.specs.declared.sizes.Geometry.{Geometry};
ghost use Rattle.sm_disk.specs.Held.{Held, reads};
ghost use Rattle.vg_meta.specs.Changes.{Permits};
ghost use Rattle.vg_meta.specs.Roomy.{table_alone};
ghost use Rattle.vg_meta.specs.declared.changes.Change.TheVariants.{Grow};
ghost use Rattle.vg_volumes.specs.Stored.{stored, Commits};
ghost use Rattle.vhd_layout.specs.Images.{EachSlotHolds};
ghost use Rattle.vhd_volumes.specs.declared.heads.Head.{Head};
ghost use Rattle.vhd_volumes.specs.Steady.{IsQuiet};
ghost use Rattle.vhd_volumes.specs.Truth.{HasRoomIn};
ghost use Rattle.vhd_image.specs.Opened.{ReadsAsImage};
ghost use Rattle.vhd_image.specs.Steady.{IsSteady};
ghost use Rattle.vhd_image.specs.declared.images.Body.TheVariants.{Vhd};
ghost use Rattle.vhd_filling.specs.Filled.{Fills, HoldsSame, held_now, slots_taken};
ghost use Rattle.vhd_filling.specs.declared.fillings.Filling.{Filling};

use vg_volumes::Store;

/// A commit that gives the volume more extents behind its end leaves the image to be filled, with what it held.
pub fn law_grown<S: Store>(before: &S)
    ensures { (f : Filling) (more : List ℕ) (after : S) → Commits S.Store (Grow f.volume more) before.now after
        → Permits (S.site before.now).count (table_alone (S.table before.now)) (Grow f.volume more)
        → HasRoomIn (stored S.Store before.now) f.volume (slots_taken f) → Fills S.Store f before.now
        → Fills S.Store f after × (S.told → HoldsSame (held_now S.Store f before.now) (held_now S.Store f after)) }
{}

/// An image that a read gives, with a sector in each slot, is steady once nothing of its volume is pending.
pub fn law_steady()
    ensures { (g : Geometry) (n : ℕ) (head : Head) (m : List (Option ℕ)) (h quiet : Held)
        → IsGeometry g.extent g.block g.entries → ReadsAsImage g n h head m
        → EachSlotHolds g.block g.entries (reads h) → IsQuiet quiet
        → ((p : ℕ) → reads quiet p ≡ reads h p) → IsSteady g n quiet (Vhd head m) }
{}
