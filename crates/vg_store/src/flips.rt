//! A table takes effect by one sector, the header, which is written once the text of the table has lasted.

ghost use Rattle.std.specs.Prelude.{ℕ, ◌≡◌, ◌≤◌, ◌<◌, ◌*◌, length, OnOk};
ghost use Rattle.sm_base.specs.Numbers.{div_up};
ghost use Rattle.sm_disk.specs.Held.{IsCounted, IsSettled, Keeps};
ghost use Rattle.vg_layout.specs.Fields.{places_in, pointer};
ghost use Rattle.vg_layout.specs.Places.{IsApart, slot_bytes};
ghost use Rattle.vg_store.specs.Groups.{area_of, beside_of, IsFrameOf, LeavesEither, StandsEither, IsFlipped};

use sm_base::Failed;
use sm_disk::{Disk, put};
use vg_layout::{Frame, TableHeader};

/// Writes the sectors of a text into the slot of its header in a frame and syncs, then writes the header and syncs. A stop
/// leaves the table that stood or the next one, and of the extents what might have been left before.
pub(crate) fn flip<D: Disk>(
    disk: &mut D,
    frame: &Frame,
    next: &TableHeader,
    text: &[u8],
) -> Result<(), Failed>
    requires apart { IsApart (places_in frame.now) (D.size disk.old) }
    requires some { 0 < next.now.length }
    requires fits { next.now.length ≤ slot_bytes (places_in frame.now) }
    requires sectors { length text.now ≡ 512 * div_up next.now.length 512 }
    ensures size { D.size disk.new ≡ D.size disk.old }
    ensures counts { D.faults disk.old ≤ D.faults disk.new }
    ensures cause { IsCounted result (D.faults disk.old) (D.faults disk.new) }
    ensures keeps { D.told → (layout : ℕ) → IsFrameOf (places_in frame.now) layout → Keeps (area_of layout (D.held disk.old)) (area_of layout (D.held disk.new)) }
    ensures beside { D.told → (layout area : ℕ) → IsFrameOf (places_in frame.now) layout
        → Keeps (beside_of layout area (D.held disk.old)) (beside_of layout area (D.held disk.new)) }
    ensures settled { OnOk result (D.told → IsSettled (D.held disk.new)) }
    ensures crash { D.told → LeavesEither (D.size disk.old) (D.held disk.old) (D.held disk.new) (places_in frame.now) (pointer next.now) text.now }
    ensures stands { D.told → StandsEither (D.size disk.old) (D.held disk.old) (D.held disk.new) (places_in frame.now) (pointer next.now) text.now }
    ensures flipped { OnOk result (D.told → IsFlipped (D.size disk.old) (D.held disk.old) (D.held disk.new) (places_in frame.now) (pointer next.now) text.now) }
{
    put(disk, next.slot.place(frame), text)?;
    let mut sector = [0; 512];
    next.write(&mut sector);
    put(disk, frame.header, &sector)?;
    Ok(())
}
