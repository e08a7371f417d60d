//! The commit: a change of the table, and the flip to the table that it leaves.

ghost use Rattle.std.specs.Prelude.{◌≡◌, ◌≤◌, ◌<◌, ◌*◌, ◌^◌, ℕ, List, true, false, OnOk, OnErr, length};
ghost use Rattle.sm_disk.specs.Held.{IsCounted, IsSettled, Keeps};
ghost use Rattle.vg_meta.specs.Tables.{VolumeTable};
ghost use Rattle.vg_meta.specs.Roomy.{table_alone};
ghost use Rattle.vg_meta.specs.Changes.{Permits, HasRoom, applied};
ghost use Rattle.vg_meta.specs.Text.{HasText, text};
ghost use Rattle.vg_layout.specs.Fields.{layout_number, plate, pointer};
ghost use Rattle.vg_volumes.specs.Commits.{IsEither};
ghost use Rattle.vg_volumes.specs.Sites.{Fits, RoomAfter};
ghost use Rattle.vg_store.specs.Groups.{LeavesGroup, area_of, beside_of};
ghost use Rattle.vg_store.specs.Heads.{IsPointerOf};

use crate::flips::flip;
use crate::groups::Group;
use sm_base::Failed;
use sm_disk::Disk;
use vg_layout::{Frame, Slot, TableHeader, sum_of};
use vg_meta::{Change, Table};
use vg_volumes::CURRENT_VERSION;

/// Writes the text of the table that a change leaves to the buffer's beginning, and answers its header in a slot.
fn next_header(table: &Table, change: &Change, slot: Slot, buffer: &mut [u8]) -> TableHeader
    requires allowed { Permits (2 ^ 32) (table_alone table.now) change.now }
    requires fits { length (text (applied (table_alone table.now) change.now)) ≤ length buffer.old }
    requires few { length buffer.old ≤ 8519680 }
    requires numbers { HasText (applied (table_alone table.now) change.now) }
    ensures slot { result.slot ≡ slot }
    ensures head { IsPointerOf (applied (table_alone table.now) change.now) (pointer result) buffer.new }
    ensures long { length buffer.new ≡ length buffer.old }
{
    let length = table.encode_changed(change, buffer);
    let sum = sum_of(&buffer[..length]);
    TableHeader {
        slot,
        length: length as u32,
        sum,
    }
}

impl<D: Disk> Group<D> {
    /// Changes the table. The text of the next table goes to the slot that is not in use, and its header takes
    /// effect. At `Ok` nothing is pending. At `Failed` the table is the earlier one, and no further commit is made.
    /// It takes no memory.
    pub(crate) fn commit_change(&mut self, change: Change) -> Result<(), Failed>
        requires usable { self.old.failed ≡ false }
        requires allowed { Permits self.old.label.extents (table_alone self.old.table) change }
        requires room { HasRoom self.old.table change }
        requires fits { Fits self.old.label.extents (table_alone self.old.table) change }
        ensures label { self.new.label ≡ self.old.label }
        ensures size { D.size self.new.disk ≡ D.size self.old.disk }
        ensures counts { D.faults self.old.disk ≤ D.faults self.new.disk }
        ensures cause { IsCounted result (D.faults self.old.disk) (D.faults self.new.disk) }
        ensures changed { OnOk result ((table_alone self.new.table ≡ applied (table_alone self.old.table) change) × (self.new.failed ≡ false)) }
        ensures unchanged { OnErr result ((table_alone self.new.table ≡ table_alone self.old.table) × (self.new.failed ≡ true)) }
        ensures room_after { OnOk result (RoomAfter change self.old.table self.new.table) }
        ensures keeps { D.told → Keeps (area_of (layout_number self.old.label.layout) (D.held self.old.disk)) (area_of (layout_number self.old.label.layout) (D.held self.new.disk)) }
        ensures beside { D.told → (area : ℕ)
            → Keeps (beside_of (layout_number self.old.label.layout) area (D.held self.old.disk)) (beside_of (layout_number self.old.label.layout) area (D.held self.new.disk)) }
        ensures settled { OnOk result (D.told → IsSettled (area_of (layout_number self.old.label.layout) (D.held self.new.disk))) }
        ensures crash { D.told → (t : VolumeTable) (image : ℕ → List ℕ)
            → LeavesGroup (D.size self.new.disk) (D.held self.new.disk) (plate self.new.label) t image
            → IsEither (self.old.label.extents * self.old.label.geometry.extent) (table_alone self.old.table) (applied (table_alone self.old.table) change) (area_of (layout_number self.old.label.layout) (D.held self.old.disk)) t image }
    {
        let frame = Frame::of(CURRENT_VERSION, self.label.layout);
        let next = next_header(
            &self.table,
            &change,
            self.header.slot.other(),
            &mut self.buffer,
        );
        let sectors = next.length.div_ceil(512) as usize;
        let (text, _) = self.buffer.split_at(512 * sectors);
        let Ok(()) = flip(&mut self.disk, &frame, &next, text) else {
            self.failed = true;
            return Err(Failed);
        };
        self.table.apply(change);
        self.header = next;
        Ok(())
    }
}
