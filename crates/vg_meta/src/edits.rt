//! Edits of a list of volumes, each found by its name.

ghost use Rattle.std.specs.Prelude.{◌≡◌, ◌≢◌, ◌≤◌, ◌<◌, ◌+◌, ◌-◌, ◌^◌, ◌++◌, ◌∷◌, take, drop, None, Some, IsSome, OnOk, OnErr, length, vec_len, vec_capacity};
ghost use Rattle.sm_base.specs.declared.names.Name.{Name};
ghost use Rattle.vg_meta.specs.Tables.{Row, row_of, names_of};
ghost use Rattle.vg_meta.specs.Roomy.{rows_alone, places_in, IsSlot};
ghost use Rattle.vg_meta.specs.Changes.{put, without, with_row, grown, cut_to, tagged, AllowsIn, HasRoom, changed, spare_after, places_after};
ghost use Rattle.vg_meta.specs.Held.{held};
ghost use Rattle.std.specs.List.Sorted.{IsStrictlySortedBy};
ghost use Rattle.sm_base.specs.Names.{name_cmp};

use crate::changes::{Change, Tag};
use crate::volumes::{Volume, place};
use sm_base::{Name, NoMemory};

/// Takes a volume out.
pub fn take_out(volumes: &mut Vec<Volume>, name: &Name) -> Volume
    requires { IsSome (row_of (rows_alone volumes.old.items) name.now) }
    ensures taken { row_of (rows_alone volumes.old.items) name.now ≡ Some result.row }
    ensures places { places_in volumes.old.items name.now ≡ result.spare }
    ensures rows { rows_alone volumes.new.items ≡ without name.now (rows_alone volumes.old.items) }
    ensures others { (n : Name) → name.now ≢ n → places_in volumes.new.items n ≡ places_in volumes.old.items n }
    ensures length { vec_len volumes.new + 1 ≡ vec_len volumes.old }
    ensures capacity { vec_capacity volumes.new ≡ vec_capacity volumes.old }
{
    let Some(at) = place(volumes, name) else {
        unreachable!()
    };
    volumes.remove(at)
}

/// More extents at the end of a volume.
pub fn grow(volumes: &mut Vec<Volume>, name: &Name, extents: &[u32])
    requires there { IsSome (row_of (rows_alone volumes.old.items) name.now) }
    requires room { length extents.now ≤ places_in volumes.old.items name.now }
    ensures rows { rows_alone volumes.new.items ≡ with_row name.now (grown extents.now) (rows_alone volumes.old.items) }
    ensures places { places_in volumes.old.items name.now ≤ places_in volumes.new.items name.now + length extents.now }
    ensures others { (n : Name) → name.now ≢ n → places_in volumes.new.items n ≡ places_in volumes.old.items n }
    ensures length { vec_len volumes.new ≡ vec_len volumes.old }
    ensures capacity { vec_capacity volumes.new ≡ vec_capacity volumes.old }
{
    let Some(at) = place(volumes, name) else {
        unreachable!()
    };
    let volume = &mut volumes[at];
    volume.grow(extents);
}

/// Only the first extents of a volume.
pub fn cut(volumes: &mut Vec<Volume>, name: &Name, keep: usize)
    requires there { IsSome (row_of (rows_alone volumes.old.items) name.now) }
    ensures rows { rows_alone volumes.new.items ≡ with_row name.now (cut_to keep) (rows_alone volumes.old.items) }
    ensures places { places_in volumes.old.items name.now ≤ places_in volumes.new.items name.now }
    ensures others { (n : Name) → name.now ≢ n → places_in volumes.new.items n ≡ places_in volumes.old.items n }
    ensures length { vec_len volumes.new ≡ vec_len volumes.old }
    ensures capacity { vec_capacity volumes.new ≡ vec_capacity volumes.old }
{
    let Some(at) = place(volumes, name) else {
        unreachable!()
    };
    let volume = &mut volumes[at];
    volume.cut(keep);
}

/// A mark of a volume is set or taken away.
pub fn mark(volumes: &mut Vec<Volume>, name: &Name, tag: Tag, on: bool)
    requires there { IsSome (row_of (rows_alone volumes.old.items) name.now) }
    ensures rows { rows_alone volumes.new.items ≡ with_row name.now (tagged tag on) (rows_alone volumes.old.items) }
    ensures places { places_in volumes.new.items name.now ≡ places_in volumes.old.items name.now }
    ensures others { (n : Name) → name.now ≢ n → places_in volumes.new.items n ≡ places_in volumes.old.items n }
    ensures length { vec_len volumes.new ≡ vec_len volumes.old }
    ensures capacity { vec_capacity volumes.new ≡ vec_capacity volumes.old }
{
    let Some(at) = place(volumes, name) else {
        unreachable!()
    };
    let volume = &mut volumes[at];
    volume.mark(tag, on);
}

/// The place at which a volume of this name is put in.
pub fn slot(volumes: &[Volume], name: &Name) -> usize
    ensures within { result ≤ length volumes.now }
    ensures slot { IsSlot volumes.now name.now result }
    ensures place { (r : Row) → r.name ≡ name.now → rows_alone (take result volumes.now) ++ r ∷ rows_alone (drop result volumes.now) ≡ put r (rows_alone volumes.now) }
{
    for (at, volume) in volumes.iter().enumerate() {
        if name.compare(&volume.name()).is_lt() {
            return at;
        }
    }
    volumes.len()
}

/// Puts a volume in, in order of name.
pub fn put_in(volumes: &mut Vec<Volume>, volume: Volume)
    requires room { vec_len volumes.old < vec_capacity volumes.old }
    requires absent { row_of (rows_alone volumes.old.items) volume.row.name ≡ None }
    ensures rows { rows_alone volumes.new.items ≡ put volume.row (rows_alone volumes.old.items) }
    ensures places { places_in volumes.new.items volume.row.name ≡ volume.spare }
    ensures others { (n : Name) → volume.row.name ≢ n → places_in volumes.new.items n ≡ places_in volumes.old.items n }
    ensures length { vec_len volumes.new ≡ vec_len volumes.old + 1 }
    ensures capacity { vec_capacity volumes.new ≡ vec_capacity volumes.old }
{
    let at = slot(volumes, &volume.name());
    let _ = volumes.insert(at, volume);
}

/// Makes room for more extents of a volume.
pub fn reserve_for(volumes: &mut Vec<Volume>, name: &Name, more: usize) -> Result<(), NoMemory>
    requires { IsSome (row_of (rows_alone volumes.old.items) name.now) }
    ensures rows { rows_alone volumes.new.items ≡ rows_alone volumes.old.items }
    ensures no_fewer { places_in volumes.old.items name.now ≤ places_in volumes.new.items name.now }
    ensures others { (n : Name) → name.now ≢ n → places_in volumes.new.items n ≡ places_in volumes.old.items n }
    ensures ok { OnOk result (more ≤ places_in volumes.new.items name.now) }
    ensures err { OnErr result (volumes.new.items ≡ volumes.old.items) }
    ensures length { vec_len volumes.new ≡ vec_len volumes.old }
    ensures capacity { vec_capacity volumes.new ≡ vec_capacity volumes.old }
{
    let Some(at) = place(volumes, name) else {
        unreachable!()
    };
    let volume = &mut volumes[at];
    volume.reserve(more)
}

/// Does a change that is allowed and for which there is room. It takes no memory.
pub fn apply_to(volumes: &mut Vec<Volume>, change: Change)
    requires allowed { AllowsIn (2 ^ 32) (rows_alone volumes.old.items) change }
    requires rising { IsStrictlySortedBy name_cmp (names_of (rows_alone volumes.old.items)) }
    requires room { HasRoom (held volumes.old) change }
    ensures rows { rows_alone volumes.new.items ≡ changed (rows_alone volumes.old.items) change }
    ensures spare { (held volumes.new).spare ≡ spare_after (held volumes.old).spare change }
    ensures places { (n : Name) → places_after (places_in volumes.old.items) change n ≤ places_in volumes.new.items n }
{
    match change {
        Change::Create {
            name,
            fresh,
            extents,
        } => {
            put_in(volumes, Volume::made(name, fresh, extents));
        }
        Change::Remove { name } => {
            let _ = take_out(volumes, &name);
        }
        Change::Rename { from, to } => {
            let mut volume = take_out(volumes, &from);
            volume.rename(to);
            put_in(volumes, volume);
        }
        Change::Grow { name, extents } => grow(volumes, &name, extents.as_slice()),
        Change::Cut { name, keep } => cut(volumes, &name, keep as usize),
        Change::Mark { name, tag, on } => mark(volumes, &name, tag, on),
    }
}
