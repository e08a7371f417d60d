//! The entry of a copy that a stop has cut short goes, and a fork or an enlargement is undone: the base of a fork is the disk's image
//! again, and an image that was being enlarged ends where it ended before.

ghost use Rattle.std.specs.Prelude.{◌≡◌, ◌≤◌, false, None, Some, OnOk};
ghost use Rattle.sm_base.specs.declared.names.Name.TheVariants.{Clone, Inflate};
ghost use Rattle.sm_disk.specs.Held.{IsSettled, Keeps};
ghost use Rattle.sm_standing.specs.Checks.{IsSoundButLeaf};
ghost use Rattle.sm_standing.specs.Entries.{folding, head, of_row};
ghost use Rattle.sm_standing.specs.Keeping.{HoldsWell};
ghost use Rattle.sm_standing.specs.Opened.{changes_back, is_longer, undo_changes, undone};
ghost use Rattle.vg_meta.specs.Roomy.{table_alone};
ghost use Rattle.vg_meta.specs.Tables.{rows};
ghost use Rattle.vg_volumes.specs.Stored.{Counts, Leaves};
ghost use Rattle.sm_ready.specs.Cleaned.{HasFewRemovals};
ghost use Rattle.sm_ready.specs.Repairs.{IsSame};
ghost use Rattle.sm_ready.specs.Runs.{AllMay};
ghost use Rattle.sm_ready.specs.Sessions.{HasRows};
ghost use Rattle.sm_ready.specs.Stores.{content_in, store_content};
ghost use Rattle.sm_recover.specs.Repairs.{IsEndableStore};
ghost use Rattle.sm_recover.specs.Steps.{MakesAll, MakesPart, changes_of_base, ends_copy, first_changes, is_copy, is_marked, uncopied};

use crate::memory::under_name;
use crate::steps::commit_where;
use sm_base::{Failed, Name};
use sm_checks::{entry_in, folding_in, has, image_with};
use uuid::Uuid;
use vg_meta::{Change, Table, Tag};
use vg_volumes::Store;

/// Takes away the entry of a copy, and then undoes the fork or the enlargement whose entry is there, by a commit for each change. That
/// entry goes last, so a stop in between leaves one that says what is to be undone. The entry of a link stays.
pub fn undo<S: Store>(store: &mut S) -> Result<(), Failed>
    requires usable { S.failed store.old ≡ false }
    requires endable { IsEndableStore S.Store store.old }
    ensures site { S.site store.new ≡ S.site store.old }
    ensures counts { S.faults store.old ≤ S.faults store.new }
    ensures beside { S.told → Keeps (S.beside store.old) (S.beside store.new) }
    ensures keeps { S.told → Keeps (S.area store.old) (S.area store.new) }
    ensures cause { Counts S.Store result store.old store.new }
    ensures usable_still { OnOk result (S.failed store.new ≡ false) }
    ensures undone { OnOk result (table_alone (S.table store.new) ≡ undone (uncopied (table_alone (S.table store.old)))) }
    ensures few { HasFewRemovals (table_alone (S.table store.old)) (table_alone (S.table store.new)) }
    ensures few_left { Leaves S.Store store.new (λ t image. HasFewRemovals (table_alone (S.table store.old)) t) }
    ensures room { OnOk result (HasRows (S.table store.old) → HasRows (S.table store.new)) }
    ensures settled { OnOk result (S.told → IsSettled (S.area store.old) → IsSettled (S.area store.new)) }
    ensures crash { Leaves S.Store store.new (λ t image. IsSettled (S.area store.old) → IsSoundButLeaf (store_content S.Store store.old)
        → HoldsWell (store_content S.Store store.old) → IsSame (store_content S.Store store.old) (content_in (S.site store.old) t image)) }
{
    make_first(store)?;
    Ok(())
}

/// The commits of it.
fn make_first<S: Store>(store: &mut S) -> Result<(), Failed>
    requires usable { S.failed store.old ≡ false }
    requires allowed { AllMay (S.site store.old).count (table_alone (S.table store.old)) (first_changes (table_alone (S.table store.old))) }
    ensures part { MakesPart S.Store (first_changes (table_alone (S.table store.old))) store.old store.new }
    ensures all { OnOk result (MakesAll S.Store (first_changes (table_alone (S.table store.old))) store.old store.new) }
    ensures cause { Counts S.Store result store.old store.new }
{
    end_copy(store)?;
    undo_making(store)?;
    Ok(())
}

/// Takes away the entry of a copy, where it is there.
fn end_copy<S: Store>(store: &mut S) -> Result<(), Failed>
    requires usable { S.failed store.old ≡ false }
    requires allowed { AllMay (S.site store.old).count (table_alone (S.table store.old)) (ends_copy (head (folding (table_alone (S.table store.old))))) }
    ensures part { MakesPart S.Store (ends_copy (head (folding (table_alone (S.table store.old))))) store.old store.new }
    ensures all { OnOk result (MakesAll S.Store (ends_copy (head (folding (table_alone (S.table store.old))))) store.old store.new) }
    ensures cause { Counts S.Store result store.old store.new }
{
    let Some(name) = folding_in(store.table()) else {
        return Ok(());
    };
    commit_where(store, is_copy(&name), Change::Remove { name })?;
    Ok(())
}

fn is_copy(name: &Name) -> bool
    ensures { result ≡ is_copy name.now }
{
    match name {
        Name::Coalesce { .. } => true,
        Name::Mgt
        | Name::Vhd(_)
        | Name::Raw(_)
        | Name::Old(_)
        | Name::Cbt(_)
        | Name::Clone { .. }
        | Name::Inflate { .. }
        | Name::Relink { .. }
        | Name::Leaf { .. } => false,
    }
}

/// Undoes the fork or the enlargement whose entry is there.
fn undo_making<S: Store>(store: &mut S) -> Result<(), Failed>
    requires usable { S.failed store.old ≡ false }
    requires allowed { AllMay (S.site store.old).count (table_alone (S.table store.old)) (undo_changes (table_alone (S.table store.old))) }
    ensures part { MakesPart S.Store (undo_changes (table_alone (S.table store.old))) store.old store.new }
    ensures all { OnOk result (MakesAll S.Store (undo_changes (table_alone (S.table store.old))) store.old store.new) }
    ensures cause { Counts S.Store result store.old store.new }
{
    let Some(entry) = entry_in(store.table()) else {
        return Ok(());
    };
    undo_entry(store, &entry)?;
    Ok(())
}

/// Undoes what an entry says.
fn undo_entry<S: Store>(store: &mut S, entry: &Name) -> Result<(), Failed>
    requires usable { S.failed store.old ≡ false }
    requires allowed { AllMay (S.site store.old).count (table_alone (S.table store.old)) (changes_back (table_alone (S.table store.old)) entry.now) }
    ensures part { MakesPart S.Store (changes_back (table_alone (S.table store.old)) entry.now) store.old store.new }
    ensures all { OnOk result (MakesAll S.Store (changes_back (table_alone (S.table store.old)) entry.now) store.old store.new) }
    ensures cause { Counts S.Store result store.old store.new }
{
    match entry {
        Name::Inflate { image, extents } => undo_enlargement(store, *image, *extents)?,
        Name::Clone { disk, base, twin } => undo_fork(store, disk, base, twin)?,
        Name::Mgt
        | Name::Vhd(_)
        | Name::Raw(_)
        | Name::Old(_)
        | Name::Cbt(_)
        | Name::Coalesce { .. }
        | Name::Relink { .. }
        | Name::Leaf { .. } => (),
    }
    Ok(())
}

/// Cuts the volume of the image that was being enlarged to the extents that it had, where it has more, and removes the entry.
pub fn undo_enlargement<S: Store>(store: &mut S, image: Uuid, extents: u32) -> Result<(), Failed>
    requires usable { S.failed store.old ≡ false }
    requires allowed { AllMay (S.site store.old).count (table_alone (S.table store.old)) (changes_back (table_alone (S.table store.old)) (Inflate image extents)) }
    ensures part { MakesPart S.Store (changes_back (table_alone (S.table store.old)) (Inflate image extents)) store.old store.new }
    ensures all { OnOk result (MakesAll S.Store (changes_back (table_alone (S.table store.old)) (Inflate image extents)) store.old store.new) }
    ensures cause { Counts S.Store result store.old store.new }
{
    let name = Name::Vhd(image);
    let is_long = is_longer(store.table(), &name, extents);
    let keep = extents;
    commit_where(store, is_long, Change::Cut { name, keep })?;
    let name = Name::Inflate { image, extents };
    commit_where(store, true, Change::Remove { name })?;
    Ok(())
}

/// Removes the twin's new image where it is there, gives the disk its base as image again where that is there, and removes
/// the entry.
fn undo_fork<S: Store>(store: &mut S, disk: &Uuid, base: &Uuid, twin: &Uuid) -> Result<(), Failed>
    requires usable { S.failed store.old ≡ false }
    requires allowed { AllMay (S.site store.old).count (table_alone (S.table store.old)) (changes_back (table_alone (S.table store.old)) (Clone disk.now base.now twin.now)) }
    ensures part { MakesPart S.Store (changes_back (table_alone (S.table store.old)) (Clone disk.now base.now twin.now)) store.old store.new }
    ensures all { OnOk result (MakesAll S.Store (changes_back (table_alone (S.table store.old)) (Clone disk.now base.now twin.now)) store.old store.new) }
    ensures cause { Counts S.Store result store.old store.new }
{
    let name = Name::Vhd(*twin);
    let has_twin = has(store.table(), &name);
    let has_own = has(store.table(), &Name::Vhd(*disk));
    let found = image_with(store.table(), base);
    let is_hidden = is_marked(store.table(), &found);
    commit_where(store, has_twin, Change::Remove { name })?;
    give_back(store, *disk, found, has_own, is_hidden)?;
    let name = Name::Clone {
        disk: *disk,
        base: *base,
        twin: *twin,
    };
    commit_where(store, true, Change::Remove { name })?;
    Ok(())
}

/// Removes the disk's new image where it is there, shows the base where it is hidden, and gives it the disk's name. Does
/// nothing where there is no base.
fn give_back<S: Store>(
    store: &mut S,
    disk: Uuid,
    base: Option<Name>,
    has_own: bool,
    is_hidden: bool,
) -> Result<(), Failed>
    requires usable { S.failed store.old ≡ false }
    requires allowed { AllMay (S.site store.old).count (table_alone (S.table store.old)) (changes_of_base disk base has_own is_hidden) }
    ensures part { MakesPart S.Store (changes_of_base disk base has_own is_hidden) store.old store.new }
    ensures all { OnOk result (MakesAll S.Store (changes_of_base disk base has_own is_hidden) store.old store.new) }
    ensures cause { Counts S.Store result store.old store.new }
{
    let Some(from) = base else {
        return Ok(());
    };
    let name = Name::Vhd(disk);
    commit_where(store, has_own, Change::Remove { name })?;
    let shown = Change::Mark {
        name: from,
        tag: Tag::Hidden,
        on: false,
    };
    commit_where(store, is_hidden, shown)?;
    let to = under_name(&from, &disk);
    commit_where(store, true, Change::Rename { from, to })?;
    Ok(())
}

/// Whether a volume is there and hidden, where there is a name.
pub fn is_marked(table: &Table, name: &Option<Name>) -> bool
    ensures { result ≡ is_marked (table_alone table.now) name.now }
{
    let Some(name) = name else {
        return false;
    };
    match table.get(name) {
        Some(volume) => volume.is_hidden(),
        None => false,
    }
}

/// Whether a volume is there and has more extents than so many.
fn is_longer(table: &Table, name: &Name, extents: u32) -> bool
    ensures { result ≡ of_row (is_longer extents) (rows (table_alone table.now) name.now) }
{
    match table.get(name) {
        Some(volume) => volume.extents().len() > extents as usize,
        None => false,
    }
}
