//! The folding of a leaf that a stop has cut short is ended: the image that goes on has the leaf's name and is shown, and the old leaf and
//! the entry go.

ghost use Rattle.std.specs.Prelude.{◌≡◌, false, OnOk, Some};
ghost use Rattle.sm_standing.specs.Entries.{folding, head, making};
ghost use Rattle.sm_standing.specs.Opened.{leaf_changes, leaf_gone, parent_changes};
ghost use Rattle.vg_meta.specs.Roomy.{table_alone};
ghost use Rattle.vg_volumes.specs.Stored.{Counts};
ghost use Rattle.sm_ready.specs.Runs.{AllMay};
ghost use Rattle.sm_recover.specs.Ending.{leaf_ends, name_taken, renamed_changes, swapped_changes};
ghost use Rattle.sm_recover.specs.Steps.{MakesAll, MakesPart};

use crate::steps::commit_where;
use crate::undoing::{is_marked, undo_enlargement};
use sm_base::{Failed, Name};
use sm_checks::{entry_in, folding_in, is_leaf_renamed, is_leaf_swapped};
use uuid::Uuid;
use vg_meta::{Change, Tag};
use vg_volumes::Store;

/// Ends the folding of a leaf whose entry is there, by a commit for each change. The entry goes last.
pub fn end_leaf<S: Store>(store: &mut S) -> Result<(), Failed>
    requires usable { S.failed store.old ≡ false }
    requires allowed { AllMay (S.site store.old).count (table_alone (S.table store.old)) (leaf_ends (table_alone (S.table store.old)) (head (folding (table_alone (S.table store.old))))) }
    ensures part { MakesPart S.Store (leaf_ends (table_alone (S.table store.old)) (head (folding (table_alone (S.table store.old))))) store.old store.new }
    ensures all { OnOk result (MakesAll S.Store (leaf_ends (table_alone (S.table store.old)) (head (folding (table_alone (S.table store.old))))) store.old store.new) }
    ensures cause { Counts S.Store result store.old store.new }
{
    let Some(entry) = folding_in(store.table()) else {
        return Ok(());
    };
    end_entry(store, &entry)?;
    Ok(())
}

/// Ends what an entry says, where it is that of the folding of a leaf.
fn end_entry<S: Store>(store: &mut S, entry: &Name) -> Result<(), Failed>
    requires usable { S.failed store.old ≡ false }
    requires allowed { AllMay (S.site store.old).count (table_alone (S.table store.old)) (leaf_ends (table_alone (S.table store.old)) (Some entry.now)) }
    ensures part { MakesPart S.Store (leaf_ends (table_alone (S.table store.old)) (Some entry.now)) store.old store.new }
    ensures all { OnOk result (MakesAll S.Store (leaf_ends (table_alone (S.table store.old)) (Some entry.now)) store.old store.new) }
    ensures cause { Counts S.Store result store.old store.new }
{
    if let Name::Leaf { leaf, parent } = entry {
        end_fold(store, *leaf, *parent)?;
    }
    Ok(())
}

/// The same, by the leaf and its parent.
fn end_fold<S: Store>(store: &mut S, leaf: Uuid, parent: Uuid) -> Result<(), Failed>
    requires usable { S.failed store.old ≡ false }
    requires allowed { AllMay (S.site store.old).count (table_alone (S.table store.old)) (leaf_changes (table_alone (S.table store.old)) leaf parent) }
    ensures part { MakesPart S.Store (leaf_changes (table_alone (S.table store.old)) leaf parent) store.old store.new }
    ensures all { OnOk result (MakesAll S.Store (leaf_changes (table_alone (S.table store.old)) leaf parent) store.old store.new) }
    ensures cause { Counts S.Store result store.old store.new }
{
    if is_leaf_renamed(store.table(), &leaf, &parent) {
        end_renamed(store, leaf, parent)?;
        return Ok(());
    }
    if is_leaf_swapped(store.table(), &leaf, &parent) {
        end_swapped(store, leaf, parent)?;
        return Ok(());
    }
    let name = Name::Leaf { leaf, parent };
    commit_where(store, true, Change::Remove { name })?;
    Ok(())
}

/// Where the leaf was renamed: the parent takes its name. An enlargement of the parent is undone before.
fn end_renamed<S: Store>(store: &mut S, leaf: Uuid, parent: Uuid) -> Result<(), Failed>
    requires usable { S.failed store.old ≡ false }
    requires allowed { AllMay (S.site store.old).count (table_alone (S.table store.old)) (renamed_changes (table_alone (S.table store.old)) leaf parent) }
    ensures part { MakesPart S.Store (renamed_changes (table_alone (S.table store.old)) leaf parent) store.old store.new }
    ensures all { OnOk result (MakesAll S.Store (renamed_changes (table_alone (S.table store.old)) leaf parent) store.old store.new) }
    ensures cause { Counts S.Store result store.old store.new }
{
    undo_parent(store, parent)?;
    rename_parent(store, leaf, parent)?;
    drop_leaf(store, leaf, parent)?;
    Ok(())
}

/// Where the parent has the leaf's name: it is shown where it is hidden.
fn end_swapped<S: Store>(store: &mut S, leaf: Uuid, parent: Uuid) -> Result<(), Failed>
    requires usable { S.failed store.old ≡ false }
    requires allowed { AllMay (S.site store.old).count (table_alone (S.table store.old)) (swapped_changes (table_alone (S.table store.old)) leaf parent) }
    ensures part { MakesPart S.Store (swapped_changes (table_alone (S.table store.old)) leaf parent) store.old store.new }
    ensures all { OnOk result (MakesAll S.Store (swapped_changes (table_alone (S.table store.old)) leaf parent) store.old store.new) }
    ensures cause { Counts S.Store result store.old store.new }
{
    let is_hidden = is_marked(store.table(), &Some(Name::Vhd(leaf)));
    let name = Name::Vhd(leaf);
    let shown = Change::Mark {
        name,
        tag: Tag::Hidden,
        on: false,
    };
    commit_where(store, is_hidden, shown)?;
    drop_leaf(store, leaf, parent)?;
    Ok(())
}

/// Undoes the enlargement of an image whose entry is there.
fn undo_parent<S: Store>(store: &mut S, parent: Uuid) -> Result<(), Failed>
    requires usable { S.failed store.old ≡ false }
    requires allowed { AllMay (S.site store.old).count (table_alone (S.table store.old)) (parent_changes (table_alone (S.table store.old)) parent (head (making (table_alone (S.table store.old))))) }
    ensures part { MakesPart S.Store (parent_changes (table_alone (S.table store.old)) parent (head (making (table_alone (S.table store.old))))) store.old store.new }
    ensures all { OnOk result (MakesAll S.Store (parent_changes (table_alone (S.table store.old)) parent (head (making (table_alone (S.table store.old))))) store.old store.new) }
    ensures cause { Counts S.Store result store.old store.new }
{
    let Some(entry) = entry_in(store.table()) else {
        return Ok(());
    };
    undo_of(store, &entry, parent)?;
    Ok(())
}

/// Undoes what an entry says, where it is that of the enlargement of this image.
fn undo_of<S: Store>(store: &mut S, entry: &Name, parent: Uuid) -> Result<(), Failed>
    requires usable { S.failed store.old ≡ false }
    requires allowed { AllMay (S.site store.old).count (table_alone (S.table store.old)) (parent_changes (table_alone (S.table store.old)) parent (Some entry.now)) }
    ensures part { MakesPart S.Store (parent_changes (table_alone (S.table store.old)) parent (Some entry.now)) store.old store.new }
    ensures all { OnOk result (MakesAll S.Store (parent_changes (table_alone (S.table store.old)) parent (Some entry.now)) store.old store.new) }
    ensures cause { Counts S.Store result store.old store.new }
{
    if let Name::Inflate { image, extents } = entry {
        if *image == parent {
            undo_enlargement(store, *image, *extents)?;
        }
    }
    Ok(())
}

/// The parent takes the leaf's name, and is shown.
fn rename_parent<S: Store>(store: &mut S, leaf: Uuid, parent: Uuid) -> Result<(), Failed>
    requires usable { S.failed store.old ≡ false }
    requires allowed { AllMay (S.site store.old).count (table_alone (S.table store.old)) (name_taken leaf parent) }
    ensures part { MakesPart S.Store (name_taken leaf parent) store.old store.new }
    ensures all { OnOk result (MakesAll S.Store (name_taken leaf parent) store.old store.new) }
    ensures cause { Counts S.Store result store.old store.new }
{
    let to = Name::Vhd(leaf);
    let from = Name::Vhd(parent);
    commit_where(store, true, Change::Rename { from, to })?;
    let name = Name::Vhd(leaf);
    let shown = Change::Mark {
        name,
        tag: Tag::Hidden,
        on: false,
    };
    commit_where(store, true, shown)?;
    Ok(())
}

/// The old leaf goes, and the entry.
fn drop_leaf<S: Store>(store: &mut S, leaf: Uuid, parent: Uuid) -> Result<(), Failed>
    requires usable { S.failed store.old ≡ false }
    requires allowed { AllMay (S.site store.old).count (table_alone (S.table store.old)) (leaf_gone leaf parent) }
    ensures part { MakesPart S.Store (leaf_gone leaf parent) store.old store.new }
    ensures all { OnOk result (MakesAll S.Store (leaf_gone leaf parent) store.old store.new) }
    ensures cause { Counts S.Store result store.old store.new }
{
    let name = Name::Old(leaf);
    commit_where(store, true, Change::Remove { name })?;
    let name = Name::Leaf { leaf, parent };
    commit_where(store, true, Change::Remove { name })?;
    Ok(())
}
