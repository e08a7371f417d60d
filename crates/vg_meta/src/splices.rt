//! Writing the text of the volumes that a change would leave, while the volumes stay as they are.
//!
//! The changed list is written in pieces: the volumes in front of the one that comes, goes or changes, that one,
//! and those behind it. A change of name has two such places. Nothing takes memory: the text is put into bytes that
//! are there, and all beside it stays.

ghost use Rattle.std.specs.Prelude.{◌≡◌, ◌<◌, ◌+◌, ◌^◌, ◌++◌, ◌∷◌, take, drop, IsSome, length};
ghost use Rattle.vg_meta.specs.Tables.{row_of};
ghost use Rattle.vg_meta.specs.Roomy.{rows_alone};
ghost use Rattle.vg_meta.specs.Changes.{put, without, with_row, put_some, renamed, grown, cut_to, tagged, changed, AllowsIn, raised as raised_of};
ghost use Rattle.vg_meta.specs.Writing.{WritesText, HaveRoom, volumes_by};

use crate::changes::{Change, Tag};
use crate::edits::slot;
use crate::encoding::{put_entry, put_volumes};
use crate::entries::Entry;
use crate::grammars::Grammar;
use crate::volumes::{Volume, place};
use sm_base::{LAST_SEQUENCE, Name};

/// The sequence number that a change leaves.
pub fn raised(sequence: u64) -> u64
    ensures { result ≡ raised_of sequence }
{
    if sequence < LAST_SEQUENCE {
        sequence + 1
    } else {
        LAST_SEQUENCE
    }
}

/// The number of volumes that a change leaves.
pub fn changed_count(volumes: &[Volume], change: &Change) -> usize
    requires allowed { AllowsIn (2 ^ 32) (rows_alone volumes.now) change.now }
    requires few { length (changed (rows_alone volumes.now) change.now) < 2 ^ 32 }
    ensures { result ≡ length (changed (rows_alone volumes.now) change.now) }
{
    match change {
        Change::Create { .. } => volumes.len() + 1,
        Change::Remove { .. } => volumes.len() - 1,
        Change::Rename { .. } | Change::Grow { .. } | Change::Cut { .. } | Change::Mark { .. } => {
            volumes.len()
        }
    }
}

/// Writes the volumes that a change leaves at a place, and answers the place behind them. It takes no memory.
pub fn put_changed(
    to: &mut [u8],
    at: usize,
    grammar: Grammar,
    volumes: &[Volume],
    change: &Change,
) -> usize
    requires allowed { AllowsIn (2 ^ 32) (rows_alone volumes.now) change.now }
    requires room { HaveRoom grammar (changed (rows_alone volumes.now) change.now) at (length to.old) }
    ensures { WritesText at (volumes_by grammar (changed (rows_alone volumes.now) change.now)) to.old to.new result }
{
    match change {
        Change::Create {
            name,
            fresh,
            extents,
        } => {
            let entry = Entry::made(*name, *fresh, extents.as_slice());
            put_created(to, at, grammar, volumes, &entry)
        }
        Change::Remove { name } => put_removed(to, at, grammar, volumes, name),
        Change::Rename { from, to: other } => put_renamed(to, at, grammar, volumes, from, other),
        Change::Grow { name, extents } => put_grown(
            to,
            at,
            grammar,
            volumes,
            name,
            extents.as_slice(),
        ),
        Change::Cut { name, keep } => put_cut(to, at, grammar, volumes, name, *keep as usize),
        Change::Mark { name, tag, on } => put_marked(to, at, grammar, volumes, name, *tag, *on),
    }
}

// Writes a volume between others.
fn put_between(
    to: &mut [u8],
    at: usize,
    grammar: Grammar,
    front: &[Volume],
    entry: &Entry,
    back: &[Volume],
) -> usize
    requires { HaveRoom grammar (rows_alone front.now ++ entry.now ∷ rows_alone back.now) at (length to.old) }
    ensures { WritesText at (volumes_by grammar (rows_alone front.now ++ entry.now ∷ rows_alone back.now)) to.old to.new result }
{
    let entry_at = put_volumes(to, at, grammar, front);
    let back_at = put_entry(to, entry_at, grammar, entry);
    put_volumes(to, back_at, grammar, back)
}

// Writes a volume in the stead of the one at an index.
fn put_in_stead(
    to: &mut [u8],
    at: usize,
    grammar: Grammar,
    volumes: &[Volume],
    index: usize,
    entry: &Entry,
) -> usize
    requires within { index < length volumes.now }
    requires room { HaveRoom grammar (rows_alone (take index volumes.now) ++ entry.now ∷ rows_alone (drop (index + 1) volumes.now)) at (length to.old) }
    ensures { WritesText at (volumes_by grammar (rows_alone (take index volumes.now) ++ entry.now ∷ rows_alone (drop (index + 1) volumes.now))) to.old to.new result }
{
    let (front, _) = volumes.split_at(index);
    let (_, back) = volumes.split_at(index + 1);
    put_between(to, at, grammar, front, entry, back)
}

// Writes the volumes with one more, in order of name.
fn put_created(
    to: &mut [u8],
    at: usize,
    grammar: Grammar,
    volumes: &[Volume],
    entry: &Entry,
) -> usize
    requires { HaveRoom grammar (put entry.now (rows_alone volumes.now)) at (length to.old) }
    ensures { WritesText at (volumes_by grammar (put entry.now (rows_alone volumes.now))) to.old to.new result }
{
    let (front, back) = volumes.split_at(slot(volumes, &entry.name()));
    put_between(to, at, grammar, front, entry, back)
}

// Writes the volumes without one.
fn put_removed(to: &mut [u8], at: usize, grammar: Grammar, volumes: &[Volume], name: &Name) -> usize
    requires there { IsSome (row_of (rows_alone volumes.now) name.now) }
    requires room { HaveRoom grammar (without name.now (rows_alone volumes.now)) at (length to.old) }
    ensures { WritesText at (volumes_by grammar (without name.now (rows_alone volumes.now))) to.old to.new result }
{
    let Some(index) = place(volumes, name) else {
        unreachable!()
    };
    let (front, _) = volumes.split_at(index);
    let (_, back) = volumes.split_at(index + 1);
    let back_at = put_volumes(to, at, grammar, front);
    put_volumes(to, back_at, grammar, back)
}

// Writes the volumes with one under another name, in order of name.
fn put_renamed(
    to: &mut [u8],
    at: usize,
    grammar: Grammar,
    volumes: &[Volume],
    from: &Name,
    other: &Name,
) -> usize
    requires there { IsSome (row_of (rows_alone volumes.now) from.now) }
    requires room { HaveRoom grammar (put_some (row_of (rows_alone volumes.now) from.now) (renamed other.now) (without from.now (rows_alone volumes.now))) at (length to.old) }
    ensures { WritesText at (volumes_by grammar (put_some (row_of (rows_alone volumes.now) from.now) (renamed other.now) (without from.now (rows_alone volumes.now)))) to.old to.new result }
{
    let Some(index) = place(volumes, from) else {
        unreachable!()
    };
    let (front, _) = volumes.split_at(index);
    let (_, back) = volumes.split_at(index + 1);
    let entry = Entry::renamed(&volumes[index], *other);
    let in_front = slot(front, other);
    if in_front < front.len() {
        let back_at = put_created(to, at, grammar, front, &entry);
        put_volumes(to, back_at, grammar, back)
    } else {
        let back_at = put_volumes(to, at, grammar, front);
        put_created(to, back_at, grammar, back, &entry)
    }
}

// Writes the volumes with more extents at the end of one.
fn put_grown(
    to: &mut [u8],
    at: usize,
    grammar: Grammar,
    volumes: &[Volume],
    name: &Name,
    extents: &[u32],
) -> usize
    requires there { IsSome (row_of (rows_alone volumes.now) name.now) }
    requires room { HaveRoom grammar (with_row name.now (grown extents.now) (rows_alone volumes.now)) at (length to.old) }
    ensures { WritesText at (volumes_by grammar (with_row name.now (grown extents.now) (rows_alone volumes.now))) to.old to.new result }
{
    let Some(index) = place(volumes, name) else {
        unreachable!()
    };
    let entry = Entry::grown(&volumes[index], extents);
    put_in_stead(to, at, grammar, volumes, index, &entry)
}

// Writes the volumes with only the first extents of one.
fn put_cut(
    to: &mut [u8],
    at: usize,
    grammar: Grammar,
    volumes: &[Volume],
    name: &Name,
    keep: usize,
) -> usize
    requires there { IsSome (row_of (rows_alone volumes.now) name.now) }
    requires room { HaveRoom grammar (with_row name.now (cut_to keep) (rows_alone volumes.now)) at (length to.old) }
    ensures { WritesText at (volumes_by grammar (with_row name.now (cut_to keep) (rows_alone volumes.now))) to.old to.new result }
{
    let Some(index) = place(volumes, name) else {
        unreachable!()
    };
    let entry = Entry::cut(&volumes[index], keep);
    put_in_stead(to, at, grammar, volumes, index, &entry)
}

// Writes the volumes with a mark of one set or taken away.
fn put_marked(
    to: &mut [u8],
    at: usize,
    grammar: Grammar,
    volumes: &[Volume],
    name: &Name,
    tag: Tag,
    on: bool,
) -> usize
    requires there { IsSome (row_of (rows_alone volumes.now) name.now) }
    requires room { HaveRoom grammar (with_row name.now (tagged tag on) (rows_alone volumes.now)) at (length to.old) }
    ensures { WritesText at (volumes_by grammar (with_row name.now (tagged tag on) (rows_alone volumes.now))) to.old to.new result }
{
    let Some(index) = place(volumes, name) else {
        unreachable!()
    };
    let entry = Entry::marked(&volumes[index], tag, on);
    put_in_stead(to, at, grammar, volumes, index, &entry)
}
