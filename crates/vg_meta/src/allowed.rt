//! Whether a change is allowed.

ghost use Rattle.std.specs.Prelude.{◌≡◌, ◌↔◌, IsTrue, is_some, nat_lt, length};
ghost use Rattle.vg_meta.specs.Tables.{Row, row_of, suits};
ghost use Rattle.vg_meta.specs.Roomy.{rows_alone};
ghost use Rattle.vg_meta.specs.Changes.{AllowsIn, AllowsCreate, AllowsRemove, AllowsRename, AllowsGrow, AllowsCut, AllowsMark, takes_tag};

use crate::changes::{Change, Tag};
use crate::free::are_free;
use crate::names::is_proper;
use crate::volumes::{Volume, named};
use sm_base::Name;

/// Whether the change is allowed, where extents are counted up to `count`.
pub fn is_allowed(volumes: &[Volume], change: &Change, count: u32) -> bool
    ensures { IsTrue result ↔ AllowsIn count (rows_alone volumes.now) change.now }
{
    match change {
        Change::Create {
            name,
            fresh,
            extents,
        } => { may_create(volumes, name, *fresh, extents.as_slice(), count) }
        Change::Remove { name } => may_remove(volumes, name),
        Change::Rename { from, to } => may_rename(volumes, from, to),
        Change::Grow { name, extents } => may_grow(volumes, name, extents.as_slice(), count),
        Change::Cut { name, keep } => may_cut(volumes, name, *keep),
        Change::Mark { name, tag, on } => may_mark(volumes, name, *tag, *on),
    }
}

/// Whether the marks and the number of extents suit the kind of the name.
pub fn suits_kind(name: &Name, hidden: bool, fresh: bool, extents: &[u32]) -> bool
    ensures { let r : Row = record { name = name.now; hidden = hidden; fresh = fresh; extents = extents.now } in result ≡ suits r }
{
    if name.is_image() {
        !extents.is_empty()
    } else if name.is_log() {
        !hidden && !extents.is_empty()
    } else {
        !hidden && !fresh && (!name.is_entry() || extents.is_empty())
    }
}

fn is_there(volumes: &[Volume], name: &Name) -> bool
    ensures { result ≡ is_some (row_of (rows_alone volumes.now) name.now) }
{
    named(volumes, name).is_some()
}

fn may_create(volumes: &[Volume], name: &Name, fresh: bool, extents: &[u32], count: u32) -> bool
    ensures { IsTrue result ↔ AllowsCreate count (rows_alone volumes.now) name.now fresh extents.now }
{
    is_proper(name)
        && !is_there(volumes, name)
        && *name != Name::Mgt
        && suits_kind(name, false, fresh, extents)
        && are_free(volumes, extents, count)
}

fn may_remove(volumes: &[Volume], name: &Name) -> bool
    ensures { IsTrue result ↔ AllowsRemove (rows_alone volumes.now) name.now }
{
    is_there(volumes, name) && *name != Name::Mgt
}

fn may_rename(volumes: &[Volume], from: &Name, to: &Name) -> bool
    ensures { IsTrue result ↔ AllowsRename (rows_alone volumes.now) from.now to.now }
{
    let both_images = from.is_image() && to.is_image();
    let both_entries = from.is_entry() && to.is_entry();
    is_there(volumes, from)
        && is_proper(to)
        && !is_there(volumes, to)
        && (both_images || both_entries)
}

fn may_grow(volumes: &[Volume], name: &Name, extents: &[u32], count: u32) -> bool
    ensures { IsTrue result ↔ AllowsGrow count (rows_alone volumes.now) name.now extents.now }
{
    is_there(volumes, name)
        && name.is_image()
        && !extents.is_empty()
        && are_free(volumes, extents, count)
}

fn may_cut(volumes: &[Volume], name: &Name, keep: u32) -> bool
    ensures { IsTrue result ↔ AllowsCut (rows_alone volumes.now) name.now keep }
{
    let Some(volume) = named(volumes, name) else {
        return false;
    };
    name.is_image() && keep > 0 && (keep as usize) < volume.extents().len()
}

// Whether a volume of this name may have the mark.
fn takes_tag(name: &Name, tag: Tag) -> bool
    ensures { result ≡ takes_tag tag name.now }
{
    match tag {
        Tag::Hidden => name.is_image(),
        Tag::Fresh => name.is_image() || name.is_log(),
    }
}

fn may_mark(volumes: &[Volume], name: &Name, tag: Tag, on: bool) -> bool
    ensures { IsTrue result ↔ AllowsMark (rows_alone volumes.now) name.now tag on }
{
    let Some(volume) = named(volumes, name) else {
        return false;
    };
    takes_tag(name, tag) && volume.has(tag) != on
}
