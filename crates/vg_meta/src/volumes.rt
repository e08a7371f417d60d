//! A volume of the group.

ghost use Rattle.std.specs.Prelude.{◌≡◌, ◌≤◌, ◌+◌, ◌-◌, ◌^◌, min, ◌↔◌, IsTrue, None, IfSome, IfNone, OnOk, OnErr, length, Bool, List};
ghost use Rattle.vg_meta.specs.Halves.{AreUpTo, IsInOrder};
ghost use Rattle.vg_meta.specs.Tables.{Row, row_of};
ghost use Rattle.vg_meta.specs.Roomy.{rows_alone, IsHeld, IsPlace};

use crate::changes::{Extents, Tag};
use sm_base::{Name, NoMemory};
use std::marker::Model;

/// A volume: its name, its marks and its extents, in order. `fresh` marks a volume that was made and is not
/// yet filled. A contract sees these four, and how many extents may be added without memory.
#[derive(Drop)]
pub struct Volume {
    name: Name,
    hidden: bool,
    fresh: bool,
    extents: Vec<u32>,
}

impl Model for Volume {
    ghost use Rattle.std.specs.Prelude.{◌-◌, vec_capacity, vec_len};
    ghost use Rattle.vg_meta.specs.Roomy.{RoomyRow};

    ghost Value = { RoomyRow };

    ghost view = { λ v. record { row = record { name = v.name; hidden = v.hidden; fresh = v.fresh; extents = v.extents.items }; spare = vec_capacity v.extents - vec_len v.extents } };
}

impl Volume {
    ghost use Rattle.vg_meta.specs.Changes.{made, grown, cut_to, renamed, tagged, has_tag};

    /// The name.
    pub fn name(&self) -> Name
        ensures name { result ≡ self.now.row.name }
    {
        self.name
    }

    /// Whether the volume is hidden: a base image that no disk is.
    pub fn is_hidden(&self) -> bool
        ensures hidden { result ≡ self.now.row.hidden }
    {
        self.hidden
    }

    /// Whether the volume was made and is not yet filled.
    pub fn is_fresh(&self) -> bool
        ensures fresh { result ≡ self.now.row.fresh }
    {
        self.fresh
    }

    /// The extents, in order.
    pub fn extents(&self) -> &[u32]
        ensures extents { result.now ≡ self.now.row.extents }
    {
        &self.extents
    }

    /// How many extents may be added without memory.
    pub fn spare(&self) -> usize
        ensures spare { result ≡ self.now.spare }
    {
        self.extents.capacity() - self.extents.len()
    }

    /// Whether this is the volume's name.
    pub fn is_named(&self, name: &Name) -> bool
        ensures named { IsTrue result ↔ (self.now.row.name ≡ name.now) }
    {
        self.name == *name
    }

    // A volume with these fields.
    pub(crate) fn new(name: Name, hidden: bool, fresh: bool, extents: Vec<u32>) -> Volume
        ensures { let r : Row = record { name = name; hidden = hidden; fresh = fresh; extents = extents.items } in result.row ≡ r }
    {
        Volume {
            name,
            hidden,
            fresh,
            extents,
        }
    }

    // A volume that a Create makes.
    pub(crate) fn made(name: Name, fresh: bool, extents: Extents) -> Volume
        ensures { result.row ≡ made name fresh extents }
    {
        Volume::new(name, false, fresh, extents.into_vec())
    }

    // Makes room for more extents.
    pub(crate) fn reserve(&mut self, more: usize) -> Result<(), NoMemory>
        ensures row { self.new.row ≡ self.old.row }
        ensures no_fewer { self.old.spare ≤ self.new.spare }
        ensures ok { OnOk result (more ≤ self.new.spare) }
        ensures err { OnErr result (self.new ≡ self.old) }
    {
        match self.extents.reserve(more) {
            Ok(()) => Ok(()),
            Err(_) => Err(NoMemory),
        }
    }

    // More extents at the end.
    pub(crate) fn grow(&mut self, extents: &[u32])
        requires { length extents.now ≤ self.old.spare }
        ensures row { self.new.row ≡ grown extents.now self.old.row }
        ensures spare { self.old.spare ≤ self.new.spare + length extents.now }
    {
        let _ = self.extents.extend_from_slice(extents);
    }

    // Only the first extents.
    pub(crate) fn cut(&mut self, keep: usize)
        ensures row { self.new.row ≡ cut_to keep self.old.row }
        ensures spare { self.old.spare ≤ self.new.spare }
    {
        self.extents.truncate(keep);
    }

    // A mark is set or taken away.
    pub(crate) fn mark(&mut self, tag: Tag, on: bool)
        ensures row { self.new.row ≡ tagged tag on self.old.row }
        ensures spare { self.new.spare ≡ self.old.spare }
    {
        match tag {
            Tag::Hidden => self.hidden = on,
            Tag::Fresh => self.fresh = on,
        }
    }

    // Whether a mark is set.
    pub(crate) fn has(&self, tag: Tag) -> bool
        ensures { result ≡ has_tag tag self.now.row }
    {
        match tag {
            Tag::Hidden => self.hidden,
            Tag::Fresh => self.fresh,
        }
    }

    // Another name.
    pub(crate) fn rename(&mut self, to: Name)
        ensures row { self.new.row ≡ renamed to self.old.row }
        ensures spare { self.new.spare ≡ self.old.spare }
    {
        self.name = to;
    }
}

/// The place of the first volume of this name.
pub fn place(volumes: &[Volume], name: &Name) -> Option<usize>
    ensures found { IfSome result (IsPlace volumes.now name.now) }
    ensures none { IfNone result (row_of (rows_alone volumes.now) name.now ≡ None) }
{
    for (at, volume) in volumes.iter().enumerate() {
        if volume.is_named(name) {
            return Some(at);
        }
    }
    None
}

/// How many volumes have names that are not behind this one, by halving. The volumes are in order of name.
fn count_up_to(volumes: &[Volume], name: &Name) -> usize
    requires rising { IsInOrder (λ v. v.row.name) volumes.now }
    ensures within { result ≤ length volumes.now }
    ensures up_to { AreUpTo (λ v. v.row.name) name.now volumes.now result }
{
    volumes.partition_point(|volume| !name.compare(&volume.name).is_lt())
}

/// The place of the volume of this name, by halving. The volumes are in order of name.
pub fn place_in_order(volumes: &[Volume], name: &Name) -> Option<usize>
    requires rising { IsInOrder (λ v. v.row.name) volumes.now }
    ensures found { IfSome result (IsPlace volumes.now name.now) }
    ensures none { IfNone result (row_of (rows_alone volumes.now) name.now ≡ None) }
{
    let count = count_up_to(volumes, name);
    if count == 0 {
        return None;
    }
    let last = count - 1;
    if volumes[last].is_named(name) {
        Some(last)
    } else {
        None
    }
}

/// The place of the volume of this name, sought at `near` and the place behind it before it is sought by halving. The volumes
/// are in order of name.
pub fn place_near(volumes: &[Volume], name: &Name, near: usize) -> Option<usize>
    requires rising { IsInOrder (λ v. v.row.name) volumes.now }
    ensures found { IfSome result (IsPlace volumes.now name.now) }
    ensures none { IfNone result (row_of (rows_alone volumes.now) name.now ≡ None) }
{
    for at in near..volumes.len().min(near.saturating_add(2)) {
        if volumes[at].is_named(name) {
            return Some(at);
        }
    }
    place_in_order(volumes, name)
}

/// The first volume of this name.
pub fn named<'a>(volumes: &'a [Volume], name: &Name) -> Option<&'a Volume>
    ensures found { IfSome result (λ v. IsHeld volumes.now name.now v.now) }
    ensures none { IfNone result (row_of (rows_alone volumes.now) name.now ≡ None) }
{
    let at = place(volumes, name)?;
    Some(&volumes[at])
}
