//! A volume as it is to be written.

ghost use Rattle.std.specs.Prelude.{◌≡◌, ◌-◌, ◌^◌, ◌++◌, min, length};
ghost use Rattle.vg_meta.specs.Text.{volume_text};
ghost use Rattle.vg_meta.specs.Changes.{made, grown, cut_to, renamed, tagged};

use crate::changes::Tag;
use crate::segments::count_segments;
use crate::volumes::Volume;
use sm_base::Name;
use std::marker::Model;

/// A volume as it is to be written: its extents stand in two slices, one behind the other. A contract sees the
/// volume.
#[derive(Drop)]
pub struct Entry<'a> {
    name: Name,
    hidden: bool,
    fresh: bool,
    extents: &'a [u32],
    more: &'a [u32],
}

impl<'a> Model for Entry<'a> {
    ghost use Rattle.std.specs.Prelude.{◌++◌};
    ghost use Rattle.vg_meta.specs.Tables.{Row};

    ghost Value = { Row };

    ghost view = { λ e. record { name = e.name; hidden = e.hidden; fresh = e.fresh; extents = e.extents.now ++ e.more.now } };
}

impl<'a> Entry<'a> {
    /// A volume that is there.
    pub fn of(volume: &'a Volume) -> Entry<'a>
        ensures { result ≡ volume.now.row }
    {
        Entry::grown(volume, &[])
    }

    /// A volume that a Create makes.
    pub fn made(name: Name, fresh: bool, extents: &'a [u32]) -> Entry<'a>
        ensures { result ≡ made name fresh extents.now }
    {
        Entry {
            name,
            hidden: false,
            fresh,
            extents,
            more: &[],
        }
    }

    /// The volume under another name.
    pub fn renamed(volume: &'a Volume, to: Name) -> Entry<'a>
        ensures { result ≡ renamed to volume.now.row }
    {
        Entry {
            name: to,
            ..Entry::of(volume)
        }
    }

    /// The volume with more extents at its end.
    pub fn grown(volume: &'a Volume, more: &'a [u32]) -> Entry<'a>
        ensures { result ≡ grown more.now volume.now.row }
    {
        Entry {
            name: volume.name(),
            hidden: volume.is_hidden(),
            fresh: volume.is_fresh(),
            extents: volume.extents(),
            more,
        }
    }

    /// The volume with only its first extents.
    pub fn cut(volume: &'a Volume, keep: usize) -> Entry<'a>
        ensures { result ≡ cut_to keep volume.now.row }
    {
        let all = volume.extents();
        let (extents, _) = all.split_at(all.len().min(keep));
        Entry {
            name: volume.name(),
            hidden: volume.is_hidden(),
            fresh: volume.is_fresh(),
            extents,
            more: &[],
        }
    }

    /// The volume with a mark set or taken away.
    pub fn marked(volume: &'a Volume, tag: Tag, on: bool) -> Entry<'a>
        ensures { result ≡ tagged tag on volume.now.row }
    {
        let entry = Entry::of(volume);
        match tag {
            Tag::Hidden => Entry {
                hidden: on,
                ..entry
            },
            Tag::Fresh => Entry { fresh: on, ..entry },
        }
    }

    /// The name.
    pub fn name(&self) -> Name
        ensures { result ≡ self.now.name }
    {
        self.name
    }

    /// Whether the volume is hidden.
    pub fn is_hidden(&self) -> bool
        ensures { result ≡ self.now.hidden }
    {
        self.hidden
    }

    /// Whether the volume was made and is not yet filled.
    pub fn is_fresh(&self) -> bool
        ensures { result ≡ self.now.fresh }
    {
        self.fresh
    }

    /// The length of the volume's text in bytes, or the greatest `usize` where it passes that.
    pub fn text_length(&self) -> usize
        ensures { result ≡ min (length (volume_text self.now)) (2 ^ 64 - 1) }
    {
        let mut name = [0; 128];
        let size = self.name.spell(&mut name);
        let segments = count_segments(self.extents, self.more);
        segments.saturating_mul(8).saturating_add(size + 6)
    }

    /// The extents, in two slices.
    pub fn extents(&self) -> (&'a [u32], &'a [u32])
        ensures { result.0.now ++ result.1.now ≡ self.now.extents }
    {
        (self.extents, self.more)
    }
}
