//! The length of the text of the volumes that a change would leave, while nothing is written. The cost is that of
//! going over the names at most three times.

ghost use Rattle.std.specs.Prelude.{◌≡◌, ◌+◌, ◌-◌, ◌^◌, min, length};
ghost use Rattle.vg_meta.specs.Roomy.{rows_alone};
ghost use Rattle.vg_meta.specs.Changes.{without, changed};
ghost use Rattle.vg_meta.specs.Text.{volume_text};
ghost use Rattle.vg_meta.specs.Writing.{volumes_text};

use crate::changes::Change;
use crate::encoding::volumes_length;
use crate::entries::Entry;
use crate::volumes::{Volume, named, place};
use sm_base::Name;

/// The length of the texts of the volumes that a change leaves in bytes, or the greatest `usize` where it passes
/// that.
pub fn changed_length(volumes: &[Volume], change: &Change) -> usize
    ensures { result ≡ min (length (volumes_text (changed (rows_alone volumes.now) change.now))) (2 ^ 64 - 1) }
{
    match change {
        Change::Create {
            name,
            fresh,
            extents,
        } => {
            let entry = Entry::made(*name, *fresh, extents.as_slice());
            volumes_length(volumes).saturating_add(entry.text_length())
        }
        Change::Remove { name } => length_without(volumes, name),
        Change::Rename { from, to } => match named(volumes, from) {
            Some(volume) => length_with(volumes, from, &Entry::renamed(volume, *to)),
            None => volumes_length(volumes),
        },
        Change::Grow { name, extents } => match named(volumes, name) {
            Some(volume) => length_with(volumes, name, &Entry::grown(volume, extents.as_slice())),
            None => volumes_length(volumes),
        },
        Change::Cut { name, keep } => match named(volumes, name) {
            Some(volume) => length_with(volumes, name, &Entry::cut(volume, *keep as usize)),
            None => volumes_length(volumes),
        },
        Change::Mark { name, tag, on } => match named(volumes, name) {
            Some(volume) => length_with(volumes, name, &Entry::marked(volume, *tag, *on)),
            None => volumes_length(volumes),
        },
    }
}

// The length of the texts of the volumes without the first of a name.
fn length_without(volumes: &[Volume], name: &Name) -> usize
    ensures { result ≡ min (length (volumes_text (without name.now (rows_alone volumes.now)))) (2 ^ 64 - 1) }
{
    let Some(index) = place(volumes, name) else {
        return volumes_length(volumes);
    };
    let (front, _) = volumes.split_at(index);
    let (_, back) = volumes.split_at(index + 1);
    volumes_length(front).saturating_add(volumes_length(back))
}

// The same with another volume in its stead.
fn length_with(volumes: &[Volume], name: &Name, entry: &Entry) -> usize
    ensures { result ≡ min (length (volumes_text (without name.now (rows_alone volumes.now))) + length (volume_text entry.now)) (2 ^ 64 - 1) }
{
    length_without(volumes, name).saturating_add(entry.text_length())
}
