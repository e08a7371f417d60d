//! Changes of a volume group's table that a case commits by hand.

ghost use Rattle.std.specs.Prelude.{◌≡◌, false, IfOk, OnOk};
ghost use Rattle.vg_meta.specs.Roomy.{table_alone};
ghost use Rattle.vg_meta.specs.Changes.{Permits, HasRoom};
ghost use Rattle.vg_volumes.specs.Commits.{current_version};
ghost use Rattle.vg_volumes.specs.Sites.{Fits};
ghost use Rattle.vg_volumes.specs.Stored.{CanCommit};

use crate::devices::Device;
use case_text::Commit;
use case_words::{Wrong, found, numbers_of};
use sm_base::Name;
use sm_disk::MemDisk;
use sm_span::Span;
use std::alloc::Global;
use vg_meta::{Change, Extents, Tag};
use vg_store::Group;
use vg_volumes::{CURRENT_VERSION, Store};

/// The group on a device.
pub fn opened(alloc: Global, device: Device) -> Result<Group<Span<MemDisk, MemDisk>>, Wrong>
    ensures { IfOk result (λ g. g.version ≡ current_version → g.failed ≡ false) }
{
    match Group::open(alloc, device.span(alloc)?) {
        Ok(group) => Ok(group),
        Err((_fault, _disk)) => Err(found(alloc, "a group that does not open")),
    }
}

/// The name that is spelled so.
pub fn name_of(alloc: Global, text: &str) -> Result<Name, Wrong> {
    match Name::read(text.as_bytes()) {
        Some(name) => Ok(name),
        None => Err(found(alloc, "no name of a volume")),
    }
}

/// The change that makes a volume on these extents; a fresh one is marked as new.
fn made(alloc: Global, text: &str, fresh: bool, extents: Vec<u32>) -> Result<Change, Wrong> {
    Ok(Change::Create {
        name: name_of(alloc, text)?,
        fresh,
        extents: Extents::new(extents),
    })
}

/// The change that gives an image a mark, or takes it.
fn marked(alloc: Global, text: &str, tag: Tag, on: bool) -> Result<Change, Wrong> {
    Ok(Change::Mark {
        name: name_of(alloc, text)?,
        tag,
        on,
    })
}

/// The change that gives an image more extents.
fn grown(alloc: Global, text: &str, extents: &str) -> Result<Change, Wrong> {
    Ok(Change::Grow {
        name: name_of(alloc, text)?,
        extents: Extents::new(numbers_of(alloc, extents)?),
    })
}

/// The change that a case commits.
fn change_of(alloc: Global, commit: Commit<'_>) -> Result<Change, Wrong> {
    match commit {
        Commit::Put(entry) => made(alloc, entry, false, Vec::new(alloc)),
        Commit::Make { image, extents, .. } => {
            made(alloc, image, true, numbers_of(alloc, extents)?)
        }
        Commit::Rename { from, to } => Ok(Change::Rename {
            from: name_of(alloc, from)?,
            to: name_of(alloc, to)?,
        }),
        Commit::Hide(image) => marked(alloc, image, Tag::Hidden, true),
        Commit::Show(image) => marked(alloc, image, Tag::Hidden, false),
        Commit::Remove(volume) => Ok(Change::Remove {
            name: name_of(alloc, volume)?,
        }),
        Commit::Grow { image, extents } => grown(alloc, image, extents),
    }
}

/// Makes room for a change, and tests that a commit may do it.
fn prepare<S: Store>(alloc: Global, store: &mut S, change: &Change) -> Result<(), Wrong>
    ensures usable { S.failed store.new ≡ S.failed store.old }
    ensures allowed { OnOk result (Permits (S.site store.new).count (table_alone (S.table store.new)) change.now) }
    ensures room { OnOk result (HasRoom (S.table store.new) change.now) }
    ensures fits { OnOk result (Fits (S.site store.new).count (table_alone (S.table store.new)) change.now) }
    ensures can { OnOk result (S.failed store.old ≡ false → CanCommit S.Store change.now store.new) }
{
    store.reserve_for(change)?;
    if !store.is_ready(change) {
        return Err(found(alloc, "a commit that is not allowed"));
    }
    Ok(())
}

/// Does a change, where it may be done.
fn commit<S: Store>(alloc: Global, store: &mut S, change: Change) -> Result<(), Wrong>
    requires { S.version store.old ≡ current_version → S.failed store.old ≡ false }
{
    if store.version() != CURRENT_VERSION {
        return Err(found(alloc, "a commit in a group of an earlier version"));
    }
    prepare(alloc, store, &change)?;
    store.commit(change)?;
    Ok(())
}

/// Does a change of the group on a device.
fn changed(alloc: Global, device: Device, change: Change) -> Result<Device, Wrong> {
    let mut group = opened(alloc, device)?;
    let done = commit(alloc, &mut group, change);
    let device = Device::of(group.into_disk());
    done?;
    Ok(device)
}

/// What is left of a device at least once a change was committed on it. Nothing is pending on it, and no call was counted.
pub fn committed(alloc: Global, device: &Device, commit: Commit<'_>) -> Result<Device, Wrong> {
    let change = change_of(alloc, commit)?;
    let mut device = changed(alloc, device.copy(alloc)?, change)?;
    if let Commit::Make {
        image,
        stands: true,
        ..
    } = commit
    {
        let change = marked(alloc, image, Tag::Fresh, false)?;
        device = changed(alloc, device, change)?;
    }
    device.copy(alloc)
}
