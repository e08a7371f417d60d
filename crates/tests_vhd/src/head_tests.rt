//! The head of an image: read, linked to a parent, resized, ended and renamed.

ghost use Rattle.std.specs.Prelude.{◌≡◌, false, IfOk, OnOk};

use crate::fixtures::{add, volume};
use crate::heads::{end, make_child, opening_fault, put_raw, raw_sector, set_parent, set_size};
use crate::images::{make, opened as image_in, own};
use crate::making_tests::{compare_but, spoil};
use crate::runs::{Work, run};
use crate::sectors::{
    CHILD_UID, UID, child_footer, child_header, footer, relinked_header, sized_footer, stale,
};
use crate::trees::plant;
use crate::volumes::put;
use sm_base::{Name, OpenFault, Place};
use std::alloc::Global;
use std::test::Fail;
use tests_support::{DEVICE_SECTORS, formatted, holds};
use uuid::Uuid;
use vg_volumes::Store;
use vhd_image::Image;

/// Makes two volumes of 160 sectors of stale bytes, and an image of 128 sectors in the first.
fn prepare<S: Store>(alloc: Global, store: &mut S) -> Result<(), Fail>
    requires { S.failed store.old ≡ false }
    ensures { OnOk result (S.failed store.new ≡ false) }
{
    let name = volume(1);
    add(alloc, store, &name, &[31, 30, 20, 40, 17])?;
    add(alloc, store, &volume(2), &[50, 51, 52, 53, 54])?;
    spoil(store, &name)?;
    spoil(store, &volume(2))?;
    let _image = make(alloc, store, &name, UID, 128)?;
    Ok(())
}

/// Whether the image in a volume has the parent, and is found under its name.
fn has_parent<S: Store>(
    alloc: Global,
    store: &mut S,
    name: &Name,
    parent: Option<Name>,
) -> Result<bool, Fail>
    ensures flag { S.failed store.new ≡ S.failed store.old }
{
    let image = image_in(alloc, store, name)?;
    Ok(image.sectors() == 128 && image.name() == *name && image.parent() == parent)
}

/// Writes zeros into a sector of a volume.
fn zero<S: Store>(store: &mut S, name: &Name, at: u64) -> Result<(), Fail>
    ensures flag { S.failed store.new ≡ S.failed store.old }
{
    put(store, name, at, &[0; 512])??;
    Ok(())
}

/// Zeros the footer and then its copy, and opens each time.
pub fn lose_footers<S: Store>(alloc: Global, store: &mut S) -> Result<(), Fail>
    requires { S.failed store.old ≡ false }
{
    prepare(alloc, store)?;
    let name = volume(1);
    holds(has_parent(alloc, store, &name, None)?, "the image is found")?;
    zero(store, &name, 159)?;
    holds(has_parent(alloc, store, &name, None)?, "the copy is used")?;
    zero(store, &name, 0)?;
    let damaged = OpenFault::Damaged {
        place: Place::Image { name },
    };
    holds(
        opening_fault(alloc, store, &name)? == Some(damaged),
        "no footer",
    )
}

/// Makes a child, and gives it another parent.
pub fn link<S: Store>(alloc: Global, store: &mut S) -> Result<(), Fail>
    requires told { ¬ S.told }
    requires usable { S.failed store.old ≡ false }
{
    prepare(alloc, store)?;
    let [parent, child] = [volume(1), volume(2)];
    let named = make_child(alloc, store, &child, CHILD_UID, &parent)?;
    holds(named == Some(parent), "the parent in memory")?;
    compare_but(store, &child, 1, &child_header(), &child_footer())?;
    plant(alloc, store, &parent, &child)?;
    let other = Name::Raw(Uuid::from_bytes([0x22; 16]));
    let named = set_parent(alloc, store, &child, &other)?;
    holds(named == Some(other), "the other parent in memory")?;
    compare_but(store, &child, 1, &relinked_header(), &child_footer())?;
    holds(
        has_parent(alloc, store, &child, Some(other))?,
        "the other parent is read",
    )
}

/// Makes a disk larger by a block.
pub fn enlarge<S: Store>(alloc: Global, store: &mut S) -> Result<(), Fail>
    requires told { ¬ S.told }
    requires usable { S.failed store.old ≡ false }
{
    prepare(alloc, store)?;
    let name = volume(1);
    holds(
        set_size(alloc, store, &name, 136)? == 136,
        "the new size in memory",
    )?;
    compare_but(store, &name, 0, &sized_footer(), &sized_footer())?;
    for at in 128..136 {
        holds(
            own(alloc, store, &name, at)?.is_none(),
            "new sectors are not held",
        )?;
    }
    Ok(())
}

/// Ends an image in three of five extents.
pub fn end_sooner<S: Store>(alloc: Global, store: &mut S) -> Result<(), Fail>
    requires told { ¬ S.told }
    requires usable { S.failed store.old ≡ false }
{
    prepare(alloc, store)?;
    let name = volume(1);
    end(alloc, store, &name, 3)?;
    compare_but(store, &name, 95, &footer(), &footer())
}

/// Takes a volume as a raw image.
pub fn use_raw<S: Store>(alloc: Global, store: &mut S) -> Result<(), Fail>
    requires told { ¬ S.told }
    requires usable { S.failed store.old ≡ false }
{
    prepare(alloc, store)?;
    let name = volume(2);
    put_raw(store, &name, 7, &[0x66; 512])?;
    holds(
        raw_sector(store, &name, 7)? == Some([0x66; 512]),
        "the sector that was written",
    )?;
    holds(
        raw_sector(store, &name, 8)? == Some(stale(8)),
        "the sector behind it",
    )
}

#[test]
fn an_image_is_found_linked_enlarged_ended_and_raw(rt: HostRuntime) -> Result<(), Fail> {
    for work in [
        Work::LoseFooters,
        Work::Link,
        Work::Enlarge,
        Work::EndSooner,
        Work::UseRaw,
        Work::Make,
    ] {
        run(rt.alloc(), formatted(rt.alloc(), DEVICE_SECTORS)?, work)?;
    }
    Ok(())
}

/// Whether an image is the raw one of 160 sectors in this volume.
fn is_raw_in(image: &Image, name: &Name) -> bool {
    image.name() == *name
        && image.sectors() == 160
        && image.parent().is_none()
        && image.map().is_none()
        && image.top() == 0
}

#[test]
fn an_image_is_renamed_in_memory(rt: HostRuntime) {
    let mut image = Image::raw(&volume(1), 160);
    image.renamed(volume(2));
    assert!(rt; is_raw_in(&image, &volume(2)));
}
