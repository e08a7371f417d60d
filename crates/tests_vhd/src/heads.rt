//! Changes of the head of an image in a volume of a store whose content no clause tells.

ghost use Rattle.std.specs.Prelude.{◌≡◌, false, ◌<◌, ◌≤◌, ◌*◌, Some, IfOk, OnOk};
ghost use Rattle.std.specs.Bool.{OnTrue};
ghost use Rattle.sm_base.specs.Names.{IsName};
ghost use Rattle.vhd_fields.specs.ParentNames.{IsParent};
ghost use Rattle.vg_volumes.specs.Stored.{stored, sectors_in};
ghost use Rattle.vhd_image.specs.Bodies.{IsVhd, StandsIn, volume_name};
ghost use Rattle.vhd_image.specs.Made.{MayHave};

use crate::images::{is_size, opened, own_of};
use crate::volumes::{extents_of, sectors_in};
use sm_base::{Name, OpenFault};
use std::alloc::Global;
use std::test::Fail;
use uuid::Uuid;
use vg_volumes::Store;
use vhd_image::Image;
use vhd_map::Map;
use vhd_write::Payload;

/// Why the image in a volume is not opened, if it is not.
pub fn opening_fault<S: Store>(
    alloc: Global,
    store: &mut S,
    name: &Name,
) -> Result<Option<OpenFault>, Fail> {
    let extents = extents_of(store, name)?;
    if extents == 0 {
        return Err(Fail::from("a volume with extents"));
    }
    match Image::open(alloc, store, name, extents) {
        Ok(_image) => Ok(None),
        Err(fault) => Ok(Some(fault)),
    }
}

/// Whether a name is spelled as names are.
pub fn is_name(name: &Name) -> bool
    ensures { OnTrue result (IsName name.now) }
{
    let mut text = [0; 128];
    let length = name.spell(&mut text);
    Name::read(&text[..length]) == Some(*name)
}

/// Whether a name is that of a VHD image or a raw one, spelled as names are.
#[tactic(auto, unfolding(vhd_fields::specs::ParentNames::IsParent))]
fn is_parent(name: &Name) -> bool
    ensures { OnTrue result (IsParent (Some name.now)) }
{
    match name {
        Name::Vhd(_) | Name::Raw(_) => is_name(name),
        Name::Mgt
        | Name::Old(_)
        | Name::Cbt(_)
        | Name::Clone { .. }
        | Name::Inflate { .. }
        | Name::Coalesce { .. }
        | Name::Relink { .. }
        | Name::Leaf { .. } => false,
    }
}

/// Whether an image may be the parent of one of 128 sectors.
fn may_be_parent(parent: &Image) -> bool
    ensures { OnTrue result (MayHave 128 parent.now) }
{
    is_parent(&parent.name()) && parent.sectors() <= 128
}

/// Makes an image of 128 sectors with this parent, at the time 0, and answers which parent it has in memory.
fn make_with<S: Store>(
    alloc: Global,
    store: &mut S,
    name: &Name,
    uid: [u8; 16],
    parent: &Image,
) -> Result<Option<Name>, Fail>
    ensures flag { S.failed store.new ≡ S.failed store.old }
{
    let geometry = store.geometry();
    if sectors_in(store, name)? <= geometry.first()
        || !may_be_parent(parent)
        || !is_size(&geometry, 128)
    {
        return Err(Fail::from("a parent that is no larger, and room"));
    }
    let map = Map::blank(alloc, geometry.entries)?;
    let image = Image::make(
        store,
        name,
        map,
        Uuid::from_bytes(uid),
        128,
        Some(parent),
        0,
    )?;
    Ok(image.parent())
}

/// Makes an image of 128 sectors whose parent is the image in another volume, at the time 0, and answers which parent
/// it has in memory.
pub fn make_child<S: Store>(
    alloc: Global,
    store: &mut S,
    name: &Name,
    uid: [u8; 16],
    parent: &Name,
) -> Result<Option<Name>, Fail>
    ensures flag { S.failed store.new ≡ S.failed store.old }
{
    let parent = opened(alloc, store, parent)?;
    make_with(alloc, store, name, uid, &parent)
}

/// Gives an image the raw parent of 128 sectors in this volume, and answers which parent it has in memory.
fn relink<S: Store>(store: &mut S, image: &mut Image, to: &Name) -> Result<Option<Name>, Fail>
    requires told { ¬ S.told }
    requires vhd { IsVhd image.old }
    requires stands { StandsIn (S.site store.old).geometry
        (sectors_in (stored S.Store store.old) (volume_name image.old)) image.old }
{
    if image.parent().is_none() || !is_parent(to) {
        return Err(Fail::from("a child and a parent"));
    }
    let parent = Image::raw(to, 128);
    image.set_parent(store, &parent)?;
    Ok(image.parent())
}

/// Gives the image in a volume a raw parent of 128 sectors, and answers which parent it has in memory.
pub fn set_parent<S: Store>(
    alloc: Global,
    store: &mut S,
    name: &Name,
    to: &Name,
) -> Result<Option<Name>, Fail>
    requires { ¬ S.told }
{
    let mut image = opened(alloc, store, name)?;
    relink(store, &mut image, to)
}

/// Makes the disk of an image larger, and answers its size in memory, in sectors.
fn resize<S: Store>(store: &mut S, image: &mut Image, sectors: u64) -> Result<u64, Fail>
    requires told { ¬ S.told }
    requires vhd { IsVhd image.old }
    requires stands { StandsIn (S.site store.old).geometry
        (sectors_in (stored S.Store store.old) (volume_name image.old)) image.old }
{
    if image.sectors() > sectors || !is_size(&store.geometry(), sectors) {
        return Err(Fail::from("a larger size of whole blocks"));
    }
    image.set_size(store, sectors)?;
    Ok(image.sectors())
}

/// Makes the disk of the image in a volume larger, and answers its size in memory, in sectors.
pub fn set_size<S: Store>(
    alloc: Global,
    store: &mut S,
    name: &Name,
    sectors: u64,
) -> Result<u64, Fail>
    requires { ¬ S.told }
{
    let mut image = opened(alloc, store, name)?;
    resize(store, &mut image, sectors)
}

/// Writes the footer of an image without slots where it is to end.
fn end_in<S: Store>(store: &mut S, image: &Image, extents: u32) -> Result<(), Fail>
    requires told { ¬ S.told }
    requires vhd { IsVhd image.now }
{
    let geometry = store.geometry();
    let sectors = u64::from(extents) * u64::from(geometry.extent);
    if sectors > sectors_in(store, &image.name())?
        || image.top() != 0
        || sectors <= geometry.first()
    {
        return Err(Fail::from("extents with room for an image without slots"));
    }
    image.end(store, extents)?;
    Ok(())
}

/// Writes the footer of the image in a volume where it is to end.
pub fn end<S: Store>(alloc: Global, store: &mut S, name: &Name, extents: u32) -> Result<(), Fail>
    requires { ¬ S.told }
{
    let image = opened(alloc, store, name)?;
    end_in(store, &image, extents)
}

/// A sector of the raw image that is a whole volume.
pub fn raw_sector<S: Store>(store: &mut S, name: &Name, at: u64) -> Result<Option<[u8; 512]>, Fail>
    requires { ¬ S.told }
{
    let image = Image::raw(name, sectors_in(store, name)?);
    own_of(store, &image, at)
}

/// Writes a sector of the raw image that is a whole volume.
pub fn put_raw<S: Store>(store: &mut S, name: &Name, at: u64, from: &[u8; 512]) -> Result<(), Fail>
    requires told { ¬ S.told }
    requires usable { S.failed store.old ≡ false }
{
    let sectors = sectors_in(store, name)?;
    if at >= sectors {
        return Err(Fail::from("a sector of the disk"));
    }
    let mut image = Image::raw(name, sectors);
    image.write(store, at, &Payload::given(from))?;
    Ok(())
}
