//! The images are read into memory: each volume of a VHD or a raw image that is not new gives a row of the tree; an old leaf is not read. A raw image is read
//! off the table alone; of a VHD image the footer, the header and the table are read, once. An image that is being enlarged is
//! read in the extents that it had, which the entry says: in those behind them anything may stand.

ghost use Rattle.std.specs.Prelude.{◌≡◌, ◌≢◌, ◌<◌, ◌≤◌, ◌+◌, ◌*◌, length, [], ◌∷◌, true, Some, Err, IfOk, IfErr, IfSome, IfNone, slice_get};
ghost use Rattle.vg_meta.specs.Roomy.{table_alone};
ghost use Rattle.vg_meta.specs.Tables.{Row};
ghost use Rattle.vg_volumes.specs.Stored.{OnlyReads, held_in, sectors_in, stored};
ghost use Rattle.vhd_image.specs.Bodies.{volume_name};
ghost use Rattle.sm_base.specs.declared.names.Name.TheVariants.{Vhd};
ghost use Rattle.sm_machine.specs.Shapes.{image_limit, same_image};
ghost use Rattle.sm_machine.specs.WellFormed.{is_image_name};
ghost use Rattle.sm_base.specs.declared.faults.OpenFault.TheVariants as fault;
ghost use Rattle.sm_base.specs.declared.faults.Place.TheVariants as at;
ghost use Rattle.sm_standing.specs.Checks.{invalid_fault};
ghost use Rattle.sm_standing.specs.Outlines.{outline};
ghost use Rattle.sm_ready.specs.Stores.{store_content};
ghost use Rattle.sm_standing.specs.Entries.{making};
ghost use Rattle.sm_standing.specs.Images.{image_extents};
ghost use Rattle.sm_checks.specs.Loaded.{AreRowsOf, FailsAt, FailsToRead, HasEachRow, IsFilledImage, IsRawRead, IsReadAs, IsRow, as_read, read_volumes, stored_read};
ghost use Rattle.sm_checks.specs.Openable.{IsOpenableStore, IsStoppedBy};

use crate::entries::entry_in;
use sm_base::{Geometry, IMAGE_LIMIT, Name, OpenFault, Place};
use std::alloc::Global;
use uuid::Uuid;
use vg_meta::Table;
use vg_volumes::Store;
use vhd_chain::{Tree, TreeRow};
use vhd_image::Image;

/// Makes room for all the images that a repository may come to have, and reads those that stand and are not new, in order
/// of name.
///
/// # Errors
/// `Damaged` with the first image that is not valid; `Device` where a call of the store failed; `NoMemory`.
pub fn load<S: Store>(alloc: Global, store: &mut S) -> Result<Tree, OpenFault>
    requires checked { IsOpenableStore S.Store store.old }
    ensures reads { OnlyReads S.Store store.old store.new }
    ensures rows { IfOk result (λ tree. AreRowsOf (read_volumes (table_alone (S.table store.old))) tree.rows) }
    ensures each { IfOk result (λ tree. HasEachRow S.told (stored_read S.Store store.old) (read_volumes (table_alone (S.table store.old))) tree.rows) }
    ensures room { IfOk result (λ tree. image_limit ≤ length tree.rows + tree.spare) }
    ensures calm { result ≢ Err fault.Device → S.faults store.new ≡ S.faults store.old }
    ensures cause { IfErr result (IsStoppedBy S.told (invalid_fault (outline (store_content S.Store store.old))) (S.faults store.old) (S.faults store.new)) }
{
    let mut tree = Tree::new(alloc);
    let Ok(()) = tree.reserve(IMAGE_LIMIT) else {
        return Err(OpenFault::NoMemory);
    };
    let count = store.table().volumes().len();
    for index in 0..count {
        let found = row_at(alloc, store, index)?;
        if let Some(row) = found {
            tree.add(row);
        }
    }
    Ok(tree)
}

/// The row of the volume in this place of the table, where it is that of an image and not new.
fn row_at<S: Store>(
    alloc: Global,
    store: &mut S,
    index: usize,
) -> Result<Option<TreeRow>, OpenFault>
    requires checked { IsOpenableStore S.Store store.old }
    requires within { index < length (table_alone (S.table store.old)).volumes }
    ensures reads { OnlyReads S.Store store.old store.new }
    ensures some { IfOk result (λ found. IfSome found (λ x. (r : Row) → slice_get (table_alone (S.table store.old)).volumes index ≡ Some r
        → IsFilledImage r × IsRow S.told (stored_read S.Store store.old) (as_read (making (table_alone (S.table store.old))) r) x)) }
    ensures none { IfOk result (λ found. IfNone found ((r : Row) → slice_get (table_alone (S.table store.old)).volumes index ≡ Some r → IsFilledImage r → ⊥)) }
    ensures calm { result ≢ Err fault.Device → S.faults store.new ≡ S.faults store.old }
    ensures cause { IfErr result (λ e. (r : Row) → slice_get (table_alone (S.table store.old)).volumes index ≡ Some r
        → FailsAt S.Store (stored_read S.Store store.old) (as_read (making (table_alone (S.table store.old))) r) e store.old store.new) }
{
    let volume = &store.table().volumes()[index];
    if volume.is_fresh() || !is_read(&volume.name()) {
        return Ok(None);
    }
    let name = volume.name();
    let hidden = volume.is_hidden();
    let extents = extents_read(store.table(), &name, volume.extents().len() as u32);
    let image = image_in(alloc, store, &name, extents)?;
    Ok(Some(TreeRow {
        image,
        hidden,
        extents,
    }))
}

/// Whether a name is that of a VHD or of a raw image.
#[tactic(auto, unfolding(sm_machine::specs::WellFormed::is_image_name))]
fn is_read(name: &Name) -> bool
    ensures { result ≡ is_image_name name.now }
{
    match name {
        Name::Vhd(_) | Name::Raw(_) => true,
        Name::Mgt
        | Name::Old(_)
        | Name::Cbt(_)
        | Name::Clone { .. }
        | Name::Inflate { .. }
        | Name::Coalesce { .. }
        | Name::Relink { .. }
        | Name::Leaf { .. } => false,
    }
}

/// In how many extents the image of a name lies, where its volume has so many: those that it had, where it is being enlarged.
fn extents_read(table: &Table, name: &Name, all: u32) -> u32
    ensures { result ≡ image_extents (making (table_alone table.now)) name.now all }
{
    let Some(entry) = entry_in(table) else {
        return all;
    };
    extents_by(&entry, name, all)
}

/// The same by the entry that there is.
fn extents_by(entry: &Name, name: &Name, all: u32) -> u32
    ensures { result ≡ image_extents (entry.now ∷ []) name.now all }
{
    match entry {
        Name::Inflate { image, extents } => {
            if is_vhd_of(name, image) {
                *extents
            } else {
                all
            }
        }
        Name::Mgt
        | Name::Vhd(_)
        | Name::Raw(_)
        | Name::Old(_)
        | Name::Cbt(_)
        | Name::Clone { .. }
        | Name::Coalesce { .. }
        | Name::Relink { .. }
        | Name::Leaf { .. } => all,
    }
}

/// Whether a name is that of the VHD image of a UUID.
pub fn is_vhd_of(name: &Name, image: &Uuid) -> bool
    ensures { result ≡ same_image (Vhd image.now) name.now }
{
    match *name {
        Name::Vhd(uuid) => *image == uuid,
        Name::Mgt
        | Name::Raw(_)
        | Name::Old(_)
        | Name::Cbt(_)
        | Name::Clone { .. }
        | Name::Inflate { .. }
        | Name::Coalesce { .. }
        | Name::Relink { .. }
        | Name::Leaf { .. } => false,
    }
}

/// The image in the first so many extents of a volume.
fn image_in<S: Store>(
    alloc: Global,
    store: &mut S,
    name: &Name,
    extents: u32,
) -> Result<Image, OpenFault>
    requires image { is_image_name name.now ≡ true }
    requires some { 1 ≤ extents }
    requires within { extents * (S.site store.old).geometry.extent ≤ sectors_in (stored S.Store store.old) name.now }
    ensures reads { OnlyReads S.Store store.old store.new }
    ensures name { IfOk result (λ image. volume_name image ≡ name.now) }
    ensures image { IfOk result (IsReadAs S.told (S.site store.old).geometry (extents * (S.site store.old).geometry.extent) (held_in (stored S.Store store.old) name.now) name.now) }
    ensures calm { result ≢ Err fault.Device → S.faults store.new ≡ S.faults store.old }
    ensures cause { IfErr result (λ e. FailsToRead S.Store (stored S.Store store.old) name.now (extents * (S.site store.old).geometry.extent) e store.old store.new) }
{
    match *name {
        Name::Vhd(_) => Image::open(alloc, store, name, extents),
        Name::Mgt
        | Name::Raw(_)
        | Name::Old(_)
        | Name::Cbt(_)
        | Name::Clone { .. }
        | Name::Inflate { .. }
        | Name::Coalesce { .. }
        | Name::Relink { .. }
        | Name::Leaf { .. } => raw_in(&store.geometry(), name, extents),
    }
}

/// The raw image in a volume of so many extents: one that has at most as many blocks as a block allocation table has
/// entries.
fn raw_in(geometry: &Geometry, name: &Name, extents: u32) -> Result<Image, OpenFault>
    ensures image { IfOk result (IsRawRead geometry.now (extents * geometry.now.extent) name.now) }
    ensures err { IfErr result (λ e. e ≡ fault.Damaged (at.Image name.now)) }
    ensures long { IfErr result (λ e. geometry.now.entries * geometry.now.block < extents * geometry.now.extent) }
{
    let most = u64::from(geometry.entries) * u64::from(geometry.block);
    let sectors = u64::from(extents) * u64::from(geometry.extent);
    if most < sectors {
        return Err(OpenFault::Damaged {
            place: Place::Image { name: *name },
        });
    }
    Ok(Image::raw(name, sectors))
}
