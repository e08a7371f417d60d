//! The sectors of a volume stand in its extents on the device, in their order.

ghost use Rattle.std.specs.Prelude.{◌≡◌, false};

use sm_base::{Failed, Name};
use sm_disk::{Disk, MemDisk, read_sector};
use std::alloc::Global;
use std::test::Fail;
use tests_support::{holds, prepare, size};
use uuid::Uuid;
use vg_meta::{Change, Extents};
use vg_volumes::Store;

/// The image of the test.
fn image() -> Name {
    Name::Vhd(Uuid::from_bytes([1; 16]))
}

/// The image gets three extents: the first stands behind the others, which stand one after the other.
fn make_image<S: Store>(alloc: Global, store: &mut S) -> Result<(), Fail>
    requires { S.failed store.old ≡ false }
{
    let mut extents = Vec::new(alloc);
    extents.extend_from_slice(&[19, 16, 17])?;
    let change = Change::Create {
        name: image(),
        fresh: false,
        extents: Extents::new(extents),
    };
    prepare(store, &change)?;
    store.commit(change)?;
    Ok(())
}

/// So many bytes of 34 sectors that begin with 1, 2 and so on.
fn numbered(alloc: Global) -> Result<Vec<u8>, Fail> {
    let mut bytes = vec![in alloc; 0; 17_408]?;
    for i in 0..34 {
        let at = 512 * i;
        if at < bytes.len() {
            bytes[at] = i as u8 + 1;
        }
    }
    Ok(bytes)
}

/// Writes 34 sectors of the image from its sector 31 on, the last of the first extent, and reads them.
fn write_and_read<S: Store>(alloc: Global, store: &mut S) -> Result<(), Fail> {
    let bytes = numbered(alloc)?;
    let mut found = vec![in alloc; 0xff; 17_408]?;
    let name = image();
    if size(store, &name) < 65 || bytes.len() != 17_408 || found.len() != 17_408 {
        return Err(Fail::from("34 sectors of the image"));
    }
    store.write(&name, 31, &bytes)?;
    let failed = store.read(&name, 31, &mut found);
    holds(failed == Err(Failed), "the seventh call fails")?;
    if found.len() != 17_408 {
        return Err(Fail::from("34 sectors of the image"));
    }
    store.read(&name, 31, &mut found)?;
    holds(found == bytes, "what was written is read")
}

/// Makes the image, and writes and reads it.
pub fn keeps_sectors<S: Store>(alloc: Global, store: &mut S) -> Result<(), Fail>
    requires { S.failed store.old ≡ false }
{
    make_image(alloc, store)?;
    write_and_read(alloc, store)
}

/// Sectors of the device begin with these bytes.
const ROWS: [(u64, u8); 4] = [(4735, 1), (4608, 2), (4639, 33), (4640, 34)];

/// The sectors of the image stand in its extents.
pub fn sectors_stand(disk: &mut MemDisk) -> Result<(), Fail> {
    for (at, byte) in ROWS {
        if at >= disk.sectors() {
            return Err(Fail::from("a sector of the device"));
        }
        let sector = read_sector(disk, at)?;
        holds(sector[0] == byte, "a sector of the image")?;
    }
    Ok(())
}
