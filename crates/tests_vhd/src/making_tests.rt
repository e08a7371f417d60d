//! A new image, byte for byte.

ghost use Rattle.std.specs.Prelude.{◌≡◌, false, IfOk, OnOk};

use crate::fixtures::{add, volume};
use crate::images::make;
use crate::sectors::{UID, footer, header, stale};
use crate::volumes::{get, put, sectors_in};
use sm_base::Name;
use std::alloc::Global;
use std::test::Fail;
use tests_support::holds;
use vg_volumes::Store;
use vhd_image::Image;

/// What the sector of a new image of 65,536 bytes in 160 sectors holds.
pub fn wanted(at: u64) -> [u8; 512] {
    match at {
        0 | 159 => footer(),
        1 => header(),
        2 => [0; 512],
        3 => [0xff; 512],
        _ => stale(at),
    }
}

/// Writes stale bytes into each sector of a volume.
pub fn spoil<S: Store>(store: &mut S, name: &Name) -> Result<(), Fail>
    ensures { S.failed store.new ≡ S.failed store.old }
{
    for at in 0..sectors_in(store, name)? {
        put(store, name, at, &stale(at))??;
    }
    Ok(())
}

/// Compares each sector of a volume of 160 with what a new image has there, but for one of them and for both footers.
pub fn compare_but<S: Store>(
    store: &mut S,
    name: &Name,
    changed: u64,
    bytes: &[u8; 512],
    footer: &[u8; 512],
) -> Result<(), Fail> {
    holds(sectors_in(store, name)? == 160, "160 sectors")?;
    for at in 0..160 {
        let found = get(store, name, at)?;
        let is_right = if at == changed {
            found == *bytes
        } else if at == 0 || at == 159 {
            found == *footer
        } else {
            found == wanted(at)
        };
        if !is_right {
            return Err(Fail::new(format_args!("sector {at}")));
        }
    }
    Ok(())
}

/// Whether an image in memory is one of 128 sectors in this volume, without a parent and without a slot.
fn is_new(image: &Image, name: &Name) -> bool {
    image.sectors() == 128 && image.name() == *name && image.parent().is_none() && image.top() == 0
}

/// Makes the volume and the image, and compares.
pub fn make_and_compare<S: Store>(alloc: Global, store: &mut S) -> Result<(), Fail>
    requires { S.failed store.old ≡ false }
{
    let name = volume(1);
    add(alloc, store, &name, &[31, 30, 20, 40, 17])?;
    spoil(store, &name)?;
    holds(
        is_new(&make(alloc, store, &name, UID, 128)?, &name),
        "the image in memory",
    )?;
    compare_but(store, &name, 0, &footer(), &footer())
}
