//! Groups on devices.

ghost use Rattle.std.specs.Prelude.{◌≡◌, ◌≤◌, false, IfOk};
ghost use Rattle.vg_meta.specs.Roomy.{table_alone};
ghost use Rattle.vg_volumes.specs.Sites.{size_of};

use sm_base::Name;
use sm_disk::MemDisk;
use std::alloc::Global;
use std::test::Fail;
use vg_store::Group;
use vg_volumes::{CURRENT_VERSION, Store};

/// The group on a device, which is of the current version.
pub fn opened(alloc: Global, disk: MemDisk) -> Result<Group<MemDisk>, Fail>
    ensures { IfOk result (λ g. g.failed ≡ false) }
{
    match Group::open(alloc, disk) {
        Ok(group) => {
            if group.version() != CURRENT_VERSION {
                let _disk = group.into_disk();
                return Err(Fail::from("the current version"));
            }
            Ok(group)
        }
        Err((_fault, _disk)) => Err(Fail::from("a group")),
    }
}

/// The sectors of a volume, or fewer where they pass 2^64 - 1.
pub fn size<S: Store>(store: &S, name: &Name) -> u64
    ensures { result ≤ size_of (S.site store.now) (table_alone (S.table store.now)) name.now }
{
    let extent = u64::from(store.geometry().extent);
    match store.table().get(name) {
        Some(volume) => (volume.extents().len() as u64).saturating_mul(extent),
        None => 0,
    }
}
