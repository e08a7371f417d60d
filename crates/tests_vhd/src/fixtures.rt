//! A device in memory whose content no clause tells, and a volume group on it.

ghost use Rattle.std.specs.Prelude.{◌≡◌, false, IfOk, OnOk};

use sm_base::{Failed, Name};
use sm_disk::{Disk, MemDisk};
use std::alloc::Global;
use std::test::Fail;
use tests_support::prepare;
use uuid::Uuid;
use vg_meta::{Change, Extents};
use vg_store::Group;
use vg_volumes::{CURRENT_VERSION, Store};

/// A device in memory of which no clause tells the content. It counts its syncs and its reads.
#[derive(Drop)]
pub struct Untold {
    pub disk: MemDisk,
    pub syncs: u64,
    pub reads: u64,
}

impl Untold {
    /// The device, which has made no sync and no read.
    pub fn new(disk: MemDisk) -> Untold {
        Untold {
            disk,
            syncs: 0,
            reads: 0,
        }
    }
}

impl Disk for Untold {
    ghost use Rattle.std.specs.Prelude.{[]};

    ghost told = { ⊥ };

    ghost held = { λ _. record { floor = λ _. []; pending = λ _. [] } };

    ghost size = { λ d. d.disk.sectors };

    ghost faults = { λ d. d.disk.faults };

    fn sectors(&self) -> u64 {
        self.disk.sectors()
    }

    fn read(&mut self, at: u64, to: &mut [u8]) -> Result<(), Failed> {
        self.reads = self.reads.saturating_add(1);
        self.disk.read(at, to)
    }

    fn write(&mut self, at: u64, from: &[u8]) -> Result<(), Failed> {
        self.disk.write(at, from)
    }

    fn sync(&mut self) -> Result<(), Failed> {
        self.syncs = self.syncs.saturating_add(1);
        self.disk.sync()
    }
}

/// The volume with this last byte of its UUID.
pub fn volume(byte: u8) -> Name {
    let mut bytes = [0x11; 16];
    bytes[15] = byte;
    Name::Vhd(Uuid::from_bytes(bytes))
}

/// The group on a device, which is of the current version.
pub fn opened(alloc: Global, disk: MemDisk) -> Result<Group<Untold>, Fail>
    ensures { IfOk result (λ g. g.failed ≡ false) }
{
    match Group::open(alloc, Untold::new(disk)) {
        Ok(group) => {
            if group.version() != CURRENT_VERSION {
                let _disk = group.into_disk();
                return Err(Fail::from("the current version"));
            }
            Ok(group)
        }
        Err((_fault, _disk)) => Err(Fail::from("the group is opened")),
    }
}

/// Makes a volume on these extents.
pub fn add<S: Store>(alloc: Global, store: &mut S, name: &Name, extents: &[u32]) -> Result<(), Fail>
    requires { S.failed store.old ≡ false }
    ensures { OnOk result (S.failed store.new ≡ false) }
{
    let mut list = Vec::new(alloc);
    list.extend_from_slice(extents)?;
    let change = Change::Create {
        name: *name,
        fresh: true,
        extents: Extents::new(list),
    };
    prepare(store, &change)?;
    store.commit(change)?;
    Ok(())
}
