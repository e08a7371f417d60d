//! What a line of a script asks for.
use sm_base::{Label, Mode};
use std::marker::Model;
use uuid::Uuid;

/// Bytes that are told: those of a disk, whole sectors, or of a text. A contract sees the list of them.
#[derive(Drop)]
pub struct Bytes {
    pub bytes: Vec<u8>,
}

impl Model for Bytes {
    ghost use Rattle.std.specs.Prelude.{List, ℕ};

    ghost Value = { List ℕ };

    ghost view = { λ a. a.bytes.items };
}

/// Bytes that a line spells, whole sectors, in room for the most that any line may spell: 63 sectors, 32,256 bytes. A
/// contract sees the list of them.
#[derive(Drop)]
pub struct LineBytes {
    pub bytes: Vec<u8>,
}

impl Model for LineBytes {
    ghost use Rattle.std.specs.Prelude.{◌≤◌, List, ℕ};
    ghost use Rattle.std.specs.Vec.{vec_capacity};

    ghost Value = { List ℕ };

    ghost view = { λ a. a.bytes.items };

    ghost invariant = { λ a. 32256 ≤ vec_capacity a.bytes };
}

/// One line of a script. Each is one step of the machine. Sizes are in bytes, `sector` and `count` in
/// sectors.
#[derive(Drop)]
pub enum Command {
    /// Make a disk that reads as zeros, on a raw volume or on a VHD image.
    Create {
        disk: Uuid,
        size: u64,
        raw: bool,
        label: Label,
    },
    /// Give a disk up.
    Delete {
        disk: Uuid,
    },
    /// Make a disk ready for reading, or for reading and writing.
    Attach {
        disk: Uuid,
        mode: Mode,
    },
    /// End an attachment.
    Detach {
        disk: Uuid,
    },
    /// Make a disk that reads as this one does now, for reading alone.
    Snapshot {
        disk: Uuid,
        twin: Uuid,
    },
    /// Make a disk that reads as this one does now.
    Clone {
        disk: Uuid,
        twin: Uuid,
    },
    /// Enlarge a disk.
    Resize {
        disk: Uuid,
        size: u64,
    },
    /// Give a disk another label.
    Label {
        disk: Uuid,
        text: Label,
    },
    /// Write these bytes from a sector on.
    Write {
        disk: Uuid,
        sector: u64,
        bytes: LineBytes,
    },
    /// Write one byte over so many sectors.
    Fill {
        disk: Uuid,
        sector: u64,
        count: u64,
        byte: u8,
    },
    /// Read so many sectors.
    Read {
        disk: Uuid,
        sector: u64,
        count: u64,
    },
    /// Settle all that was written.
    Flush {
        disk: Uuid,
    },
    /// Take one step of the collector.
    Gc,
    /// List the disks.
    List,
    /// Tell the images and the room.
    Stat,
    /// Begin to track which pieces of a disk are written to, or end it.
    Track {
        disk: Uuid,
        on: bool,
    },
    /// Tell which pieces were written to between the snapshots of two disks.
    Changed {
        from: Uuid,
        to: Uuid,
    },
}
