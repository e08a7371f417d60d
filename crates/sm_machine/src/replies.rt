//! What a line of a script is answered.
use crate::commands::Bytes;
use sm_base::{Label, Name, Op, Plan, Refusal};
use std::marker::Model;
use uuid::Uuid;

/// A disk as it is listed. The size is in bytes.
#[derive(Drop)]
pub struct DiskRow {
    pub uuid: Uuid,
    pub size: u64,
    pub read_only: bool,
    pub origin: Option<Uuid>,
    pub label: Label,
}

/// The disks in order of UUID. A contract sees the list of their rows.
#[derive(Drop)]
pub struct DiskRows {
    pub rows: Vec<DiskRow>,
}

impl Model for DiskRows {
    ghost use Rattle.std.specs.Prelude.{List};
    ghost use Rattle.sm_machine.specs.declared.replies.DiskRow.{DiskRow};

    ghost Value = { List DiskRow };

    ghost view = { λ a. a.rows.items };
}

/// An image as it is told. The size is in bytes; `blocks` is the number of blocks in its map, 0 for a
/// raw image; `refs` is the number of attached disks that read through it.
#[derive(Drop)]
pub struct StatRow {
    pub name: Name,
    pub hidden: bool,
    pub parent: Option<Name>,
    pub size: u64,
    pub blocks: u32,
    pub extents: u32,
    pub refs: u32,
}

/// The sequence number, the free extents, the running operation, and the images in order of name. A
/// contract sees a record with the list of the rows.
#[derive(Drop)]
pub struct StatRows {
    pub seq: u64,
    pub free: u32,
    pub op: Op,
    pub rows: Vec<StatRow>,
}

impl Model for StatRows {
    ghost use Rattle.sm_machine.specs.Stats.{Stats};

    ghost Value = { Stats };

    ghost view = { λ a. record { seq = a.seq; free = a.free; op = a.op; rows = a.rows.items } };
}

/// The answer to one line.
#[derive(Drop)]
pub enum Reply {
    /// Done, and there is nothing to tell.
    Done,
    /// Done, and the disk has so many bytes.
    Size(u64),
    /// What was read.
    Bytes(Bytes),
    /// The disks.
    List(DiskRows),
    /// The images and the room.
    Stat(StatRows),
    /// The pieces that were written to, a bit for each, as text in base64.
    Changed(Bytes),
    /// The collector's step, and the operation that it went on with.
    Gc(Plan, Op),
    /// Refused.
    No(Refusal),
}
