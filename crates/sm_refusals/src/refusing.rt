//! Why a command is refused: the first cause, by the table and by what is in memory.
//!
//! Kept here: nothing. No call takes memory, and none calls a store. Sizes are in bytes where a command gives them, else in
//! sectors; room is counted in extents. An answer costs a few look-ups among the images, the records, the logs and the attachments, one
//! pass over the chain of a disk that another is made of, and one over the extents of the table for the free ones.

ghost use Rattle.std.specs.Prelude.{◌≡◌, ◌<◌, ◌^◌};
ghost use Rattle.common_laws.specs.Lists.{first_some};
ghost use Rattle.vg_meta.specs.Roomy.{table_alone};
ghost use Rattle.vg_meta.specs.Tables.{VolumeTable};
ghost use Rattle.sm_machine.specs.Refusals.{refusal};
ghost use Rattle.sm_ready.specs.Known.{known};
ghost use Rattle.sm_ready.specs.Refusing.{Answers, LacksRoom, Recalls, name_causes, size_causes};

use crate::causes::{
    fork_depth, images_needed, is_bad_size, is_deep, is_in_use, is_not_attached, is_out_of_range,
    is_raw_disk, is_read_only, is_reserved, is_shrink, is_spent, is_taken, is_too_many, is_tracked,
    is_unknown, is_untracked,
};
use sm_base::{Geometry, Refusal};
use sm_machine::Command;
use sm_ready::{Memory, need};
use vg_extents::free;
use vg_meta::Table;

/// Why a command is refused, where it is: the first cause, by table and memory alone. A repository has `extents` extents in
/// all. It takes no memory and makes no call.
pub fn refuse(
    table: &Table,
    memory: &Memory,
    geometry: &Geometry,
    extents: u32,
    command: &Command,
) -> Option<Refusal>
    ensures exact { Answers (λ σ. refusal σ command.now) geometry.now extents (table_alone table.now) (known memory.now) result }
{
    let by_name = refuse_by_name(memory, command);
    if by_name.is_some() {
        return by_name;
    }
    let by_size = refuse_by_size(memory, geometry, extents, command);
    if by_size.is_some() {
        return by_size;
    }
    refuse_by_room(table, memory, geometry, extents, command)
}

/// The first cause of names, records, attachments and logs.
fn refuse_by_name(memory: &Memory, command: &Command) -> Option<Refusal>
    ensures { Recalls (λ σ. first_some (name_causes σ command.now)) (known memory.now) result }
{
    if is_reserved(command) {
        return Some(Refusal::ReservedName);
    }
    if is_unknown(memory, command) {
        return Some(Refusal::UnknownDisk);
    }
    if is_taken(memory, command) {
        return Some(Refusal::NameTaken);
    }
    if is_in_use(memory, command) {
        return Some(Refusal::InUse);
    }
    if is_not_attached(memory, command) {
        return Some(Refusal::NotAttached);
    }
    if is_read_only(memory, command) {
        return Some(Refusal::ReadOnly);
    }
    if is_raw_disk(memory, command) {
        return Some(Refusal::RawDisk);
    }
    if is_tracked(memory, command) {
        return Some(Refusal::Tracked);
    }
    if is_untracked(memory, command) {
        return Some(Refusal::NotTracked);
    }
    None
}

/// The first cause of sectors and sizes.
fn refuse_by_size(
    memory: &Memory,
    geometry: &Geometry,
    extents: u32,
    command: &Command,
) -> Option<Refusal>
    ensures { (t : VolumeTable) → Answers (λ σ. first_some (size_causes σ command.now)) geometry.now extents t (known memory.now) result }
{
    if is_out_of_range(memory, command) {
        return Some(Refusal::OutOfRange);
    }
    if is_bad_size(geometry, extents, command) {
        return Some(Refusal::BadSize);
    }
    if is_shrink(memory, geometry, command) {
        return Some(Refusal::Shrink);
    }
    None
}

/// A count of images or of extents, which is below 2^32.
pub(crate) fn count_of(number: u64) -> u32
    ensures { number < 2 ^ 32 → result ≡ number }
{
    number.min(u64::from(u32::MAX)) as u32
}

/// The first cause of images, sequence numbers and extents, for a command whose size is not bad. Free extents are counted only
/// where the command needs some.
fn refuse_by_room(
    table: &Table,
    memory: &Memory,
    geometry: &Geometry,
    extents: u32,
    command: &Command,
) -> Option<Refusal>
    ensures { LacksRoom command.now geometry.now extents (table_alone table.now) (known memory.now) result }
{
    if is_deep(memory, command) {
        return Some(Refusal::ChainTooLong {
            depth: fork_depth(memory, command),
        });
    }
    if is_too_many(memory, command) {
        return Some(Refusal::TooMany {
            have: count_of(memory.tree.rows().len() as u64),
            need: images_needed(command),
        });
    }
    if is_spent(table, command) {
        return Some(Refusal::SequenceSpent);
    }
    let need = need(memory, geometry, command);
    if need == 0 {
        return None;
    }
    let free = free(table, extents);
    if u64::from(free) < need {
        return Some(Refusal::NoSpace {
            need: count_of(need),
            free,
        });
    }
    None
}
