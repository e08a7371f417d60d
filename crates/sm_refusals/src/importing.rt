//! Why a disk can't be imported, whatever its file holds.

ghost use Rattle.std.specs.Prelude.{◌≡◌};
ghost use Rattle.vg_meta.specs.Roomy.{table_alone};
ghost use Rattle.sm_ready.specs.Known.{known};
ghost use Rattle.sm_refusals.specs.Importing.{AnswersEntry};

use crate::causes::{has_image, is_reserved_uuid};
use crate::refusing::count_of;
use sm_base::{IMAGE_LIMIT, Refusal, SPENT_SEQUENCE};
use sm_ready::Memory;
use uuid::Uuid;
use vg_meta::Table;

/// Why a disk with this UUID can't be imported, where it can't, before anything of its file is read: the first cause, by table and memory
/// alone. It takes no memory and makes no call.
pub fn refuse_import(table: &Table, memory: &Memory, disk: &Uuid) -> Option<Refusal>
    ensures exact { AnswersEntry (table_alone table.now) (known memory.now) disk.now result }
{
    if is_reserved_uuid(disk) {
        return Some(Refusal::ReservedName);
    }
    if has_image(memory, disk) {
        return Some(Refusal::NameTaken);
    }
    let images = memory.tree.rows().len();
    if IMAGE_LIMIT <= images {
        return Some(Refusal::TooMany {
            have: count_of(images as u64),
            need: 1,
        });
    }
    if SPENT_SEQUENCE <= table.seq() {
        return Some(Refusal::SequenceSpent);
    }
    None
}
