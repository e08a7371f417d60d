//! The lists of disks and of images.

ghost use Rattle.std.specs.Prelude.{◌≤◌, [], ◌∷◌, decimal, length, map};
ghost use Rattle.sm_base.specs.Names.{spelling};
ghost use Rattle.sm_machine.specs.Replies.{by_commas, by_spaces, disk_text, image_text, op_text, reply_parts};
ghost use Rattle.sm_machine.specs.declared.replies.Reply.TheVariants as reply;
ghost use Rattle.sm_script.specs.Pieces.{Writes, led};

use crate::pieces::{write_joined, write_led};
use crate::words::Word;
use sm_base::{Failed, Name, Op};
use sm_disk::{Sink, write_all};
use sm_machine::{DiskRow, DiskRows, StatRow, StatRows};

/// Writes `ok`, the number of disks, and a part for each.
pub fn write_list<K: Sink>(sink: &mut K, disks: &DiskRows) -> Result<(), Failed>
    ensures { Writes (by_spaces (reply_parts (reply.List disks.now)))
        (K.content sink.old) (K.content sink.new) (K.faults sink.old) (K.faults sink.new) result }
{
    let count = Word::number(disks.rows.len() as u64);
    write_joined(sink, b' ', &[Word::text(b"ok"), count])?;
    write_disks(sink, &disks.rows)
}

// Writes a part for each disk, with a space in front of it.
fn write_disks<K: Sink>(sink: &mut K, disks: &[DiskRow]) -> Result<(), Failed>
    ensures { Writes (led 32 (map disk_text disks.now))
        (K.content sink.old) (K.content sink.new) (K.faults sink.old) (K.faults sink.new) result }
{
    for disk in disks {
        write_disk(sink, disk)?;
    }
    Ok(())
}

// Writes a space and a disk.
fn write_disk<K: Sink>(sink: &mut K, disk: &DiskRow) -> Result<(), Failed>
    ensures { Writes (32 ∷ disk_text disk.now)
        (K.content sink.old) (K.content sink.new) (K.faults sink.old) (K.faults sink.new) result }
{
    let words = [
        Word::uuid(&disk.uuid),
        Word::number(disk.size),
        Word::access(disk.read_only),
        Word::uuid_or_dash(&disk.origin),
        Word::text(disk.label.text()),
    ];
    write_all(sink, b" ")?;
    write_joined(sink, b',', &words)
}

/// Writes `ok`, the numbers, the running operation, and a part for each image.
pub fn write_stat<K: Sink>(sink: &mut K, stat: &StatRows) -> Result<(), Failed>
    ensures { Writes (by_spaces (reply_parts (reply.Stat stat.now)))
        (K.content sink.old) (K.content sink.new) (K.faults sink.old) (K.faults sink.new) result }
{
    let front = [
        Word::text(b"ok"),
        Word::text(b"seq"),
        Word::number(stat.seq),
        Word::text(b"free"),
        Word::count(stat.free),
        Word::text(b"op "),
    ];
    write_joined(sink, b' ', &front)?;
    write_op(sink, &stat.op)?;
    let count = Word::number(stat.rows.len() as u64);
    write_led(sink, b' ', &[Word::text(b"images"), count])?;
    write_images(sink, &stat.rows)
}

// Writes the running operation.
fn write_op<K: Sink>(sink: &mut K, op: &Op) -> Result<(), Failed>
    ensures { Writes (op_text op.now)
        (K.content sink.old) (K.content sink.new) (K.faults sink.old) (K.faults sink.new) result }
{
    match op {
        Op::Idle => write_joined(sink, b',', &[Word::text(b"none")]),
        Op::Copy {
            child,
            parent,
            cursor,
        } => write_copying(sink, b"copy", child, parent, *cursor),
        Op::Relink { child, parent } => {
            let words = [Word::text(b"relink"), Word::name(child), Word::name(parent)];
            write_joined(sink, b',', &words)
        }
        Op::Leaf {
            leaf,
            parent,
            cursor,
        } => write_copying(sink, b"leaf", leaf, parent, *cursor),
        Op::Live {
            leaf,
            parent,
            cursor,
            dirty,
        } => {
            write_copying(sink, b"live", leaf, parent, *cursor)?;
            write_led(sink, b',', &[Word::count(*dirty)])
        }
    }
}

// Writes an operation that copies blocks: its name, the image whose blocks are copied, the image that gets them, and the cursor.
fn write_copying<K: Sink>(
    sink: &mut K,
    word: &[u8],
    from: &Name,
    into: &Name,
    cursor: u32,
) -> Result<(), Failed>
    requires { length word.now ≤ 128 }
    ensures { Writes (by_commas (word.now ∷ spelling from.now ∷ spelling into.now ∷ decimal cursor ∷ []))
        (K.content sink.old) (K.content sink.new) (K.faults sink.old) (K.faults sink.new) result }
{
    let words = [
        Word::text(word),
        Word::name(from),
        Word::name(into),
        Word::count(cursor),
    ];
    write_joined(sink, b',', &words)
}

// Writes a part for each image, with a space in front of it.
fn write_images<K: Sink>(sink: &mut K, images: &[StatRow]) -> Result<(), Failed>
    ensures { Writes (led 32 (map image_text images.now))
        (K.content sink.old) (K.content sink.new) (K.faults sink.old) (K.faults sink.new) result }
{
    for image in images {
        write_image(sink, image)?;
    }
    Ok(())
}

// Writes a space and an image.
fn write_image<K: Sink>(sink: &mut K, image: &StatRow) -> Result<(), Failed>
    ensures { Writes (32 ∷ image_text image.now)
        (K.content sink.old) (K.content sink.new) (K.faults sink.old) (K.faults sink.new) result }
{
    let words = [
        Word::name(&image.name),
        Word::visibility(image.hidden),
        Word::name_or_dash(&image.parent),
        Word::number(image.size),
        Word::count(image.blocks),
        Word::count(image.extents),
        Word::count(image.refs),
    ];
    write_all(sink, b" ")?;
    write_joined(sink, b',', &words)
}
