//! Lines and replies, worked by hand.

use sm_base::{Failed, Label, Mode, Name, Op, Plan, Refusal};
use sm_disk::MemSink;
use sm_script::{
    Bytes, Command, DiskRow, DiskRows, Line, LineBytes, Print, Reading, Reply, StatRow, StatRows,
};
use std::alloc::{AllocError, Global};
use std::process::Abort;
use std::test::Fail;
use uuid::Uuid;

/// The UUID of disks, which is spelled with ones alone.
const FIRST: [u8; 16] = [0x11; 16];

/// The UUID of twins, which is spelled `ab` throughout.
const SECOND: [u8; 16] = [0xab; 16];

/// The UUID of disks.
fn first() -> Uuid {
    Uuid::from_bytes(FIRST)
}

/// The UUID of twins.
fn second() -> Uuid {
    Uuid::from_bytes(SECOND)
}

/// The UUID that is spelled `5c` throughout.
fn third() -> Uuid {
    Uuid::from_bytes([0x5c; 16])
}

/// What a command says beside its disk: its word, its numbers, and its label, bytes, twin or other disk.
fn said(command: &Command) -> (&str, [u64; 3], &[u8]) {
    match command {
        Command::Create {
            size,
            raw,
            label,
            ..
        } => { ("create", [*size, u64::from(*raw), 0], label.text()) }
        Command::Delete { .. } => ("delete", [0; 3], b""),
        Command::Attach { mode, .. } => ("attach", [u64::from(*mode == Mode::Rw), 0, 0], b""),
        Command::Detach { .. } => ("detach", [0; 3], b""),
        Command::Snapshot { twin, .. } => ("snapshot", [0; 3], twin.as_bytes()),
        Command::Clone { twin, .. } => ("clone", [0; 3], twin.as_bytes()),
        Command::Resize { size, .. } => ("resize", [*size, 0, 0], b""),
        Command::Label { text, .. } => ("label", [0; 3], text.text()),
        Command::Write { sector, bytes, .. } => ("write", [*sector, 0, 0], &bytes.bytes),
        Command::Fill {
            sector,
            count,
            byte,
            ..
        } => { ("fill", [*sector, *count, u64::from(*byte)], b"") }
        Command::Read { sector, count, .. } => ("read", [*sector, *count, 0], b""),
        Command::Flush { .. } => ("flush", [0; 3], b""),
        Command::Gc => ("gc", [0; 3], b""),
        Command::List => ("list", [0; 3], b""),
        Command::Stat => ("stat", [0; 3], b""),
        Command::Track { on, .. } => ("cbt", [u64::from(*on), 0, 0], b""),
        Command::Changed { to, .. } => ("changed", [0; 3], to.as_bytes()),
    }
}

/// The disk of a command, and nil where it has none.
fn disk_of(command: &Command) -> Uuid {
    match command {
        Command::Create { disk, .. }
        | Command::Delete { disk }
        | Command::Attach { disk, .. }
        | Command::Detach { disk }
        | Command::Snapshot { disk, .. }
        | Command::Clone { disk, .. }
        | Command::Resize { disk, .. }
        | Command::Label { disk, .. }
        | Command::Write { disk, .. }
        | Command::Fill { disk, .. }
        | Command::Read { disk, .. }
        | Command::Flush { disk }
        | Command::Track { disk, .. } => *disk,
        Command::Changed { from, .. } => *from,
        Command::Gc | Command::List | Command::Stat => Uuid::nil(),
    }
}

/// The line of a word, the first UUID, and what stands behind it.
fn line_of(alloc: Global, word: &str, rest: &str) -> Result<Vec<u8>, AllocError> {
    let mut line = Vec::from_slice(alloc, word.as_bytes())?;
    line.extend_from_slice(b" 11111111-1111-1111-1111-111111111111")?;
    line.extend_from_slice(rest.as_bytes())?;
    Ok(line)
}

/// Whether a command is of this word, this disk, these numbers and this text.
fn says(command: &Command, word: &str, disk: Uuid, numbers: [u64; 3], text: &[u8]) -> bool {
    said(command) == (word, numbers, text) && disk_of(command) == disk
}

/// A line is read as a command of this word, this disk, these numbers and this text.
fn is_read(
    rt: &impl Abort,
    reading: &Reading,
    word: &str,
    disk: Uuid,
    numbers: [u64; 3],
    text: &[u8],
) -> Result<(), Fail> {
    let command = reading.command().ok_or("a command")?;
    let is_right = says(command, word, disk, numbers, text);
    assert!(rt; is_right, "{word}");
    Ok(())
}

/// Reads a line of the first UUID.
fn reads(
    rt: &impl Abort,
    alloc: Global,
    word: &str,
    rest: &str,
    numbers: [u64; 3],
    text: &[u8],
) -> Result<(), Fail> {
    let line = line_of(alloc, word, rest)?;
    let reading = Line::read(&line, Line::room(alloc)?);
    is_read(rt, &reading, word, first(), numbers, text)
}

#[test]
fn commands_of_a_disk(rt: HostRuntime) -> Result<(), Fail> {
    let second = " abababab-abab-abab-abab-abababababab";
    let rows = [
        ("delete", "", [0, 0, 0], b"".as_slice()),
        ("detach", "", [0, 0, 0], b""),
        ("flush", "", [0, 0, 0], b""),
        ("attach", " ro", [0, 0, 0], b""),
        ("attach", " rw", [1, 0, 0], b""),
        (
            "create",
            " 1048576 vhd data!~1",
            [1_048_576, 0, 0],
            b"data!~1",
        ),
        ("create", " 0 raw x", [0, 1, 0], b"x"),
        ("snapshot", second, [0, 0, 0], &SECOND),
        ("clone", second, [0, 0, 0], &SECOND),
        ("resize", " 18446744073709551615", [u64::MAX, 0, 0], b""),
        ("label", " other", [0, 0, 0], b"other"),
        ("fill", " 7 20 aF", [7, 20, 0xaf], b""),
        ("read", " 10 128", [10, 128, 0], b""),
        ("cbt", " on", [1, 0, 0], b""),
        ("cbt", " off", [0, 0, 0], b""),
        ("changed", second, [0, 0, 0], &SECOND),
    ];
    for (word, rest, numbers, text) in rows {
        reads(&rt, rt.alloc(), word, rest, numbers, text)?;
    }
    Ok(())
}

/// Reads a line without numbers.
fn reads_alone(
    rt: &impl Abort,
    alloc: Global,
    line: &str,
    word: &str,
    disk: Uuid,
) -> Result<(), Fail> {
    let reading = Line::read(line.as_bytes(), Line::room(alloc)?);
    is_read(rt, &reading, word, disk, [0; 3], b"")
}

#[test]
fn commands_alone(rt: HostRuntime) -> Result<(), Fail> {
    let none = Uuid::nil();
    reads_alone(&rt, rt.alloc(), "gc", "gc", none)?;
    reads_alone(&rt, rt.alloc(), "list", "list", none)?;
    reads_alone(&rt, rt.alloc(), "stat", "stat", none)?;
    let upper = "delete ABABABAB-ABab-abAB-abab-ABABABababab";
    reads_alone(&rt, rt.alloc(), upper, "delete", second())
}

/// A line of `write` with a pair of digits so many times, and more digits behind them.
fn write_line(
    alloc: Global,
    pair: &[u8],
    times: usize,
    more: &[u8],
) -> Result<Vec<u8>, AllocError> {
    let mut line = line_of(alloc, "write", " 9 ")?;
    for _ in 0..times {
        line.extend_from_slice(pair)?;
    }
    line.extend_from_slice(more)?;
    Ok(line)
}

/// A `write` of so many bytes, each of this pair of digits, is read into the room, which is answered again.
fn reads_write(
    rt: &impl Abort,
    alloc: Global,
    room: LineBytes,
    pair: &str,
    byte: u8,
    count: usize,
) -> Result<LineBytes, Fail> {
    let line = write_line(alloc, pair.as_bytes(), count, b"")?;
    let bytes = vec![in alloc; byte; count]?;
    let reading = Line::read(&line, room);
    is_read(rt, &reading, "write", first(), [9, 0, 0], &bytes)?;
    Ok(reading.into_room())
}

#[test]
fn a_room_is_used_again(rt: HostRuntime) -> Result<(), Fail> {
    let alloc = rt.alloc();
    let room = Line::room(alloc)?;
    let capacity = room.bytes.capacity();
    let room = reads_write(&rt, alloc, room, "0F", 0x0f, 1024)?;
    let room = reads_write(&rt, alloc, room, "a5", 0xa5, 512)?;
    let room = Line::read(b"gc", room).into_room();
    let room = reads_write(&rt, alloc, room, "7e", 0x7e, 63 * 512)?;
    assert!(rt; room.bytes.capacity() == capacity, "a room");
    Ok(())
}

/// A line spells no command.
fn is_bad(rt: &impl Abort, alloc: Global, line: &[u8], text: &str) -> Result<(), Fail> {
    let reading = Line::read(line, Line::room(alloc)?);
    assert!(rt; reading.command().is_none(), "{text}");
    Ok(())
}

/// A `write` of so many pairs of digits and more digits is refused.
fn refuses_digits(rt: &impl Abort, alloc: Global, pairs: usize, more: &str) -> Result<(), Fail> {
    let line = write_line(alloc, b"0F", pairs, more.as_bytes())?;
    is_bad(rt, alloc, &line, more)
}

#[test]
fn writes_that_spell_nothing(rt: HostRuntime) -> Result<(), Fail> {
    let rows = [
        (0, ""),
        (511, "0"),
        (511, "0g"),
        (512, "00"),
        (512, " "),
        (64 * 512, ""),
    ];
    for (pairs, more) in rows {
        refuses_digits(&rt, rt.alloc(), pairs, more)?;
    }
    Ok(())
}

/// A line of the first UUID is refused.
fn refuses(rt: &impl Abort, alloc: Global, word: &str, rest: &str) -> Result<(), Fail> {
    let line = line_of(alloc, word, rest)?;
    is_bad(rt, alloc, &line, rest)
}

#[test]
fn lines_of_a_disk_that_spell_nothing(rt: HostRuntime) -> Result<(), Fail> {
    let rows = [
        ("delete", " "),
        ("DELETE", ""),
        ("attach", ""),
        ("attach", " RO"),
        ("attach", " ro rw"),
        ("resize", " 01"),
        ("resize", " +1"),
        ("resize", " 1a"),
        ("resize", " 18446744073709551616"),
        ("resize", " "),
        ("create", " 1 vhd"),
        ("create", " 1 vhd a b"),
        ("create", " 1 VHD a"),
        ("create", " 1 vhd \u{e9}"),
        ("label", " "),
        ("snapshot", ""),
        ("clone", " 1"),
        ("fill", " 0 1 a"),
        ("fill", " 0 1 abc"),
        ("fill", " 0 1"),
        ("read", " 0 1 2"),
        ("write", " 0"),
        ("cbt", ""),
        ("cbt", " On"),
        ("cbt", " on off"),
        ("changed", ""),
        ("changed", " on"),
    ];
    for (word, rest) in rows {
        refuses(&rt, rt.alloc(), word, rest)?;
    }
    Ok(())
}

#[test]
fn lines_that_spell_nothing(rt: HostRuntime) -> Result<(), Fail> {
    let rows = [
        "",
        "gc ",
        " gc",
        "GC",
        "gc gc",
        "stats",
        "write",
        "delete  11111111-1111-1111-1111-111111111111",
        "delete {11111111-1111-1111-1111-111111111111}",
        "delete 11111111111111111111111111111111",
        "delete urn:uuid:11111111-1111-1111-1111-111111111111",
        "delete 11111111-1111-1111-1111-11111111111g",
    ];
    for line in rows {
        is_bad(&rt, rt.alloc(), line.as_bytes(), line)?;
    }
    is_bad(&rt, rt.alloc(), b"gc\xff", "no text")?;
    is_bad(&rt, rt.alloc(), &[b' '; 65536], "spaces")
}

/// The reply is printed as this text.
fn prints(rt: &impl Abort, alloc: Global, reply: Reply, text: &str) -> Result<(), Fail> {
    let mut sink = MemSink::new(alloc, None)?;
    reply.print(&mut sink)?;
    assert!(rt; sink.bytes() == text.as_bytes(), "{text}");
    Ok(())
}

#[test]
fn refusals(rt: HostRuntime) -> Result<(), Fail> {
    let rows = [
        (Refusal::BadLine, "no BadLine\n"),
        (Refusal::ReservedName, "no ReservedName\n"),
        (Refusal::UnknownDisk, "no UnknownDisk\n"),
        (Refusal::NameTaken, "no NameTaken\n"),
        (Refusal::InUse, "no InUse\n"),
        (Refusal::NotAttached, "no NotAttached\n"),
        (Refusal::ReadOnly, "no ReadOnly\n"),
        (Refusal::RawDisk, "no RawDisk\n"),
        (Refusal::Tracked, "no Tracked\n"),
        (Refusal::NotTracked, "no NotTracked\n"),
        (Refusal::OutOfRange, "no OutOfRange\n"),
        (Refusal::BadSize, "no BadSize\n"),
        (Refusal::Shrink, "no Shrink\n"),
        (
            Refusal::ChainTooLong { depth: 30 },
            "no ChainTooLong depth 30\n",
        ),
        (
            Refusal::TooMany { have: 499, need: 2 },
            "no TooMany have 499 need 2\n",
        ),
        (Refusal::SequenceSpent, "no SequenceSpent\n"),
        (
            Refusal::NoSpace { need: 12, free: 0 },
            "no NoSpace need 12 free 0\n",
        ),
        (Refusal::NoMemory, "no NoMemory\n"),
        (Refusal::Differencing, "no Differencing\n"),
        (Refusal::BadFile { sector: 3 }, "no BadFile sector 3\n"),
        (
            Refusal::Cut { sector: 8589934592 },
            "no Cut sector 8589934592\n",
        ),
    ];
    for (refusal, text) in rows {
        prints(&rt, rt.alloc(), Reply::No(refusal), text)?;
    }
    Ok(())
}

fn leaf() -> Name {
    Name::Vhd(first())
}

fn child() -> Name {
    Name::Vhd(second())
}

fn parent() -> Name {
    Name::Vhd(third())
}

fn copying() -> Op {
    Op::Copy {
        child: child(),
        parent: parent(),
        cursor: 3,
    }
}

fn linking() -> Op {
    Op::Relink {
        child: child(),
        parent: parent(),
    }
}

fn folding() -> Op {
    Op::Leaf {
        leaf: leaf(),
        parent: parent(),
        cursor: 0,
    }
}

fn living() -> Op {
    Op::Live {
        leaf: leaf(),
        parent: parent(),
        cursor: 5,
        dirty: 2,
    }
}

#[test]
fn steps_of_the_collector(rt: HostRuntime) -> Result<(), Fail> {
    let rows = [
        (
            Plan::Abandon,
            copying(),
            "ok gc abandon VHD-abababab-abab-abab-abab-abababababab\n",
        ),
        (
            Plan::Copy { block: 17 },
            copying(),
            "ok gc copy VHD-abababab-abab-abab-abab-abababababab 17\n",
        ),
        (
            Plan::Copy { block: 0 },
            folding(),
            "ok gc copy VHD-11111111-1111-1111-1111-111111111111 0\n",
        ),
        (
            Plan::Turn,
            copying(),
            "ok gc turn VHD-abababab-abab-abab-abab-abababababab\n",
        ),
        (
            Plan::RelinkOne { child: leaf() },
            linking(),
            "ok gc relink VHD-11111111-1111-1111-1111-111111111111\n",
        ),
        (
            Plan::Finish,
            linking(),
            "ok gc finish VHD-abababab-abab-abab-abab-abababababab\n",
        ),
        (
            Plan::Swap,
            folding(),
            "ok gc swap VHD-11111111-1111-1111-1111-111111111111\n",
        ),
        (
            Plan::Remove {
                name: Name::Old(first()),
            },
            Op::Idle,
            "ok gc remove OLD_11111111-1111-1111-1111-111111111111\n",
        ),
        (
            Plan::Deflate {
                name: parent(),
                to: 4,
            },
            Op::Idle,
            "ok gc deflate VHD-5c5c5c5c-5c5c-5c5c-5c5c-5c5c5c5c5c5c\n",
        ),
        (
            Plan::Begin {
                child: child(),
                parent: parent(),
                to: 4,
            },
            Op::Idle,
            "ok gc begin VHD-abababab-abab-abab-abab-abababababab\n",
        ),
        (
            Plan::Leaf {
                leaf: leaf(),
                parent: parent(),
                to: 4,
            },
            Op::Idle,
            "ok gc leaf VHD-11111111-1111-1111-1111-111111111111\n",
        ),
        (
            Plan::Live {
                leaf: leaf(),
                parent: parent(),
                to: 4,
            },
            Op::Idle,
            "ok gc live VHD-11111111-1111-1111-1111-111111111111\n",
        ),
        (
            Plan::Swap,
            living(),
            "ok gc swap VHD-11111111-1111-1111-1111-111111111111\n",
        ),
        (
            Plan::Blocked { need: 9, free: 8 },
            Op::Idle,
            "ok gc blocked need 9 free 8\n",
        ),
        (Plan::Idle, Op::Idle, "ok gc idle\n"),
    ];
    for (plan, op, text) in rows {
        prints(&rt, rt.alloc(), Reply::Gc(plan, op), text)?;
    }
    Ok(())
}

/// A disk of a list, of 4 MiB.
fn disk(uuid: [u8; 16], read_only: bool, origin: Option<Uuid>, label: Label) -> DiskRow {
    DiskRow {
        uuid: Uuid::from_bytes(uuid),
        size: 4_194_304,
        read_only,
        origin,
        label,
    }
}

/// Two disks, the second of which is a snapshot of the first.
fn disks(alloc: Global) -> Result<Reply, Fail> {
    let one = Label::of(b"one").ok_or("a label")?;
    let two = Label::of(b"2,3").ok_or("a label")?;
    let mut rows = Vec::new(alloc);
    rows.push(disk(FIRST, false, None, one))?;
    rows.push(disk(SECOND, true, Some(first()), two))?;
    Ok(Reply::List(DiskRows { rows }))
}

const DISKS: &str =
    "ok 2 11111111-1111-1111-1111-111111111111,4194304,rw,-,one abababab-abab-abab-abab-abababababab,4194304,ro,11111111-1111-1111-1111-111111111111,2,3\n";

/// A reply of three bytes.
fn bytes(alloc: Global) -> Result<Reply, Fail> {
    let bytes = Vec::from_slice(alloc, &[0x00, 0x5e, 0xff])?;
    Ok(Reply::Bytes(Bytes { bytes }))
}

/// A reply of the text of a byte, in which the second piece changed.
fn second_piece(alloc: Global) -> Result<Reply, Fail> {
    let bytes = Vec::from_slice(alloc, b"QA==")?;
    Ok(Reply::Changed(Bytes { bytes }))
}

/// A list of no disk.
fn no_disks(alloc: Global) -> Reply {
    let rows = Vec::new(alloc);
    Reply::List(DiskRows { rows })
}

#[test]
fn plain_replies_and_lists(rt: HostRuntime) -> Result<(), Fail> {
    let alloc = rt.alloc();
    prints(&rt, alloc, Reply::Done, "ok\n")?;
    prints(
        &rt,
        alloc,
        Reply::Size(u64::MAX),
        "ok 18446744073709551615\n",
    )?;
    prints(&rt, alloc, bytes(alloc)?, "ok 005eff\n")?;
    prints(&rt, alloc, second_piece(alloc)?, "ok QA==\n")?;
    prints(&rt, alloc, no_disks(alloc), "ok 0\n")?;
    prints(&rt, alloc, disks(alloc)?, DISKS)
}

/// A sink with room for so many bytes of the list takes those, and fails.
fn takes_a_front(rt: &impl Abort, alloc: Global, reply: &Reply, room: usize) -> Result<(), Fail> {
    let mut sink = MemSink::new(alloc, Some(room))?;
    let failed = reply.print(&mut sink) == Err(Failed);
    let has_front = sink.bytes().len() == room && DISKS.as_bytes().starts_with(sink.bytes());
    assert!(rt; failed && has_front, "{room}");
    Ok(())
}

#[test]
fn a_sink_that_fails_has_a_front(rt: HostRuntime) -> Result<(), Fail> {
    let reply = disks(rt.alloc())?;
    for room in 0..DISKS.len() {
        takes_a_front(&rt, rt.alloc(), &reply, room)?;
    }
    Ok(())
}

/// A reply to `stat` with this operation and these images.
fn stat(op: Op, rows: Vec<StatRow>) -> Reply {
    Reply::Stat(StatRows {
        seq: 281_474_976_710_655,
        free: 5,
        op,
        rows,
    })
}

/// A hidden base image and its child.
fn images(alloc: Global) -> Result<Vec<StatRow>, AllocError> {
    let mut rows = Vec::new(alloc);
    rows.push(StatRow {
        name: Name::Raw(second()),
        hidden: true,
        parent: None,
        size: 65536,
        blocks: 0,
        extents: 4,
        refs: 1,
    })?;
    rows.push(StatRow {
        name: Name::Vhd(first()),
        hidden: false,
        parent: Some(Name::Raw(second())),
        size: 131_072,
        blocks: 2,
        extents: 1,
        refs: 0,
    })?;
    Ok(rows)
}

#[test]
fn images_and_room(rt: HostRuntime) -> Result<(), Fail> {
    let rows = [
        (Op::Idle, "ok seq 281474976710655 free 5 op none images 0\n"),
        (
            Op::Relink {
                child: Name::Vhd(second()),
                parent: Name::Mgt,
            },
            "ok seq 281474976710655 free 5 op relink,VHD-abababab-abab-abab-abab-abababababab,MGT images 0\n",
        ),
        (
            Op::Copy {
                child: Name::Mgt,
                parent: Name::Mgt,
                cursor: 7,
            },
            "ok seq 281474976710655 free 5 op copy,MGT,MGT,7 images 0\n",
        ),
        (
            Op::Live {
                leaf: Name::Vhd(second()),
                parent: Name::Mgt,
                cursor: 7,
                dirty: 3,
            },
            "ok seq 281474976710655 free 5 op live,VHD-abababab-abab-abab-abab-abababababab,MGT,7,3 images 0\n",
        ),
    ];
    for (op, text) in rows {
        prints(&rt, rt.alloc(), stat(op, Vec::new(rt.alloc())), text)?;
    }
    let fold = Op::Leaf {
        leaf: Name::Vhd(first()),
        parent: Name::Raw(second()),
        cursor: 4_294_967_295,
    };
    let text =
        "ok seq 281474976710655 free 5 op leaf,VHD-11111111-1111-1111-1111-111111111111,LV-abababab-abab-abab-abab-abababababab,4294967295 images 2 LV-abababab-abab-abab-abab-abababababab,h,-,65536,0,4,1 VHD-11111111-1111-1111-1111-111111111111,v,LV-abababab-abab-abab-abab-abababababab,131072,2,1,0\n";
    prints(&rt, rt.alloc(), stat(fold, images(rt.alloc())?), text)
}
