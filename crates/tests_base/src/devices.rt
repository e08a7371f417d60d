//! Each public call of the fakes at work, with values worked by hand.

use sm_disk::{
    Disk, Failed, MemDisk, MemSink, MemSource, Sink, Source, put, read_sector, write_all,
    write_sector,
};
use std::alloc::Global;
use std::process::Abort;
use std::test::Fail;

/// One call of a device. A write has its place and the byte that fills the sector.
#[derive(Clone, Copy)]
enum Call {
    Read(u64),
    Write(u64, u8),
    Sync,
}

/// What a call answers: the first byte of a sector that was read, or 0.
fn answer(disk: &mut MemDisk, call: Call) -> Result<u8, Failed> {
    let sectors = disk.sectors();
    match call {
        Call::Read(at) if at < sectors => Ok(read_sector(disk, at)?[0]),
        Call::Write(at, byte) if at < sectors => {
            write_sector(disk, at, &[byte; 512])?;
            Ok(0)
        }
        Call::Sync => {
            disk.sync()?;
            Ok(0)
        }
        _ => Ok(0),
    }
}

/// Makes the calls in turn, each of which answers what stands beside it.
fn answers(rt: &impl Abort, disk: &mut MemDisk, calls: &[(Call, Result<u8, Failed>)]) {
    for (call, want) in calls {
        assert!(rt; answer(disk, *call) == *want);
    }
}

/// The first byte of each of the first four sectors.
fn four(disk: &mut MemDisk) -> Result<[u8; 4], Failed> {
    let mut bytes = [0; 4];
    for i in 0..4 {
        bytes[i] = answer(disk, Call::Read(i as u64))?;
    }
    Ok(bytes)
}

/// A crash leaves these bytes by these choices.
fn leaves(
    rt: &impl Abort,
    alloc: Global,
    disk: &MemDisk,
    choice: &[u32],
    want: &[u8; 4],
) -> Result<(), Fail> {
    let mut left = disk.left(alloc, choice)?;
    let found = four(&mut left)?;
    assert!(rt; found == *want);
    Ok(())
}

/// Two values pending at place 1, and one at place 2.
const PENDING: [(Call, Result<u8, Failed>); 3] = [
    (Call::Write(1, 7), Ok(0)),
    (Call::Write(1, 8), Ok(0)),
    (Call::Write(2, 9), Ok(0)),
];

/// What reads give and crashes leave before and after a sync.
fn pending_values(rt: &impl Abort, alloc: Global, disk: &mut MemDisk) -> Result<(), Fail> {
    answers(rt, disk, &PENDING);
    let found = four(disk)?;
    assert!(rt; found == [0, 8, 9, 0]);
    assert!(rt; disk.reads() == 4);
    leaves(rt, alloc, disk, &[], &[0, 0, 0, 0])?;
    leaves(rt, alloc, disk, &[1], &[0, 7, 9, 0])?;
    leaves(rt, alloc, disk, &[2, 0], &[0, 8, 0, 0])?;
    leaves(rt, alloc, disk, &[3, 1, 5], &[0, 0, 9, 0])?;
    answers(rt, disk, &[(Call::Sync, Ok(0))]);
    leaves(rt, alloc, disk, &[1], &[0, 8, 9, 0])
}

#[test]
fn a_device(rt: HostRuntime) -> Result<(), Fail> {
    let mut disk = MemDisk::new(rt.alloc(), 4)?;
    pending_values(&rt, rt.alloc(), &mut disk)
}

/// Named calls fail, and then all do from a stop on. A write that fails may leave its sector.
fn failing_calls(rt: &impl Abort, alloc: Global, disk: &mut MemDisk) -> Result<(), Fail> {
    disk.fail(alloc, &[1, 2])?;
    answers(
        rt,
        disk,
        &[
            (Call::Write(0, 1), Ok(0)),
            (Call::Sync, Err(Failed)),
            (Call::Write(3, 2), Err(Failed)),
            (Call::Read(3), Ok(2)),
        ],
    );
    leaves(rt, alloc, disk, &[], &[0, 0, 0, 0])?;
    leaves(rt, alloc, disk, &[1], &[1, 0, 0, 2])?;
    disk.stop(1);
    answers(
        rt,
        disk,
        &[
            (Call::Sync, Ok(0)),
            (Call::Write(1, 3), Err(Failed)),
            (Call::Write(2, 4), Err(Failed)),
            (Call::Sync, Err(Failed)),
            (Call::Read(0), Err(Failed)),
        ],
    );
    leaves(rt, alloc, disk, &[1], &[1, 3, 0, 2])
}

#[test]
fn calls_that_fail(rt: HostRuntime) -> Result<(), Fail> {
    let mut disk = MemDisk::new(rt.alloc(), 4)?;
    failing_calls(&rt, rt.alloc(), &mut disk)
}

#[test]
fn what_is_put_lasts(rt: HostRuntime) -> Result<(), Fail> {
    let mut disk = MemDisk::new(rt.alloc(), 4)?;
    put(&mut disk, 2, &[5; 1024])?;
    leaves(&rt, rt.alloc(), &disk, &[], &[0, 0, 5, 5])
}

/// A read gives so many bytes.
fn gives(rt: &impl Abort, source: &mut MemSource, want: Result<usize, Failed>, bytes: &[u8; 2]) {
    let mut buffer = [0; 2];
    assert!(rt; source.read(&mut buffer) == want);
    assert!(rt; buffer == *bytes);
}

#[test]
fn a_source_gives_and_fails(rt: HostRuntime) -> Result<(), Fail> {
    let mut source = MemSource::new(rt.alloc(), b"abc", 9, Some(3))?;
    gives(&rt, &mut source, Ok(2), b"ab");
    gives(&rt, &mut source, Ok(1), b"c\0");
    gives(&rt, &mut source, Err(Failed), b"\0\0");
    Ok(())
}

/// A call up to a newline gives so many bytes.
fn gives_until(
    rt: &impl Abort,
    source: &mut MemSource,
    want: Result<usize, Failed>,
    bytes: &[u8; 4],
) {
    let mut buffer = [0; 4];
    assert!(rt; source.read_until(b'\n', &mut buffer) == want);
    assert!(rt; buffer == *bytes);
}

#[test]
fn a_source_gives_a_line_in_pieces(rt: HostRuntime) -> Result<(), Fail> {
    let mut source = MemSource::new(rt.alloc(), b"abcd\n\nef", 3, Some(8))?;
    gives_until(&rt, &mut source, Ok(3), b"abc\0");
    gives_until(&rt, &mut source, Ok(2), b"d\n\0\0");
    gives_until(&rt, &mut source, Ok(1), b"\n\0\0\0");
    gives_until(&rt, &mut source, Ok(2), b"ef\0\0");
    gives_until(&rt, &mut source, Err(Failed), b"\0\0\0\0");
    Ok(())
}

/// A sink with room for eight bytes takes what fits.
fn takes_what_fits(rt: &impl Abort, sink: &mut MemSink) {
    assert!(rt; write_all(sink, b"hello") == Ok(()));
    assert!(rt; sink.write(b"ab") == Ok(2));
    assert!(rt; write_all(sink, b"cd") == Err(Failed));
    assert!(rt; sink.bytes() == b"helloabc".as_slice());
}

#[test]
fn a_sink_takes_what_fits(rt: HostRuntime) -> Result<(), Fail> {
    let mut sink = MemSink::new(rt.alloc(), Some(8))?;
    takes_what_fits(&rt, &mut sink);
    Ok(())
}
