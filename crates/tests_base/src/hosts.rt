//! The adapters over a file, a reader and a writer, and the clock of images.

use sm_disk::{Disk, Failed, Sink, Source};
use sm_host::{FileDisk, ReadSource, WriteSink, seconds_since_2000};
use std::fs;
use std::fs::File;
use std::io::{BufReader, BufWriter, Read};
use std::test::Fail;

/// A file of three whole sectors and some bytes more.
const BYTES: usize = 1600;

/// Whether there are three sectors, the second of which is written and synced.
fn has_three_sectors(disk: &mut FileDisk) -> bool {
    if disk.sectors() != 3 {
        return false;
    }
    let done = disk.write(1, &[9; 512]).is_ok() && disk.sync().is_ok();
    let mut two = [0; 1024];
    done && disk.read(0, &mut two).is_ok() && [two[511], two[512], two[1023]] == [7, 9, 9]
}

/// Whether the file was cut behind the device's back: its last sector is no longer there.
fn has_lost_its_last(disk: &mut FileDisk) -> bool {
    let mut one = [0; 512];
    disk.sectors() == 3 && disk.read(0, &mut one).is_ok() && disk.read(2, &mut one).is_err()
}

#[test]
fn a_file_is_a_device(rt: HostRuntime) -> Result<(), Fail> {
    let path = "/tmp/medlargolf_sm_host_test.img";
    fs::write(&rt, path, [7u8; BYTES].as_slice())?;
    let file = File::options().read(true).write(true).open(&rt, path)?;
    let mut disk = FileDisk::new(file, BYTES as u64);
    let is_whole = has_three_sectors(&mut disk);
    let is_cut = fs::write(&rt, path, [7u8; 600].as_slice()).is_ok()
        && has_lost_its_last(&mut disk);
    fs::remove_file(&rt, path)?;
    assert!(rt; is_whole && is_cut);
    Ok(())
}

#[test]
fn a_device_that_cannot_be_synced_fails(rt: HostRuntime) -> Result<(), Fail> {
    let file = File::options()
        .read(true)
        .write(true)
        .open(&rt, "/dev/null")?;
    let mut disk = FileDisk::new(file, 512);
    let is_written = disk.write(0, &[9; 512]).is_ok();
    let fails = disk.sync() == Err(Failed) && disk.sync() == Err(Failed);
    assert!(rt; disk.sectors() == 1 && is_written && fails);
    Ok(())
}

/// Whether a source gives four bytes, and then can't be read.
fn fails_behind_four(source: &mut impl Source) -> bool {
    let mut eight = [0; 8];
    let first = source.read(&mut eight) == Ok(4) && eight == *b"list\0\0\0\0";
    first && source.read(&mut eight) == Err(Failed) && source.read(&mut eight) == Err(Failed)
}

#[test]
fn a_reader_that_fails_is_no_end_of_the_source(rt: HostRuntime) -> Result<(), Fail> {
    let folder = File::open(&rt, "/")?;
    let reader = BufReader::new(rt.alloc(), b"list".as_slice().chain(folder))?;
    let mut source = ReadSource::new(reader);
    let fails = fails_behind_four(&mut source);
    assert!(rt; fails);
    Ok(())
}

/// Whether a source gives four bytes of a line, and then can't be read.
fn fails_in_a_line(source: &mut impl Source) -> bool {
    let mut eight = [0; 8];
    let first = source.read_until(b'\n', &mut eight) == Ok(4) && eight == *b"list\0\0\0\0";
    first && source.read_until(b'\n', &mut eight) == Err(Failed)
}

#[test]
fn a_reader_that_fails_is_no_end_of_a_line(rt: HostRuntime) -> Result<(), Fail> {
    let folder = File::open(&rt, "/")?;
    let reader = BufReader::new(rt.alloc(), b"list".as_slice().chain(folder))?;
    let mut source = ReadSource::new(reader);
    let fails = fails_in_a_line(&mut source);
    assert!(rt; fails);
    Ok(())
}

#[test]
fn a_line_that_cannot_be_handed_on_fails(rt: HostRuntime) -> Result<(), Fail> {
    let full = File::options().write(true).open(&rt, "/dev/full")?;
    let mut sink = WriteSink::new(BufWriter::new(rt.alloc(), full)?);
    let is_kept = sink.write(b"ok") == Ok(2);
    let fails = sink.write(b" 0\n") == Err(Failed);
    assert!(rt; is_kept && fails);
    Ok(())
}

/// Whether a source gives five bytes.
fn gives_five(source: &mut impl Source) -> bool {
    let mut four = [0; 4];
    let first = source.read(&mut four) == Ok(4) && four == *b"list";
    first && source.read(&mut four) == Ok(1) && source.read(&mut four) == Ok(0)
}

#[test]
fn bytes_are_a_source_and_a_sink(rt: HostRuntime) {
    let mut source = ReadSource::new(b"list\n".as_slice());
    let gives = gives_five(&mut source);
    let mut sink = WriteSink::new(Vec::new(rt.alloc()));
    let takes = sink.write(b"ok 0\n") == Ok(5);
    assert!(rt; gives && takes);
}

/// Whether a source gives a line in pieces of at most four bytes, and nothing of the next one with it.
fn gives_a_line(source: &mut impl Source) -> bool {
    let mut four = [0; 4];
    let first = source.read_until(b'\n', &mut four) == Ok(4) && four == *b"list";
    let second = source.read_until(b'\n', &mut four) == Ok(1) && four == *b"\nist";
    let third = source.read_until(b'\n', &mut four) == Ok(2) && four == *b"gcst";
    first && second && third && source.read_until(b'\n', &mut four) == Ok(0)
}

#[test]
fn a_reader_gives_a_line_in_pieces(rt: HostRuntime) {
    let mut source = ReadSource::new(b"list\ngc".as_slice());
    let gives = gives_a_line(&mut source);
    assert!(rt; gives);
}

#[test]
fn images_count_their_seconds_from_the_year_2000(rt: HostRuntime) {
    let rows = [
        (946_684_799, 0),
        (946_684_801, 1),
        (946_684_800 + 4_294_967_295, u32::MAX),
        (u64::MAX, u32::MAX),
    ];
    for (unix, seconds) in rows {
        assert!(rt; seconds_since_2000(unix) == seconds);
    }
}
