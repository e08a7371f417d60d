//! The program: `lvhd PATH format EXTENT BLOCK ENTRIES UUID`, `lvhd PATH run`, `lvhd PATH export U`, `lvhd PATH import U`, the same with
//! `span PATH PATH2` in place of PATH, and `lvhd trial N`.
//!
//! The file at PATH is the device, or the file at PATH with that at PATH2 behind it, each of them locked; the script, or the file of an import, comes on standard
//! input, and the replies, or the bytes of an exported file, go to standard output. What is
//! asked for is done by the proved top call; here the file and the streams are opened, and the status is handed to the
//! system. The program prints nothing of its own. Where a standard stream is closed, or another run has the file, nothing of `format`, `run`,
//! `export` and `import` is done. Standard input is read in pieces, so behind a fault more of it may have been taken than was answered. A trial works
//! on a device in memory, and opens no file: one that is itself called `trial` is reached as `./trial`.
#![tactic(auto)]

use lvhd_command::{Status, lvhd};
use sm_disk::{Disk, MemDisk};
use sm_host::{FileDisk, ReadSource, WriteSink, seconds_since_2000};
use sm_span::Span;
use std::fs::{File, TryLockError};
use std::io::{BufReader, BufWriter, ErrorKind, Seek, SeekFrom};
use std::os::fd::AsRawFd;
use std::process::ExitCode;
use std::time::{SystemTime, UNIX_EPOCH};
use std::{env, io};

/// The words, a file or its length could not be read, two files have too many sectors together, or a standard stream is closed.
const UNREADABLE: u8 = 9;

/// Another run has the file, or it is named twice.
const IN_USE: u8 = 11;

/// The word behind which no file is opened, but a device in memory.
const TRIAL: &str = "trial";

/// The word behind which two paths stand, of the files that are one device.
const SPAN: &str = "span";

/// The sectors of the device of a trial.
const TRIAL_SECTORS: u64 = 20_480;

/// The descriptors of the standard streams are below this.
const STREAMS: i32 = 3;

/// The program found no memory for itself.
const NO_MEMORY: u8 = 7;

fn main(rt: HostRuntime) -> ExitCode {
    match status(&rt) {
        Ok(code) => ExitCode::from(code),
        Err(code) => ExitCode::from(code),
    }
}

/// The exit status, once all was done.
fn status(rt: &HostRuntime) -> Result<u8, u8> {
    let arguments = arguments(rt)?;
    let mut words = Vec::new(rt.alloc());
    for argument in &arguments {
        words.push(argument.as_str()).map_err(|_| NO_MEMORY)?;
    }
    let status = match words.split_first() {
        None => answer(rt, &[], memory(rt, 0)?)?,
        Some((&TRIAL, _)) => answer(rt, &words, memory(rt, TRIAL_SECTORS)?)?,
        Some((&SPAN, [_, _, TRIAL, ..])) => Status::Words,
        Some((&SPAN, [first, second, words @ ..])) => answer(rt, words, span(rt, first, second)?)?,
        Some((&SPAN, _)) | Some((_, [TRIAL, ..])) => Status::Words,
        Some((path, words)) => answer(rt, words, device(rt, path)?)?,
    };
    Ok(status.code())
}

/// Does what the words ask for on a device, from standard input to standard output.
fn answer<D: Disk + Drop>(rt: &HostRuntime, words: &[&str], disk: D) -> Result<Status, u8> {
    let reader = BufReader::new(rt.alloc(), rt.reader()).map_err(|_| NO_MEMORY)?;
    let writer = BufWriter::new(rt.alloc(), io::writer(rt)).map_err(|_| NO_MEMORY)?;
    let mut source = ReadSource::new(reader);
    let mut sink = WriteSink::new(writer);
    let (status, _disk) = lvhd(rt.alloc(), words, now(rt), disk, &mut source, &mut sink);
    Ok(status)
}

/// A device in memory.
fn memory(rt: &HostRuntime, sectors: u64) -> Result<MemDisk, u8> {
    MemDisk::new(rt.alloc(), sectors).map_err(|_| NO_MEMORY)
}

/// The seconds since 2000-01-01 00:00 UTC, and 0 where the clock can't be read.
fn now(rt: &HostRuntime) -> u32 {
    let unix = SystemTime::now(rt)
        .ok()
        .and_then(|time| time.duration_since(UNIX_EPOCH).ok())
        .map_or(0, |time| time.as_secs());
    seconds_since_2000(unix)
}

/// The arguments behind the program's own name.
fn arguments(rt: &HostRuntime) -> Result<Vec<String>, u8> {
    let mut arguments = Vec::new(rt.alloc());
    let all = env::args(rt).map_err(|error| match error.kind() {
        ErrorKind::OutOfMemory => NO_MEMORY,
        _ => UNREADABLE,
    })?;
    for argument in all.skip(1) {
        arguments.push(argument).map_err(|_| NO_MEMORY)?;
    }
    Ok(arguments)
}

/// The device that the file at a path is, which is this run's alone. A file that was opened in the place of a standard
/// stream is refused: the replies would be written into it, or its bytes read as the script.
fn device(rt: &HostRuntime, path: &str) -> Result<FileDisk, u8> {
    let mut file = File::options()
        .read(true)
        .write(true)
        .open(rt, path)
        .map_err(|_| UNREADABLE)?;
    if file.as_raw_fd() < STREAMS {
        return Err(UNREADABLE);
    }
    file.try_lock().map_err(|error| match error {
        TryLockError::WouldBlock => IN_USE,
        TryLockError::Error(_) => UNREADABLE,
    })?;
    let bytes = file.seek(SeekFrom::End(0)).map_err(|_| UNREADABLE)?;
    Ok(FileDisk::new(file, bytes))
}

/// The device that two files are, the second behind the first. A file that is named twice, by another path too, is refused as one
/// that another run has: its lock is taken once.
fn span(rt: &HostRuntime, first: &str, second: &str) -> Result<Span<FileDisk, FileDisk>, u8> {
    let first = device(rt, first)?;
    let second = device(rt, second)?;
    Span::new(first, second).map_err(|_| UNREADABLE)
}
