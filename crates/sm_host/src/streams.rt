//! A reader as a source, and a writer as a sink.

ghost use Rattle.std.specs.Prelude.{◌≡◌, ◌≤◌, None};
ghost use Rattle.sm_disk.specs.Held.{Rose};

use sm_disk::{Failed, Sink, Source, length_through};
use std::io::{BufRead, Write};

/// The bytes of a sector.
const SECTOR: usize = 512;

/// A buffered reader as a source, as standard input.
#[derive(Drop)]
pub struct ReadSource<R> {
    reader: R,
    faults: u64,
}

impl<R: BufRead> ReadSource<R> {
    /// The source that a reader is.
    pub fn new(reader: R) -> ReadSource<R>
        ensures { result.faults ≡ 0 }
    {
        ReadSource { reader, faults: 0 }
    }

    /// One fault more, up to the last number.
    fn failed(&mut self) -> Failed
        ensures rose { Rose self.old.faults self.new.faults }
        ensures counts { self.old.faults ≤ self.new.faults }
    {
        self.faults = self.faults.saturating_add(1);
        Failed
    }
}

impl<R: BufRead> Source for ReadSource<R> {
    ghost content = { λ _. None };

    ghost faults = { λ source. source.faults };

    fn read(&mut self, to: &mut [u8]) -> Result<usize, Failed> {
        match self.reader.read(to) {
            Ok(count) => Ok(count),
            Err(_) => Err(self.failed()),
        }
    }

    fn read_until(&mut self, last: u8, to: &mut [u8]) -> Result<usize, Failed> {
        match self.reader.fill_buf() {
            Ok(bytes) => {
                let count = to.len().min(length_through(bytes, last));
                to[..count].copy_from_slice(&bytes[..count]);
                self.reader.consume(count);
                Ok(count)
            }
            Err(_) => Err(self.failed()),
        }
    }
}

/// A writer as a sink, as standard output. A piece that ends with a newline, or has the bytes of a sector or more, is handed on to
/// the system before the call returns: so over a buffered writer a line goes out whole, and of a file nothing is kept back.
#[derive(Drop)]
pub struct WriteSink<W> {
    writer: W,
    faults: u64,
}

impl<W: Write> WriteSink<W> {
    /// The sink that a writer is.
    pub fn new(writer: W) -> WriteSink<W>
        ensures { result.faults ≡ 0 }
    {
        WriteSink { writer, faults: 0 }
    }
}

impl<W: Write> Sink for WriteSink<W> {
    ghost content = { λ _. None };

    ghost faults = { λ sink. sink.faults };

    fn write(&mut self, from: &[u8]) -> Result<usize, Failed> {
        if self.writer.write_all(from).is_err()
            || ((from.ends_with(b"\n") || from.len() >= SECTOR) && self.writer.flush().is_err())
        {
            self.faults = self.faults.saturating_add(1);
            return Err(Failed);
        }
        Ok(from.len())
    }
}
