//! A source and a sink of bytes.

ghost use Rattle.std.specs.Prelude.{◌≡◌, ◌≢◌, ◌≤◌, ◌<◌, ◌-◌, ℕ, All, List, [], Option, length, take, OnOk, OnErr, IfOk, IfSome};
ghost use Rattle.std.specs.Io.{StopsAt};
ghost use Rattle.sm_disk.specs.Held.{IsCounted};
ghost use Rattle.sm_disk.specs.Streams.{Takes, Adds, AddsFront};

use memchr::memchr;
use sm_base::Failed;

/// A stream of bytes that is read from the front.
pub trait Source {
    /// What is left, where that is told.
    ghost content: { Self → Option (List ℕ) };

    /// How many of its calls have failed. It never falls.
    ghost faults: { Self → ℕ };

    /// Reads up to `to.len()` bytes, and answers how many. 0 into a buffer that is not empty is the end.
    /// Where it fails, nothing was taken, and what `to` holds is open.
    fn read(&mut self, to: &mut [u8]) -> Result<usize, Failed>
        ensures within { IfOk result (λ n. n ≤ length to.new) }
        ensures takes { IfOk result (λ n. Takes (content self.old) (take n to.new) (content self.new)) }
        ensures end { IfOk result (λ n. n ≡ 0 → 0 < length to.old
            → IfSome (content self.old) (λ left. left ≡ [])) }
        ensures unchanged { OnErr result (content self.new ≡ content self.old) }
        ensures counts { faults self.old ≤ faults self.new }
        ensures cause { IsCounted result (faults self.old) (faults self.new) };

    /// As `read`, but nothing behind the first `last`: of the bytes that were read, only the last may be that byte.
    fn read_until(&mut self, last: u8, to: &mut [u8]) -> Result<usize, Failed>
        ensures within { IfOk result (λ n. n ≤ length to.new) }
        ensures takes { IfOk result (λ n. Takes (content self.old) (take n to.new) (content self.new)) }
        ensures stops { IfOk result (λ n. StopsAt (take n to.new) last) }
        ensures end { IfOk result (λ n. n ≡ 0 → 0 < length to.old
            → IfSome (content self.old) (λ left. left ≡ [])) }
        ensures unchanged { OnErr result (content self.new ≡ content self.old) }
        ensures counts { faults self.old ≤ faults self.new }
        ensures cause { IsCounted result (faults self.old) (faults self.new) }
    {
        let most = to.len().min(1);
        self.read(&mut to[..most])
    }
}

/// A stream of bytes that is written at its end.
pub trait Sink {
    /// What it holds, where that is told.
    ghost content: { Self → Option (List ℕ) };

    /// How many of its calls have failed. It never falls.
    ghost faults: { Self → ℕ };

    /// Writes the front of a piece, and answers how many bytes of it were taken: of a piece that is not
    /// empty at least one. Where it fails, nothing was taken.
    fn write(&mut self, from: &[u8]) -> Result<usize, Failed>
        ensures within { IfOk result (λ n. n ≤ length from.now) }
        ensures some { IfOk result (λ n. 0 < length from.now → 0 < n) }
        ensures adds { IfOk result (λ n. Adds (content self.old) (take n from.now) (content self.new)) }
        ensures unchanged { OnErr result (content self.new ≡ content self.old) }
        ensures counts { faults self.old ≤ faults self.new }
        ensures cause { IsCounted result (faults self.old) (faults self.new) };
}

/// How many bytes there are up to the first `last`, which is counted, and all where there is none.
pub fn length_through(bytes: &[u8], last: u8) -> usize
    ensures within { result ≤ length bytes.now }
    ensures some { 0 < length bytes.now → 0 < result }
    ensures before { All (λ byte. byte ≢ last) (take (result - 1) bytes.now) }
{
    match memchr(last, bytes) {
        Some(at) => at + 1,
        None => bytes.len(),
    }
}

/// Writes a text whole. Where it fails, the sink has taken a front of it, maybe none.
pub fn write_all<K: Sink>(sink: &mut K, bytes: &[u8]) -> Result<(), Failed>
    ensures adds { OnOk result (Adds (K.content sink.old) bytes.now (K.content sink.new)) }
    ensures front { OnErr result (AddsFront (K.content sink.old) bytes.now (K.content sink.new)) }
    ensures counts { K.faults sink.old ≤ K.faults sink.new }
    ensures cause { IsCounted result (K.faults sink.old) (K.faults sink.new) }
{
    let mut done = 0;
    while done < bytes.len() {
        let (_, rest) = bytes.split_at(done);
        done += sink.write(rest)?;
    }
    Ok(())
}
