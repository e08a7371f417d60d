//! Two devices as one.

ghost use Rattle.std.specs.Prelude.{◌≡◌, ◌≤◌, ◌<◌, ◌+◌, ◌*◌, ◌^◌, length, IfOk, IfErr, OnOk, OnErr};
ghost use Rattle.sm_disk.specs.Held.{IsWhole, IsCounted, SameHeld, Gave, Torn, Wrote, Keeps, IsSettled, HasSectors};
ghost use Rattle.sm_span.specs.Parts.{FailsInOne, held_of};

use crate::pieces::{below, read_piece, sync_both, write_piece};
use sm_base::Failed;
use sm_disk::Disk;

/// A device of two parts: the sectors of the first, and then those of the second.
#[derive(Drop)]
pub struct Span<A: Disk, B: Disk> {
    first: A,
    second: B,
    ghost fits: { A.size first + B.size second < 2 ^ 64 },
}

impl<A: Disk, B: Disk> Span<A, B> {
    /// The device of two parts. Both are handed back where they have more than 2^64 - 1 sectors together.
    pub fn new(first: A, second: B) -> Result<Span<A, B>, (A, B)>
        ensures parts { IfOk result (λ span. (span.first ≡ first) × (span.second ≡ second)) }
        ensures fits { OnOk result (A.size first + B.size second < 2 ^ 64) }
        ensures back { IfErr result (λ parts. (parts.0 ≡ first) × (parts.1 ≡ second)) }
        ensures large { OnErr result (2 ^ 64 ≤ A.size first + B.size second) }
    {
        if second.sectors() > u64::MAX - first.sectors() {
            return Err((first, second));
        }
        Ok(Span { first, second })
    }

    /// The first part.
    pub fn first(&self) -> &A
        ensures { result.now ≡ self.now.first }
    {
        &self.first
    }

    /// The second part.
    pub fn second(&self) -> &B
        ensures { result.now ≡ self.now.second }
    {
        &self.second
    }

    /// The two parts, as they are.
    pub fn parts(self) -> (A, B)
        ensures first { result.0 ≡ self.first }
        ensures second { result.1 ≡ self.second }
    {
        let Span { first, second } = self;
        (first, second)
    }
}

impl<A: Disk, B: Disk> Disk for Span<A, B> {
    ghost told = { A.told × B.told };

    ghost held = { λ span. held_of A.size A.held B.held span.first span.second };

    ghost size = { λ span. A.size span.first + B.size span.second };

    ghost faults = { λ span. A.faults span.first + B.faults span.second };

    fn sectors(&self) -> u64 {
        self.first.sectors() + self.second.sectors()
    }

    fn read(&mut self, at: u64, to: &mut [u8]) -> Result<(), Failed>
        requires { IsWhole at (length to.old) (A.size self.old.first + B.size self.old.second) }
        ensures size { A.size self.new.first + B.size self.new.second ≡ A.size self.old.first + B.size self.old.second }
        ensures counts { A.faults self.old.first + B.faults self.old.second ≤ A.faults self.new.first + B.faults self.new.second }
        ensures cause { IsCounted result (A.faults self.old.first + B.faults self.old.second) (A.faults self.new.first + B.faults self.new.second) }
        ensures same { A.told × B.told → SameHeld (held_of A.size A.held B.held self.old.first self.old.second) (held_of A.size A.held B.held self.new.first self.new.second) }
        ensures gave { OnOk result (A.told × B.told → Gave at (held_of A.size A.held B.held self.old.first self.old.second) to.new) }
        ensures one { OnErr result (FailsInOne A.faults B.faults self.old.first self.new.first self.old.second self.new.second) }
        ensures near { 512 * at + length to.old ≤ 512 * A.size self.old.first → self.new.second ≡ self.old.second }
        ensures far { A.size self.old.first ≤ at → self.new.first ≡ self.old.first }
    {
        let border = self.first.sectors();
        let (near, far) = to.split_at_mut(below(border, at, to.len()));
        read_piece(&mut self.first, at, near)?;
        read_piece(&mut self.second, at.saturating_sub(border), far)?;
        Ok(())
    }

    fn write(&mut self, at: u64, from: &[u8]) -> Result<(), Failed>
        requires { IsWhole at (length from.now) (A.size self.old.first + B.size self.old.second) }
        ensures size { A.size self.new.first + B.size self.new.second ≡ A.size self.old.first + B.size self.old.second }
        ensures counts { A.faults self.old.first + B.faults self.old.second ≤ A.faults self.new.first + B.faults self.new.second }
        ensures cause { IsCounted result (A.faults self.old.first + B.faults self.old.second) (A.faults self.new.first + B.faults self.new.second) }
        ensures torn { A.told × B.told → Torn at from.now (held_of A.size A.held B.held self.old.first self.old.second) (held_of A.size A.held B.held self.new.first self.new.second) }
        ensures wrote { OnOk result (A.told × B.told
            → Wrote at from.now (held_of A.size A.held B.held self.old.first self.old.second) (held_of A.size A.held B.held self.new.first self.new.second)) }
        ensures one { OnErr result (FailsInOne A.faults B.faults self.old.first self.new.first self.old.second self.new.second) }
        ensures near { 512 * at + length from.now ≤ 512 * A.size self.old.first → self.new.second ≡ self.old.second }
        ensures far { A.size self.old.first ≤ at → self.new.first ≡ self.old.first }
    {
        let border = self.first.sectors();
        let (near, far) = from.split_at(below(border, at, from.len()));
        write_piece(&mut self.first, at, near)?;
        write_piece(&mut self.second, at.saturating_sub(border), far)?;
        Ok(())
    }

    fn sync(&mut self) -> Result<(), Failed>
        ensures size { A.size self.new.first + B.size self.new.second ≡ A.size self.old.first + B.size self.old.second }
        ensures counts { A.faults self.old.first + B.faults self.old.second ≤ A.faults self.new.first + B.faults self.new.second }
        ensures cause { IsCounted result (A.faults self.old.first + B.faults self.old.second) (A.faults self.new.first + B.faults self.new.second) }
        ensures keeps { A.told × B.told → Keeps (held_of A.size A.held B.held self.old.first self.old.second) (held_of A.size A.held B.held self.new.first self.new.second) }
        ensures settled { OnOk result (A.told × B.told → IsSettled (held_of A.size A.held B.held self.new.first self.new.second)) }
        ensures one { OnErr result (FailsInOne A.faults B.faults self.old.first self.new.first self.old.second self.new.second) }
    {
        sync_both(&mut self.first, &mut self.second)
    }
}
