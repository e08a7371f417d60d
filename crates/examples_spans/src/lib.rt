//! The top call over a device of two parts, at types that tell what they hold: what each clause of `lvhd` says there, by instance.
//!
//! Kept here: nothing, and nothing stands on this crate. The top call is proved once for any device, and a span is one where its parts
//! are. So there is nothing to prove of a repository on two parts but that the clauses apply: here the clause of a run is said of two
//! devices in memory, in words of these two. The program runs the same function over two files, which tell nothing (`crates/lvhd`).
//! Sectors have 512 bytes.
#![tactic(auto)]

ghost use Rattle.std.specs.Prelude.{◌≡◌, ◌+◌, Some};
ghost use Rattle.lvhd_command.specs.declared.words.Form.TheVariants.{Run};
ghost use Rattle.lvhd_command.specs.Running.{RunDid};
ghost use Rattle.lvhd_command.specs.Words.{Asks};
ghost use Rattle.examples_spans.specs.Sides.{AreKept, sides_of_two};

use lvhd_command::{Status, lvhd};
use sm_disk::{MemDisk, MemSink, MemSource};
use sm_span::Span;
use std::alloc::Global;

/// Does what the words ask for on two devices in memory as one. Where whatever a stop leaves of the two, each by itself, opens again
/// as one repository, a run does what it does on one device, and the same is true of the two behind it.
pub fn run_over_two(
    alloc: Global,
    words: &[&str],
    now: u32,
    disk: Span<MemDisk, MemDisk>,
    source: &mut MemSource,
    sink: &mut MemSink,
) -> (Status, Span<MemDisk, MemDisk>)
    ensures size { result.1.first.sectors + result.1.second.sectors ≡ disk.first.sectors + disk.second.sectors }
    ensures run { Asks words.now (Some Run) → AreKept disk.first disk.second
        → RunDid (sides_of_two disk.first disk.second result.1.first result.1.second source.old source.new sink.old sink.new) result.0 }
    ensures kept { Asks words.now (Some Run) → AreKept disk.first disk.second → AreKept result.1.first result.1.second }
{
    lvhd(alloc, words, now, disk, source, sink)
}
