//! The lines that the program prints of itself.

ghost use Rattle.std.specs.Prelude.{◌≡◌, ◌≢◌, ◌≤◌, ◌∷◌, ◌++◌, [], codes};
ghost use Rattle.sm_base.specs.declared.faults.OpenFault.TheVariants.{Device, NoMemory};
ghost use Rattle.sm_script.specs.Pieces.{Writes};
ghost use Rattle.lvhd_command.specs.Trials.{summary_words};
ghost use Rattle.lvhd_command.specs.Texts.{line_of, place_words, fault_words, bad_geometry_words, too_small_words, formatted_words, unknown_words};

use sm_base::{Failed, OpenFault, Place};
use sm_disk::Sink;
use sm_script::{Word, write_line};
use sm_trial::{Ending, Tally};

/// Prints that a repository was made.
pub fn print_formatted<K: Sink>(sink: &mut K, extents: u32, free: u32) -> Result<(), Failed>
    ensures { Writes (line_of (formatted_words extents free))
        (K.content sink.old) (K.content sink.new) (K.faults sink.old) (K.faults sink.new) result }
{
    let words = [
        Word::text(b"ok"),
        Word::text(b"extents"),
        Word::count(extents),
        Word::text(b"free"),
        Word::count(free),
    ];
    write_line(sink, &words)
}

/// Prints that the sizes are out of their ranges.
pub fn print_bad_geometry<K: Sink>(sink: &mut K) -> Result<(), Failed>
    ensures { Writes (line_of bad_geometry_words)
        (K.content sink.old) (K.content sink.new) (K.faults sink.old) (K.faults sink.new) result }
{
    write_line(sink, &[Word::text(b"error"), Word::text(b"BadGeometry")])
}

/// Prints that the device is too small, and how many sectors it would need.
pub fn print_too_small<K: Sink>(sink: &mut K, sectors: u64) -> Result<(), Failed>
    ensures { Writes (line_of (too_small_words sectors))
        (K.content sink.old) (K.content sink.new) (K.faults sink.old) (K.faults sink.new) result }
{
    let words = [
        Word::text(b"error"),
        Word::text(b"TooSmall"),
        Word::number(sectors),
    ];
    write_line(sink, &words)
}

/// Prints what a trial counted, once all its lines were stepped.
pub fn print_summary<K: Sink>(
    sink: &mut K,
    number: u64,
    tally: &Tally,
    ending: &Ending,
) -> Result<(), Failed>
    ensures { Writes (line_of (summary_words number tally.now ending.now.disks ending.now.images ending.now.free))
        (K.content sink.old) (K.content sink.new) (K.faults sink.old) (K.faults sink.new) result }
{
    let words = [
        Word::text(b"trial"),
        Word::number(number),
        Word::text(b"lines"),
        Word::text(b"20000"),
        Word::text(b"ok"),
        Word::count(tally.accepted),
        Word::text(b"no"),
        Word::count(tally.refused),
        Word::text(b"disks"),
        Word::number(ending.disks),
        Word::text(b"images"),
        Word::number(ending.images),
        Word::text(b"free"),
        Word::count(ending.free),
        Word::text(b"sum"),
        Word::number(tally.sum),
    ];
    write_line(sink, &words)
}

/// Prints why a repository is not opened. Of a fault of the device and of want of memory nothing is printed.
pub fn print_fault<K: Sink>(sink: &mut K, fault: &OpenFault) -> Result<(), Failed>
    requires device { fault.now ≢ Device }
    requires memory { fault.now ≢ NoMemory }
    ensures { Writes (line_of (fault_words fault.now))
        (K.content sink.old) (K.content sink.new) (K.faults sink.old) (K.faults sink.new) result }
{
    match fault {
        OpenFault::NotARepository => {
            write_line(sink, &[Word::text(b"error"), Word::text(b"NotARepository")])
        }
        OpenFault::Unsupported { version } => {
            let words = [
                Word::text(b"error"),
                Word::text(b"Unsupported"),
                Word::count(*version),
            ];
            write_line(sink, &words)
        }
        OpenFault::Damaged { place } => print_damaged(sink, place),
        OpenFault::Device | OpenFault::NoMemory => unreachable!(),
    }
}

/// Prints where a repository is damaged.
#[tactic(auto, unfolding(crate::specs::Texts::place_words))]
fn print_damaged<K: Sink>(sink: &mut K, place: &Place) -> Result<(), Failed>
    ensures { Writes (line_of (codes "error" ∷ codes "Damaged" ∷ place_words place.now))
        (K.content sink.old) (K.content sink.new) (K.faults sink.old) (K.faults sink.new) result }
{
    match place {
        Place::Label => print_place(sink, Word::text(b"label")),
        Place::Header => print_place(sink, Word::text(b"header")),
        Place::TableSum => print_part(sink, Word::text(b"table"), Word::text(b"sum")),
        Place::Table { at } => print_part(sink, Word::text(b"table"), Word::count(*at)),
        Place::Mgt => print_place(sink, Word::text(b"mgt")),
        Place::Images => print_place(sink, Word::text(b"images")),
        Place::Journal { name } => print_part(sink, Word::text(b"journal"), Word::name(name)),
        Place::Image { name } => print_part(sink, Word::text(b"image"), Word::name(name)),
        Place::Tree { name } => print_part(sink, Word::text(b"tree"), Word::name(name)),
        Place::Record { index } => print_part(sink, Word::text(b"record"), Word::count(*index)),
        Place::Disk { uuid } => print_part(sink, Word::text(b"disk"), Word::uuid(uuid)),
        Place::Log { name } => print_part(sink, Word::text(b"log"), Word::name(name)),
    }
}

/// Prints that no disk has the UUID that was asked for.
pub fn print_unknown<K: Sink>(sink: &mut K) -> Result<(), Failed>
    ensures { Writes (line_of unknown_words)
        (K.content sink.old) (K.content sink.new) (K.faults sink.old) (K.faults sink.new) result }
{
    write_line(sink, &[Word::text(b"error"), Word::text(b"UnknownDisk")])
}

/// Prints a damage with one word for its place.
fn print_place<K: Sink>(sink: &mut K, place: Word) -> Result<(), Failed>
    ensures { Writes (line_of (codes "error" ∷ codes "Damaged" ∷ place ∷ []))
        (K.content sink.old) (K.content sink.new) (K.faults sink.old) (K.faults sink.new) result }
{
    write_line(sink, &[Word::text(b"error"), Word::text(b"Damaged"), place])
}

/// Prints a damage with two words for its place.
fn print_part<K: Sink>(sink: &mut K, kind: Word, part: Word) -> Result<(), Failed>
    ensures { Writes (line_of (codes "error" ∷ codes "Damaged" ∷ kind ∷ part ∷ []))
        (K.content sink.old) (K.content sink.new) (K.faults sink.old) (K.faults sink.new) result }
{
    write_line(
        sink,
        &[Word::text(b"error"), Word::text(b"Damaged"), kind, part],
    )
}
