//! What an exported file holds.

ghost use Rattle.std.specs.Prelude.{ℕ, List};
ghost use Rattle.sm_machine.specs.Disks.{Disk};
ghost use Rattle.vhd_stream.specs.Files.{FileOf};
ghost use Rattle.vhd_stream.specs.Laws.{IsExported};

/// The file that a disk of a sound image is exported as, read as the standard says, has the sectors of that disk.
pub fn law_export()
    ensures holds { (size : ℕ) (image : ℕ → List ℕ) (d : Disk) (bytes : List ℕ) → IsExported size image d bytes → FileOf bytes d.sectors }
{}
