//! The file that a small disk is exported as, by the definitions of `vhd_stream`, and what an import answers to it and to other small
//! files, by those of `vhd_import`.
//!
//! Kept here: no code that runs, and nothing stands on this crate. Each example is the contract of a function that does
//! nothing. Its numbers were worked out by hand from the format: the sums of the bytes beside the two checksums are
//! 1,756 and 2,952. The disk and its file are in `specs/SmallFiles`, the other files in `specs/TakenFiles`.
#![tactic(auto)]

mod taking;

ghost use Rattle.std.specs.Prelude.{◌≡◌, [], ◌∷◌, length};
ghost use Rattle.std.specs.List.{concat};
ghost use Rattle.vhd_map.specs.Places.{blank, word};
ghost use Rattle.vhd_stream.specs.Files.{sector_at};
ghost use Rattle.examples_files.specs.SmallFiles.{bytes_in, filled_sector, small_file};

pub use taking::{refused_files, taken_files, unplaced_files};

/// The file of a disk of 64 KiB of which sectors 7 and 8 were filled.
pub fn exported_disk()
    ensures bytes { length (concat small_file) ≡ 11776 }
    ensures footer_checksum { bytes_in 0 64 4 ≡ 255 ∷ 255 ∷ 249 ∷ 35 ∷ [] }
    ensures header_checksum { bytes_in 1 36 4 ≡ 255 ∷ 255 ∷ 244 ∷ 119 ∷ [] }
    ensures first_block { word (sector_at small_file 3) 0 ≡ 4 }
    ensures second_block { word (sector_at small_file 3) 1 ≡ 13 }
    ensures no_block { word (sector_at small_file 3) 2 ≡ blank }
    ensures no_entry { word (sector_at small_file 3) 127 ≡ blank }
    ensures seventh_sector { sector_at small_file 12 ≡ filled_sector }
    ensures eighth_sector { sector_at small_file 14 ≡ filled_sector }
    ensures footer_again { sector_at small_file 22 ≡ sector_at small_file 0 }
{}
