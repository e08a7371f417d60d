//! What an import answers to small files.

ghost use Rattle.std.specs.Prelude.{◌≡◌, [], ◌∷◌, ◌++◌, drop, length, take, false, true};
ghost use Rattle.std.specs.List.{concat};
ghost use Rattle.sm_base.specs.declared.refusals.Refusal.TheVariants.{BadFile, BadSize, Cut, Differencing, NoSpace};
ghost use Rattle.vhd_import.specs.Verdicts.{Denied, Long, Made, imported, verdict, verdict_of};
ghost use Rattle.examples_files.specs.SmallFiles.{small_disk, small_file, small_uuid};
ghost use Rattle.examples_files.specs.TakenFiles.{differencing_file, fixed_file, half_table_file, in_table_file, moved_file, overlapping_file, plain_sector, short_table_file, small_target, table_of};

/// Files of which a disk is made: the exported file, the same without the footer at its end and with a sector put in, and a fixed one, of which
/// the disk is a whole block.
pub fn taken_files()
    ensures exported { verdict_of small_target (concat small_file) ≡ Made small_disk.sectors }
    ensures no_footer { verdict_of small_target (take 11264 (concat small_file)) ≡ Made small_disk.sectors }
    ensures moved { verdict_of small_target (concat moved_file) ≡ Made small_disk.sectors }
    ensures fixed { verdict_of small_target (concat (fixed_file 1024)) ≡ Made (plain_sector ∷ plain_sector ∷ []) }
    ensures whole_block { length (imported 8 small_uuid (plain_sector ∷ plain_sector ∷ [])).sectors ≡ 8 }
{}

/// Files of which none is made: nothing at all, files that end too early, a differencing one, and files of which a part is wrong.
pub fn refused_files()
    ensures empty { verdict_of small_target [] ≡ Denied (Cut 0) }
    ensures in_header { verdict_of small_target (take 1000 (concat small_file)) ≡ Denied (Cut 1) }
    ensures in_block { verdict_of small_target (take 10000 (concat small_file)) ≡ Denied (Cut 19) }
    ensures differencing { verdict_of small_target (concat differencing_file) ≡ Denied Differencing }
    ensures no_header { verdict_of small_target (concat (take 1 small_file ++ (plain_sector ∷ drop 2 small_file))) ≡ Denied (BadFile 1) }
    ensures few_entries { verdict_of small_target (concat short_table_file) ≡ Denied (BadFile 0) }
    ensures half_table { verdict_of small_target (concat (half_table_file (table_of 5 14))) ≡ Denied (Cut 4) }
    ensures half_table_wrong { verdict_of small_target (concat (half_table_file (table_of 4 14))) ≡ Denied (BadFile 3) }
    ensures in_table { verdict_of small_target (concat in_table_file) ≡ Denied (BadFile 3) }
    ensures overlapping { verdict_of small_target (concat overlapping_file) ≡ Denied (BadFile 3) }
    ensures other_size { verdict_of small_target (concat (fixed_file 512)) ≡ Denied (BadFile 2) }
{}

/// The exported file in a repository that has no room for it, and a file that goes on past the most that is read. An image has the footer
/// and the header, the table, 9 sectors for each slot and the footer again. With 64 entries these are 5 sectors without a slot, so one extent.
/// With 1,408 entries they are 24 with one slot and 33 with two, which is a sector more than one extent.
pub fn unplaced_files()
    ensures large { verdict_of (record small_target { entries = 15 }) (concat small_file) ≡ Denied BadSize }
    ensures none_free { verdict_of (record small_target { free = 0 }) (concat small_file) ≡ Denied (NoSpace 1 0) }
    ensures second_slot { verdict_of (record small_target { entries = 1408; free = 1 }) (concat small_file) ≡ Denied (NoSpace 1 0) }
    ensures long { verdict small_target small_file false true ≡ Long }
{}
