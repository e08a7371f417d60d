//! What follows from the definitions of an import.

ghost use Rattle.std.specs.Prelude.{◌≡◌, ◌≢◌, ◌+◌, ◌*◌, ◌^◌, ◌<◌, ◌≤◌, ℕ, List, ◌++◌, length, None, Some, true, false};
ghost use Rattle.sm_base.specs.Numbers.{div_up};
ghost use Rattle.sm_disk.specs.Sectors.{zeros};
ghost use Rattle.sm_machine.specs.Disks.{Disk};
ghost use Rattle.vhd_stream.specs.Files.{File, FileLayout, FileOf, IsThere, entry, sector_at};
ghost use Rattle.vhd_stream.specs.Laws.{IsExported};
ghost use Rattle.vhd_import.specs.Entries.{entries_from, table_entry};
ghost use Rattle.vhd_import.specs.Heads.{is_dynamic, layout_at};
ghost use Rattle.vhd_import.specs.Laws.{AgreeUpTo, HasRoomFor};
ghost use Rattle.vhd_import.specs.Puts.{block_put, has_sector, put_at};
ghost use Rattle.vhd_import.specs.Room.{Target, filled_at, used};
ghost use Rattle.vhd_import.specs.Tables.{is_table_wrong};
ghost use Rattle.vhd_import.specs.Verdicts.{Made, denial_at, imported, verdict_of};

/// Bytes of which a disk is made are a VHD file that stands by itself, and hold the sectors of the disk. A VHD file holds one disk.
pub fn law_made()
    ensures holds { (t : Target) (bytes : List ℕ) (sectors : List (List ℕ)) → verdict_of t bytes ≡ Made sectors → FileOf bytes sectors }
    ensures one { (bytes : List ℕ) (a b : List (List ℕ)) → FileOf bytes a → FileOf bytes b → a ≡ b }
{}

/// Of a VHD file of at most 2^42 bytes a disk with its sectors is made, where the repository has room for it. The file that a disk of a
/// sound image is exported as is one.
pub fn law_taken()
    ensures made { (t : Target) (bytes : List ℕ) (sectors : List (List ℕ))
        → FileOf bytes sectors → HasRoomFor t sectors → length bytes ≤ 2 ^ 42 → verdict_of t bytes ≡ Made sectors }
    ensures exported { (t : Target) (size : ℕ) (image : ℕ → List ℕ) (d : Disk) (bytes : List ℕ)
        → IsExported size image d bytes → HasRoomFor t d.sectors → length bytes ≤ 2 ^ 42 → verdict_of t bytes ≡ Made d.sectors }
{}

/// What a sector decides, what it puts on the disk, and how many slots are taken then depend on the sectors up to it alone.
pub fn law_front()
    ensures agree { (t : Target) (k : ℕ) (x y : File) → AgreeUpTo k x y → denial_at t x k ≡ denial_at t y k }
    ensures denial { (t : Target) (front rest : File) (k : ℕ) → k < length front → denial_at t (front ++ rest) k ≡ denial_at t front k }
    ensures put { (front rest : File) (k : ℕ) → k < length front → put_at (front ++ rest) k ≡ put_at front k }
    ensures slots { (t : Target) (front rest : File) (count : ℕ) → count ≤ length front → used t (front ++ rest) count ≡ used t front count }
{}

/// What is kept of a table, or of as much of it as was read, is what the file says, in which it stands behind so many sectors.
pub fn law_table()
    ensures { (f : FileLayout) (front sectors rest : File)
        → length front ≡ f.table → f.blocks ≤ 128 * length sectors
        → entries_from (table_entry sectors) 0 f.blocks ≡ entries_from (entry f (front ++ (sectors ++ rest))) 0 f.blocks }
{}

/// What a sector of a dynamic file puts on the disk, where the table is right: one of the data sectors of a block that is there is put as one of
/// this block, and a sector of no block puts nothing.
pub fn law_put()
    ensures block { (file : File) (f : FileLayout) (k b : ℕ) → is_dynamic file ≡ true → layout_at file ≡ Some f → is_table_wrong f file ≡ false
        → IsThere f file b → entry f file b < k → k ≤ entry f file b + f.block → put_at file k ≡ block_put f file k b }
    ensures none { (file : File) (f : FileLayout) (k : ℕ) → is_dynamic file ≡ true → layout_at file ≡ Some f
        → ((b : ℕ) → b < f.blocks → has_sector f file k b ≡ false) → put_at file k ≡ None }
{}

/// How many slots are taken once one sector more was read: one more where it fills a block that none before it has filled, and else as many as
/// before.
pub fn law_used()
    ensures none { (t : Target) (file : File) (k : ℕ) → filled_at t file k ≡ None → used t file (k + 1) ≡ used t file k }
    ensures same { (t : Target) (file : File) (k j b : ℕ) → filled_at t file k ≡ Some b → j < k → filled_at t file j ≡ Some b
        → used t file (k + 1) ≡ used t file k }
    ensures more { (t : Target) (file : File) (k b : ℕ) → filled_at t file k ≡ Some b → b < t.entries
        → ((j : ℕ) → j < k → filled_at t file j ≢ Some b) → used t file (k + 1) ≡ used t file k + 1 }
{}

/// The disk that is made of a file is whole blocks of the repository: the sectors that the file holds, and then zeros.
pub fn law_imported()
    ensures size { (block : ℕ) (uuid : List ℕ) (sectors : List (List ℕ)) → 0 < block
        → length (imported block uuid sectors).sectors ≡ div_up (length sectors) block * block }
    ensures front { (block : ℕ) (uuid : List ℕ) (sectors : List (List ℕ)) (s : ℕ) → s < length sectors
        → sector_at (imported block uuid sectors).sectors s ≡ sector_at sectors s }
    ensures rest { (block : ℕ) (uuid : List ℕ) (sectors : List (List ℕ)) (s : ℕ) → length sectors ≤ s
        → s < div_up (length sectors) block * block → sector_at (imported block uuid sectors).sectors s ≡ zeros }
{}
