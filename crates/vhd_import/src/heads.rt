//! What the first sectors and the last one of a file say.

ghost use Rattle.std.specs.Prelude.{◌≡◌, ◌+◌, ◌^◌, ◌<◌, ◌≤◌, ℕ, List, ◌∷◌, ◌++◌, length, IfErr, IfOk, Some, true};
ghost use Rattle.vhd_stream.specs.Files.{File, sector_at};
ghost use Rattle.vhd_import.specs.Beginnings.{BeginsSo, layout_by};
ghost use Rattle.vhd_import.specs.Heads.{is_dynamic, layout_at, size_at};
ghost use Rattle.vhd_import.specs.Room.{Target, is_too_large as too_large};
ghost use Rattle.vhd_import.specs.Verdicts.{denial_at, is_footed as footed};

use sm_base::Refusal;
use vhd_fields::{Footer, Header};

/// What the first sector of a file says.
#[derive(Clone, Copy)]
pub enum Beginning {
    /// The footer of a dynamic disk of so many sectors.
    Dynamic(u64),
    /// The footer of a differencing disk.
    Differencing,
    /// Anything else, as the first sector of a fixed disk.
    Other,
}

/// The numbers of a dynamic file: the first sector of its table, the entries of the table, the sectors of a block, and the blocks of the disk.
#[derive(Clone, Copy)]
pub struct FileNumbers {
    pub table: u64,
    pub entries: u32,
    pub block: u32,
    pub blocks: u32,
}

/// What a file says that begins with this sector.
pub fn beginning_of(first: &[u8; 512]) -> Beginning
    ensures { (rest : File) → BeginsSo result (first.now ∷ rest) }
{
    let Ok(footer) = Footer::read(first) else {
        return Beginning::Other;
    };
    if footer.kind == 3 {
        return Beginning::Dynamic(footer.current / 512);
    }
    if footer.kind == 4 {
        return Beginning::Differencing;
    }
    Beginning::Other
}

/// The numbers of a dynamic file by the sectors of its disk and by its header, or why it is not taken.
pub fn numbers_of(sectors: u64, header: &[u8; 1024]) -> Result<FileNumbers, Refusal>
    ensures numbers { IfOk result (λ numbers. (file : File) → is_dynamic file ≡ true → size_at file ≡ sectors
        → sector_at file 1 ++ sector_at file 2 ≡ header.now → layout_at file ≡ Some (layout_by numbers)) }
    ensures denied { IfErr result (λ denial. (t : Target) (file : File) → is_dynamic file ≡ true → size_at file ≡ sectors
        → sector_at file 1 ++ sector_at file 2 ≡ header.now → denial_at t file 2 ≡ Some denial) }
    ensures bounds { IfOk result (λ n. (3 ≤ n.table) × (n.entries ≤ 1044480) × (n.blocks ≤ n.entries) × (n.block ≤ 4096)) }
{
    let Ok(header) = Header::read(header) else {
        return Err(Refusal::BadFile { sector: 1 });
    };
    let block = header.block / 512;
    let blocks = sectors.div_ceil(u64::from(block));
    if blocks > u64::from(header.entries) {
        return Err(Refusal::BadFile { sector: 0 });
    }
    if header.parent.is_some() {
        return Err(Refusal::BadFile { sector: 1 });
    }
    Ok(FileNumbers {
        table: header.table_offset / 512,
        entries: header.entries,
        block,
        blocks: blocks as u32,
    })
}

/// Whether the last sector of a file, behind so many others, is the footer of a fixed disk of them.
pub fn is_footed(last: &[u8; 512], sectors: u64) -> bool
    requires { sectors < 2 ^ 55 }
    ensures { (file : File) → length file ≡ sectors + 1 → sector_at file sectors ≡ last.now → result ≡ footed file }
{
    match Footer::read(last) {
        Ok(footer) => footer.kind == 2 && footer.current == 512 * sectors,
        Err(_) => false,
    }
}

/// Whether a disk of so many sectors has more blocks than a table of the repository has entries.
pub fn is_too_large(entries: u32, block: u32, sectors: u64) -> bool
    requires { 0 < block }
    ensures { (t : Target) → t.entries ≡ entries → t.block ≡ block → result ≡ too_large t sectors }
{
    sectors.div_ceil(u64::from(block)) > u64::from(entries)
}
