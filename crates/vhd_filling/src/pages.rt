//! One page in memory: the bitmap of a block, one sector, and behind it the block's sectors.

ghost use Rattle.std.specs.Prelude.{◌≡◌, ◌≢◌, ◌↔◌, ℕ, ◌+◌, ◌*◌, ◌≤◌, length, IfOk, IsTrue};
ghost use Rattle.sm_disk.specs.Sectors.{sector, zeros};
ghost use Rattle.vhd_filling.specs.Filled.{AreSet};

use sm_base::NoMemory;
use std::alloc::Global;
use vhd_write::mark;

/// The bytes are all zeros.
pub(crate) fn is_blank(bytes: &[u8; 512]) -> bool
    ensures { IsTrue result ↔ (bytes.now ≡ zeros) }
{
    *bytes == [0; 512]
}

/// Puts a sector of the page, by its place there.
pub(crate) fn put_sector(page: &mut [u8], index: usize, bytes: &[u8; 512])
    requires { 512 * index + 512 ≤ length page.old }
    ensures long { length page.new ≡ length page.old }
    ensures here { sector page.new index ≡ bytes.now }
    ensures others { (i : ℕ) → i ≢ index → sector page.new i ≡ sector page.old i }
{
    let at = 512 * index;
    page[at..at + 512].copy_from_slice(bytes);
}

/// Makes the sectors of the page's block zeros.
pub(crate) fn clear(page: &mut [u8])
    requires { 512 ≤ length page.old }
    ensures long { length page.new ≡ length page.old }
    ensures bitmap { sector page.new 0 ≡ sector page.old 0 }
    ensures blank { (i : ℕ) → 1 ≤ i → 512 * i + 512 ≤ length page.old → sector page.new i ≡ zeros }
{
    page[512..].fill(0);
}

/// A page with a bitmap all of whose bits are set.
pub(crate) fn page_of(alloc: Global, block: u32) -> Result<Vec<u8>, NoMemory>
    requires { block ≤ 4096 }
    ensures long { IfOk result (λ page. length page.items ≡ 512 * (1 + block)) }
    ensures marked { IfOk result (λ page. AreSet block (sector page.items 0)) }
{
    let Ok(mut page) = vec![in alloc; 0; 512 * (1 + block as usize)] else {
        return Err(NoMemory);
    };
    let mut bitmap = [0; 512];
    mark(&mut bitmap, 0, block);
    put_sector(&mut page, 0, &bitmap);
    Ok(page)
}
