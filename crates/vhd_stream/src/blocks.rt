//! Which blocks of a disk are there.

ghost use Rattle.std.specs.Prelude.{◌≡◌, ◌+◌, ◌-◌};
ghost use Rattle.sm_machine.specs.Shapes.{chain_limit};
ghost use Rattle.vhd_stream.specs.Known.{is_known, row_has};

use sm_base::{CHAIN_LIMIT, Name};
use sm_ready::is_vhd;
use vhd_chain::{Tree, TreeRow};

/// Whether an image has the block: a VHD image has a slot for it, and a raw one reaches it.
#[tactic(auto, unfolding(crate::specs::Exports::has_block))]
fn has_block(row: &TreeRow, block: u32, b: u32) -> bool
    ensures { result ≡ row_has block row.now b }
{
    if is_vhd(row) {
        match row.image.map() {
            Some(map) => b < map.entries() && map.slot(b).is_some(),
            None => false,
        }
    } else {
        u64::from(b) * u64::from(block) < row.image.sectors()
    }
}

/// Whether some image of the chain from this one up has the block, of so many sectors each.
pub(crate) fn is_there(tree: &Tree, name: &Name, block: u32, b: u32) -> bool
    ensures { result ≡ is_known chain_limit block tree.now.rows name.now b }
{
    let mut next = *name;
    for _ in 0..CHAIN_LIMIT {
        let Some(row) = tree.get(&next) else {
            return false;
        };
        if has_block(row, block, b) {
            return true;
        }
        let Some(parent) = row.image.parent() else {
            return false;
        };
        next = parent;
    }
    false
}
