//! The volumes of a disk's chain, from its own image up.

ghost use Rattle.std.specs.Prelude.{◌≡◌, ◌≤◌, take, length, map};
ghost use Rattle.sm_machine.specs.Shapes.{chain, chain_limit};
ghost use Rattle.sm_ready.specs.Known.{machine_row};
ghost use Rattle.cmd_attach.specs.Attaching.{AreImages};

use sm_base::{CHAIN_LIMIT, Name};
use vhd_chain::Tree;

/// Puts the names of a chain from this one up into `to`, which has room for 30, and answers how many there are.
pub(crate) fn chain_into(tree: &Tree, leaf: &Name, to: &mut [Name]) -> usize
    requires images { AreImages tree.now.rows }
    requires room { length to.old ≡ chain_limit }
    ensures within { result ≤ length to.new }
    ensures names { take result to.new ≡ chain chain_limit leaf.now (map machine_row tree.now.rows) }
{
    let mut next = Some(*leaf);
    let mut count = 0;
    while count < CHAIN_LIMIT as usize {
        let Some(name) = next else {
            break;
        };
        to[count] = name;
        count += 1;
        next = tree.parent(&name);
    }
    count
}
