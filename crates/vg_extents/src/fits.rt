//! The free extents of a table, and the least of them.

ghost use Rattle.std.specs.Prelude.{◌≡◌, length, count_by, nat_lt, nat_eq, take, filter, not, IfOk, IfErr};
ghost use Rattle.std.specs.List.{IsDistinct, range_with_len};
ghost use Rattle.vg_meta.specs.Tables.{extents_in, is_one_of, free as free_of};
ghost use Rattle.vg_meta.specs.Changes.{AreFree};
ghost use Rattle.vg_meta.specs.Roomy.{table_alone, rows_alone};
ghost use Rattle.vg_extents.specs.Fits.{AreLeastFree, IsShort};

use crate::faults::FitFault;
use crate::runs::Runs;
use sm_base::NoMemory;
use std::alloc::Global;
use vg_meta::{Table, Volume};

/// The number of extents below `extents` that no volume has. It takes no memory.
pub fn free(table: &Table, extents: u32) -> u32
    ensures free { result ≡ length (free_of extents (table_alone table.now)) }
{
    extents - used_below(table.volumes(), extents)
}

/// The `need` least extents below `extents` that no volume has, rising.
pub fn first_fit(
    alloc: Global,
    table: &Table,
    extents: u32,
    need: u32,
) -> Result<Vec<u32>, FitFault>
    ensures fit { IfOk result (λ v. AreLeastFree extents need (table_alone table.now) v.items) }
    ensures free { IfOk result (λ v. AreFree extents (table_alone table.now).volumes v.items) }
    ensures short { IfErr result (IsShort extents need (table_alone table.now)) }
{
    match Runs::least_of(alloc, table, extents, need) {
        Ok(runs) => runs.first(alloc, need),
        Err(NoMemory) => Err(FitFault::NoMemory),
    }
}

// How many extents of a volume are below a count.
fn low(extents: &[u32], count: u32) -> usize
    ensures { result ≡ count_by (λ e. nat_lt e count) extents.now }
{
    extents.iter().filter(|extent| **extent < count).count()
}

// How many extents of volumes that share none are below a count.
fn used_below(volumes: &[Volume], count: u32) -> u32
    requires { IsDistinct nat_eq (extents_in (rows_alone volumes.now)) }
    ensures { result ≡ count_by (λ e. nat_lt e count) (extents_in (rows_alone volumes.now)) }
{
    let mut total = 0;
    for volume in volumes {
        total += low(volume.extents(), count) as u32;
    }
    total
}
