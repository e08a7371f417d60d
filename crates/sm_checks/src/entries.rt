//! The entries in a table, of each of the two groups: those of forks and of enlargements, and those of copies, of links and of leaves.
//! They are sought among the entries alone, which stand behind all other volumes.

ghost use Rattle.std.specs.Prelude.{◌≡◌, find, filter, position, slice_get};
ghost use Rattle.sm_base.specs.Kinds.{is_entry};
ghost use Rattle.std.specs.Option.{option_copied};
ghost use Rattle.sm_standing.specs.Entries.{folding, head, is_folding, is_making, making, second};
ghost use Rattle.vg_meta.specs.Roomy.{table_alone};

use sm_base::Name;
use vg_meta::{Table, Volume};

/// The first of a fork or of an enlargement, in order of name.
pub fn entry_in(table: &Table) -> Option<Name>
    ensures { result ≡ head (making (table_alone table.now)) }
{
    let volume = first_making(entries_of(table))?;
    Some(volume.name())
}

/// The second.
pub fn second_entry(table: &Table) -> Option<Name>
    ensures { result ≡ second (making (table_alone table.now)) }
{
    let volume = second_making(entries_of(table))?;
    Some(volume.name())
}

/// The first of a copy, of a link or of a leaf, in order of name.
pub fn folding_in(table: &Table) -> Option<Name>
    ensures { result ≡ head (folding (table_alone table.now)) }
{
    let volume = first_folding(entries_of(table))?;
    Some(volume.name())
}

/// The second.
pub fn second_folding_in(table: &Table) -> Option<Name>
    ensures { result ≡ second (folding (table_alone table.now)) }
{
    let volume = second_folding(entries_of(table))?;
    Some(volume.name())
}

/// The journal entries, behind all other volumes, by halving.
fn entries_of(table: &Table) -> &[Volume]
    ensures { result.now ≡ filter (λ v. is_entry v.row.name) table.now.rows }
{
    let volumes = table.volumes();
    let first = volumes.partition_point(|volume| !volume.name().is_entry());
    &volumes[first..]
}

fn second_making(volumes: &[Volume]) -> Option<&Volume>
    ensures { option_copied result ≡ slice_get (filter (λ v. is_making v.row.name) volumes.now) 1 }
{
    let first = making_place(volumes)?;
    first_making(&volumes[first + 1..])
}

fn first_making(volumes: &[Volume]) -> Option<&Volume>
    ensures { option_copied result ≡ find (λ v. is_making v.row.name) volumes.now }
{
    volumes.iter().find(|volume| is_making(&volume.name()))
}

fn making_place(volumes: &[Volume]) -> Option<usize>
    ensures { result ≡ position (λ v. is_making v.row.name) volumes.now }
{
    volumes.iter().position(|volume| is_making(&volume.name()))
}

fn is_making(name: &Name) -> bool
    ensures { result ≡ is_making name.now }
{
    match name {
        Name::Clone { .. } | Name::Inflate { .. } => true,
        Name::Mgt
        | Name::Vhd(_)
        | Name::Raw(_)
        | Name::Old(_)
        | Name::Cbt(_)
        | Name::Coalesce { .. }
        | Name::Relink { .. }
        | Name::Leaf { .. } => false,
    }
}

fn second_folding(volumes: &[Volume]) -> Option<&Volume>
    ensures { option_copied result ≡ slice_get (filter (λ v. is_folding v.row.name) volumes.now) 1 }
{
    let first = folding_place(volumes)?;
    first_folding(&volumes[first + 1..])
}

fn first_folding(volumes: &[Volume]) -> Option<&Volume>
    ensures { option_copied result ≡ find (λ v. is_folding v.row.name) volumes.now }
{
    volumes.iter().find(|volume| is_folding(&volume.name()))
}

fn folding_place(volumes: &[Volume]) -> Option<usize>
    ensures { result ≡ position (λ v. is_folding v.row.name) volumes.now }
{
    volumes.iter().position(|volume| is_folding(&volume.name()))
}

fn is_folding(name: &Name) -> bool
    ensures { result ≡ is_folding name.now }
{
    match name {
        Name::Coalesce { .. } | Name::Relink { .. } | Name::Leaf { .. } => true,
        Name::Mgt
        | Name::Vhd(_)
        | Name::Raw(_)
        | Name::Old(_)
        | Name::Cbt(_)
        | Name::Clone { .. }
        | Name::Inflate { .. } => false,
    }
}
