//! Which entries stand in a table.

ghost use Rattle.std.specs.Prelude.{◌≡◌, find, count_by};
ghost use Rattle.std.specs.Option.{option_copied, option_map};
ghost use Rattle.vg_meta.specs.Tables.{names_of};
ghost use Rattle.vg_meta.specs.Roomy.{table_alone, rows_alone};
ghost use Rattle.sm_journal.specs.Entries.{is_operation, is_call, has_more};

use sm_base::Name;
use vg_meta::{Table, Volume};

/// The entries of a table, by class.
#[derive(Clone, Copy, PartialEq, Eq)]
pub struct Entries {
    /// The entry of a collector's operation, the first in order of name.
    pub first: Option<Name>,
    /// The entry of a call, the first in order of name.
    pub second: Option<Name>,
    /// Whether the table has entries beside these two.
    pub more: bool,
}

/// Whether the volume is the entry of a collector's operation.
fn is_operation_entry(volume: &Volume) -> bool
    ensures { result ≡ is_operation volume.now.row.name }
{
    match volume.name() {
        Name::Coalesce { .. } | Name::Relink { .. } | Name::Leaf { .. } => true,
        Name::Mgt
        | Name::Vhd(_)
        | Name::Raw(_)
        | Name::Old(_)
        | Name::Cbt(_)
        | Name::Clone { .. }
        | Name::Inflate { .. } => false,
    }
}

/// Whether the volume is the entry of a call.
fn is_call_entry(volume: &Volume) -> bool
    ensures { result ≡ is_call volume.now.row.name }
{
    match volume.name() {
        Name::Clone { .. } | Name::Inflate { .. } => true,
        Name::Mgt
        | Name::Vhd(_)
        | Name::Raw(_)
        | Name::Old(_)
        | Name::Cbt(_)
        | Name::Coalesce { .. }
        | Name::Relink { .. }
        | Name::Leaf { .. } => false,
    }
}

/// The first entry of a collector's operation.
fn find_operation(volumes: &[Volume]) -> Option<&Volume>
    ensures { option_copied result ≡ find (λ h. is_operation h.row.name) volumes.now }
{
    volumes.iter().find(|volume| is_operation_entry(volume))
}

/// The first entry of a call.
fn find_call(volumes: &[Volume]) -> Option<&Volume>
    ensures { option_copied result ≡ find (λ h. is_call h.row.name) volumes.now }
{
    volumes.iter().find(|volume| is_call_entry(volume))
}

/// How many entries of collector's operations there are.
fn count_operations(volumes: &[Volume]) -> usize
    ensures { result ≡ count_by (λ h. is_operation h.row.name) volumes.now }
{
    volumes
        .iter()
        .filter(|volume| is_operation_entry(volume))
        .count()
}

/// How many entries of calls there are.
fn count_calls(volumes: &[Volume]) -> usize
    ensures { result ≡ count_by (λ h. is_call h.row.name) volumes.now }
{
    volumes
        .iter()
        .filter(|volume| is_call_entry(volume))
        .count()
}

/// The name of a volume, where there is one.
fn name_of(volume: Option<&Volume>) -> Option<Name>
    ensures { result ≡ option_map (λ h. h.row.name) (option_copied volume.entry) }
{
    Some(volume?.name())
}

/// Whether two entries of one class stand among the volumes.
fn has_two(volumes: &[Volume]) -> bool
    ensures { result ≡ has_more (names_of (rows_alone volumes.now)) }
{
    let operations = count_operations(volumes);
    let calls = count_calls(volumes);
    1 < operations || 1 < calls
}

/// The entries of a table.
pub fn list(table: &Table) -> Entries
    ensures first { result.first ≡ find is_operation (names_of (table_alone table.now).volumes) }
    ensures second { result.second ≡ find is_call (names_of (table_alone table.now).volumes) }
    ensures more { result.more ≡ has_more (names_of (table_alone table.now).volumes) }
{
    let volumes = table.volumes();
    Entries {
        first: name_of(find_operation(volumes)),
        second: name_of(find_call(volumes)),
        more: has_two(volumes),
    }
}
