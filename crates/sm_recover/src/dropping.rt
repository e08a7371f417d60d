//! Logs of no use are removed: those that are new, which a stop has left of logs that were being made, and those whose disk is not there.

ghost use Rattle.std.specs.Prelude.{◌≡◌, false, find, IsTrue, OnOk};
ghost use Rattle.std.specs.Option.{option_copied};
ghost use Rattle.sm_standing.specs.Dropped.{drop_changes, first_useless, is_useless};
ghost use Rattle.vg_meta.specs.Roomy.{table_alone};
ghost use Rattle.vg_volumes.specs.Stored.{Counts};
ghost use Rattle.sm_ready.specs.Runs.{AllMay};
ghost use Rattle.sm_recover.specs.Steps.{MakesAll, MakesPart};

use crate::steps::commit_where;
use sm_base::{Failed, Name};
use sm_checks::is_disk;
use vg_meta::{Change, Table, Volume};
use vg_volumes::Store;

/// Removes each log that is new or whose disk is not there, in order of name, by a commit of its own.
pub fn drop_logs<S: Store>(store: &mut S) -> Result<(), Failed>
    requires usable { S.failed store.old ≡ false }
    requires allowed { AllMay (S.site store.old).count (table_alone (S.table store.old)) (drop_changes (table_alone (S.table store.old))) }
    ensures part { MakesPart S.Store (drop_changes (table_alone (S.table store.old))) store.old store.new }
    ensures all { OnOk result (MakesAll S.Store (drop_changes (table_alone (S.table store.old))) store.old store.new) }
    ensures cause { Counts S.Store result store.old store.new }
{
    while let Some(name) = first_useless(store.table()) {
        commit_where(store, true, Change::Remove { name })?;
    }
    Ok(())
}

/// Whether each such log may go: whether a commit may remove the first, as each makes the table's text shorter.
pub fn may_drop<S: Store>(store: &S) -> bool
    ensures { IsTrue result → AllMay (S.site store.now).count (table_alone (S.table store.now)) (drop_changes (table_alone (S.table store.now))) }
{
    match first_useless(store.table()) {
        Some(name) => store.is_ready(&Change::Remove { name }),
        None => true,
    }
}

/// The name of the first such log.
fn first_useless(table: &Table) -> Option<Name>
    ensures { result ≡ first_useless (table_alone table.now) }
{
    let volume = first_useless_in(table.volumes(), table)?;
    Some(volume.name())
}

fn first_useless_in<'a>(volumes: &'a [Volume], table: &Table) -> Option<&'a Volume>
    ensures { option_copied result ≡ find (λ v. is_useless (table_alone table.now) v.row) volumes.now }
{
    volumes.iter().find(|volume| is_useless(volume, table))
}

/// Whether a volume is such a log.
fn is_useless(volume: &Volume, table: &Table) -> bool
    ensures { result ≡ is_useless (table_alone table.now) volume.now.row }
{
    match volume.name() {
        Name::Cbt(disk) => volume.is_fresh() || !is_disk(table, &disk),
        Name::Mgt
        | Name::Vhd(_)
        | Name::Raw(_)
        | Name::Old(_)
        | Name::Clone { .. }
        | Name::Inflate { .. }
        | Name::Coalesce { .. }
        | Name::Relink { .. }
        | Name::Leaf { .. } => false,
    }
}
