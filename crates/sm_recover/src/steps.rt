//! A change of the table, by one commit, where it is wanted.

ghost use Rattle.std.specs.Prelude.{◌≡◌, false, OnOk};
ghost use Rattle.sm_ready.specs.Runs.{AllMay};
ghost use Rattle.sm_recover.specs.Steps.{MakesAll, MakesPart};
ghost use Rattle.sm_standing.specs.Opened.{wanted};
ghost use Rattle.vg_meta.specs.Changes.{HasRoom};
ghost use Rattle.vg_meta.specs.Roomy.{table_alone};
ghost use Rattle.vg_volumes.specs.Stored.{Counts};

use sm_base::Failed;
use vg_meta::Change;
use vg_volumes::Store;

/// Makes a change where it is wanted, else nothing.
pub fn commit_where<S: Store>(store: &mut S, is_wanted: bool, change: Change) -> Result<(), Failed>
    requires usable { S.failed store.old ≡ false }
    requires allowed { AllMay (S.site store.old).count (table_alone (S.table store.old)) (wanted is_wanted change) }
    requires room { HasRoom (S.table store.old) change }
    ensures part { MakesPart S.Store (wanted is_wanted change) store.old store.new }
    ensures all { OnOk result (MakesAll S.Store (wanted is_wanted change) store.old store.new) }
    ensures cause { Counts S.Store result store.old store.new }
{
    if is_wanted {
        store.commit(change)?;
    }
    Ok(())
}
