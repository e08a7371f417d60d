//! What is asked before a commit: the change is allowed, there is room for it, and its text fits.

ghost use Rattle.std.specs.Prelude.{◌≡◌, false, OnOk};
ghost use Rattle.vg_meta.specs.Roomy.{table_alone};
ghost use Rattle.vg_meta.specs.Changes.{Permits, HasRoom};
ghost use Rattle.vg_volumes.specs.Sites.{Fits};
ghost use Rattle.vg_volumes.specs.Stored.{CanCommit};

use std::test::Fail;
use vg_meta::Change;
use vg_volumes::Store;

/// Makes room for a change, and tests that a commit may do it.
pub fn prepare<S: Store>(store: &mut S, change: &Change) -> Result<(), Fail>
    ensures usable { S.failed store.new ≡ S.failed store.old }
    ensures allowed { OnOk result (Permits (S.site store.new).count (table_alone (S.table store.new)) change.now) }
    ensures room { OnOk result (HasRoom (S.table store.new) change.now) }
    ensures fits { OnOk result (Fits (S.site store.new).count (table_alone (S.table store.new)) change.now) }
    ensures can { OnOk result (S.failed store.old ≡ false → CanCommit S.Store change.now store.new) }
{
    store.reserve_rows(1)?;
    if !store.is_ready(change) {
        return Err(Fail::from("a change that is ready"));
    }
    Ok(())
}
