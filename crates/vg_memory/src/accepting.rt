//! Whether there is room in memory for a change.

ghost use Rattle.std.specs.Prelude.{◌↔◌, ◌^◌, IsTrue};
ghost use Rattle.vg_meta.specs.Roomy.{table_alone};
ghost use Rattle.vg_meta.specs.Changes.{Permits, HasRoom};

use vg_meta::{Change, Table};

/// Whether there is room for a change that is allowed.
pub(crate) fn has_room(table: &Table, change: &Change) -> bool
    requires { Permits (2 ^ 32) (table_alone table.now) change.now }
    ensures { IsTrue result ↔ HasRoom table.now change.now }
{
    match change {
        Change::Create { .. } => table.spare() > 0,
        Change::Grow { name, extents } => {
            let Some(volume) = table.get(name) else {
                unreachable!()
            };
            extents.as_slice().len() <= volume.spare()
        }
        Change::Remove { .. } | Change::Rename { .. } | Change::Cut { .. } | Change::Mark { .. } =>
            true,
    }
}
