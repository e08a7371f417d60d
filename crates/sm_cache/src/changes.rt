//! Which changes of a table leave the sectors of each volume where they are.

ghost use Rattle.std.specs.Prelude.{◌≡◌};
ghost use Rattle.sm_cache.specs.Light.{is_light as is_light_of};

use vg_meta::Change;

/// Whether a change leaves the sectors of each volume where they are: it names journal entries alone, or changes a mark.
pub(crate) fn is_light(change: &Change) -> bool
    ensures { result ≡ is_light_of change.now }
{
    match change {
        Change::Create { name, .. } | Change::Remove { name } => name.is_entry(),
        Change::Rename { from, to } => from.is_entry() && to.is_entry(),
        Change::Grow { .. } | Change::Cut { .. } => false,
        Change::Mark { .. } => true,
    }
}
