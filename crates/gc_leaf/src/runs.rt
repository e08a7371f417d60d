//! The commits of a swap, made one after the other.

ghost use Rattle.std.specs.Prelude.{◌≡◌, OnOk, OnErr};
ghost use Rattle.vg_volumes.specs.Stored.{Counts};
ghost use Rattle.sm_calls.specs.Calls.{CanRun, DoesRun, commits};
ghost use Rattle.gc_leaf.specs.Swapping.{swap_changes};

use sm_base::{Failed, Name};
use sm_calls::{commit_three, commit_two};
use uuid::Uuid;
use vg_meta::{Change, Tag};
use vg_volumes::Store;

/// Makes the five commits of a swap.
pub fn run<S: Store>(store: &mut S, leaf: Uuid, parent: Uuid) -> Result<(), Failed>
    requires { CanRun S.Store (commits (swap_changes leaf parent)) store.old }
    ensures run { OnOk result (DoesRun S.Store (commits (swap_changes leaf parent)) store.old store.new (Unit {0})) }
    ensures cut { OnErr result (DoesRun S.Store (commits (swap_changes leaf parent)) store.old store.new ⊥) }
    ensures cause { Counts S.Store result store.old store.new }
{
    let away = Change::Rename {
        from: Name::Vhd(leaf),
        to: Name::Old(leaf),
    };
    let named = Change::Rename {
        from: Name::Vhd(parent),
        to: Name::Vhd(leaf),
    };
    let shown = Change::Mark {
        name: Name::Vhd(leaf),
        tag: Tag::Hidden,
        on: false,
    };
    commit_three(store, away, named, shown)?;
    let old = Change::Remove {
        name: Name::Old(leaf),
    };
    let entry = Change::Remove {
        name: Name::Leaf { leaf, parent },
    };
    commit_two(store, old, entry)?;
    Ok(())
}
