//! Laws of the machine. Each function does nothing: its clause is the law, and the check proves it.

ghost use Rattle.std.specs.Prelude.{◌≡◌, ◌∷◌, [], true, false, Some, None};
ghost use Rattle.std.specs.List.{list_any};
ghost use Rattle.sm_log.specs.Logs.{changed};
ghost use Rattle.sm_machine.specs.Runs.{after_run};
ghost use Rattle.sm_reached.specs.Examples.{between, disk, first, new, second, turns};
ghost use Rattle.sm_reached.specs.Reached.{AreSnapshotsOf, BackIsNotTold, ChangedIsReached, accepted_in, reaches};

/// Two snapshots of one disk that were made in one run: where the logs lead from the later one back to the earlier one, each piece
/// that is told of them was reached by an accepted write or fill of that disk between the two lines. They do not lead from the
/// earlier one back to the later one, where the disk is no snapshot.
pub fn changed_is_reached()
    ensures reached { ChangedIsReached }
    ensures back { BackIsNotTold }
{}

/// The second of two pieces was filled between two snapshots, which is told of them; the first was not.
pub fn example_reached()
    ensures made { AreSnapshotsOf disk first second between (accepted_in new turns) }
    ensures told { changed 2 first second (after_run new turns).shape.logs ≡ Some (false ∷ true ∷ []) }
    ensures reached { list_any (reaches disk 1) between ≡ true }
    ensures other { list_any (reaches disk 0) between ≡ false }
    ensures back { changed 2 second first (after_run new turns).shape.logs ≡ None }
{}
