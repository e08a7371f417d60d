//! Scripts with their replies, as theorems: the machine gives exactly these replies.
//!
//! Kept here: nothing on a device. Each public function has an empty body, and its clause is one script
//! with the reply to each of its lines, in `specs/`; the proof computes the machine. The scripts begin
//! with a new repository of 64 extents of 16 KiB, 48 of them free, blocks of 4 KiB and tables of 64
//! entries.
#![tactic(auto)]

ghost use Rattle.sm_machine.specs.Collector.{with_block};
ghost use Rattle.std.specs.Prelude.{None, Some, ◌≡◌, ℕ, List, Bool, codes, false, true, ◌++◌, ◌∷◌, [], replicate};
ghost use Rattle.examples_scripts.specs.Chains.{after_gc, filled, filling, gc_is_idle, one_more};
ghost use Rattle.sm_machine.specs.Runs.{replies};
ghost use Rattle.examples_scripts.specs.Texts.{answered, long_line, poor_once, states_after};
ghost use Rattle.examples_scripts.specs.RawDisks.{raw_disks};
ghost use Rattle.examples_scripts.specs.Disks.{empty, grown, one_disk, order, refused, reserved, sizes, spent};
ghost use Rattle.examples_scripts.specs.Crowds.{crowded_from, crowded};
ghost use Rattle.examples_scripts.specs.Guests.{attached_grows, fork_room, snapshot_of_attached, guest_writes, shared_base, no_room, raw_base};
ghost use Rattle.examples_scripts.specs.Collecting.{coalesce, given_up, fold, live, live_many, live_new_block, live_given_up, blocked};
ghost use Rattle.examples_scripts.specs.Tracking.{logs_deleted, logs_later, logs_written, made, no_log_room, started, until_deleted, until_later, until_stopped, until_written};
ghost use Rattle.examples_scripts.specs.Scripts.{IsAnswered, after, new, spent_from};
ghost use Rattle.std.specs.Prelude.{map};

/// Raw disks, and refusals by name, room and size.
pub fn script_raw_disks()
    ensures replies { IsAnswered new raw_disks }
{}

/// Nothing is there.
pub fn script_empty()
    ensures replies { IsAnswered new empty }
{}

/// One disk.
pub fn script_one_disk()
    ensures replies { IsAnswered new one_disk }
{}

/// Refusals by name, kind and attachment.
pub fn script_refused()
    ensures replies { IsAnswered new refused }
{}

/// Sizes are rounded up, and refused past the limits.
pub fn script_sizes()
    ensures replies { IsAnswered new sizes }
{}

/// Names of base images are reserved, and a clone keeps the label.
pub fn script_reserved()
    ensures replies { IsAnswered new reserved }
{}

/// The sequence number is nearly used up.
pub fn script_spent()
    ensures replies { IsAnswered (spent_from (after new reserved)) spent }
{}

/// 500 images are the most.
pub fn script_crowded()
    ensures replies { IsAnswered (crowded_from new) crowded }
{}

/// An attached disk gets a snapshot.
pub fn script_snapshot_of_attached()
    ensures replies { IsAnswered new snapshot_of_attached }
{}

/// Sectors in two blocks are written and read.
pub fn script_guest_writes()
    ensures replies { IsAnswered new guest_writes }
{}

/// A disk and its snapshot part from their base.
pub fn script_shared_base()
    ensures replies { IsAnswered new shared_base }
{}

/// A disk that is attached for writing grows.
pub fn script_attached_grows()
    ensures replies { IsAnswered new attached_grows }
{}

/// A third disk finds no room to be written to.
pub fn script_no_room()
    ensures replies { IsAnswered new no_room }
{}

/// A raw disk becomes a raw base.
pub fn script_raw_base()
    ensures replies { IsAnswered new raw_base }
{}

/// A base is folded into its parent between calls and forks.
pub fn script_coalesce()
    ensures replies { IsAnswered new coalesce }
{}

/// A copy is given up when its children are gone.
pub fn script_given_up()
    ensures replies { IsAnswered new given_up }
{}

/// A leaf is folded into its base, given up once by an attachment.
pub fn script_fold()
    ensures replies { IsAnswered new fold }
{}

/// The leaf of an attached disk is folded while its guest writes.
pub fn script_live()
    ensures replies { IsAnswered new live }
{}

/// More blocks are written to again than may be dirty.
pub fn script_live_many()
    ensures replies { IsAnswered new live_many }
{}

/// A block that neither image had is written to behind the cursor of the folding of an attached disk's leaf.
pub fn script_live_new_block()
    ensures replies { IsAnswered new live_new_block }
{}

/// The folding of an attached disk's leaf is given up as the disk grows, and once more as it is detached.
pub fn script_live_given_up()
    ensures replies { IsAnswered new live_given_up }
{}

/// The room for a fold comes when a disk goes.
pub fn script_blocked()
    ensures replies { IsAnswered new blocked }
{}

/// Thirty images fill a chain; the collector folds it in 142 steps, and there is room for a snapshot again.
pub fn script_full_chain()
    ensures replies { IsAnswered new filling }
    ensures steps { gc_is_idle 143 filled ≡ replicate 142 false ++ true ∷ [] }
    ensures room { IsAnswered (after_gc 143 filled) one_more }
{}

/// A script is cut into lines: an end after a newline ends no line, an empty line and one that is too
/// long spell nothing, and the last line needs no newline.
pub fn script_lines()
    ensures empty { answered [] ≡ [] }
    ensures one { answered (codes "list\n") ≡ codes "ok 0\n" }
    ensures two { answered (codes "list\nlist") ≡ codes "ok 0\nok 0\n" }
    ensures spaces { answered (codes "list \n list\ncreate  list\n") ≡ codes "no BadLine\nno BadLine\nno BadLine\n" }
    ensures long { answered long_line ≡ codes "ok 0\nno BadLine\nno BadLine\nok 0\n" }
{}

/// A line that finds no memory leaves all as it was.
pub fn script_poor()
    ensures replies { replies new poor_once ≡ codes "no NoMemory\nok 0\nok 16384\nok 1 22222222-2222-4222-8222-222222222222,16384,rw,-,y\n" }
{}

/// A new disk settles what was written before; other lines add one state each.
pub fn script_trail()
    ensures none { states_after [] ≡ 1 }
    ensures lists { states_after (codes "list\nlist\n") ≡ 3 }
    ensures settled { states_after (codes "list\ncreate 22222222-2222-4222-8222-222222222222 1 raw y\nlist\n") ≡ 2 }
    ensures refused { states_after (codes "create 22222222-2222-4222-8222-222222222222 0 raw y\n") ≡ 2 }
{}

/// A disk is enlarged: what it held stays, and the new sectors are zeros.
pub fn script_grown()
    ensures replies { IsAnswered new grown }
{}

/// The first cause is the answer where several apply.
pub fn script_order()
    ensures replies { IsAnswered new order }
{}

/// A fork of a disk that is written to needs the room of all its blocks.
pub fn script_fork_room()
    ensures replies { IsAnswered new fork_room }
{}

/// A new block takes the least free slot, also where a later one is in use; a block that has a slot
/// keeps it.
pub fn script_least_slot()
    ensures gap { with_block 0 (None ∷ Some 1 ∷ []) ≡ Some 0 ∷ Some 1 ∷ [] }
    ensures end { with_block 2 (Some 1 ∷ Some 0 ∷ None ∷ None ∷ []) ≡ Some 1 ∷ Some 0 ∷ Some 2 ∷ None ∷ [] }
    ensures kept { with_block 1 (None ∷ Some 3 ∷ []) ≡ None ∷ Some 3 ∷ [] }
{}

/// Tracking of a disk begins, and the disk gets no other size. It is written to between two snapshots, which is told: a log is made with each
/// snapshot, for which there must be room too, and goes with its disk. Then tracking ends.
pub fn script_tracked()
    ensures begun { IsAnswered new made }
    ensures replies { IsAnswered started until_stopped }
    ensures room { IsAnswered started no_log_room }
    ensures written { (after started until_written).shape.logs ≡ logs_written }
    ensures later { (after started until_later).shape.logs ≡ logs_later }
    ensures others { (after started until_later).shape.others ≡ 19 }
    ensures deleted { (after started until_deleted).shape.logs ≡ logs_deleted }
    ensures counted { (after started until_stopped).shape.sequence ≡ 31 }
    ensures stopped { (after started until_stopped).shape.others ≡ 17 }
{}
