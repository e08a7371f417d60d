//! Laws of the machine. Each function does nothing: its clause is the law, and the check proves it.

ghost use Rattle.sm_machine.specs.Laws.{CollectorKeepsDisks, ExtentsKeepShape, IdleIsDone, NewHasNoDisks, NewIsWellFormed, RefusedKeeps, SizeKeepsShape, StepKeepsDisks, StepKeepsShape, StepLowersDebt, TrackedRoom, TrackedStepFollows, TrackedStepKeepsDisks, TrackedStepKeepsLogs, TrackedStepKeepsShape, TrackedStepKeepsSnapshots, TrackedStepTells, TrackingBegins, TrackingEnds, UntrackedIsGood, UsesFollow};

/// A refused command changes neither disks nor shape.
pub fn refused_step_keeps()
    ensures { RefusedKeeps }
{}

/// The collector is idle only where no operation runs, no hidden image is without children, no volume
/// is to be cut, and no image may be folded into its parent.
pub fn idle_is_done()
    ensures done { IdleIsDone }
{}

/// A step keeps a shape well-formed.
pub fn step_keeps_shape()
    ensures { StepKeepsShape }
{}

/// The shape of a new repository is well-formed, and has no disks.
pub fn new_shape_is_well_formed()
    ensures new { NewIsWellFormed }
    ensures disks { NewHasNoDisks }
{}

/// Each step of the collector but the blocked and the idle one works off debt.
pub fn step_lowers_debt()
    ensures debt { StepLowersDebt }
{}

/// A step keeps disks and shape together: the disks are those of the records, and each is as large as
/// its image.
pub fn step_keeps_disks()
    ensures { StepKeepsDisks }
{}

/// No step of the collector changes a disk.
pub fn collector_keeps_disks()
    ensures disks { CollectorKeepsDisks }
{}

/// The volume of a VHD image may get more of the free extents, or be cut, and an image may get a greater size: the moments
/// inside a command, which no step ends in.
pub fn moments_keep_shape()
    ensures extents { ExtentsKeepShape }
    ensures size { SizeKeepsShape }
{}

/// How many attached disks read through an image, after a change of the images or of the attachments.
pub fn uses_follow()
    ensures { UsesFollow }
{}

/// A step with what it does to logs keeps a shape well-formed: the log that it makes finds room behind the step.
pub fn tracked_step_keeps_shape()
    ensures shape { TrackedStepKeepsShape }
    ensures room { TrackedRoom }
{}

/// A step with what it does to logs keeps them good, and each with a tag that of a snapshot.
pub fn tracked_step_keeps_logs()
    ensures logs { TrackedStepKeepsLogs }
    ensures snapshots { TrackedStepKeepsSnapshots }
{}

/// What logs tell of disks stays true over a step.
pub fn tracked_step_tells()
    ensures { TrackedStepTells }
{}

/// What a step does to logs changes neither disks nor reply, and is nothing where no disk is tracked.
pub fn tracked_step_follows()
    ensures disks { TrackedStepKeepsDisks }
    ensures step { TrackedStepFollows }
{}

/// Tracking begins for a disk, and ends: the shape stays well-formed, logs stay good, and what they tell stays true.
pub fn tracking_keeps()
    ensures begins { TrackingBegins }
    ensures ends { TrackingEnds }
    ensures none { UntrackedIsGood }
{}
