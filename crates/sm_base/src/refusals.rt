//! Why a line of a script is refused.

ghost use Rattle.std.specs.Prelude.{◌≡◌};
ghost use Rattle.sm_base.specs.Refusals.{number_of};

/// Why a line is refused, in the order of the tests. The first that applies is the answer.
#[derive(Clone, Copy, PartialEq, Eq)]
pub enum Refusal {
    /// The line spells no command that is built.
    BadLine,
    /// The new UUID is nil or of the form that base images have.
    ReservedName,
    /// No disk has the UUID.
    UnknownDisk,
    /// A disk or a hidden image has the new UUID.
    NameTaken,
    /// The disk is attached.
    InUse,
    /// The disk is not attached.
    NotAttached,
    /// The disk is a snapshot, or is attached for reading alone.
    ReadOnly,
    /// The disk's volume is raw.
    RawDisk,
    /// The disk is tracked.
    Tracked,
    /// The disk is not tracked, or the logs do not lead from the later disk back to the earlier one.
    NotTracked,
    /// The sectors are none, too many, or not all within the disk.
    OutOfRange,
    /// The size is 0 or too large.
    BadSize,
    /// The size is below the present size.
    Shrink,
    /// The disk's chain has as many images as a chain may have.
    ChainTooLong { depth: u32 },
    /// The images that there are and those that are needed are too many together.
    TooMany { have: u32, need: u32 },
    /// The table's sequence number is nearly used up.
    SequenceSpent,
    /// More extents are needed than are free.
    NoSpace { need: u32, free: u32 },
    /// Memory ran out before the first write of the step.
    NoMemory,
    /// The file that is imported is that of a differencing disk.
    Differencing,
    /// What the file says in this sector, counted from its begin, is wrong.
    BadFile { sector: u64 },
    /// The file ended too early, behind so many whole sectors.
    Cut { sector: u64 },
}

impl Refusal {
    /// The refusal's number, from 1 to 21: in the order of the tests, but for those of tracked disks, which are 20 and 21.
    pub fn number(&self) -> u8
        ensures { result ≡ number_of self.now }
    {
        match self {
            Refusal::BadLine => 1,
            Refusal::ReservedName => 2,
            Refusal::UnknownDisk => 3,
            Refusal::NameTaken => 4,
            Refusal::InUse => 5,
            Refusal::NotAttached => 6,
            Refusal::ReadOnly => 7,
            Refusal::RawDisk => 8,
            Refusal::Tracked => 20,
            Refusal::NotTracked => 21,
            Refusal::OutOfRange => 9,
            Refusal::BadSize => 10,
            Refusal::Shrink => 11,
            Refusal::ChainTooLong { .. } => 12,
            Refusal::TooMany { .. } => 13,
            Refusal::SequenceSpent => 14,
            Refusal::NoSpace { .. } => 15,
            Refusal::NoMemory => 16,
            Refusal::Differencing => 17,
            Refusal::BadFile { .. } => 18,
            Refusal::Cut { .. } => 19,
        }
    }
}
