//! What the counts mean.

ghost use Rattle.sm_refs.specs.FromScratch.{CallsKeepCounts, CountsAreFromScratch};

/// Where the counts are those from scratch, they are so after each call, over the chains as they are then.
pub fn law_calls_keep_counts()
    ensures { CallsKeepCounts }
{}

/// Where nothing was attached at first, then after any calls the count of a volume is the number of attached
/// disks whose chain has it.
pub fn law_counts_are_from_scratch()
    ensures { CountsAreFromScratch }
{}
