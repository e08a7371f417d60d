//! The sectors of a write, block by block.

ghost use Rattle.std.specs.Prelude.{◌≡◌, ◌≢◌, ℕ, ◌+◌, ◌-◌, ◌*◌, ◌/◌, ◌<◌, ◌≤◌, ◌^◌, length};
ghost use Rattle.vhd_write.specs.Spans.{IsSpan, IsPart};

/// The sectors of a write, and the blocks that they lie in.
#[derive(Clone, Copy)]
pub(crate) struct Span {
    /// The sectors of a block.
    pub block: u32,
    /// The first sector, counted from the disk's begin.
    pub sector: u64,
    /// How many sectors they are.
    pub count: u64,
    /// The first block that they lie in.
    pub first: u32,
    /// One more than the last.
    pub end: u32,
    pub ghost in_range: { IsSpan block sector count first end },
}

/// The sectors of one block among those of a write.
#[derive(Clone, Copy)]
pub(crate) struct Part {
    /// The first of them, counted from the block's begin.
    pub first: u32,
    /// How many they are.
    pub count: u32,
    /// How many sectors of the bytes stand in front of theirs.
    pub skip: u64,
}

/// The sectors of a block that the write touches.
pub(crate) fn part_of(span: &Span, block: u32) -> Part
    requires from_first { span.now.first ≤ block }
    requires to_end { block < span.now.end }
    ensures { IsPart span.now.block block span.now.sector (512 * span.now.count) result.first
        result.count result.skip }
{
    let begin = u64::from(block) * u64::from(span.block);
    let first = span.sector.max(begin);
    let past = (span.sector + span.count).min(begin + u64::from(span.block));
    Part {
        first: (first - begin) as u32,
        count: (past - first) as u32,
        skip: first - span.sector,
    }
}
