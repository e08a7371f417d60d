//! The limits of a repository (this project's format).

/// The bytes of a sector.
pub const SECTOR: u64 = 512;

/// The most images.
pub const IMAGE_LIMIT: usize = 500;

/// The most images of a chain.
pub const CHAIN_LIMIT: u32 = 30;

/// The places of disks' records, one sector each.
pub const RECORD_LIMIT: u32 = 512;

/// The last sequence number of a table, which a change leaves.
pub const LAST_SEQUENCE: u64 = (1 << 48) - 1;

/// The sequence number from which on no new disk is taken.
pub const SPENT_SEQUENCE: u64 = (1 << 48) - 16;
