//! The header of a dynamic or differencing image.

ghost use Rattle.std.specs.Prelude.{◌≡◌, ◌++◌, take, drop, replicate, IfOk, IfErr};
ghost use Rattle.std.specs.List.{concat};
ghost use Rattle.vhd_fields.specs.Headers.{HeaderFits, HeaderOf, IsHeader, header_back, header_bytes, header_fault, header_fields, header_front, header_read, is_block, is_entries, is_table_offset};
ghost use Rattle.vhd_fields.specs.ParentNames.{IsParent};

use crate::checksums::{checksum_of, seal};
use crate::faults::FieldFault;
use crate::parents::{field_of, parent_of};
use crate::places::{VERSION, bytes_of, put, put_u32, put_u64, u32_of, u64_of};
use sm_base::Name;
use uuid::Uuid;

/// The fields of a header. Sizes and offsets are in bytes.
#[derive(Clone, Copy, PartialEq, Eq)]
pub struct Header {
    /// Where the block allocation table begins.
    pub table_offset: u64,
    /// How many entries the table has.
    pub entries: u32,
    /// The size of a block.
    pub block: u32,
    /// The unique id of the parent.
    pub parent_uid: Uuid,
    /// The time stamp of the parent.
    pub parent_stamp: u32,
    /// The volume of the parent.
    pub parent: Option<Name>,
}

// The table begins at a whole sector, behind the footer's copy and the header.
fn is_table_offset(offset: u64) -> bool
    ensures { result ≡ is_table_offset offset }
{
    offset % 512 == 0 && 1536 <= offset
}

// From 1 to 1,044,480 entries.
fn is_entries(entries: u32) -> bool
    ensures { result ≡ is_entries entries }
{
    1 <= entries && entries <= 1_044_480
}

// A power of two from 4 KiB to 2 MiB.
fn is_block(block: u32) -> bool
    ensures { result ≡ is_block block }
{
    block.is_power_of_two() && 4096 <= block && block <= 2_097_152
}

impl Header {
    /// The fields of a header, unless a test fails.
    ///
    /// The tests, in this order: the cookie; the checksum; the version; the table offset, whole sectors from 1,536
    /// bytes on; the number of entries, 1 to 1,044,480; the block size, a power of two from 4,096 to 2,097,152
    /// bytes; the parent's name, all zeros or the name of a VHD or raw image followed by zeros. The parent's unique
    /// id and time stamp are taken as they are, and the data offset, the parent locators and the reserved bytes are
    /// not read. Source: the VHD specification's 'Dynamic Disk Header Format'.
    ///
    /// # Errors
    ///
    /// The fault of the first test that fails.
    pub fn read(bytes: &[u8; 1024]) -> Result<Header, FieldFault>
        ensures fields { IfOk result (HeaderOf bytes.now) }
        ensures fault { IfErr result (λ fault. header_fault bytes.now ≡ Some fault) }
        ensures exact { result ≡ header_read bytes.now }
    {
        match Header::fault_of(bytes) {
            None => Ok(Header::fields_of(bytes)),
            Some(fault) => Err(fault),
        }
    }

    // The first test that the bytes fail.
    #[tactic(auto, unfolding(crate::specs::Headers::header_tests))]
    fn fault_of(bytes: &[u8; 1024]) -> Option<FieldFault>
        ensures { result ≡ header_fault bytes.now }
    {
        if bytes_of(bytes, 0) != *b"cxsparse" {
            return Some(FieldFault::Cookie);
        }
        if u32_of(bytes, 36) != checksum_of(bytes, 36) {
            return Some(FieldFault::Checksum);
        }
        if u32_of(bytes, 24) != VERSION {
            return Some(FieldFault::Version);
        }
        if !is_table_offset(u64_of(bytes, 16)) {
            return Some(FieldFault::Field { offset: 16 });
        }
        if !is_entries(u32_of(bytes, 28)) {
            return Some(FieldFault::Field { offset: 28 });
        }
        if !is_block(u32_of(bytes, 32)) {
            return Some(FieldFault::Field { offset: 32 });
        }
        if parent_of(&bytes_of(bytes, 64)).is_none() {
            return Some(FieldFault::Field { offset: 64 });
        }
        None
    }

    // The fields at their offsets.
    #[tactic(auto, unfolding(crate::specs::Headers::header_fields))]
    fn fields_of(bytes: &[u8; 1024]) -> Header
        ensures { result ≡ header_fields bytes.now }
    {
        Header {
            table_offset: u64_of(bytes, 16),
            entries: u32_of(bytes, 28),
            block: u32_of(bytes, 32),
            parent_uid: Uuid::from_bytes(bytes_of(bytes, 40)),
            parent_stamp: u32_of(bytes, 56),
            parent: parent_of(&bytes_of(bytes, 64)).unwrap_or(None),
        }
    }

    /// Writes the fields as a header, with the checksum, the data offset all ones and version 1.0; parent locators
    /// and reserved bytes are zeros. Nothing of the bytes stays. A parent's name ends within the first sector, so
    /// another parent changes that sector alone.
    /// Source: the VHD specification's 'Dynamic Disk Header Format'.
    pub fn write(&self, to: &mut [u8; 1024])
        ensures bytes { to.new ≡ header_bytes self.now }
        ensures reads_back { IsHeader self.now → header_read to.new ≡ Ok self.now }
        ensures second_sector { IsParent self.now.parent → drop 512 to.new ≡ replicate 512 0 }
    {
        let at = self.put_front(to);
        let at = put_u32(to, at, 0);
        self.put_back(to, at);
        seal(to, 36);
    }

    // Writes the fields in front of the checksum, and gives the checksum's offset.
    fn put_front(self, to: &mut [u8; 1024]) -> usize
        ensures next { result ≡ 36 }
        ensures written { take 36 to.new ≡ concat (header_front self) }
        ensures room { HeaderFits self }
    {
        let at = put(to, 0, b"cxsparse");
        let at = put_u64(to, at, u64::MAX);
        let at = put_u64(to, at, self.table_offset);
        let at = put_u32(to, at, VERSION);
        let at = put_u32(to, at, self.entries);
        put_u32(to, at, self.block)
    }

    // Writes the fields behind the checksum.
    fn put_back(&self, to: &mut [u8; 1024], at: usize)
        requires { at ≡ 40 }
        ensures { to.new ≡ take 40 to.old ++ concat (header_back self.now) }
    {
        let at = put(to, at, self.parent_uid.as_bytes());
        let at = put_u32(to, at, self.parent_stamp);
        let at = put_u32(to, at, 0);
        let at = put(to, at, &field_of(&self.parent));
        put(to, at, &[0; 448]);
    }
}
