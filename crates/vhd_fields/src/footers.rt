//! The footer of an image.

ghost use Rattle.std.specs.Prelude.{◌≡◌, ◌<◌, ℕ, List, length, take, All, IfOk, IfErr};
ghost use Rattle.std.specs.List.{concat};
ghost use Rattle.vhd_fields.specs.Footers.{FooterOf, FooterFits, IsFooter, KeepsFields, footer_bytes, footer_fault, footer_fields, footer_front, footer_read, is_data_offset, is_disk_type, is_size};

use crate::checksums::{checksum_of, seal};
use crate::faults::FieldFault;
use crate::geometries::geometry_of;
use crate::places::{VERSION, bytes_of, put, put_u32, put_u64, u32_of, u64_of};
use uuid::Uuid;

/// The fields of a footer. Sizes and offsets are in bytes.
#[derive(Clone, Copy, PartialEq, Eq)]
pub struct Footer {
    /// When the image was made, in seconds since the beginning of the year 2000, UTC.
    pub stamp: u32,
    /// The application that made the image.
    pub creator: [u8; 4],
    /// The version of that application.
    pub creator_version: u32,
    /// The operating system on which the image was made.
    pub host: u32,
    /// The size of the disk as the image was made.
    pub original: u64,
    /// The size of the disk.
    pub current: u64,
    /// The disk type: 2 fixed, 3 dynamic, 4 differencing.
    pub kind: u32,
    /// Where the dynamic header begins.
    pub data_offset: u64,
    /// The image's unique id.
    pub uid: Uuid,
}

// A dynamic or differencing image has its header at byte 512.
fn is_data_offset(kind: u32, offset: u64) -> bool
    ensures { result ≡ is_data_offset kind offset }
{
    !(kind == 3 || kind == 4) || offset == 512
}

// Whole sectors, and some.
fn is_size(size: u64) -> bool
    ensures { result ≡ is_size size }
{
    size % 512 == 0 && size != 0
}

// Fixed, dynamic or differencing.
fn is_disk_type(kind: u32) -> bool
    ensures { result ≡ is_disk_type kind }
{
    kind == 2 || kind == 3 || kind == 4
}

impl Footer {
    /// The fields of a footer, unless a test fails.
    ///
    /// The tests, in this order: the cookie; the checksum; the version; the data offset, 512 where the disk type
    /// is 3 or 4; the current size, whole sectors and not 0; the disk type, 2, 3 or 4. The other fields are taken as
    /// they are, and the geometry, the features, the saved state and the reserved bytes are not read.
    /// Source: the VHD specification's 'Hard Disk Footer Format'.
    ///
    /// # Errors
    ///
    /// The fault of the first test that fails.
    pub fn read(bytes: &[u8; 512]) -> Result<Footer, FieldFault>
        ensures fields { IfOk result (FooterOf bytes.now) }
        ensures fault { IfErr result (λ fault. footer_fault bytes.now ≡ Some fault) }
        ensures exact { result ≡ footer_read bytes.now }
    {
        match Footer::fault_of(bytes) {
            None => Ok(Footer::fields_of(bytes)),
            Some(fault) => Err(fault),
        }
    }

    // The first test that the bytes fail.
    #[tactic(auto, unfolding(crate::specs::Footers::footer_tests))]
    fn fault_of(bytes: &[u8; 512]) -> Option<FieldFault>
        ensures { result ≡ footer_fault bytes.now }
    {
        if bytes_of(bytes, 0) != *b"conectix" {
            return Some(FieldFault::Cookie);
        }
        if u32_of(bytes, 64) != checksum_of(bytes, 64) {
            return Some(FieldFault::Checksum);
        }
        if u32_of(bytes, 12) != VERSION {
            return Some(FieldFault::Version);
        }
        let kind = u32_of(bytes, 60);
        if !is_data_offset(kind, u64_of(bytes, 16)) {
            return Some(FieldFault::Field { offset: 16 });
        }
        if !is_size(u64_of(bytes, 48)) {
            return Some(FieldFault::Field { offset: 48 });
        }
        if !is_disk_type(kind) {
            return Some(FieldFault::Field { offset: 60 });
        }
        None
    }

    // The fields at their offsets.
    #[tactic(auto, unfolding(crate::specs::Footers::footer_fields))]
    fn fields_of(bytes: &[u8; 512]) -> Footer
        ensures { result ≡ footer_fields bytes.now }
    {
        Footer {
            stamp: u32_of(bytes, 24),
            creator: bytes_of(bytes, 28),
            creator_version: u32_of(bytes, 32),
            host: u32_of(bytes, 36),
            original: u64_of(bytes, 40),
            current: u64_of(bytes, 48),
            kind: u32_of(bytes, 60),
            data_offset: u64_of(bytes, 16),
            uid: Uuid::from_bytes(bytes_of(bytes, 68)),
        }
    }

    /// Writes the fields as a footer, with the checksum, the geometry of the current size, features 2 and version
    /// 1.0; saved state and reserved bytes are zeros. Nothing of the bytes stays.
    /// Source: the VHD specification's 'Hard Disk Footer Format'.
    pub fn write(&self, to: &mut [u8; 512])
        ensures bytes { to.new ≡ footer_bytes self.now }
        ensures reads_back { IsFooter self.now → footer_read to.new ≡ Ok self.now }
        // Of a footer that was read and is written again.
        ensures keeps { (old : List ℕ) → length old ≡ 512 → All (λ byte. byte < 256) old
            → FooterOf old self.now → KeepsFields old to.new }
    {
        let at = self.put_front(to);
        let at = put_u32(to, at, 0);
        let at = put(to, at, self.uid.as_bytes());
        put(to, at, &[0; 428]);
        seal(to, 64);
    }

    // Writes the fields in front of the checksum, and gives the checksum's offset.
    fn put_front(self, to: &mut [u8; 512]) -> usize
        ensures next { result ≡ 64 }
        ensures written { take 64 to.new ≡ concat (footer_front self) }
        ensures room { FooterFits self }
    {
        let at = put(to, 0, b"conectix");
        let at = put_u32(to, at, 2);
        let at = put_u32(to, at, VERSION);
        let at = put_u64(to, at, self.data_offset);
        let at = put_u32(to, at, self.stamp);
        let at = put(to, at, &self.creator);
        let at = put_u32(to, at, self.creator_version);
        let at = put_u32(to, at, self.host);
        let at = put_u64(to, at, self.original);
        let at = put_u64(to, at, self.current);
        let at = put(to, at, &geometry_of(self.current / 512));
        put_u32(to, at, self.kind)
    }
}
