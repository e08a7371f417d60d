//! The names of volumes, and the UUIDs of base images. A journal entry is a volume too: its name carries
//! the entry.
//!
//! A name is read by its front and the places of its parts. `uuid` takes four forms of text in either case,
//! and std leading zeros and a sign, so what was read is spelled again and compared: that nothing else is
//! read as a name rests on this comparison.

ghost use Rattle.std.specs.Prelude.{◌≡◌, ◌≢◌, ℕ, ◌+◌, ◌<◌, ◌≤◌, ◌^◌, Some, ◌++◌, drop, length, IfSome, IfNone, IsTrue};
ghost use Rattle.sm_base.specs.Kinds.{is_entry};
ghost use Rattle.sm_base.specs.Names.{IsName, spelling, name_cmp, base_uuid as base_uuid_of, is_base as is_base_of};

use crate::texts::{decimal_at, put, put_decimal, put_uuid, uuid_at};
use std::cmp::Ordering;
use uuid::Uuid;

/// The name of a volume of the group. The last five are journal entries, which hold nothing; the others hold data.
#[derive(Clone, Copy, PartialEq, Eq, Hash)]
pub enum Name {
    /// The volume of the disks' records.
    Mgt,
    /// A VHD image.
    Vhd(Uuid),
    /// A raw image.
    Raw(Uuid),
    /// The old leaf of a leaf-coalesce, which is on its way out.
    Old(Uuid),
    /// The log of a tracked disk.
    Cbt(Uuid),
    /// A fork is being made: the disk becomes the base, and the twin is the new disk.
    Clone { disk: Uuid, base: Uuid, twin: Uuid },
    /// An image is being enlarged, and had so many extents before.
    Inflate { image: Uuid, extents: u32 },
    /// The blocks of the child are being copied into its parent.
    Coalesce { child: Uuid, parent: Uuid },
    /// The children of the child are being linked to its parent.
    Relink { child: Uuid, parent: Uuid },
    /// The blocks of a leaf are being copied into its parent, which takes its name.
    Leaf { leaf: Uuid, parent: Uuid },
}

impl Name {
    /// The name that the bytes spell, or `None` where they spell none. A name is spelled in lower case, and
    /// enlarging from no extents has no name.
    pub fn read(bytes: &[u8]) -> Option<Name>
        ensures named { IfSome result (λ n. IsName n × (spelling n ≡ bytes.now)) }
        ensures none { IfNone result ((n : Name) → IsName n → spelling n ≢ bytes.now) }
    {
        let name = parse(bytes)?;
        let mut text = [0; 128];
        let length = name.spell(&mut text);
        if &text[..length] == bytes {
            Some(name)
        } else {
            None
        }
    }

    /// Writes the spelling to the buffer's beginning, and answers its length in bytes, at most 116. The
    /// bytes past it stay.
    pub fn spell(&self, to: &mut [u8; 128]) -> usize
        ensures text { to.new ≡ spelling self.now ++ drop (length (spelling self.now)) to.old }
        ensures length { result ≡ length (spelling self.now) }
        ensures most { result ≤ 116 }
    {
        match self {
            Name::Mgt => put(to, 0, b"MGT"),
            Name::Vhd(uuid) => put_uuid(to, 0, b"VHD-", uuid),
            Name::Raw(uuid) => put_uuid(to, 0, b"LV-", uuid),
            Name::Old(uuid) => put_uuid(to, 0, b"OLD_", uuid),
            Name::Cbt(uuid) => put_uuid(to, 0, b"CBT-", uuid),
            Name::Clone { disk, base, twin } => {
                let disk_end = put_uuid(to, 0, b"clone_", disk);
                let base_end = put_uuid(to, disk_end, b"_", base);
                put_uuid(to, base_end, b"_", twin)
            }
            Name::Inflate { image, extents } => {
                let image_end = put_uuid(to, 0, b"inflate_", image);
                put_decimal(to, image_end, b"_", *extents)
            }
            Name::Coalesce { child, parent } => {
                let child_end = put_uuid(to, 0, b"coalesce_", child);
                put_uuid(to, child_end, b"_", parent)
            }
            Name::Relink { child, parent } => {
                let child_end = put_uuid(to, 0, b"relink_", child);
                put_uuid(to, child_end, b"_", parent)
            }
            Name::Leaf { leaf, parent } => {
                let leaf_end = put_uuid(to, 0, b"leaf_", leaf);
                put_uuid(to, leaf_end, b"_", parent)
            }
        }
    }

    /// The order of names, which is that of their spelled bytes. It is a total order, and proper names that
    /// it does not tell apart are one name.
    pub fn compare(&self, other: &Name) -> Ordering
        ensures { result ≡ name_cmp self.now other.now }
    {
        let mut own = [0; 128];
        let mut others = [0; 128];
        let own_length = self.spell(&mut own);
        let other_length = other.spell(&mut others);
        own[..own_length].cmp(&others[..other_length])
    }
}

// The only name that the bytes can spell. It may be spelled otherwise.
fn parse(bytes: &[u8]) -> Option<Name>
    ensures proper { IfSome result IsName }
    ensures found { (n : Name) → IsName n → spelling n ≡ bytes.now → result ≡ Some n }
{
    if bytes == b"MGT".as_slice() {
        Some(Name::Mgt)
    } else if bytes.starts_with(b"VHD-") {
        let uuid = uuid_at(bytes, 4)?;
        Some(Name::Vhd(uuid))
    } else if bytes.starts_with(b"LV-") {
        let uuid = uuid_at(bytes, 3)?;
        Some(Name::Raw(uuid))
    } else if bytes.starts_with(b"OLD_") {
        let uuid = uuid_at(bytes, 4)?;
        Some(Name::Old(uuid))
    } else if bytes.starts_with(b"CBT-") {
        let uuid = uuid_at(bytes, 4)?;
        Some(Name::Cbt(uuid))
    } else {
        parse_entry(bytes)
    }
}

// The only name of a journal entry that the bytes can spell. It may be spelled otherwise.
fn parse_entry(bytes: &[u8]) -> Option<Name>
    ensures proper { IfSome result IsName }
    ensures found { (n : Name) → IsName n → IsTrue (is_entry n) → spelling n ≡ bytes.now → result ≡ Some n }
{
    if bytes.starts_with(b"clone_") {
        let disk = uuid_at(bytes, 6)?;
        let base = uuid_at(bytes, 43)?;
        let twin = uuid_at(bytes, 80)?;
        Some(Name::Clone { disk, base, twin })
    } else if bytes.starts_with(b"inflate_") {
        let image = uuid_at(bytes, 8)?;
        let extents = decimal_at(bytes, 45)?;
        if extents == 0 {
            return None;
        }
        Some(Name::Inflate { image, extents })
    } else if bytes.starts_with(b"coalesce_") {
        let child = uuid_at(bytes, 9)?;
        let parent = uuid_at(bytes, 46)?;
        Some(Name::Coalesce { child, parent })
    } else if bytes.starts_with(b"relink_") {
        let child = uuid_at(bytes, 7)?;
        let parent = uuid_at(bytes, 44)?;
        Some(Name::Relink { child, parent })
    } else if bytes.starts_with(b"leaf_") {
        let leaf = uuid_at(bytes, 5)?;
        let parent = uuid_at(bytes, 42)?;
        Some(Name::Leaf { leaf, parent })
    } else {
        None
    }
}

/// The bytes that all UUIDs of base images begin with.
const BASE_FRONT: [u8; 10] = [0x6c, 0x76, 0x68, 0x64, 0, 0, 0x80, 0, 0x80, 0];

/// The UUID of a base image, from the table's sequence number as the command begins:
/// `6c766864-0000-8000-8000-` and the number in 12 hexadecimal digits.
pub fn base_uuid(sequence: u64) -> Uuid
    requires { sequence < 2 ^ 48 }
    ensures { result ≡ base_uuid_of sequence }
{
    let mut bytes = [0; 16];
    bytes[..10].copy_from_slice(&BASE_FRONT);
    bytes[10..].copy_from_slice(&sequence.to_be_bytes()[2..]);
    Uuid::from_bytes(bytes)
}

/// Whether a UUID has the form that base images have.
pub fn is_base(uuid: &Uuid) -> bool
    ensures { result ≡ is_base_of uuid.now }
{
    &uuid.as_bytes()[..10] == BASE_FRONT.as_slice()
}
