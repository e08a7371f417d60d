//! A record, and what a sector reads as.

ghost use Rattle.std.specs.Prelude.{◌≡◌, ◌≤◌, false, length, sum, IfSome};
ghost use Rattle.sm_record.specs.declared.records.Reading.TheVariants.{Taken};
ghost use Rattle.sm_record.specs.Records.{IsRecord, IfTaken, reading, record_in, record_sector, fields, is_sealed, given, flag_of, label_of, is_zeros};
ghost use Rattle.uuid.specs.Parts.{is_nil_bytes};

use byteorder::{BigEndian, ByteOrder};
use sm_base::Label;
use uuid::Uuid;

/// The letters in front of each record.
const COOKIE: [u8; 8] = *b"LVHDDISK";

/// What is kept of a disk beside its data.
#[derive(Clone, Copy)]
pub struct Record {
    /// The disk. Not nil.
    pub uuid: Uuid,
    /// The text by which users know the disk.
    pub label: Label,
    /// The disk of which this one is a snapshot or a clone, where it is one. Not nil.
    pub origin: Option<Uuid>,
    /// Whether the disk is a snapshot, which is never written.
    pub read_only: bool,
}

/// What one sector of the volume of records reads as.
#[derive(Clone, Copy)]
pub enum Reading {
    /// Zeros: no record is here.
    Free,
    /// This record, byte for byte.
    Taken(Record),
    /// Neither.
    Damaged,
}

impl Record {
    /// What a sector of 512 bytes reads as.
    #[tactic(auto, unfolding(crate::specs::Records::reading))]
    pub fn read(bytes: &[u8; 512]) -> Reading
        ensures exact { result ≡ reading bytes.now }
        ensures taken { IfTaken result (λ r. IsRecord r × (bytes.now ≡ record_sector r)) }
    {
        if all_zeros(bytes) {
            return Reading::Free;
        }
        match record_in(bytes) {
            Some(record) => Reading::Taken(record),
            None => Reading::Damaged,
        }
    }

    /// Writes the record's sector, all 512 bytes. A record whose UUID or origin is nil has none.
    #[tactic(auto, unfolding(crate::specs::Records::record_sector))]
    pub fn write(&self, to: &mut [u8; 512])
        requires uuid { is_nil_bytes self.now.uuid ≡ false }
        requires origin { IfSome self.now.origin (λ u. is_nil_bytes u ≡ false) }
        ensures exact { to.new ≡ record_sector self.now }
        ensures again { reading to.new ≡ Taken self.now }
    {
        let (front, end) = to.split_at_mut(508);
        self.write_fields(front);
        BigEndian::write_u32(end, sum_of(front));
    }

    /// Writes the fields, which are all but the sum.
    #[tactic(auto, unfolding(crate::specs::Records::fields))]
    fn write_fields(&self, to: &mut [u8])
        requires room { length to.old ≡ 508 }
        requires uuid { is_nil_bytes self.now.uuid ≡ false }
        requires origin { IfSome self.now.origin (λ u. is_nil_bytes u ≡ false) }
        ensures fields { to.new ≡ fields self.now }
        ensures proper { IsRecord self.now }
    {
        let origin = self.origin.unwrap_or(Uuid::nil());
        let text = self.label.text();
        to[..8].copy_from_slice(&COOKIE);
        to[8..24].copy_from_slice(self.uuid.as_bytes());
        to[24..40].copy_from_slice(origin.as_bytes());
        to[40] = u8::from(self.read_only);
        to[41] = text.len() as u8;
        to[42..42 + text.len()].copy_from_slice(text);
        to[42 + text.len()..].fill(0);
    }
}

/// Whether all bytes are zeros.
fn all_zeros(bytes: &[u8]) -> bool
    ensures { result ≡ is_zeros bytes.now }
{
    bytes.iter().all(|b| *b == 0)
}

/// The sum of the bytes.
fn sum_of(bytes: &[u8]) -> u32
    requires { length bytes.now ≤ 512 }
    ensures { result ≡ sum bytes.now }
{
    bytes.iter().map(|b| u32::from(*b)).sum()
}

/// Whether the cookie stands in front and the sum at the end.
#[tactic(auto, unfolding(crate::specs::Records::is_sealed))]
fn is_sealed(bytes: &[u8; 512]) -> bool
    ensures { result ≡ is_sealed bytes.now }
{
    let (front, end) = bytes.split_at(508);
    front.starts_with(&COOKIE) && BigEndian::read_u32(end) == sum_of(front)
}

/// The UUID in sixteen bytes, where it is not nil.
fn given(bytes: &[u8]) -> Option<Uuid>
    requires { length bytes.now ≡ 16 }
    ensures { result ≡ given bytes.now }
{
    let uuid = Uuid::from_slice(bytes).ok()?;
    (!uuid.is_nil()).then_some(uuid)
}

/// The flag that a byte stands for.
fn flag_of(byte: u8) -> Option<bool>
    ensures { result ≡ flag_of byte }
{
    match byte {
        0 => Some(false),
        1 => Some(true),
        _ => None,
    }
}

/// The label of so many bytes, where zeros follow it.
#[tactic(auto, unfolding(crate::specs::Records::label_of))]
fn label_of(count: usize, bytes: &[u8]) -> Option<Label>
    requires { count ≤ length bytes.now }
    ensures { result ≡ label_of count bytes.now }
{
    let (text, rest) = bytes.split_at(count);
    let label = Label::of(text)?;
    all_zeros(rest).then_some(label)
}

/// The record that stands in the sector.
#[tactic(auto, unfolding(crate::specs::Records::record_in))]
fn record_in(bytes: &[u8; 512]) -> Option<Record>
    ensures { result ≡ record_in bytes.now }
{
    let uuid = given(&bytes[8..24])?;
    let origin = given(&bytes[24..40]);
    let read_only = flag_of(bytes[40])?;
    let label = label_of(usize::from(bytes[41]), &bytes[42..508])?;
    if !is_sealed(bytes) {
        return None;
    }
    Some(Record {
        uuid,
        label,
        origin,
        read_only,
    })
}
