//! The bits of a log in memory.

ghost use Rattle.std.specs.Prelude.{◌≡◌, ◌≤◌, ◌<◌, ◌+◌, ◌-◌, ◌*◌, ◌/◌, ℕ, Bool, List, false, true, length, drop, replicate, min, nat_le, IfOk, MatchBool};
ghost use Rattle.std.specs.List.{list_all};
ghost use Rattle.std.specs.String.{string_bytes};
ghost use Rattle.sm_base.specs.Numbers.{div_up};
ghost use Rattle.vhd_map.specs.Bitmaps.{is_set};
ghost use Rattle.sm_log.specs.Logs.{bit, either, marked, piece_sectors, pieces_touched, sector_bits};
ghost use Rattle.sm_log.specs.Coded.{base64, packed, packed_sector, spelled, spelled_first};
ghost use Rattle.sm_log.specs.Kept.{AllSet, AreBitsOf, AreClear, AreEither, AreFrom, AreSet, IsPut, SomeClear, with_sector};

use base64::engine::general_purpose::STANDARD;
use sm_base::NoMemory;
use std::alloc::Global;
use std::marker::Model;

/// The bytes of a sector.
const SECTOR: usize = 512;

/// The bits of a sector.
const SECTOR_BITS: usize = 4096;

/// The bits of a log: a flag for each piece of its disk.
#[derive(Drop)]
pub struct Bits {
    pieces: u32,
    bytes: Vec<u8>,
}

impl Model for Bits {
    ghost use Rattle.std.specs.Prelude.{List, Bool};
    ghost use Rattle.sm_log.specs.Kept.{bits_in, AreKept};

    ghost Value = { List Bool };

    ghost view = { λ a. bits_in a.pieces a.bytes.items };

    ghost invariant = { λ a. AreKept a.pieces a.bytes.items };
}

impl Bits {
    /// The bits of so many pieces, none of them set. It takes a bit for each, in whole sectors.
    pub fn new(alloc: Global, pieces: u32) -> Result<Bits, NoMemory>
        ensures { IfOk result (λ b. b ≡ replicate pieces false) }
    {
        let sectors = (pieces as usize + SECTOR_BITS - 1) / SECTOR_BITS;
        let Ok(bytes) = vec![in alloc; 0; SECTOR * sectors] else {
            return Err(NoMemory);
        };
        Ok(Bits { pieces, bytes })
    }

    /// The number of pieces.
    pub fn pieces(&self) -> u32
        ensures { result ≡ length self.now }
    {
        self.pieces
    }

    /// Whether the bit of a piece is set.
    pub fn is_marked(&self, piece: u32) -> bool
        requires { piece < length self.now }
        ensures { result ≡ bit self.now piece }
    {
        bit(&self.bytes, piece as usize)
    }

    /// Whether so many sectors of the disk from one on lie in pieces that have a bit here.
    pub fn has(&self, sector: u64, count: u64) -> bool
        ensures { result ≡ nat_le (sector + count) (piece_sectors * length self.now) }
    {
        is_within(sector, count, self.pieces)
    }

    /// Whether the bits of all pieces are set that so many sectors of the disk from one on reach. A piece behind the last has none that is
    /// set.
    pub fn are_marked(&self, sector: u64, count: u64) -> bool
        requires some { 1 ≤ count }
        ensures { result ≡ list_all (bit self.now) (pieces_touched sector count) }
    {
        let (first, end) = reached(sector, count, self.pieces);
        is_within(sector, count, self.pieces) && are_set(&self.bytes, first, end)
    }

    /// Sets the bits of the pieces that so many sectors of the disk from one on reach. Those behind the last piece are nothing.
    pub fn mark(&mut self, sector: u64, count: u64)
        requires some { 1 ≤ count }
        ensures { self.new ≡ marked (pieces_touched sector count) self.old }
    {
        let (first, end) = reached(sector, count, self.pieces);
        set_all(&mut self.bytes, first, end);
    }

    /// Clears all bits.
    pub fn clear(&mut self)
        ensures { self.new ≡ replicate (length self.old) false }
    {
        self.bytes.fill(0);
    }

    /// Sets each bit that is set in the other, which is of no more pieces.
    pub fn add(&mut self, other: &Bits)
        requires { length other.now ≤ length self.old }
        ensures { self.new ≡ either self.old other.now }
    {
        unite(&mut self.bytes, &other.bytes);
    }

    /// One sector of the bits, as it lies in the log: the first of its 4,096 bits in the most significant place of its first byte.
    pub fn to_sector(&self, index: u32) -> [u8; 512]
        requires { index < div_up (length self.now) sector_bits }
        ensures { result ≡ packed_sector index self.now }
    {
        copied(&self.bytes, index as usize)
    }

    /// So many sectors of the bits from one on, as they lie in the log.
    pub fn sectors(&self, index: u32, count: u32) -> &[u8]
        requires { index + count ≤ div_up (length self.now) sector_bits }
        ensures { result.now ≡ packed (512 * count) (drop (sector_bits * index) self.now) }
    {
        part(&self.bytes, index as usize, count as usize)
    }

    /// Takes the bits of one sector as it lies in the log. What it has behind the last piece is not looked at.
    pub fn from_sector(&mut self, index: u32, sector: &[u8; 512])
        requires { index < div_up (length self.old) sector_bits }
        ensures { self.new ≡ with_sector index sector.now self.old }
    {
        let first = SECTOR_BITS * index as usize;
        let end = (self.pieces as usize).min(first + SECTOR_BITS);
        take_all(&mut self.bytes, first, end, sector);
    }
}

/// The bits as text: in bytes, in base64.
pub fn spelled(alloc: Global, bits: &Bits) -> Result<String, NoMemory>
    ensures { IfOk result (λ text. string_bytes text ≡ spelled bits.now) }
{
    let count = (bits.pieces as usize + 7) / 8;
    text_of(alloc, &bits.bytes, count)
}

/// The first bits, so many, as text: in bytes that are filled up with zeros, in base64.
pub fn spelled_first(alloc: Global, bits: Bits, count: u32) -> Result<String, NoMemory>
    requires { count ≤ length bits }
    ensures { IfOk result (λ text. string_bytes text ≡ spelled_first count bits) }
{
    let pieces = bits.pieces();
    let Bits { mut bytes, .. } = bits;
    clear_all(&mut bytes, count as usize, pieces as usize);
    text_of(alloc, &bytes, (count as usize + 7) / 8)
}

/// Whether so many sectors from one on lie in the first pieces, so many.
fn is_within(sector: u64, count: u64, pieces: u32) -> bool
    ensures { result ≡ nat_le (sector + count) (piece_sectors * pieces) }
{
    let limit = 128 * u64::from(pieces);
    count <= limit && sector <= limit - count
}

/// The first of the pieces that so many sectors from one on reach, and the one behind the last of them, but for those that are not among
/// the first pieces, so many.
fn reached(sector: u64, count: u64, pieces: u32) -> (usize, usize)
    requires some { 1 ≤ count }
    ensures first { result.0 ≡ min (sector / piece_sectors) pieces }
    ensures end { result.1 ≡ min ((sector + count - 1) / piece_sectors + 1) pieces }
{
    let limit = u64::from(pieces);
    let first = (sector / 128).min(limit);
    let last = sector.saturating_add(count - 1) / 128;
    (first as usize, (last + 1).min(limit) as usize)
}

/// The first bytes, so many, in base64.
fn text_of(alloc: Global, bytes: &[u8], count: usize) -> Result<String, NoMemory>
    requires { count ≤ length bytes.now }
    ensures { IfOk result (λ text. (flags : List Bool) → AreBitsOf bytes.now flags → string_bytes text ≡ base64 (packed count flags)) }
{
    match STANDARD.encode(alloc, &bytes[..count]) {
        Ok(text) => Ok(text),
        Err(_) => Err(NoMemory),
    }
}

/// One sector of some bytes.
fn copied(bytes: &[u8], index: usize) -> [u8; 512]
    requires { 512 * index + 512 ≤ length bytes.now }
    ensures { (flags : List Bool) → AreBitsOf bytes.now flags → result ≡ packed_sector index flags }
{
    let at = SECTOR * index;
    let mut sector = [0; 512];
    sector.copy_from_slice(&bytes[at..at + SECTOR]);
    sector
}

/// So many sectors of some bytes.
fn part(bytes: &[u8], index: usize, count: usize) -> &[u8]
    requires { 512 * index + 512 * count ≤ length bytes.now }
    ensures { (flags : List Bool) → AreBitsOf bytes.now flags → result.now ≡ packed (512 * count) (drop (sector_bits * index) flags) }
{
    &bytes[SECTOR * index..SECTOR * index + SECTOR * count]
}

/// Whether the bits from one to before another are all set.
fn are_set(bytes: &[u8], first: usize, end: usize) -> bool
    requires order { first ≤ end }
    requires within { end ≤ 8 * length bytes.now }
    ensures { MatchBool result (AllSet first end bytes.now) (SomeClear first end bytes.now) }
{
    for piece in first..end {
        if !bit(bytes, piece) {
            return false;
        }
    }
    true
}

/// Whether a bit is set.
fn bit(bytes: &[u8], piece: usize) -> bool
    requires { piece / 8 < length bytes.now }
    ensures { result ≡ is_set bytes.now piece }
{
    bytes[piece / 8] >> (7 - piece % 8) & 1 == 1
}

/// Makes a bit as it is to be.
fn put_bit(bytes: &mut [u8], piece: usize, flag: bool)
    requires { piece / 8 < length bytes.old }
    ensures { IsPut piece flag bytes.old bytes.new }
{
    if bit(bytes, piece) != flag {
        bytes[piece / 8] ^= 1 << (7 - piece % 8);
    }
}

/// Sets the bits from one to before another.
fn set_all(bytes: &mut [u8], first: usize, end: usize)
    requires order { first ≤ end }
    requires within { end ≤ 8 * length bytes.old }
    ensures { AreSet first end bytes.old bytes.new }
{
    for piece in first..end {
        put_bit(bytes, piece, true);
    }
}

/// Clears the bits from one to before another.
fn clear_all(bytes: &mut [u8], first: usize, end: usize)
    requires order { first ≤ end }
    requires within { end ≤ 8 * length bytes.old }
    ensures { AreClear first end bytes.old bytes.new }
{
    for piece in first..end {
        put_bit(bytes, piece, false);
    }
}

/// Makes the bits from one to before another the first ones of a sector.
fn take_all(bytes: &mut [u8], first: usize, end: usize, sector: &[u8; 512])
    requires order { first ≤ end }
    requires few { end ≤ first + 4096 }
    requires within { end ≤ 8 * length bytes.old }
    ensures { AreFrom first end sector.now bytes.old bytes.new }
{
    for piece in first..end {
        put_bit(bytes, piece, bit(sector, piece - first));
    }
}

/// Sets each bit that is set in the others.
fn unite(bytes: &mut [u8], others: &[u8])
    requires { length others.now ≤ length bytes.old }
    ensures { AreEither others.now bytes.old bytes.new }
{
    for i in 0..others.len() {
        bytes[i] |= others[i];
    }
}
