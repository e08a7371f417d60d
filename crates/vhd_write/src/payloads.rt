//! The bytes of a write.

ghost use Rattle.std.specs.Prelude.{◌≡◌, ◌+◌, ◌*◌, ◌/◌, ◌<◌, ◌≤◌, length, replicate};
ghost use Rattle.vhd_write.specs.Payloads.{IsRun, piece_of};

use std::marker::Model;

/// The bytes of a sector.
const SECTOR: u64 = 512;

/// Where the bytes of a write come from.
#[derive(Drop)]
enum Source<'a> {
    /// They are given.
    Given {
        bytes: &'a [u8],
    },
    /// So many sectors of one byte. The piece, at least a sector, has this byte alone.
    Repeated {
        piece: &'a [u8],
        byte: u8,
        sectors: u64,
    },
}

/// The bytes of a write: given ones, or one byte over and over, of which only a piece is in memory. A contract sees the list of
/// them.
#[derive(Drop)]
pub struct Payload<'a> {
    source: Source<'a>,
}

impl<'a> Model for Payload<'a> {
    ghost use Rattle.std.specs.Prelude.{ℕ, List};

    ghost Value = { List ℕ };

    ghost use Rattle.vhd_write.specs.Payloads.{bytes_of, HasPiece};

    ghost view = { λ p. bytes_of p.source };

    ghost invariant = { λ p. HasPiece p.source };
}

/// So many sectors of some bytes, behind so many of them.
pub(crate) fn part(bytes: &[u8], skip: u64, count: u64) -> &[u8]
    requires inside { 512 * (skip + count) ≤ length bytes.now }
    ensures { result.now ≡ piece_of skip count bytes.now }
{
    let _long = bytes.len();
    let begin = SECTOR * skip;
    let end = begin + SECTOR * count;
    &bytes[begin as usize..end as usize]
}

impl<'a> Payload<'a> {
    /// These bytes.
    pub fn given(bytes: &'a [u8]) -> Payload<'a>
        ensures { result ≡ bytes.now }
    {
        Payload {
            source: Source::Given { bytes },
        }
    }

    /// So many sectors of one byte, from a piece of at least one sector that has this byte alone.
    pub fn repeated(piece: &'a [u8], byte: u8, sectors: u64) -> Payload<'a>
        requires some { 512 ≤ length piece.now }
        requires alike { piece.now ≡ replicate (length piece.now) byte }
        ensures { result ≡ replicate (512 * sectors) byte }
    {
        Payload {
            source: Source::Repeated {
                piece,
                byte,
                sectors,
            },
        }
    }

    /// How many whole sectors they are.
    pub(crate) fn sectors(&self) -> u64
        ensures { result ≡ length self.now / 512 }
    {
        match self.source {
            Source::Given { bytes } => bytes.len() as u64 / SECTOR,
            Source::Repeated { sectors, .. } => sectors,
        }
    }

    /// Sectors of them, behind so many: at least one and at most so many, as many as stand in memory in one piece.
    pub(crate) fn run(&self, skip: u64, most: u64) -> &[u8]
        requires some { 0 < most }
        requires inside { 512 * (skip + most) ≤ length self.now }
        ensures { IsRun skip most self.now result.now }
    {
        match self.source {
            Source::Given { bytes } => part(bytes, skip, most),
            Source::Repeated { piece, .. } => {
                let few = most.min(piece.len() as u64 / SECTOR);
                part(piece, 0, few)
            }
        }
    }
}
