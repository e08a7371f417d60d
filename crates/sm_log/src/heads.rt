//! The head of a log, and what a sector reads as.

ghost use Rattle.std.specs.Prelude.{◌≡◌, ◌≤◌, length, sum};
ghost use Rattle.sm_record.specs.Records.{is_zeros};
ghost use Rattle.sm_log.specs.Heads.{head_fields, head_in, head_sector, is_sealed};

use byteorder::{BigEndian, ByteOrder};

/// The letters in front of each head.
const COOKIE: [u8; 8] = *b"LVHDCBTL";

/// What a log's first sector says of it.
#[derive(Clone, Copy)]
pub struct Head {
    /// By which other logs name this one, 0 for a disk that is no snapshot.
    pub tag: u64,
    /// The tag of the snapshot since which the log has bits, 0 for none.
    pub since: u64,
    /// The number of the disk's pieces.
    pub pieces: u32,
}

impl Head {
    /// The head's sector.
    #[tactic(auto, unfolding(crate::specs::Heads::head_sector))]
    pub fn to_sector(&self) -> [u8; 512]
        ensures { result ≡ head_sector self.now }
    {
        let mut sector = [0; 512];
        let (front, end) = sector.split_at_mut(508);
        self.write_fields(front);
        BigEndian::write_u32(end, sum_of(front));
        sector
    }

    /// Writes the fields, which are all but the sum.
    #[tactic(auto, unfolding(crate::specs::Heads::head_fields))]
    fn write_fields(&self, to: &mut [u8])
        requires room { length to.old ≡ 508 }
        ensures fields { to.new ≡ head_fields self.now }
    {
        to[..8].copy_from_slice(&COOKIE);
        BigEndian::write_u64(&mut to[8..16], self.tag);
        BigEndian::write_u64(&mut to[16..24], self.since);
        BigEndian::write_u32(&mut to[24..28], self.pieces);
        to[28..].fill(0);
    }

    /// The head that stands in a sector of 512 bytes; None exactly where none does.
    #[tactic(auto, unfolding(crate::specs::Heads::head_in))]
    pub fn read(sector: &[u8; 512]) -> Option<Head>
        ensures { result ≡ head_in sector.now }
    {
        if !is_sealed(sector) {
            return None;
        }
        Some(Head {
            tag: BigEndian::read_u64(&sector[8..16]),
            since: BigEndian::read_u64(&sector[16..24]),
            pieces: BigEndian::read_u32(&sector[24..28]),
        })
    }
}

/// Whether all bytes are zeros.
fn all_zeros(bytes: &[u8]) -> bool
    ensures { result ≡ is_zeros bytes.now }
{
    bytes.iter().all(|b| *b == 0)
}

/// The sum of the bytes.
fn sum_of(bytes: &[u8]) -> u32
    requires { length bytes.now ≤ 512 }
    ensures { result ≡ sum bytes.now }
{
    bytes.iter().map(|b| u32::from(*b)).sum()
}

/// Whether the cookie stands in front, zeros behind the numbers, and the sum at the end.
#[tactic(auto, unfolding(crate::specs::Heads::is_sealed))]
fn is_sealed(sector: &[u8; 512]) -> bool
    ensures { result ≡ is_sealed sector.now }
{
    let (front, end) = sector.split_at(508);
    front.starts_with(&COOKIE)
        && all_zeros(&front[28..])
        && BigEndian::read_u32(end) == sum_of(front)
}
