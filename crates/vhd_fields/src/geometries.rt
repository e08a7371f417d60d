//! The geometry of a size.

ghost use Rattle.std.specs.Prelude.{◌≡◌, ◌<◌, ◌/◌, ◌^◌};
ghost use Rattle.vhd_fields.specs.DiskGeometry.{chs, geometry};

/// The size from which a track has 255 sectors, in sectors.
const LARGE: u64 = 65535 * 16 * 63;

/// The size from which the geometry stays, in sectors.
const LARGEST: u64 = 65535 * 16 * 255;

/// The geometry of a size in sectors: the cylinders in two bytes, big-endian, the heads and the sectors per
/// track. Source: the VHD specification's appendix 'CHS Calculation'.
#[tactic(auto, unfolding(crate::specs::DiskGeometry::geometry))]
pub fn geometry_of(sectors: u64) -> [u8; 4]
    ensures { result ≡ geometry sectors }
{
    let sectors = sectors.min(LARGEST);
    if sectors >= LARGE {
        return chs_of(sectors / 255, 16, 255);
    }
    let tracks = sectors / 17;
    let heads = ((tracks + 1023) / 1024).max(4);
    if tracks < heads * 1024 && heads <= 16 {
        return chs_of(tracks, heads as u8, 17);
    }
    let tracks = sectors / 31;
    if tracks < 16 * 1024 {
        return chs_of(tracks, 16, 31);
    }
    chs_of(sectors / 63, 16, 63)
}

/// So many tracks under so many heads.
fn chs_of(tracks: u64, heads: u8, sectors: u8) -> [u8; 4]
    requires some { 0 < heads }
    requires few { tracks / heads < 2 ^ 16 }
    ensures { result ≡ chs tracks heads sectors }
{
    let [high, low] = ((tracks / u64::from(heads)) as u16).to_be_bytes();
    [high, low, heads, sectors]
}
