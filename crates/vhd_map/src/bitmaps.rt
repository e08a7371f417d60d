//! The bitmap of a block, one sector.
ghost use Rattle.std.specs.Prelude.{◌≡◌, ◌≢◌, ℕ, ◌<◌, true};
ghost use Rattle.vhd_map.specs.Bitmaps.{is_set};

/// Whether the bit of this sector of the block is set: whether the image holds the sector. The block's
/// first sector is the most significant bit of the first byte.
pub fn bit(map: &[u8; 512], sector: u32) -> bool
    requires { sector < 4096 }
    ensures { result ≡ is_set map.now sector }
{
    map[(sector / 8) as usize] >> (7 - sector % 8) & 1 == 1
}

/// Sets the bit of this sector of the block.
pub fn set_bit(map: &mut [u8; 512], sector: u32)
    requires { sector < 4096 }
    ensures set { is_set map.new sector ≡ true }
    ensures others { (i : ℕ) → i ≢ sector → is_set map.new i ≡ is_set map.old i }
{
    map[(sector / 8) as usize] |= 1 << (7 - sector % 8);
}
