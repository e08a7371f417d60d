//! The fixed numbers of a repository.

ghost use Rattle.std.specs.Prelude.{◌≡◌, ℕ, ◌*◌, ◌≤◌, IfSome, IfNone};
ghost use Rattle.sm_base.specs.Numbers.{IsGeometry, first, thin, thick};

use crate::limits::SECTOR;

/// The sizes that a repository is formatted with. Extent and block are in sectors, powers of two: an
/// extent of 16 KiB to 4 MiB, a block of 4 KiB to 2 MiB and no larger than the extent. `entries` is T, the
/// number of entries of each block allocation table, from 1 to 1,044,480.
#[derive(Clone, Copy, PartialEq, Eq)]
pub struct Geometry {
    pub extent: u32,
    pub block: u32,
    pub entries: u32,
    pub ghost in_range: { IsGeometry extent block entries },
}

impl Geometry {
    /// The geometry of an extent and a block in bytes, or `None` where a size is no whole number of
    /// sectors or out of its range.
    pub fn of(extent: u64, block: u64, entries: u64) -> Option<Geometry>
        ensures some { IfSome result (λ g. (g.extent * 512 ≡ extent) × (g.block * 512 ≡ block) × (g.entries ≡ entries)) }
        ensures none { IfNone result ((e b : ℕ) → e * 512 ≡ extent → b * 512 ≡ block → ¬ IsGeometry e b entries) }
    {
        if extent % SECTOR != 0 || block % SECTOR != 0 {
            return None;
        }
        let extent = extent / SECTOR;
        let block = block / SECTOR;
        let powers = extent.is_power_of_two() && block.is_power_of_two();
        let extent_in_range = 32 <= extent && extent <= 8192;
        let block_in_range = 8 <= block && block <= 4096 && block <= extent;
        let entries_in_range = 1 <= entries && entries <= 1_044_480;
        if powers && extent_in_range && block_in_range && entries_in_range {
            Some(Geometry {
                extent: extent as u32,
                block: block as u32,
                entries: entries as u32,
            })
        } else {
            None
        }
    }

    /// The sector of a volume at which its first slot begins.
    pub fn first(&self) -> u64
        ensures { result ≡ first self.now.entries }
    {
        3 + u64::from(self.entries).div_ceil(128)
    }

    /// The extents of an image with so many slots.
    pub fn thin(&self, slots: u64) -> u64
        requires { slots ≤ self.now.entries }
        ensures { result ≡ thin self.now.extent self.now.block self.now.entries slots }
    {
        let slot = 1 + u64::from(self.block);
        (self.first() + slots * slot + 1).div_ceil(u64::from(self.extent))
    }

    /// The extents of an image of so many sectors of which each block has a slot.
    pub fn thick(&self, sectors: u64) -> u64
        requires { sectors ≤ self.now.entries * self.now.block }
        ensures { result ≡ thick self.now.extent self.now.block self.now.entries sectors }
    {
        self.thin(sectors.div_ceil(u64::from(self.block)))
    }
}
