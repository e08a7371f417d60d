//! An image, and what is read of it in memory.

ghost use Rattle.std.specs.Prelude.{◌≡◌, ℕ, Option, MatchOption, Some, None};
ghost use Rattle.std.specs.Option.{option_copied};
ghost use Rattle.vhd_image.specs.Bodies.{volume_name, sector_count, parent_name, map_of, top_slot, in_volume};
ghost use Rattle.vhd_image.specs.declared.images.Body.TheVariants.{Raw, Vhd};

use sm_base::Name;
use std::marker::Model;
use vhd_map::Map;
use vhd_volumes::Head;

/// What an image is: raw, or with a head and a map.
#[derive(Drop)]
pub enum Body {
    /// All sectors of its volume; sizes are in sectors.
    Raw { volume: Name, sectors: u64 },
    /// A VHD image, dynamic or differencing.
    Vhd { head: Head, map: Map },
}

/// An image in a volume.
#[derive(Drop)]
pub struct Image {
    pub(crate) body: Body,
}

impl Model for Image {
    ghost use Rattle.vhd_image.specs.declared.images.Body.{Body};

    ghost Value = { Body };

    ghost view = { λ image. image.body };
}

impl Image {
    /// A raw image of so many sectors.
    pub fn raw(volume: &Name, sectors: u64) -> Image
        ensures { result ≡ Raw volume.now sectors }
    {
        Image {
            body: Body::Raw {
                volume: *volume,
                sectors,
            },
        }
    }

    /// The name of its volume.
    pub fn name(&self) -> Name
        ensures { result ≡ volume_name self.now }
    {
        match &self.body {
            Body::Raw { volume, .. } => *volume,
            Body::Vhd { head, .. } => head.volume,
        }
    }

    /// Its size, in sectors.
    pub fn sectors(&self) -> u64
        ensures { result ≡ sector_count self.now }
    {
        match &self.body {
            Body::Raw { sectors, .. } => *sectors,
            Body::Vhd { head, .. } => head.footer.current / 512,
        }
    }

    /// The volume of its parent; None where it has none, and where it is raw.
    pub fn parent(&self) -> Option<Name>
        ensures { result ≡ parent_name self.now }
    {
        match &self.body {
            Body::Raw { .. } => None,
            Body::Vhd { head, .. } => head.header.parent,
        }
    }

    /// Its map; None exactly where it is raw.
    pub fn map(&self) -> Option<&Map>
        ensures { option_copied result ≡ map_of self.now }
    {
        match &self.body {
            Body::Raw { .. } => None,
            Body::Vhd { map, .. } => Some(map),
        }
    }

    /// One more than its highest slot; 0 where it has no slot, and where it is raw.
    pub fn top(&self) -> u32
        ensures { result ≡ top_slot self.now }
    {
        match &self.body {
            Body::Raw { .. } => 0,
            Body::Vhd { map, .. } => map.top(),
        }
    }

    /// Gives its volume another name in memory.
    pub fn renamed(&mut self, to: Name)
        ensures { self.new ≡ in_volume to self.old }
    {
        match &mut self.body {
            Body::Raw { volume, .. } => *volume = to,
            Body::Vhd { head, .. } => head.volume = to,
        }
    }
}
