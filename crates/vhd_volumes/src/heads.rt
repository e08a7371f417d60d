//! The head of an image.

use sm_base::Name;
use vhd_fields::{Footer, Header};

/// What is known of a VHD image beside its map: the volume that it lies in, its footer and its header.
#[derive(Clone, Copy, PartialEq, Eq)]
pub struct Head {
    /// The volume's name.
    pub volume: Name,
    /// The footer: that of the volume's last sector, or its copy where that sector has none.
    pub footer: Footer,
    /// The header.
    pub header: Header,
}
