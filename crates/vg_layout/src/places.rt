//! Where the parts of a volume group stand on its device. A place is the number of a sector.

ghost use Rattle.std.specs.Prelude.{◌≡◌, ◌≤◌, ◌-◌, ◌*◌, false, nat_le, IfSome, IfNone};
ghost use Rattle.vg_layout.specs.Places.{area_place, best_layout, extents_on, frame_of, most_extents, record_extents, slot_bytes, slot_place};
ghost use Rattle.vg_layout.specs.Fields.{layout_number, places_in, slot_number};

use sm_base::{Geometry, RECORD_LIMIT};

/// The place of the label.
pub const LABEL: u64 = 0;

/// Where the extents begin, and how many there are at most.
#[derive(Clone, Copy, PartialEq, Eq)]
pub enum Layout {
    Narrow,
    Wide,
}

impl Layout {
    /// The layout with this number, where there is one.
    pub fn of(number: u32) -> Option<Layout>
        ensures some { IfSome result (λ l. layout_number l ≡ number) }
        ensures none { IfNone result (nat_le number 1 ≡ false) }
    {
        match number {
            0 => Some(Layout::Narrow),
            1 => Some(Layout::Wide),
            _ => None,
        }
    }

    /// The layout's number.
    pub fn number(self) -> u32
        ensures { result ≡ layout_number self }
    {
        match self {
            Layout::Narrow => 0,
            Layout::Wide => 1,
        }
    }

    /// The layout that gives a device of so many sectors more extents: the narrow one where both give as many.
    #[tactic(auto, unfolding(crate::specs::Places::best_layout))]
    pub fn best(sectors: u64, geometry: &Geometry) -> Layout
        ensures { layout_number result ≡ best_layout sectors geometry.now.extent }
    {
        let narrow = extents_on(sectors, Layout::Narrow, geometry);
        if narrow < extents_on(sectors, Layout::Wide, geometry) {
            Layout::Wide
        } else {
            Layout::Narrow
        }
    }

    /// The place of the first extent.
    #[tactic(auto, unfolding(crate::specs::Places::area_place))]
    pub fn area(self) -> u64
        ensures { result ≡ area_place (layout_number self) }
    {
        match self {
            Layout::Narrow => 4096,
            Layout::Wide => 37_376,
        }
    }

    /// The most extents.
    #[tactic(auto, unfolding(crate::specs::Places::most_extents))]
    pub fn most_extents(self) -> u32
        ensures { result ≡ most_extents (layout_number self) }
    {
        match self {
            Layout::Narrow => 65_536,
            Layout::Wide => 1_048_576,
        }
    }
}

/// The places of the table header and of the two slots of the table's text.
#[derive(Clone, Copy, PartialEq, Eq)]
pub struct Frame {
    /// The place of the header.
    pub header: u64,
    /// The place at which slot 0 begins.
    pub first: u64,
    /// The place at which slot 1 begins.
    pub second: u64,
    /// The sectors of a slot.
    pub room: u32,
}

impl Frame {
    /// The frame of a version and a layout.
    #[tactic(auto, unfolding(crate::specs::Places::frame_of))]
    pub fn of(version: u32, layout: Layout) -> Frame
        ensures { places_in result ≡ frame_of version (layout_number layout) }
    {
        if version == 1 {
            return Frame {
                header: 1,
                first: 2,
                second: 1026,
                room: 1024,
            };
        }
        match layout {
            Layout::Narrow => Frame {
                header: 2050,
                first: 2051,
                second: 2,
                room: 2045,
            },
            Layout::Wide => Frame {
                header: 2050,
                first: 4096,
                second: 20_736,
                room: 16_640,
            },
        }
    }

    /// The bytes of a slot.
    pub fn slot_bytes(&self) -> u64
        ensures { result ≡ slot_bytes (places_in self.now) }
    {
        u64::from(self.room) * 512
    }
}

/// One of the two places of the table's text.
#[derive(Clone, Copy, PartialEq, Eq)]
pub enum Slot {
    Zero,
    One,
}

impl Slot {
    /// The slot's number.
    pub fn number(self) -> u32
        ensures { result ≡ slot_number self }
    {
        match self {
            Slot::Zero => 0,
            Slot::One => 1,
        }
    }

    /// The other slot.
    pub fn other(self) -> Slot
        ensures { slot_number result ≡ 1 - slot_number self }
    {
        match self {
            Slot::Zero => Slot::One,
            Slot::One => Slot::Zero,
        }
    }

    /// The place at which the slot begins.
    pub fn place(self, frame: &Frame) -> u64
        ensures { result ≡ slot_place (places_in frame.now) (slot_number self) }
    {
        match self {
            Slot::Zero => frame.first,
            Slot::One => frame.second,
        }
    }
}

/// The number of extents that a device of so many sectors has in a layout: whole ones, and no more than the layout's most.
#[tactic(auto, unfolding(crate::specs::Places::extents_on))]
pub fn extents_on(sectors: u64, layout: Layout, geometry: &Geometry) -> u32
    ensures { result ≡ extents_on (layout_number layout) sectors geometry.now.extent }
{
    let whole = sectors.saturating_sub(layout.area()) / u64::from(geometry.extent);
    whole.min(u64::from(layout.most_extents())) as u32
}

/// The extents of the volume of records, which has 512 sectors' worth of them.
#[tactic(auto, unfolding(crate::specs::Places::record_extents))]
pub fn record_extents(geometry: &Geometry) -> u32
    ensures { result ≡ record_extents geometry.now.extent }
{
    RECORD_LIMIT.div_ceil(geometry.extent)
}
