//! Where the table header and the slots of a repository stand, and the extents behind them, by version and layout.

ghost use Rattle.std.specs.Prelude.{◌≡◌, ◌≤◌};
ghost use Rattle.tests_reader.specs.Frames.{places};
ghost use Rattle.vg_layout.specs.Places.{area_place, frame_of as frame_of_version, most_extents, slot_place};

/// The sectors at which the table header and the two slots begin, and the sectors of a slot.
#[derive(Clone, Copy)]
pub struct Frame {
    pub header: u32,
    pub first: u32,
    pub second: u32,
    pub room: u32,
}

/// The frame of a version and a layout: 0 is the narrow one, any other number the wide one.
#[tactic(auto, unfolding(vg_layout::specs::Places::frame_of))]
pub fn frame_of(version: u32, layout: u32) -> Frame
    ensures exact { places result ≡ frame_of_version version layout }
    ensures most { result.room ≤ 16640 }
{
    let (header, first, second, room) = match (version, layout) {
        (1, _) => (1, 2, 1026, 1024),
        (_, 0) => (2050, 2051, 2, 2045),
        _ => (2050, 4096, 20_736, 16_640),
    };
    Frame {
        header,
        first,
        second,
        room,
    }
}

/// The sector at which a slot begins.
pub fn slot_begin(frame: &Frame, slot: u32) -> u32
    ensures { result ≡ slot_place (places frame.now) slot }
{
    if slot == 0 { frame.first } else { frame.second }
}

/// The sectors in front of the extents of a layout.
#[tactic(auto, unfolding(vg_layout::specs::Places::area_place))]
pub fn area_of(layout: u32) -> u64
    ensures { result ≡ area_place layout }
{
    if layout == 0 { 4096 } else { 37_376 }
}

/// The most extents of a layout.
#[tactic(auto, unfolding(vg_layout::specs::Places::most_extents))]
pub fn most_of(layout: u32) -> u64
    ensures few { result ≤ 1048576 }
    ensures exact { result ≡ most_extents layout }
{
    if layout == 0 { 65_536 } else { 1_048_576 }
}
