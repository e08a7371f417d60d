//! What follows from the definitions. Each function is one law, in its contract; the statements are in
//! `specs/Laws`.
ghost use Rattle.vhd_layout.specs.Laws.{PlaceFirst, PlaceWithin, PlaceSame, PlacePart, PlaceSmall, TableFirst, LayoutOf, SlotsFit, SlotsNeed, CodeSame, OneHead, OneMap, HeadKept, ValueWithSlot, ValueWithoutSlot, ContentOfHead, TableReadable, ValidDecided, SlotsOfTable, LayoutAt};

/// Slots stand between the table and the footer, apart from each other, and their entries are not blank.
pub fn places()
    ensures first { PlaceFirst }
    ensures within { PlaceWithin }
    ensures same { PlaceSame }
    ensures part { PlacePart }
    ensures small { PlaceSmall }
    ensures table { TableFirst }
    ensures geometry { LayoutOf }
    ensures fit { SlotsFit }
    ensures need { SlotsNeed }
{}

/// A volume holds one image at most.
pub fn one_image()
    ensures entries { CodeSame }
    ensures head { OneHead }
    ensures map { OneMap }
    ensures kept { HeadKept }
{}

/// What an image says, by its map and its head.
pub fn contents()
    ensures with_slot { ValueWithSlot }
    ensures without_slot { ValueWithoutSlot }
    ensures head { ContentOfHead }
{}

/// The table of a valid image is read sector by sector.
pub fn tables()
    ensures { TableReadable }
{}

/// The test of a volume and the slots read off its table agree with the definition of an image.
pub fn readings()
    ensures valid { ValidDecided }
    ensures slots { SlotsOfTable }
    ensures layout { LayoutAt }
{}
