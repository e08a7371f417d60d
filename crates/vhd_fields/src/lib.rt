//! The footer and the dynamic header of a VHD image, as bytes and as fields.
//!
//! The format is the Microsoft Virtual Hard Disk Image Format Specification 1.0, 'Hard Disk Footer Format',
//! 'Dynamic Disk Header Format' and 'CHS Calculation', with this project's limits on the numbers of a header. The
//! parent stands in the header by the name of its volume.
//!
//! Kept here: nothing. This layer turns 512 bytes into a [`Footer`] and 1,024 bytes into a [`Header`], and back. Sizes
//! and offsets are in bytes, the geometry is of a size in sectors of 512 bytes. A call takes no memory, touches no
//! device, and goes over the bytes a fixed number of times, so a stop leaves nothing.
//!
//! What it promises: a read answers the fields where every test passes, else the fault of the first test that fails;
//! a write makes exactly the bytes of the definitions; what is written of fields that pass the tests reads back as
//! these fields; and a footer that is read and written again keeps its time stamp, creator, creator version, host,
//! original size and unique id.
//!
//! The definitions are in `specs/`: `Footers` and `Headers` (the tests, the fields at their offsets, the bytes that a
//! write makes), `ParentNames`, `Checksums`, `DiskGeometry`, and `Fields` (a number at an offset, the first fault).
#![tactic(auto)]

mod checksums;
mod faults;
mod footers;
mod geometries;
mod headers;
mod parents;
mod places;

pub use faults::FieldFault;
pub use footers::Footer;
pub use geometries::geometry_of;
pub use headers::Header;
