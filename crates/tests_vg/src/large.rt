//! The text of a table with as many volumes as there may be, and nearly all extents.

use std::alloc::{AllocError, Global};

/// Adds a volume of two segments, of which the second stands on extents in front of the first's.
fn add_image(bytes: &mut Vec<u8>, name: &[u8], first: u32) -> Result<(), AllocError> {
    bytes.extend_from_slice(name)?;
    bytes.extend_from_slice(&[0, 0, 0, 0, 2])?;
    for (extent, count) in [(first.saturating_add(1101), 1000_u32), (first, 1101)] {
        bytes.extend_from_slice(&extent.to_be_bytes())?;
        bytes.extend_from_slice(&count.to_be_bytes())?;
    }
    Ok(())
}

/// The records on 169 extents, and 499 images of 2,101 extents each: in all 1,048,568 of 1,048,576 extents.
pub fn large_text(alloc: Global) -> Result<Vec<u8>, AllocError> {
    let mut bytes = Vec::new(alloc);
    bytes.extend_from_slice(&[0, 0, 0, 0, 0, 0, 0, 9, 0, 0, 1, 0xf4])?;
    bytes.extend_from_slice(b"\x03MGT\x00\x00\x00\x00\x01\x00\x00\x00\x00\x00\x00\x00\xa9")?;
    for image in 0..499_u32 {
        let mut name = *b"\x28VHD-00000000-0000-0000-0000-000000000000";
        for (place, unit) in [(38, 100), (39, 10), (40, 1)] {
            name[place] = b'0' + (image / unit % 10) as u8;
        }
        add_image(&mut bytes, &name, 169 + 2101 * image)?;
    }
    Ok(bytes)
}
