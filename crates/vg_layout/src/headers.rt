//! The table header: the sector that says where the text of the table stands.

ghost use Rattle.std.specs.Prelude.{◌≡◌, true, false, nat_le, Ok, Err, IfOk, IfErr, IfSome, IfNone};
ghost use Rattle.vg_layout.specs.Fields.{places_in, pointer, slot_number};
ghost use Rattle.vg_layout.specs.Opening.{is_header_right, pointer_by};
ghost use Rattle.vg_layout.specs.Sectors.{header_sector, pointer_in, number_at};

use crate::bytes::{number_at, put, put_number, seal};
use crate::places::{Frame, Slot};
use sm_base::{OpenFault, Place};

/// Where the text of the table stands.
#[derive(Clone, Copy, PartialEq, Eq)]
pub struct TableHeader {
    /// The slot in which it stands, from its first byte on.
    pub slot: Slot,
    /// Its length in bytes.
    pub length: u32,
    /// The sum of its bytes.
    pub sum: u32,
}

impl TableHeader {
    /// What the sector of a table header says in a frame: the fourth check of an opening.
    ///
    /// # Errors
    ///
    /// A damaged header, where the sector is not that of its fields, or a field is out of its range.
    #[tactic(auto, unfolding(crate::specs::Opening::pointer_by, crate::specs::Opening::is_header_right))]
    pub fn read(frame: &Frame, bytes: &[u8; 512]) -> Result<TableHeader, OpenFault>
        ensures ok { IfOk result (λ h. pointer_by (places_in frame.now) bytes.now ≡ Ok (pointer h)) }
        ensures err { IfErr result (λ e. pointer_by (places_in frame.now) bytes.now ≡ Err e) }
    {
        match TableHeader::right(frame, bytes) {
            Some(header) => Ok(header),
            None => Err(OpenFault::Damaged {
                place: Place::Header,
            }),
        }
    }

    // The header, where it is right in a frame.
    #[tactic(auto, unfolding(crate::specs::Opening::is_header_right))]
    fn right(frame: &Frame, bytes: &[u8; 512]) -> Option<TableHeader>
        ensures right { IfSome result (λ h. is_header_right (places_in frame.now) bytes.now ≡ true) }
        ensures fields { IfSome result (λ h. pointer_in bytes.now ≡ pointer h) }
        ensures none { IfNone result (is_header_right (places_in frame.now) bytes.now ≡ false) }
    {
        let header = TableHeader::fields_of(bytes)?;
        let mut written = [0; 512];
        header.write(&mut written);
        if *bytes == written && u64::from(header.length) <= frame.slot_bytes() {
            Some(header)
        } else {
            None
        }
    }

    // The fields at their offsets, where the slot is one of the two.
    #[tactic(auto, unfolding(crate::specs::Sectors::pointer_in))]
    fn fields_of(bytes: &[u8; 512]) -> Option<TableHeader>
        ensures some { IfSome result (λ h. pointer_in bytes.now ≡ pointer h) }
        ensures none { IfNone result (nat_le (number_at 8 bytes.now) 1 ≡ false) }
    {
        let slot = match number_at(bytes, 8) {
            0 => Slot::Zero,
            1 => Slot::One,
            _ => return None,
        };
        Some(TableHeader {
            slot,
            length: number_at(bytes, 12),
            sum: number_at(bytes, 16),
        })
    }

    /// Writes the header's sector. Nothing of the bytes stays.
    pub fn write(&self, to: &mut [u8; 512])
        ensures { to.new ≡ header_sector (pointer self.now) }
    {
        let at = put(to, 0, b"LVHDTABL");
        let at = put_number(to, at, self.slot.number());
        let at = put_number(to, at, self.length);
        let at = put_number(to, at, self.sum);
        put(to, at, &[0; 488]);
        seal(to);
    }
}
