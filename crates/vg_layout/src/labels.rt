//! The label: the first sector of a volume group.

ghost use Rattle.std.specs.Prelude.{◌≡◌, true, false, Ok, Err, Some, None, IfOk, IfErr, IfSome, IfNone};
ghost use Rattle.std.specs.Prelude.{◌&&◌, nat_le};
ghost use Rattle.vg_layout.specs.Fields.{plate};
ghost use Rattle.vg_layout.specs.Opening.{is_label_right, is_version, plate_of};
ghost use Rattle.vg_layout.specs.Sectors.{is_geometry, label_sector, number_at, plate_in, version_in};

use crate::bytes::{bytes_of, number_at, put, put_number, seal};
use crate::places::{Layout, extents_on, record_extents};
use sm_base::{Geometry, OpenFault, Place};
use uuid::Uuid;

/// The versions of the format that an opening takes: the first and the last.
const FIRST_VERSION: u32 = 1;

const LAST_VERSION: u32 = 2;

/// What a label says beside its version.
#[derive(Clone, Copy, PartialEq, Eq)]
pub struct GroupLabel {
    /// The sizes that the repository was formatted with.
    pub geometry: Geometry,
    /// The number of its extents.
    pub extents: u32,
    /// Where they begin.
    pub layout: Layout,
    /// The repository's UUID.
    pub repository: Uuid,
}

impl GroupLabel {
    /// The version that the sector of a label says.
    pub fn version(bytes: &[u8; 512]) -> u32
        ensures { result ≡ version_in bytes.now }
    {
        number_at(bytes, 8)
    }

    /// What the label of a device of so many sectors says: the first three checks of an opening.
    ///
    /// # Errors
    ///
    /// That of the first check that fails: no repository, an unsupported version, or a damaged label.
    #[tactic(auto, unfolding(crate::specs::Opening::plate_of))]
    pub fn read(sectors: u64, bytes: &[u8; 512]) -> Result<GroupLabel, OpenFault>
        ensures ok { IfOk result (λ l. plate_of sectors (λ p. bytes.now) ≡ Ok (plate l)) }
        ensures err { IfErr result (λ e. plate_of sectors (λ p. bytes.now) ≡ Err e) }
    {
        if sectors < 2 || bytes_of(bytes, 0) != *b"LVHDREPO" {
            return Err(OpenFault::NotARepository);
        }
        let version = GroupLabel::version(bytes);
        if version < FIRST_VERSION || LAST_VERSION < version {
            return Err(OpenFault::Unsupported { version });
        }
        match GroupLabel::right(sectors, bytes) {
            Some(label) => Ok(label),
            None => Err(OpenFault::Damaged {
                place: Place::Label,
            }),
        }
    }

    // The label, where it is right on a device of so many sectors.
    #[tactic(auto, unfolding(crate::specs::Opening::is_label_right))]
    fn right(sectors: u64, bytes: &[u8; 512]) -> Option<GroupLabel>
        requires version { is_version (version_in bytes.now) ≡ true }
        ensures right { IfSome result (λ l. is_label_right sectors bytes.now ≡ true) }
        ensures fields { IfSome result (λ l. plate_in bytes.now ≡ plate l) }
        ensures none { IfNone result (is_label_right sectors bytes.now ≡ false) }
    {
        let label = GroupLabel::fields_of(bytes)?;
        let version = GroupLabel::version(bytes);
        let mut written = [0; 512];
        label.write(version, &mut written);
        let most = extents_on(sectors, label.layout, &label.geometry);
        let least = record_extents(&label.geometry);
        if *bytes == written
            && label.layout.number() < version
            && label.extents <= most
            && least <= label.extents
        {
            Some(label)
        } else {
            None
        }
    }

    // The fields at their offsets, where the layout is one of the two and the sizes are in their ranges.
    #[tactic(auto, unfolding(crate::specs::Sectors::plate_in))]
    fn fields_of(bytes: &[u8; 512]) -> Option<GroupLabel>
        ensures some { IfSome result (λ l. plate_in bytes.now ≡ plate l) }
        ensures none { IfNone result ((nat_le (number_at 44 bytes.now) 1 && is_geometry (number_at 28 bytes.now) (number_at 32 bytes.now) (number_at 36 bytes.now)) ≡ false) }
    {
        let extent = u64::from(number_at(bytes, 28)) * 512;
        let block = u64::from(number_at(bytes, 32)) * 512;
        let entries = u64::from(number_at(bytes, 36));
        let layout = Layout::of(number_at(bytes, 44))?;
        Some(GroupLabel {
            geometry: Geometry::of(extent, block, entries)?,
            extents: number_at(bytes, 40),
            layout,
            repository: Uuid::from_bytes(bytes_of(bytes, 12)),
        })
    }

    /// Writes the sector of the label of a version. Nothing of the bytes stays.
    pub fn write(&self, version: u32, to: &mut [u8; 512])
        ensures { to.new ≡ label_sector version (plate self.now) }
    {
        let at = put(to, 0, b"LVHDREPO");
        let at = put_number(to, at, version);
        let at = put(to, at, self.repository.as_bytes());
        let at = put_number(to, at, self.geometry.extent);
        let at = put_number(to, at, self.geometry.block);
        let at = put_number(to, at, self.geometry.entries);
        let at = put_number(to, at, self.extents);
        let at = put_number(to, at, self.layout.number());
        put(to, at, &[0; 460]);
        seal(to);
    }
}
