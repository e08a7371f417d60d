//! What a fork speaks of.

ghost use Rattle.std.specs.Prelude.{◌≡◌, false, length};
ghost use Rattle.sm_base.specs.Names.{IsUuid};
ghost use Rattle.sm_machine.specs.Shapes.{renamed as renamed_as};
ghost use Rattle.sm_record.specs.Records.{IsRecord};
ghost use Rattle.uuid.specs.Parts.{is_nil_bytes};
ghost use Rattle.sm_clone.specs.Forking.{base_name, entry_name, twin_record};

use sm_base::Name;
use sm_record::Record;
use uuid::Uuid;

/// A disk and its image as the fork begins, the UUID of the base that the image becomes, and the twin.
#[derive(Clone, Copy)]
pub struct Fork {
    pub disk: Uuid,
    pub own: Name,
    pub base: Uuid,
    pub twin: Uuid,
}

/// The name of an image of the same kind under another UUID.
#[tactic(auto, unfolding(sm_machine::specs::Shapes::renamed))]
fn renamed(name: &Name, uuid: &Uuid) -> Name
    ensures { result ≡ renamed_as name.now uuid.now }
{
    match name {
        Name::Vhd(_) => Name::Vhd(*uuid),
        Name::Raw(_) => Name::Raw(*uuid),
        Name::Mgt
        | Name::Old(_)
        | Name::Cbt(_)
        | Name::Clone { .. }
        | Name::Inflate { .. }
        | Name::Coalesce { .. }
        | Name::Relink { .. }
        | Name::Leaf { .. } => *name,
    }
}

impl Fork {
    /// The name of the base.
    pub fn base_name(&self) -> Name
        ensures { result ≡ base_name self.now }
    {
        renamed(&self.own, &self.base)
    }

    /// The entry of the journal.
    pub fn entry(&self) -> Name
        ensures { result ≡ entry_name self.now }
    {
        Name::Clone {
            disk: self.disk,
            base: self.base,
            twin: self.twin,
        }
    }
}

/// Sixteen bytes are those of a UUID. The call does nothing.
fn law_uuid(bytes: &[u8])
    requires { length bytes.now ≡ 16 }
    ensures { IsUuid bytes.now }
{
    let _count = bytes.len();
}

/// The record of the twin, by the disk's.
pub fn twin_record(disk: &Uuid, twin: &Uuid, read_only: bool, origin: &Record) -> Record
    requires not_nil { is_nil_bytes twin.now ≡ false }
    requires proper { IsRecord origin.now }
    requires named { origin.now.uuid ≡ disk.now }
    ensures is { result ≡ twin_record disk.now twin.now read_only origin.now }
    ensures proper { IsRecord result }
{
    law_uuid(twin.as_bytes());
    Record {
        uuid: *twin,
        label: origin.label,
        origin: Some(*disk),
        read_only,
    }
}
