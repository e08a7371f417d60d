//! Which names can be spelled.

ghost use Rattle.std.specs.Prelude.{◌↔◌, IsTrue};
ghost use Rattle.sm_base.specs.Names.{IsName, IsUuid};

use sm_base::Name;

/// Whether the name can be spelled: it is no entry that enlarges from 0 extents.
#[tactic(auto, unfolding(sm_base::specs::Names::IsName))]
pub fn is_proper(name: &Name) -> bool
    ensures { IsTrue result ↔ IsName name.now }
{
    match name {
        Name::Mgt => true,
        Name::Vhd(uuid) | Name::Raw(uuid) | Name::Old(uuid) | Name::Cbt(uuid) => {
            is_uuid(uuid.as_bytes())
        }
        Name::Clone { disk, base, twin } => {
            is_uuid(disk.as_bytes()) && is_uuid(base.as_bytes()) && is_uuid(twin.as_bytes())
        }
        Name::Inflate { image, extents } => is_uuid(image.as_bytes()) && *extents != 0,
        Name::Coalesce { child, parent } | Name::Relink { child, parent } => {
            is_uuid(child.as_bytes()) && is_uuid(parent.as_bytes())
        }
        Name::Leaf { leaf, parent } => is_uuid(leaf.as_bytes()) && is_uuid(parent.as_bytes()),
    }
}

// Whether bytes are those of a UUID, by their number.
fn is_uuid(bytes: &[u8]) -> bool
    ensures { IsTrue result ↔ IsUuid bytes.now }
{
    bytes.len() == 16
}
