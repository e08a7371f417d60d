//! The parent's name in a header.

ghost use Rattle.std.specs.Prelude.{◌≡◌, ◌<◌, ◌+◌, ◌*◌, ℕ, Some, IfSome, IsSomeAnd, slice_index, ◌==◌, if◌then◌else◌};
ghost use Rattle.sm_base.specs.Names.{spelling};
ghost use Rattle.vhd_fields.specs.ParentNames.{IsParent, is_image, parent_bytes, parent_read};

use sm_base::Name;

/// The field that gives this parent.
#[tactic(auto, unfolding(crate::specs::ParentNames::parent_bytes))]
pub(crate) fn field_of(parent: &Option<Name>) -> [u8; 512]
    ensures { result ≡ parent_bytes parent.now }
{
    match parent {
        None => [0; 512],
        Some(name) => field_of_name(name),
    }
}

// The field that gives this name.
fn field_of_name(name: &Name) -> [u8; 512]
    ensures { result ≡ parent_bytes (Some name.now) }
{
    let mut text = [0; 128];
    name.spell(&mut text);
    let mut field = [0; 512];
    for unit in 0..128 {
        field[2 * unit + 1] = text[unit];
    }
    field
}

/// The parent that a field gives, where it gives one.
pub(crate) fn parent_of(field: &[u8; 512]) -> Option<Option<Name>>
    ensures { result ≡ parent_read field.now }
{
    if *field == [0; 512] {
        return Some(None);
    }
    let Some(name) = image_of(field) else {
        return None;
    };
    let parent = Some(name);
    if field_of(&parent) == *field {
        Some(parent)
    } else {
        None
    }
}

// The only image that a field can name. The field may be no name.
fn image_of(field: &[u8; 512]) -> Option<Name>
    ensures image { IfSome result (λ name. IsParent (Some name)) }
    ensures found { (name : Name) → IsParent (Some name)
        → field.now ≡ parent_bytes (Some name)
        → IsSomeAnd result (λ other. spelling other ≡ spelling name) }
{
    let text = text_of(field);
    let Some(name) = Name::read(&text[..image_length(text[0])]) else {
        return None;
    };
    if is_image(&name) { Some(name) } else { None }
}

// How many characters an image's name has that begins so: 40 as `VHD-`, else 39 as `LV-`.
fn image_length(first: u8) -> usize
    ensures { result ≡ (if first == 86 then 40 else 39) }
{
    if first == b'V' { 40 } else { 39 }
}

// The first characters of a field.
fn text_of(field: &[u8; 512]) -> [u8; 40]
    ensures { (k : ℕ) → k < 40 → slice_index result k ≡ slice_index field.now (2 * k + 1) }
{
    let mut text = [0; 40];
    for unit in 0..40 {
        text[unit] = field[2 * unit + 1];
    }
    text
}

// A VHD or raw image.
fn is_image(name: &Name) -> bool
    ensures { result ≡ is_image name.now }
{
    match name {
        Name::Vhd(_) | Name::Raw(_) => true,
        Name::Mgt
        | Name::Old(_)
        | Name::Cbt(_)
        | Name::Clone { .. }
        | Name::Inflate { .. }
        | Name::Coalesce { .. }
        | Name::Relink { .. }
        | Name::Leaf { .. } => false,
    }
}
