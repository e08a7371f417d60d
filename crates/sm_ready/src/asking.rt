//! What a command names, and what is in memory of the disk that it names.

ghost use Rattle.std.specs.Prelude.{◌≡◌, is_some, if◌then◌else◌};
ghost use Rattle.std.specs.Option.{option_copied};
ghost use Rattle.sm_base.specs.declared.names.Name.TheVariants.{Vhd, Raw};
ghost use Rattle.sm_machine.specs.Refusals as machine;
ghost use Rattle.sm_machine.specs.Shapes.{is_vhd as is_vhd_name};
ghost use Rattle.sm_ready.specs.Shown.{of_shown, of_visible};
ghost use Rattle.vhd_chain.specs.Trees.{row_name, tree_row};

use crate::memory::Memory;
use sm_base::Name;
use sm_machine::Command;
use uuid::Uuid;
use vhd_chain::{Tree, TreeRow};

/// The disk that a command names, other than by a new UUID.
#[tactic(auto, unfolding(sm_machine::specs::Refusals::named))]
pub fn named(command: &Command) -> Option<Uuid>
    ensures { result ≡ machine.named command.now }
{
    match command {
        Command::Delete { disk } => Some(*disk),
        Command::Attach { disk, .. } => Some(*disk),
        Command::Detach { disk } => Some(*disk),
        Command::Snapshot { disk, .. } => Some(*disk),
        Command::Clone { disk, .. } => Some(*disk),
        Command::Resize { disk, .. } => Some(*disk),
        Command::Label { disk, .. } => Some(*disk),
        Command::Write { disk, .. } => Some(*disk),
        Command::Fill { disk, .. } => Some(*disk),
        Command::Read { disk, .. } => Some(*disk),
        Command::Flush { disk } => Some(*disk),
        Command::Create { .. } => None,
        Command::Gc => None,
        Command::List => None,
        Command::Stat => None,
        Command::Track { disk, .. } => Some(*disk),
        Command::Changed { from, .. } => Some(*from),
    }
}

/// The second disk that a command names.
pub fn also_named(command: &Command) -> Option<Uuid>
    ensures { result ≡ machine.also_named command.now }
{
    match command {
        Command::Changed { to, .. } => Some(*to),
        _ => None,
    }
}

/// The new UUID of a command.
#[tactic(auto, unfolding(sm_machine::specs::Refusals::new_uuid))]
pub fn new_uuid(command: &Command) -> Option<Uuid>
    ensures { result ≡ machine.new_uuid command.now }
{
    match command {
        Command::Create { disk, .. } => Some(*disk),
        Command::Snapshot { twin, .. } => Some(*twin),
        Command::Clone { twin, .. } => Some(*twin),
        _ => None,
    }
}

/// The disk that a command makes another of.
#[tactic(auto, unfolding(sm_machine::specs::Refusals::forked))]
pub fn forked(command: &Command) -> Option<Uuid>
    ensures { result ≡ machine.forked command.now }
{
    match command {
        Command::Snapshot { disk, .. } => Some(*disk),
        Command::Clone { disk, .. } => Some(*disk),
        _ => None,
    }
}

/// The name of the image with this UUID: that of a VHD image, where there is one.
pub fn image_name(tree: &Tree, disk: &Uuid) -> Name
    ensures { result ≡ (if is_some (tree_row tree.now.rows (Vhd disk.now)) then Vhd disk.now else Raw disk.now) }
{
    let name = Name::Vhd(*disk);
    if tree.get(&name).is_some() {
        name
    } else {
        Name::Raw(*disk)
    }
}

/// The image of this name, where it is visible.
fn visible<'a>(memory: &'a Memory, name: &Name) -> Option<&'a TreeRow>
    ensures { option_copied result ≡ of_visible (λ r. r) (tree_row memory.now.tree.rows name.now) }
{
    let row = memory.tree.get(name)?;
    if row.hidden { None } else { Some(row) }
}

/// The visible image of a UUID.
#[tactic(auto, unfolding(crate::specs::Shown::of_shown))]
pub fn image<'a>(memory: &'a Memory, disk: &Uuid) -> Option<&'a TreeRow>
    ensures { option_copied result ≡ of_shown (λ r. r) memory.now.tree.rows disk.now }
{
    let vhd = visible(memory, &Name::Vhd(*disk));
    if vhd.is_some() {
        return vhd;
    }
    visible(memory, &Name::Raw(*disk))
}

/// Whether an image is a VHD image.
#[tactic(auto, unfolding(sm_machine::specs::Shapes::is_vhd))]
pub fn is_vhd(row: &TreeRow) -> bool
    ensures { result ≡ is_vhd_name (row_name row.now) }
{
    match row.image.name() {
        Name::Vhd(_) => true,
        Name::Mgt
        | Name::Raw(_)
        | Name::Old(_)
        | Name::Cbt(_)
        | Name::Clone { .. }
        | Name::Inflate { .. }
        | Name::Coalesce { .. }
        | Name::Relink { .. }
        | Name::Leaf { .. } => false,
    }
}
