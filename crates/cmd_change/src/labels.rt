//! A disk's label.

ghost use Rattle.std.specs.Prelude.{◌≡◌, OnOk};
ghost use Rattle.vg_volumes.specs.Stored.{Counts, Stays};
ghost use Rattle.sm_machine.specs.declared.commands.Command.TheVariants as command;
ghost use Rattle.sm_ready.specs.Refusing.{IsAllowed};
ghost use Rattle.sm_ready.specs.Does.{ShapesAs, StoreDoes};
ghost use Rattle.sm_ready.specs.Framing.{IsBetweenSteps};
ghost use Rattle.sm_ready.specs.Sessions.{IsReadyStore};
ghost use Rattle.sm_record.specs.Records.{IsRecord};
ghost use Rattle.cmd_change.specs.Changing.{StaysButRecords, relabelled};

use sm_base::{Failed, Label};
use sm_ready::Memory;
use sm_record::Record;
use uuid::Uuid;
use vg_volumes::Store;

/// The same record with this label.
fn relabelled(entry: &Record, text: &Label) -> Record
    requires proper { IsRecord entry.now }
    ensures is { result ≡ relabelled text.now entry.now }
    ensures proper { IsRecord result }
{
    let _text = text.text();
    Record {
        label: *text,
        ..*entry
    }
}

/// Gives a disk another label.
///
/// # Errors
/// A call of the store failed; a stop leaves the one label or the other.
pub fn label<S: Store>(
    store: &mut S,
    memory: &mut Memory,
    disk: &Uuid,
    text: &Label,
) -> Result<(), Failed>
    requires session { IsBetweenSteps S.Store store.old memory.old }
    requires allowed { IsAllowed S.Store (command.Label disk.now text.now) store.old memory.old }
    ensures stays { Stays S.Store store.old store.new }
    ensures cause { Counts S.Store result store.old store.new }
    ensures session_still { OnOk result (IsBetweenSteps S.Store store.new memory.new) }
    ensures others { StaysButRecords memory.old memory.new }
    ensures shape { OnOk result (ShapesAs S.Store (command.Label disk.now text.now) store.old memory.old store.new memory.new) }
    ensures done { S.told → IsReadyStore S.Store store.old memory.old
        → StoreDoes S.Store (command.Label disk.now text.now) store.old memory.old store.new memory.new (result ≡ Ok tt) }
{
    store.sync()?;
    let Some(record) = memory.records.find(disk) else {
        unreachable!()
    };
    let entry = relabelled(record, text);
    memory.records.put(store, entry)?;
    store.sync()?;
    Ok(())
}
