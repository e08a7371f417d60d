//! What stands behind a line's first word, read as the parts of a command.

ghost use Rattle.std.specs.Prelude.{◌≡◌, ◌≤◌, length, option_copied};
ghost use Rattle.sm_machine.specs.Lines.{after_attach, after_cbt, after_create, after_disk, after_fill, after_label, after_read, after_resize, after_twin, after_write, alone, line_limit};
ghost use Rattle.sm_machine.specs.declared.commands.Command.TheVariants.{Changed, Clone, Delete, Detach, Flush, Snapshot};
ghost use Rattle.sm_script.specs.Cuts.{behind, words_behind};

use crate::cuts::{four, one, three, two};
use crate::fields::{byte_in, is_on_in, is_raw_in, mode_in, number_in, sectors_in, uuid_in};
use crate::readings::Reading;
use sm_base::Label;
use sm_machine::{Command, LineBytes};

/// A new disk's UUID, its size in bytes, its kind and its label.
pub fn create(rest: Option<&[u8]>) -> Option<Command>
    ensures { result ≡ after_create (words_behind (option_copied rest.entry)) }
{
    let (disk, size, kind, text) = four(rest)?;
    let disk = uuid_in(disk)?;
    let size = number_in(size)?;
    let raw = is_raw_in(kind)?;
    let label = Label::of(text)?;
    Some(Command::Create {
        disk,
        size,
        raw,
        label,
    })
}

/// The disk that is to be given up.
pub fn delete(rest: Option<&[u8]>) -> Option<Command>
    ensures { result ≡ after_disk Delete (words_behind (option_copied rest.entry)) }
{
    let word = one(rest)?;
    let disk = uuid_in(word)?;
    Some(Command::Delete { disk })
}

/// A disk and a mode.
pub fn attach(rest: Option<&[u8]>) -> Option<Command>
    ensures { result ≡ after_attach (words_behind (option_copied rest.entry)) }
{
    let (disk, mode) = two(rest)?;
    let disk = uuid_in(disk)?;
    let mode = mode_in(mode)?;
    Some(Command::Attach { disk, mode })
}

/// The disk whose attachment is to end.
pub fn detach(rest: Option<&[u8]>) -> Option<Command>
    ensures { result ≡ after_disk Detach (words_behind (option_copied rest.entry)) }
{
    let word = one(rest)?;
    let disk = uuid_in(word)?;
    Some(Command::Detach { disk })
}

/// A disk and the UUID of its snapshot.
pub fn snapshot(rest: Option<&[u8]>) -> Option<Command>
    ensures { result ≡ after_twin Snapshot (words_behind (option_copied rest.entry)) }
{
    let (disk, twin) = two(rest)?;
    let disk = uuid_in(disk)?;
    let twin = uuid_in(twin)?;
    Some(Command::Snapshot { disk, twin })
}

/// A disk and the UUID of its clone.
pub fn copy(rest: Option<&[u8]>) -> Option<Command>
    ensures { result ≡ after_twin Clone (words_behind (option_copied rest.entry)) }
{
    let (disk, twin) = two(rest)?;
    let disk = uuid_in(disk)?;
    let twin = uuid_in(twin)?;
    Some(Command::Clone { disk, twin })
}

/// A disk and a size in bytes.
pub fn resize(rest: Option<&[u8]>) -> Option<Command>
    ensures { result ≡ after_resize (words_behind (option_copied rest.entry)) }
{
    let (disk, size) = two(rest)?;
    let disk = uuid_in(disk)?;
    let size = number_in(size)?;
    Some(Command::Resize { disk, size })
}

/// A disk and a label.
pub fn label(rest: Option<&[u8]>) -> Option<Command>
    ensures { result ≡ after_label (words_behind (option_copied rest.entry)) }
{
    let (disk, text) = two(rest)?;
    let disk = uuid_in(disk)?;
    let text = Label::of(text)?;
    Some(Command::Label { disk, text })
}

/// A disk, and whether it is to be tracked.
pub fn track(rest: Option<&[u8]>) -> Option<Command>
    ensures { result ≡ after_cbt (words_behind (option_copied rest.entry)) }
{
    let (disk, word) = two(rest)?;
    let disk = uuid_in(disk)?;
    let on = is_on_in(word)?;
    Some(Command::Track { disk, on })
}

/// The earlier of two disks, and the later one.
pub fn changed(rest: Option<&[u8]>) -> Option<Command>
    ensures { result ≡ after_twin Changed (words_behind (option_copied rest.entry)) }
{
    let (from, to) = two(rest)?;
    let from = uuid_in(from)?;
    let to = uuid_in(to)?;
    Some(Command::Changed { from, to })
}

/// A disk, a sector, a number of sectors, and a byte.
pub fn fill(rest: Option<&[u8]>) -> Option<Command>
    ensures { result ≡ after_fill (words_behind (option_copied rest.entry)) }
{
    let (disk, sector, count, digits) = four(rest)?;
    let disk = uuid_in(disk)?;
    let sector = number_in(sector)?;
    let count = number_in(count)?;
    let byte = byte_in(digits)?;
    Some(Command::Fill {
        disk,
        sector,
        count,
        byte,
    })
}

/// A disk, a sector, and a number of sectors.
pub fn read(rest: Option<&[u8]>) -> Option<Command>
    ensures { result ≡ after_read (words_behind (option_copied rest.entry)) }
{
    let (disk, sector, count) = three(rest)?;
    let disk = uuid_in(disk)?;
    let sector = number_in(sector)?;
    let count = number_in(count)?;
    Some(Command::Read {
        disk,
        sector,
        count,
    })
}

/// The disk of which all is to be settled.
pub fn flush(rest: Option<&[u8]>) -> Option<Command>
    ensures { result ≡ after_disk Flush (words_behind (option_copied rest.entry)) }
{
    let word = one(rest)?;
    let disk = uuid_in(word)?;
    Some(Command::Flush { disk })
}

/// No part behind the first word, which says all.
pub fn lone(command: Command, rest: Option<&[u8]>) -> Option<Command>
    ensures { result ≡ alone command (words_behind (option_copied rest.entry)) }
{
    if rest.is_some() {
        return None;
    }
    Some(command)
}

/// A disk, a sector, and the bytes of whole sectors, which take the place of what the room held.
pub fn write(rest: Option<&[u8]>, room: LineBytes) -> Reading
    requires { length (behind (option_copied rest)) ≤ line_limit }
    ensures { result ≡ after_write (words_behind (option_copied rest.entry)) }
{
    let Some((disk, sector, digits)) = three(rest) else {
        return Reading::beside(None, room);
    };
    let Some(disk) = uuid_in(disk) else {
        return Reading::beside(None, room);
    };
    let Some(sector) = number_in(sector) else {
        return Reading::beside(None, room);
    };
    match sectors_in(digits, room) {
        Ok(bytes) => Reading::write(disk, sector, bytes),
        Err(room) => Reading::beside(None, room),
    }
}
