//! What is read of a line, with the room for the bytes of the next one.

ghost use Rattle.std.specs.Prelude.{◌≡◌, Option, Some, option_copied};
ghost use Rattle.sm_machine.specs.declared.commands.Command.{Command};
ghost use Rattle.sm_machine.specs.declared.commands.Command.TheVariants.{Write};

use sm_machine::{Command, LineBytes};
use std::marker::Model;
use uuid::Uuid;

/// What was read of a line. The room for the bytes of a line is in the command, where that is a `write`, else beside
/// it. A contract sees the command, if there is one.
#[derive(Drop)]
pub struct Reading {
    command: Option<Command>,
    room: Option<LineBytes>,
}

impl Model for Reading {
    ghost use Rattle.std.specs.Prelude.{Option};
    ghost use Rattle.sm_machine.specs.declared.commands.Command.{Command};
    ghost use Rattle.sm_script.specs.Rooms.{HasRoom};

    ghost Value = { Option Command };

    ghost view = { λ r. r.command };

    ghost invariant = { λ r. HasRoom r.room r.command };
}

impl Reading {
    // A `write`, with the room in it.
    pub(crate) fn write(disk: Uuid, sector: u64, bytes: LineBytes) -> Reading
        ensures { result ≡ Some (Write disk sector bytes) }
    {
        Reading {
            command: Some(Command::Write {
                disk,
                sector,
                bytes,
            }),
            room: None,
        }
    }

    // A command or none, with the room beside it.
    pub(crate) fn beside(command: Option<Command>, room: LineBytes) -> Reading
        ensures { result ≡ command }
    {
        Reading {
            command,
            room: Some(room),
        }
    }

    /// The command that the line spells, if it spells one.
    pub fn command(&self) -> Option<&Command>
        ensures { option_copied result ≡ self.now }
    {
        self.command.as_ref()
    }

    /// The room, for the next line.
    pub fn into_room(self) -> LineBytes {
        let Reading { command, room } = self;
        match (room, command) {
            (Some(room), _) => room,
            (None, Some(Command::Write { bytes, .. })) => bytes,
            _ => unreachable!(),
        }
    }
}
