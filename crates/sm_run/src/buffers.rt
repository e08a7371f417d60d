//! The buffer that a line is read into.

ghost use Rattle.std.specs.Prelude.{◌≡◌, ◌++◌, [], IfOk};
ghost use Rattle.sm_run.specs.Parts.{front_of};

use sm_base::NoMemory;
use sm_script::{Line, LineBytes};
use std::alloc::Global;
use std::marker::Model;

/// One byte more than a line may have, so that a longer line is known by its length.
const ROOM: usize = 65537;

/// The memory that a run reads its lines into: a line's bytes, of a longer one its first 65,537, and room for the bytes
/// that a `write` spells. A contract sees the list of the line's bytes.
#[derive(Drop)]
pub struct LineBuffer {
    pub(crate) bytes: Vec<u8>,
    pub(crate) room: Option<LineBytes>,
}

impl Model for LineBuffer {
    ghost use Rattle.std.specs.Prelude.{◌≡◌, ◌≤◌, ◌+◌, List, ℕ, IsSome, length, vec_len};
    ghost use Rattle.std.specs.Vec.{vec_capacity};
    ghost use Rattle.sm_machine.specs.Lines.{line_limit};

    ghost Value = { List ℕ };

    ghost view = { λ b. b.bytes.items };

    ghost invariant = { λ b. (vec_len b.bytes ≡ length b.bytes.items)
        × (length b.bytes.items ≤ line_limit + 1) × (line_limit + 1 ≤ vec_capacity b.bytes) × IsSome b.room };
}

impl LineBuffer {
    /// An empty buffer, with all the room that a line needs: 65,537 bytes, and 32,256 bytes for a `write`.
    pub fn new(alloc: Global) -> Result<LineBuffer, NoMemory>
        ensures { IfOk result (λ b. b ≡ []) }
    {
        let room = Line::room(alloc)?;
        match Vec::with_capacity(alloc, ROOM) {
            Ok(bytes) => Ok(LineBuffer {
                bytes,
                room: Some(room),
            }),
            Err(_) => Err(NoMemory),
        }
    }

    /// Forgets the line.
    pub fn clear(&mut self)
        ensures { self.new ≡ [] }
    {
        self.bytes.clear();
    }

    /// Takes more bytes of the line, as many as there is room for.
    pub fn push(&mut self, bytes: &[u8])
        ensures { self.new ≡ front_of (self.old ++ bytes.now) }
    {
        let count = bytes.len().min(ROOM - self.bytes.len());
        if self.bytes.extend_from_slice(&bytes[..count]).is_err() {
            unreachable!();
        }
    }

    /// The bytes.
    pub fn bytes(&self) -> &[u8]
        ensures { result.now ≡ self.now }
    {
        &self.bytes
    }
}
