//! A word of a reply, as it is printed.

ghost use Rattle.std.specs.Prelude.{◌≡◌, ◌≤◌, length, decimal};
ghost use Rattle.sm_base.specs.Names.{uuid_text, spelling};
ghost use Rattle.sm_machine.specs.Replies.{access, hex_text, name_or_dash, uuid_or_dash, visibility};

use itoa::Buffer;
use sm_base::Name;
use std::marker::Model;
use uuid::Uuid;

/// At most 128 bytes of text, in front of bytes that do not count. A contract sees the list of the text's
/// bytes.
#[derive(Drop)]
pub struct Word {
    bytes: [u8; 128],
    length: usize,
}

impl Model for Word {
    ghost use Rattle.std.specs.Prelude.{ℕ, List, take, ◌≤◌};

    ghost Value = { List ℕ };

    ghost view = { λ w. take w.length w.bytes };

    ghost invariant = { λ w. w.length ≤ 128 };
}

impl Word {
    /// This text.
    pub fn text(text: &[u8]) -> Word
        requires { length text.now ≤ 128 }
        ensures { result ≡ text.now }
    {
        let mut bytes = [0; 128];
        bytes[..text.len()].copy_from_slice(text);
        Word {
            bytes,
            length: text.len(),
        }
    }

    /// A number in decimal.
    pub fn number(number: u64) -> Word
        ensures { result ≡ decimal number }
    {
        let mut buffer = Buffer::new();
        Word::text(buffer.format(number).as_bytes())
    }

    /// A number of 32 bits in decimal.
    pub fn count(number: u32) -> Word
        ensures { result ≡ decimal number }
    {
        Word::number(u64::from(number))
    }

    /// The 36 characters of a UUID, in lower case.
    pub fn uuid(uuid: &Uuid) -> Word
        ensures { result ≡ uuid_text uuid.now }
    {
        let mut buffer = Uuid::encode_buffer();
        let text = uuid.hyphenated().encode_lower(&mut buffer);
        Word::text(text.as_bytes())
    }

    /// The spelling of a name.
    pub fn name(name: &Name) -> Word
        ensures { result ≡ spelling name.now }
    {
        let mut bytes = [0; 128];
        let length = name.spell(&mut bytes);
        Word { bytes, length }
    }

    /// Two lower-case hexadecimal digits for each of at most 64 bytes.
    pub fn hex(bytes: &[u8]) -> Word
        requires { length bytes.now ≤ 64 }
        ensures { result ≡ hex_text bytes.now }
    {
        let mut digits = [0; 128];
        let length = 2 * bytes.len();
        hex::encode_to_slice(bytes, &mut digits[..length]).unwrap();
        Word {
            bytes: digits,
            length,
        }
    }

    /// A UUID, or `-`.
    pub fn uuid_or_dash(uuid: &Option<Uuid>) -> Word
        ensures { result ≡ uuid_or_dash uuid.now }
    {
        match uuid {
            Some(uuid) => Word::uuid(uuid),
            None => Word::text(b"-"),
        }
    }

    /// A name, or `-`.
    pub fn name_or_dash(name: &Option<Name>) -> Word
        ensures { result ≡ name_or_dash name.now }
    {
        match name {
            Some(name) => Word::name(name),
            None => Word::text(b"-"),
        }
    }

    /// `ro` for a snapshot, else `rw`.
    pub fn access(read_only: bool) -> Word
        ensures { result ≡ access read_only }
    {
        if read_only {
            Word::text(b"ro")
        } else {
            Word::text(b"rw")
        }
    }

    /// `h` for a hidden image, else `v`.
    pub fn visibility(hidden: bool) -> Word
        ensures { result ≡ visibility hidden }
    {
        if hidden {
            Word::text(b"h")
        } else {
            Word::text(b"v")
        }
    }

    /// The text.
    pub fn bytes(&self) -> &[u8]
        ensures { result.now ≡ self.now }
    {
        &self.bytes[..self.length]
    }
}
