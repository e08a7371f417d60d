//! The label of a disk.

ghost use Rattle.std.specs.Prelude.{◌≡◌, ◌-◌, ◌≤◌, ◌++◌, length, replicate, IsTrue, if◌then◌else◌};
ghost use Rattle.std.specs.Cmp.{partial_equiv_from_equiv};
ghost use Rattle.std.specs.Cmp.Lexicographic.{nat_list_eq_equiv};
ghost use Rattle.std.specs.List.{list_all};
ghost use Rattle.std.specs.Str.{bytes_eq};
ghost use Rattle.sm_base.specs.Labels.{is_label, is_label_byte};

use std::marker::Model;

/// The text by which users know a disk: 1 to 64 characters from `!` (21 hex) to `~` (7e hex). A contract
/// sees the list of its bytes.
#[derive(Clone, Copy)]
pub struct Label {
    length: u8,
    bytes: [u8; 64],
}

impl Model for Label {
    ghost use Rattle.std.specs.Prelude.{ℕ, List, take, length, IsTrue, replicate, ◌-◌, ◌++◌};
    ghost use Rattle.sm_base.specs.LabelBytes.{text_of, IsPadded, padded, padded_text};

    ghost Value = { List ℕ };

    ghost view = { text_of };

    ghost invariant = { IsPadded };

    ghost inverse = { padded };

    ghost inverse_ok = { padded_text };
}

impl Label {
    /// The label with this text, or `None` where the text is empty, longer than 64 bytes or has a byte
    /// that is no such character.
    pub fn of(text: &[u8]) -> Option<Label>
        ensures { result ≡ (if is_label text.now then Some text.now else None) }
    {
        if is_text(text) {
            Some(Label {
                length: text.len() as u8,
                bytes: padded(text),
            })
        } else {
            None
        }
    }

    /// The text.
    pub fn text(&self) -> &[u8]
        ensures text { result.now ≡ self.now }
        ensures label { IsTrue (is_label self.now) }
    {
        &self.bytes[..self.length as usize]
    }
}

impl PartialEq for Label {
    ghost eq = { bytes_eq };

    ghost laws = { partial_equiv_from_equiv nat_list_eq_equiv };

    fn eq(&self, other: &Label) -> bool {
        self.text() == other.text()
    }
}

impl Eq for Label {
    ghost laws = { nat_list_eq_equiv };
}

// Whether a text is a label.
fn is_text(text: &[u8]) -> bool
    ensures { result ≡ is_label text.now }
{
    let has_length = 1 <= text.len() && text.len() <= 64;
    has_length && all_printing(text)
}

// Whether each byte is a character of labels.
fn all_printing(text: &[u8]) -> bool
    ensures { result ≡ list_all is_label_byte text.now }
{
    text.iter().all(|byte| b'!' <= *byte && *byte <= b'~')
}

// The text in front of zeros.
fn padded(text: &[u8]) -> [u8; 64]
    requires { length text.now ≤ 64 }
    ensures { result ≡ text.now ++ replicate (64 - length text.now) 0 }
{
    let mut bytes = [0; 64];
    bytes[..text.len()].copy_from_slice(text);
    bytes
}
