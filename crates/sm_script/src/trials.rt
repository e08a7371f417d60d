//! The lines of a trial, which a generator draws from a number.

ghost use Rattle.std.specs.Prelude.{◌≡◌, ◌<◌, ◌≤◌, ◌+◌, ◌++◌, ◌∷◌, [], length, take, decimal};
ghost use Rattle.sm_machine.specs.Replies.{hex_text};
ghost use Rattle.sm_script.specs.Pieces.{led};
ghost use Rattle.sm_script.specs.Trials.{stirred, drawn, disk_numbered, disk_word, size_word, sector_word, count_word, byte_word, line_drawn, state_drawn, drawn_line};

use crate::words::Word;
use std::marker::Model;
use uuid::Uuid;

/// A generator of a script's lines: a linear congruential generator of 64 bits, which begins with the trial's number. A contract sees
/// its state. Two trials of one number give the same lines.
#[derive(Drop)]
pub struct Trial {
    state: u64,
}

impl Model for Trial {
    ghost use Rattle.std.specs.Prelude.{ℕ};

    ghost Value = { ℕ };

    ghost view = { λ t. t.state };
}

/// The UUID of a disk by its number below 100: the two decimal digits are the last of its UUID.
fn disk_numbered(number: u8) -> Uuid
    requires { number < 100 }
    ensures { result ≡ disk_numbered number }
{
    let last = 16 * (number / 10) + number % 10;
    Uuid::from_bytes([0, 0, 0, 0, 0, 0, 64, 0, 128, 0, 0, 0, 0, 0, 0, last])
}

/// A number in decimal.
fn number_word(number: u64) -> Word
    ensures word { result ≡ decimal number }
    ensures short { length result ≤ 20 }
{
    Word::number(number)
}

/// Writes a text and then words, each behind a space, and gives how many bytes they are.
fn put_words(to: &mut [u8; 128], verb: &[u8], words: &[Word]) -> usize
    requires { length verb.now + length (led 32 words.now) ≤ 128 }
    ensures within { result ≤ 128 }
    ensures written { take result to.new ≡ verb.now ++ led 32 words.now }
{
    let mut at = put(to, 0, verb);
    for word in words {
        at = put(to, at, b" ");
        at = put(to, at, word.bytes());
    }
    at
}

/// Writes bytes at a place, and gives the place behind them.
fn put(to: &mut [u8; 128], at: usize, bytes: &[u8]) -> usize
    requires { at + length bytes.now ≤ 128 }
    ensures next { result ≡ at + length bytes.now }
    ensures written { take result to.new ≡ take at to.old ++ bytes.now }
{
    let next = at + bytes.len();
    to[at..next].copy_from_slice(bytes);
    next
}

impl Trial {
    /// The generator that begins with a number.
    pub fn new(number: u64) -> Trial
        ensures { result ≡ number }
    {
        Trial { state: number }
    }

    /// A number below a bound: the state is stirred first.
    #[tactic(auto, unfolding(crate::specs::Trials::stirred, crate::specs::Trials::drawn))]
    fn draw(&mut self, below: u64) -> u64
        requires { 0 < below }
        ensures next { self.new ≡ stirred self.old }
        ensures number { result ≡ drawn below self.new }
        ensures within { result < below }
    {
        self.state = self
            .state
            .wrapping_mul(6_364_136_223_846_793_005)
            .wrapping_add(1_442_695_040_888_963_407);
        (self.state >> 33) % below
    }

    /// A disk.
    fn disk(&mut self) -> Word
        ensures next { self.new ≡ stirred self.old }
        ensures word { result ≡ disk_word self.new }
        ensures short { length result ≤ 36 }
    {
        let number = self.draw(12);
        Word::uuid(&disk_numbered(number as u8))
    }

    /// A size in bytes, of 1 to 64 blocks of 4,096.
    fn size(&mut self) -> Word
        ensures next { self.new ≡ stirred self.old }
        ensures word { result ≡ size_word self.new }
        ensures short { length result ≤ 20 }
    {
        number_word(4096 * (1 + self.draw(64)))
    }

    /// A sector below 512.
    fn sector(&mut self) -> Word
        ensures next { self.new ≡ stirred self.old }
        ensures word { result ≡ sector_word self.new }
        ensures short { length result ≤ 20 }
    {
        number_word(self.draw(512))
    }

    /// A number of sectors, from 1 to the most.
    fn count(&mut self, most: u64) -> Word
        requires { (0 < most) × (most < 512) }
        ensures next { self.new ≡ stirred self.old }
        ensures word { result ≡ count_word most self.new }
        ensures short { length result ≤ 20 }
    {
        number_word(1 + self.draw(most))
    }

    /// A byte, as two digits in lower case.
    fn byte(&mut self) -> Word
        ensures next { self.new ≡ stirred self.old }
        ensures word { result ≡ byte_word self.new }
        ensures short { length result ≤ 2 }
    {
        let byte = self.draw(256) as u8;
        Word::hex(&[byte])
    }

    /// Writes the next line, without a newline, to the front of these bytes, and answers how many bytes it has. What stands
    /// behind it is open. It takes no memory.
    #[tactic(auto, unfolding(crate::specs::Trials::drawn_line))]
    pub fn line(&mut self, to: &mut [u8; 128]) -> usize
        ensures within { result ≤ 128 }
        ensures line { take result to.new ≡ line_drawn self.old }
        ensures next { self.new ≡ state_drawn self.old }
    {
        let kind = self.draw(16);
        let disk = self.disk();
        match kind {
            0 => put_words(
                to,
                b"create",
                &[disk, self.size(), Word::text(b"vhd"), Word::text(b"t")],
            ),
            1 => put_words(to, b"snapshot", &[disk, self.disk()]),
            2 => put_words(to, b"clone", &[disk, self.disk()]),
            3 => put_words(to, b"delete", &[disk]),
            4 => put_words(to, b"attach", &[disk, Word::text(b"rw")]),
            5 => put_words(to, b"attach", &[disk, Word::text(b"ro")]),
            6 => put_words(to, b"detach", &[disk]),
            7 => put_words(to, b"resize", &[disk, self.size()]),
            8 | 9 | 10 => put_words(
                to,
                b"fill",
                &[disk, self.sector(), self.count(16), self.byte()],
            ),
            11 => put_words(to, b"read", &[disk, self.sector(), self.count(4)]),
            12 => put_words(to, b"flush", &[disk]),
            _ => put_words(to, b"gc", &[]),
        }
    }
}
