//! What a line of a script would do to the disks, where it is accepted.

use crate::bytes::uniform_byte;

/// What an accepted line does. Sizes are in bytes, sectors have 512.
#[derive(Clone, Copy)]
pub enum Command<'a> {
    /// A disk is made.
    Create {
        uuid: &'a str,
        size: u64,
        is_raw: bool,
        label: &'a str,
    },
    /// A disk is given up.
    Delete {
        uuid: &'a str,
    },
    /// A disk is made of another.
    Fork {
        uuid: &'a str,
        twin: &'a str,
        is_read_only: bool,
    },
    /// A disk is enlarged.
    Resize {
        uuid: &'a str,
        size: u64,
    },
    /// A disk gets another label.
    Label {
        uuid: &'a str,
        label: &'a str,
    },
    /// Sectors are filled with one byte.
    Fill {
        uuid: &'a str,
        from: usize,
        count: usize,
        byte: u8,
    },
    /// Sectors are written with bytes that differ.
    Mixed,
    /// No disk changes, and what was written lasts.
    Settle,
    /// The disks are listed.
    List,
    /// Sectors are read.
    Read {
        uuid: &'a str,
        from: usize,
    },
    /// No disk changes.
    Other,
}

/// The first word of a text, and what stands behind it.
pub fn cut(text: &str) -> (&str, &str) {
    text.split_once(" ").unwrap_or((text, ""))
}

fn size_of(word: &str) -> u64 {
    word.parse::<u64>().unwrap_or(0)
}

fn sector_of(word: &str) -> usize {
    word.parse::<usize>().unwrap_or(0)
}

fn create<'a>(uuid: &'a str, words: &'a str) -> Command<'a> {
    let (size, words) = cut(words);
    let (kind, label) = cut(words);
    Command::Create {
        uuid,
        size: size_of(size),
        is_raw: kind == "raw",
        label,
    }
}

fn fill<'a>(uuid: &'a str, words: &str) -> Command<'a> {
    let (from, words) = cut(words);
    let (count, digits) = cut(words);
    match uniform_byte(digits) {
        Some(byte) => Command::Fill {
            uuid,
            from: sector_of(from),
            count: sector_of(count),
            byte,
        },
        None => Command::Mixed,
    }
}

fn write<'a>(uuid: &'a str, words: &str) -> Command<'a> {
    let (from, digits) = cut(words);
    match uniform_byte(digits) {
        Some(byte) => Command::Fill {
            uuid,
            from: sector_of(from),
            count: digits.len() / 1024,
            byte,
        },
        None => Command::Mixed,
    }
}

impl<'a> Command<'a> {
    /// What a line does where it is accepted. A line that spells no command is never accepted, and is any of these.
    pub fn of(line: &'a str) -> Command<'a> {
        let (word, words) = cut(line);
        let (uuid, rest) = cut(words);
        match word {
            "create" => create(uuid, rest),
            "delete" => Command::Delete { uuid },
            "snapshot" | "clone" => Command::Fork {
                uuid,
                twin: rest,
                is_read_only: word == "snapshot",
            },
            "resize" => Command::Resize {
                uuid,
                size: size_of(rest),
            },
            "label" => Command::Label { uuid, label: rest },
            "fill" => fill(uuid, rest),
            "write" => write(uuid, rest),
            "attach" | "detach" | "flush" | "cbt" => Command::Settle,
            "list" => Command::List,
            "read" => Command::Read {
                uuid,
                from: sector_of(cut(rest).0),
            },
            _ => Command::Other,
        }
    }
}
