//! What the lines at the margin of a case say.

use crate::places::{Place, number_of, place_of};
use crate::scripts::Units;
use case_words::cut;

/// A change of the volumes' table, committed by hand. Volumes are named as they are spelled, extents are their numbers.
#[derive(Clone, Copy)]
pub enum Commit<'a> {
    /// A journal entry is made.
    Put(&'a str),
    /// A new image is made on these extents, and stands where that is said.
    Make {
        image: &'a str,
        extents: &'a str,
        stands: bool,
    },
    /// A volume gets another name.
    Rename {
        from: &'a str,
        to: &'a str,
    },
    /// An image is hidden.
    Hide(&'a str),
    /// An image is shown.
    Show(&'a str),
    /// A volume is removed.
    Remove(&'a str),
    /// An image gets these extents more.
    Grow {
        image: &'a str,
        extents: &'a str,
    },
}

/// How many calls of the device a line is to make.
#[derive(Clone, Copy)]
pub enum Cost {
    /// So many.
    Calls(u64),
    /// As many as the line of the `costs` above.
    Same,
    /// Any number.
    Any,
}

/// On what an opening is stopped again.
#[derive(Clone, Copy)]
pub enum Left {
    /// On what the choice with this index leaves.
    Choice(usize),
    /// On the device as it is, with what is pending on it.
    Pending,
}

/// By which choices a device is left: of each place with pending sectors which of them lasts, counted from 1, in turn; 0 is none.
pub const CHOICES: [&[u32]; 5] = [&[], &[1], &[0, 1], &[1, 0], &[3]];

/// The choice, by its index, by which each place with pending sectors is left with the first of them.
pub const FIRST_VALUES: usize = 1;

/// What a line at the margin says is done.
#[derive(Clone, Copy)]
pub enum Act<'a> {
    /// The part that the case begins with.
    After(&'a str),
    /// Another device of so many sectors, of stale bytes or of zeros.
    Device {
        sectors: u64,
        is_stale: bool,
    },
    /// The device is two from here on, the first of so many sectors.
    Border(u64),
    /// The words of a format, and what it prints.
    Format {
        words: &'a str,
        line: &'a str,
        units: Units,
    },
    /// Words that spell no form.
    Words(&'a str),
    /// A trial by this number, and the line that it prints.
    Trial {
        number: &'a str,
        line: &'a str,
    },
    /// The bytes of the file that is imported below.
    File(&'a str),
    /// The file is imported as a disk with this UUID: that prints nothing, or this error. The script makes such a disk.
    Import {
        uuid: &'a str,
        line: &'a str,
    },
    /// The script is answered.
    Run,
    /// An opening is refused by this line.
    Refused(&'a str),
    /// The script is answered, and then faults are tried, which words name.
    Try(&'a str),
    /// The disks are those of the book.
    Shows,
    /// An opening of what a fault leaves is stopped at each of its calls.
    Again(Left),
    /// What is left is collected, and the reply to `stat` ends so.
    Ends(&'a str),
    /// So many lines were answered.
    Answered(usize),
    /// The run with a fault of its sink or source made so many calls of the device.
    Made(u64),
    /// The script makes so many calls of the device, its opening and its end with them.
    Calls(u64),
    /// The last line of the script makes so many calls of the device.
    Costs(Cost),
    /// Bytes are written over, and maybe sums made right.
    Set {
        place: Place<'a>,
        bytes: &'a str,
        seals: bool,
    },
    /// The device has these bytes.
    Has {
        place: Place<'a>,
        bytes: &'a str,
    },
    /// A change of the volumes' table by hand.
    Commit(Commit<'a>),
    /// Replies are not held against the book from here on.
    Forget,
    /// Nothing that can be read, and why not.
    Unread(&'static str),
}

impl Act<'_> {
    /// Whether a script may stand below it.
    pub fn takes_script(&self) -> bool {
        match self {
            Act::Run | Act::Try(_) | Act::Calls(_) | Act::Costs(_) | Act::Unread(_) => true,
            Act::Import { .. } => true,
            _ => false,
        }
    }
}

fn device<'a>(words: &str) -> Result<Act<'a>, &'static str> {
    let (count, rest) = cut(words);
    let sectors = number_of(count)?;
    match rest {
        "" => Ok(Act::Device {
            sectors,
            is_stale: false,
        }),
        "stale" => Ok(Act::Device {
            sectors,
            is_stale: true,
        }),
        _ => Err("no such device"),
    }
}

/// The units that the words of a format name: its extent and its block.
fn units_of(words: &str) -> Units {
    let (extent, rest) = cut(words);
    let (block, _rest) = cut(rest);
    Units {
        extent: number_of(extent).unwrap_or(0),
        block: number_of(block).unwrap_or(0),
    }
}

fn format<'a>(words: &'a str) -> Result<Act<'a>, &'static str> {
    match words.split_once(" => ") {
        Some((words, line)) => Ok(Act::Format {
            words,
            line,
            units: units_of(words),
        }),
        None => Err("no line that the format prints"),
    }
}

fn trial<'a>(words: &'a str) -> Result<Act<'a>, &'static str> {
    match words.split_once(" => ") {
        Some((number, line)) => Ok(Act::Trial { number, line }),
        None => Err("no line that the trial prints"),
    }
}

fn import<'a>(words: &'a str) -> Result<Act<'a>, &'static str> {
    match words.split_once(" => ") {
        Some((uuid, line)) if line == "ok" || line.starts_with("error ") => {
            Ok(Act::Import { uuid, line })
        }
        Some(_) => Err("no such end of an import"),
        None => Err("no end of the import"),
    }
}

fn run<'a>(words: &'a str) -> Act<'a> {
    if words.is_empty() {
        return Act::Run;
    }
    match words.strip_prefix("=> ") {
        Some(line) => Act::Refused(line),
        None => Act::Try(words),
    }
}

fn set<'a>(words: &'a str) -> Result<Act<'a>, &'static str> {
    let Some((place, bytes)) = words.split_once(" = ") else {
        return Err("no bytes");
    };
    let place = place_of(place)?;
    Ok(match bytes.strip_suffix(" sum") {
        Some(bytes) => Act::Set {
            place,
            bytes,
            seals: true,
        },
        None => Act::Set {
            place,
            bytes,
            seals: false,
        },
    })
}

fn has<'a>(words: &'a str) -> Result<Act<'a>, &'static str> {
    match words.split_once(" = ") {
        Some((place, bytes)) => Ok(Act::Has {
            place: place_of(place)?,
            bytes,
        }),
        None => Err("no bytes"),
    }
}

fn make<'a>(words: &'a str) -> Result<Act<'a>, &'static str> {
    let Some((image, list)) = words.split_once(" at ") else {
        return Err("no extents");
    };
    let (extents, stands) = match list.strip_suffix(" standing") {
        Some(extents) => (extents, true),
        None => (list, false),
    };
    Ok(Act::Commit(Commit::Make {
        image,
        extents,
        stands,
    }))
}

fn rename<'a>(words: &'a str) -> Result<Act<'a>, &'static str> {
    match words.split_once(" to ") {
        Some((from, to)) => Ok(Act::Commit(Commit::Rename { from, to })),
        None => Err("no other name"),
    }
}

fn grow<'a>(words: &'a str) -> Result<Act<'a>, &'static str> {
    match words.split_once(" by ") {
        Some((image, extents)) => Ok(Act::Commit(Commit::Grow { image, extents })),
        None => Err("no extents"),
    }
}

/// What a word says that stands by itself in its line.
fn bare<'a>(word: &str) -> Result<Act<'a>, &'static str> {
    match word {
        "shows" => Ok(Act::Shows),
        "again" => Ok(Act::Again(Left::Choice(FIRST_VALUES))),
        "forget" => Ok(Act::Forget),
        "run" => Ok(Act::Run),
        "words" => Ok(Act::Words("")),
        _ => Err("no such word"),
    }
}

/// What a line says that ends in a number.
fn counted<'a>(word: &str, number: u64) -> Act<'a> {
    match word {
        "calls" => Act::Calls(number),
        "made" => Act::Made(number),
        _ => Act::Answered(number as usize),
    }
}

fn costs<'a>(word: &str) -> Result<Act<'a>, &'static str> {
    Ok(Act::Costs(match word {
        "any" => Cost::Any,
        "same" => Cost::Same,
        number => Cost::Calls(number_of(number)?),
    }))
}

/// On what an opening is stopped again, as a word says: `pending`, or one of the choices.
fn again<'a>(word: &str) -> Result<Act<'a>, &'static str> {
    match word {
        "pending" => Ok(Act::Again(Left::Pending)),
        "1" => Ok(Act::Again(Left::Choice(FIRST_VALUES))),
        "0,1" => Ok(Act::Again(Left::Choice(2))),
        "1,0" => Ok(Act::Again(Left::Choice(3))),
        "3" => Ok(Act::Again(Left::Choice(4))),
        _ => Err("no such choice"),
    }
}

/// How the reply to `stat` ends, as words say: in one of these texts. None is a reply that is not to be.
fn ends<'a>(words: &'a str) -> Result<Act<'a>, &'static str> {
    for one in words.split(" | ") {
        if one.starts_with("not ") {
            return Err("no such end");
        }
    }
    Ok(Act::Ends(words))
}

/// What a line at the margin says.
pub fn act_of<'a>(line: &'a str) -> Result<Act<'a>, &'static str> {
    let Some((word, words)) = line.split_once(" ") else {
        return bare(line);
    };
    match word {
        "after" => Ok(Act::After(words)),
        "device" => device(words),
        "border" => Ok(Act::Border(number_of(words)?)),
        "format" => format(words),
        "trial" => trial(words),
        "words" => Ok(Act::Words(words)),
        "file" => Ok(Act::File(words)),
        "import" => import(words),
        "run" => Ok(run(words)),
        "again" => again(words),
        "ends" => ends(words),
        "answered" | "calls" | "made" => Ok(counted(word, number_of(words)?)),
        "costs" => costs(words),
        "set" => set(words),
        "has" => has(words),
        "put" => Ok(Act::Commit(Commit::Put(words))),
        "make" => make(words),
        "rename" => rename(words),
        "hide" => Ok(Act::Commit(Commit::Hide(words))),
        "show" => Ok(Act::Commit(Commit::Show(words))),
        "remove" => Ok(Act::Commit(Commit::Remove(words))),
        "grow" => grow(words),
        _ => Err("no such word"),
    }
}
