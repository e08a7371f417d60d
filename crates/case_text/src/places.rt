//! Places on the device, as a case names them.

use case_words::cut;

/// A sector of a volume.
#[derive(Clone, Copy)]
pub enum At {
    /// By its number.
    Sector(u64),
    /// The last.
    Last,
}

/// A sector of the device.
#[derive(Clone, Copy)]
pub enum Site<'a> {
    /// The repository's label.
    Label,
    /// The header of the volumes' table.
    Header,
    /// The first sector of the table's text that is in force.
    Text,
    /// The record of a disk, by the number of its place.
    Record(u64),
    /// By its number.
    Sector(u64),
    /// Of a volume.
    Volume { name: &'a str, at: At },
}

/// A byte of a sector of the device.
#[derive(Clone, Copy)]
pub struct Place<'a> {
    pub site: Site<'a>,
    pub offset: usize,
}

/// The number that a word spells.
pub fn number_of(word: &str) -> Result<u64, &'static str> {
    match word.parse::<u64>() {
        Ok(number) => Ok(number),
        Err(_) => Err("no number"),
    }
}

/// Which sector of a volume a word names.
fn at_of(word: &str) -> Result<At, &'static str> {
    if word == "last" {
        return Ok(At::Last);
    }
    Ok(At::Sector(number_of(word)?))
}

/// The sector that words name.
fn site_of(words: &str) -> Result<Site<'_>, &'static str> {
    match cut(words) {
        ("label", "") => Ok(Site::Label),
        ("header", "") => Ok(Site::Header),
        ("text", "") => Ok(Site::Text),
        (_, "") => Err("no such place"),
        ("record", number) => Ok(Site::Record(number_of(number)?)),
        ("sector", number) => Ok(Site::Sector(number_of(number)?)),
        (name, at) => Ok(Site::Volume {
            name,
            at: at_of(at)?,
        }),
    }
}

/// The place that words name: a sector, and maybe `+` and the byte within it.
pub fn place_of(words: &str) -> Result<Place<'_>, &'static str> {
    let Some((site, offset)) = words.split_once(" +") else {
        return Ok(Place {
            site: site_of(words)?,
            offset: 0,
        });
    };
    match offset.parse::<usize>() {
        Ok(offset) => Ok(Place {
            site: site_of(site)?,
            offset,
        }),
        Err(_) => Err("no number of a byte"),
    }
}
