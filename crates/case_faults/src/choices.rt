//! Which of the values that are pending on a device last.

use case_device::{Choice, Device};
use case_text::CHOICES;
use case_words::{Wrong, found};
use std::alloc::{AllocError, Global};

/// By which of the choices each part of a device is left. A device without a border is left by the same.
#[derive(Clone, Copy, PartialEq, Eq)]
pub struct Chosen {
    first: usize,
    second: usize,
}

impl Chosen {
    /// The same of both parts.
    pub fn both(choice: usize) -> Chosen {
        Chosen {
            first: choice,
            second: choice,
        }
    }

    /// The choice as it is told.
    pub fn told(self, alloc: Global) -> Result<String, AllocError> {
        let Chosen { first, second } = self;
        if first == second {
            return format!(in alloc; "choice {first}");
        }
        format!(in alloc; "choices {first} and {second}")
    }
}

/// Adds the choices that have this one of the first part.
fn add_choices(to: &mut Vec<Chosen>, first: usize, has_border: bool) -> Result<(), AllocError> {
    for second in 0..CHOICES.len() {
        if has_border || first == second {
            to.push(Chosen { first, second })?;
        }
    }
    Ok(())
}

/// The choices that a device is left by: five, or where it has a border five of the first part with each of five of the second.
pub fn choices_of(alloc: Global, disk: &Device) -> Result<Vec<Chosen>, AllocError> {
    let mut all = Vec::new(alloc);
    for first in 0..CHOICES.len() {
        add_choices(&mut all, first, disk.has_border())?;
    }
    Ok(all)
}

/// What a choice leaves of a device.
pub fn left_by(alloc: Global, disk: &Device, chosen: Chosen) -> Result<Device, Wrong> {
    match (CHOICES.get(chosen.first), CHOICES.get(chosen.second)) {
        (Some(first), Some(second)) => disk.left(alloc, Choice { first, second }),
        _ => Err(found(alloc, "no such choice")),
    }
}
