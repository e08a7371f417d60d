//! The program's words.

ghost use Rattle.std.specs.Prelude.{◌≡◌, map};
ghost use Rattle.lvhd_command.specs.Words.{export_of, form_of, format_of, import_of, trial_of};

use sm_script::{number_in, uuid_in};
use uuid::Uuid;

/// What a new repository is to be: an extent and a block in bytes, the entries of a block allocation table, and its
/// UUID.
#[derive(Clone, Copy)]
pub struct Request {
    pub extent: u64,
    pub block: u64,
    pub entries: u64,
    pub repository: Uuid,
}

/// Which disk is to be sent as a file, or made of one.
#[derive(Clone, Copy)]
pub struct Wanted {
    pub disk: Uuid,
}

/// What the words ask for.
#[derive(Clone, Copy)]
pub enum Form {
    /// Make a repository.
    Format(Request),
    /// Read a script and answer it.
    Run,
    /// Step the lines that a number draws on a new repository, and count the replies.
    Trial { number: u64 },
    /// Send a disk as a VHD file.
    Export(Wanted),
    /// Make a disk of a VHD file.
    Import(Wanted),
}

impl Form {
    /// What the words ask for, or `None` exactly where they spell no form.
    #[tactic(auto, unfolding(crate::specs::Words::form_of))]
    pub fn read(words: &[&str]) -> Option<Form>
        ensures { result ≡ form_of (map (λ w. w.now) words.now) }
    {
        match words {
            [word] => {
                if word.as_bytes() == b"run".as_slice() {
                    Some(Form::Run)
                } else {
                    None
                }
            }
            [word, second] => {
                if word.as_bytes() == b"trial".as_slice() {
                    trial_form(second)
                } else if word.as_bytes() == b"export".as_slice() {
                    export_form(second)
                } else if word.as_bytes() == b"import".as_slice() {
                    import_form(second)
                } else {
                    None
                }
            }
            [word, extent, block, entries, repository] => {
                if word.as_bytes() == b"format".as_slice() {
                    format_form(extent, block, entries, repository)
                } else {
                    None
                }
            }
            _ => None,
        }
    }
}

/// The words of `format` behind the first.
fn format_form(extent: &str, block: &str, entries: &str, repository: &str) -> Option<Form>
    ensures { result ≡ format_of extent.now block.now entries.now repository.now }
{
    Some(Form::Format(Request {
        extent: number_in(extent.as_bytes())?,
        block: number_in(block.as_bytes())?,
        entries: number_in(entries.as_bytes())?,
        repository: uuid_in(repository.as_bytes())?,
    }))
}

/// The word of `trial` behind the first.
fn trial_form(number: &str) -> Option<Form>
    ensures { result ≡ trial_of number.now }
{
    Some(Form::Trial {
        number: number_in(number.as_bytes())?,
    })
}

/// The word of `export` behind the first.
fn export_form(disk: &str) -> Option<Form>
    ensures { result ≡ export_of disk.now }
{
    Some(Form::Export(Wanted {
        disk: uuid_in(disk.as_bytes())?,
    }))
}

/// The word of `import` behind the first.
fn import_form(disk: &str) -> Option<Form>
    ensures { result ≡ import_of disk.now }
{
    Some(Form::Import(Wanted {
        disk: uuid_in(disk.as_bytes())?,
    }))
}
