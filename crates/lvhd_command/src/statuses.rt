//! How the program ended.

ghost use Rattle.std.specs.Prelude.{◌≡◌};
ghost use Rattle.lvhd_command.specs.Statuses.{status_code};

/// How the program ended.
#[derive(Clone, Copy, PartialEq, Eq)]
pub enum Status {
    /// The work was done, and a script was read to its end.
    Done,
    /// The words spell no form. Nothing was done.
    Words,
    /// The device failed.
    Device,
    /// The source failed.
    Source,
    /// The sink failed.
    Sink,
    /// The device was not formatted or not opened, and one line says why.
    Refused,
    /// Memory ran out.
    Memory,
    /// The source gave a byte past the most of a script.
    TooLong,
    /// The repository was opened, and what was asked of it was refused: one line says why.
    Denied,
}

impl Status {
    /// The exit status.
    pub fn code(self) -> u8
        ensures { result ≡ status_code self }
    {
        match self {
            Status::Done => 0,
            Status::Words => 2,
            Status::Device => 3,
            Status::Source => 4,
            Status::Sink => 5,
            Status::Refused => 6,
            Status::Memory => 7,
            Status::TooLong => 8,
            Status::Denied => 10,
        }
    }
}
