// The ways in which a run can end.
ghost use Rattle.std.specs.Prelude.{◌≡◌};
ghost use Rattle.btest_cli.specs.ExitNumbers.{exit_number};

/// The way in which a run ended.
#[derive(Clone, Copy, Debug, PartialEq, Eq)]
pub enum Status {
    /// The whole text was written.
    Done,
    /// The texts have a fault, or a text is too long.
    Refused,
    /// The words are not a command line of the grammar.
    Usage,
    /// Reading a text failed.
    ReadFault,
    /// Writing the text failed.
    WriteFault,
    /// There was not enough memory. Nothing was written to the output.
    NoMemory,
}

impl Status {
    /// Returns the exit status of the program.
    pub fn number(self) -> u8
        ensures { result ≡ exit_number self }
    {
        match self {
            Status::Done => 0,
            Status::Refused => 1,
            Status::Usage => 2,
            Status::ReadFault => 3,
            Status::WriteFault => 4,
            Status::NoMemory => 5,
        }
    }
}
