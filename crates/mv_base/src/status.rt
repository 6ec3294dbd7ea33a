//! The answers of the program.

ghost use Rattle.std.specs.Prelude.{◌≡◌};
ghost use Rattle.mv_base.specs.StatusCode.{code_of};

/// What a command came to. The names and numbers are this project's own.
#[derive(Clone, Copy, Debug, PartialEq, Eq)]
pub enum Status {
    /// The command did all that it is for.
    Done,
    /// The words are no command.
    Usage,
    /// A file that the command reads could not be read.
    ReadFault,
    /// The file that the command writes could not be written.
    WriteFault,
    /// The image has a fault.
    BadImage,
    /// No gap between the image's segments has room for the added block.
    NoRoom,
    /// The log has a line that no log has.
    BadLog,
    /// Memory ran out.
    NoMemory,
    /// The text could not be printed.
    SinkFault,
    /// A file, or the memory of a traced program, is over its limit.
    TooLarge,
    /// The source has a line that cannot be assembled.
    BadSource,
    /// The output is not one that follows its input.
    Differs,
    /// The file has no frame that keeps the rules of rewritten files.
    NoFrame,
}

impl Status {
    /// The number with which the process ends.
    pub fn code(&self) -> u8
        ensures { result ≡ code_of self.now }
    {
        match self {
            Status::Done => 0,
            Status::Usage => 2,
            Status::ReadFault => 3,
            Status::WriteFault => 4,
            Status::BadImage => 5,
            Status::NoRoom => 6,
            Status::BadLog => 7,
            Status::NoMemory => 8,
            Status::SinkFault => 9,
            Status::TooLarge => 10,
            Status::BadSource => 11,
            Status::Differs => 12,
            Status::NoFrame => 13,
        }
    }
}
