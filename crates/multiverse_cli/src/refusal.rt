//! Why a command is not done.

ghost use Rattle.std.specs.Prelude.{◌≡◌};
ghost use Rattle.multiverse_cli.specs.Texts.{defect_status, status_of};

use elf32_read::ImageFault;
use mv_base::Status;
use pair_check::Differs;

/// Why nothing comes of the files that a command reads, in the order in which the reasons are looked for.
#[derive(Clone, Copy, Drop)]
pub enum Defect {
    /// The file has no frame.
    NoFrame,
    /// The image has this fault.
    BadImage(ImageFault),
    /// The log's first line that no log has, counted from 1.
    BadLog(u64),
    /// The line of the source that is at fault, counted from 1.
    BadSource(u64),
    /// The output is no rewriting of the image: what differs first.
    Differs(Differs),
    /// So many bytes of pages would be mapped while the image runs, which are more than are allowed.
    TooLarge(u64),
    /// The image's addresses have no room for the added block, which has this many bytes.
    NoRoom(u64),
}

impl Defect {
    /// The answer that this defect is.
    fn status(&self) -> Status
        ensures { result ≡ defect_status self.now }
    {
        match self {
            Defect::NoFrame => Status::NoFrame,
            Defect::BadImage(_) => Status::BadImage,
            Defect::BadLog(_) => Status::BadLog,
            Defect::BadSource(_) => Status::BadSource,
            Defect::Differs(_) => Status::Differs,
            Defect::TooLarge(_) => Status::TooLarge,
            Defect::NoRoom(_) => Status::NoRoom,
        }
    }
}

/// Why a command is not done, in the order in which the reasons are looked for. Each has a message. A name is that of
/// the file at fault.
#[derive(Clone, Copy, Drop)]
pub enum Refusal<'a> {
    /// The words are no command.
    Usage,
    /// The file could not be read.
    ReadFault(&'a str),
    /// The file has more bytes than the limit.
    TooLarge(&'a str),
    /// The files that are read lack something.
    Lacking(Defect),
    /// The file could not be written.
    WriteFault(&'a str),
}

impl Refusal<'_> {
    /// The answer that this refusal is.
    pub fn status(&self) -> Status
        ensures { result ≡ status_of self.now }
    {
        match self {
            Refusal::Usage => Status::Usage,
            Refusal::ReadFault(_) => Status::ReadFault,
            Refusal::TooLarge(_) => Status::TooLarge,
            Refusal::Lacking(defect) => defect.status(),
            Refusal::WriteFault(_) => Status::WriteFault,
        }
    }
}
