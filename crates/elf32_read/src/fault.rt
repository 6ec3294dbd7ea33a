//! Why a file is no image that the project takes.

use thiserror::Error;

/// The first fault of a file, in the order of the variants; a number is the program header's index, from 0.
/// The order is this project's own, the fields are those of the System V gABI.
#[derive(Clone, Copy, Debug, PartialEq, Eq, Drop, Error)]
pub enum ImageFault {
    #[error("the file has fewer than 52 bytes")]
    ShortHeader,
    #[error("the magic differs")]
    NotElf,
    #[error("the class isn't 32 bits or the data isn't little-endian")]
    NotElf32Little,
    #[error("the machine isn't i386")]
    NotI386,
    #[error("the type isn't an executable's")]
    NotExecutable,
    #[error("a version isn't 1")]
    BadVersion,
    #[error("the ELF header's or a program header's size differs")]
    BadSizes,
    #[error("there is no program header, or more than 64")]
    HeaderCount,
    #[error("the program headers exceed the file")]
    HeadersOutside,
    #[error("header {0} names an interpreter")]
    Interpreter(u32),
    #[error("header {0} is for dynamic linking")]
    Dynamic(u32),
    #[error("the bytes of header {0} exceed the file")]
    FileRange(u32),
    #[error("header {0} has less memory than bytes")]
    MemorySmaller(u32),
    #[error("the addresses of header {0} end too high")]
    AddressRange(u32),
    #[error("header {0} has no permission")]
    NoPermission(u32),
    #[error("header {0} is writable and executable")]
    WritableCode(u32),
    #[error("offset and address of header {0} differ within a page")]
    NotCongruent(u32),
    #[error("header {0} shares a page with the segment before it")]
    SharedPage(u32),
    #[error("no header is to be loaded")]
    NoLoad,
    #[error("there are too many executable bytes")]
    CodeTooLarge,
    #[error("there are more than 61 program headers")]
    HeadersFull,
}
