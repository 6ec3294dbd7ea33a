//! Static ELF executables for i386: the image that a file is, or the first reason why it is none that the
//! project takes.
//!
//! `fault` names the reasons, in their order; `head` looks for those of the ELF header, `header` for those of one
//! program header, `headers` for those of all. `image` has the image and its program headers, `reader` reads it
//! field by field, `run` gives the executable bytes. The definitions in specs/ say the same of the whole file.
//! `making` makes the image of some code alone, which has no fault.
#![tactic(auto)]

pub mod fault;
mod field;
mod head;
mod header;
mod headers;
pub mod image;
pub mod limit;
pub mod making;
pub mod reader;
pub mod run;

pub use fault::ImageFault;
pub use image::{Headers, Image, Phdr, Segment, Segments};
pub use limit::admit;
pub use making::code_image;
pub use reader::{ReadImage, read_image};
pub use run::{Run, runs};
