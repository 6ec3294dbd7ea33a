//! The numbers of the output's format, which are this project's own.

/// How many bytes stand before the input in the file.
pub const HEAD_LEN: u32 = 0x1000;

/// Where in the head the frame record stands.
pub const RECORD_PLACE: usize = 0x900;

/// The bytes 4D 56 46 52, with which a frame record begins.
pub const FRAME_MAGIC: u32 = 0x5246_564D;

/// The version of the frame record that is written.
pub const FRAME_VERSION: u32 = 2;

/// The version that is read too: without rules, and with addresses alone in the list.
pub const OLD_VERSION: u32 = 1;

/// The numbers of the two forms of a table in the record.
pub const FLAT_FORM: u32 = 1;

pub const PAGED_FORM: u32 = 2;

/// How many bytes the private area has before its counters.
pub const PRIVATE_LEN: u32 = 64;
