//! How memory is laid out, and how much of it a traced program may have.

/// How many cells a page has.
pub(crate) const PAGE_SIZE: u32 = 4_096;

/// How many pages a table has, and how many tables a directory.
pub(crate) const TABLE_SIZE: u32 = 1_024;

/// The first address that no memory has.
pub(crate) const LIMIT: u32 = 0xFFFF_F000;

/// How many bytes a page has.
pub(crate) const PAGE_BYTES: u64 = 4_096;

/// The most bytes that the pages which hold a mapped byte may have: 16,384 pages.
pub(crate) const MOST_MAPPED: u64 = 67_108_864;

/// How many bytes the stack has.
pub(crate) const STACK_BYTES: u32 = 1_048_576;

/// The stack's first address.
pub(crate) const STACK_START: u32 = 0xBFEF_F000;

/// The address after the stack's last.
pub(crate) const STACK_END: u32 = 0xBFFF_F000;
