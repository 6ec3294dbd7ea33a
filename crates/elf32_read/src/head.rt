//! The faults of the ELF header.

ghost use Rattle.std.specs.Prelude.{◌≡◌, ◌+◌, ◌*◌, ◌≤◌, ◌==◌, ◌&&◌, ◌||◌, not, length, slice_index, nat_lt};
ghost use Rattle.mv_base.specs.Bytes.{half_at, word_at};
ghost use Rattle.elf32_read.specs.Fields.{header_count, header_offset};
ghost use Rattle.elf32_read.specs.Faults.{head_fault};

use crate::fault::ImageFault;
use crate::field::{u16_field, u32_field};

/// The bytes that each ELF file begins with (System V gABI, ELF identification).
const MAGIC: [u8; 4] = [0x7F, b'E', b'L', b'F'];

/// The class of files with 32-bit addresses (System V gABI, ELF identification).
const ELFCLASS32: u8 = 1;

/// The encoding of numbers with the least byte first (System V gABI, ELF identification).
const ELFDATA2LSB: u8 = 1;

/// The one version (System V gABI, ELF header).
const EV_CURRENT: u8 = 1;

/// The type of an executable file (System V gABI, ELF header).
const ET_EXEC: u16 = 2;

/// The machine i386 (System V gABI, ELF header).
const EM_386: u16 = 3;

/// The size of the ELF header, in bytes (System V gABI, ELF32).
const EHDR_SIZE: u16 = 52;

/// The size of a program header, in bytes (System V gABI, ELF32).
const PHDR_SIZE: u16 = 32;

/// The most program headers that a file may have (this project's own).
const MOST_HEADERS: u16 = 64;

/// The first fault of the ELF header; `None` where it has none.
#[tactic(auto, unfolding(crate::specs::Faults::head_fault))]
pub fn head_fault(bytes: &[u8]) -> Option<ImageFault>
    ensures { result ≡ head_fault bytes.now }
{
    if bytes.len() < usize::from(EHDR_SIZE) {
        return Some(ImageFault::ShortHeader);
    }
    if !bytes.starts_with(&MAGIC) {
        return Some(ImageFault::NotElf);
    }
    if !is_elf32_little(bytes) {
        return Some(ImageFault::NotElf32Little);
    }
    if u16_field(bytes, 18) != EM_386 {
        return Some(ImageFault::NotI386);
    }
    if u16_field(bytes, 16) != ET_EXEC {
        return Some(ImageFault::NotExecutable);
    }
    if !has_current_versions(bytes) {
        return Some(ImageFault::BadVersion);
    }
    if !has_elf32_sizes(bytes) {
        return Some(ImageFault::BadSizes);
    }
    if !has_some_headers(bytes) {
        return Some(ImageFault::HeaderCount);
    }
    if headers_end(bytes) > bytes.len() as u64 {
        return Some(ImageFault::HeadersOutside);
    }
    None
}

/// Whether the class is 32 bits and numbers have the least byte first.
fn is_elf32_little(bytes: &[u8]) -> bool
    requires { 52 ≤ length bytes.now }
    ensures { result ≡ (slice_index bytes.now 4 == 1 && slice_index bytes.now 5 == 1) }
{
    bytes[4] == ELFCLASS32 && bytes[5] == ELFDATA2LSB
}

/// Whether the identification's version and the file's are the one that there is.
fn has_current_versions(bytes: &[u8]) -> bool
    requires { 52 ≤ length bytes.now }
    ensures { result ≡ (slice_index bytes.now 6 == 1 && word_at bytes.now 20 == 1) }
{
    bytes[6] == EV_CURRENT && u32_field(bytes, 20) == u32::from(EV_CURRENT)
}

/// Whether the ELF header and each program header have the sizes of ELF32.
fn has_elf32_sizes(bytes: &[u8]) -> bool
    requires { 52 ≤ length bytes.now }
    ensures { result ≡ (half_at bytes.now 40 == 52 && half_at bytes.now 42 == 32) }
{
    u16_field(bytes, 40) == EHDR_SIZE && u16_field(bytes, 42) == PHDR_SIZE
}

/// Whether there is a program header, and not too many.
fn has_some_headers(bytes: &[u8]) -> bool
    requires { 52 ≤ length bytes.now }
    ensures { result ≡ not (header_count bytes.now == 0 || nat_lt 64 (header_count bytes.now)) }
{
    let count = u16_field(bytes, 44);
    count != 0 && count <= MOST_HEADERS
}

/// The place in the file after the last program header.
fn headers_end(bytes: &[u8]) -> u64
    requires { 52 ≤ length bytes.now }
    ensures { result ≡ header_offset bytes.now + 32 * header_count bytes.now }
{
    u64::from(u32_field(bytes, 28)) + u64::from(PHDR_SIZE) * u64::from(u16_field(bytes, 44))
}
