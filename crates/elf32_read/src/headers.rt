//! The program headers of a file together: the list of them, their first fault, and their segments.

ghost use Rattle.std.specs.Prelude.{◌≡◌, ◌+◌, ◌*◌, ◌^◌, ◌≤◌, true, length, IfOk};
ghost use Rattle.std.specs.List.{All, filter_map, list_any};
ghost use Rattle.elf32_read.specs.Fields.{header_count, header_offset, headers, is_load, maps, segment_of};
ghost use Rattle.elf32_read.specs.Faults.{headers_fault};

use crate::fault::ImageFault;
use crate::field::{u16_field, u32_field};
use crate::header::{free_after, header_fault, is_load, phdr_at, segment_of};
use crate::image::{Phdr, Segment};
use mv_base::NoMemory;
use std::alloc::Global;

/// The size of a program header, in bytes (System V gABI, ELF32).
const PHDR_SIZE: usize = 32;

/// The program headers of a file, in file order.
///
/// # Errors
///
/// `NoMemory`.
pub fn headers(alloc: Global, bytes: &[u8]) -> Result<Vec<Phdr>, NoMemory>
    requires room { 52 ≤ length bytes.now }
    requires inside { header_offset bytes.now + 32 * header_count bytes.now ≤ length bytes.now }
    ensures { IfOk result (λ hs. hs.items ≡ headers bytes.now) }
{
    let first = u32_field(bytes, 28) as usize;
    let count = usize::from(u16_field(bytes, 44));
    let mut headers = Vec::with_capacity(alloc, count)?;
    for index in 0..count {
        headers.push(phdr_at(bytes, first + PHDR_SIZE * index))?;
    }
    Ok(headers)
}

/// The first fault of program headers, in file order; `None` where they have none. The file has `len` bytes.
pub fn headers_fault(len: u64, headers: &[Phdr]) -> Option<ImageFault>
    requires { length headers.now ≤ 64 }
    ensures { result ≡ headers_fault len 0 0 headers.now }
{
    let mut free = 0;
    for (index, header) in headers.iter().enumerate() {
        if let Some(fault) = header_fault(len, free, index as u32, header) {
            return Some(fault);
        }
        free = free_after(free, header);
    }
    None
}

/// Whether a segment is to be loaded.
pub fn has_load(headers: &[Phdr]) -> bool
    ensures { result ≡ list_any is_load headers.now }
{
    headers.iter().any(is_load)
}

/// The segments of program headers, in file order.
///
/// # Errors
///
/// `NoMemory`.
pub fn segments(alloc: Global, headers: &[Phdr]) -> Result<Vec<Segment>, NoMemory>
    requires { All (λ h. maps h ≡ true → h.vaddr + h.memsz ≤ 2 ^ 32) headers.now }
    ensures { IfOk result (λ ss. ss.items ≡ filter_map segment_of headers.now) }
{
    let mut segments = Vec::with_capacity(alloc, headers.len())?;
    for header in headers {
        if let Some(segment) = segment_of(header) {
            segments.push(segment)?;
        }
    }
    Ok(segments)
}
