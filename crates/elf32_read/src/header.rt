//! Program headers: their fields in a file, their faults, and the segment that one maps.

ghost use Rattle.std.specs.Prelude.{◌≡◌, ◌+◌, ◌^◌, ◌≤◌, ◌||◌, true, ◌&&◌, length, nat_lt};
ghost use Rattle.elf32_read.specs.Fields.{header_at, is_load, maps, has_exec, has_read, has_write, segment_of};
ghost use Rattle.elf32_read.specs.Faults.{segment_fault, header_fault, free_after};

use crate::fault::ImageFault;
use crate::field::u32_field;
use crate::image::{Phdr, Segment};
use mv_base::Range;

/// The kind of a header whose segment is to be loaded (System V gABI, program header).
const PT_LOAD: u32 = 1;

/// The kind of a header for dynamic linking (System V gABI, program header).
const PT_DYNAMIC: u32 = 2;

/// The kind of a header that names an interpreter (System V gABI, program header).
const PT_INTERP: u32 = 3;

/// The flag of a segment that may be executed (System V gABI, segment flags).
const PF_X: u32 = 1;

/// The flag of a segment that may be written (System V gABI, segment flags).
const PF_W: u32 = 2;

/// The flag of a segment that may be read (System V gABI, segment flags).
const PF_R: u32 = 4;

/// The size of a page, in bytes (System V gABI, Intel386 supplement).
const PAGE: u32 = 4096;

/// The end of the addresses that a segment may have (this project's own).
const ADDRESS_END: u64 = 0xFFFF_F000;

/// The program header whose 32 bytes begin at `place`.
#[tactic(auto, unfolding(crate::specs::Fields::header_at))]
pub fn phdr_at(bytes: &[u8], place: usize) -> Phdr
    requires { place + 32 ≤ length bytes.now }
    ensures { result ≡ header_at bytes.now place }
{
    Phdr {
        kind: u32_field(bytes, place),
        offset: u32_field(bytes, place + 4),
        vaddr: u32_field(bytes, place + 8),
        paddr: u32_field(bytes, place + 12),
        filesz: u32_field(bytes, place + 16),
        memsz: u32_field(bytes, place + 20),
        flags: u32_field(bytes, place + 24),
        align: u32_field(bytes, place + 28),
    }
}

/// Whether the header's segment is to be loaded.
pub fn is_load(header: &Phdr) -> bool
    ensures { result ≡ is_load header.now }
{
    header.kind == PT_LOAD
}

/// Whether the header maps an address.
pub fn maps(header: &Phdr) -> bool
    ensures { result ≡ maps header.now }
{
    is_load(header) && header.memsz > 0
}

/// Whether the segment may be executed.
#[tactic(auto, using(crate::proofs::Flags::has_flag_1))]
fn is_executable(header: &Phdr) -> bool
    ensures { result ≡ has_exec header.now }
{
    header.flags & PF_X != 0
}

/// Whether the segment may be written.
#[tactic(auto, using(crate::proofs::Flags::has_flag_2))]
fn is_writable(header: &Phdr) -> bool
    ensures { result ≡ has_write header.now }
{
    header.flags & PF_W != 0
}

/// Whether the segment may be read.
#[tactic(auto, using(crate::proofs::Flags::has_flag_4))]
fn is_readable(header: &Phdr) -> bool
    ensures { result ≡ has_read header.now }
{
    header.flags & PF_R != 0
}

/// Whether the segment may be read, written or executed.
fn has_permission(header: &Phdr) -> bool
    ensures { result ≡ (has_read header.now || has_write header.now || has_exec header.now) }
{
    is_readable(header) || is_writable(header) || is_executable(header)
}

/// The fault of header `index`, which maps addresses, where pages from `free` on are free.
#[tactic(auto, unfolding(crate::specs::Faults::segment_fault))]
fn segment_fault(free: u64, index: u32, header: &Phdr) -> Option<ImageFault>
    ensures { result ≡ segment_fault free index header.now }
{
    if u64::from(header.vaddr) + u64::from(header.memsz) > ADDRESS_END {
        return Some(ImageFault::AddressRange(index));
    }
    if !has_permission(header) {
        return Some(ImageFault::NoPermission(index));
    }
    if is_writable(header) && is_executable(header) {
        return Some(ImageFault::WritableCode(index));
    }
    if header.offset % PAGE != header.vaddr % PAGE {
        return Some(ImageFault::NotCongruent(index));
    }
    if u64::from(header.vaddr / PAGE) < free {
        return Some(ImageFault::SharedPage(index));
    }
    None
}

/// Whether the header's segment has bytes that exceed a file of `len` bytes.
fn exceeds_file(len: u64, header: &Phdr) -> bool
    ensures { result ≡ (nat_lt 0 header.now.filesz && nat_lt len (header.now.offset +
        header.now.filesz)) }
{
    header.filesz > 0 && u64::from(header.offset) + u64::from(header.filesz) > len
}

/// The first fault of header `index`, in a file of `len` bytes, where pages from `free` on are free.
#[tactic(auto, unfolding(crate::specs::Faults::header_fault))]
pub fn header_fault(len: u64, free: u64, index: u32, header: &Phdr) -> Option<ImageFault>
    ensures { result ≡ header_fault len free index header.now }
{
    if header.kind == PT_INTERP {
        return Some(ImageFault::Interpreter(index));
    }
    if header.kind == PT_DYNAMIC {
        return Some(ImageFault::Dynamic(index));
    }
    if !is_load(header) {
        return None;
    }
    if exceeds_file(len, header) {
        return Some(ImageFault::FileRange(index));
    }
    if header.memsz < header.filesz {
        return Some(ImageFault::MemorySmaller(index));
    }
    if header.memsz == 0 {
        return None;
    }
    segment_fault(free, index, header)
}

/// The first page after the header's segment; a header that maps nothing leaves `free`.
pub fn free_after(free: u64, header: &Phdr) -> u64
    ensures { result ≡ free_after free header.now }
{
    if !maps(header) {
        return free;
    }
    (u64::from(header.vaddr) + u64::from(header.memsz)).div_ceil(u64::from(PAGE))
}

/// The segment of a header; `None` where it maps nothing.
pub fn segment_of(header: &Phdr) -> Option<Segment>
    requires { maps header.now ≡ true → header.now.vaddr + header.now.memsz ≤ 2 ^ 32 }
    ensures { result ≡ segment_of header.now }
{
    if !maps(header) {
        return None;
    }
    Some(Segment {
        range: Range::new(header.vaddr, header.memsz),
        offset: header.offset,
        filesz: header.filesz,
        write: is_writable(header),
        exec: is_executable(header),
    })
}
