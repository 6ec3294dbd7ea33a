//! The head of an output file: the ELF header, the program headers and the frame record.

ghost use Rattle.std.specs.Prelude.{◌≡◌, ◌+◌, ◌*◌, ◌/◌, ◌%◌, ◌≤◌, ◌++◌, [], length, map, OnOk};
ghost use Rattle.std.specs.List.{flat_map, position_or_len};
ghost use Rattle.mv_base.specs.Bytes.{words};
ghost use Rattle.elf32_write.specs.File.{header_words as words_of_header, kept_header as kept_of, with_added};
ghost use Rattle.elf32_write.specs.Writing.{header_bytes, is_above as is_above_of};

use crate::file::format::HEAD_LEN;
use crate::file::part::{put_halves, put_words};
use elf32_read::{Image, Phdr};
use mv_base::NoMemory;

/// The magic, then class 1 (32 bits), data 1 (little-endian) and version 1 (System V gABI, ELF identification).
const IDENT: [u8; 7] = [0x7F, b'E', b'L', b'F', 1, 1, 1];

/// The type of an executable file, and the machine i386 (System V gABI, ELF header).
const TYPE_AND_MACHINE: [u16; 2] = [2, 3];

/// The kind of a header whose segment is to be loaded (System V gABI, program header).
pub const PT_LOAD: u32 = 1;

/// The flag of a segment that may be executed (System V gABI, segment flags).
const PF_X: u32 = 1;

/// The flag of a segment that may be read (System V gABI, segment flags).
const PF_R: u32 = 4;

/// How the addresses of a loaded segment are aligned.
pub const SEGMENT_ALIGN: u32 = 0x1000;

/// Appends the ELF header: of an executable for i386, with the input's bytes 7 to 15 and flags, the program
/// headers right behind it, and no sections (System V gABI, ELF header).
#[tactic(auto, unfolding(mv_base::specs::Bytes::words, mv_base::specs::Bytes::half))]
pub fn put_elf_header(
    image: &Image,
    entry: u32,
    count: u16,
    to: &mut Vec<u8>,
) -> Result<(), NoMemory>
    ensures bytes { OnOk result (to.new.items ≡ to.old.items
        ++ header_bytes image.now.ident image.now.e_flags entry count) }
    ensures ident { OnOk result (length image.now.ident ≡ 9) }
{
    to.extend_from_slice(&IDENT)?;
    to.extend_from_slice(&image.ident)?;
    put_halves(&TYPE_AND_MACHINE, to)?;
    put_words(&[1, entry, 52, 0, image.e_flags], to)?;
    put_halves(&[52, 32, count, 0, 0, 0], to)?;
    Ok(())
}

/// The words of a program header (System V gABI, program header).
fn header_words(header: &Phdr) -> [u32; 8]
    ensures { result ≡ words_of_header header.now }
{
    [
        header.kind,
        header.offset,
        header.vaddr,
        header.paddr,
        header.filesz,
        header.memsz,
        header.flags,
        header.align,
    ]
}

/// Flags with execution taken away and reading allowed.
fn kept_flags(flags: u32) -> u32
    ensures { result ≡ flags / 8 * 8 + 4 + flags / 2 % 2 * 2 }
{
    (flags | PF_R) & !PF_X
}

/// A header of the input in the output: its bytes are moved by the head, and what it loads can be read and no
/// longer executed.
fn kept_header(header: &Phdr) -> Phdr
    ensures { result ≡ kept_of header.now }
{
    let offset = header.offset.wrapping_add(HEAD_LEN);
    if header.kind == PT_LOAD {
        Phdr {
            offset,
            flags: kept_flags(header.flags),
            align: SEGMENT_ALIGN,
            ..*header
        }
    } else {
        Phdr { offset, ..*header }
    }
}

/// Appends program headers.
fn put_headers(headers: &[Phdr], to: &mut Vec<u8>) -> Result<(), NoMemory>
    ensures { OnOk result (to.new.items ≡ to.old.items
        ++ words (flat_map words_of_header headers.now)) }
{
    for header in headers {
        put_words(&header_words(header), to)?;
    }
    Ok(())
}

/// Appends headers of the input, each as it is in the output.
fn put_kept_headers(headers: &[Phdr], to: &mut Vec<u8>) -> Result<(), NoMemory>
    ensures { OnOk result (to.new.items ≡ to.old.items
        ++ words (flat_map words_of_header (map kept_of headers.now))) }
{
    for header in headers {
        put_words(&header_words(&kept_header(header)), to)?;
    }
    Ok(())
}

/// Whether a header maps addresses above a base.
fn is_above(base: u32, header: &Phdr) -> bool
    ensures { result ≡ is_above_of base header.now }
{
    header.kind == PT_LOAD && header.memsz > 0 && header.vaddr > base
}

/// Behind how many headers those of a block are added: before the first that maps addresses above its base.
fn added_place(base: u32, headers: &[Phdr]) -> usize
    ensures { result ≡ position_or_len (is_above_of base) headers.now }
{
    for (place, header) in headers.iter().enumerate() {
        if is_above(base, header) {
            return place;
        }
    }
    headers.len()
}

/// Appends the program headers of the output: the input's, and those that are added among them.
pub fn put_all_headers(
    base: u32,
    added: &[Phdr],
    headers: &[Phdr],
    to: &mut Vec<u8>,
) -> Result<(), NoMemory>
    ensures { OnOk result (to.new.items ≡ to.old.items
        ++ words (flat_map words_of_header (with_added base added.now headers.now))) }
{
    let place = added_place(base, headers);
    put_kept_headers(&headers[..place], to)?;
    put_headers(added, to)?;
    put_kept_headers(&headers[place..], to)?;
    Ok(())
}
