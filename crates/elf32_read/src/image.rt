//! An image: what of a file is loaded, and where.

ghost use Rattle.std.specs.Prelude.{◌≡◌, ◌↔◌, IsTrue, [], length};

use mv_base::Range;
use std::marker::Model;

/// A program header, field by field (System V gABI, program header).
#[derive(Clone, Copy)]
pub struct Phdr {
    pub kind: u32,
    pub offset: u32,
    pub vaddr: u32,
    pub paddr: u32,
    pub filesz: u32,
    pub memsz: u32,
    pub flags: u32,
    pub align: u32,
}

/// A range of addresses that is loaded: `filesz` bytes of the file from `offset` on, then zeros.
#[derive(Clone, Copy)]
pub struct Segment {
    pub range: Range,
    pub offset: u32,
    pub filesz: u32,
    pub write: bool,
    pub exec: bool,
}

/// The program headers of an image, in file order.
#[derive(Drop)]
pub struct Headers {
    items: Vec<Phdr>,
}

impl Model for Headers {
    ghost use Rattle.std.specs.Prelude.{List};
    ghost use Rattle.elf32_read.specs.declared.image.Phdr.{Phdr};

    ghost Value = { List Phdr };

    ghost view = { λ h. h.items.items };
}

impl Headers {
    /// The program headers of a vector.
    pub fn new(items: Vec<Phdr>) -> Headers
        ensures { result ≡ items.items }
    {
        Headers { items }
    }

    /// The program headers as a slice.
    pub fn as_slice(&self) -> &[Phdr]
        ensures { result.now ≡ self.now }
    {
        self.items.as_slice()
    }

    /// How many program headers there are.
    pub fn len(&self) -> usize
        ensures { result ≡ length self.now }
    {
        self.items.len()
    }

    /// Whether there is no program header.
    pub fn is_empty(&self) -> bool
        ensures { IsTrue result ↔ (self.now ≡ []) }
    {
        self.items.is_empty()
    }
}

/// The segments of an image, in file order.
#[derive(Drop)]
pub struct Segments {
    items: Vec<Segment>,
}

impl Model for Segments {
    ghost use Rattle.std.specs.Prelude.{List};
    ghost use Rattle.elf32_read.specs.declared.image.Segment.{Segment};

    ghost Value = { List Segment };

    ghost view = { λ s. s.items.items };
}

impl Segments {
    /// The segments of a vector.
    pub fn new(items: Vec<Segment>) -> Segments
        ensures { result ≡ items.items }
    {
        Segments { items }
    }

    /// The segments as a slice.
    pub fn as_slice(&self) -> &[Segment]
        ensures { result.now ≡ self.now }
    {
        self.items.as_slice()
    }

    /// How many segments there are.
    pub fn len(&self) -> usize
        ensures { result ≡ length self.now }
    {
        self.items.len()
    }

    /// Whether there is no segment.
    pub fn is_empty(&self) -> bool
        ensures { IsTrue result ↔ (self.now ≡ []) }
    {
        self.items.is_empty()
    }
}

/// What of a file is loaded: where it starts, the flags and bytes 7 to 15 of its head, its program headers
/// and its segments.
#[derive(Drop)]
pub struct Image {
    pub entry: u32,
    pub e_flags: u32,
    pub ident: [u8; 9],
    pub headers: Headers,
    pub segments: Segments,
}
