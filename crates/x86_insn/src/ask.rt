//! What an instruction asks of memory: it is told apart from memory, and reaches it by these reads and writes alone.

ghost use Rattle.std.specs.Prelude.{◌≡◌, ◌≤◌, length, take};

use crate::insn::Width;
use crate::registers::Core;
use crate::stop::Stop;
use std::marker::Model;

/// How many bytes an access has at most: eight registers.
pub const ACCESS_LEN: usize = 32;

/// How many bytes an access has, at most 32, which contracts see as a number.
#[derive(Clone, Copy)]
pub struct AccessLen {
    len: usize,
}

impl Model for AccessLen {
    ghost use Rattle.std.specs.Prelude.{ℕ, ◌≤◌};

    ghost Value = { ℕ };

    ghost view = { λ l. l.len };

    ghost inverse = { λ n. record { len = n } };

    ghost invariant = { λ l. l.len ≤ 32 };
}

impl AccessLen {
    ghost use Rattle.std.specs.Prelude.{◌≡◌, ◌≤◌};
    ghost use Rattle.x86_insn.specs.Values.{width_bytes};

    /// The bytes of a value of a width.
    pub fn of(width: Width) -> AccessLen
        ensures { result ≡ width_bytes width }
    {
        AccessLen { len: width.bytes() }
    }

    /// The bytes of eight registers.
    pub fn registers() -> AccessLen
        ensures { result ≡ ACCESS_LEN }
    {
        AccessLen { len: ACCESS_LEN }
    }

    /// The number of bytes.
    pub fn get(self) -> usize
        ensures is { result ≡ self }
        ensures at_most { result ≤ ACCESS_LEN }
    {
        self.len
    }
}

/// The bytes of one access, at most 32, which contracts see as a list.
#[derive(Drop)]
pub struct AccessBytes {
    bytes: [u8; 32],
    len: usize,
}

impl Model for AccessBytes {
    ghost use Rattle.std.specs.Prelude.{ℕ, List, take, ◌≤◌};

    ghost Value = { List ℕ };

    ghost view = { λ a. take a.len a.bytes };

    ghost invariant = { λ a. a.len ≤ 32 };
}

impl AccessBytes {
    ghost use Rattle.std.specs.Prelude.{◌≡◌, ◌+◌, ◌<◌, ◌≤◌, ◌++◌, length, slice_index};
    ghost use Rattle.byteorder.specs.Endian.{little_number, little_from, little_bytes};
    ghost use Rattle.x86_insn.specs.Values.{width_bytes, modulus};

    /// At most 32 bytes.
    pub fn new(bytes: &[u8]) -> AccessBytes
        requires { length bytes.now ≤ ACCESS_LEN }
        ensures { result ≡ bytes.now }
    {
        AccessBytes {
            bytes: in_room(bytes),
            len: bytes.len(),
        }
    }

    /// Appends a number as four bytes, the least first.
    pub fn push_word(&mut self, value: u32)
        requires { length self.old + 4 ≤ ACCESS_LEN }
        ensures { self.new ≡ self.old ++ little_bytes 4 value }
    {
        let bytes = value.to_le_bytes();
        self.bytes[self.len..self.len + 4].copy_from_slice(&bytes);
        self.len += 4;
    }

    /// The bytes as a slice.
    pub fn as_slice(&self) -> &[u8]
        ensures { result.now ≡ self.now }
    {
        &self.bytes[..self.len]
    }

    /// A byte, or 0 behind the last.
    fn byte(&self, place: usize) -> u32
        ensures is { result ≡ slice_index self.now place }
        ensures fits { result < 256 }
    {
        if place < self.len {
            u32::from(self.bytes[place])
        } else {
            0
        }
    }

    /// The number of the first bytes, as many as the width has, the least first.
    pub fn number(&self, width: Width) -> u32
        ensures is { result ≡ little_number (width_bytes width) self.now }
        ensures fits { result < modulus width }
    {
        match width {
            Width::B => self.byte(0),
            Width::W => self.byte(0) + 0x100 * self.byte(1),
            Width::D => self.word(0),
        }
    }

    /// The number of the four bytes from a place on, the least first; a byte behind the last is 0.
    pub fn word(&self, place: usize) -> u32
        requires { place ≤ ACCESS_LEN }
        ensures { result ≡ little_from place 4 self.now }
    {
        self.byte(place)
            + 0x100 * self.byte(place + 1)
            + 0x1_0000 * self.byte(place + 2)
            + 0x100_0000 * self.byte(place + 3)
    }
}

/// The bytes in front of zeros.
fn in_room(bytes: &[u8]) -> [u8; 32]
    requires { length bytes.now ≤ ACCESS_LEN }
    ensures { take (length bytes.now) result ≡ bytes.now }
{
    let mut room = [0; ACCESS_LEN];
    room[..bytes.len()].copy_from_slice(bytes);
    room
}

/// An ask: so many bytes at a place (an address), a stop, or the end with new registers and flags, at most one write of
/// bytes at an address, and what is said besides.
#[derive(Drop)]
pub enum Ask<E: Drop> {
    Reads {
        at: u32,
        len: AccessLen,
    },
    Halts(Stop),
    Ends {
        core: Core,
        write: Option<(u32, AccessBytes)>,
        end: E,
    },
}
