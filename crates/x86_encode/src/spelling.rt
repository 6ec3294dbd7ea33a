//! The bytes of an instruction, or of a part of one.

ghost use Rattle.std.specs.Prelude.{◌≡◌, ◌+◌, ◌≤◌, ◌↔◌, [], ◌++◌, length, take, IsTrue};
ghost use Rattle.x86_encode.specs.Order.{is_byte_upto, is_upto};

use std::marker::Model;

/// At most 16 bytes, which contracts see as a list.
#[derive(Drop)]
pub struct Spelling {
    bytes: [u8; 16],
    len: usize,
}

impl Model for Spelling {
    ghost use Rattle.std.specs.Prelude.{ℕ, List, take, ◌≤◌};

    ghost Value = { List ℕ };

    ghost view = { λ s. take s.len s.bytes };

    ghost invariant = { λ s. s.len ≤ 16 };
}

impl Spelling {
    /// These bytes, at most 16.
    pub fn new(bytes: &[u8]) -> Spelling
        requires { length bytes.now ≤ 16 }
        ensures { result ≡ bytes.now }
    {
        Spelling {
            bytes: in_room(bytes),
            len: bytes.len(),
        }
    }

    /// The bytes as a slice.
    pub fn as_slice(&self) -> &[u8]
        ensures { result.now ≡ self.now }
    {
        &self.bytes[..self.len]
    }

    /// How many bytes there are.
    pub fn len(&self) -> usize
        ensures { result ≡ length self.now }
    {
        self.len
    }

    /// Whether there is no byte.
    pub fn is_empty(&self) -> bool
        ensures { IsTrue result ↔ (self.now ≡ []) }
    {
        self.len == 0
    }

    /// These bytes and then those of the other.
    pub fn and(mut self, more: &Spelling) -> Spelling
        requires { length self + length more.now ≤ 16 }
        ensures { result ≡ self ++ more.now }
    {
        let from = self.len;
        let len = from + more.len();
        self.bytes[from..len].copy_from_slice(more.as_slice());
        self.len = len;
        self
    }

    /// Whether they are fewer, or as many and in byte order no greater.
    pub fn is_upto(&self, other: &Spelling) -> bool
        ensures { result ≡ is_upto self.now other.now }
    {
        let (left, right) = (self.as_slice(), other.as_slice());
        left.len() < right.len() || left.len() == right.len() && is_byte_upto(left, right)
    }
}

// The bytes in front of zeros.
fn in_room(bytes: &[u8]) -> [u8; 16]
    requires { length bytes.now ≤ 16 }
    ensures { take (length bytes.now) result ≡ bytes.now }
{
    let mut room = [0; 16];
    room[..bytes.len()].copy_from_slice(bytes);
    room
}

// No byte is greater than the one at its place before one is less; a front is no greater than the whole.
fn is_byte_upto(left: &[u8], right: &[u8]) -> bool
    ensures { result ≡ is_byte_upto left.now right.now }
{
    left.cmp(right).is_le()
}
