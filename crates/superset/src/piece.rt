//! Pieces: the code that stands for a site.

ghost use Rattle.std.specs.Prelude.{◌≡◌, ◌+◌, ◌≤◌, ◌↔◌, IsTrue, [], ◌++◌, length, take};

use std::marker::Model;

/// How many bytes a piece can have.
const PIECE_ROOM: usize = 96;

/// The bytes of a piece, at most 96.
#[derive(Drop)]
pub struct Piece {
    bytes: [u8; 96],
    len: usize,
}

impl Model for Piece {
    ghost use Rattle.std.specs.Prelude.{ℕ, List, take, ◌≤◌};

    ghost Value = { List ℕ };

    ghost view = { λ p. take p.len p.bytes };

    ghost invariant = { λ p. p.len ≤ 96 };
}

impl Piece {
    /// The piece of these bytes, at most 96.
    pub fn new(bytes: &[u8]) -> Piece
        requires { length bytes.now ≤ 96 }
        ensures { result ≡ bytes.now }
    {
        Piece {
            bytes: in_room(bytes),
            len: bytes.len(),
        }
    }

    /// The bytes as a slice.
    pub fn as_slice(&self) -> &[u8]
        ensures { result.now ≡ self.now }
    {
        &self.bytes[..self.len]
    }

    /// How many bytes there are.
    pub fn len(&self) -> usize
        ensures { result ≡ length self.now }
    {
        self.len
    }

    /// Whether there is no byte.
    pub fn is_empty(&self) -> bool
        ensures { IsTrue result ↔ (self.now ≡ []) }
    {
        self.len == 0
    }

    /// These bytes and then more, at most 96 in all.
    pub fn and(mut self, more: &[u8]) -> Piece
        requires { length self + length more.now ≤ 96 }
        ensures { result ≡ self ++ more.now }
    {
        let from = self.len;
        let len = from + more.len();
        self.bytes[from..len].copy_from_slice(more);
        self.len = len;
        self
    }
}

/// The bytes in front of zeros.
fn in_room(bytes: &[u8]) -> [u8; 96]
    requires { length bytes.now ≤ 96 }
    ensures { take (length bytes.now) result ≡ bytes.now }
{
    let mut room = [0; PIECE_ROOM];
    room[..bytes.len()].copy_from_slice(bytes);
    room
}
