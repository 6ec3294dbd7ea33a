//! The bytes of a branch's or a loop's piece with a counter on each of its ways. No call takes memory.

ghost use Rattle.std.specs.Prelude.{◌≡◌, ℕ, List, ◌+◌, ◌≤◌, true, [], ◌++◌, length};
ghost use Rattle.x86_insn.specs.Flow.{flow_of};
ghost use Rattle.counter_hooks.specs.Rules.{is_branch};
ghost use Rattle.edge_hooks.specs.Edges.{counter_size, edge_bytes, edge_size, front_bytes};

use branch_lengthen::pieces::{loop_opcode, near_jump};
use std::marker::Model;
use superset::{Piece, Site};
use x86_insn::{Flow, Insn};

/// How many bytes such a piece can have.
const EDGE_ROOM: usize = 112;

// How far the counter of the taken way is from where the instruction would go on: behind the other counter and a short
// jump.
const TO_TAKEN: u8 = 48;

// How far the near jump to the target is from there: behind the second counter.
const TO_JUMP: u32 = 94;

// A jump of two bytes over a counter and a near jump.
const OVER_TAKEN: [u8; 2] = [0xEB, 0x33];

/// The bytes of such a piece, at most 112.
#[derive(Drop)]
pub struct EdgePiece {
    bytes: [u8; 112],
    len: usize,
}

impl Model for EdgePiece {
    ghost use Rattle.std.specs.Prelude.{ℕ, List, take, ◌≤◌};

    ghost Value = { List ℕ };

    ghost view = { λ p. take p.len p.bytes };

    ghost invariant = { λ p. p.len ≤ 112 };
}

impl EdgePiece {
    // No byte.
    fn empty() -> EdgePiece
        ensures { result ≡ [] }
    {
        EdgePiece {
            bytes: [0; EDGE_ROOM],
            len: 0,
        }
    }

    /// The bytes as a slice.
    pub fn as_slice(&self) -> &[u8]
        ensures { result.now ≡ self.now }
    {
        &self.bytes[..self.len]
    }

    // These bytes and then more, at most 112 in all.
    fn and(mut self, more: &[u8]) -> EdgePiece
        requires { length self + length more.now ≤ 112 }
        ensures { result ≡ self ++ more.now }
    {
        let from = self.len;
        let len = from + more.len();
        self.bytes[from..len].copy_from_slice(more);
        self.len = len;
        self
    }
}

/// How many bytes the piece of a branch or a loop has with its two counters; 0 for another instruction.
pub fn edge_len(site: &Site) -> usize
    ensures is { result ≡ edge_size (flow_of site.now.insn) }
    ensures bytes { (here to : ℕ) (passed taken : List ℕ) →
        is_branch (flow_of site.now.insn) ≡ true →
        length passed ≡ counter_size → length taken ≡ counter_size →
        length (edge_bytes site.now.insn here to passed taken) ≡ result }
{
    match site.insn.next_kind() {
        Flow::Branch => 105,
        Flow::Count => 101,
        _ => 0,
    }
}

/// The piece at `here` of a branch or a loop whose target now is `to`, with a counter on each of its ways: the
/// instruction's condition chooses one; behind `passed` a short jump leads past the piece, and behind `taken` a near one
/// leads to the target.
pub fn edge_piece(site: &Site, here: u32, to: u32, passed: &Piece, taken: &Piece) -> EdgePiece
    requires flow { is_branch (flow_of site.now.insn) ≡ true }
    requires passed_len { length passed.now ≡ counter_size }
    requires taken_len { length taken.now ≡ counter_size }
    ensures { result ≡ edge_bytes site.now.insn here to passed.now taken.now }
{
    let front = front(&site.insn);
    let jump_at = here.wrapping_add(front.len() as u32 + TO_JUMP);
    EdgePiece::empty()
        .and(front.as_slice())
        .and(passed.as_slice())
        .and(&OVER_TAKEN)
        .and(taken.as_slice())
        .and(&near_jump(jump_at, to))
}

// The same instruction, which jumps to the counter of the taken way; no byte for one that is neither branch nor loop.
fn front(insn: &Insn) -> Piece
    ensures { result ≡ front_bytes insn.now }
{
    match insn {
        Insn::Branch { cond, rel: _ } => {
            Piece::new(&[0x0F, 0x80 + cond.number(), TO_TAKEN, 0, 0, 0])
        }
        Insn::Loop { kind, rel: _ } => Piece::new(&[loop_opcode(*kind), TO_TAKEN]),
        _ => Piece::new(&[]),
    }
}
