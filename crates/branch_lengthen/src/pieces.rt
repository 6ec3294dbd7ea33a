//! The bytes of pieces. None of these calls takes memory.

ghost use Rattle.std.specs.Prelude.{◌≡◌, ℕ, List, ◌≤◌, length};
ghost use Rattle.std.specs.List.{concat};
ghost use Rattle.x86_insn.specs.declared.insn.Flow.TheVariants as flow;
ghost use Rattle.x86_insn.specs.Flow.{flow_of};
ghost use Rattle.branch_lengthen.specs.Near.{branch_bytes, count_bytes, jump_bytes, loop_opcode as opcode_of, near_bytes, near_code, near_size, IsNear};

use superset::{Piece, Site};
use x86_insn::{Cond, Flow, Insn, LoopKind};

/// The piece of an instruction that is copied: its own bytes, at most 15.
pub fn copy_piece(bytes: &[u8]) -> Piece
    requires { length bytes.now ≤ 15 }
    ensures { result ≡ bytes.now }
{
    Piece::new(bytes)
}

/// The piece at `here` of a direct jump whose target now is `to`: a near jump.
pub fn jump_piece(site: &Site, here: u32, to: u32) -> Piece
    requires { flow_of site.now.insn ≡ flow.Jump }
    ensures { result ≡ near_bytes site.now.insn here to }
{
    near_piece(&site.insn, here, to)
}

/// The piece at `here` of a branch whose target now is `to`: a near branch on the same condition.
pub fn branch_piece(site: &Site, here: u32, to: u32) -> Piece
    requires { flow_of site.now.insn ≡ flow.Branch }
    ensures { result ≡ near_bytes site.now.insn here to }
{
    near_piece(&site.insn, here, to)
}

/// The piece at `here` of LOOP, LOOPE, LOOPNE or JECXZ whose target now is `to`: the same instruction jumps to a near
/// jump, and else over it.
pub fn count_piece(site: &Site, here: u32, to: u32) -> Piece
    requires { flow_of site.now.insn ≡ flow.Count }
    ensures { result ≡ near_bytes site.now.insn here to }
{
    near_piece(&site.insn, here, to)
}

/// A near jump from `here` to where the successor now is, behind a piece.
pub fn join_piece(here: u32, to: u32) -> Piece
    ensures { result ≡ jump_bytes here to }
{
    Piece::new(&near_jump(here, to))
}

/// How many bytes the piece of a site has, whose flow is none of calls, returns and jumps through an operand.
pub fn near_len(site: &Site) -> usize
    requires { IsNear (flow_of site.now.insn) }
    ensures is { result ≡ near_size (flow_of site.now.insn) site.now.len }
    ensures bytes { (own : List ℕ) (here to : ℕ) → length own ≡ site.now.len →
        length (near_code (flow_of site.now.insn) own site.now.insn here to) ≡ result }
{
    match site.insn.next_kind() {
        Flow::Plain | Flow::System | Flow::Trap => usize::from(site.len),
        Flow::Jump => 5,
        Flow::Branch => 6,
        Flow::Count => 9,
        Flow::Call | Flow::JumpVia | Flow::CallVia | Flow::Return => 0,
    }
}

/// The piece of a direct transfer but a call; no byte for another instruction.
fn near_piece(insn: &Insn, here: u32, to: u32) -> Piece
    ensures { result ≡ near_bytes insn.now here to }
{
    match insn {
        Insn::Jump { rel: _ } => Piece::new(&near_jump(here, to)),
        Insn::Branch { cond, rel: _ } => Piece::new(&near_branch(*cond, here, to)),
        Insn::Loop { kind, rel: _ } => Piece::new(&near_count(*kind, here, to)),
        _ => Piece::new(&[]),
    }
}

/// A near jump that stands at `here`: E9 and the displacement from its end, modulo 2^32.
pub fn near_jump(here: u32, to: u32) -> [u8; 5]
    ensures { result ≡ jump_bytes here to }
{
    let reach = to.wrapping_sub(here.wrapping_add(5)).to_le_bytes();
    [0xE9, reach[0], reach[1], reach[2], reach[3]]
}

/// A near branch that stands at `here`: 0F, 80 and the condition's number, and the displacement from its end.
fn near_branch(cond: Cond, here: u32, to: u32) -> [u8; 6]
    ensures { result ≡ branch_bytes cond here to }
{
    let reach = to.wrapping_sub(here.wrapping_add(6)).to_le_bytes();
    [
        0x0F,
        0x80 + cond.number(),
        reach[0],
        reach[1],
        reach[2],
        reach[3],
    ]
}

/// A counted loop that stands at `here`: over a short jump to a near one, and else over both.
fn near_count(kind: LoopKind, here: u32, to: u32) -> [u8; 9]
    ensures { result ≡ count_bytes kind here to }
{
    let jump = near_jump(here.wrapping_add(4), to);
    [
        loop_opcode(kind),
        2,
        0xEB,
        5,
        jump[0],
        jump[1],
        jump[2],
        jump[3],
        jump[4],
    ]
}

/// The opcode of LOOPNE, LOOPE, LOOP or JECXZ.
pub fn loop_opcode(kind: LoopKind) -> u8
    ensures { result ≡ opcode_of kind }
{
    match kind {
        LoopKind::Ne => 0xE0,
        LoopKind::E => 0xE1,
        LoopKind::Plain => 0xE2,
        LoopKind::Ecxz => 0xE3,
    }
}
