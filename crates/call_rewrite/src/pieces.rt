//! The bytes of pieces. None of these calls takes memory.

ghost use Rattle.std.specs.Prelude.{◌≡◌, ◌+◌, ◌<◌, ◌≤◌, ℕ, ◌∷◌, length};
ghost use Rattle.std.specs.List.{concat};
ghost use Rattle.mv_base.specs.Bytes.{word};
ghost use Rattle.x86_insn.specs.declared.insn.Flow.TheVariants as flow;
ghost use Rattle.x86_insn.specs.Flow.{flow_of};
ghost use Rattle.x86_insn.specs.Meaning.{source_of};
ghost use Rattle.superset.specs.Targets.{successor as successor_of};
ghost use Rattle.call_rewrite.specs.Far.{keep_eax, take_eax, push_bytes, pop_bytes, drop_bytes, call_parts, via_parts, via_len, call_via_parts, jump_via_parts, return_parts, far_bytes, far_size, load_bytes, load_of};

use branch_lengthen::pieces::near_jump;
use superset::{Piece, Site, successor};
use x86_encode::{Spelling, encoded};
use x86_insn::{Insn, Reg, Rm, Src, Width};

/// The piece at `here` of a direct call whose target now is `to`: the old address behind the call is pushed, and a near jump
/// goes to the target. It needs no private area.
pub fn call_piece(site: &Site, here: u32, to: u32) -> Piece
    requires { flow_of site.now.insn ≡ flow.Call }
    ensures { (private : ℕ) → result
        ≡ far_bytes (load_of site.now.insn) site.now.insn (successor_of site.now) here to private }
{
    far_piece(&site.insn, successor(site), here, to, 0)
}

/// The piece at `here` of a call through an operand: the target goes to the private area, the old address behind the call
/// is pushed, and a near jump goes to the stub.
pub fn call_via_piece(site: &Site, here: u32, stub: u32, private: u32) -> Piece
    requires { flow_of site.now.insn ≡ flow.CallVia }
    ensures { result ≡ far_bytes (load_of site.now.insn) site.now.insn
        (successor_of site.now) here stub private }
{
    far_piece(&site.insn, successor(site), here, stub, private)
}

/// The piece at `here` of a jump through an operand: the target goes to the private area, and a near jump goes to the stub.
pub fn jump_via_piece(site: &Site, here: u32, stub: u32, private: u32) -> Piece
    requires { flow_of site.now.insn ≡ flow.JumpVia }
    ensures { result ≡ far_bytes (load_of site.now.insn) site.now.insn
        (successor_of site.now) here stub private }
{
    far_piece(&site.insn, successor(site), here, stub, private)
}

/// The piece at `here` of a return: the target goes from the stack to the private area, as many bytes are dropped as the
/// return says, and a near jump goes to the stub.
pub fn return_piece(site: &Site, here: u32, stub: u32, private: u32) -> Piece
    requires { flow_of site.now.insn ≡ flow.Return }
    ensures { result ≡ far_bytes (load_of site.now.insn) site.now.insn
        (successor_of site.now) here stub private }
{
    far_piece(&site.insn, successor(site), here, stub, private)
}

/// How many bytes the piece of a call, a return or a jump through an operand has; 0 for another instruction.
pub fn far_len(site: &Site) -> usize
    ensures is { result ≡ far_size (load_of site.now.insn) site.now.insn }
    ensures bytes { (next here goal private : ℕ) →
        length (far_bytes (load_of site.now.insn) site.now.insn next here goal private) ≡ result }
{
    far_piece_len(&site.insn)
}

fn far_piece_len(insn: &Insn) -> usize
    ensures { result ≡ far_size (load_of insn.now) insn.now }
{
    match insn {
        Insn::Call { rel: _ } => 10,
        Insn::CallVia { src } => 25 + load(src).len(),
        Insn::JumpVia { src } => 20 + load(src).len(),
        Insn::Ret { drop: 0 } => 11,
        Insn::Ret { drop: _ } => 18,
        _ => 0,
    }
}

// The piece of a call, a return or a jump through an operand, with the address behind it; no byte for another instruction.
fn far_piece(insn: &Insn, next: u32, here: u32, goal: u32, private: u32) -> Piece
    ensures { result ≡ far_bytes (load_of insn.now) insn.now next here goal private }
{
    match insn {
        Insn::Call { rel: _ } => call_code(next, here, goal),
        Insn::CallVia { src } => call_via_code(src, next, here, goal, private),
        Insn::JumpVia { src } => jump_via_code(src, here, goal, private),
        Insn::Ret { drop } => return_code(*drop, here, goal, private),
        _ => Piece::new(&[]),
    }
}

fn call_code(next: u32, here: u32, to: u32) -> Piece
    ensures is { result ≡ concat (call_parts next here to) }
    ensures size { length result ≡ 10 }
{
    Piece::new(&push(next)).and(&near_jump(here.wrapping_add(5), to))
}

fn call_via_code(src: &Rm, next: u32, here: u32, stub: u32, private: u32) -> Piece
    ensures { result ≡ concat (call_via_parts (load_bytes src.now) next here stub private) }
{
    let load = load(src);
    let call = call_code(next, here.wrapping_add(via_len(&load)), stub);
    read_target(&load, private).and(call.as_slice())
}

fn jump_via_code(src: &Rm, here: u32, stub: u32, private: u32) -> Piece
    ensures { result ≡ concat (jump_via_parts (load_bytes src.now) here stub private) }
{
    let load = load(src);
    let jump = near_jump(here.wrapping_add(via_len(&load)), stub);
    read_target(&load, private).and(&jump)
}

fn return_code(drop: u16, here: u32, stub: u32, private: u32) -> Piece
    ensures { result ≡ concat (return_parts drop here stub private) }
{
    let take = pop(private.wrapping_add(4));
    if drop == 0 {
        return Piece::new(&take).and(&near_jump(here.wrapping_add(6), stub));
    }
    let lift = raise(u32::from(drop));
    let jump = near_jump(here.wrapping_add(13), stub);
    Piece::new(&take).and(&lift).and(&jump)
}

// EAX is kept, takes the target and is taken back.
fn read_target(load: &Spelling, private: u32) -> Piece
    requires { length load.now ≤ 15 }
    ensures is { result ≡ concat (via_parts load.now private) }
    ensures size { length result ≡ via_len load.now }
{
    let target = private.wrapping_add(4);
    Piece::new(&keep(private))
        .and(load.as_slice())
        .and(&keep(target))
        .and(&take(private))
}

fn via_len(load: &Spelling) -> u32
    requires { length load.now ≤ 15 }
    ensures { result ≡ via_len load.now }
{
    15 + load.len() as u32
}

// The least bytes of MOV to EAX from an operand.
fn load(src: &Rm) -> Spelling
    ensures is { result ≡ load_bytes src.now }
    ensures at_most { length result ≤ 15 }
{
    let insn = Insn::Mov {
        width: Width::D,
        dst: Rm::R(Reg::Eax),
        src: source(src),
    };
    match encoded(&insn) {
        None => Spelling::new(&[]),
        Some(bytes) => bytes,
    }
}

fn source(operand: &Rm) -> Src
    ensures { result ≡ source_of operand.now }
{
    match operand {
        Rm::R(reg) => Src::R(*reg),
        Rm::M(mem) => Src::M(*mem),
    }
}

// MOV to an address from EAX.
fn keep(at: u32) -> [u8; 5]
    ensures { result ≡ keep_eax at }
{
    with_word(0xA3, at)
}

// MOV to EAX from an address.
fn take(at: u32) -> [u8; 5]
    ensures { result ≡ take_eax at }
{
    with_word(0xA1, at)
}

fn push(number: u32) -> [u8; 5]
    ensures { result ≡ push_bytes number }
{
    with_word(0x68, number)
}

// An opcode and four bytes, the least first.
fn with_word(opcode: u8, number: u32) -> [u8; 5]
    ensures { result ≡ opcode ∷ word number }
{
    let number = number.to_le_bytes();
    [opcode, number[0], number[1], number[2], number[3]]
}

// POP to an address.
fn pop(at: u32) -> [u8; 6]
    ensures { result ≡ pop_bytes at }
{
    let at = at.to_le_bytes();
    [0x8F, 0x05, at[0], at[1], at[2], at[3]]
}

// LEA of ESP and a number to ESP.
fn raise(number: u32) -> [u8; 7]
    ensures { result ≡ drop_bytes number }
{
    let number = number.to_le_bytes();
    [0x8D, 0xA4, 0x24, number[0], number[1], number[2], number[3]]
}
