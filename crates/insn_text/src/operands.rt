//! Which operands an instruction shows.

ghost use Rattle.std.specs.Prelude.{◌≡◌, ◌∷◌};
ghost use Rattle.mv_base.specs.Memory.{address_after};
ghost use Rattle.insn_text.specs.Operands.{counted as counted_of, dropped as dropped_of, immediate, operands as operands_of, place as place_of, selector as selector_of, source as source_of};

use crate::operand::{Operand, Operands};
use x86_insn::{Count, Insn, Reg, Rm, Src, Width};

/// The operands of an instruction, where `next` is the address behind it.
pub fn operands(insn: &Insn, next: u32) -> Operands
    ensures { result ≡ operands_of insn.now next }
{
    match *insn {
        Insn::Alu {
            op: _,
            width,
            lock: _,
            dst,
            src,
        } => Operands::two(place(width, dst), source(width, src)),
        Insn::Test { width, dst, src } => Operands::two(place(width, dst), source(width, src)),
        Insn::Mov { width, dst, src } => Operands::two(place(width, dst), source(width, src)),
        Insn::Xchg {
            width,
            lock: _,
            dst,
            reg,
        } => Operands::two(place(width, dst), Operand::Register(width, reg)),
        Insn::Lea { width, dst, mem } => Operands::two(
            Operand::Register(width, dst),
            Operand::Address(mem),
        ),
        Insn::Movx {
            signed: _,
            from,
            to,
            dst,
            src,
        } => Operands::two(Operand::Register(to, dst), place(from, src)),
        Insn::Bswap { reg } => Operands::one(Operand::Register(Width::D, reg)),
        Insn::Push { src } => Operands::one(source(Width::D, src)),
        Insn::Pop { dst } => Operands::one(place(Width::D, dst)),
        Insn::Bump {
            up: _,
            width,
            lock: _,
            dst,
        } => Operands::one(place(width, dst)),
        Insn::Unary {
            op: _,
            width,
            lock: _,
            dst,
        } => Operands::one(place(width, dst)),
        Insn::Mul {
            signed: _,
            width,
            src,
        } => Operands::one(place(width, src)),
        Insn::Div {
            signed: _,
            width,
            src,
        } => Operands::one(place(width, src)),
        Insn::Imul {
            width,
            dst,
            src,
            imm,
        } => product(Operand::Register(width, dst), place(width, src), imm),
        Insn::Shift {
            op: _,
            width,
            dst,
            count,
        } => Operands::two(place(width, dst), counted(count)),
        Insn::Double {
            left: _,
            dst,
            src,
            count,
        } => Operands::three(
            place(Width::D, dst),
            Operand::Register(Width::D, src),
            counted(count),
        ),
        Insn::Bit {
            op: _,
            width,
            lock: _,
            dst,
            index,
        } => Operands::two(place(width, dst), source(width, index)),
        Insn::Scan {
            up: _,
            width,
            dst,
            src,
        } => Operands::two(Operand::Register(width, dst), place(width, src)),
        Insn::Cmpxchg {
            width,
            lock: _,
            dst,
            src,
        } => Operands::two(place(width, dst), Operand::Register(width, src)),
        Insn::Xadd {
            width,
            lock: _,
            dst,
            src,
        } => Operands::two(place(width, dst), Operand::Register(width, src)),
        Insn::Set { cond: _, dst } => Operands::one(place(Width::B, dst)),
        Insn::Cmov {
            cond: _,
            width,
            dst,
            src,
        } => Operands::two(Operand::Register(width, dst), place(width, src)),
        Insn::ToGs { src } => Operands::two(Operand::Gs, selector(Width::W, src)),
        Insn::FromGs { width, dst } => Operands::two(selector(width, dst), Operand::Gs),
        Insn::Jump { rel } => Operands::one(destination(next, rel)),
        Insn::Branch { cond: _, rel } => Operands::one(destination(next, rel)),
        Insn::Loop { kind: _, rel } => Operands::one(destination(next, rel)),
        Insn::Call { rel } => Operands::one(destination(next, rel)),
        Insn::JumpVia { src } => Operands::one(place(Width::D, src)),
        Insn::CallVia { src } => Operands::one(place(Width::D, src)),
        Insn::Ret { drop } => dropped(drop),
        Insn::Int80 => Operands::one(Operand::Number(0x80)),
        Insn::Pushad
        | Insn::Popad
        | Insn::Pushfd
        | Insn::Popfd
        | Insn::Leave
        | Insn::Cbw { .. }
        | Insn::Cwd { .. }
        | Insn::Str { .. }
        | Insn::Xlat
        | Insn::Lahf
        | Insn::Sahf
        | Insn::Flag { .. }
        | Insn::Nop
        | Insn::Pause
        | Insn::Endbr
        | Insn::Cpuid
        | Insn::Int3
        | Insn::Hlt
        | Insn::Ud2 => Operands::none(),
    }
}

// Where a direct transfer goes, by the address behind it.
fn destination(next: u32, rel: u32) -> Operand
    ensures { result ≡ Operand.Number (address_after next rel) }
{
    Operand::Number(next.wrapping_add(rel))
}

// A register or memory of a width.
fn place(width: Width, rm: Rm) -> Operand
    ensures { result ≡ place_of width rm }
{
    match rm {
        Rm::R(reg) => Operand::Register(width, reg),
        Rm::M(mem) => Operand::Memory(width, mem),
    }
}

// A selector: in a register of a width, or in two bytes of memory.
fn selector(width: Width, rm: Rm) -> Operand
    ensures { result ≡ selector_of width rm }
{
    match rm {
        Rm::R(reg) => Operand::Register(width, reg),
        Rm::M(mem) => Operand::Memory(Width::W, mem),
    }
}

// A register or memory of a width, or an immediate.
fn source(width: Width, src: Src) -> Operand
    ensures { result ≡ source_of width src }
{
    match src {
        Src::R(reg) => Operand::Register(width, reg),
        Src::M(mem) => Operand::Memory(width, mem),
        Src::Imm(n) => Operand::Number(n),
    }
}

// A count: a number, or CL.
fn counted(count: Count) -> Operand
    ensures { result ≡ counted_of count }
{
    match count {
        Count::Imm(n) => Operand::Number(u32::from(n)),
        Count::Cl => Operand::Register(Width::B, Reg::Ecx),
    }
}

// The operands of a signed product, with the immediate that it may have.
fn product(dst: Operand, src: Operand, imm: Option<u32>) -> Operands
    ensures { result ≡ dst ∷ src ∷ immediate imm }
{
    match imm {
        None => Operands::two(dst, src),
        Some(n) => Operands::three(dst, src, Operand::Number(n)),
    }
}

// What a return drops, where it drops anything.
fn dropped(drop: u16) -> Operands
    ensures { result ≡ dropped_of drop }
{
    if drop == 0 {
        Operands::none()
    } else {
        Operands::one(Operand::Number(u32::from(drop)))
    }
}
