//! What each kind of form spells, of the operands that the bytes name. Intel SDM, volume 2.

ghost use Rattle.std.specs.Prelude.{◌≡◌, ◌<◌};
ghost use Rattle.x86_insn.specs.Meaning.{cond_of, source_of, at_address, memory_in, selector_width, meaning};

use crate::address::register;
use x86_insn::row::{Kind, Operands};
use x86_insn::{Cond, Count, Insn, Mem, Reg, Rm, Src, Width};

// The condition of a number.
fn condition(number: u8) -> Cond
    ensures { result ≡ cond_of number }
{
    match number {
        0 => Cond::O,
        1 => Cond::No,
        2 => Cond::B,
        3 => Cond::Ae,
        4 => Cond::E,
        5 => Cond::Ne,
        6 => Cond::Be,
        7 => Cond::A,
        8 => Cond::S,
        9 => Cond::Ns,
        10 => Cond::P,
        11 => Cond::Np,
        12 => Cond::L,
        13 => Cond::Ge,
        14 => Cond::Le,
        _ => Cond::G,
    }
}

// An operand that may be written, read alone.
fn source(operand: Rm) -> Src
    ensures { result ≡ source_of operand }
{
    match operand {
        Rm::R(reg) => Src::R(reg),
        Rm::M(mem) => Src::M(mem),
    }
}

// Memory at an address, without registers, relative to GS or not.
fn at_address(gs: bool, address: u32) -> Mem
    ensures { result ≡ at_address gs address }
{
    Mem {
        base: None,
        index: None,
        disp: address,
        gs,
    }
}

// The memory of an operand. A register has none, and no form that asks for memory takes it.
fn memory_in(operand: Rm) -> Mem
    ensures { result ≡ memory_in operand }
{
    match operand {
        Rm::R(_) => at_address(false, 0),
        Rm::M(mem) => mem,
    }
}

// The width of a selector: memory has two bytes of it.
fn selector_width(width: Width, operand: Rm) -> Width
    ensures { result ≡ selector_width width operand }
{
    match operand {
        Rm::R(_) => width,
        Rm::M(_) => Width::W,
    }
}

/// The instruction of a kind and its operands.
#[inline(always)]
pub fn meaning(kind: Kind, o: &Operands) -> Insn
    ensures { result ≡ meaning kind o.now }
{
    match kind {
        Kind::AluRmReg(op) => Insn::Alu {
            op,
            width: o.width,
            lock: o.marks.lock,
            dst: o.rm,
            src: Src::R(o.reg),
        },
        Kind::AluRegRm(op) => Insn::Alu {
            op,
            width: o.width,
            lock: false,
            dst: Rm::R(o.reg),
            src: source(o.rm),
        },
        Kind::AluAccImm(op) => Insn::Alu {
            op,
            width: o.width,
            lock: false,
            dst: Rm::R(Reg::Eax),
            src: Src::Imm(o.immediate),
        },
        Kind::AluRmImm(op) => Insn::Alu {
            op,
            width: o.width,
            lock: o.marks.lock,
            dst: o.rm,
            src: Src::Imm(o.immediate),
        },
        Kind::TestRmReg => Insn::Test {
            width: o.width,
            dst: o.rm,
            src: Src::R(o.reg),
        },
        Kind::TestAccImm => Insn::Test {
            width: o.width,
            dst: Rm::R(Reg::Eax),
            src: Src::Imm(o.immediate),
        },
        Kind::TestRmImm => Insn::Test {
            width: o.width,
            dst: o.rm,
            src: Src::Imm(o.immediate),
        },
        Kind::MovRmReg => Insn::Mov {
            width: o.width,
            dst: o.rm,
            src: Src::R(o.reg),
        },
        Kind::MovRegRm => Insn::Mov {
            width: o.width,
            dst: Rm::R(o.reg),
            src: source(o.rm),
        },
        Kind::MovRegImm => Insn::Mov {
            width: o.width,
            dst: Rm::R(register(o.opcode % 8)),
            src: Src::Imm(o.immediate),
        },
        Kind::MovRmImm => Insn::Mov {
            width: o.width,
            dst: o.rm,
            src: Src::Imm(o.immediate),
        },
        Kind::MovAccAt => Insn::Mov {
            width: o.width,
            dst: Rm::R(Reg::Eax),
            src: Src::M(at_address(o.marks.gs, o.immediate)),
        },
        Kind::MovAtAcc => Insn::Mov {
            width: o.width,
            dst: Rm::M(at_address(o.marks.gs, o.immediate)),
            src: Src::R(Reg::Eax),
        },
        Kind::XchgRmReg => Insn::Xchg {
            width: o.width,
            lock: o.marks.lock,
            dst: o.rm,
            reg: o.reg,
        },
        Kind::XchgRegAcc => Insn::Xchg {
            width: o.width,
            lock: false,
            dst: Rm::R(register(o.opcode % 8)),
            reg: Reg::Eax,
        },
        Kind::Lea => Insn::Lea {
            width: o.width,
            dst: o.reg,
            mem: memory_in(o.rm),
        },
        Kind::Movx(signed, from) => Insn::Movx {
            signed,
            from,
            to: o.width,
            dst: o.reg,
            src: o.rm,
        },
        Kind::Bswap => Insn::Bswap {
            reg: register(o.opcode % 8),
        },
        Kind::PushReg => Insn::Push {
            src: Src::R(register(o.opcode % 8)),
        },
        Kind::PushImm => Insn::Push {
            src: Src::Imm(o.immediate),
        },
        Kind::PushRm => Insn::Push { src: source(o.rm) },
        Kind::PopReg => Insn::Pop {
            dst: Rm::R(register(o.opcode % 8)),
        },
        Kind::PopRm => Insn::Pop { dst: o.rm },
        Kind::BumpReg(up) => Insn::Bump {
            up,
            width: o.width,
            lock: false,
            dst: Rm::R(register(o.opcode % 8)),
        },
        Kind::BumpRm(up) => Insn::Bump {
            up,
            width: o.width,
            lock: o.marks.lock,
            dst: o.rm,
        },
        Kind::Unary(op) => Insn::Unary {
            op,
            width: o.width,
            lock: o.marks.lock,
            dst: o.rm,
        },
        Kind::Mul(signed) => Insn::Mul {
            signed,
            width: o.width,
            src: o.rm,
        },
        Kind::Div(signed) => Insn::Div {
            signed,
            width: o.width,
            src: o.rm,
        },
        Kind::ImulRegRm => Insn::Imul {
            width: o.width,
            dst: o.reg,
            src: o.rm,
            imm: None,
        },
        Kind::ImulRegRmImm => Insn::Imul {
            width: o.width,
            dst: o.reg,
            src: o.rm,
            imm: Some(o.immediate),
        },
        Kind::ShiftImm(op) => Insn::Shift {
            op,
            width: o.width,
            dst: o.rm,
            count: Count::Imm((o.immediate % 0x100) as u8),
        },
        Kind::ShiftOne(op) => Insn::Shift {
            op,
            width: o.width,
            dst: o.rm,
            count: Count::Imm(1),
        },
        Kind::ShiftCl(op) => Insn::Shift {
            op,
            width: o.width,
            dst: o.rm,
            count: Count::Cl,
        },
        Kind::DoubleImm(left) => Insn::Double {
            left,
            dst: o.rm,
            src: o.reg,
            count: Count::Imm((o.immediate % 0x100) as u8),
        },
        Kind::DoubleCl(left) => Insn::Double {
            left,
            dst: o.rm,
            src: o.reg,
            count: Count::Cl,
        },
        Kind::BitReg(op) => Insn::Bit {
            op,
            width: o.width,
            lock: o.marks.lock,
            dst: o.rm,
            index: Src::R(o.reg),
        },
        Kind::BitImm(op) => Insn::Bit {
            op,
            width: o.width,
            lock: o.marks.lock,
            dst: o.rm,
            index: Src::Imm(o.immediate),
        },
        Kind::Scan(up) => Insn::Scan {
            up,
            width: o.width,
            dst: o.reg,
            src: o.rm,
        },
        Kind::Cmpxchg => Insn::Cmpxchg {
            width: o.width,
            lock: o.marks.lock,
            dst: o.rm,
            src: o.reg,
        },
        Kind::Xadd => Insn::Xadd {
            width: o.width,
            lock: o.marks.lock,
            dst: o.rm,
            src: o.reg,
        },
        Kind::Set => Insn::Set {
            cond: condition(o.opcode % 16),
            dst: o.rm,
        },
        Kind::Cmov => Insn::Cmov {
            cond: condition(o.opcode % 16),
            width: o.width,
            dst: o.reg,
            src: o.rm,
        },
        Kind::Cbw => Insn::Cbw { width: o.width },
        Kind::Cwd => Insn::Cwd { width: o.width },
        Kind::Str(op) => Insn::Str {
            op,
            width: o.width,
            rep: o.marks.rep,
        },
        Kind::Flag(op) => Insn::Flag { op },
        Kind::Pushad => Insn::Pushad,
        Kind::Popad => Insn::Popad,
        Kind::Pushfd => Insn::Pushfd,
        Kind::Popfd => Insn::Popfd,
        Kind::Leave => Insn::Leave,
        Kind::Xlat => Insn::Xlat,
        Kind::Lahf => Insn::Lahf,
        Kind::Sahf => Insn::Sahf,
        Kind::Nop => Insn::Nop,
        Kind::Pause => Insn::Pause,
        Kind::Endbr => Insn::Endbr,
        Kind::ToGs => Insn::ToGs { src: o.rm },
        Kind::FromGs => Insn::FromGs {
            width: selector_width(o.width, o.rm),
            dst: o.rm,
        },
        Kind::Cpuid => Insn::Cpuid,
        Kind::Jump => Insn::Jump { rel: o.immediate },
        Kind::Branch => Insn::Branch {
            cond: condition(o.opcode % 16),
            rel: o.immediate,
        },
        Kind::Loop(which) => Insn::Loop {
            kind: which,
            rel: o.immediate,
        },
        Kind::Call => Insn::Call { rel: o.immediate },
        Kind::JumpVia => Insn::JumpVia { src: o.rm },
        Kind::CallVia => Insn::CallVia { src: o.rm },
        Kind::Ret => Insn::Ret {
            drop: (o.immediate % 0x1_0000) as u16,
        },
        Kind::Int80 => Insn::Int80,
        Kind::Int3 => Insn::Int3,
        Kind::Hlt => Insn::Hlt,
        Kind::Ud2 => Insn::Ud2,
    }
}
