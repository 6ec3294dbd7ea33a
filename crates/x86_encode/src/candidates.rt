//! The kinds of row that spell an instruction, with the operands: no instruction has more than two.

ghost use Rattle.std.specs.Prelude.{◌≡◌, ◌==◌};
ghost use Rattle.x86_insn.specs.declared.insn.Insn.TheVariants.{Alu, Test, Mov, Xchg, Push, Shift, Bump, FromGs};
ghost use Rattle.x86_insn.specs.Meaning.{cond_number};
ghost use Rattle.x86_insn.specs.State.{reg_number};
ghost use Rattle.x86_encode.specs.Candidates.{is_word, is_gs, operands, alone, of_rm, of_number, of_address, of_condition, if_absolute, general, special};

use x86_insn::row::{Kind, Marks, Operands};
use x86_insn::{AluOp, Cond, Count, Insn, Mem, Reg, Rep, Rm, ShiftOp, Src, Width};

/// A kind of row, and the operands for it. An operand that the kind doesn't use has the value of the first row's.
#[derive(Clone, Copy)]
pub struct Candidate {
    pub kind: Kind,
    pub operands: Operands,
}

fn is_word(width: Width) -> bool
    ensures { result ≡ is_word width }
{
    matches!(width, Width::W)
}

// Memory relative to GS.
fn is_gs(rm: Rm) -> bool
    ensures { result ≡ is_gs rm }
{
    match rm {
        Rm::R(_) => false,
        Rm::M(mem) => mem.gs,
    }
}

fn operands(
    width: Width,
    lock: bool,
    rep: Rep,
    opcode: u8,
    reg: Reg,
    rm: Rm,
    immediate: u32,
) -> Operands
    ensures { result ≡ operands width lock rep opcode reg rm immediate }
{
    let marks = Marks {
        word: is_word(width),
        lock,
        rep,
        gs: is_gs(rm),
    };
    Operands {
        width,
        marks,
        opcode,
        reg,
        rm,
        immediate,
    }
}

// A kind with a width, and a repeat prefix or none.
fn alone(kind: Kind, width: Width, rep: Rep) -> Option<Candidate>
    ensures { result ≡ alone kind width rep }
{
    let operands = operands(width, false, rep, 0, Reg::Eax, Rm::R(Reg::Eax), 0);
    Some(Candidate { kind, operands })
}

// With the operand that ModRM names, the register in its reg field, and the immediate.
fn of_rm(
    kind: Kind,
    width: Width,
    lock: bool,
    rm: Rm,
    reg: Reg,
    immediate: u32,
) -> Option<Candidate>
    ensures { result ≡ of_rm kind width lock rm reg immediate }
{
    let operands = operands(width, lock, Rep::Once, 0, reg, rm, immediate);
    Some(Candidate { kind, operands })
}

// With a number in the opcode, and the immediate.
fn of_number(kind: Kind, width: Width, number: u8, immediate: u32) -> Option<Candidate>
    ensures { result ≡ of_number kind width number immediate }
{
    let operands = operands(
        width,
        false,
        Rep::Once,
        number,
        Reg::Eax,
        Rm::R(Reg::Eax),
        immediate,
    );
    Some(Candidate { kind, operands })
}

// With memory whose address is the immediate.
fn of_address(kind: Kind, width: Width, mem: Mem) -> Option<Candidate>
    ensures { result ≡ of_address kind width mem }
{
    of_rm(kind, width, false, Rm::M(mem), Reg::Eax, mem.disp)
}

// With a condition in the opcode, and the operands of ModRM.
fn of_condition(kind: Kind, width: Width, cond: Cond, rm: Rm, reg: Reg) -> Option<Candidate>
    ensures { result ≡ of_condition kind width (cond_number cond) rm reg }
{
    let operands = operands(width, false, Rep::Once, cond.number(), reg, rm, 0);
    Some(Candidate { kind, operands })
}

// AL, AX or EAX.
fn is_accumulator(reg: Reg) -> bool
    ensures { result ≡ (reg_number reg == 0) }
{
    matches!(reg, Reg::Eax)
}

// The candidate where memory is named by its address alone.
fn if_absolute(mem: &Mem, candidate: Option<Candidate>) -> Option<Candidate>
    ensures { result ≡ if_absolute mem.now.base mem.now.index candidate }
{
    match (mem.base, mem.index) {
        (None, None) => candidate,
        _ => None,
    }
}

#[tactic(auto, unfolding(crate::specs::Candidates::general))]
fn general_alu(op: AluOp, width: Width, lock: bool, dst: Rm, src: Src) -> Option<Candidate>
    ensures { result ≡ general (Alu op width lock dst src) }
{
    match (dst, src) {
        (_, Src::R(reg)) => of_rm(Kind::AluRmReg(op), width, lock, dst, reg, 0),
        (_, Src::Imm(imm)) => of_rm(Kind::AluRmImm(op), width, lock, dst, Reg::Eax, imm),
        (Rm::R(reg), Src::M(mem)) => {
            if lock {
                None
            } else {
                of_rm(Kind::AluRegRm(op), width, false, Rm::M(mem), reg, 0)
            }
        }
        (Rm::M(_), Src::M(_)) => None,
    }
}

#[tactic(auto, unfolding(crate::specs::Candidates::general))]
fn general_mov(width: Width, dst: Rm, src: Src) -> Option<Candidate>
    ensures { result ≡ general (Mov width dst src) }
{
    match (dst, src) {
        (_, Src::R(reg)) => of_rm(Kind::MovRmReg, width, false, dst, reg, 0),
        (_, Src::Imm(imm)) => of_rm(Kind::MovRmImm, width, false, dst, Reg::Eax, imm),
        (Rm::R(reg), Src::M(mem)) => of_rm(Kind::MovRegRm, width, false, Rm::M(mem), reg, 0),
        (Rm::M(_), Src::M(_)) => None,
    }
}

// A selector goes to memory with two bytes, and without 66.
#[tactic(auto, unfolding(crate::specs::Candidates::general))]
fn general_from_gs(width: Width, dst: Rm) -> Option<Candidate>
    ensures { result ≡ general (FromGs width dst) }
{
    match (width, dst) {
        (_, Rm::R(_)) => of_rm(Kind::FromGs, width, false, dst, Reg::Eax, 0),
        (Width::W, Rm::M(_)) => of_rm(Kind::FromGs, Width::D, false, dst, Reg::Eax, 0),
        _ => None,
    }
}

#[tactic(auto, unfolding(crate::specs::Candidates::general))]
fn general_push(src: Src) -> Option<Candidate>
    ensures { result ≡ general (Push src) }
{
    match src {
        Src::R(reg) => of_rm(Kind::PushRm, Width::D, false, Rm::R(reg), Reg::Eax, 0),
        Src::M(mem) => of_rm(Kind::PushRm, Width::D, false, Rm::M(mem), Reg::Eax, 0),
        Src::Imm(imm) => of_number(Kind::PushImm, Width::D, 0, imm),
    }
}

/// The kind whose rows spell the instruction with the fewest conditions.
#[tactic(auto, unfolding(crate::specs::Candidates::general))]
pub fn general(insn: &Insn) -> Option<Candidate>
    ensures { result ≡ general insn.now }
{
    match *insn {
        Insn::Alu {
            op,
            width,
            lock,
            dst,
            src,
        } => general_alu(op, width, lock, dst, src),
        Insn::Test { width, dst, src } => match src {
            Src::R(reg) => of_rm(Kind::TestRmReg, width, false, dst, reg, 0),
            Src::Imm(imm) => of_rm(Kind::TestRmImm, width, false, dst, Reg::Eax, imm),
            Src::M(_) => None,
        },
        Insn::Mov { width, dst, src } => general_mov(width, dst, src),
        Insn::Xchg {
            width,
            lock,
            dst,
            reg,
        } => of_rm(Kind::XchgRmReg, width, lock, dst, reg, 0),
        Insn::Lea { width, dst, mem } => of_rm(Kind::Lea, width, false, Rm::M(mem), dst, 0),
        Insn::Movx {
            signed,
            from,
            to,
            dst,
            src,
        } => of_rm(Kind::Movx(signed, from), to, false, src, dst, 0),
        Insn::Bswap { reg } => of_number(Kind::Bswap, Width::D, reg.number() as u8, 0),
        Insn::Push { src } => general_push(src),
        Insn::Pop { dst } => of_rm(Kind::PopRm, Width::D, false, dst, Reg::Eax, 0),
        Insn::Pushad => alone(Kind::Pushad, Width::D, Rep::Once),
        Insn::Popad => alone(Kind::Popad, Width::D, Rep::Once),
        Insn::Pushfd => alone(Kind::Pushfd, Width::D, Rep::Once),
        Insn::Popfd => alone(Kind::Popfd, Width::D, Rep::Once),
        Insn::Leave => alone(Kind::Leave, Width::D, Rep::Once),
        Insn::Bump {
            up,
            width,
            lock,
            dst,
        } => of_rm(Kind::BumpRm(up), width, lock, dst, Reg::Eax, 0),
        Insn::Unary {
            op,
            width,
            lock,
            dst,
        } => of_rm(Kind::Unary(op), width, lock, dst, Reg::Eax, 0),
        Insn::Mul { signed, width, src } => of_rm(
            Kind::Mul(signed),
            width,
            false,
            src,
            Reg::Eax,
            0,
        ),
        Insn::Div { signed, width, src } => of_rm(
            Kind::Div(signed),
            width,
            false,
            src,
            Reg::Eax,
            0,
        ),
        Insn::Imul {
            width,
            dst,
            src,
            imm,
        } => match imm {
            None => of_rm(Kind::ImulRegRm, width, false, src, dst, 0),
            Some(imm) => of_rm(Kind::ImulRegRmImm, width, false, src, dst, imm),
        },
        Insn::Shift {
            op,
            width,
            dst,
            count,
        } => match count {
            Count::Imm(imm) => of_rm(Kind::ShiftImm(op), width, false, dst, Reg::Eax, imm as u32),
            Count::Cl => of_rm(Kind::ShiftCl(op), width, false, dst, Reg::Eax, 0),
        },
        Insn::Double {
            left,
            dst,
            src,
            count,
        } => match count {
            Count::Imm(imm) => of_rm(Kind::DoubleImm(left), Width::D, false, dst, src, imm as u32),
            Count::Cl => of_rm(Kind::DoubleCl(left), Width::D, false, dst, src, 0),
        },
        Insn::Bit {
            op,
            width,
            lock,
            dst,
            index,
        } => match index {
            Src::R(reg) => of_rm(Kind::BitReg(op), width, lock, dst, reg, 0),
            Src::Imm(imm) => of_rm(Kind::BitImm(op), width, lock, dst, Reg::Eax, imm),
            Src::M(_) => None,
        },
        Insn::Scan {
            up,
            width,
            dst,
            src,
        } => of_rm(Kind::Scan(up), width, false, src, dst, 0),
        Insn::Cmpxchg {
            width,
            lock,
            dst,
            src,
        } => of_rm(Kind::Cmpxchg, width, lock, dst, src, 0),
        Insn::Xadd {
            width,
            lock,
            dst,
            src,
        } => of_rm(Kind::Xadd, width, lock, dst, src, 0),
        Insn::Set { cond, dst } => of_condition(Kind::Set, Width::B, cond, dst, Reg::Eax),
        Insn::Cmov {
            cond,
            width,
            dst,
            src,
        } => of_condition(Kind::Cmov, width, cond, src, dst),
        Insn::Cbw { width } => alone(Kind::Cbw, width, Rep::Once),
        Insn::Cwd { width } => alone(Kind::Cwd, width, Rep::Once),
        Insn::Str { op, width, rep } => alone(Kind::Str(op), width, rep),
        Insn::Xlat => alone(Kind::Xlat, Width::D, Rep::Once),
        Insn::Lahf => alone(Kind::Lahf, Width::D, Rep::Once),
        Insn::Sahf => alone(Kind::Sahf, Width::D, Rep::Once),
        Insn::Flag { op } => alone(Kind::Flag(op), Width::D, Rep::Once),
        Insn::Nop => alone(Kind::Nop, Width::D, Rep::Once),
        Insn::Pause => alone(Kind::Pause, Width::D, Rep::F3),
        Insn::Endbr => alone(Kind::Endbr, Width::D, Rep::F3),
        Insn::ToGs { src } => of_rm(Kind::ToGs, Width::D, false, src, Reg::Eax, 0),
        Insn::FromGs { width, dst } => general_from_gs(width, dst),
        Insn::Cpuid => alone(Kind::Cpuid, Width::D, Rep::Once),
        Insn::Jump { rel } => of_number(Kind::Jump, Width::D, 0, rel),
        Insn::Branch { cond, rel } => of_number(Kind::Branch, Width::D, cond.number(), rel),
        Insn::Loop { kind, rel } => of_number(Kind::Loop(kind), Width::D, 0, rel),
        Insn::Call { rel } => of_number(Kind::Call, Width::D, 0, rel),
        Insn::JumpVia { src } => of_rm(Kind::JumpVia, Width::D, false, src, Reg::Eax, 0),
        Insn::CallVia { src } => of_rm(Kind::CallVia, Width::D, false, src, Reg::Eax, 0),
        Insn::Ret { drop } => of_number(Kind::Ret, Width::D, 0, drop as u32),
        Insn::Int80 => alone(Kind::Int80, Width::D, Rep::Once),
        Insn::Int3 => alone(Kind::Int3, Width::D, Rep::Once),
        Insn::Hlt => alone(Kind::Hlt, Width::D, Rep::Once),
        Insn::Ud2 => alone(Kind::Ud2, Width::D, Rep::Once),
    }
}

#[tactic(auto, unfolding(crate::specs::Candidates::special))]
fn special_alu(op: AluOp, width: Width, lock: bool, dst: Rm, src: Src) -> Option<Candidate>
    ensures { result ≡ special (Alu op width lock dst src) }
{
    if lock {
        return None;
    }
    match (dst, src) {
        (Rm::R(dst), Src::R(reg)) => of_rm(Kind::AluRegRm(op), width, false, Rm::R(reg), dst, 0),
        (Rm::R(dst), Src::Imm(imm)) => {
            if is_accumulator(dst) {
                of_number(Kind::AluAccImm(op), width, 0, imm)
            } else {
                None
            }
        }
        _ => None,
    }
}

#[tactic(auto, unfolding(crate::specs::Candidates::special))]
fn special_mov(width: Width, dst: Rm, src: Src) -> Option<Candidate>
    ensures { result ≡ special (Mov width dst src) }
{
    match (dst, src) {
        (Rm::R(dst), Src::R(reg)) => of_rm(Kind::MovRegRm, width, false, Rm::R(reg), dst, 0),
        (Rm::R(dst), Src::Imm(imm)) => of_number(Kind::MovRegImm, width, dst.number() as u8, imm),
        (Rm::R(dst), Src::M(mem)) => {
            if is_accumulator(dst) {
                if_absolute(&mem, of_address(Kind::MovAccAt, width, mem))
            } else {
                None
            }
        }
        (Rm::M(mem), Src::R(reg)) => {
            if is_accumulator(reg) {
                if_absolute(&mem, of_address(Kind::MovAtAcc, width, mem))
            } else {
                None
            }
        }
        _ => None,
    }
}

#[tactic(auto, unfolding(crate::specs::Candidates::special))]
fn special_xchg(width: Width, lock: bool, dst: Rm, reg: Reg) -> Option<Candidate>
    ensures { result ≡ special (Xchg width lock dst reg) }
{
    match dst {
        Rm::R(dst) => {
            if !lock && is_accumulator(reg) {
                of_number(Kind::XchgRegAcc, width, dst.number() as u8, 0)
            } else {
                None
            }
        }
        Rm::M(_) => None,
    }
}

#[tactic(auto, unfolding(crate::specs::Candidates::special))]
fn special_test(width: Width, dst: Rm, src: Src) -> Option<Candidate>
    ensures { result ≡ special (Test width dst src) }
{
    match (dst, src) {
        (Rm::R(dst), Src::Imm(imm)) => {
            if is_accumulator(dst) {
                of_number(Kind::TestAccImm, width, 0, imm)
            } else {
                None
            }
        }
        _ => None,
    }
}

#[tactic(auto, unfolding(crate::specs::Candidates::special))]
fn special_shift(op: ShiftOp, width: Width, dst: Rm, count: Count) -> Option<Candidate>
    ensures { result ≡ special (Shift op width dst count) }
{
    match count {
        Count::Imm(1) => of_rm(Kind::ShiftOne(op), width, false, dst, Reg::Eax, 0),
        _ => None,
    }
}

#[tactic(auto, unfolding(crate::specs::Candidates::special))]
fn special_bump(up: bool, width: Width, lock: bool, dst: Rm) -> Option<Candidate>
    ensures { result ≡ special (Bump up width lock dst) }
{
    match dst {
        Rm::R(dst) => {
            if lock {
                None
            } else {
                of_number(Kind::BumpReg(up), width, dst.number() as u8, 0)
            }
        }
        Rm::M(_) => None,
    }
}

/// Another kind: the register in the opcode, the accumulator, the other direction, a shift by 1, or memory that
/// is named by its address alone.
#[tactic(auto, unfolding(crate::specs::Candidates::special))]
pub fn special(insn: &Insn) -> Option<Candidate>
    ensures { result ≡ special insn.now }
{
    match *insn {
        Insn::Alu {
            op,
            width,
            lock,
            dst,
            src,
        } => special_alu(op, width, lock, dst, src),
        Insn::Test { width, dst, src } => special_test(width, dst, src),
        Insn::Mov { width, dst, src } => special_mov(width, dst, src),
        Insn::Xchg {
            width,
            lock,
            dst,
            reg,
        } => special_xchg(width, lock, dst, reg),
        Insn::Push { src: Src::R(reg) } => of_number(
            Kind::PushReg,
            Width::D,
            reg.number() as u8,
            0,
        ),
        Insn::Pop { dst: Rm::R(reg) } => of_number(Kind::PopReg, Width::D, reg.number() as u8, 0),
        Insn::Bump {
            up,
            width,
            lock,
            dst,
        } => special_bump(up, width, lock, dst),
        Insn::Shift {
            op,
            width,
            dst,
            count,
        } => special_shift(op, width, dst, count),
        _ => None,
    }
}
