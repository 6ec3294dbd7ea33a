//! The instruction of an operation and its operands, and the one instruction that a line may be the text of.

ghost use Rattle.std.specs.Prelude.{◌≡◌};
ghost use Rattle.mini_asm.specs.Building.{address_in as address_in_of, built as built_of, candidate as candidate_of, count_from as count_from_of, doubled as doubled_of, from_register as from_register_of, from_source as from_source_of, from_two as from_two_of, into_register as into_register_of, into_two as into_two_of, is_gs as is_gs_of, loaded_address as loaded_address_of, moved as moved_of, multiplied as multiplied_of, number_of, on_memory as on_memory_of, on_number as on_number_of, on_register as on_register_of, on_sized as on_sized_of, read_from as read_from_of, register_in as register_in_of, relative as relative_of, shifted_by as shifted_by_of, shown_in, sized_in as sized_in_of, with_one as with_one_of, with_operands as with_operands_of, with_register as with_register_of, with_three as with_three_of, with_two as with_two_of, without as without_of};

use crate::mnemonic::{Mnemonic, mnemonic_named};
use crate::operands::operands;
use crate::words::word;
use insn_text::operand::{Operand, Operands};
use mv_base::behind;
use x86_insn::{Count, Insn, Mem, Reg, Rep, Rm, ShiftOp, Src, Width};

/// A register or memory, and its width.
#[derive(Clone, Copy)]
struct Sized {
    width: Width,
    place: Rm,
}

/// A register or memory of a width.
fn sized_in(operand: Operand) -> Option<Sized>
    ensures { result ≡ sized_in_of operand }
{
    match operand {
        Operand::Register(width, reg) => Some(Sized {
            width,
            place: Rm::R(reg),
        }),
        Operand::Memory(width, mem) => Some(Sized {
            width,
            place: Rm::M(mem),
        }),
        Operand::Address(_) | Operand::Number(_) | Operand::Gs => None,
    }
}

/// What may be read: a register, memory or a number.
fn read_from(operand: Operand) -> Option<Src>
    ensures { result ≡ read_from_of operand }
{
    match operand {
        Operand::Register(_, reg) => Some(Src::R(reg)),
        Operand::Memory(_, mem) => Some(Src::M(mem)),
        Operand::Number(n) => Some(Src::Imm(n)),
        Operand::Address(_) | Operand::Gs => None,
    }
}

/// A register and its width.
fn register_in(operand: Operand) -> Option<(Width, Reg)>
    ensures { result ≡ register_in_of operand }
{
    match operand {
        Operand::Register(width, reg) => Some((width, reg)),
        Operand::Memory(_, _) | Operand::Address(_) | Operand::Number(_) | Operand::Gs => None,
    }
}

/// An effective address.
fn address_in(operand: Operand) -> Option<Mem>
    ensures { result ≡ address_in_of operand }
{
    match operand {
        Operand::Address(mem) => Some(mem),
        Operand::Register(_, _) | Operand::Memory(_, _) | Operand::Number(_) | Operand::Gs => None,
    }
}

/// A number.
fn number_in(operand: Operand) -> Option<u32>
    ensures { result ≡ number_of operand }
{
    match operand {
        Operand::Number(n) => Some(n),
        Operand::Register(_, _) | Operand::Memory(_, _) | Operand::Address(_) | Operand::Gs => None,
    }
}

/// A count: a number, or CL.
fn count_from(operand: Operand) -> Option<Count>
    ensures { result ≡ count_from_of operand }
{
    match operand {
        Operand::Number(n) => {
            if n < 256 {
                Some(Count::Imm(n as u8))
            } else {
                None
            }
        }
        Operand::Register(_, _) => Some(Count::Cl),
        Operand::Memory(_, _) | Operand::Address(_) | Operand::Gs => None,
    }
}

/// The instruction of an operation that shows no operand.
fn without(mnemonic: Mnemonic, rep: Rep) -> Option<Insn>
    ensures { result ≡ without_of mnemonic rep }
{
    match mnemonic {
        Mnemonic::Lone(insn) => Some(insn),
        Mnemonic::Str(op, width) => Some(Insn::Str { op, width, rep }),
        Mnemonic::Ret => Some(Insn::Ret { drop: 0 }),
        _ => None,
    }
}

/// The instruction of an operation on one operand that has a width.
#[tactic(auto, unfolding(crate::specs::Building::on_sized))]
fn on_sized(mnemonic: Mnemonic, lock: bool, operand: Sized) -> Option<Insn>
    ensures { result ≡ on_sized_of mnemonic lock operand }
{
    let Sized { width, place } = operand;
    match mnemonic {
        Mnemonic::Bump(up) => Some(Insn::Bump {
            up,
            width,
            lock,
            dst: place,
        }),
        Mnemonic::Unary(op) => Some(Insn::Unary {
            op,
            width,
            lock,
            dst: place,
        }),
        Mnemonic::Mul(signed) => Some(Insn::Mul {
            signed,
            width,
            src: place,
        }),
        Mnemonic::Div(signed) => Some(Insn::Div {
            signed,
            width,
            src: place,
        }),
        Mnemonic::Set(cond) => Some(Insn::Set { cond, dst: place }),
        Mnemonic::Pop => Some(Insn::Pop { dst: place }),
        Mnemonic::Jump => Some(Insn::JumpVia { src: place }),
        Mnemonic::Call => Some(Insn::CallVia { src: place }),
        _ => None,
    }
}

/// The instruction of an operation on a number alone: what a return drops, the number of an interrupt, and where a
/// transfer goes.
#[tactic(auto, unfolding(crate::specs::Building::on_number))]
fn on_number(mnemonic: Mnemonic, n: u32) -> Option<Insn>
    ensures { result ≡ on_number_of mnemonic n }
{
    match mnemonic {
        Mnemonic::Push => Some(Insn::Push { src: Src::Imm(n) }),
        Mnemonic::Ret => {
            if n < 65_536 {
                Some(Insn::Ret { drop: n as u16 })
            } else {
                None
            }
        }
        Mnemonic::Interrupt => Some(Insn::Int80),
        Mnemonic::Jump => Some(Insn::Jump { rel: n }),
        Mnemonic::Branch(cond) => Some(Insn::Branch { cond, rel: n }),
        Mnemonic::Loop(kind) => Some(Insn::Loop { kind, rel: n }),
        Mnemonic::Call => Some(Insn::Call { rel: n }),
        _ => None,
    }
}

/// The instruction of an operation on one register.
#[tactic(auto, unfolding(crate::specs::Building::on_register))]
fn on_register(mnemonic: Mnemonic, lock: bool, width: Width, reg: Reg) -> Option<Insn>
    ensures { result ≡ on_register_of mnemonic lock width reg }
{
    match mnemonic {
        Mnemonic::Bswap => Some(Insn::Bswap { reg }),
        Mnemonic::Push => Some(Insn::Push { src: Src::R(reg) }),
        _ => on_sized(
            mnemonic,
            lock,
            Sized {
                width,
                place: Rm::R(reg),
            },
        ),
    }
}

/// The instruction of an operation on memory alone.
#[tactic(auto, unfolding(crate::specs::Building::on_memory))]
fn on_memory(mnemonic: Mnemonic, lock: bool, width: Width, mem: Mem) -> Option<Insn>
    ensures { result ≡ on_memory_of mnemonic lock width mem }
{
    match mnemonic {
        Mnemonic::Push => Some(Insn::Push { src: Src::M(mem) }),
        _ => on_sized(
            mnemonic,
            lock,
            Sized {
                width,
                place: Rm::M(mem),
            },
        ),
    }
}

/// The instruction of an operation on one operand.
fn with_one(mnemonic: Mnemonic, lock: bool, operand: Operand) -> Option<Insn>
    ensures { result ≡ with_one_of mnemonic lock operand }
{
    match operand {
        Operand::Register(width, reg) => on_register(mnemonic, lock, width, reg),
        Operand::Memory(width, mem) => on_memory(mnemonic, lock, width, mem),
        Operand::Number(n) => on_number(mnemonic, n),
        Operand::Address(_) | Operand::Gs => None,
    }
}

/// The instruction of an operation into a register, from a register or memory.
#[tactic(auto, unfolding(crate::specs::Building::into_register))]
fn into_register(mnemonic: Mnemonic, width: Width, dst: Reg, from: Sized) -> Option<Insn>
    ensures { result ≡ into_register_of mnemonic width dst from }
{
    let src = from.place;
    match mnemonic {
        Mnemonic::Movx(signed) => Some(Insn::Movx {
            signed,
            from: from.width,
            to: width,
            dst,
            src,
        }),
        Mnemonic::Mul(true) => Some(Insn::Imul {
            width,
            dst,
            src,
            imm: None,
        }),
        Mnemonic::Scan(up) => Some(Insn::Scan {
            up,
            width,
            dst,
            src,
        }),
        Mnemonic::Cmov(cond) => Some(Insn::Cmov {
            cond,
            width,
            dst,
            src,
        }),
        _ => None,
    }
}

/// The instruction of an operation onto a register or memory, from a register.
#[tactic(auto, unfolding(crate::specs::Building::from_register))]
fn from_register(mnemonic: Mnemonic, lock: bool, onto: Sized, reg: Reg) -> Option<Insn>
    ensures { result ≡ from_register_of mnemonic lock onto reg }
{
    let Sized { width, place: dst } = onto;
    match mnemonic {
        Mnemonic::Xchg => Some(Insn::Xchg {
            width,
            lock,
            dst,
            reg,
        }),
        Mnemonic::Cmpxchg => Some(Insn::Cmpxchg {
            width,
            lock,
            dst,
            src: reg,
        }),
        Mnemonic::Xadd => Some(Insn::Xadd {
            width,
            lock,
            dst,
            src: reg,
        }),
        _ => None,
    }
}

/// The instruction of an operation onto a register or memory, from what may be read.
#[tactic(auto, unfolding(crate::specs::Building::from_source))]
fn from_source(mnemonic: Mnemonic, lock: bool, onto: Sized, src: Src) -> Option<Insn>
    ensures { result ≡ from_source_of mnemonic lock onto src }
{
    let Sized { width, place: dst } = onto;
    match mnemonic {
        Mnemonic::Alu(op) => Some(Insn::Alu {
            op,
            width,
            lock,
            dst,
            src,
        }),
        Mnemonic::Bit(op) => Some(Insn::Bit {
            op,
            width,
            lock,
            dst,
            index: src,
        }),
        Mnemonic::Test => Some(Insn::Test { width, dst, src }),
        Mnemonic::Mov => Some(Insn::Mov { width, dst, src }),
        _ => None,
    }
}

/// Whether an operand is GS.
fn is_gs(operand: Operand) -> bool
    ensures { result ≡ is_gs_of operand }
{
    matches!(operand, Operand::Gs)
}

/// The same, from operands.
#[tactic(auto, unfolding(crate::specs::Building::from_two))]
fn from_two(mnemonic: Mnemonic, lock: bool, first: Operand, second: Operand) -> Option<Insn>
    ensures { result ≡ from_two_of mnemonic lock first second }
{
    let onto = sized_in(first)?;
    from_source(mnemonic, lock, onto, read_from(second)?)
}

/// A move, of which a side may be GS.
#[tactic(auto, unfolding(crate::specs::Building::moved))]
fn moved(lock: bool, first: Operand, second: Operand) -> Option<Insn>
    ensures { result ≡ moved_of lock first second }
{
    if is_gs(first) {
        let from = sized_in(second)?;
        Some(Insn::ToGs { src: from.place })
    } else if is_gs(second) {
        let onto = sized_in(first)?;
        Some(Insn::FromGs {
            width: onto.width,
            dst: onto.place,
        })
    } else {
        from_two(Mnemonic::Mov, lock, first, second)
    }
}

/// Into a register, from operands.
#[tactic(auto, unfolding(crate::specs::Building::into_two))]
fn into_two(mnemonic: Mnemonic, first: Operand, second: Operand) -> Option<Insn>
    ensures { result ≡ into_two_of mnemonic first second }
{
    let (width, dst) = register_in(first)?;
    into_register(mnemonic, width, dst, sized_in(second)?)
}

/// From a register, from operands.
#[tactic(auto, unfolding(crate::specs::Building::with_register))]
fn with_register(mnemonic: Mnemonic, lock: bool, first: Operand, second: Operand) -> Option<Insn>
    ensures { result ≡ with_register_of mnemonic lock first second }
{
    let onto = sized_in(first)?;
    let (_, reg) = register_in(second)?;
    from_register(mnemonic, lock, onto, reg)
}

/// A shift or rotation.
#[tactic(auto, unfolding(crate::specs::Building::shifted_by))]
fn shifted_by(op: ShiftOp, first: Operand, second: Operand) -> Option<Insn>
    ensures { result ≡ shifted_by_of op first second }
{
    let onto = sized_in(first)?;
    Some(Insn::Shift {
        op,
        width: onto.width,
        dst: onto.place,
        count: count_from(second)?,
    })
}

/// An address that is loaded into a register.
#[tactic(auto, unfolding(crate::specs::Building::loaded_address))]
fn loaded_address(first: Operand, second: Operand) -> Option<Insn>
    ensures { result ≡ loaded_address_of first second }
{
    let (width, dst) = register_in(first)?;
    Some(Insn::Lea {
        width,
        dst,
        mem: address_in(second)?,
    })
}

/// The instruction of an operation on two operands.
#[tactic(auto, unfolding(crate::specs::Building::with_two))]
fn with_two(mnemonic: Mnemonic, lock: bool, first: Operand, second: Operand) -> Option<Insn>
    ensures { result ≡ with_two_of mnemonic lock first second }
{
    match mnemonic {
        Mnemonic::Lea => loaded_address(first, second),
        Mnemonic::Shift(op) => shifted_by(op, first, second),
        Mnemonic::Mov => moved(lock, first, second),
        Mnemonic::Xchg | Mnemonic::Cmpxchg | Mnemonic::Xadd => {
            with_register(mnemonic, lock, first, second)
        }
        Mnemonic::Movx(_) | Mnemonic::Mul(_) | Mnemonic::Scan(_) | Mnemonic::Cmov(_) => {
            into_two(mnemonic, first, second)
        }
        _ => from_two(mnemonic, lock, first, second),
    }
}

/// A signed product with an immediate.
#[tactic(auto, unfolding(crate::specs::Building::multiplied))]
fn multiplied(first: Operand, second: Operand, third: Operand) -> Option<Insn>
    ensures { result ≡ multiplied_of first second third }
{
    let (width, dst) = register_in(first)?;
    let from = sized_in(second)?;
    let imm = number_in(third)?;
    Some(Insn::Imul {
        width,
        dst,
        src: from.place,
        imm: Some(imm),
    })
}

/// A shift of two operands.
#[tactic(auto, unfolding(crate::specs::Building::doubled))]
fn doubled(left: bool, first: Operand, second: Operand, third: Operand) -> Option<Insn>
    ensures { result ≡ doubled_of left first second third }
{
    let onto = sized_in(first)?;
    let (_, src) = register_in(second)?;
    Some(Insn::Double {
        left,
        dst: onto.place,
        src,
        count: count_from(third)?,
    })
}

/// The instruction of an operation on three operands.
fn with_three(mnemonic: Mnemonic, first: Operand, second: Operand, third: Operand) -> Option<Insn>
    ensures { result ≡ with_three_of mnemonic first second third }
{
    match mnemonic {
        Mnemonic::Mul(_) => multiplied(first, second, third),
        Mnemonic::Double(left) => doubled(left, first, second, third),
        _ => None,
    }
}

/// The instruction of an operation and its operands.
#[tactic(auto, unfolding(crate::specs::Building::with_operands))]
fn with_operands(mnemonic: Mnemonic, lock: bool, rep: Rep, operands: &[Operand]) -> Option<Insn>
    ensures { result ≡ with_operands_of mnemonic lock rep operands.now }
{
    match operands {
        [] => without(mnemonic, rep),
        [only] => with_one(mnemonic, lock, *only),
        [first, second] => with_two(mnemonic, lock, *first, *second),
        [first, second, third] => with_three(mnemonic, *first, *second, *third),
        _ => None,
    }
}

/// The operands behind a mnemonic.
#[tactic(auto, unfolding(crate::specs::Building::shown_in))]
fn shown(text: &[u8]) -> Option<Operands>
    ensures { result ≡ shown_in text.now }
{
    match text {
        [] => Some(Operands::none()),
        _ => operands(text),
    }
}

/// What a text spells behind its word in front; of a direct transfer the number is where it goes.
#[tactic(auto, unfolding(crate::specs::Building::built))]
fn built(lock: bool, rep: Rep, text: &[u8]) -> Option<Insn>
    ensures { result ≡ built_of lock rep text.now }
{
    let (name, rest) = word(text);
    let mnemonic = mnemonic_named(name)?;
    let operands = shown(rest)?;
    with_operands(mnemonic, lock, rep, operands.as_slice())
}

/// The one instruction that a line may be the text of; of a direct transfer the number is where it goes.
#[tactic(auto, unfolding(crate::specs::Building::candidate))]
pub(crate) fn candidate(line: &[u8]) -> Option<Insn>
    ensures { result ≡ candidate_of line.now }
{
    if let Some(rest) = behind(b"lock ", line) {
        built(true, Rep::Once, rest)
    } else if let Some(rest) = behind(b"rep ", line) {
        built(false, Rep::F3, rest)
    } else if let Some(rest) = behind(b"repe ", line) {
        built(false, Rep::F3, rest)
    } else if let Some(rest) = behind(b"repne ", line) {
        built(false, Rep::F2, rest)
    } else {
        built(false, Rep::Once, line)
    }
}

/// The same instruction, with how far it goes in place of where, if it is a direct transfer; `next` is the address behind
/// it.
pub(crate) fn relative(next: u32, insn: Insn) -> Insn
    ensures { result ≡ relative_of next insn }
{
    match insn {
        Insn::Jump { rel } => Insn::Jump {
            rel: rel.wrapping_sub(next),
        },
        Insn::Branch { cond, rel } => Insn::Branch {
            cond,
            rel: rel.wrapping_sub(next),
        },
        Insn::Loop { kind, rel } => Insn::Loop {
            kind,
            rel: rel.wrapping_sub(next),
        },
        Insn::Call { rel } => Insn::Call {
            rel: rel.wrapping_sub(next),
        },
        _ => insn,
    }
}
