//! The rows of the spelling table by kind: no kind has more than three.

ghost use Rattle.std.specs.Prelude.{◌≡◌, ◌<◌, Some};
ghost use Rattle.x86_insn.specs.Rows.{row};
ghost use Rattle.x86_encode.specs.Slots.{alu_number, can_lock_alu, shift_number, bit_number, can_lock_bit, byte_row, full_row, short_row};

use x86_insn::row::{Form, Immediate, Kind, Layout, Lead, Repeat, Row, Size};
use x86_insn::{AluOp, BitOp, FlagOp, LoopKind, ShiftOp, StrOp, UnOp, Width};

fn alu_number(op: AluOp) -> u8
    ensures is { result ≡ alu_number op }
    ensures low { result < 8 }
{
    match op {
        AluOp::Add => 0,
        AluOp::Or => 1,
        AluOp::Adc => 2,
        AluOp::Sbb => 3,
        AluOp::And => 4,
        AluOp::Sub => 5,
        AluOp::Xor => 6,
        AluOp::Cmp => 7,
    }
}

fn can_lock_alu(op: AluOp) -> bool
    ensures { result ≡ can_lock_alu op }
{
    !matches!(op, AluOp::Cmp)
}

fn shift_number(op: ShiftOp) -> u8
    ensures { result ≡ shift_number op }
{
    match op {
        ShiftOp::Rol => 0,
        ShiftOp::Ror => 1,
        ShiftOp::Rcl => 2,
        ShiftOp::Rcr => 3,
        ShiftOp::Shl => 4,
        ShiftOp::Shr => 5,
        ShiftOp::Sar => 7,
    }
}

fn bit_number(op: BitOp) -> u8
    ensures is { result ≡ bit_number op }
    ensures low { result < 4 }
{
    match op {
        BitOp::Bt => 0,
        BitOp::Bts => 1,
        BitOp::Btr => 2,
        BitOp::Btc => 3,
    }
}

fn can_lock_bit(op: BitOp) -> bool
    ensures { result ≡ can_lock_bit op }
{
    !matches!(op, BitOp::Bt)
}

// A row by its columns, as the table has them.
fn row(
    lead: Lead,
    opcode: u8,
    span: u8,
    digit: Option<u8>,
    layout: Layout,
    immediate: Immediate,
    size: Size,
    lock: bool,
    repeat: Repeat,
    kind: Kind,
) -> Option<Row>
    ensures { result ≡ Some (row lead opcode span digit layout immediate size lock repeat kind) }
{
    let form = Form {
        digit,
        layout,
        immediate,
        size,
        lock,
        repeat,
        kind,
    };
    Some(Row {
        lead,
        opcode,
        span,
        form,
    })
}

/// The row of 8-bit operands.
#[rattlefmt::skip]
#[tactic(auto, unfolding(crate::specs::Slots::byte_row))]
pub fn byte_row(kind: Kind) -> Option<Row>
    ensures { result ≡ byte_row kind }
{
    match kind {
        Kind::AluRmReg(op) => row(Lead::Bare, 8 * alu_number(op), 1, None, Layout::Any, Immediate::Absent, Size::Byte, can_lock_alu(op), Repeat::Never, kind),
        Kind::AluRegRm(op) => row(Lead::Bare, 8 * alu_number(op) + 2, 1, None, Layout::Any, Immediate::Absent, Size::Byte, false, Repeat::Never, kind),
        Kind::AluAccImm(op) => row(Lead::Bare, 8 * alu_number(op) + 4, 1, None, Layout::NoModrm, Immediate::Ib, Size::Byte, false, Repeat::Never, kind),
        Kind::AluRmImm(op) => row(Lead::Bare, 0x80, 1, Some(alu_number(op)), Layout::Any, Immediate::Ib, Size::Byte, can_lock_alu(op), Repeat::Never, kind),
        Kind::ShiftImm(op) => row(Lead::Bare, 0xC0, 1, Some(shift_number(op)), Layout::Any, Immediate::Ib, Size::Byte, false, Repeat::Never, kind),
        Kind::ShiftOne(op) => row(Lead::Bare, 0xD0, 1, Some(shift_number(op)), Layout::Any, Immediate::Absent, Size::Byte, false, Repeat::Never, kind),
        Kind::ShiftCl(op) => row(Lead::Bare, 0xD2, 1, Some(shift_number(op)), Layout::Any, Immediate::Absent, Size::Byte, false, Repeat::Never, kind),
        Kind::MovRmReg => row(Lead::Bare, 0x88, 1, None, Layout::Any, Immediate::Absent, Size::Byte, false, Repeat::Never, kind),
        Kind::MovRegRm => row(Lead::Bare, 0x8A, 1, None, Layout::Any, Immediate::Absent, Size::Byte, false, Repeat::Never, kind),
        Kind::MovAccAt => row(Lead::Bare, 0xA0, 1, None, Layout::NoModrm, Immediate::Id, Size::Byte, false, Repeat::Never, kind),
        Kind::MovAtAcc => row(Lead::Bare, 0xA2, 1, None, Layout::NoModrm, Immediate::Id, Size::Byte, false, Repeat::Never, kind),
        Kind::MovRegImm => row(Lead::Bare, 0xB0, 8, None, Layout::NoModrm, Immediate::Ib, Size::Byte, false, Repeat::Never, kind),
        Kind::MovRmImm => row(Lead::Bare, 0xC6, 1, Some(0), Layout::Any, Immediate::Ib, Size::Byte, false, Repeat::Never, kind),
        Kind::XchgRmReg => row(Lead::Bare, 0x86, 1, None, Layout::Any, Immediate::Absent, Size::Byte, true, Repeat::Never, kind),
        Kind::Set => row(Lead::Escape, 0x90, 16, Some(0), Layout::Any, Immediate::Absent, Size::Byte, false, Repeat::Never, kind),
        Kind::TestRmReg => row(Lead::Bare, 0x84, 1, None, Layout::Any, Immediate::Absent, Size::Byte, false, Repeat::Never, kind),
        Kind::TestAccImm => row(Lead::Bare, 0xA8, 1, None, Layout::NoModrm, Immediate::Ib, Size::Byte, false, Repeat::Never, kind),
        Kind::TestRmImm => row(Lead::Bare, 0xF6, 1, Some(0), Layout::Any, Immediate::Ib, Size::Byte, false, Repeat::Never, kind),
        Kind::BumpRm(true) => row(Lead::Bare, 0xFE, 1, Some(0), Layout::Any, Immediate::Absent, Size::Byte, true, Repeat::Never, kind),
        Kind::BumpRm(false) => row(Lead::Bare, 0xFE, 1, Some(1), Layout::Any, Immediate::Absent, Size::Byte, true, Repeat::Never, kind),
        Kind::Unary(UnOp::Not) => row(Lead::Bare, 0xF6, 1, Some(2), Layout::Any, Immediate::Absent, Size::Byte, true, Repeat::Never, kind),
        Kind::Unary(UnOp::Neg) => row(Lead::Bare, 0xF6, 1, Some(3), Layout::Any, Immediate::Absent, Size::Byte, true, Repeat::Never, kind),
        Kind::Mul(false) => row(Lead::Bare, 0xF6, 1, Some(4), Layout::Any, Immediate::Absent, Size::Byte, false, Repeat::Never, kind),
        Kind::Mul(true) => row(Lead::Bare, 0xF6, 1, Some(5), Layout::Any, Immediate::Absent, Size::Byte, false, Repeat::Never, kind),
        Kind::Div(false) => row(Lead::Bare, 0xF6, 1, Some(6), Layout::Any, Immediate::Absent, Size::Byte, false, Repeat::Never, kind),
        Kind::Div(true) => row(Lead::Bare, 0xF6, 1, Some(7), Layout::Any, Immediate::Absent, Size::Byte, false, Repeat::Never, kind),
        Kind::Cmpxchg => row(Lead::Escape, 0xB0, 1, None, Layout::Any, Immediate::Absent, Size::Byte, true, Repeat::Never, kind),
        Kind::Xadd => row(Lead::Escape, 0xC0, 1, None, Layout::Any, Immediate::Absent, Size::Byte, true, Repeat::Never, kind),
        Kind::Str(StrOp::Movs) => row(Lead::Bare, 0xA4, 1, None, Layout::NoModrm, Immediate::Absent, Size::Byte, false, Repeat::Rep, kind),
        Kind::Str(StrOp::Cmps) => row(Lead::Bare, 0xA6, 1, None, Layout::NoModrm, Immediate::Absent, Size::Byte, false, Repeat::Repe, kind),
        Kind::Str(StrOp::Stos) => row(Lead::Bare, 0xAA, 1, None, Layout::NoModrm, Immediate::Absent, Size::Byte, false, Repeat::Rep, kind),
        Kind::Str(StrOp::Lods) => row(Lead::Bare, 0xAC, 1, None, Layout::NoModrm, Immediate::Absent, Size::Byte, false, Repeat::Rep, kind),
        Kind::Str(StrOp::Scas) => row(Lead::Bare, 0xAE, 1, None, Layout::NoModrm, Immediate::Absent, Size::Byte, false, Repeat::Repe, kind),
        _ => None,
    }
}

/// The row of wider operands, with a whole immediate or without one.
#[rattlefmt::skip]
#[tactic(auto, unfolding(crate::specs::Slots::full_row))]
pub fn full_row(kind: Kind) -> Option<Row>
    ensures { result ≡ full_row kind }
{
    match kind {
        Kind::AluRmReg(op) => row(Lead::Bare, 8 * alu_number(op) + 1, 1, None, Layout::Any, Immediate::Absent, Size::Vary, can_lock_alu(op), Repeat::Never, kind),
        Kind::AluRegRm(op) => row(Lead::Bare, 8 * alu_number(op) + 3, 1, None, Layout::Any, Immediate::Absent, Size::Vary, false, Repeat::Never, kind),
        Kind::AluAccImm(op) => row(Lead::Bare, 8 * alu_number(op) + 5, 1, None, Layout::NoModrm, Immediate::Iz, Size::Vary, false, Repeat::Never, kind),
        Kind::AluRmImm(op) => row(Lead::Bare, 0x81, 1, Some(alu_number(op)), Layout::Any, Immediate::Iz, Size::Vary, can_lock_alu(op), Repeat::Never, kind),
        Kind::ShiftImm(op) => row(Lead::Bare, 0xC1, 1, Some(shift_number(op)), Layout::Any, Immediate::Ib, Size::Vary, false, Repeat::Never, kind),
        Kind::ShiftOne(op) => row(Lead::Bare, 0xD1, 1, Some(shift_number(op)), Layout::Any, Immediate::Absent, Size::Vary, false, Repeat::Never, kind),
        Kind::ShiftCl(op) => row(Lead::Bare, 0xD3, 1, Some(shift_number(op)), Layout::Any, Immediate::Absent, Size::Vary, false, Repeat::Never, kind),
        Kind::BitReg(op) => row(Lead::Escape, 0xA3 + 8 * bit_number(op), 1, None, Layout::Register, Immediate::Absent, Size::Vary, false, Repeat::Never, kind),
        Kind::BitImm(op) => row(Lead::Escape, 0xBA, 1, Some(4 + bit_number(op)), Layout::Any, Immediate::Ib, Size::Vary, can_lock_bit(op), Repeat::Never, kind),
        Kind::MovRmReg => row(Lead::Bare, 0x89, 1, None, Layout::Any, Immediate::Absent, Size::Vary, false, Repeat::Never, kind),
        Kind::MovRegRm => row(Lead::Bare, 0x8B, 1, None, Layout::Any, Immediate::Absent, Size::Vary, false, Repeat::Never, kind),
        Kind::MovAccAt => row(Lead::Bare, 0xA1, 1, None, Layout::NoModrm, Immediate::Id, Size::Vary, false, Repeat::Never, kind),
        Kind::MovAtAcc => row(Lead::Bare, 0xA3, 1, None, Layout::NoModrm, Immediate::Id, Size::Vary, false, Repeat::Never, kind),
        Kind::MovRegImm => row(Lead::Bare, 0xB8, 8, None, Layout::NoModrm, Immediate::Iz, Size::Vary, false, Repeat::Never, kind),
        Kind::MovRmImm => row(Lead::Bare, 0xC7, 1, Some(0), Layout::Any, Immediate::Iz, Size::Vary, false, Repeat::Never, kind),
        Kind::XchgRmReg => row(Lead::Bare, 0x87, 1, None, Layout::Any, Immediate::Absent, Size::Vary, true, Repeat::Never, kind),
        Kind::XchgRegAcc => row(Lead::Bare, 0x91, 7, None, Layout::NoModrm, Immediate::Absent, Size::Vary, false, Repeat::Never, kind),
        Kind::Lea => row(Lead::Bare, 0x8D, 1, None, Layout::Memory, Immediate::Absent, Size::Vary, false, Repeat::Never, kind),
        Kind::Movx(false, Width::B) => row(Lead::Escape, 0xB6, 1, None, Layout::Any, Immediate::Absent, Size::Vary, false, Repeat::Never, kind),
        Kind::Movx(false, Width::W) => row(Lead::Escape, 0xB7, 1, None, Layout::Any, Immediate::Absent, Size::Dword, false, Repeat::Never, kind),
        Kind::Movx(true, Width::B) => row(Lead::Escape, 0xBE, 1, None, Layout::Any, Immediate::Absent, Size::Vary, false, Repeat::Never, kind),
        Kind::Movx(true, Width::W) => row(Lead::Escape, 0xBF, 1, None, Layout::Any, Immediate::Absent, Size::Dword, false, Repeat::Never, kind),
        Kind::Bswap => row(Lead::Escape, 0xC8, 8, None, Layout::NoModrm, Immediate::Absent, Size::Dword, false, Repeat::Never, kind),
        Kind::Cmov => row(Lead::Escape, 0x40, 16, None, Layout::Any, Immediate::Absent, Size::Vary, false, Repeat::Never, kind),
        Kind::Xlat => row(Lead::Bare, 0xD7, 1, None, Layout::NoModrm, Immediate::Absent, Size::Dword, false, Repeat::Never, kind),
        Kind::PushReg => row(Lead::Bare, 0x50, 8, None, Layout::NoModrm, Immediate::Absent, Size::Dword, false, Repeat::Never, kind),
        Kind::PushImm => row(Lead::Bare, 0x68, 1, None, Layout::NoModrm, Immediate::Id, Size::Dword, false, Repeat::Never, kind),
        Kind::PushRm => row(Lead::Bare, 0xFF, 1, Some(6), Layout::Any, Immediate::Absent, Size::Dword, false, Repeat::Never, kind),
        Kind::PopReg => row(Lead::Bare, 0x58, 8, None, Layout::NoModrm, Immediate::Absent, Size::Dword, false, Repeat::Never, kind),
        Kind::PopRm => row(Lead::Bare, 0x8F, 1, Some(0), Layout::Any, Immediate::Absent, Size::Dword, false, Repeat::Never, kind),
        Kind::Pushad => row(Lead::Bare, 0x60, 1, None, Layout::NoModrm, Immediate::Absent, Size::Dword, false, Repeat::Never, kind),
        Kind::Popad => row(Lead::Bare, 0x61, 1, None, Layout::NoModrm, Immediate::Absent, Size::Dword, false, Repeat::Never, kind),
        Kind::Pushfd => row(Lead::Bare, 0x9C, 1, None, Layout::NoModrm, Immediate::Absent, Size::Dword, false, Repeat::Never, kind),
        Kind::Popfd => row(Lead::Bare, 0x9D, 1, None, Layout::NoModrm, Immediate::Absent, Size::Dword, false, Repeat::Never, kind),
        Kind::Leave => row(Lead::Bare, 0xC9, 1, None, Layout::NoModrm, Immediate::Absent, Size::Dword, false, Repeat::Never, kind),
        Kind::TestRmReg => row(Lead::Bare, 0x85, 1, None, Layout::Any, Immediate::Absent, Size::Vary, false, Repeat::Never, kind),
        Kind::TestAccImm => row(Lead::Bare, 0xA9, 1, None, Layout::NoModrm, Immediate::Iz, Size::Vary, false, Repeat::Never, kind),
        Kind::TestRmImm => row(Lead::Bare, 0xF7, 1, Some(0), Layout::Any, Immediate::Iz, Size::Vary, false, Repeat::Never, kind),
        Kind::BumpReg(true) => row(Lead::Bare, 0x40, 8, None, Layout::NoModrm, Immediate::Absent, Size::Vary, false, Repeat::Never, kind),
        Kind::BumpReg(false) => row(Lead::Bare, 0x48, 8, None, Layout::NoModrm, Immediate::Absent, Size::Vary, false, Repeat::Never, kind),
        Kind::BumpRm(true) => row(Lead::Bare, 0xFF, 1, Some(0), Layout::Any, Immediate::Absent, Size::Vary, true, Repeat::Never, kind),
        Kind::BumpRm(false) => row(Lead::Bare, 0xFF, 1, Some(1), Layout::Any, Immediate::Absent, Size::Vary, true, Repeat::Never, kind),
        Kind::Unary(UnOp::Not) => row(Lead::Bare, 0xF7, 1, Some(2), Layout::Any, Immediate::Absent, Size::Vary, true, Repeat::Never, kind),
        Kind::Unary(UnOp::Neg) => row(Lead::Bare, 0xF7, 1, Some(3), Layout::Any, Immediate::Absent, Size::Vary, true, Repeat::Never, kind),
        Kind::Mul(false) => row(Lead::Bare, 0xF7, 1, Some(4), Layout::Any, Immediate::Absent, Size::Vary, false, Repeat::Never, kind),
        Kind::Mul(true) => row(Lead::Bare, 0xF7, 1, Some(5), Layout::Any, Immediate::Absent, Size::Vary, false, Repeat::Never, kind),
        Kind::Div(false) => row(Lead::Bare, 0xF7, 1, Some(6), Layout::Any, Immediate::Absent, Size::Vary, false, Repeat::Never, kind),
        Kind::Div(true) => row(Lead::Bare, 0xF7, 1, Some(7), Layout::Any, Immediate::Absent, Size::Vary, false, Repeat::Never, kind),
        Kind::ImulRegRm => row(Lead::Escape, 0xAF, 1, None, Layout::Any, Immediate::Absent, Size::Vary, false, Repeat::Never, kind),
        Kind::ImulRegRmImm => row(Lead::Bare, 0x69, 1, None, Layout::Any, Immediate::Iz, Size::Vary, false, Repeat::Never, kind),
        Kind::DoubleImm(true) => row(Lead::Escape, 0xA4, 1, None, Layout::Any, Immediate::Ib, Size::Dword, false, Repeat::Never, kind),
        Kind::DoubleCl(true) => row(Lead::Escape, 0xA5, 1, None, Layout::Any, Immediate::Absent, Size::Dword, false, Repeat::Never, kind),
        Kind::DoubleImm(false) => row(Lead::Escape, 0xAC, 1, None, Layout::Any, Immediate::Ib, Size::Dword, false, Repeat::Never, kind),
        Kind::DoubleCl(false) => row(Lead::Escape, 0xAD, 1, None, Layout::Any, Immediate::Absent, Size::Dword, false, Repeat::Never, kind),
        Kind::Scan(true) => row(Lead::Escape, 0xBC, 1, None, Layout::Any, Immediate::Absent, Size::Vary, false, Repeat::Never, kind),
        Kind::Scan(false) => row(Lead::Escape, 0xBD, 1, None, Layout::Any, Immediate::Absent, Size::Vary, false, Repeat::Never, kind),
        Kind::Cmpxchg => row(Lead::Escape, 0xB1, 1, None, Layout::Any, Immediate::Absent, Size::Vary, true, Repeat::Never, kind),
        Kind::Xadd => row(Lead::Escape, 0xC1, 1, None, Layout::Any, Immediate::Absent, Size::Vary, true, Repeat::Never, kind),
        Kind::Cbw => row(Lead::Bare, 0x98, 1, None, Layout::NoModrm, Immediate::Absent, Size::Vary, false, Repeat::Never, kind),
        Kind::Cwd => row(Lead::Bare, 0x99, 1, None, Layout::NoModrm, Immediate::Absent, Size::Vary, false, Repeat::Never, kind),
        Kind::Str(StrOp::Movs) => row(Lead::Bare, 0xA5, 1, None, Layout::NoModrm, Immediate::Absent, Size::Vary, false, Repeat::Rep, kind),
        Kind::Str(StrOp::Cmps) => row(Lead::Bare, 0xA7, 1, None, Layout::NoModrm, Immediate::Absent, Size::Vary, false, Repeat::Repe, kind),
        Kind::Str(StrOp::Stos) => row(Lead::Bare, 0xAB, 1, None, Layout::NoModrm, Immediate::Absent, Size::Vary, false, Repeat::Rep, kind),
        Kind::Str(StrOp::Lods) => row(Lead::Bare, 0xAD, 1, None, Layout::NoModrm, Immediate::Absent, Size::Vary, false, Repeat::Rep, kind),
        Kind::Str(StrOp::Scas) => row(Lead::Bare, 0xAF, 1, None, Layout::NoModrm, Immediate::Absent, Size::Vary, false, Repeat::Repe, kind),
        Kind::Sahf => row(Lead::Bare, 0x9E, 1, None, Layout::NoModrm, Immediate::Absent, Size::Dword, false, Repeat::Never, kind),
        Kind::Lahf => row(Lead::Bare, 0x9F, 1, None, Layout::NoModrm, Immediate::Absent, Size::Dword, false, Repeat::Never, kind),
        Kind::Flag(FlagOp::Cmc) => row(Lead::Bare, 0xF5, 1, None, Layout::NoModrm, Immediate::Absent, Size::Dword, false, Repeat::Never, kind),
        Kind::Flag(FlagOp::Clc) => row(Lead::Bare, 0xF8, 1, None, Layout::NoModrm, Immediate::Absent, Size::Dword, false, Repeat::Never, kind),
        Kind::Flag(FlagOp::Stc) => row(Lead::Bare, 0xF9, 1, None, Layout::NoModrm, Immediate::Absent, Size::Dword, false, Repeat::Never, kind),
        Kind::Flag(FlagOp::Cld) => row(Lead::Bare, 0xFC, 1, None, Layout::NoModrm, Immediate::Absent, Size::Dword, false, Repeat::Never, kind),
        Kind::Flag(FlagOp::Std) => row(Lead::Bare, 0xFD, 1, None, Layout::NoModrm, Immediate::Absent, Size::Dword, false, Repeat::Never, kind),
        Kind::Nop => row(Lead::Bare, 0x90, 1, None, Layout::NoModrm, Immediate::Absent, Size::Vary, false, Repeat::Never, kind),
        Kind::Pause => row(Lead::Bare, 0x90, 1, None, Layout::NoModrm, Immediate::Absent, Size::Dword, false, Repeat::Needed, kind),
        Kind::Endbr => row(Lead::Hint, 0xFB, 1, None, Layout::NoModrm, Immediate::Absent, Size::Dword, false, Repeat::Needed, kind),
        Kind::ToGs => row(Lead::Bare, 0x8E, 1, Some(5), Layout::Any, Immediate::Absent, Size::Vary, false, Repeat::Never, kind),
        Kind::FromGs => row(Lead::Bare, 0x8C, 1, Some(5), Layout::Any, Immediate::Absent, Size::Vary, false, Repeat::Never, kind),
        Kind::Cpuid => row(Lead::Escape, 0xA2, 1, None, Layout::NoModrm, Immediate::Absent, Size::Dword, false, Repeat::Never, kind),
        Kind::Branch => row(Lead::Escape, 0x80, 16, None, Layout::NoModrm, Immediate::Id, Size::Dword, false, Repeat::Never, kind),
        Kind::Jump => row(Lead::Bare, 0xE9, 1, None, Layout::NoModrm, Immediate::Id, Size::Dword, false, Repeat::Never, kind),
        Kind::JumpVia => row(Lead::Bare, 0xFF, 1, Some(4), Layout::Any, Immediate::Absent, Size::Dword, false, Repeat::Never, kind),
        Kind::Call => row(Lead::Bare, 0xE8, 1, None, Layout::NoModrm, Immediate::Id, Size::Dword, false, Repeat::Never, kind),
        Kind::CallVia => row(Lead::Bare, 0xFF, 1, Some(2), Layout::Any, Immediate::Absent, Size::Dword, false, Repeat::Never, kind),
        Kind::Ret => row(Lead::Bare, 0xC2, 1, None, Layout::NoModrm, Immediate::Iw, Size::Dword, false, Repeat::Idle, kind),
        Kind::Int80 => row(Lead::Interrupt, 0x80, 1, None, Layout::NoModrm, Immediate::Absent, Size::Dword, false, Repeat::Never, kind),
        Kind::Int3 => row(Lead::Bare, 0xCC, 1, None, Layout::NoModrm, Immediate::Absent, Size::Dword, false, Repeat::Never, kind),
        Kind::Hlt => row(Lead::Bare, 0xF4, 1, None, Layout::NoModrm, Immediate::Absent, Size::Dword, false, Repeat::Never, kind),
        Kind::Ud2 => row(Lead::Escape, 0x0B, 1, None, Layout::NoModrm, Immediate::Absent, Size::Dword, false, Repeat::Never, kind),
        _ => None,
    }
}

/// A shorter row: with an immediate byte that is extended by its sign, or without an immediate.
#[rattlefmt::skip]
#[tactic(auto, unfolding(crate::specs::Slots::short_row))]
pub fn short_row(kind: Kind) -> Option<Row>
    ensures { result ≡ short_row kind }
{
    match kind {
        Kind::AluRmImm(op) => row(Lead::Bare, 0x83, 1, Some(alu_number(op)), Layout::Any, Immediate::SignedIb, Size::Vary, can_lock_alu(op), Repeat::Never, kind),
        Kind::PushImm => row(Lead::Bare, 0x6A, 1, None, Layout::NoModrm, Immediate::SignedIb, Size::Dword, false, Repeat::Never, kind),
        Kind::ImulRegRmImm => row(Lead::Bare, 0x6B, 1, None, Layout::Any, Immediate::SignedIb, Size::Vary, false, Repeat::Never, kind),
        Kind::Branch => row(Lead::Bare, 0x70, 16, None, Layout::NoModrm, Immediate::SignedIb, Size::Dword, false, Repeat::Never, kind),
        Kind::Jump => row(Lead::Bare, 0xEB, 1, None, Layout::NoModrm, Immediate::SignedIb, Size::Dword, false, Repeat::Never, kind),
        Kind::Loop(LoopKind::Ne) => row(Lead::Bare, 0xE0, 1, None, Layout::NoModrm, Immediate::SignedIb, Size::Dword, false, Repeat::Never, kind),
        Kind::Loop(LoopKind::E) => row(Lead::Bare, 0xE1, 1, None, Layout::NoModrm, Immediate::SignedIb, Size::Dword, false, Repeat::Never, kind),
        Kind::Loop(LoopKind::Plain) => row(Lead::Bare, 0xE2, 1, None, Layout::NoModrm, Immediate::SignedIb, Size::Dword, false, Repeat::Never, kind),
        Kind::Loop(LoopKind::Ecxz) => row(Lead::Bare, 0xE3, 1, None, Layout::NoModrm, Immediate::SignedIb, Size::Dword, false, Repeat::Never, kind),
        Kind::Ret => row(Lead::Bare, 0xC3, 1, None, Layout::NoModrm, Immediate::Absent, Size::Dword, false, Repeat::Idle, kind),
        _ => None,
    }
}
