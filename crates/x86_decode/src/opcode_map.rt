//! The opcode maps: the forms of the spelling table at each opcode byte. Intel SDM, volume 2, appendix A.
//!
//! A line of a map has eight opcodes. Where several forms share an opcode, ModRM's reg field or the prefix F3
//! tells them apart.

ghost use Rattle.std.specs.Prelude.{◌≡◌, [], ◌∷◌, option_to_list};
ghost use Rattle.x86_decode.specs.Candidates.{rows_behind, forms_at, single_at, group_at};

use std::slice;
use x86_insn::row::{Form, Immediate, Kind, Layout, Repeat, Size};
use x86_insn::{AluOp, BitOp, FlagOp, LoopKind, ShiftOp, StrOp, UnOp, Width};

// A form, by its columns.
macro_rules! form {
    ($kind:expr, $layout:ident, $immediate:ident, $size:ident, $lock:expr, $repeat:ident, $digit:expr) => {
        Form {
            digit: $digit,
            layout: Layout::$layout,
            immediate: Immediate::$immediate,
            size: Size::$size,
            lock: $lock,
            repeat: Repeat::$repeat,
            kind: $kind,
        }
    };
}

// A form without ModRM, with ModRM, and with a digit in ModRM's reg field; none of them takes F2 or F3.
macro_rules! plain {
    ($kind:expr, $immediate:ident, $size:ident) => {
        form!($kind, NoModrm, $immediate, $size, false, Never, None)
    };
}

macro_rules! modrm {
    ($kind:expr, $immediate:ident, $size:ident, $lock:expr) => {
        form!($kind, Any, $immediate, $size, $lock, Never, None)
    };
}

macro_rules! digit {
    ($digit:expr, $kind:expr, $immediate:ident, $size:ident, $lock:expr) => {
        form!($kind, Any, $immediate, $size, $lock, Never, Some($digit))
    };
}

// ADD and its kin: ModRM's operand and a register, a register and ModRM's operand, the accumulator and an immediate.
macro_rules! rm_reg {
    ($op:ident, $size:ident, $lock:expr) => {
        Some(modrm!(Kind::AluRmReg(AluOp::$op), Absent, $size, $lock))
    };
}

macro_rules! reg_rm {
    ($op:ident, $size:ident) => {
        Some(modrm!(Kind::AluRegRm(AluOp::$op), Absent, $size, false))
    };
}

macro_rules! acc {
    ($op:ident, $immediate:ident, $size:ident) => {
        Some(plain!(Kind::AluAccImm(AluOp::$op), $immediate, $size))
    };
}

// ModRM's operand and an immediate, by the digit.
macro_rules! arithmetic {
    ($immediate:ident, $size:ident) => {
        [
            digit!(0, Kind::AluRmImm(AluOp::Add), $immediate, $size, true),
            digit!(1, Kind::AluRmImm(AluOp::Or), $immediate, $size, true),
            digit!(2, Kind::AluRmImm(AluOp::Adc), $immediate, $size, true),
            digit!(3, Kind::AluRmImm(AluOp::Sbb), $immediate, $size, true),
            digit!(4, Kind::AluRmImm(AluOp::And), $immediate, $size, true),
            digit!(5, Kind::AluRmImm(AluOp::Sub), $immediate, $size, true),
            digit!(6, Kind::AluRmImm(AluOp::Xor), $immediate, $size, true),
            digit!(7, Kind::AluRmImm(AluOp::Cmp), $immediate, $size, false),
        ]
    };
}

// The shifts and rotations of one kind of count, by the digit.
macro_rules! shifts {
    ($kind:ident, $immediate:ident, $size:ident) => {
        [
            digit!(0, Kind::$kind(ShiftOp::Rol), $immediate, $size, false),
            digit!(1, Kind::$kind(ShiftOp::Ror), $immediate, $size, false),
            digit!(2, Kind::$kind(ShiftOp::Rcl), $immediate, $size, false),
            digit!(3, Kind::$kind(ShiftOp::Rcr), $immediate, $size, false),
            digit!(4, Kind::$kind(ShiftOp::Shl), $immediate, $size, false),
            digit!(5, Kind::$kind(ShiftOp::Shr), $immediate, $size, false),
            digit!(7, Kind::$kind(ShiftOp::Sar), $immediate, $size, false),
        ]
    };
}

// TEST, NOT, NEG, MUL, IMUL, DIV and IDIV, by the digit.
macro_rules! unary {
    ($immediate:ident, $size:ident) => {
        [
            digit!(0, Kind::TestRmImm, $immediate, $size, false),
            digit!(2, Kind::Unary(UnOp::Not), Absent, $size, true),
            digit!(3, Kind::Unary(UnOp::Neg), Absent, $size, true),
            digit!(4, Kind::Mul(false), Absent, $size, false),
            digit!(5, Kind::Mul(true), Absent, $size, false),
            digit!(6, Kind::Div(false), Absent, $size, false),
            digit!(7, Kind::Div(true), Absent, $size, false),
        ]
    };
}

macro_rules! string {
    ($op:ident, $size:ident, $repeat:ident) => {
        Some(form!(Kind::Str(StrOp::$op), NoModrm, Absent, $size, false, $repeat, None))
    };
}

macro_rules! counted {
    ($kind:ident) => {
        Some(plain!(Kind::Loop(LoopKind::$kind), SignedIb, Dword))
    };
}

macro_rules! flag {
    ($op:ident) => {
        Some(plain!(Kind::Flag(FlagOp::$op), Absent, Dword))
    };
}

macro_rules! bit {
    ($op:ident) => {
        Some(form!(Kind::BitReg(BitOp::$op), Register, Absent, Vary, false, Never, None))
    };
}

const NONE: Option<Form> = None;

// Moves.
const STORE_8: Option<Form> = Some(modrm!(Kind::MovRmReg, Absent, Byte, false));

const STORE: Option<Form> = Some(modrm!(Kind::MovRmReg, Absent, Vary, false));

const LOAD_8: Option<Form> = Some(modrm!(Kind::MovRegRm, Absent, Byte, false));

const LOAD: Option<Form> = Some(modrm!(Kind::MovRegRm, Absent, Vary, false));

const LOAD_AL: Option<Form> = Some(plain!(Kind::MovAccAt, Id, Byte));

const LOAD_ACC: Option<Form> = Some(plain!(Kind::MovAccAt, Id, Vary));

const STORE_AL: Option<Form> = Some(plain!(Kind::MovAtAcc, Id, Byte));

const STORE_ACC: Option<Form> = Some(plain!(Kind::MovAtAcc, Id, Vary));

const SET_8: Option<Form> = Some(plain!(Kind::MovRegImm, Ib, Byte));

const SET: Option<Form> = Some(plain!(Kind::MovRegImm, Iz, Vary));

const MOV_C6: Option<Form> = Some(digit!(0, Kind::MovRmImm, Ib, Byte, false));

const MOV_C7: Option<Form> = Some(digit!(0, Kind::MovRmImm, Iz, Vary, false));

const XCHG_8: Option<Form> = Some(modrm!(Kind::XchgRmReg, Absent, Byte, true));

const XCHG: Option<Form> = Some(modrm!(Kind::XchgRmReg, Absent, Vary, true));

const XCHG_ACC: Option<Form> = Some(plain!(Kind::XchgRegAcc, Absent, Vary));

const LEA: Option<Form> = Some(form!(Kind::Lea, Memory, Absent, Vary, false, Never, None));

const MOVZX_8: Option<Form> = Some(modrm!(Kind::Movx(false, Width::B), Absent, Vary, false));

const MOVZX_16: Option<Form> = Some(modrm!(Kind::Movx(false, Width::W), Absent, Dword, false));

const MOVSX_8: Option<Form> = Some(modrm!(Kind::Movx(true, Width::B), Absent, Vary, false));

const MOVSX_16: Option<Form> = Some(modrm!(Kind::Movx(true, Width::W), Absent, Dword, false));

const BSWAP: Option<Form> = Some(plain!(Kind::Bswap, Absent, Dword));

const CMOV: Option<Form> = Some(modrm!(Kind::Cmov, Absent, Vary, false));

const SETCC: Option<Form> = Some(digit!(0, Kind::Set, Absent, Byte, false));

const XLAT: Option<Form> = Some(plain!(Kind::Xlat, Absent, Dword));

// The stack.
const PUSH: Option<Form> = Some(plain!(Kind::PushReg, Absent, Dword));

const PUSH_ID: Option<Form> = Some(plain!(Kind::PushImm, Id, Dword));

const PUSH_IB: Option<Form> = Some(plain!(Kind::PushImm, SignedIb, Dword));

const POP: Option<Form> = Some(plain!(Kind::PopReg, Absent, Dword));

const POP_RM: Option<Form> = Some(digit!(0, Kind::PopRm, Absent, Dword, false));

const PUSHAD: Option<Form> = Some(plain!(Kind::Pushad, Absent, Dword));

const POPAD: Option<Form> = Some(plain!(Kind::Popad, Absent, Dword));

const PUSHFD: Option<Form> = Some(plain!(Kind::Pushfd, Absent, Dword));

const POPFD: Option<Form> = Some(plain!(Kind::Popfd, Absent, Dword));

const LEAVE: Option<Form> = Some(plain!(Kind::Leave, Absent, Dword));

// Arithmetic.
static GROUP_80: [Form; 8] = arithmetic!(Ib, Byte);

static GROUP_81: [Form; 8] = arithmetic!(Iz, Vary);

static GROUP_83: [Form; 8] = arithmetic!(SignedIb, Vary);

const TEST_8: Option<Form> = Some(modrm!(Kind::TestRmReg, Absent, Byte, false));

const TEST: Option<Form> = Some(modrm!(Kind::TestRmReg, Absent, Vary, false));

const TEST_AL: Option<Form> = Some(plain!(Kind::TestAccImm, Ib, Byte));

const TEST_ACC: Option<Form> = Some(plain!(Kind::TestAccImm, Iz, Vary));

const INC: Option<Form> = Some(plain!(Kind::BumpReg(true), Absent, Vary));

const DEC: Option<Form> = Some(plain!(Kind::BumpReg(false), Absent, Vary));

static GROUP_F6: [Form; 7] = unary!(Ib, Byte);

static GROUP_F7: [Form; 7] = unary!(Iz, Vary);

static GROUP_FE: [Form; 2] = [
    digit!(0, Kind::BumpRm(true), Absent, Byte, true),
    digit!(1, Kind::BumpRm(false), Absent, Byte, true),
];

static GROUP_FF: [Form; 5] = [
    digit!(6, Kind::PushRm, Absent, Dword, false),
    digit!(0, Kind::BumpRm(true), Absent, Vary, true),
    digit!(1, Kind::BumpRm(false), Absent, Vary, true),
    digit!(4, Kind::JumpVia, Absent, Dword, false),
    digit!(2, Kind::CallVia, Absent, Dword, false),
];

const IMUL: Option<Form> = Some(modrm!(Kind::ImulRegRm, Absent, Vary, false));

const IMUL_IZ: Option<Form> = Some(modrm!(Kind::ImulRegRmImm, Iz, Vary, false));

const IMUL_IB: Option<Form> = Some(modrm!(Kind::ImulRegRmImm, SignedIb, Vary, false));

static GROUP_C0: [Form; 7] = shifts!(ShiftImm, Ib, Byte);

static GROUP_C1: [Form; 7] = shifts!(ShiftImm, Ib, Vary);

static GROUP_D0: [Form; 7] = shifts!(ShiftOne, Absent, Byte);

static GROUP_D1: [Form; 7] = shifts!(ShiftOne, Absent, Vary);

static GROUP_D2: [Form; 7] = shifts!(ShiftCl, Absent, Byte);

static GROUP_D3: [Form; 7] = shifts!(ShiftCl, Absent, Vary);

const SHLD_IB: Option<Form> = Some(modrm!(Kind::DoubleImm(true), Ib, Dword, false));

const SHLD_CL: Option<Form> = Some(modrm!(Kind::DoubleCl(true), Absent, Dword, false));

const SHRD_IB: Option<Form> = Some(modrm!(Kind::DoubleImm(false), Ib, Dword, false));

const SHRD_CL: Option<Form> = Some(modrm!(Kind::DoubleCl(false), Absent, Dword, false));

static GROUP_BA: [Form; 4] = [
    digit!(4, Kind::BitImm(BitOp::Bt), Ib, Vary, false),
    digit!(5, Kind::BitImm(BitOp::Bts), Ib, Vary, true),
    digit!(6, Kind::BitImm(BitOp::Btr), Ib, Vary, true),
    digit!(7, Kind::BitImm(BitOp::Btc), Ib, Vary, true),
];

const BSF: Option<Form> = Some(modrm!(Kind::Scan(true), Absent, Vary, false));

const BSR: Option<Form> = Some(modrm!(Kind::Scan(false), Absent, Vary, false));

const CMPXCHG_8: Option<Form> = Some(modrm!(Kind::Cmpxchg, Absent, Byte, true));

const CMPXCHG: Option<Form> = Some(modrm!(Kind::Cmpxchg, Absent, Vary, true));

const XADD_8: Option<Form> = Some(modrm!(Kind::Xadd, Absent, Byte, true));

const XADD: Option<Form> = Some(modrm!(Kind::Xadd, Absent, Vary, true));

const CBW: Option<Form> = Some(plain!(Kind::Cbw, Absent, Vary));

const CWD: Option<Form> = Some(plain!(Kind::Cwd, Absent, Vary));

// Flags and hints.
const SAHF: Option<Form> = Some(plain!(Kind::Sahf, Absent, Dword));

const LAHF: Option<Form> = Some(plain!(Kind::Lahf, Absent, Dword));

static GROUP_90: [Form; 2] = [
    plain!(Kind::Nop, Absent, Vary),
    form!(Kind::Pause, NoModrm, Absent, Dword, false, Needed, None),
];

const NOP_RM: Option<Form> = Some(digit!(0, Kind::Nop, Absent, Vary, false));

const ENDBR: Option<Form> = Some(form!(Kind::Endbr, NoModrm, Absent, Dword, false, Needed, None));

// The system.
const TO_GS: Option<Form> = Some(digit!(5, Kind::ToGs, Absent, Vary, false));

const FROM_GS: Option<Form> = Some(digit!(5, Kind::FromGs, Absent, Vary, false));

const CPUID: Option<Form> = Some(plain!(Kind::Cpuid, Absent, Dword));

// Transfers.
const JCC: Option<Form> = Some(plain!(Kind::Branch, SignedIb, Dword));

const JCC_ID: Option<Form> = Some(plain!(Kind::Branch, Id, Dword));

const JMP_ID: Option<Form> = Some(plain!(Kind::Jump, Id, Dword));

const JMP_IB: Option<Form> = Some(plain!(Kind::Jump, SignedIb, Dword));

const CALL: Option<Form> = Some(plain!(Kind::Call, Id, Dword));

const RET_IW: Option<Form> = Some(form!(Kind::Ret, NoModrm, Iw, Dword, false, Idle, None));

const RET: Option<Form> = Some(form!(Kind::Ret, NoModrm, Absent, Dword, false, Idle, None));

const INT80: Option<Form> = Some(plain!(Kind::Int80, Absent, Dword));

const INT3: Option<Form> = Some(plain!(Kind::Int3, Absent, Dword));

const HLT: Option<Form> = Some(plain!(Kind::Hlt, Absent, Dword));

const UD2: Option<Form> = Some(plain!(Kind::Ud2, Absent, Dword));

// The one-byte opcodes that have one form.
#[rattlefmt::skip]
static ONE_BYTE: [Option<Form>; 256] = [
    /* 0x00 */ rm_reg!(Add, Byte, true), rm_reg!(Add, Vary, true), reg_rm!(Add, Byte), reg_rm!(Add, Vary), acc!(Add, Ib, Byte), acc!(Add, Iz, Vary), NONE, NONE,
    /* 0x08 */ rm_reg!(Or, Byte, true), rm_reg!(Or, Vary, true), reg_rm!(Or, Byte), reg_rm!(Or, Vary), acc!(Or, Ib, Byte), acc!(Or, Iz, Vary), NONE, NONE,
    /* 0x10 */ rm_reg!(Adc, Byte, true), rm_reg!(Adc, Vary, true), reg_rm!(Adc, Byte), reg_rm!(Adc, Vary), acc!(Adc, Ib, Byte), acc!(Adc, Iz, Vary), NONE, NONE,
    /* 0x18 */ rm_reg!(Sbb, Byte, true), rm_reg!(Sbb, Vary, true), reg_rm!(Sbb, Byte), reg_rm!(Sbb, Vary), acc!(Sbb, Ib, Byte), acc!(Sbb, Iz, Vary), NONE, NONE,
    /* 0x20 */ rm_reg!(And, Byte, true), rm_reg!(And, Vary, true), reg_rm!(And, Byte), reg_rm!(And, Vary), acc!(And, Ib, Byte), acc!(And, Iz, Vary), NONE, NONE,
    /* 0x28 */ rm_reg!(Sub, Byte, true), rm_reg!(Sub, Vary, true), reg_rm!(Sub, Byte), reg_rm!(Sub, Vary), acc!(Sub, Ib, Byte), acc!(Sub, Iz, Vary), NONE, NONE,
    /* 0x30 */ rm_reg!(Xor, Byte, true), rm_reg!(Xor, Vary, true), reg_rm!(Xor, Byte), reg_rm!(Xor, Vary), acc!(Xor, Ib, Byte), acc!(Xor, Iz, Vary), NONE, NONE,
    /* 0x38 */ rm_reg!(Cmp, Byte, false), rm_reg!(Cmp, Vary, false), reg_rm!(Cmp, Byte), reg_rm!(Cmp, Vary), acc!(Cmp, Ib, Byte), acc!(Cmp, Iz, Vary), NONE, NONE,
    /* 0x40 */ INC, INC, INC, INC, INC, INC, INC, INC,
    /* 0x48 */ DEC, DEC, DEC, DEC, DEC, DEC, DEC, DEC,
    /* 0x50 */ PUSH, PUSH, PUSH, PUSH, PUSH, PUSH, PUSH, PUSH,
    /* 0x58 */ POP, POP, POP, POP, POP, POP, POP, POP,
    /* 0x60 */ PUSHAD, POPAD, NONE, NONE, NONE, NONE, NONE, NONE,
    /* 0x68 */ PUSH_ID, IMUL_IZ, PUSH_IB, IMUL_IB, NONE, NONE, NONE, NONE,
    /* 0x70 */ JCC, JCC, JCC, JCC, JCC, JCC, JCC, JCC,
    /* 0x78 */ JCC, JCC, JCC, JCC, JCC, JCC, JCC, JCC,
    /* 0x80 */ NONE, NONE, NONE, NONE, TEST_8, TEST, XCHG_8, XCHG,
    /* 0x88 */ STORE_8, STORE, LOAD_8, LOAD, FROM_GS, LEA, TO_GS, POP_RM,
    /* 0x90 */ NONE, XCHG_ACC, XCHG_ACC, XCHG_ACC, XCHG_ACC, XCHG_ACC, XCHG_ACC, XCHG_ACC,
    /* 0x98 */ CBW, CWD, NONE, NONE, PUSHFD, POPFD, SAHF, LAHF,
    /* 0xA0 */ LOAD_AL, LOAD_ACC, STORE_AL, STORE_ACC, string!(Movs, Byte, Rep), string!(Movs, Vary, Rep), string!(Cmps, Byte, Repe), string!(Cmps, Vary, Repe),
    /* 0xA8 */ TEST_AL, TEST_ACC, string!(Stos, Byte, Rep), string!(Stos, Vary, Rep), string!(Lods, Byte, Rep), string!(Lods, Vary, Rep), string!(Scas, Byte, Repe), string!(Scas, Vary, Repe),
    /* 0xB0 */ SET_8, SET_8, SET_8, SET_8, SET_8, SET_8, SET_8, SET_8,
    /* 0xB8 */ SET, SET, SET, SET, SET, SET, SET, SET,
    /* 0xC0 */ NONE, NONE, RET_IW, RET, NONE, NONE, MOV_C6, MOV_C7,
    /* 0xC8 */ NONE, LEAVE, NONE, NONE, INT3, NONE, NONE, NONE,
    /* 0xD0 */ NONE, NONE, NONE, NONE, NONE, NONE, NONE, XLAT,
    /* 0xD8 */ NONE, NONE, NONE, NONE, NONE, NONE, NONE, NONE,
    /* 0xE0 */ counted!(Ne), counted!(E), counted!(Plain), counted!(Ecxz), NONE, NONE, NONE, NONE,
    /* 0xE8 */ CALL, JMP_ID, NONE, JMP_IB, NONE, NONE, NONE, NONE,
    /* 0xF0 */ NONE, NONE, NONE, NONE, HLT, flag!(Cmc), NONE, NONE,
    /* 0xF8 */ flag!(Clc), flag!(Stc), NONE, NONE, flag!(Cld), flag!(Std), NONE, NONE,
];

// The opcodes behind 0F that have one form.
#[rattlefmt::skip]
static TWO_BYTE: [Option<Form>; 256] = [
    /* 0x00 */ NONE, NONE, NONE, NONE, NONE, NONE, NONE, NONE,
    /* 0x08 */ NONE, NONE, NONE, UD2, NONE, NONE, NONE, NONE,
    /* 0x10 */ NONE, NONE, NONE, NONE, NONE, NONE, NONE, NONE,
    /* 0x18 */ NONE, NONE, NONE, NONE, NONE, NONE, NONE, NOP_RM,
    /* 0x20 */ NONE, NONE, NONE, NONE, NONE, NONE, NONE, NONE,
    /* 0x28 */ NONE, NONE, NONE, NONE, NONE, NONE, NONE, NONE,
    /* 0x30 */ NONE, NONE, NONE, NONE, NONE, NONE, NONE, NONE,
    /* 0x38 */ NONE, NONE, NONE, NONE, NONE, NONE, NONE, NONE,
    /* 0x40 */ CMOV, CMOV, CMOV, CMOV, CMOV, CMOV, CMOV, CMOV,
    /* 0x48 */ CMOV, CMOV, CMOV, CMOV, CMOV, CMOV, CMOV, CMOV,
    /* 0x50 */ NONE, NONE, NONE, NONE, NONE, NONE, NONE, NONE,
    /* 0x58 */ NONE, NONE, NONE, NONE, NONE, NONE, NONE, NONE,
    /* 0x60 */ NONE, NONE, NONE, NONE, NONE, NONE, NONE, NONE,
    /* 0x68 */ NONE, NONE, NONE, NONE, NONE, NONE, NONE, NONE,
    /* 0x70 */ NONE, NONE, NONE, NONE, NONE, NONE, NONE, NONE,
    /* 0x78 */ NONE, NONE, NONE, NONE, NONE, NONE, NONE, NONE,
    /* 0x80 */ JCC_ID, JCC_ID, JCC_ID, JCC_ID, JCC_ID, JCC_ID, JCC_ID, JCC_ID,
    /* 0x88 */ JCC_ID, JCC_ID, JCC_ID, JCC_ID, JCC_ID, JCC_ID, JCC_ID, JCC_ID,
    /* 0x90 */ SETCC, SETCC, SETCC, SETCC, SETCC, SETCC, SETCC, SETCC,
    /* 0x98 */ SETCC, SETCC, SETCC, SETCC, SETCC, SETCC, SETCC, SETCC,
    /* 0xA0 */ NONE, NONE, CPUID, bit!(Bt), SHLD_IB, SHLD_CL, NONE, NONE,
    /* 0xA8 */ NONE, NONE, NONE, bit!(Bts), SHRD_IB, SHRD_CL, NONE, IMUL,
    /* 0xB0 */ CMPXCHG_8, CMPXCHG, NONE, bit!(Btr), NONE, NONE, MOVZX_8, MOVZX_16,
    /* 0xB8 */ NONE, NONE, NONE, bit!(Btc), BSF, BSR, MOVSX_8, MOVSX_16,
    /* 0xC0 */ XADD_8, XADD, NONE, NONE, NONE, NONE, NONE, NONE,
    /* 0xC8 */ BSWAP, BSWAP, BSWAP, BSWAP, BSWAP, BSWAP, BSWAP, BSWAP,
    /* 0xD0 */ NONE, NONE, NONE, NONE, NONE, NONE, NONE, NONE,
    /* 0xD8 */ NONE, NONE, NONE, NONE, NONE, NONE, NONE, NONE,
    /* 0xE0 */ NONE, NONE, NONE, NONE, NONE, NONE, NONE, NONE,
    /* 0xE8 */ NONE, NONE, NONE, NONE, NONE, NONE, NONE, NONE,
    /* 0xF0 */ NONE, NONE, NONE, NONE, NONE, NONE, NONE, NONE,
    /* 0xF8 */ NONE, NONE, NONE, NONE, NONE, NONE, NONE, NONE,
];

/// The forms at a one-byte opcode.
pub fn one_byte(opcode: u8) -> &'static [Form]
    ensures { result.now ≡ forms_at opcode (rows_behind []) }
{
    match one_byte_single(opcode) {
        Some(form) => slice::from_ref(form),
        None => one_byte_group(opcode),
    }
}

// The form at a one-byte opcode that has one.
fn one_byte_single(opcode: u8) -> &'static Option<Form>
    ensures { option_to_list result.now ≡ single_at opcode [] }
{
    &ONE_BYTE[opcode as usize]
}

// The forms at a one-byte opcode that has several.
fn one_byte_group(opcode: u8) -> &'static [Form]
    ensures { result.now ≡ group_at opcode [] }
{
    match opcode {
        0x80 => &GROUP_80,
        0x81 => &GROUP_81,
        0x83 => &GROUP_83,
        0x90 => &GROUP_90,
        0xC0 => &GROUP_C0,
        0xC1 => &GROUP_C1,
        0xD0 => &GROUP_D0,
        0xD1 => &GROUP_D1,
        0xD2 => &GROUP_D2,
        0xD3 => &GROUP_D3,
        0xF6 => &GROUP_F6,
        0xF7 => &GROUP_F7,
        0xFE => &GROUP_FE,
        0xFF => &GROUP_FF,
        _ => &[],
    }
}

/// The forms at an opcode behind 0F.
pub fn two_byte(opcode: u8) -> &'static [Form]
    ensures { result.now ≡ forms_at opcode (rows_behind (0x0F ∷ [])) }
{
    match two_byte_single(opcode) {
        Some(form) => slice::from_ref(form),
        None => two_byte_group(opcode),
    }
}

// The form at an opcode behind 0F that has one.
fn two_byte_single(opcode: u8) -> &'static Option<Form>
    ensures { option_to_list result.now ≡ single_at opcode (0x0F ∷ []) }
{
    &TWO_BYTE[opcode as usize]
}

// The forms at an opcode behind 0F that has several.
fn two_byte_group(opcode: u8) -> &'static [Form]
    ensures { result.now ≡ group_at opcode (0x0F ∷ []) }
{
    match opcode {
        0xBA => &GROUP_BA,
        _ => &[],
    }
}

/// The form behind CD, where the byte is 80.
pub fn interrupt(number: u8) -> Option<Form>
    ensures { option_to_list result ≡ forms_at number (rows_behind (0xCD ∷ [])) }
{
    if number == 0x80 { INT80 } else { NONE }
}

/// The form behind 0F 1E, where the byte is FB.
pub fn hint(opcode: u8) -> Option<Form>
    ensures { option_to_list result ≡ forms_at opcode (rows_behind (0x0F ∷ 0x1E ∷ [])) }
{
    if opcode == 0xFB { ENDBR } else { NONE }
}
