//! The names of registers, conditions and operations. Intel SDM, volume 2.

ghost use Rattle.std.specs.Prelude.{◌≡◌};
ghost use Rattle.insn_text.specs.Names.{alu_name as alu_name_of, bit_name as bit_name_of, by_sign as by_sign_of, condition_name as condition_name_of, doubling_name as doubling_name_of, element_name as element_name_of, ending as ending_of, flag_name as flag_name_of, front_word as front_word_of, lock_word as lock_word_of, loop_name as loop_name_of, register_name as register_name_of, repeat_word as repeat_word_of, segment_word as segment_word_of, shift_name as shift_name_of, stem as stem_of, string_name as string_name_of, unary_name as unary_name_of, widening_name as widening_name_of, width_word as width_word_of};

use x86_insn::{AluOp, BitOp, Cond, FlagOp, Insn, LoopKind, Reg, Rep, ShiftOp, StrOp, UnOp, Width};

/// The name of a register, as far as a width reaches.
pub fn register_name(width: Width, reg: Reg) -> &'static str
    ensures { result.now ≡ register_name_of width reg }
{
    match width {
        Width::B => byte_name(reg),
        Width::W => word_name(reg),
        Width::D => whole_name(reg),
    }
}

// AL to BL, then AH to BH.
fn byte_name(reg: Reg) -> &'static str
    ensures { result.now ≡ register_name_of Width.B reg }
{
    match reg {
        Reg::Eax => "al",
        Reg::Ecx => "cl",
        Reg::Edx => "dl",
        Reg::Ebx => "bl",
        Reg::Esp => "ah",
        Reg::Ebp => "ch",
        Reg::Esi => "dh",
        Reg::Edi => "bh",
    }
}

// AX to DI.
fn word_name(reg: Reg) -> &'static str
    ensures { result.now ≡ register_name_of Width.W reg }
{
    match reg {
        Reg::Eax => "ax",
        Reg::Ecx => "cx",
        Reg::Edx => "dx",
        Reg::Ebx => "bx",
        Reg::Esp => "sp",
        Reg::Ebp => "bp",
        Reg::Esi => "si",
        Reg::Edi => "di",
    }
}

// EAX to EDI.
fn whole_name(reg: Reg) -> &'static str
    ensures { result.now ≡ register_name_of Width.D reg }
{
    match reg {
        Reg::Eax => "eax",
        Reg::Ecx => "ecx",
        Reg::Edx => "edx",
        Reg::Ebx => "ebx",
        Reg::Esp => "esp",
        Reg::Ebp => "ebp",
        Reg::Esi => "esi",
        Reg::Edi => "edi",
    }
}

/// The word in front of memory of a width.
pub fn width_word(width: Width) -> &'static str
    ensures { result.now ≡ width_word_of width }
{
    match width {
        Width::B => "byte ",
        Width::W => "word ",
        Width::D => "dword ",
    }
}

/// The word before the brackets of an address, where it is relative to GS.
pub fn segment_word(gs: bool) -> &'static str
    ensures { result.now ≡ segment_word_of gs }
{
    if gs { "gs:" } else { "" }
}

// The letters of a condition.
fn condition_name(cond: Cond) -> &'static str
    ensures { result.now ≡ condition_name_of cond }
{
    match cond {
        Cond::O => "o",
        Cond::No => "no",
        Cond::B => "b",
        Cond::Ae => "ae",
        Cond::E => "e",
        Cond::Ne => "ne",
        Cond::Be => "be",
        Cond::A => "a",
        Cond::S => "s",
        Cond::Ns => "ns",
        Cond::P => "p",
        Cond::Np => "np",
        Cond::L => "l",
        Cond::Ge => "ge",
        Cond::Le => "le",
        Cond::G => "g",
    }
}

// The letter of the elements of a string instruction.
fn element_name(width: Width) -> &'static str
    ensures { result.now ≡ element_name_of width }
{
    match width {
        Width::B => "b",
        Width::W => "w",
        Width::D => "d",
    }
}

/// What follows an instruction's stem in its mnemonic: a condition, or the width of a string's elements.
pub fn ending(insn: &Insn) -> &'static str
    ensures { result.now ≡ ending_of insn.now }
{
    match *insn {
        Insn::Branch { cond, .. } | Insn::Set { cond, .. } | Insn::Cmov { cond, .. } =>
            condition_name(cond),
        Insn::Str { width, .. } => element_name(width),
        _ => "",
    }
}

// The name of an operation on two operands.
fn alu_name(op: AluOp) -> &'static str
    ensures { result.now ≡ alu_name_of op }
{
    match op {
        AluOp::Add => "add",
        AluOp::Or => "or",
        AluOp::Adc => "adc",
        AluOp::Sbb => "sbb",
        AluOp::And => "and",
        AluOp::Sub => "sub",
        AluOp::Xor => "xor",
        AluOp::Cmp => "cmp",
    }
}

// The name of a shift or rotation.
fn shift_name(op: ShiftOp) -> &'static str
    ensures { result.now ≡ shift_name_of op }
{
    match op {
        ShiftOp::Rol => "rol",
        ShiftOp::Ror => "ror",
        ShiftOp::Rcl => "rcl",
        ShiftOp::Rcr => "rcr",
        ShiftOp::Shl => "shl",
        ShiftOp::Shr => "shr",
        ShiftOp::Sar => "sar",
    }
}

// The name of an operation on one operand.
fn unary_name(op: UnOp) -> &'static str
    ensures { result.now ≡ unary_name_of op }
{
    match op {
        UnOp::Not => "not",
        UnOp::Neg => "neg",
    }
}

// The name of an operation on a bit.
fn bit_name(op: BitOp) -> &'static str
    ensures { result.now ≡ bit_name_of op }
{
    match op {
        BitOp::Bt => "bt",
        BitOp::Bts => "bts",
        BitOp::Btr => "btr",
        BitOp::Btc => "btc",
    }
}

// The name of a string operation.
fn string_name(op: StrOp) -> &'static str
    ensures { result.now ≡ string_name_of op }
{
    match op {
        StrOp::Movs => "movs",
        StrOp::Cmps => "cmps",
        StrOp::Stos => "stos",
        StrOp::Lods => "lods",
        StrOp::Scas => "scas",
    }
}

// The name of an operation on a flag.
fn flag_name(op: FlagOp) -> &'static str
    ensures { result.now ≡ flag_name_of op }
{
    match op {
        FlagOp::Cmc => "cmc",
        FlagOp::Clc => "clc",
        FlagOp::Stc => "stc",
        FlagOp::Cld => "cld",
        FlagOp::Std => "std",
    }
}

// The name of a counted loop.
fn loop_name(kind: LoopKind) -> &'static str
    ensures { result.now ≡ loop_name_of kind }
{
    match kind {
        LoopKind::Ne => "loopne",
        LoopKind::E => "loope",
        LoopKind::Plain => "loop",
        LoopKind::Ecxz => "jecxz",
    }
}

// The name of a widening within the accumulator.
fn widening_name(width: Width) -> &'static str
    ensures { result.now ≡ widening_name_of width }
{
    match width {
        Width::B | Width::W => "cbw",
        Width::D => "cwde",
    }
}

// The name of a widening into the data register.
fn doubling_name(width: Width) -> &'static str
    ensures { result.now ≡ doubling_name_of width }
{
    match width {
        Width::B | Width::W => "cwd",
        Width::D => "cdq",
    }
}

// A name for signed operands, or one for unsigned or unmarked ones.
fn by_sign(is_signed: bool, signed: &'static str, unsigned: &'static str) -> &'static str
    ensures { result.now ≡ by_sign_of is_signed signed.now unsigned.now }
{
    if is_signed { signed } else { unsigned }
}

/// An instruction's mnemonic but for its ending.
pub fn stem(insn: &Insn) -> &'static str
    ensures { result.now ≡ stem_of insn.now }
{
    match *insn {
        Insn::Alu { op, .. } => alu_name(op),
        Insn::Test { .. } => "test",
        Insn::Mov { .. } | Insn::ToGs { .. } | Insn::FromGs { .. } => "mov",
        Insn::Xchg { .. } => "xchg",
        Insn::Lea { .. } => "lea",
        Insn::Movx { signed, .. } => by_sign(signed, "movsx", "movzx"),
        Insn::Bswap { .. } => "bswap",
        Insn::Push { .. } => "push",
        Insn::Pop { .. } => "pop",
        Insn::Pushad => "pushad",
        Insn::Popad => "popad",
        Insn::Pushfd => "pushfd",
        Insn::Popfd => "popfd",
        Insn::Leave => "leave",
        Insn::Bump { up, .. } => by_sign(up, "inc", "dec"),
        Insn::Unary { op, .. } => unary_name(op),
        Insn::Mul { signed, .. } => by_sign(signed, "imul", "mul"),
        Insn::Div { signed, .. } => by_sign(signed, "idiv", "div"),
        Insn::Imul { .. } => "imul",
        Insn::Shift { op, .. } => shift_name(op),
        Insn::Double { left, .. } => by_sign(left, "shld", "shrd"),
        Insn::Bit { op, .. } => bit_name(op),
        Insn::Scan { up, .. } => by_sign(up, "bsf", "bsr"),
        Insn::Cmpxchg { .. } => "cmpxchg",
        Insn::Xadd { .. } => "xadd",
        Insn::Set { .. } => "set",
        Insn::Cmov { .. } => "cmov",
        Insn::Cbw { width } => widening_name(width),
        Insn::Cwd { width } => doubling_name(width),
        Insn::Str { op, .. } => string_name(op),
        Insn::Xlat => "xlatb",
        Insn::Lahf => "lahf",
        Insn::Sahf => "sahf",
        Insn::Flag { op } => flag_name(op),
        Insn::Nop => "nop",
        Insn::Pause => "pause",
        Insn::Endbr => "endbr32",
        Insn::Cpuid => "cpuid",
        Insn::Jump { .. } | Insn::JumpVia { .. } => "jmp",
        Insn::Branch { .. } => "j",
        Insn::Loop { kind, .. } => loop_name(kind),
        Insn::Call { .. } | Insn::CallVia { .. } => "call",
        Insn::Ret { .. } => "ret",
        Insn::Int80 => "int",
        Insn::Int3 => "int3",
        Insn::Hlt => "hlt",
        Insn::Ud2 => "ud2",
    }
}

// The word in front of a locked instruction.
fn lock_word(lock: bool) -> &'static str
    ensures { result.now ≡ lock_word_of lock }
{
    if lock { "lock " } else { "" }
}

// The word of a repeat before an operation: F3 repeats a comparison while it finds equal elements.
fn repeat_word(rep: Rep, op: StrOp) -> &'static str
    ensures { result.now ≡ repeat_word_of rep op }
{
    match (rep, op) {
        (Rep::Once, _) => "",
        (Rep::F2, _) => "repne ",
        (Rep::F3, StrOp::Movs | StrOp::Stos | StrOp::Lods) => "rep ",
        (Rep::F3, StrOp::Cmps | StrOp::Scas) => "repe ",
    }
}

/// The word in front of an instruction's mnemonic.
pub fn front_word(insn: &Insn) -> &'static str
    ensures { result.now ≡ front_word_of insn.now }
{
    match *insn {
        Insn::Alu { lock, .. }
        | Insn::Xchg { lock, .. }
        | Insn::Bump { lock, .. }
        | Insn::Unary { lock, .. }
        | Insn::Bit { lock, .. }
        | Insn::Cmpxchg { lock, .. }
        | Insn::Xadd { lock, .. } => lock_word(lock),
        Insn::Str { op, width: _, rep } => repeat_word(rep, op),
        _ => "",
    }
}
