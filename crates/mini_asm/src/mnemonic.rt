//! The operation that a word names.

ghost use Rattle.std.specs.Prelude.{◌≡◌, codes};
ghost use Rattle.mini_asm.specs.Mnemonics.{alu_named as alu_named_of, condition_named as condition_named_of, conditional_named as conditional_named_of, flag_named as flag_named_of, high_condition_named as high_condition_named_of, high_mnemonic_named as high_mnemonic_named_of, lone_named as lone_named_of, low_condition_named as low_condition_named_of, low_mnemonic_named as low_mnemonic_named_of, mnemonic_named as mnemonic_named_of, moving_named as moving_named_of, shifting_named as shifting_named_of, single_named as single_named_of, string_named as string_named_of, transfer_named as transfer_named_of};

use mv_base::behind;
use x86_insn::{AluOp, BitOp, Cond, FlagOp, Insn, LoopKind, ShiftOp, StrOp, UnOp, Width};

/// The operation of a mnemonic, as far as the word tells it.
#[derive(Clone, Copy)]
pub(crate) enum Mnemonic {
    Alu(AluOp),
    Test,
    Mov,
    Xchg,
    Lea,
    /// A move with an extension, by the sign or not.
    Movx(bool),
    Bswap,
    Push,
    Pop,
    /// One up or down.
    Bump(bool),
    Unary(UnOp),
    /// A product, signed or not; the signed ones have further forms.
    Mul(bool),
    Div(bool),
    Shift(ShiftOp),
    /// A shift of two operands, to the left or not.
    Double(bool),
    Bit(BitOp),
    /// A search from the lowest bit up, or from the highest one down.
    Scan(bool),
    Cmpxchg,
    Xadd,
    Set(Cond),
    Cmov(Cond),
    Str(StrOp, Width),
    Jump,
    Branch(Cond),
    Loop(LoopKind),
    Call,
    Ret,
    Interrupt,
    /// An instruction that shows no operands.
    Lone(Insn),
}

/// Those of arithmetic and logic.
#[tactic(auto, unfolding(crate::specs::Mnemonics::alu_named))]
fn alu_named(word: &[u8]) -> Option<Mnemonic>
    ensures { result ≡ alu_named_of word.now }
{
    if word == b"add".as_slice() {
        Some(Mnemonic::Alu(AluOp::Add))
    } else if word == b"or".as_slice() {
        Some(Mnemonic::Alu(AluOp::Or))
    } else if word == b"adc".as_slice() {
        Some(Mnemonic::Alu(AluOp::Adc))
    } else if word == b"sbb".as_slice() {
        Some(Mnemonic::Alu(AluOp::Sbb))
    } else if word == b"and".as_slice() {
        Some(Mnemonic::Alu(AluOp::And))
    } else if word == b"sub".as_slice() {
        Some(Mnemonic::Alu(AluOp::Sub))
    } else if word == b"xor".as_slice() {
        Some(Mnemonic::Alu(AluOp::Xor))
    } else if word == b"cmp".as_slice() {
        Some(Mnemonic::Alu(AluOp::Cmp))
    } else {
        None
    }
}

/// Those of shifts and rotations.
#[tactic(auto, unfolding(crate::specs::Mnemonics::shifting_named))]
fn shifting_named(word: &[u8]) -> Option<Mnemonic>
    ensures { result ≡ shifting_named_of word.now }
{
    if word == b"rol".as_slice() {
        Some(Mnemonic::Shift(ShiftOp::Rol))
    } else if word == b"ror".as_slice() {
        Some(Mnemonic::Shift(ShiftOp::Ror))
    } else if word == b"rcl".as_slice() {
        Some(Mnemonic::Shift(ShiftOp::Rcl))
    } else if word == b"rcr".as_slice() {
        Some(Mnemonic::Shift(ShiftOp::Rcr))
    } else if word == b"shl".as_slice() {
        Some(Mnemonic::Shift(ShiftOp::Shl))
    } else if word == b"shr".as_slice() {
        Some(Mnemonic::Shift(ShiftOp::Shr))
    } else if word == b"sar".as_slice() {
        Some(Mnemonic::Shift(ShiftOp::Sar))
    } else if word == b"shld".as_slice() {
        Some(Mnemonic::Double(true))
    } else if word == b"shrd".as_slice() {
        Some(Mnemonic::Double(false))
    } else {
        None
    }
}

/// Those of operations on one operand.
#[tactic(auto, unfolding(crate::specs::Mnemonics::single_named))]
fn single_named(word: &[u8]) -> Option<Mnemonic>
    ensures { result ≡ single_named_of word.now }
{
    if word == b"not".as_slice() {
        Some(Mnemonic::Unary(UnOp::Not))
    } else if word == b"neg".as_slice() {
        Some(Mnemonic::Unary(UnOp::Neg))
    } else if word == b"inc".as_slice() {
        Some(Mnemonic::Bump(true))
    } else if word == b"dec".as_slice() {
        Some(Mnemonic::Bump(false))
    } else if word == b"mul".as_slice() {
        Some(Mnemonic::Mul(false))
    } else if word == b"imul".as_slice() {
        Some(Mnemonic::Mul(true))
    } else if word == b"div".as_slice() {
        Some(Mnemonic::Div(false))
    } else if word == b"idiv".as_slice() {
        Some(Mnemonic::Div(true))
    } else if word == b"bswap".as_slice() {
        Some(Mnemonic::Bswap)
    } else if word == b"push".as_slice() {
        Some(Mnemonic::Push)
    } else if word == b"pop".as_slice() {
        Some(Mnemonic::Pop)
    } else if word == b"ret".as_slice() {
        Some(Mnemonic::Ret)
    } else if word == b"int".as_slice() {
        Some(Mnemonic::Interrupt)
    } else {
        None
    }
}

/// Those of moves, tests and operations on bits.
#[tactic(auto, unfolding(crate::specs::Mnemonics::moving_named))]
fn moving_named(word: &[u8]) -> Option<Mnemonic>
    ensures { result ≡ moving_named_of word.now }
{
    if word == b"mov".as_slice() {
        Some(Mnemonic::Mov)
    } else if word == b"test".as_slice() {
        Some(Mnemonic::Test)
    } else if word == b"xchg".as_slice() {
        Some(Mnemonic::Xchg)
    } else if word == b"lea".as_slice() {
        Some(Mnemonic::Lea)
    } else if word == b"movsx".as_slice() {
        Some(Mnemonic::Movx(true))
    } else if word == b"movzx".as_slice() {
        Some(Mnemonic::Movx(false))
    } else if word == b"bsf".as_slice() {
        Some(Mnemonic::Scan(true))
    } else if word == b"bsr".as_slice() {
        Some(Mnemonic::Scan(false))
    } else if word == b"cmpxchg".as_slice() {
        Some(Mnemonic::Cmpxchg)
    } else if word == b"xadd".as_slice() {
        Some(Mnemonic::Xadd)
    } else if word == b"bt".as_slice() {
        Some(Mnemonic::Bit(BitOp::Bt))
    } else if word == b"bts".as_slice() {
        Some(Mnemonic::Bit(BitOp::Bts))
    } else if word == b"btr".as_slice() {
        Some(Mnemonic::Bit(BitOp::Btr))
    } else if word == b"btc".as_slice() {
        Some(Mnemonic::Bit(BitOp::Btc))
    } else {
        None
    }
}

/// Those of strings.
#[tactic(auto, unfolding(crate::specs::Mnemonics::string_named))]
fn string_named(word: &[u8]) -> Option<Mnemonic>
    ensures { result ≡ string_named_of word.now }
{
    if word == b"movsb".as_slice() {
        Some(Mnemonic::Str(StrOp::Movs, Width::B))
    } else if word == b"movsw".as_slice() {
        Some(Mnemonic::Str(StrOp::Movs, Width::W))
    } else if word == b"movsd".as_slice() {
        Some(Mnemonic::Str(StrOp::Movs, Width::D))
    } else if word == b"cmpsb".as_slice() {
        Some(Mnemonic::Str(StrOp::Cmps, Width::B))
    } else if word == b"cmpsw".as_slice() {
        Some(Mnemonic::Str(StrOp::Cmps, Width::W))
    } else if word == b"cmpsd".as_slice() {
        Some(Mnemonic::Str(StrOp::Cmps, Width::D))
    } else if word == b"stosb".as_slice() {
        Some(Mnemonic::Str(StrOp::Stos, Width::B))
    } else if word == b"stosw".as_slice() {
        Some(Mnemonic::Str(StrOp::Stos, Width::W))
    } else if word == b"stosd".as_slice() {
        Some(Mnemonic::Str(StrOp::Stos, Width::D))
    } else if word == b"lodsb".as_slice() {
        Some(Mnemonic::Str(StrOp::Lods, Width::B))
    } else if word == b"lodsw".as_slice() {
        Some(Mnemonic::Str(StrOp::Lods, Width::W))
    } else if word == b"lodsd".as_slice() {
        Some(Mnemonic::Str(StrOp::Lods, Width::D))
    } else if word == b"scasb".as_slice() {
        Some(Mnemonic::Str(StrOp::Scas, Width::B))
    } else if word == b"scasw".as_slice() {
        Some(Mnemonic::Str(StrOp::Scas, Width::W))
    } else if word == b"scasd".as_slice() {
        Some(Mnemonic::Str(StrOp::Scas, Width::D))
    } else {
        None
    }
}

/// Those of single flags, and of the accumulator.
#[tactic(auto, unfolding(crate::specs::Mnemonics::flag_named))]
fn flag_named(word: &[u8]) -> Option<Mnemonic>
    ensures { result ≡ flag_named_of word.now }
{
    if word == b"cmc".as_slice() {
        Some(Mnemonic::Lone(Insn::Flag { op: FlagOp::Cmc }))
    } else if word == b"clc".as_slice() {
        Some(Mnemonic::Lone(Insn::Flag { op: FlagOp::Clc }))
    } else if word == b"stc".as_slice() {
        Some(Mnemonic::Lone(Insn::Flag { op: FlagOp::Stc }))
    } else if word == b"cld".as_slice() {
        Some(Mnemonic::Lone(Insn::Flag { op: FlagOp::Cld }))
    } else if word == b"std".as_slice() {
        Some(Mnemonic::Lone(Insn::Flag { op: FlagOp::Std }))
    } else if word == b"cbw".as_slice() {
        Some(Mnemonic::Lone(Insn::Cbw { width: Width::W }))
    } else if word == b"cwde".as_slice() {
        Some(Mnemonic::Lone(Insn::Cbw { width: Width::D }))
    } else if word == b"cwd".as_slice() {
        Some(Mnemonic::Lone(Insn::Cwd { width: Width::W }))
    } else if word == b"cdq".as_slice() {
        Some(Mnemonic::Lone(Insn::Cwd { width: Width::D }))
    } else {
        None
    }
}

/// Those of what shows no operand.
#[tactic(auto, unfolding(crate::specs::Mnemonics::lone_named))]
fn lone_named(word: &[u8]) -> Option<Mnemonic>
    ensures { result ≡ lone_named_of word.now }
{
    if word == b"pushad".as_slice() {
        Some(Mnemonic::Lone(Insn::Pushad))
    } else if word == b"popad".as_slice() {
        Some(Mnemonic::Lone(Insn::Popad))
    } else if word == b"pushfd".as_slice() {
        Some(Mnemonic::Lone(Insn::Pushfd))
    } else if word == b"popfd".as_slice() {
        Some(Mnemonic::Lone(Insn::Popfd))
    } else if word == b"leave".as_slice() {
        Some(Mnemonic::Lone(Insn::Leave))
    } else if word == b"xlatb".as_slice() {
        Some(Mnemonic::Lone(Insn::Xlat))
    } else if word == b"lahf".as_slice() {
        Some(Mnemonic::Lone(Insn::Lahf))
    } else if word == b"sahf".as_slice() {
        Some(Mnemonic::Lone(Insn::Sahf))
    } else if word == b"nop".as_slice() {
        Some(Mnemonic::Lone(Insn::Nop))
    } else if word == b"pause".as_slice() {
        Some(Mnemonic::Lone(Insn::Pause))
    } else if word == b"endbr32".as_slice() {
        Some(Mnemonic::Lone(Insn::Endbr))
    } else if word == b"cpuid".as_slice() {
        Some(Mnemonic::Lone(Insn::Cpuid))
    } else if word == b"int3".as_slice() {
        Some(Mnemonic::Lone(Insn::Int3))
    } else if word == b"hlt".as_slice() {
        Some(Mnemonic::Lone(Insn::Hlt))
    } else if word == b"ud2".as_slice() {
        Some(Mnemonic::Lone(Insn::Ud2))
    } else {
        None
    }
}

/// Those of jumps, loops and calls.
#[tactic(auto, unfolding(crate::specs::Mnemonics::transfer_named))]
fn transfer_named(word: &[u8]) -> Option<Mnemonic>
    ensures { result ≡ transfer_named_of word.now }
{
    if word == b"jmp".as_slice() {
        Some(Mnemonic::Jump)
    } else if word == b"call".as_slice() {
        Some(Mnemonic::Call)
    } else if word == b"loopne".as_slice() {
        Some(Mnemonic::Loop(LoopKind::Ne))
    } else if word == b"loope".as_slice() {
        Some(Mnemonic::Loop(LoopKind::E))
    } else if word == b"loop".as_slice() {
        Some(Mnemonic::Loop(LoopKind::Plain))
    } else if word == b"jecxz".as_slice() {
        Some(Mnemonic::Loop(LoopKind::Ecxz))
    } else {
        None
    }
}

/// One of the first eight conditions.
#[tactic(auto, unfolding(crate::specs::Mnemonics::low_condition_named))]
fn low_condition_named(word: &[u8]) -> Option<Cond>
    ensures { result ≡ low_condition_named_of word.now }
{
    if word == b"o".as_slice() {
        Some(Cond::O)
    } else if word == b"no".as_slice() {
        Some(Cond::No)
    } else if word == b"b".as_slice() {
        Some(Cond::B)
    } else if word == b"ae".as_slice() {
        Some(Cond::Ae)
    } else if word == b"e".as_slice() {
        Some(Cond::E)
    } else if word == b"ne".as_slice() {
        Some(Cond::Ne)
    } else if word == b"be".as_slice() {
        Some(Cond::Be)
    } else if word == b"a".as_slice() {
        Some(Cond::A)
    } else {
        None
    }
}

/// One of the last eight conditions.
#[tactic(auto, unfolding(crate::specs::Mnemonics::high_condition_named))]
fn high_condition_named(word: &[u8]) -> Option<Cond>
    ensures { result ≡ high_condition_named_of word.now }
{
    if word == b"s".as_slice() {
        Some(Cond::S)
    } else if word == b"ns".as_slice() {
        Some(Cond::Ns)
    } else if word == b"p".as_slice() {
        Some(Cond::P)
    } else if word == b"np".as_slice() {
        Some(Cond::Np)
    } else if word == b"l".as_slice() {
        Some(Cond::L)
    } else if word == b"ge".as_slice() {
        Some(Cond::Ge)
    } else if word == b"le".as_slice() {
        Some(Cond::Le)
    } else if word == b"g".as_slice() {
        Some(Cond::G)
    } else {
        None
    }
}

/// The condition of some letters.
#[tactic(auto, unfolding(crate::specs::Mnemonics::condition_named))]
fn condition_named(word: &[u8]) -> Option<Cond>
    ensures { result ≡ condition_named_of word.now }
{
    if let Some(found) = low_condition_named(word) {
        Some(found)
    } else {
        high_condition_named(word)
    }
}

/// Those that end with a condition.
#[tactic(auto, unfolding(crate::specs::Mnemonics::conditional_named))]
fn conditional_named(word: &[u8]) -> Option<Mnemonic>
    ensures { result ≡ conditional_named_of word.now }
{
    if let Some(rest) = behind(b"set", word) {
        Some(Mnemonic::Set(condition_named(rest)?))
    } else if let Some(rest) = behind(b"cmov", word) {
        Some(Mnemonic::Cmov(condition_named(rest)?))
    } else {
        Some(Mnemonic::Branch(condition_named(behind(b"j", word)?)?))
    }
}

/// Those of moves and of arithmetic.
#[tactic(auto, unfolding(crate::specs::Mnemonics::low_mnemonic_named))]
fn low_mnemonic_named(word: &[u8]) -> Option<Mnemonic>
    ensures { result ≡ low_mnemonic_named_of word.now }
{
    if let Some(found) = alu_named(word) {
        Some(found)
    } else if let Some(found) = shifting_named(word) {
        Some(found)
    } else if let Some(found) = single_named(word) {
        Some(found)
    } else {
        moving_named(word)
    }
}

/// Those of strings, flags and transfers.
#[tactic(auto, unfolding(crate::specs::Mnemonics::high_mnemonic_named))]
fn high_mnemonic_named(word: &[u8]) -> Option<Mnemonic>
    ensures { result ≡ high_mnemonic_named_of word.now }
{
    if let Some(found) = string_named(word) {
        Some(found)
    } else if let Some(found) = flag_named(word) {
        Some(found)
    } else if let Some(found) = lone_named(word) {
        Some(found)
    } else if let Some(found) = transfer_named(word) {
        Some(found)
    } else {
        conditional_named(word)
    }
}

/// The operation that a word names.
#[tactic(auto, unfolding(crate::specs::Mnemonics::mnemonic_named))]
pub(crate) fn mnemonic_named(word: &[u8]) -> Option<Mnemonic>
    ensures { result ≡ mnemonic_named_of word.now }
{
    if let Some(found) = low_mnemonic_named(word) {
        Some(found)
    } else {
        high_mnemonic_named(word)
    }
}
