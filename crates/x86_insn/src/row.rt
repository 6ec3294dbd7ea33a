//! The columns of the spelling table: where an instruction's bytes stand, and what they spell. Intel SDM,
//! volume 2, chapter 2 and appendix A; the choice of kinds is this project's own.

use crate::insn::{AluOp, BitOp, FlagOp, LoopKind, Reg, Rep, Rm, ShiftOp, StrOp, UnOp, Width};

/// The bytes before the opcode byte.
#[derive(Clone, Copy)]
pub enum Lead {
    /// None: the one-byte opcode map.
    Bare,
    /// 0F: the two-byte opcode map.
    Escape,
    /// CD, the interrupt whose number is taken for the opcode byte.
    Interrupt,
    /// 0F 1E, the hint whose ModRM byte is taken for the opcode byte.
    Hint,
}

/// Whether a ModRM byte follows the opcode, and what it may name.
#[derive(Clone, Copy)]
pub enum Layout {
    /// There is no ModRM byte.
    NoModrm,
    /// A register or memory.
    Any,
    /// Memory alone.
    Memory,
    /// A register alone.
    Register,
}

impl Layout {
    ghost use Rattle.std.specs.Prelude.{◌≡◌};
    ghost use Rattle.x86_insn.specs.Spelling.{has_modrm, takes_operand};

    /// Whether a ModRM byte follows the opcode.
    pub fn has_modrm(self) -> bool
        ensures { result ≡ has_modrm self }
    {
        !matches!(self, Layout::NoModrm)
    }

    /// Whether ModRM may name memory, or a register where `memory` is false.
    pub fn takes(self, memory: bool) -> bool
        ensures { result ≡ takes_operand self memory }
    {
        match self {
            Layout::NoModrm | Layout::Any => true,
            Layout::Memory => memory,
            Layout::Register => !memory,
        }
    }
}

/// The immediate after the other operand bytes.
#[derive(Clone, Copy)]
pub enum Immediate {
    Absent,
    /// One byte.
    Ib,
    /// One byte, extended by its sign to the operand's width.
    SignedIb,
    /// Two bytes.
    Iw,
    /// Four bytes.
    Id,
    /// Two bytes under the prefix 66, else four.
    Iz,
}

/// The operand's width.
#[derive(Clone, Copy)]
pub enum Size {
    /// 8 bits. The prefix 66 may not stand.
    Byte,
    /// 16 bits under the prefix 66, else 32.
    Vary,
    /// 32 bits. The prefix 66 may not stand.
    Dword,
}

impl Size {
    ghost use Rattle.std.specs.Prelude.{◌≡◌};
    ghost use Rattle.x86_insn.specs.Spelling.{width_of, takes_word};

    /// The operand's width, by whether the prefix 66 stands.
    pub fn width(self, word: bool) -> Width
        ensures { result ≡ width_of self word }
    {
        match self {
            Size::Byte => Width::B,
            Size::Vary => { if word { Width::W } else { Width::D } }
            Size::Dword => Width::D,
        }
    }

    /// Whether the prefix 66 may stand.
    pub fn takes_word(self) -> bool
        ensures { result ≡ takes_word self }
    {
        matches!(self, Size::Vary)
    }
}

/// Which of the prefixes F2 and F3 may stand.
#[derive(Clone, Copy)]
pub enum Repeat {
    /// Neither.
    Never,
    /// F3, which changes nothing.
    Idle,
    /// F3, which has to stand.
    Needed,
    /// F3, which repeats.
    Rep,
    /// F3 or F2, which repeat while the elements are equal or differ.
    Repe,
}

impl Repeat {
    ghost use Rattle.std.specs.Prelude.{◌≡◌};
    ghost use Rattle.x86_insn.specs.Spelling.{takes_repeat};

    /// Whether this prefix, or none, may stand.
    pub fn takes(self, rep: Rep) -> bool
        ensures { result ≡ takes_repeat self rep }
    {
        match rep {
            Rep::Once => !matches!(self, Repeat::Needed),
            Rep::F3 => !matches!(self, Repeat::Never),
            Rep::F2 => matches!(self, Repeat::Repe),
        }
    }
}

/// What a row spells, and of which operands: `Rm` is the operand that ModRM names, `Reg` the register in ModRM's
/// reg field or in the opcode, `Acc` AL, AX or EAX, `Imm` the immediate, `At` memory at the immediate.
#[derive(Clone, Copy)]
pub enum Kind {
    AluRmReg(AluOp),
    AluRegRm(AluOp),
    AluAccImm(AluOp),
    AluRmImm(AluOp),
    TestRmReg,
    TestAccImm,
    TestRmImm,
    MovRmReg,
    MovRegRm,
    MovRegImm,
    MovRmImm,
    MovAccAt,
    MovAtAcc,
    XchgRmReg,
    XchgRegAcc,
    Lea,
    /// Whether the extension is by sign, and the source's width.
    Movx(bool, Width),
    Bswap,
    PushReg,
    PushImm,
    PushRm,
    PopReg,
    PopRm,
    /// Up or down.
    BumpReg(bool),
    BumpRm(bool),
    Unary(UnOp),
    /// Signed or unsigned.
    Mul(bool),
    Div(bool),
    ImulRegRm,
    ImulRegRmImm,
    ShiftImm(ShiftOp),
    ShiftOne(ShiftOp),
    ShiftCl(ShiftOp),
    /// Left or right.
    DoubleImm(bool),
    DoubleCl(bool),
    BitReg(BitOp),
    BitImm(BitOp),
    /// Up or down.
    Scan(bool),
    Cmpxchg,
    Xadd,
    Set,
    Cmov,
    Cbw,
    Cwd,
    Str(StrOp),
    Flag(FlagOp),
    Pushad,
    Popad,
    Pushfd,
    Popfd,
    Leave,
    Xlat,
    Lahf,
    Sahf,
    Nop,
    Pause,
    Endbr,
    ToGs,
    FromGs,
    Cpuid,
    Jump,
    Branch,
    Loop(LoopKind),
    Call,
    JumpVia,
    CallVia,
    Ret,
    Int80,
    Int3,
    Hlt,
    Ud2,
}

/// What follows a row's opcode byte, which prefixes may stand before it, and what it spells.
#[derive(Clone, Copy)]
pub struct Form {
    /// What ModRM's reg field has to be; none where it names a register, or where there is no ModRM byte.
    pub digit: Option<u8>,
    pub layout: Layout,
    pub immediate: Immediate,
    pub size: Size,
    /// Whether the prefix F0 may stand, where the operand is memory.
    pub lock: bool,
    pub repeat: Repeat,
    pub kind: Kind,
}

impl Form {
    ghost use Rattle.std.specs.Prelude.{◌≡◌};
    ghost use Rattle.x86_insn.specs.Spelling.{takes_gs, takes_marks};

    /// Whether prefixes that set these marks may stand before it.
    #[inline(always)]
    pub fn takes_marks(&self, marks: Marks) -> bool
        ensures { result ≡ takes_marks self.now marks }
    {
        (!marks.word || self.size.takes_word())
            && self.repeat.takes(marks.rep)
            && (!marks.lock || self.lock)
            && (!marks.gs || self.takes_gs())
    }

    /// Whether the prefix 65 may stand, where the operand is memory: before an operand that is accessed.
    #[cold]
    pub fn takes_gs(&self) -> bool
        ensures { result ≡ takes_gs self.now }
    {
        match self.kind {
            Kind::Lea | Kind::Nop => false,
            Kind::MovAccAt | Kind::MovAtAcc => true,
            _ => self.layout.has_modrm(),
        }
    }
}

/// A row of the spelling table.
#[derive(Clone, Copy)]
pub struct Row {
    pub lead: Lead,
    /// The first opcode byte.
    pub opcode: u8,
    /// How many opcode bytes there are from it on: 8 where a register is added, 16 where a condition is.
    pub span: u8,
    pub form: Form,
}

/// What the prefixes of an instruction set.
#[derive(Clone, Copy)]
pub struct Marks {
    /// 66 stands.
    pub word: bool,
    /// F0 stands.
    pub lock: bool,
    /// Whether F3 or F2 stands.
    pub rep: Rep,
    /// 65 stands.
    pub gs: bool,
}

/// The operands that an instruction's bytes name, for any kind of row.
#[derive(Clone, Copy)]
pub struct Operands {
    pub width: Width,
    pub marks: Marks,
    /// The opcode byte: its low three bits may name a register, its low four bits a condition.
    pub opcode: u8,
    /// The register in ModRM's reg field.
    pub reg: Reg,
    /// The operand that ModRM names.
    pub rm: Rm,
    /// The immediate, after sign extension modulo 2 to the width; 0 where there is none.
    pub immediate: u32,
}
