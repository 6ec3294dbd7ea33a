//! Instructions and their operands. The names are those of the Intel SDM, volume 2.

ghost use Rattle.std.specs.Prelude.{◌≡◌};
ghost use Rattle.x86_insn.specs.Flow.{flow_of, falls};

/// The width of an operand: 8, 16 or 32 bits.
#[derive(Clone, Copy)]
pub enum Width {
    B,
    W,
    D,
}

impl Width {
    ghost use Rattle.std.specs.Prelude.{◌≡◌, ◌≤◌};
    ghost use Rattle.x86_insn.specs.Values.{width_bytes};

    /// How many bytes a value has: 1, 2 or 4.
    pub fn bytes(self) -> usize
        ensures is { result ≡ width_bytes self }
        ensures at_most { result ≤ 4 }
    {
        match self {
            Width::B => 1,
            Width::W => 2,
            Width::D => 4,
        }
    }
}

/// A general register, in the order of its number.
#[derive(Clone, Copy)]
pub enum Reg {
    Eax,
    Ecx,
    Edx,
    Ebx,
    Esp,
    Ebp,
    Esi,
    Edi,
}

impl Reg {
    ghost use Rattle.std.specs.Prelude.{◌≡◌, ◌<◌};
    ghost use Rattle.x86_insn.specs.State.{reg_number};

    /// The register's number, from 0 to 7.
    pub fn number(self) -> usize
        ensures is { result ≡ reg_number self }
        ensures low { result < 8 }
    {
        match self {
            Reg::Eax => 0,
            Reg::Ecx => 1,
            Reg::Edx => 2,
            Reg::Ebx => 3,
            Reg::Esp => 4,
            Reg::Ebp => 5,
            Reg::Esi => 6,
            Reg::Edi => 7,
        }
    }
}

/// A memory operand: base, index with its factor (1, 2, 4 or 8), whether GS's base is added, and displacement.
#[derive(Clone, Copy)]
pub struct Mem {
    pub base: Option<Reg>,
    pub index: Option<(Reg, u8)>,
    pub gs: bool,
    pub disp: u32,
}

/// An operand that a ModRM byte names.
#[derive(Clone, Copy)]
pub enum Rm {
    R(Reg),
    M(Mem),
}

/// An operand that is only read. An immediate is kept modulo 2 to the width.
#[derive(Clone, Copy)]
pub enum Src {
    R(Reg),
    M(Mem),
    Imm(u32),
}

/// How far a shift goes.
#[derive(Clone, Copy)]
pub enum Count {
    Imm(u8),
    Cl,
}

/// A condition on the flags, in the order of its number.
#[derive(Clone, Copy)]
pub enum Cond {
    O,
    No,
    B,
    Ae,
    E,
    Ne,
    Be,
    A,
    S,
    Ns,
    P,
    Np,
    L,
    Ge,
    Le,
    G,
}

impl Cond {
    ghost use Rattle.std.specs.Prelude.{◌≡◌, ◌<◌};
    ghost use Rattle.x86_insn.specs.Meaning.{cond_of, cond_number};

    /// The condition's number, from 0 to 15.
    pub fn number(self) -> u8
        ensures is { result ≡ cond_number self }
        ensures low { result < 16 }
        ensures back { cond_of result ≡ self }
    {
        match self {
            Cond::O => 0,
            Cond::No => 1,
            Cond::B => 2,
            Cond::Ae => 3,
            Cond::E => 4,
            Cond::Ne => 5,
            Cond::Be => 6,
            Cond::A => 7,
            Cond::S => 8,
            Cond::Ns => 9,
            Cond::P => 10,
            Cond::Np => 11,
            Cond::L => 12,
            Cond::Ge => 13,
            Cond::Le => 14,
            Cond::G => 15,
        }
    }
}

#[derive(Clone, Copy)]
pub enum AluOp {
    Add,
    Or,
    Adc,
    Sbb,
    And,
    Sub,
    Xor,
    Cmp,
}

#[derive(Clone, Copy)]
pub enum ShiftOp {
    Rol,
    Ror,
    Rcl,
    Rcr,
    Shl,
    Shr,
    Sar,
}

#[derive(Clone, Copy)]
pub enum UnOp {
    Not,
    Neg,
}

#[derive(Clone, Copy)]
pub enum BitOp {
    Bt,
    Bts,
    Btr,
    Btc,
}

#[derive(Clone, Copy)]
pub enum StrOp {
    Movs,
    Cmps,
    Stos,
    Lods,
    Scas,
}

/// Whether a string instruction is repeated: once, by F3 or by F2.
#[derive(Clone, Copy)]
pub enum Rep {
    Once,
    F3,
    F2,
}

#[derive(Clone, Copy)]
pub enum LoopKind {
    Ne,
    E,
    Plain,
    Ecxz,
}

#[derive(Clone, Copy)]
pub enum FlagOp {
    Cmc,
    Clc,
    Stc,
    Cld,
    Std,
}

/// An instruction. `rel` is the sign-extended displacement modulo 2^32 from the address after the
/// instruction to its target.
#[derive(Clone, Copy)]
pub enum Insn {
    Alu {
        op: AluOp,
        width: Width,
        lock: bool,
        dst: Rm,
        src: Src,
    },
    Test {
        width: Width,
        dst: Rm,
        src: Src,
    },
    Mov {
        width: Width,
        dst: Rm,
        src: Src,
    },
    Xchg {
        width: Width,
        lock: bool,
        dst: Rm,
        reg: Reg,
    },
    Lea {
        width: Width,
        dst: Reg,
        mem: Mem,
    },
    Movx {
        signed: bool,
        from: Width,
        to: Width,
        dst: Reg,
        src: Rm,
    },
    Bswap {
        reg: Reg,
    },
    Push {
        src: Src,
    },
    Pop {
        dst: Rm,
    },
    Pushad,
    Popad,
    Pushfd,
    Popfd,
    Leave,
    Bump {
        up: bool,
        width: Width,
        lock: bool,
        dst: Rm,
    },
    Unary {
        op: UnOp,
        width: Width,
        lock: bool,
        dst: Rm,
    },
    Mul {
        signed: bool,
        width: Width,
        src: Rm,
    },
    Div {
        signed: bool,
        width: Width,
        src: Rm,
    },
    Imul {
        width: Width,
        dst: Reg,
        src: Rm,
        imm: Option<u32>,
    },
    Shift {
        op: ShiftOp,
        width: Width,
        dst: Rm,
        count: Count,
    },
    Double {
        left: bool,
        dst: Rm,
        src: Reg,
        count: Count,
    },
    Bit {
        op: BitOp,
        width: Width,
        lock: bool,
        dst: Rm,
        index: Src,
    },
    Scan {
        up: bool,
        width: Width,
        dst: Reg,
        src: Rm,
    },
    Cmpxchg {
        width: Width,
        lock: bool,
        dst: Rm,
        src: Reg,
    },
    Xadd {
        width: Width,
        lock: bool,
        dst: Rm,
        src: Reg,
    },
    Set {
        cond: Cond,
        dst: Rm,
    },
    Cmov {
        cond: Cond,
        width: Width,
        dst: Reg,
        src: Rm,
    },
    Cbw {
        width: Width,
    },
    Cwd {
        width: Width,
    },
    Str {
        op: StrOp,
        width: Width,
        rep: Rep,
    },
    Xlat,
    Lahf,
    Sahf,
    Flag {
        op: FlagOp,
    },
    Nop,
    Pause,
    Endbr,
    Jump {
        rel: u32,
    },
    Branch {
        cond: Cond,
        rel: u32,
    },
    Loop {
        kind: LoopKind,
        rel: u32,
    },
    Call {
        rel: u32,
    },
    JumpVia {
        src: Rm,
    },
    CallVia {
        src: Rm,
    },
    Ret {
        drop: u16,
    },
    /// GS gets a selector, and the base of its descriptor.
    ToGs {
        src: Rm,
    },
    /// The selector of GS.
    FromGs {
        width: Width,
        dst: Rm,
    },
    Cpuid,
    Int80,
    Int3,
    Hlt,
    Ud2,
}

/// Where an instruction may go.
#[derive(Clone, Copy)]
pub enum Flow {
    Plain,
    Jump,
    Branch,
    Count,
    Call,
    JumpVia,
    CallVia,
    Return,
    Trap,
    System,
}

impl Insn {
    /// The instruction's flow: LOOP and its kin and JECXZ count, HLT, INT3 and UD2 trap, INT 0x80 is a
    /// system call.
    pub fn next_kind(&self) -> Flow
        ensures { result ≡ flow_of self.now }
    {
        match self {
            Insn::Jump { .. } => Flow::Jump,
            Insn::Branch { .. } => Flow::Branch,
            Insn::Loop { .. } => Flow::Count,
            Insn::Call { .. } => Flow::Call,
            Insn::JumpVia { .. } => Flow::JumpVia,
            Insn::CallVia { .. } => Flow::CallVia,
            Insn::Ret { .. } => Flow::Return,
            Insn::Int3 | Insn::Hlt | Insn::Ud2 => Flow::Trap,
            Insn::Int80 => Flow::System,
            Insn::Alu { .. }
            | Insn::Test { .. }
            | Insn::Mov { .. }
            | Insn::Xchg { .. }
            | Insn::Lea { .. }
            | Insn::Movx { .. }
            | Insn::Bswap { .. }
            | Insn::Push { .. }
            | Insn::Pop { .. }
            | Insn::Pushad
            | Insn::Popad
            | Insn::Pushfd
            | Insn::Popfd
            | Insn::Leave
            | Insn::Bump { .. }
            | Insn::Unary { .. }
            | Insn::Mul { .. }
            | Insn::Div { .. }
            | Insn::Imul { .. }
            | Insn::Shift { .. }
            | Insn::Double { .. }
            | Insn::Bit { .. }
            | Insn::Scan { .. }
            | Insn::Cmpxchg { .. }
            | Insn::Xadd { .. }
            | Insn::Set { .. }
            | Insn::Cmov { .. }
            | Insn::Cbw { .. }
            | Insn::Cwd { .. }
            | Insn::Str { .. }
            | Insn::Xlat
            | Insn::Lahf
            | Insn::Sahf
            | Insn::Flag { .. }
            | Insn::Nop
            | Insn::Pause
            | Insn::Endbr
            | Insn::ToGs { .. }
            | Insn::FromGs { .. }
            | Insn::Cpuid => Flow::Plain,
        }
    }
}

impl Flow {
    /// True exactly where the instruction after this one may be next.
    pub fn falls(&self) -> bool
        ensures { result ≡ falls self.now }
    {
        matches!(
            self,
            Flow::Plain | Flow::Branch | Flow::Count | Flow::System
        )
    }
}
