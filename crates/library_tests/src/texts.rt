//! Texts of instructions of each form, as the Intel SDM spells them.

use insn_text::text;
use std::alloc::Global;
use std::test::Fail;
use x86_insn::{
    AluOp, BitOp, Cond, Count, Insn, LoopKind, Mem, Reg, Rep, Rm, ShiftOp, Src, StrOp, Width,
};

// An effective address of a base and an index by 4.
const TABLE: Mem = Mem {
    base: Some(Reg::Ebx),
    index: Some((Reg::Ecx, 4)),
    disp: 0xFFFF_FFFC,
    gs: false,
};

// An effective address of an index alone, and one of a displacement alone.
const SCALED: Mem = Mem {
    base: None,
    index: Some((Reg::Edi, 1)),
    disp: 0,
    gs: false,
};

const FIXED: Mem = Mem {
    base: None,
    index: None,
    disp: 0,
    gs: false,
};

const TOP: Mem = Mem {
    base: Some(Reg::Esp),
    index: None,
    disp: 4,
    gs: false,
};

// Two effective addresses that are relative to GS.
const FIELD: Mem = Mem {
    base: Some(Reg::Eax),
    index: None,
    disp: 4,
    gs: true,
};

const GUARD: Mem = Mem {
    base: None,
    index: None,
    disp: 0x14,
    gs: true,
};

// Whether an instruction that ends before 0x1000 has this text.
fn has_text(alloc: Global, insn: Insn, expected: &str) -> Result<bool, Fail> {
    let mut found = vec![in alloc; b'>']?;
    text(&insn, 0x1000, &mut found)?;
    Ok(&found[1..] == expected.as_bytes())
}

#[test]
fn names_operations_and_operands(rt: HostRuntime) -> Result<(), Fail> {
    let lines = [
        (
            Insn::Alu {
                op: AluOp::Adc,
                width: Width::W,
                lock: true,
                dst: Rm::M(TABLE),
                src: Src::R(Reg::Edi),
            },
            "lock adc word [ebx+ecx*4+0xfffffffc],di",
        ),
        (
            Insn::Mov {
                width: Width::B,
                dst: Rm::R(Reg::Ebp),
                src: Src::Imm(0),
            },
            "mov ch,0x0",
        ),
        (
            Insn::Lea {
                width: Width::D,
                dst: Reg::Esi,
                mem: SCALED,
            },
            "lea esi,[edi*1]",
        ),
        (
            Insn::Movx {
                signed: true,
                from: Width::B,
                to: Width::W,
                dst: Reg::Eax,
                src: Rm::M(FIXED),
            },
            "movsx ax,byte [0x0]",
        ),
        (Insn::Push { src: Src::M(TOP) }, "push dword [esp+0x4]"),
        (
            Insn::Bump {
                up: false,
                width: Width::B,
                lock: false,
                dst: Rm::R(Reg::Edi),
            },
            "dec bh",
        ),
        (
            Insn::Imul {
                width: Width::D,
                dst: Reg::Ecx,
                src: Rm::R(Reg::Edx),
                imm: Some(0x10),
            },
            "imul ecx,edx,0x10",
        ),
        (
            Insn::Shift {
                op: ShiftOp::Sar,
                width: Width::D,
                dst: Rm::R(Reg::Eax),
                count: Count::Cl,
            },
            "sar eax,cl",
        ),
        (
            Insn::Double {
                left: false,
                dst: Rm::R(Reg::Ebx),
                src: Reg::Esi,
                count: Count::Imm(3),
            },
            "shrd ebx,esi,0x3",
        ),
        (
            Insn::Bit {
                op: BitOp::Btc,
                width: Width::D,
                lock: false,
                dst: Rm::R(Reg::Eax),
                index: Src::Imm(31),
            },
            "btc eax,0x1f",
        ),
        (
            Insn::Set {
                cond: Cond::Np,
                dst: Rm::M(TOP),
            },
            "setnp byte [esp+0x4]",
        ),
        (
            Insn::Cmov {
                cond: Cond::Le,
                width: Width::D,
                dst: Reg::Eax,
                src: Rm::R(Reg::Ecx),
            },
            "cmovle eax,ecx",
        ),
    ];
    for (insn, expected) in lines {
        assert!(rt; has_text(rt.alloc(), insn, expected)?, "{expected}");
    }
    Ok(())
}

#[test]
fn names_repeats_and_transfers(rt: HostRuntime) -> Result<(), Fail> {
    let lines = [
        (
            Insn::Str {
                op: StrOp::Movs,
                width: Width::D,
                rep: Rep::F3,
            },
            "rep movsd",
        ),
        (
            Insn::Str {
                op: StrOp::Scas,
                width: Width::B,
                rep: Rep::F3,
            },
            "repe scasb",
        ),
        (
            Insn::Str {
                op: StrOp::Cmps,
                width: Width::W,
                rep: Rep::F2,
            },
            "repne cmpsw",
        ),
        (Insn::Cbw { width: Width::D }, "cwde"),
        (Insn::Cwd { width: Width::W }, "cwd"),
        (Insn::Xlat, "xlatb"),
        (Insn::Jump { rel: 0xFFFF_F000 }, "jmp 0x0"),
        (
            Insn::Branch {
                cond: Cond::Ae,
                rel: 0x234,
            },
            "jae 0x1234",
        ),
        (
            Insn::Loop {
                kind: LoopKind::Ecxz,
                rel: 1,
            },
            "jecxz 0x1001",
        ),
        (Insn::CallVia { src: Rm::M(TOP) }, "call dword [esp+0x4]"),
        (
            Insn::JumpVia {
                src: Rm::R(Reg::Eax),
            },
            "jmp eax",
        ),
        (Insn::Ret { drop: 8 }, "ret 0x8"),
        (Insn::Ret { drop: 0 }, "ret"),
        (Insn::Int80, "int 0x80"),
        (Insn::Endbr, "endbr32"),
        (Insn::Nop, "nop"),
    ];
    for (insn, expected) in lines {
        assert!(rt; has_text(rt.alloc(), insn, expected)?, "{expected}");
    }
    Ok(())
}

#[test]
fn names_gs_and_what_is_relative_to_it(rt: HostRuntime) -> Result<(), Fail> {
    let lines = [
        (
            Insn::Mov {
                width: Width::D,
                dst: Rm::R(Reg::Eax),
                src: Src::M(GUARD),
            },
            "mov eax,dword gs:[0x14]",
        ),
        (
            Insn::Alu {
                op: AluOp::Xor,
                width: Width::B,
                lock: true,
                dst: Rm::M(FIELD),
                src: Src::R(Reg::Ecx),
            },
            "lock xor byte gs:[eax+0x4],cl",
        ),
        (
            Insn::CallVia { src: Rm::M(FIELD) },
            "call dword gs:[eax+0x4]",
        ),
        (
            Insn::ToGs {
                src: Rm::R(Reg::Eax),
            },
            "mov gs,ax",
        ),
        (Insn::ToGs { src: Rm::M(TOP) }, "mov gs,word [esp+0x4]"),
        (
            Insn::FromGs {
                width: Width::D,
                dst: Rm::R(Reg::Ecx),
            },
            "mov ecx,gs",
        ),
        (
            Insn::FromGs {
                width: Width::W,
                dst: Rm::R(Reg::Ecx),
            },
            "mov cx,gs",
        ),
        (
            Insn::FromGs {
                width: Width::W,
                dst: Rm::M(GUARD),
            },
            "mov word gs:[0x14],gs",
        ),
        (Insn::Cpuid, "cpuid"),
    ];
    for (insn, expected) in lines {
        assert!(rt; has_text(rt.alloc(), insn, expected)?, "{expected}");
    }
    Ok(())
}
