//! Least spellings, or that there is none.

use std::test::Fail;
use x86_encode::{encode, encoded};
use x86_insn::{AluOp, Insn, Mem, Reg, Rm, Src, Width};

/// Memory at a register's address, or at an address alone.
const fn at(base: Option<Reg>, disp: u32, gs: bool) -> Mem {
    Mem {
        base,
        index: None,
        disp,
        gs,
    }
}

fn load(dst: Reg, mem: Mem) -> Insn {
    Insn::Mov {
        width: Width::D,
        dst: Rm::R(dst),
        src: Src::M(mem),
    }
}

fn from_gs(width: Width, dst: Rm) -> Insn {
    Insn::FromGs { width, dst }
}

/// Whether these bytes are the least spelling, and are written in front of bytes that stay; where they are none, there is none
/// and all stay.
fn is_spelled(insn: &Insn, bytes: &[u8]) -> bool {
    let mut to = [0xEE; 16];
    let is_written = match encode(insn, &mut to) {
        Some(len) => !bytes.is_empty() && len == bytes.len(),
        None => bytes.is_empty(),
    };
    let is_least = match encoded(insn) {
        Some(spelling) => spelling.as_slice() == bytes,
        None => bytes.is_empty(),
    };
    is_written && is_least && has_front(&to, bytes)
}

/// Whether the bytes stand in front, and behind them nothing was written.
fn has_front(to: &[u8; 16], bytes: &[u8]) -> bool {
    to.iter().enumerate().all(|(place, byte)| match bytes.get(place) {
        Some(wanted) => byte == wanted,
        None => *byte == 0xEE,
    })
}

#[test]
fn spells_operands_in_memory(rt: HostRuntime) {
    let top = at(Some(Reg::Esp), 0, false);
    let rows: [(Insn, &[u8]); 4] = [
        // of two spellings with two bytes, 89 E0 and 8B C4, the lesser
        (
            Insn::Mov {
                width: Width::D,
                dst: Rm::R(Reg::Eax),
                src: Src::R(Reg::Esp),
            },
            &[0x89, 0xE0],
        ),
        // a byte of displacement, SIB for ESP, and 66
        (
            Insn::Mov {
                width: Width::W,
                dst: Rm::M(at(Some(Reg::Esp), 0xFFFF_FF80, false)),
                src: Src::Imm(0x1234),
            },
            &[0x66, 0xC7, 0x44, 0x24, 0x80, 0x34, 0x12],
        ),
        // two operands in memory have no spelling; nor has ESP as an index
        (
            Insn::Alu {
                op: AluOp::Add,
                width: Width::D,
                lock: false,
                dst: Rm::M(top),
                src: Src::M(top),
            },
            &[],
        ),
        (
            Insn::JumpVia {
                src: Rm::M(Mem {
                    base: None,
                    index: Some((Reg::Esp, 1)),
                    disp: 0,
                    gs: false,
                }),
            },
            &[],
        ),
    ];
    for (insn, bytes) in &rows {
        assert!(rt; is_spelled(insn, bytes), "{bytes:?}");
    }
}

#[test]
fn spells_gs_and_cpuid(rt: HostRuntime) {
    let eax = Rm::R(Reg::Eax);
    let at_eax = Rm::M(at(Some(Reg::Eax), 0, false));
    let thread_area = at(Some(Reg::Ecx), 0, true);
    let rows: [(Insn, &[u8]); 11] = [
        // `mov eax,gs:[14]`, `mov ecx,gs:[eax]` and `lock inc word gs:[ecx]`; LEA has no operand relative to GS
        (
            load(Reg::Eax, at(None, 0x14, true)),
            &[0x65, 0xA1, 0x14, 0, 0, 0],
        ),
        (
            load(Reg::Ecx, at(Some(Reg::Eax), 0, true)),
            &[0x65, 0x8B, 0x08],
        ),
        (
            Insn::Bump {
                up: true,
                width: Width::W,
                lock: true,
                dst: Rm::M(thread_area),
            },
            &[0x65, 0x66, 0xF0, 0xFF, 0x01],
        ),
        (
            Insn::Lea {
                width: Width::D,
                dst: Reg::Eax,
                mem: thread_area,
            },
            &[],
        ),
        // a selector has two bytes in memory, without 66; to a register 66 says that two are written
        (Insn::ToGs { src: eax }, &[0x8E, 0xE8]),
        (from_gs(Width::W, at_eax), &[0x8C, 0x28]),
        (from_gs(Width::W, eax), &[0x66, 0x8C, 0xE8]),
        (from_gs(Width::D, eax), &[0x8C, 0xE8]),
        (from_gs(Width::D, at_eax), &[]),
        (from_gs(Width::B, eax), &[]),
        (Insn::Cpuid, &[0x0F, 0xA2]),
    ];
    for (insn, bytes) in &rows {
        assert!(rt; is_spelled(insn, bytes), "{bytes:?}");
    }
}
