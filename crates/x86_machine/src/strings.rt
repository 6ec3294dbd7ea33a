//! Rounds of string instructions: one iteration each. Intel SDM, volume 2.

ghost use Rattle.std.specs.Prelude.{◌≡◌, ◌<◌};
ghost use Rattle.x86_insn.specs.Values.{modulus};
ghost use Rattle.x86_insn.specs.Strings.{moved, counted, goes_on, goes_on_with, compared, movs_round, cmps_with, cmps_round, stos_round, lods_round, scas_round, str_round, iterations};

use crate::operands::{
    accumulator, address_after, address_before, bytes_of, got_at, reg, set_reg, with_flags,
};
use x86_alu::alu;
use x86_insn::{AccessBytes, AluOp, Ask, Core, Flags, Reg, Rep, StrOp, Width};

/// A register moved by a width, down where DF is set.
fn moved(width: Width, register: Reg, core: &Core) -> Core
    ensures { result ≡ moved width register core.now }
{
    let len = width.bytes() as u32;
    let at = reg(core, register);
    let to = if core.flags.df {
        address_before(at, len)
    } else {
        address_after(at, len)
    };
    set_reg(Width::D, register, to, core)
}

/// A repeated instruction takes 1 from ECX in each iteration.
fn counted(rep: Rep, core: &Core) -> Core
    ensures { result ≡ counted rep core.now }
{
    match rep {
        Rep::Once => *core,
        Rep::F3 | Rep::F2 => {
            let count = address_before(reg(core, Reg::Ecx), 1);
            set_reg(Width::D, Reg::Ecx, count, core)
        }
    }
}

/// Whether MOVS, STOS and LODS go on.
fn goes_on(rep: Rep) -> bool
    ensures { result ≡ goes_on rep }
{
    match rep {
        Rep::Once => false,
        Rep::F3 | Rep::F2 => true,
    }
}

/// Whether CMPS and SCAS go on: while ZF is set (F3) or clear (F2).
fn goes_on_with(rep: Rep, zf: bool) -> bool
    ensures { result ≡ goes_on_with rep zf }
{
    match rep {
        Rep::Once => false,
        Rep::F3 => zf,
        Rep::F2 => !zf,
    }
}

/// The end of a comparison with these flags.
fn compared(rep: Rep, flags: Flags, core: &Core) -> Ask<bool>
    ensures { result ≡ compared rep flags core.now }
{
    Ask::Ends {
        core: counted(rep, &with_flags(flags, core)),
        write: None,
        end: goes_on_with(rep, flags.zf),
    }
}

fn movs_round(width: Width, rep: Rep, core: &Core, got: &[AccessBytes]) -> Ask<bool>
    ensures { result ≡ movs_round width rep core.now got.now }
{
    match got_at(reg(core, Reg::Esi), width, got) {
        Ok((value, _rest)) => {
            let after = moved(width, Reg::Edi, &moved(width, Reg::Esi, core));
            Ask::Ends {
                core: counted(rep, &after),
                write: Some((reg(core, Reg::Edi), bytes_of(width, value))),
                end: goes_on(rep),
            }
        }
        Err((at, len)) => Ask::Reads { at, len },
    }
}

fn cmps_round(width: Width, rep: Rep, core: &Core, got: &[AccessBytes]) -> Ask<bool>
    ensures { result ≡ cmps_round width rep core.now got.now }
{
    match got_at(reg(core, Reg::Esi), width, got) {
        Ok((a, rest)) => cmps_with(width, rep, a, core, rest),
        Err((at, len)) => Ask::Reads { at, len },
    }
}

/// The comparison of an element at ESI with that at EDI.
fn cmps_with(width: Width, rep: Rep, a: u32, core: &Core, rest: &[AccessBytes]) -> Ask<bool>
    requires { a < modulus width }
    ensures { result ≡ cmps_with width rep a core.now rest.now }
{
    match got_at(reg(core, Reg::Edi), width, rest) {
        Ok((b, _more)) => {
            let flags = alu(AluOp::Cmp, width, a, b, core.flags).1;
            let after = moved(width, Reg::Edi, &moved(width, Reg::Esi, core));
            compared(rep, flags, &after)
        }
        Err((at, len)) => Ask::Reads { at, len },
    }
}

fn stos_round(width: Width, rep: Rep, core: &Core) -> Ask<bool>
    ensures { result ≡ stos_round width rep core.now }
{
    let value = accumulator(width, core);
    Ask::Ends {
        core: counted(rep, &moved(width, Reg::Edi, core)),
        write: Some((reg(core, Reg::Edi), bytes_of(width, value))),
        end: goes_on(rep),
    }
}

fn lods_round(width: Width, rep: Rep, core: &Core, got: &[AccessBytes]) -> Ask<bool>
    ensures { result ≡ lods_round width rep core.now got.now }
{
    match got_at(reg(core, Reg::Esi), width, got) {
        Ok((value, _rest)) => {
            let after = set_reg(width, Reg::Eax, value, &moved(width, Reg::Esi, core));
            Ask::Ends {
                core: counted(rep, &after),
                write: None,
                end: goes_on(rep),
            }
        }
        Err((at, len)) => Ask::Reads { at, len },
    }
}

fn scas_round(width: Width, rep: Rep, core: &Core, got: &[AccessBytes]) -> Ask<bool>
    ensures { result ≡ scas_round width rep core.now got.now }
{
    match got_at(reg(core, Reg::Edi), width, got) {
        Ok((b, _rest)) => {
            let a = accumulator(width, core);
            let flags = alu(AluOp::Cmp, width, a, b, core.flags).1;
            compared(rep, flags, &moved(width, Reg::Edi, core))
        }
        Err((at, len)) => Ask::Reads { at, len },
    }
}

pub fn str_round(op: StrOp, width: Width, rep: Rep, core: &Core, got: &[AccessBytes]) -> Ask<bool>
    ensures { result ≡ str_round op width rep core.now got.now }
{
    match op {
        StrOp::Movs => movs_round(width, rep, core, got),
        StrOp::Cmps => cmps_round(width, rep, core, got),
        StrOp::Stos => stos_round(width, rep, core),
        StrOp::Lods => lods_round(width, rep, core, got),
        StrOp::Scas => scas_round(width, rep, core, got),
    }
}

/// How many iterations there are at most: as many as ECX says, where it is repeated.
pub fn iterations(rep: Rep, core: &Core) -> u32
    ensures { result ≡ iterations rep core.now }
{
    match rep {
        Rep::Once => 1,
        Rep::F3 | Rep::F2 => reg(core, Reg::Ecx),
    }
}
