//! Control transfers: what they ask of memory, and where they go. Intel SDM, volume 2. `next` is the address after the
//! instruction.

ghost use Rattle.std.specs.Prelude.{◌≡◌};
ghost use Rattle.x86_insn.specs.Transfers.{jump_hop, branch_hop, loop_core, loop_jumps, loop_hop, call_hop, call_via_hop, jump_via_hop, return_hop};

use crate::conditions::holds;
use crate::operands::{address_after, address_before, ends, got_at, got_rm, reg, set_reg};
use crate::stack::{pushes, risen};
use x86_insn::{AccessBytes, Ask, Cond, Core, LoopKind, Reg, Rm, Width};

pub fn jump_hop(next: u32, rel: u32, core: &Core) -> Ask<u32>
    ensures { result ≡ jump_hop next rel core.now }
{
    ends(address_after(next, rel), *core)
}

pub fn branch_hop(next: u32, cond: Cond, rel: u32, core: &Core) -> Ask<u32>
    ensures { result ≡ branch_hop next cond rel core.now }
{
    let to = if holds(cond, core.flags) {
        address_after(next, rel)
    } else {
        next
    };
    ends(to, *core)
}

/// LOOP and its kin take 1 from ECX, and change no flag; JECXZ changes nothing.
fn loop_core(kind: LoopKind, core: &Core) -> Core
    ensures { result ≡ loop_core kind core.now }
{
    match kind {
        LoopKind::Ne | LoopKind::E | LoopKind::Plain => {
            let count = address_before(reg(core, Reg::Ecx), 1);
            set_reg(Width::D, Reg::Ecx, count, core)
        }
        LoopKind::Ecxz => *core,
    }
}

/// Whether they jump, by the core after that.
fn loop_jumps(kind: LoopKind, core: &Core) -> bool
    ensures { result ≡ loop_jumps kind core.now }
{
    let at_end = reg(core, Reg::Ecx) == 0;
    match kind {
        LoopKind::Ne => !at_end && !core.flags.zf,
        LoopKind::E => !at_end && core.flags.zf,
        LoopKind::Plain => !at_end,
        LoopKind::Ecxz => at_end,
    }
}

pub fn loop_hop(next: u32, kind: LoopKind, rel: u32, core: &Core) -> Ask<u32>
    ensures { result ≡ loop_hop next kind rel core.now }
{
    let after = loop_core(kind, core);
    let to = if loop_jumps(kind, &after) {
        address_after(next, rel)
    } else {
        next
    };
    ends(to, after)
}

pub fn call_hop(next: u32, rel: u32, core: &Core) -> Ask<u32>
    ensures { result ≡ call_hop next rel core.now }
{
    pushes(address_after(next, rel), next, core)
}

/// The target is read before the push.
pub fn call_via_hop(next: u32, src: &Rm, core: &Core, got: &[AccessBytes]) -> Ask<u32>
    ensures { result ≡ call_via_hop next src.now core.now got.now }
{
    match got_rm(Width::D, core, src, got) {
        Ok((to, _rest)) => pushes(to, next, core),
        Err((at, len)) => Ask::Reads { at, len },
    }
}

pub fn jump_via_hop(src: &Rm, core: &Core, got: &[AccessBytes]) -> Ask<u32>
    ensures { result ≡ jump_via_hop src.now core.now got.now }
{
    match got_rm(Width::D, core, src, got) {
        Ok((to, _rest)) => ends(to, *core),
        Err((at, len)) => Ask::Reads { at, len },
    }
}

/// ESP rises past the return address and as many bytes more as are dropped.
pub fn return_hop(drop: u16, core: &Core, got: &[AccessBytes]) -> Ask<u32>
    ensures { result ≡ return_hop drop core.now got.now }
{
    match got_at(reg(core, Reg::Esp), Width::D, got) {
        Ok((to, _rest)) => ends(to, risen(4 + u32::from(drop), core)),
        Err((at, len)) => Ask::Reads { at, len },
    }
}
