//! The table of instructions: what each asks of memory, and what it does to registers and flags.

ghost use Rattle.std.specs.Prelude.{◌≡◌};
ghost use Rattle.x86_insn.specs.Round.{round, reached_round, limit, hop, reached_hop};

use crate::arithmetic::{
    alu_round, bump_round, cmpxchg_round, div_round, imul_round, mul_round, test_round,
    unary_round, xadd_round,
};
use crate::bits::{bit_round, double_round, scan_round, shift_round};
use crate::descs::Descs;
use crate::moves::{
    bswap_round, cbw_round, cmov_round, cwd_round, lea_round, mov_round, movx_round, set_round,
    xchg_round, xlat_round,
};
use crate::operands::ends;
use crate::reaching::stands_beyond;
use crate::segments::{from_gs_round, to_gs_round};
use crate::stack::{
    flag_round, lahf_round, leave_round, pop_round, popad_round, popfd_round, push_round,
    pushad_round, pushfd_round, sahf_round,
};
use crate::strings::{iterations, str_round};
use crate::transfers::{
    branch_hop, call_hop, call_via_hop, jump_hop, jump_via_hop, loop_hop, return_hop,
};
use x86_insn::{AccessBytes, Ask, Core, Insn, Kind, Stop};

/// A round of an instruction of flow Plain or Trap but CPUID, by the descriptors and what it has read so far; no other has
/// a round.
#[tactic(auto, unfolding(x86_insn::specs::Round::round))]
pub fn round(insn: &Insn, descs: &Descs, core: &Core, got: &[AccessBytes]) -> Ask<bool>
    ensures { result ≡ round insn.now descs.now.made core.now got.now }
{
    if stands_beyond(insn, core, got) {
        return Ask::Halts(Stop::Trap(Kind::Protection, 0));
    }
    reached_round(insn, descs, core, got)
}

/// The same where what it accesses can be reached.
fn reached_round(insn: &Insn, descs: &Descs, core: &Core, got: &[AccessBytes]) -> Ask<bool>
    ensures { result ≡ reached_round insn.now descs.now.made core.now got.now }
{
    match insn {
        Insn::Alu {
            op,
            width,
            lock: _,
            dst,
            src,
        } => alu_round(*op, *width, dst, src, core, got),
        Insn::Test { width, dst, src } => test_round(*width, dst, src, core, got),
        Insn::Mov { width, dst, src } => mov_round(*width, dst, src, core, got),
        Insn::Xchg {
            width,
            lock: _,
            dst,
            reg,
        } => xchg_round(*width, dst, *reg, core, got),
        Insn::Lea { width, dst, mem } => lea_round(*width, *dst, mem, core),
        Insn::Movx {
            signed,
            from,
            to,
            dst,
            src,
        } => movx_round(*signed, *from, *to, *dst, src, core, got),
        Insn::Bswap { reg } => bswap_round(*reg, core),
        Insn::Push { src } => push_round(src, core, got),
        Insn::Pop { dst } => pop_round(dst, core, got),
        Insn::Pushad => pushad_round(core),
        Insn::Popad => popad_round(core, got),
        Insn::Pushfd => pushfd_round(core),
        Insn::Popfd => popfd_round(core, got),
        Insn::Leave => leave_round(core, got),
        Insn::Bump {
            up,
            width,
            lock: _,
            dst,
        } => bump_round(*up, *width, dst, core, got),
        Insn::Unary {
            op,
            width,
            lock: _,
            dst,
        } => unary_round(*op, *width, dst, core, got),
        Insn::Mul { signed, width, src } => mul_round(*signed, *width, src, core, got),
        Insn::Div { signed, width, src } => div_round(*signed, *width, src, core, got),
        Insn::Imul {
            width,
            dst,
            src,
            imm,
        } => imul_round(*width, *dst, src, *imm, core, got),
        Insn::Shift {
            op,
            width,
            dst,
            count,
        } => shift_round(*op, *width, dst, *count, core, got),
        Insn::Double {
            left,
            dst,
            src,
            count,
        } => double_round(*left, dst, *src, *count, core, got),
        Insn::Bit {
            op,
            width,
            lock: _,
            dst,
            index,
        } => bit_round(*op, *width, dst, index, core, got),
        Insn::Scan {
            up,
            width,
            dst,
            src,
        } => scan_round(*up, *width, *dst, src, core, got),
        Insn::Cmpxchg {
            width,
            lock: _,
            dst,
            src,
        } => cmpxchg_round(*width, dst, *src, core, got),
        Insn::Xadd {
            width,
            lock: _,
            dst,
            src,
        } => xadd_round(*width, dst, *src, core, got),
        Insn::Set { cond, dst } => set_round(*cond, dst, core),
        Insn::Cmov {
            cond,
            width,
            dst,
            src,
        } => cmov_round(*cond, *width, *dst, src, core, got),
        Insn::Cbw { width } => cbw_round(*width, core),
        Insn::Cwd { width } => cwd_round(*width, core),
        Insn::Str { op, width, rep } => str_round(*op, *width, *rep, core, got),
        Insn::Xlat => xlat_round(core, got),
        Insn::Lahf => lahf_round(core),
        Insn::Sahf => sahf_round(core),
        Insn::Flag { op } => flag_round(*op, core),
        Insn::Nop | Insn::Pause | Insn::Endbr => ends(false, *core),
        Insn::ToGs { src } => to_gs_round(descs, src, core, got),
        Insn::FromGs { width, dst } => from_gs_round(*width, dst, core),
        Insn::Int3 => Ask::Halts(Stop::Trap(Kind::Breakpoint, 0)),
        Insn::Hlt => Ask::Halts(Stop::Trap(Kind::Protection, 0)),
        Insn::Ud2 => Ask::Halts(Stop::Trap(Kind::Invalid, 0)),
        Insn::Jump { .. }
        | Insn::Branch { .. }
        | Insn::Loop { .. }
        | Insn::Call { .. }
        | Insn::JumpVia { .. }
        | Insn::CallVia { .. }
        | Insn::Ret { .. }
        | Insn::Cpuid
        | Insn::Int80 => Ask::Halts(Stop::Outside),
    }
}

/// How many rounds an instruction has at most: one, but for a repeated string instruction.
#[tactic(auto, unfolding(x86_insn::specs::Round::limit))]
pub fn limit(insn: &Insn, core: &Core) -> u32
    ensures { result ≡ limit insn.now core.now }
{
    match insn {
        Insn::Str {
            op: _,
            width: _,
            rep,
        } => iterations(*rep, core),
        _ => 1,
    }
}

/// A control transfer, by the address after it and by what it has read so far; no other instruction is one.
#[tactic(auto, unfolding(x86_insn::specs::Round::hop))]
pub fn hop(next: u32, insn: &Insn, core: &Core, got: &[AccessBytes]) -> Ask<u32>
    ensures { result ≡ hop next insn.now core.now got.now }
{
    if stands_beyond(insn, core, got) {
        return Ask::Halts(Stop::Trap(Kind::Protection, 0));
    }
    reached_hop(next, insn, core, got)
}

/// The same where what it accesses can be reached.
fn reached_hop(next: u32, insn: &Insn, core: &Core, got: &[AccessBytes]) -> Ask<u32>
    ensures { result ≡ reached_hop next insn.now core.now got.now }
{
    match insn {
        Insn::Jump { rel } => jump_hop(next, *rel, core),
        Insn::Branch { cond, rel } => branch_hop(next, *cond, *rel, core),
        Insn::Loop { kind, rel } => loop_hop(next, *kind, *rel, core),
        Insn::Call { rel } => call_hop(next, *rel, core),
        Insn::CallVia { src } => call_via_hop(next, src, core, got),
        Insn::JumpVia { src } => jump_via_hop(src, core, got),
        Insn::Ret { drop } => return_hop(*drop, core, got),
        _ => Ask::Halts(Stop::Outside),
    }
}
