//! Rounds of the stack and of flags. Intel SDM, volume 2.

ghost use Rattle.std.specs.Prelude.{◌≡◌, ◌%◌, ◌^◌, ◌<◌};
ghost use Rattle.x86_insn.specs.Moves.{risen, lowered, pushes, push_round, pop_round, pushed_bytes, pushad_round, popped_regs, popad_round, leave_round, pushfd_round, has_bit, flags_of_image, sets_other_flags, popfd_end, popfd_round, lahf_round, sahf_flags, sahf_round, flag_changed, flag_round};

use crate::operands::{
    AH, address_after, address_before, bytes_of, ends, ends_in, got_at, got_src, reg, reg_value,
    set_reg, with_flags,
};
use x86_insn::{AccessBytes, AccessLen, Ask, Core, FlagOp, Flags, Reg, Rm, Src, Stop, Width};

/// The core with ESP raised.
pub fn risen(len: u32, core: &Core) -> Core
    ensures { result ≡ risen len core.now }
{
    let esp = address_after(reg(core, Reg::Esp), len);
    set_reg(Width::D, Reg::Esp, esp, core)
}

fn lowered(len: u32, core: &Core) -> Core
    ensures { result ≡ lowered len core.now }
{
    let esp = address_before(reg(core, Reg::Esp), len);
    set_reg(Width::D, Reg::Esp, esp, core)
}

/// The end in which a word goes below ESP, and ESP to it.
pub fn pushes<E: Drop>(end: E, value: u32, core: &Core) -> Ask<E>
    ensures { result ≡ pushes end value core.now }
{
    let at = address_before(reg(core, Reg::Esp), 4);
    Ask::Ends {
        core: lowered(4, core),
        write: Some((at, bytes_of(Width::D, value))),
        end,
    }
}

/// The address and the value are those of ESP before it falls.
pub fn push_round(src: &Src, core: &Core, got: &[AccessBytes]) -> Ask<bool>
    ensures { result ≡ push_round src.now core.now got.now }
{
    match got_src(Width::D, core, src, got) {
        Ok((value, _rest)) => pushes(false, value, core),
        Err((at, len)) => Ask::Reads { at, len },
    }
}

/// The stack is read, then ESP rises, and with it the destination's address is computed.
pub fn pop_round(dst: &Rm, core: &Core, got: &[AccessBytes]) -> Ask<bool>
    ensures { result ≡ pop_round dst.now core.now got.now }
{
    match got_at(reg(core, Reg::Esp), Width::D, got) {
        Ok((value, _rest)) => {
            let after = risen(4, core);
            ends_in(false, Width::D, dst, value, &after, &after)
        }
        Err((at, len)) => Ask::Reads { at, len },
    }
}

/// From the lowest address on: EDI, ESI, EBP, the old ESP, EBX, EDX, ECX, EAX.
#[tactic(auto, unfolding(mv_base::specs::Bytes::words))]
fn pushed_bytes(core: &Core) -> AccessBytes
    ensures { result ≡ pushed_bytes core.now }
{
    let mut bytes = AccessBytes::new(&[]);
    bytes.push_word(reg(core, Reg::Edi));
    bytes.push_word(reg(core, Reg::Esi));
    bytes.push_word(reg(core, Reg::Ebp));
    bytes.push_word(reg(core, Reg::Esp));
    bytes.push_word(reg(core, Reg::Ebx));
    bytes.push_word(reg(core, Reg::Edx));
    bytes.push_word(reg(core, Reg::Ecx));
    bytes.push_word(reg(core, Reg::Eax));
    bytes
}

/// All registers go below ESP.
pub fn pushad_round(core: &Core) -> Ask<bool>
    ensures { result ≡ pushad_round core.now }
{
    let at = address_before(reg(core, Reg::Esp), 32);
    Ask::Ends {
        core: lowered(32, core),
        write: Some((at, pushed_bytes(core))),
        end: false,
    }
}

/// The registers from such words; that of ESP is skipped.
fn popped_regs(esp: u32, bytes: &AccessBytes) -> [u32; 8]
    ensures { result ≡ popped_regs esp bytes.now }
{
    [
        bytes.word(28),
        bytes.word(24),
        bytes.word(20),
        bytes.word(16),
        address_after(esp, 32),
        bytes.word(8),
        bytes.word(4),
        bytes.word(0),
    ]
}

pub fn popad_round(core: &Core, got: &[AccessBytes]) -> Ask<bool>
    ensures { result ≡ popad_round core.now got.now }
{
    let esp = reg(core, Reg::Esp);
    match got.first() {
        Some(bytes) => ends(
            false,
            Core {
                regs: popped_regs(esp, bytes),
                ..*core
            },
        ),
        None => Ask::Reads {
            at: esp,
            len: AccessLen::registers(),
        },
    }
}

/// EBP's word is read, then ESP stands above it.
pub fn leave_round(core: &Core, got: &[AccessBytes]) -> Ask<bool>
    ensures { result ≡ leave_round core.now got.now }
{
    let ebp = reg(core, Reg::Ebp);
    match got_at(ebp, Width::D, got) {
        Ok((value, _rest)) => {
            let above = set_reg(Width::D, Reg::Esp, address_after(ebp, 4), core);
            ends(false, set_reg(Width::D, Reg::Ebp, value, &above))
        }
        Err((at, len)) => Ask::Reads { at, len },
    }
}

pub fn pushfd_round(core: &Core) -> Ask<bool>
    ensures { result ≡ pushfd_round core.now }
{
    pushes(false, core.flags.image(), core)
}

/// A bit of a number.
fn has_bit(place: u32, n: u32) -> bool
    requires { place < 32 }
    ensures { result ≡ has_bit place n }
{
    (n >> place) % 2 == 1
}

/// The flags of an image.
fn flags_of_image(image: u32) -> Flags
    ensures { result ≡ flags_of_image image }
{
    Flags {
        cf: has_bit(0, image),
        pf: has_bit(2, image),
        af: has_bit(4, image),
        zf: has_bit(6, image),
        sf: has_bit(7, image),
        df: has_bit(10, image),
        of: has_bit(11, image),
        id: has_bit(21, image),
    }
}

/// Whether an image sets TF, NT or AC, which are outside the profile.
fn sets_other_flags(image: u32) -> bool
    ensures { result ≡ sets_other_flags image }
{
    has_bit(8, image) || has_bit(14, image) || has_bit(18, image)
}

pub fn popfd_round(core: &Core, got: &[AccessBytes]) -> Ask<bool>
    ensures { result ≡ popfd_round core.now got.now }
{
    match got_at(reg(core, Reg::Esp), Width::D, got) {
        Ok((image, _rest)) => popfd_end(image, core),
        Err((at, len)) => Ask::Reads { at, len },
    }
}

fn popfd_end(image: u32, core: &Core) -> Ask<bool>
    ensures { result ≡ popfd_end image core.now }
{
    if sets_other_flags(image) {
        return Ask::Halts(Stop::Outside);
    }
    ends(false, with_flags(flags_of_image(image), &risen(4, core)))
}

/// AH gets the image's low byte.
pub fn lahf_round(core: &Core) -> Ask<bool>
    ensures { result ≡ lahf_round core.now }
{
    ends(
        false,
        set_reg(Width::B, AH, core.flags.image() % 0x100, core),
    )
}

fn sahf_flags(image: u32, flags: Flags) -> Flags
    ensures { result ≡ sahf_flags image flags }
{
    Flags {
        cf: has_bit(0, image),
        pf: has_bit(2, image),
        af: has_bit(4, image),
        zf: has_bit(6, image),
        sf: has_bit(7, image),
        ..flags
    }
}

pub fn sahf_round(core: &Core) -> Ask<bool>
    ensures { result ≡ sahf_round core.now }
{
    let flags = sahf_flags(reg_value(Width::B, core, AH), core.flags);
    ends(false, with_flags(flags, core))
}

fn flag_changed(op: FlagOp, flags: Flags) -> Flags
    ensures { result ≡ flag_changed op flags }
{
    match op {
        FlagOp::Cmc => Flags {
            cf: !flags.cf,
            ..flags
        },
        FlagOp::Clc => Flags { cf: false, ..flags },
        FlagOp::Stc => Flags { cf: true, ..flags },
        FlagOp::Cld => Flags { df: false, ..flags },
        FlagOp::Std => Flags { df: true, ..flags },
    }
}

pub fn flag_round(op: FlagOp, core: &Core) -> Ask<bool>
    ensures { result ≡ flag_round op core.now }
{
    ends(false, with_flags(flag_changed(op, core.flags), core))
}
