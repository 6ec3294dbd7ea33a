//! Registers by width, effective addresses, and operands' values. Intel SDM, volume 1, sections 3.4.1 and 3.7.

ghost use Rattle.std.specs.Prelude.{◌≡◌, ◌<◌, ◌%◌, ◌^◌, Ok, Err, IfOk, IfErr, slice_index};
ghost use Rattle.x86_insn.specs.Ask.{got_at, got_rm, got_src, ends, ends_in};
ghost use Rattle.x86_insn.specs.Operands.{base_part, index_part, segment_part, byte_reg, reg as reg_of, reg_value, effective_address, regs_with, set_reg, set_byte_reg, bytes_of, accumulator, set_flags, sign_extended, address_before};
ghost use Rattle.mv_base.specs.Memory.{address_after};
ghost use Rattle.x86_insn.specs.declared.insn.Width.TheVariants.{D};
ghost use Rattle.x86_insn.specs.Values.{modulus};

use x86_insn::{AccessBytes, AccessLen, Ask, Core, Flags, Mem, Reg, Rm, Src, Width};

/// AH is the byte register of number 4.
pub const AH: Reg = Reg::Esp;

/// A 32-bit register.
pub fn reg(core: &Core, reg: Reg) -> u32
    ensures { result ≡ reg_of core.now reg }
{
    core.regs[reg.number()]
}

/// A byte register by its number: AL, CL, DL, BL and then AH, CH, DH, BH.
fn byte_reg(core: &Core, number: usize) -> u32
    requires { number < 8 }
    ensures is { result ≡ byte_reg core.now.regs number }
    ensures fits { result < 2 ^ 8 }
{
    if number < 4 {
        core.regs[number] % 0x100
    } else {
        core.regs[number - 4] / 0x100 % 0x100
    }
}

/// A register's value at a width.
pub fn reg_value(width: Width, core: &Core, reg: Reg) -> u32
    ensures is { result ≡ reg_value width core.now reg }
    ensures fits { result < modulus width }
{
    match width {
        Width::B => byte_reg(core, reg.number()),
        Width::W => core.regs[reg.number()] % 0x1_0000,
        Width::D => core.regs[reg.number()],
    }
}

/// The core with other flags.
pub fn with_flags(flags: Flags, core: &Core) -> Core
    ensures { result ≡ set_flags flags core.now }
{
    Core { flags, ..*core }
}

/// AL, AX or EAX.
pub fn accumulator(width: Width, core: &Core) -> u32
    ensures is { result ≡ accumulator width core.now }
    ensures fits { result < modulus width }
{
    reg_value(width, core, Reg::Eax)
}

fn base_part(core: &Core, base: Option<Reg>) -> u32
    ensures { result ≡ base_part core.now base }
{
    match base {
        Some(base) => reg(core, base),
        None => 0,
    }
}

/// An index times its factor, modulo 2^32.
fn index_part(core: &Core, index: Option<(Reg, u8)>) -> u32
    ensures { result ≡ index_part core.now index % 2 ^ 32 }
{
    match index {
        Some((index, factor)) => reg(core, index).wrapping_mul(u32::from(factor)),
        None => 0,
    }
}

/// GS's base, where the operand is relative to it; 0 where GS has none.
#[inline]
fn segment_part(core: &Core, gs: bool) -> u32
    ensures { result ≡ segment_part core.now gs }
{
    if !gs {
        return 0;
    }
    match core.gs_base {
        Some(base) => base,
        None => 0,
    }
}

/// GS's base where the operand is relative to it, base, index times its factor, and displacement, modulo 2^32.
#[inline]
pub fn effective_address(core: &Core, mem: &Mem) -> u32
    ensures { result ≡ effective_address core.now mem.now }
{
    segment_part(core, mem.gs)
        .wrapping_add(base_part(core, mem.base))
        .wrapping_add(index_part(core, mem.index))
        .wrapping_add(mem.disp)
}

/// The registers after the byte register of a number gets a byte.
fn set_byte_reg(regs: [u32; 8], number: usize, byte: u32) -> [u32; 8]
    requires low { number < 8 }
    requires fits { byte < 256 }
    ensures { result ≡ set_byte_reg regs number byte }
{
    let mut regs = regs;
    if number < 4 {
        regs[number] = regs[number] / 0x100 * 0x100 + byte;
    } else {
        let old = regs[number - 4];
        regs[number - 4] = old / 0x1_0000 * 0x1_0000 + byte * 0x100 + old % 0x100;
    }
    regs
}

/// The registers after one of them gets a value of a width; the rest of it stays.
pub fn regs_with(width: Width, regs: [u32; 8], reg: Reg, value: u32) -> [u32; 8]
    requires { value < modulus width }
    ensures { result ≡ regs_with width regs reg value }
{
    let mut regs = regs;
    let number = reg.number();
    match width {
        Width::B => set_byte_reg(regs, number, value),
        Width::W => {
            regs[number] = regs[number] / 0x1_0000 * 0x1_0000 + value;
            regs
        }
        Width::D => {
            regs[number] = value;
            regs
        }
    }
}

/// The core after a register gets a value of a width.
pub fn set_reg(width: Width, reg: Reg, value: u32, core: &Core) -> Core
    requires { value < modulus width }
    ensures { result ≡ set_reg width reg value core.now }
{
    Core {
        regs: regs_with(width, core.regs, reg, value),
        ..*core
    }
}

/// What an instruction goes on with: a number and the byte lists that are left for later reads; or the place and the
/// length of the bytes that it has to ask for first.
pub type Got<'a> = Result<(u32, &'a [AccessBytes]), (u32, AccessLen)>;

/// The number of a width at a place.
#[tactic(auto, unfolding(x86_insn::specs::Ask::got_at))]
pub fn got_at(at: u32, width: Width, got: &[AccessBytes]) -> Got
    ensures given { IfOk result (λ p. got_at at width got.now ≡ Ok (p.0, p.1.now)) }
    ensures missing { IfErr result (λ p. got_at at width got.now ≡ Err p) }
    ensures fits { IfOk result (λ p. p.0 < modulus width) }
{
    match got.split_first() {
        Some((bytes, rest)) => Ok((bytes.number(width), rest)),
        None => Err((at, AccessLen::of(width))),
    }
}

/// An operand's value.
#[tactic(auto, unfolding(x86_insn::specs::Ask::got_rm))]
pub fn got_rm<'a>(width: Width, core: &Core, operand: &Rm, got: &'a [AccessBytes]) -> Got<'a>
    ensures given { IfOk result (λ p. got_rm width core.now operand.now got.now ≡ Ok
        (p.0, p.1.now)) }
    ensures missing { IfErr result (λ p. got_rm width core.now operand.now got.now ≡ Err p) }
    ensures fits { IfOk result (λ p. p.0 < modulus width) }
{
    match operand {
        Rm::R(reg) => Ok((reg_value(width, core, *reg), got)),
        Rm::M(mem) => got_at(effective_address(core, mem), width, got),
    }
}

/// The value of an operand that is only read.
#[tactic(auto, unfolding(x86_insn::specs::Ask::got_src))]
pub fn got_src<'a>(width: Width, core: &Core, operand: &Src, got: &'a [AccessBytes]) -> Got<'a>
    ensures given { IfOk result (λ p. got_src width core.now operand.now got.now ≡ Ok
        (p.0, p.1.now)) }
    ensures missing { IfErr result (λ p. got_src width core.now operand.now got.now ≡ Err p) }
    ensures fits { IfOk result (λ p. p.0 < modulus width) }
{
    match operand {
        Src::R(reg) => Ok((reg_value(width, core, *reg), got)),
        Src::M(mem) => got_at(effective_address(core, mem), width, got),
        Src::Imm(value) => Ok((at_width(width, *value), got)),
    }
}

/// A number modulo 2 to the width.
pub fn at_width(width: Width, value: u32) -> u32
    ensures is { result ≡ value % modulus width }
    ensures fits { result < modulus width }
{
    match width {
        Width::B => value % 0x100,
        Width::W => value % 0x1_0000,
        Width::D => value,
    }
}

/// The end with a value in an operand: its address is that of the core before, its register one of the core after.
pub fn ends_in<E: Drop>(
    end: E,
    width: Width,
    operand: &Rm,
    value: u32,
    before: &Core,
    after: &Core,
) -> Ask<E>
    requires { value < modulus width }
    ensures { result ≡ ends_in end width operand.now value before.now after.now }
{
    match operand {
        Rm::R(reg) => ends(end, set_reg(width, *reg, value, after)),
        Rm::M(mem) => Ask::Ends {
            core: *after,
            write: Some((effective_address(before, mem), bytes_of(width, value))),
            end,
        },
    }
}

/// The end with this core and no write.
pub fn ends<E: Drop>(end: E, core: Core) -> Ask<E>
    ensures { result ≡ ends end core }
{
    Ask::Ends {
        core,
        write: None,
        end,
    }
}

/// A value of a width as bytes, the least first.
pub fn bytes_of(width: Width, value: u32) -> AccessBytes
    ensures { result ≡ bytes_of width value }
{
    let bytes = value.to_le_bytes();
    AccessBytes::new(&bytes[..width.bytes()])
}

/// A value of one width extended by its sign to another.
pub fn sign_extended(from: Width, to: Width, value: u32) -> u32
    requires { value < modulus from }
    ensures is { result ≡ sign_extended from to value }
    ensures fits { result < modulus to }
{
    at_width(to, sign_extended_whole(from, value))
}

/// A value of a width extended by its sign to 32 bits.
fn sign_extended_whole(from: Width, value: u32) -> u32
    requires { value < modulus from }
    ensures { result ≡ sign_extended from D value }
{
    match from {
        Width::B if value >= 0x80 => value + 0xFFFF_FF00,
        Width::W if value >= 0x8000 => value + 0xFFFF_0000,
        _ => value,
    }
}

/// An address so many above, modulo 2^32.
pub fn address_after(at: u32, len: u32) -> u32
    ensures { result ≡ address_after at len }
{
    at.wrapping_add(len)
}

/// An address so many below, modulo 2^32.
pub fn address_before(at: u32, len: u32) -> u32
    ensures { result ≡ address_before at len }
{
    at.wrapping_sub(len)
}
