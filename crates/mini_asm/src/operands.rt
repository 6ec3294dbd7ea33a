//! Operands at the front of a text.

ghost use Rattle.std.specs.Prelude.{◌≡◌, option_map, codes};
ghost use Rattle.mini_asm.specs.Operands.{address_operand as address_operand_of, bracket_at, closed_at, factor_at, gs_operand as gs_operand_of, high_register_at, last_operand as last_operand_of, low_register_at, memory_at, next_operands as next_operands_of, no_part as no_part_of, number_operand as number_operand_of, operand_at, operands_in, part_at, parts_at, plain_at, register_at, register_operand as register_operand_of, register_part as register_part_of, second_part as second_part_of, third_part as third_part_of, with_part as with_part_of};

use crate::words::number;
use insn_text::names::register_name;
use insn_text::operand::{Operand, Operands};
use mv_base::behind;
use x86_insn::{Mem, Reg, Width};

/// A part of an effective address.
#[derive(Clone, Copy)]
pub(crate) enum Part {
    Base(Reg),
    Index(Reg, u8),
    Displacement(u32),
}

/// One of the first four registers, as far as a width reaches, and what stands behind its name.
#[tactic(auto, unfolding(crate::specs::Operands::low_register_at))]
fn low_register(width: Width, text: &[u8]) -> Option<(Reg, &[u8])>
    ensures { option_map (λ p. (p.0, p.1.now)) result ≡ low_register_at width text.now }
{
    if let Some(rest) = behind(register_name(width, Reg::Eax).as_bytes(), text) {
        Some((Reg::Eax, rest))
    } else if let Some(rest) = behind(register_name(width, Reg::Ecx).as_bytes(), text) {
        Some((Reg::Ecx, rest))
    } else if let Some(rest) = behind(register_name(width, Reg::Edx).as_bytes(), text) {
        Some((Reg::Edx, rest))
    } else if let Some(rest) = behind(register_name(width, Reg::Ebx).as_bytes(), text) {
        Some((Reg::Ebx, rest))
    } else {
        None
    }
}

/// One of the last four registers, as far as a width reaches, and what stands behind its name.
#[tactic(auto, unfolding(crate::specs::Operands::high_register_at))]
fn high_register(width: Width, text: &[u8]) -> Option<(Reg, &[u8])>
    ensures { option_map (λ p. (p.0, p.1.now)) result ≡ high_register_at width text.now }
{
    if let Some(rest) = behind(register_name(width, Reg::Esp).as_bytes(), text) {
        Some((Reg::Esp, rest))
    } else if let Some(rest) = behind(register_name(width, Reg::Ebp).as_bytes(), text) {
        Some((Reg::Ebp, rest))
    } else if let Some(rest) = behind(register_name(width, Reg::Esi).as_bytes(), text) {
        Some((Reg::Esi, rest))
    } else if let Some(rest) = behind(register_name(width, Reg::Edi).as_bytes(), text) {
        Some((Reg::Edi, rest))
    } else {
        None
    }
}

/// A register, as far as a width reaches, and what stands behind its name.
#[tactic(auto, unfolding(crate::specs::Operands::register_at))]
fn register(width: Width, text: &[u8]) -> Option<(Reg, &[u8])>
    ensures { option_map (λ p. (p.0, p.1.now)) result ≡ register_at width text.now }
{
    if let Some(found) = low_register(width, text) {
        Some(found)
    } else {
        high_register(width, text)
    }
}

/// The factor of an index: one digit.
#[tactic(auto, unfolding(crate::specs::Operands::factor_at))]
fn factor(text: &[u8]) -> Option<(u8, &[u8])>
    ensures { option_map (λ p. (p.0, p.1.now)) result ≡ factor_at text.now }
{
    match text {
        [] => None,
        [digit, rest @ ..] => {
            if *digit >= b'0' && *digit < b':' {
                Some((*digit - b'0', rest))
            } else {
                None
            }
        }
    }
}

/// The part of an address that begins with a register.
#[tactic(auto, unfolding(crate::specs::Operands::register_part))]
fn register_part<'a>(reg: Reg, text: &'a [u8]) -> Option<(Part, &'a [u8])>
    ensures { option_map (λ p. (p.0, p.1.now)) result ≡ register_part_of reg text.now }
{
    if let Some(rest) = behind(b"*", text) {
        let (factor, rest) = factor(rest)?;
        Some((Part::Index(reg, factor), rest))
    } else {
        Some((Part::Base(reg), text))
    }
}

/// A part of an address.
#[tactic(auto, unfolding(crate::specs::Operands::part_at))]
fn any_part(text: &[u8]) -> Option<(Part, &[u8])>
    ensures { option_map (λ p. (p.0, p.1.now)) result ≡ part_at text.now }
{
    if let Some((reg, rest)) = register(Width::D, text) {
        register_part(reg, rest)
    } else {
        let (disp, rest) = number(text)?;
        Some((Part::Displacement(disp), rest))
    }
}

/// An address with one part more.
fn with_part(mem: Mem, part: Part) -> Mem
    ensures { result ≡ with_part_of mem part }
{
    match part {
        Part::Base(reg) => Mem {
            base: Some(reg),
            ..mem
        },
        Part::Index(reg, factor) => Mem {
            index: Some((reg, factor)),
            ..mem
        },
        Part::Displacement(disp) => Mem { disp, ..mem },
    }
}

/// An address with its third part.
#[tactic(auto, unfolding(crate::specs::Operands::third_part))]
fn third_part(mem: Mem, text: &[u8]) -> Option<(Mem, &[u8])>
    ensures { option_map (λ p. (p.0, p.1.now)) result ≡ third_part_of mem text.now }
{
    let (part, rest) = any_part(text)?;
    Some((with_part(mem, part), rest))
}

/// An address with its second part, and a third one where it has one.
#[tactic(auto, unfolding(crate::specs::Operands::second_part))]
fn second_part(mem: Mem, text: &[u8]) -> Option<(Mem, &[u8])>
    ensures { option_map (λ p. (p.0, p.1.now)) result ≡ second_part_of mem text.now }
{
    let (part, rest) = any_part(text)?;
    let mem = with_part(mem, part);
    if let Some(more) = behind(b"+", rest) {
        third_part(mem, more)
    } else {
        Some((mem, rest))
    }
}

/// An address of at most three parts.
#[tactic(auto, unfolding(crate::specs::Operands::parts_at))]
fn parts(mem: Mem, text: &[u8]) -> Option<(Mem, &[u8])>
    ensures { option_map (λ p. (p.0, p.1.now)) result ≡ parts_at mem text.now }
{
    let (part, rest) = any_part(text)?;
    let mem = with_part(mem, part);
    if let Some(more) = behind(b"+", rest) {
        second_part(mem, more)
    } else {
        Some((mem, rest))
    }
}

/// An address without a part.
fn no_part(gs: bool) -> Mem
    ensures { result ≡ no_part_of gs }
{
    Mem {
        base: None,
        index: None,
        gs,
        disp: 0,
    }
}

/// The address behind a bracket.
#[tactic(auto, unfolding(crate::specs::Operands::closed_at))]
fn closed(gs: bool, text: &[u8]) -> Option<(Mem, &[u8])>
    ensures { option_map (λ p. (p.0, p.1.now)) result ≡ closed_at gs text.now }
{
    let (mem, rest) = parts(no_part(gs), text)?;
    Some((mem, behind(b"]", rest)?))
}

/// An address in brackets.
#[tactic(auto, unfolding(crate::specs::Operands::bracket_at))]
fn bracket(text: &[u8]) -> Option<(Mem, &[u8])>
    ensures { option_map (λ p. (p.0, p.1.now)) result ≡ bracket_at text.now }
{
    if let Some(rest) = behind(b"gs:[", text) {
        closed(true, rest)
    } else {
        closed(false, behind(b"[", text)?)
    }
}

/// So much memory, behind its word.
#[tactic(auto, unfolding(crate::specs::Operands::memory_at))]
fn memory(width: Width, text: &[u8]) -> Option<(Operand, &[u8])>
    ensures { option_map (λ p. (p.0, p.1.now)) result ≡ memory_at width text.now }
{
    let (mem, rest) = bracket(text)?;
    Some((Operand::Memory(width, mem), rest))
}

/// A register as an operand.
#[tactic(auto, unfolding(crate::specs::Operands::register_operand))]
fn register_operand(width: Width, text: &[u8]) -> Option<(Operand, &[u8])>
    ensures { option_map (λ p. (p.0, p.1.now)) result ≡ register_operand_of width text.now }
{
    let (reg, rest) = register(width, text)?;
    Some((Operand::Register(width, reg), rest))
}

/// An address as an operand.
#[tactic(auto, unfolding(crate::specs::Operands::address_operand))]
fn address_operand(text: &[u8]) -> Option<(Operand, &[u8])>
    ensures { option_map (λ p. (p.0, p.1.now)) result ≡ address_operand_of text.now }
{
    let (mem, rest) = bracket(text)?;
    Some((Operand::Address(mem), rest))
}

/// A number as an operand.
#[tactic(auto, unfolding(crate::specs::Operands::number_operand))]
fn number_operand(text: &[u8]) -> Option<(Operand, &[u8])>
    ensures { option_map (λ p. (p.0, p.1.now)) result ≡ number_operand_of text.now }
{
    let (value, rest) = number(text)?;
    Some((Operand::Number(value), rest))
}

/// GS as an operand.
#[tactic(auto, unfolding(crate::specs::Operands::gs_operand))]
fn gs_operand(text: &[u8]) -> Option<(Operand, &[u8])>
    ensures { option_map (λ p. (p.0, p.1.now)) result ≡ gs_operand_of text.now }
{
    Some((Operand::Gs, behind(b"gs", text)?))
}

/// An operand that is no memory.
#[tactic(auto, unfolding(crate::specs::Operands::plain_at))]
fn plain(text: &[u8]) -> Option<(Operand, &[u8])>
    ensures { option_map (λ p. (p.0, p.1.now)) result ≡ plain_at text.now }
{
    if let Some(found) = address_operand(text) {
        Some(found)
    } else if let Some(found) = register_operand(Width::D, text) {
        Some(found)
    } else if let Some(found) = register_operand(Width::W, text) {
        Some(found)
    } else if let Some(found) = register_operand(Width::B, text) {
        Some(found)
    } else if let Some(found) = number_operand(text) {
        Some(found)
    } else {
        gs_operand(text)
    }
}

/// An operand.
#[tactic(auto, unfolding(crate::specs::Operands::operand_at))]
fn operand(text: &[u8]) -> Option<(Operand, &[u8])>
    ensures { option_map (λ p. (p.0, p.1.now)) result ≡ operand_at text.now }
{
    if let Some(rest) = behind(b"byte ", text) {
        memory(Width::B, rest)
    } else if let Some(rest) = behind(b"word ", text) {
        memory(Width::W, rest)
    } else if let Some(rest) = behind(b"dword ", text) {
        memory(Width::D, rest)
    } else {
        plain(text)
    }
}

/// The third of three operands, behind which nothing stands.
#[tactic(auto, unfolding(crate::specs::Operands::last_operand))]
fn last_operand(first: Operand, second: Operand, text: &[u8]) -> Option<Operands>
    ensures { result ≡ last_operand_of first second text.now }
{
    let (third, rest) = operand(text)?;
    match rest {
        [] => Some(Operands::three(first, second, third)),
        _ => None,
    }
}

/// The operands behind the first one.
#[tactic(auto, unfolding(crate::specs::Operands::next_operands))]
fn next_operands(first: Operand, text: &[u8]) -> Option<Operands>
    ensures { result ≡ next_operands_of first text.now }
{
    let (second, rest) = operand(text)?;
    match rest {
        [] => Some(Operands::two(first, second)),
        _ => last_operand(first, second, behind(b",", rest)?),
    }
}

/// One, two or three operands, behind which nothing stands.
#[tactic(auto, unfolding(crate::specs::Operands::operands_in))]
pub(crate) fn operands(text: &[u8]) -> Option<Operands>
    ensures { result ≡ operands_in text.now }
{
    let (first, rest) = operand(text)?;
    match rest {
        [] => Some(Operands::one(first)),
        _ => next_operands(first, behind(b",", rest)?),
    }
}
