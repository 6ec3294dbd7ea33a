//! The item of a line, and of the next line of a text.

ghost use Rattle.std.specs.Prelude.{◌≡◌, IfOk, IfErr, IfSome, IfNone};
ghost use Rattle.syscall_log.specs.declared.fault.LineFault.TheVariants as fault;
ghost use Rattle.syscall_log.specs.Following.{Continues, HasNoLine, IsFirstLine, IsStuck};
ghost use Rattle.syscall_log.specs.Reading.{cpuid_in, desc_in, effect_in, item_in, map_in, unmap_in, write_in};
ghost use Rattle.syscall_log.specs.Reads.{Reads};

use crate::effect::Effect;
use crate::fault::LineFault;
use crate::item::Item;
use crate::phase::Phase;
use crate::words::{bytes, hex, mode_and, number_and};
use memchr::memchr;
use mv_base::{behind, hex8_value};
use std::alloc::Global;

/// An item that was read, the phase after it, and the text behind its line.
#[derive(Drop)]
pub(crate) struct Next<'a> {
    pub(crate) item: Item,
    pub(crate) phase: Phase,
    pub(crate) rest: &'a [u8],
}

/// The item of a text's next line, where it may come in this phase.
pub(crate) fn next_item<'a>(
    alloc: Global,
    phase: Phase,
    text: &'a [u8],
) -> Result<Next<'a>, LineFault>
    ensures next { IfOk result (λ n. Continues phase text.now n.item n.phase n.rest.now) }
    ensures unknown { IfErr result (λ f. f ≡ fault.Unknown → IsStuck phase text.now) }
{
    let Some((line, rest)) = next_line(text) else {
        return Err(LineFault::Unknown);
    };
    let item = read_item(alloc, line)?;
    let Some(phase) = phase.after(&item) else {
        return Err(LineFault::Unknown);
    };
    Ok(Next { item, phase, rest })
}

/// A text's first line, and what stands behind its line feed.
fn next_line(text: &[u8]) -> Option<(&[u8], &[u8])>
    ensures some { IfSome result (λ p. IsFirstLine text.now p.0.now p.1.now) }
    ensures none { IfNone result (HasNoLine text.now) }
{
    let (line, behind) = text.split_at(memchr(b'\n', text)?);
    Some((line, &behind[1..]))
}

/// The item of a line.
#[tactic(auto, unfolding(crate::specs::Reading::item_in))]
fn read_item(alloc: Global, line: &[u8]) -> Result<Item, LineFault>
    ensures { Reads (item_in line.now) result }
{
    if line == b"log 1".as_slice() {
        Ok(Item::Header)
    } else if line == b"gone".as_slice() {
        Ok(Item::Gone)
    } else if let Some(text) = behind(b"arg ", line) {
        Ok(Item::Arg(bytes(alloc, text)?))
    } else if let Some(text) = behind(b"ret ", line) {
        Ok(Item::Ret(hex8_value(text).ok_or(LineFault::Unknown)?))
    } else if let Some(text) = behind(b"cpuid ", line) {
        read_cpuid(text)
    } else {
        Ok(Item::Change(read_effect(alloc, line)?))
    }
}

/// The effect of a line.
#[tactic(auto, unfolding(crate::specs::Reading::effect_in))]
fn read_effect(alloc: Global, line: &[u8]) -> Result<Effect, LineFault>
    ensures { Reads (effect_in line.now) result }
{
    if let Some(text) = behind(b"write ", line) {
        read_write(alloc, text)
    } else if let Some(text) = behind(b"map ", line) {
        read_map(alloc, text)
    } else if let Some(text) = behind(b"unmap ", line) {
        read_unmap(text)
    } else if let Some(text) = behind(b"desc ", line) {
        read_desc(text)
    } else {
        Err(LineFault::Unknown)
    }
}

/// The effect of a line that begins with `write` and a space, by the text behind them.
#[tactic(auto, unfolding(crate::specs::Reading::write_in))]
fn read_write(alloc: Global, text: &[u8]) -> Result<Effect, LineFault>
    ensures { Reads (write_in text.now) result }
{
    let (lo, text) = number_and(text).ok_or(LineFault::Unknown)?;
    let bytes = hex(alloc, text)?;
    Ok(Effect::Write { lo, bytes })
}

/// The same for `map`.
#[tactic(auto, unfolding(crate::specs::Reading::map_in))]
fn read_map(alloc: Global, text: &[u8]) -> Result<Effect, LineFault>
    ensures { Reads (map_in text.now) result }
{
    let (lo, text) = number_and(text).ok_or(LineFault::Unknown)?;
    let (len, text) = number_and(text).ok_or(LineFault::Unknown)?;
    let (mode, text) = mode_and(text).ok_or(LineFault::Unknown)?;
    let bytes = bytes(alloc, text)?;
    Ok(Effect::Map {
        lo,
        len,
        mode,
        bytes,
    })
}

/// The same for `unmap`.
#[tactic(auto, unfolding(crate::specs::Reading::unmap_in))]
fn read_unmap(text: &[u8]) -> Result<Effect, LineFault>
    ensures { Reads (unmap_in text.now) result }
{
    let (lo, text) = number_and(text).ok_or(LineFault::Unknown)?;
    let len = hex8_value(text).ok_or(LineFault::Unknown)?;
    Ok(Effect::Unmap { lo, len })
}

/// The same for `desc`.
#[tactic(auto, unfolding(crate::specs::Reading::desc_in))]
fn read_desc(text: &[u8]) -> Result<Effect, LineFault>
    ensures { Reads (desc_in text.now) result }
{
    let (index, text) = number_and(text).ok_or(LineFault::Unknown)?;
    let base = hex8_value(text).ok_or(LineFault::Unknown)?;
    Ok(Effect::Desc { index, base })
}

/// The item of a line that begins with `cpuid` and a space, by the text behind them.
#[tactic(auto, unfolding(crate::specs::Reading::cpuid_in))]
fn read_cpuid(text: &[u8]) -> Result<Item, LineFault>
    ensures { Reads (cpuid_in text.now) result }
{
    let (eax, text) = number_and(text).ok_or(LineFault::Unknown)?;
    let (ebx, text) = number_and(text).ok_or(LineFault::Unknown)?;
    let (ecx, text) = number_and(text).ok_or(LineFault::Unknown)?;
    let edx = hex8_value(text).ok_or(LineFault::Unknown)?;
    Ok(Item::Cpuid { eax, ebx, ecx, edx })
}
