//! The writer of a log's text.

ghost use Rattle.std.specs.Prelude.{◌≡◌, ◌∷◌, [], ◌++◌, ◌<◌, map, OnOk, OnErr};
ghost use Rattle.syscall_log.specs.declared.effect.Effect.TheVariants as effect;
ghost use Rattle.syscall_log.specs.declared.item.Item.TheVariants as item;
ghost use Rattle.syscall_log.specs.Grammar.{answer_items, bytes_text, line_of, lines, mode_text, number_text, text_of};

use crate::answer::Answer;
use crate::effect::{Effect, Mode};
use crate::log::Log;
use mv_base::{Bytes, NoMemory, put_hex_pairs, put_hex8};

/// Appends the text of a log, the one text that is read as it; nothing is appended where memory runs out.
pub fn write_log(log: &Log, to: &mut Vec<u8>) -> Result<(), NoMemory>
    ensures ok { OnOk result (to.new.items
        ≡ to.old.items ++ text_of log.now.args log.now.answers) }
    ensures no_memory { OnErr result (to.new.items ≡ to.old.items) }
{
    let mut text = Vec::new(*to.allocator());
    put_log(log, &mut text)?;
    to.extend_from_slice(text.as_slice())?;
    Ok(())
}

/// Appends the lines of a log.
#[tactic(auto, unfolding(crate::specs::Grammar::text_of))]
fn put_log(log: &Log, to: &mut Vec<u8>) -> Result<(), NoMemory>
    ensures { OnOk result (to.new.items ≡ to.old.items ++ text_of log.now.args log.now.answers) }
{
    to.extend_from_slice(b"log 1\n")?;
    for arg in log.args.as_slice() {
        put_arg(arg, to)?;
    }
    for answer in log.answers.as_slice() {
        put_answer(answer, to)?;
    }
    Ok(())
}

/// Appends the line of an argument.
fn put_arg(arg: &Bytes, to: &mut Vec<u8>) -> Result<(), NoMemory>
    ensures { OnOk result (to.new.items ≡ to.old.items ++ lines (item.Arg arg.now ∷ [])) }
{
    to.extend_from_slice(b"arg ")?;
    put_bytes(arg, to)?;
    to.push(b'\n')?;
    Ok(())
}

/// Appends the line of an answer, and those of its effects.
fn put_answer(answer: &Answer, to: &mut Vec<u8>) -> Result<(), NoMemory>
    ensures { OnOk result (to.new.items ≡ to.old.items ++ lines (answer_items answer.now)) }
{
    match answer {
        Answer::Ret { eax, effects } => {
            put_ret(*eax, to)?;
            put_effects(effects.as_slice(), to)
        }
        Answer::Gone => {
            to.extend_from_slice(b"gone\n")?;
            Ok(())
        }
        Answer::Cpuid { eax, ebx, ecx, edx } => {
            put_cpuid(*eax, *ebx, *ecx, *edx, to)?;
            to.push(b'\n')?;
            Ok(())
        }
    }
}

/// Appends the line of an answer's value.
fn put_ret(eax: u32, to: &mut Vec<u8>) -> Result<(), NoMemory>
    ensures { OnOk result (to.new.items ≡ to.old.items ++ lines (item.Ret eax ∷ [])) }
{
    to.extend_from_slice(b"ret ")?;
    put_number(eax, to)?;
    to.push(b'\n')?;
    Ok(())
}

/// Appends the words of an answer to CPUID.
fn put_cpuid(eax: u32, ebx: u32, ecx: u32, edx: u32, to: &mut Vec<u8>) -> Result<(), NoMemory>
    ensures { OnOk result (to.new.items
        ≡ to.old.items ++ line_of (item.Cpuid eax ebx ecx edx)) }
{
    to.extend_from_slice(b"cpuid ")?;
    put_number_and(eax, to)?;
    put_number_and(ebx, to)?;
    put_number_and(ecx, to)?;
    put_number(edx, to)
}

/// Appends the lines of effects.
fn put_effects(effects: &[Effect], to: &mut Vec<u8>) -> Result<(), NoMemory>
    ensures { OnOk result (to.new.items ≡ to.old.items ++ lines (map item.Change effects.now)) }
{
    for effect in effects {
        put_effect(effect, to)?;
    }
    Ok(())
}

/// Appends the line of an effect.
fn put_effect(change: &Effect, to: &mut Vec<u8>) -> Result<(), NoMemory>
    ensures { OnOk result (to.new.items ≡ to.old.items ++ lines (item.Change change.now ∷ [])) }
{
    match change {
        Effect::Write { lo, bytes } => put_write(*lo, bytes, to)?,
        Effect::Map {
            lo,
            len,
            mode,
            bytes,
        } => put_map(*lo, *len, *mode, bytes, to)?,
        Effect::Unmap { lo, len } => put_unmap(*lo, *len, to)?,
        Effect::Desc { index, base } => put_desc(*index, *base, to)?,
    }
    to.push(b'\n')?;
    Ok(())
}

/// Appends the words of bytes that are written.
fn put_write(lo: u32, bytes: &Bytes, to: &mut Vec<u8>) -> Result<(), NoMemory>
    ensures { OnOk result (to.new.items
        ≡ to.old.items ++ line_of (item.Change (effect.Write lo bytes.now))) }
{
    to.extend_from_slice(b"write ")?;
    put_number_and(lo, to)?;
    put_hex_pairs(bytes.as_slice(), to)
}

/// Appends the words of a range that is mapped.
fn put_map(lo: u32, len: u32, mode: Mode, bytes: &Bytes, to: &mut Vec<u8>) -> Result<(), NoMemory>
    ensures { OnOk result (to.new.items
        ≡ to.old.items ++ line_of (item.Change (effect.Map lo len mode bytes.now))) }
{
    to.extend_from_slice(b"map ")?;
    put_number_and(lo, to)?;
    put_number_and(len, to)?;
    put_mode_and(mode, to)?;
    put_bytes(bytes, to)
}

/// Appends the words of a range that is taken away.
fn put_unmap(lo: u32, len: u32, to: &mut Vec<u8>) -> Result<(), NoMemory>
    ensures { OnOk result (to.new.items
        ≡ to.old.items ++ line_of (item.Change (effect.Unmap lo len))) }
{
    to.extend_from_slice(b"unmap ")?;
    put_number_and(lo, to)?;
    put_number(len, to)
}

/// Appends the words of a descriptor.
fn put_desc(index: u32, base: u32, to: &mut Vec<u8>) -> Result<(), NoMemory>
    ensures { OnOk result (to.new.items
        ≡ to.old.items ++ line_of (item.Change (effect.Desc index base))) }
{
    to.extend_from_slice(b"desc ")?;
    put_number_and(index, to)?;
    put_number(base, to)
}

/// Appends a number in eight digits.
#[tactic(auto, unfolding(crate::specs::Grammar::number_text))]
fn put_number(n: u32, to: &mut Vec<u8>) -> Result<(), NoMemory>
    ensures { OnOk result (to.new.items ≡ to.old.items ++ number_text n) }
{
    put_hex8(n, to)
}

/// Appends a number and a space.
fn put_number_and(n: u32, to: &mut Vec<u8>) -> Result<(), NoMemory>
    ensures { OnOk result (to.new.items ≡ to.old.items ++ number_text n ++ 32 ∷ []) }
{
    put_number(n, to)?;
    to.push(b' ')?;
    Ok(())
}

/// Appends a mode and a space.
fn put_mode_and(mode: Mode, to: &mut Vec<u8>) -> Result<(), NoMemory>
    ensures { OnOk result (to.new.items ≡ to.old.items ++ mode_text mode ++ 32 ∷ []) }
{
    to.push(match mode {
        Mode::Read => b'r',
        Mode::Write => b'w',
        Mode::Exec => b'x',
    })?;
    to.push(b' ')?;
    Ok(())
}

/// Appends bytes in pairs of digits, or a dash where there are none.
fn put_bytes(bytes: &Bytes, to: &mut Vec<u8>) -> Result<(), NoMemory>
    ensures { OnOk result (to.new.items ≡ to.old.items ++ bytes_text bytes.now) }
{
    if bytes.is_empty() {
        to.push(b'-')?;
        Ok(())
    } else {
        put_hex_pairs(bytes.as_slice(), to)
    }
}
