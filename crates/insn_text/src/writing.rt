//! Putting the text of an instruction together.

ghost use Rattle.std.specs.Prelude.{◌≡◌, ◌++◌, OnErr, OnOk, codes};
ghost use Rattle.insn_text.specs.Extends.{Extends};
ghost use Rattle.insn_text.specs.Text.{address_text, bracket, displaced, index_text, operand_text, operands_text, rest_text, text_of};

use crate::names::{ending, front_word, register_name, segment_word, stem, width_word};
use crate::numbers::put_number;
use crate::operand::Operand;
use crate::operands::operands;
use mv_base::{NoMemory, put_decimal};
use x86_insn::{Insn, Mem, Reg, Width};

/// Appends the text of an instruction, where `next` is the address behind it: its word in front (`lock`, `rep`, `repe`,
/// `repne`), its mnemonic and its operands. The destination stands first; a direct transfer shows where it goes; numbers
/// are in hexadecimal. The form is this project's own, after the Intel SDM.
///
/// # Errors
///
/// `NoMemory`; `to` is then unchanged.
#[tactic(auto, using(crate::proofs::Extending::cut_back))]
pub fn text(insn: &Insn, next: u32, to: &mut Vec<u8>) -> Result<(), NoMemory>
    ensures ok { OnOk result (to.new.items ≡ to.old.items ++ text_of insn.now next) }
    ensures no_memory { OnErr result (to.new.items ≡ to.old.items) }
{
    let before = to.len();
    let put = put_text(insn, next, to);
    if put.is_err() {
        to.truncate(before);
    }
    put
}

// Appends the text of an instruction, or a part of it.
#[tactic(auto, using(crate::proofs::Extending::extending))]
fn put_text(insn: &Insn, next: u32, to: &mut Vec<u8>) -> Result<(), NoMemory>
    ensures ok { OnOk result (to.new.items ≡ to.old.items ++ text_of insn.now next) }
    ensures grows { Extends to.old.items to.new.items }
{
    put_word(front_word(insn), to)?;
    put_word(stem(insn), to)?;
    put_word(ending(insn), to)?;
    put_operands(operands(insn, next).as_slice(), to)
}

// Appends a word.
#[tactic(auto, using(crate::proofs::Extending::extending))]
fn put_word(word: &str, to: &mut Vec<u8>) -> Result<(), NoMemory>
    ensures ok { OnOk result (to.new.items ≡ to.old.items ++ word.now) }
    ensures grows { Extends to.old.items to.new.items }
{
    to.extend_from_slice(word.as_bytes())?;
    Ok(())
}

// Appends operands behind a mnemonic.
#[tactic(auto, using(crate::proofs::Extending::extending))]
fn put_operands(operands: &[Operand], to: &mut Vec<u8>) -> Result<(), NoMemory>
    ensures ok { OnOk result (to.new.items ≡ to.old.items ++ operands_text operands.now) }
    ensures grows { Extends to.old.items to.new.items }
{
    match operands {
        [] => Ok(()),
        [first, rest @ ..] => {
            put_word(" ", to)?;
            put_operand(first, to)?;
            put_rest(rest, to)
        }
    }
}

// Appends operands behind another one.
#[tactic(auto, using(crate::proofs::Extending::extending))]
fn put_rest(operands: &[Operand], to: &mut Vec<u8>) -> Result<(), NoMemory>
    ensures ok { OnOk result (to.new.items ≡ to.old.items ++ rest_text operands.now) }
    ensures grows { Extends to.old.items to.new.items }
{
    match operands {
        [] => Ok(()),
        [first, rest @ ..] => {
            put_word(",", to)?;
            put_operand(first, to)?;
            put_rest(rest, to)
        }
    }
}

// Appends an operand.
#[tactic(auto, using(crate::proofs::Extending::extending))]
fn put_operand(operand: &Operand, to: &mut Vec<u8>) -> Result<(), NoMemory>
    ensures ok { OnOk result (to.new.items ≡ to.old.items ++ operand_text operand.now) }
    ensures grows { Extends to.old.items to.new.items }
{
    match operand {
        Operand::Register(width, reg) => put_word(register_name(*width, *reg), to),
        Operand::Memory(width, mem) => {
            put_word(width_word(*width), to)?;
            put_bracket(mem, to)
        }
        Operand::Address(mem) => put_bracket(mem, to),
        Operand::Number(n) => put_number(*n, to),
        Operand::Gs => put_word("gs", to),
    }
}

// Appends an effective address in brackets, with a word before them where it is relative to GS.
#[tactic(auto, using(crate::proofs::Extending::extending))]
fn put_bracket(mem: &Mem, to: &mut Vec<u8>) -> Result<(), NoMemory>
    ensures ok { OnOk result (to.new.items ≡ to.old.items ++ bracket mem.now) }
    ensures grows { Extends to.old.items to.new.items }
{
    put_word(segment_word(mem.gs), to)?;
    put_word("[", to)?;
    put_address(mem, to)?;
    put_word("]", to)
}

// Appends an effective address.
#[tactic(auto, using(crate::proofs::Extending::extending))]
fn put_address(mem: &Mem, to: &mut Vec<u8>) -> Result<(), NoMemory>
    ensures ok { OnOk result
        (to.new.items ≡ to.old.items ++ address_text mem.now.base mem.now.index mem.now.disp) }
    ensures grows { Extends to.old.items to.new.items }
{
    match (mem.base, mem.index) {
        (None, None) => put_number(mem.disp, to),
        (None, Some(index)) => {
            put_index(index, to)?;
            put_displaced(mem.disp, to)
        }
        (Some(base), None) => {
            put_word(register_name(Width::D, base), to)?;
            put_displaced(mem.disp, to)
        }
        (Some(base), Some(index)) => {
            put_word(register_name(Width::D, base), to)?;
            put_word("+", to)?;
            put_index(index, to)?;
            put_displaced(mem.disp, to)
        }
    }
}

// Appends an index and its factor.
#[tactic(auto, using(crate::proofs::Extending::extending))]
fn put_index(index: (Reg, u8), to: &mut Vec<u8>) -> Result<(), NoMemory>
    ensures ok { OnOk result (to.new.items ≡ to.old.items ++ index_text index) }
    ensures grows { Extends to.old.items to.new.items }
{
    let (reg, factor) = index;
    put_word(register_name(Width::D, reg), to)?;
    put_word("*", to)?;
    put_decimal(u64::from(factor), to)
}

// Appends a displacement behind other parts of an address.
#[tactic(auto, using(crate::proofs::Extending::extending))]
fn put_displaced(disp: u32, to: &mut Vec<u8>) -> Result<(), NoMemory>
    ensures ok { OnOk result (to.new.items ≡ to.old.items ++ displaced disp) }
    ensures grows { Extends to.old.items to.new.items }
{
    if disp == 0 {
        return Ok(());
    }
    put_word("+", to)?;
    put_number(disp, to)
}
