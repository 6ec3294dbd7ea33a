//! The form of a source line, whatever its address and whatever the other lines are.

ghost use Rattle.std.specs.Prelude.{◌≡◌, ◌≢◌, ◌++◌, ℕ, List, IfOk, MatchOption, codes};
ghost use Rattle.mini_asm.specs.Forms.{IsFormOf, IsLabelOf};
ghost use Rattle.mini_asm.specs.Transfers.{aimed_at as aimed_at_of, aimed_in, digits_in, is_mnemonic as is_mnemonic_of, named_transfer as named_transfer_of, raw_in, transfer as transfer_of};

use crate::line::judged_line;
use crate::mnemonic::{Mnemonic, mnemonic_named};
use crate::names::is_name;
use crate::words::word;
use insn_text::names::{ending, stem};
use mv_base::{Bytes, NoMemory, behind, hex_pairs};
use std::alloc::Global;
use x86_insn::Insn;

/// How many digits the bytes of a line have at most: those of 4,096 bytes.
const MOST_DIGITS: usize = 8192;

/// What a line says by itself.
#[derive(Drop)]
pub enum Form {
    Nothing,
    /// The label of the address that follows.
    Label(Bytes),
    /// Bytes as they stand.
    Raw(Bytes),
    /// An instruction, as it reads where the address behind it is 0.
    Code(Insn),
    /// A direct transfer to a label; how far it goes is 0 here.
    Aimed(Insn, Bytes),
}

/// What stands in front of the colon at the end of a line.
fn before_colon(line: &[u8]) -> Option<&[u8]>
    ensures { MatchOption result ((front : List ℕ) → line.now ≢ front ++ codes ":")
        (λ x. line.now ≡ x.now ++ codes ":") }
{
    line.strip_suffix(b":".as_slice())
}

/// The name of a label.
fn label(alloc: Global, line: &[u8]) -> Result<Option<Bytes>, NoMemory>
    ensures { IfOk result (IsLabelOf line.now) }
{
    match before_colon(line) {
        Some(name) => {
            if is_name(name) {
                Ok(Some(Bytes::new(name.to_vec(alloc)?)))
            } else {
                Ok(None)
            }
        }
        None => Ok(None),
    }
}

/// The bytes of some digits.
#[tactic(auto, unfolding(crate::specs::Transfers::digits_in))]
fn digits(alloc: Global, text: &[u8]) -> Result<Option<Bytes>, NoMemory>
    ensures { IfOk result (λ bytes. bytes ≡ digits_in text.now) }
{
    if text.is_empty() {
        Ok(None)
    } else if text.len() > MOST_DIGITS {
        Ok(None)
    } else {
        hex_pairs(alloc, text)
    }
}

/// Bytes as they stand.
#[tactic(auto, unfolding(crate::specs::Transfers::raw_in))]
fn raw(alloc: Global, line: &[u8]) -> Result<Option<Bytes>, NoMemory>
    ensures { IfOk result (λ bytes. bytes ≡ raw_in line.now) }
{
    match behind(b"bytes ", line) {
        Some(text) => digits(alloc, text),
        None => Ok(None),
    }
}

/// The direct transfer that a mnemonic names; how far it goes is 0.
fn transfer(mnemonic: Mnemonic) -> Option<Insn>
    ensures { result ≡ transfer_of mnemonic }
{
    match mnemonic {
        Mnemonic::Jump => Some(Insn::Jump { rel: 0 }),
        Mnemonic::Branch(cond) => Some(Insn::Branch { cond, rel: 0 }),
        Mnemonic::Loop(kind) => Some(Insn::Loop { kind, rel: 0 }),
        Mnemonic::Call => Some(Insn::Call { rel: 0 }),
        _ => None,
    }
}

/// Whether a word is the mnemonic of an instruction.
#[tactic(auto, unfolding(crate::specs::Transfers::is_mnemonic))]
fn is_mnemonic(word: &[u8], insn: &Insn) -> bool
    ensures { result ≡ is_mnemonic_of word.now insn.now }
{
    if let Some(rest) = behind(stem(insn).as_bytes(), word) {
        rest == ending(insn).as_bytes()
    } else {
        false
    }
}

/// The direct transfer whose mnemonic a word may be.
#[tactic(auto, unfolding(crate::specs::Transfers::named_transfer))]
fn named_transfer(word: &[u8]) -> Option<Insn>
    ensures { result ≡ named_transfer_of word.now }
{
    transfer(mnemonic_named(word)?)
}

/// A direct transfer by its mnemonic, and the name behind it.
#[tactic(auto, unfolding(crate::specs::Transfers::aimed_at))]
fn aimed_at(
    alloc: Global,
    mnemonic: &[u8],
    name: &[u8],
    insn: Insn,
) -> Result<Option<(Insn, Bytes)>, NoMemory>
    ensures { IfOk result (λ found. found ≡ aimed_at_of mnemonic.now name.now insn) }
{
    if is_name(name) {
        if is_mnemonic(mnemonic, &insn) {
            Ok(Some((insn, Bytes::new(name.to_vec(alloc)?))))
        } else {
            Ok(None)
        }
    } else {
        Ok(None)
    }
}

/// A direct transfer to a label.
#[tactic(auto, unfolding(crate::specs::Transfers::aimed_in))]
fn aimed(alloc: Global, line: &[u8]) -> Result<Option<(Insn, Bytes)>, NoMemory>
    ensures { IfOk result (λ found. found ≡ aimed_in line.now) }
{
    let (mnemonic, name) = word(line);
    match named_transfer(mnemonic) {
        Some(insn) => aimed_at(alloc, mnemonic, name, insn),
        None => Ok(None),
    }
}

/// The form of a line; none where it is no line of a source at all.
///
/// # Errors
///
/// `NoMemory`.
pub fn read_form(alloc: Global, line: &[u8]) -> Result<Option<Form>, NoMemory>
    ensures { IfOk result (IsFormOf line.now) }
{
    if line.is_empty() {
        return Ok(Some(Form::Nothing));
    }
    if let Some(name) = label(alloc, line)? {
        return Ok(Some(Form::Label(name)));
    }
    if let Some(bytes) = raw(alloc, line)? {
        return Ok(Some(Form::Raw(bytes)));
    }
    if let Some((insn, name)) = aimed(alloc, line)? {
        return Ok(Some(Form::Aimed(insn, name)));
    }
    match judged_line(alloc, line)? {
        Some(insn) => Ok(Some(Form::Code(insn))),
        None => Ok(None),
    }
}
