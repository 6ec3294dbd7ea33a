//! The least spelling of an instruction.

ghost use Rattle.std.specs.Prelude.{◌≡◌, ◌≤◌, length, IfSome};
ghost use Rattle.x86_encode.specs.Encoding.{IsLeastOf, IsEncoded};
ghost use Rattle.x86_encode.specs.Least.{lesser, by_row, by_rows, by_candidate, least};

use crate::assembling::assembled;
use crate::candidates::{Candidate, general, special};
use crate::slots::{byte_row, full_row, short_row};
use crate::spelling::Spelling;
use x86_insn::Insn;
use x86_insn::row::{Operands, Row};

// The lesser of two, where both are there.
fn lesser(left: Option<Spelling>, right: Option<Spelling>) -> Option<Spelling>
    ensures { result ≡ lesser left right }
{
    match (left, right) {
        (None, right) => right,
        (Some(left), None) => Some(left),
        (Some(left), Some(right)) => {
            if left.is_upto(&right) {
                Some(left)
            } else {
                Some(right)
            }
        }
    }
}

fn by_row(row: Option<Row>, operands: &Operands) -> Option<Spelling>
    ensures { result ≡ by_row row operands.now }
{
    match row {
        None => None,
        Some(row) => assembled(&row, operands),
    }
}

// The least by the rows of its kind.
#[tactic(auto, unfolding(crate::specs::Least::by_rows))]
fn by_rows(candidate: &Candidate) -> Option<Spelling>
    ensures { result ≡ by_rows candidate.now }
{
    let operands = &candidate.operands;
    let byte = by_row(byte_row(candidate.kind), operands);
    let full = by_row(full_row(candidate.kind), operands);
    let short = by_row(short_row(candidate.kind), operands);
    lesser(byte, lesser(full, short))
}

fn by_candidate(candidate: Option<Candidate>) -> Option<Spelling>
    ensures { result ≡ by_candidate candidate }
{
    match candidate {
        None => None,
        Some(candidate) => by_rows(&candidate),
    }
}

// The least over the candidates.
#[tactic(auto, unfolding(crate::specs::Least::least))]
fn least(insn: &Insn) -> Option<Spelling>
    ensures { result ≡ least insn.now }
{
    lesser(by_candidate(general(insn)), by_candidate(special(insn)))
}

/// The least spelling of an instruction, with at most 15 bytes: as short as any, and the least in byte order among the
/// shortest. None where there is no spelling.
pub fn encoded(insn: &Insn) -> Option<Spelling>
    ensures is { IsLeastOf insn.now result }
    ensures value { result ≡ least insn.now }
    ensures at_most { IfSome result (λ s. length s ≤ 15) }
{
    least(insn)
}

/// Writes the least spelling of an instruction to the front of `to`, and gives its length, at most 15. None where there
/// is no spelling, and then `to` is unchanged.
pub fn encode(insn: &Insn, to: &mut [u8; 16]) -> Option<usize>
    ensures { IsEncoded insn.now to.old result to.new }
{
    match encoded(insn) {
        None => None,
        Some(spelling) => {
            let len = spelling.len();
            to[..len].copy_from_slice(spelling.as_slice());
            Some(len)
        }
    }
}
