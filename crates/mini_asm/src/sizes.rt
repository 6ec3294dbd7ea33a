//! How many bytes lines have, whatever their addresses.

ghost use Rattle.std.specs.Prelude.{◌≡◌, ◌≤◌, ℕ, List, IfSome};
ghost use Rattle.x86_insn.specs.Spelling.{Spells};
ghost use Rattle.mini_asm.specs.Faults.{HasLength, LeastOfLength, transfer_length};
ghost use Rattle.mini_asm.specs.Forms.{IsTransfer};
ghost use Rattle.mini_asm.specs.Lines.{IsJudged};

use x86_encode::encoded;
use x86_insn::Insn;

/// How many bytes an instruction has, whatever its address.
pub(crate) fn size(insn: &Insn) -> usize
    ensures judged { IsJudged insn.now → HasLength insn.now result }
    ensures transfer { IsTransfer insn.now → HasLength insn.now result }
    ensures at_most { result ≤ 15 }
{
    match transfer_size(insn) {
        Some(size) => size,
        None => least_size(insn),
    }
}

/// How many bytes a direct transfer has.
fn transfer_size(insn: &Insn) -> Option<usize>
    ensures is { result ≡ transfer_length insn.now }
    ensures at_most { IfSome result (λ size. size ≤ 6) }
{
    match *insn {
        Insn::Jump { .. } | Insn::Call { .. } => Some(5),
        Insn::Branch { .. } => Some(6),
        Insn::Loop { .. } => Some(2),
        _ => None,
    }
}

/// How many bytes the least spelling of an instruction has.
fn least_size(insn: &Insn) -> usize
    ensures is { (s : List ℕ) → Spells s insn.now → LeastOfLength insn.now result }
    ensures at_most { result ≤ 15 }
{
    match encoded(insn) {
        Some(spelling) => spelling.as_slice().len(),
        None => 0,
    }
}
