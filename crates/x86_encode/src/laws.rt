//! Laws of the least spelling. They stand for no work: their bodies are empty.

ghost use Rattle.std.specs.Prelude.{◌≡◌, ◌≤◌, ◌⊎◌, ℕ, List, ◌++◌, length, Some, if◌then◌else◌};
ghost use Rattle.x86_insn.specs.Meaning.{source_of};
ghost use Rattle.x86_insn.specs.Spelling.{decoded, Spells};
ghost use Rattle.x86_insn.specs.declared.insn.Insn.{Insn};
ghost use Rattle.x86_insn.specs.declared.insn.Insn.TheVariants as insn;
ghost use Rattle.x86_insn.specs.declared.insn.Reg.TheVariants.{Eax};
ghost use Rattle.x86_insn.specs.declared.insn.Rm.{Rm as Operand};
ghost use Rattle.x86_insn.specs.declared.insn.Rm.TheVariants.{R};
ghost use Rattle.x86_insn.specs.declared.insn.Width.TheVariants.{D};
ghost use Rattle.x86_encode.specs.Candidates.{is_gs};
ghost use Rattle.x86_encode.specs.Encoding.{IsLeast};
ghost use Rattle.x86_encode.specs.Least.{least};

/// Bytes that begin with the least spelling of an instruction decode to it, with the spelling's length, at most 15.
pub fn decodes_again()
    ensures again { (i : Insn) (s rest : List ℕ) → IsLeast i s →
        decoded (s ++ rest) ≡ Some (i, length s) }
    ensures at_most { (i : Insn) (s : List ℕ) → IsLeast i s → length s ≤ 15 }
{}

/// An instruction has one least spelling at most.
pub fn one_least()
    ensures { (i : Insn) (s t : List ℕ) → IsLeast i s → IsLeast i t → s ≡ t }
{}

/// The operand of each jump or call through an operand can be loaded into EAX: MOV has a least spelling, of at most 7
/// bytes, or 8 where the operand is relative to GS.
pub fn operands_load()
    ensures { (s : List ℕ) (operand : Operand) →
        (Spells s (insn.JumpVia operand) ⊎ Spells s (insn.CallVia operand)) →
        (load : List ℕ) × (least (insn.Mov D (R Eax) (source_of operand)) ≡ Some load)
        × IsLeast (insn.Mov D (R Eax) (source_of operand)) load
        × (length load ≤ (if is_gs operand then 8 else 7)) }
{}
