//! Laws of the spelling table, over all byte lists. They stand for no work: their bodies are empty.

ghost use Rattle.std.specs.Prelude.{◌≡◌, ℕ, List, [], ◌++◌, Some};
ghost use Rattle.x86_insn.specs.Spelling.{Spells, spelled};
ghost use Rattle.x86_insn.specs.declared.insn.Insn.{Insn};

/// No spelling is a proper front of another, and a spelling spells one instruction.
pub fn one_spelling()
    ensures { (s more : List ℕ) (i j : Insn) → Spells s i → Spells (s ++ more) j → (more ≡ []) × (i ≡ j) }
{}

/// The function that gives what a byte list spells is the table's relation.
pub fn spelled_by_the_table()
    ensures spelled { (s : List ℕ) (i : Insn) → Spells s i → spelled s ≡ Some i }
    ensures spells { (s : List ℕ) (i : Insn) → spelled s ≡ Some i → Spells s i }
{}
