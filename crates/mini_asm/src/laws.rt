//! Laws of lines. They stand for no work: their bodies are empty.

ghost use Rattle.std.specs.Prelude.{◌≡◌, ◌^◌, ◌<◌, ℕ, List, Option, Some};
ghost use Rattle.x86_insn.specs.declared.insn.Insn.{Insn};
ghost use Rattle.insn_text.specs.Text.{text_of};
ghost use Rattle.mini_asm.specs.declared.form.Form.{Form};
ghost use Rattle.mini_asm.specs.Forms.{IsForm};
ghost use Rattle.mini_asm.specs.Lines.{HasSpelling, IsReading};

/// Two instructions that have a spelling and one text are one.
pub fn one_text()
    ensures { (i j : Insn) (next : ℕ) → next < 2 ^ 32 → HasSpelling i → HasSpelling j →
        text_of i next ≡ text_of j next → i ≡ j }
{}

/// The text of an instruction that has a spelling is read as that instruction.
pub fn reads_again()
    ensures { (i : Insn) (next : ℕ) (found : Option Insn) → next < 2 ^ 32 → HasSpelling i →
        IsReading (text_of i next) next found → found ≡ Some i }
{}

/// A line has one form at most.
pub fn one_form()
    ensures { (line : List ℕ) (f g : Form) → IsForm line f → IsForm line g → f ≡ g }
{}
