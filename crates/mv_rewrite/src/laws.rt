//! Laws of outputs, over all inputs and rules. They stand for no work: their bodies are empty.

ghost use Rattle.std.specs.Prelude.{◌≡◌, ℕ, List, Some};
ghost use Rattle.mv_base.specs.Bytes.{AreBytes};
ghost use Rattle.elf32_read.specs.Fields.{entry_at};
ghost use Rattle.elf32_write.specs.File.{file_of};
ghost use Rattle.elf32_write.specs.Frame.{Frame, frame, frame_input};
ghost use Rattle.elf32_write.specs.Plans.{plan_of};
ghost use Rattle.image_layout.specs.Rules.{Rules};
ghost use Rattle.mv_rewrite.specs.Output.{output};
ghost use Rattle.mv_rewrite.specs.OutputFile.{IsWrittenFor};
ghost use Rattle.mv_rewrite.specs.Upgrading.{HasOutput, rules_back};

/// An output has a frame, whose input is the file that was rewritten; and the output of that input under the rules that
/// are taken from the frame is the same output.
pub fn outputs_keep_their_input()
    ensures input { (b : List ℕ) (rules : Rules) (x : List ℕ) → HasOutput b rules x →
        (f : Frame) × (frame x ≡ Some f) × (frame_input f ≡ b) }
    ensures again { (b : List ℕ) (rules : Rules) (x : List ℕ) → HasOutput b rules x →
        (f : Frame) → frame x ≡ Some f → output (frame_input f) (rules_back f) ≡ Some x }
{}

/// An output is what is written for its input and rules, byte for byte as the frame's own parts have it.
pub fn outputs_are_written()
    ensures { (b : List ℕ) (rules : Rules) (x : List ℕ) → HasOutput b rules x → AreBytes x →
        (f : Frame) × IsWrittenFor b rules x f × (x ≡ file_of b (plan_of (entry_at b) f)) }
{}
