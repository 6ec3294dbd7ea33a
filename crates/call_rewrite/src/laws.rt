//! What a run of each piece comes to, over all states: where the instruction completes, the state after it, with the
//! target in the second private word where it goes through the stub; where it stops, the same stop, with the instruction's
//! registers and flags. The functions stand for no work: their bodies are empty.

ghost use Rattle.std.specs.Prelude.{◌≡◌, ℕ, ◌^◌, ◌<◌, List};
ghost use Rattle.std.specs.List.{concat};
ghost use Rattle.x86_insn.specs.declared.insn.Insn.TheVariants as insn;
ghost use Rattle.x86_insn.specs.declared.insn.Flow.TheVariants as flow;
ghost use Rattle.x86_insn.specs.declared.insn.Rm.{Rm as Operand};
ghost use Rattle.x86_insn.specs.State.{State};
ghost use Rattle.x86_insn.specs.Step.{executed};
ghost use Rattle.x86_insn.specs.Transfers.{target_of};
ghost use Rattle.step_laws.specs.Beside.{IsClearOutcome};
ghost use Rattle.step_laws.specs.Meeting.{Area, AtPiece, Meets, GoesTo, GoesVia};
ghost use Rattle.call_rewrite.specs.Far.{LoadsOperand, call_parts, call_via_parts, jump_via_parts, return_parts, return_steps};

/// A call's piece pushes the old address behind the call and goes to the new target, in two steps; where the push faults it
/// faults alike.
pub fn calls_meet()
    ensures { (area : Area) (here next rel to : ℕ) (o t : State) →
        AtPiece area here (concat (call_parts next here to)) o t → next < 2 ^ 32 → to < 2 ^ 32 →
        IsClearOutcome area.added (executed o (insn.Call rel) next flow.Call) →
        Meets area 2 (GoesTo (target_of next rel) to) o t
        (executed o (insn.Call rel) next flow.Call) }
{}

/// The piece of a call through an operand reads the target, pushes, and goes to the stub, in six steps; where the operand
/// can't be reached, or the read or the push faults, it stops alike, with the call's registers.
pub fn calls_via_meet()
    ensures { (area : Area) (here next stub : ℕ) (load : List ℕ) (operand : Operand) (o t : State) →
        AtPiece area here (concat (call_via_parts load next here stub area.private)) o t →
        LoadsOperand operand load → next < 2 ^ 32 → stub < 2 ^ 32 →
        IsClearOutcome area.added (executed o (insn.CallVia operand) next flow.CallVia) →
        Meets area 6 (GoesVia area stub) o t (executed o (insn.CallVia operand) next flow.CallVia) }
{}

/// The piece of a jump through an operand reads the target and goes to the stub, in five steps; where the operand can't be
/// reached, or the read faults, it stops alike, with the jump's registers.
pub fn jumps_via_meet()
    ensures { (area : Area) (here next stub : ℕ) (load : List ℕ) (operand : Operand) (o t : State) →
        AtPiece area here (concat (jump_via_parts load here stub area.private)) o t →
        LoadsOperand operand load → stub < 2 ^ 32 →
        IsClearOutcome area.added (executed o (insn.JumpVia operand) next flow.JumpVia) →
        Meets area 5 (GoesVia area stub) o t (executed o (insn.JumpVia operand) next flow.JumpVia) }
{}

/// A return's piece takes its target from the stack and goes to the stub, in two steps, or three where it drops bytes;
/// where the read faults it faults alike.
pub fn returns_meet()
    ensures { (area : Area) (here drop next stub : ℕ) (o t : State) →
        AtPiece area here (concat (return_parts drop here stub area.private)) o t →
        stub < 2 ^ 32 →
        IsClearOutcome area.added (executed o (insn.Ret drop) next flow.Return) →
        Meets area (return_steps drop) (GoesVia area stub) o t
        (executed o (insn.Ret drop) next flow.Return) }
{}
