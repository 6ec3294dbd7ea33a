//! What a run of each piece comes to, over all states. The functions stand for no work: their bodies are empty.

ghost use Rattle.std.specs.Prelude.{◌≡◌, ℕ, ◌+◌, ◌^◌, ◌<◌};
ghost use Rattle.x86_insn.specs.declared.insn.Cond.{Cond as Condition};
ghost use Rattle.x86_insn.specs.declared.insn.Insn.TheVariants as insn;
ghost use Rattle.x86_insn.specs.declared.insn.Flow.TheVariants as flow;
ghost use Rattle.x86_insn.specs.declared.insn.LoopKind.{LoopKind as Kind};
ghost use Rattle.x86_insn.specs.State.{State};
ghost use Rattle.x86_insn.specs.Step.{executed};
ghost use Rattle.x86_insn.specs.Transfers.{target_of};
ghost use Rattle.step_laws.specs.Beside.{StatesBeside};
ghost use Rattle.step_laws.specs.Meeting.{Area, AtPiece, StandsIn, Meets, Reaches, GoesTo, GoesEither};
ghost use Rattle.branch_lengthen.specs.Near.{branch_bytes, count_bytes, jump_bytes};

/// A near jump goes where the jump goes that it stands for, in one step; and it leads on from where a piece arrives.
pub fn jumps_meet()
    ensures jump { (area : Area) (here to next rel : ℕ) (o t : State) →
        AtPiece area here (jump_bytes here to) o t → to < 2 ^ 32 →
        Meets area 1 (GoesTo (target_of next rel) to) o t (executed o (insn.Jump rel) next flow.Jump) }
    ensures join { (area : Area) (o t : State) (here to : ℕ) →
        StandsIn area t.memory here (jump_bytes here to) → t.eip ≡ here → to < 2 ^ 32 →
        StatesBeside area.added o t → Reaches area 1 (λ a u. u.eip ≡ to) o o t }
{}

/// A branch's piece goes where the branch goes, in one step.
pub fn branches_meet()
    ensures { (area : Area) (c : Condition) (here to next rel : ℕ) (o t : State) →
        AtPiece area here (branch_bytes c here to) o t → to < 2 ^ 32 →
        Meets area 1 (GoesEither (target_of next rel) to next (here + 6)) o t
        (executed o (insn.Branch c rel) next flow.Branch) }
{}

/// The piece of LOOP, LOOPE, LOOPNE or JECXZ goes where the instruction goes, in two steps.
pub fn counts_meet()
    ensures { (area : Area) (k : Kind) (here to next rel : ℕ) (o t : State) →
        AtPiece area here (count_bytes k here to) o t → to < 2 ^ 32 →
        Meets area 2 (GoesEither (target_of next rel) to next (here + 9)) o t
        (executed o (insn.Loop k rel) next flow.Count) }
{}
