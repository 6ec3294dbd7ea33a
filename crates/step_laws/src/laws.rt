//! Laws of steps and runs, over all states. They stand for no work: their bodies are empty.

ghost use Rattle.std.specs.Prelude.{◌≡◌, ℕ, ◌+◌, List, length, Some};
ghost use Rattle.x86_insn.specs.declared.insn.Insn.{Insn};
ghost use Rattle.x86_insn.specs.declared.insn.Flow.TheVariants as flow;
ghost use Rattle.x86_insn.specs.Flow.{flow_of};
ghost use Rattle.x86_insn.specs.Spelling.{spelled};
ghost use Rattle.x86_insn.specs.State.{State};
ghost use Rattle.mv_base.specs.Memory.{Memory};
ghost use Rattle.x86_insn.specs.Step.{Found, fetch, step, executed};
ghost use Rattle.step_laws.specs.Standing.{Stands};
ghost use Rattle.x86_insn.specs.Run.{state_after};
ghost use Rattle.step_laws.specs.Bounds.{IsState, IsOutcome};
ghost use Rattle.step_laws.specs.Beside.{IsFixed, SameCode, KeepsCode, IsClearOutcome};
ghost use Rattle.step_laws.specs.Meeting.{Area, AtPiece, Meets, GoesTo, IsOwn, AreClear};

/// A step from a state within bounds comes to one within bounds, whether it completes or stops; so each state of a run that
/// begins within bounds is within bounds.
pub fn keeps_bounds()
    ensures step { (s : State) → IsState s → IsOutcome (step s) }
    ensures run { (n : ℕ) (s t : State) → IsState s → state_after n s ≡ Some t → IsState t }
{}

/// Where no cell can be both written and executed, a step changes no executable cell and makes none, whether it completes
/// or stops: effects that touch such cells are refused. So each state of a run has the code that the run began with.
pub fn code_stays()
    ensures step { (s : State) → IsState s → IsFixed s.memory → KeepsCode s.memory (step s) }
    ensures run { (n : ℕ) (s t : State) → IsState s → IsFixed s.memory → state_after n s ≡ Some t →
        SameCode s.memory t.memory }
{}

/// The law of copied bytes. Where an instruction's bytes stand in an added area, one step there comes to what the
/// instruction comes to, completed or stopped, completed iterations included; it goes to the address behind the bytes where
/// the instruction goes to `next`. An instruction of its own rounds has no trap at an added address; CPUID takes the same
/// answer; a system call's effects touch no added address, and none that may be executed on either side, and what they do to
/// descriptors is the same.
pub fn copied_bytes()
    ensures own { (area : Area) (here next : ℕ) (bytes : List ℕ) (o t : State) (i : Insn) →
        AtPiece area here bytes o t → spelled bytes ≡ Some i → IsOwn (flow_of i) →
        IsClearOutcome area.added (executed o i next (flow_of i)) →
        Meets area 1 (GoesTo next (here + length bytes)) o t (executed o i next (flow_of i)) }
    ensures system { (area : Area) (here next : ℕ) (bytes : List ℕ) (o t : State) (i : Insn) →
        AtPiece area here bytes o t → spelled bytes ≡ Some i → flow_of i ≡ flow.System →
        AreClear area o t →
        Meets area 1 (GoesTo next (here + length bytes)) o t (executed o i next flow.System) }
{}

/// A spelling that stands in executable cells is the instruction that is fetched there.
pub fn spellings_are_fetched()
    ensures { (m : Memory) (a : ℕ) (bytes : List ℕ) (i : Insn) →
        spelled bytes ≡ Some i → Stands m a bytes →
        fetch m a ≡ Found i (length bytes) }
{}
