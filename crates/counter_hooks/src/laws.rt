//! What a run of a counter does, over all states. The function stands for no work: its body is empty.

ghost use Rattle.std.specs.Prelude.{ℕ};
ghost use Rattle.x86_insn.specs.State.{State};
ghost use Rattle.counter_hooks.specs.Counting.{IsCounting, Counts};

/// From its first byte, a counter adds one to its eight bytes, modulo 2^64, and comes to the address behind its own: in 7
/// steps, or 9 where the low word wraps. No step stops; registers and flags come back, GS stays, and each state on the way
/// keeps all but the eight bytes and the four in which ECX is kept.
pub fn counter_counts()
    ensures { (p k at n : ℕ) (s : State) → IsCounting p k at n s → Counts p k at n s }
{}
