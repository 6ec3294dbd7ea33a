//! What the steps of a piece with two counters do, over all states. The function stands for no work: its body is empty.

ghost use Rattle.std.specs.Prelude.{◌≡◌, ℕ, ◌+◌, ◌^◌, ◌<◌, Bool, List, Some, length};
ghost use Rattle.x86_insn.specs.declared.insn.Insn.{Insn};
ghost use Rattle.x86_insn.specs.Flow.{flow_of};
ghost use Rattle.x86_insn.specs.State.{State, Next};
ghost use Rattle.x86_insn.specs.Step.{executed, step};
ghost use Rattle.superset.specs.Targets.{target_after};
ghost use Rattle.edge_hooks.specs.Jumping.{gone, insn_jumps};
ghost use Rattle.edge_hooks.specs.Edges.{counter_size, edge_bytes, jump_from, passed_from, taken_from, IsEdge};
ghost use Rattle.std.specs.Prelude.{if◌then◌else◌};

/// A branch or a loop goes to its target where its condition holds, and else on, and changes nothing else, but that LOOP
/// and its kin count ECX down. From its piece's first byte one step changes the same, and comes to the counter that the
/// condition chooses, though both ways may lead to one address. From the end of the counter of those that pass one step
/// leads past the piece, and from the end of that of the taken one leads to the target; neither changes anything else.
pub fn edges_go()
    ensures own { (i : Insn) (next : ℕ) (s : State) (b : Bool) → insn_jumps i s.core ≡ Some b →
        executed s i next (flow_of i) ≡ Next (gone s i (if b then target_after next i else next)) }
    ensures chooses { (i : Insn) (here to : ℕ) (passed taken : List ℕ) (s : State) (b : Bool) →
        IsEdge i here to passed taken s.memory → s.eip ≡ here → insn_jumps i s.core ≡ Some b →
        step s ≡ Next (gone s i (here + (if b then taken_from i else passed_from i))) }
    ensures passed { (i : Insn) (here to : ℕ) (passed taken : List ℕ) (s : State) →
        IsEdge i here to passed taken s.memory → s.eip ≡ here + passed_from i + counter_size →
        step s ≡ Next (record s { eip = here + length (edge_bytes i here to passed taken) }) }
    ensures taken { (i : Insn) (here to : ℕ) (passed taken : List ℕ) (s : State) →
        IsEdge i here to passed taken s.memory → s.eip ≡ here + taken_from i + counter_size →
        to < 2 ^ 32 → step s ≡ Next (record s { eip = to }) }
{}
