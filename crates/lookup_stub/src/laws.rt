//! What a run of the stub does, over all states. The functions stand for no work: their bodies are empty.

ghost use Rattle.std.specs.Prelude.{◌≡◌, ℕ, List, length};
ghost use Rattle.mv_base.specs.declared.range.RunPlace.{RunPlace};
ghost use Rattle.x86_insn.specs.State.{State};
ghost use Rattle.lookup_stub.specs.Stub.{stub, stub_size};
ghost use Rattle.lookup_stub.specs.Finding.{IsLookup, Finds, lookup_steps, new_address};

/// From its first byte, with an address in the private area's second word, the stub comes to the address's new place in
/// the table's form: in 24 steps (form 2) or 19 (form 1) and four a run up to the address's, or in 15 and four a run
/// where it lies in no run. No step stops; registers and flags come back, GS stays, and each state on the way keeps all
/// but the private bytes 4 to 11 and 44 to 63.
pub fn stub_finds()
    ensures { (form : ℕ) (runs : List RunPlace) (p : ℕ) (table : List ℕ) (lo at a : ℕ) (s : State) →
        IsLookup form runs p table lo at a s →
        Finds p (lookup_steps form runs a) (new_address form table lo runs a) s }
{}

/// How many bytes the stub has.
pub fn stub_has_its_size()
    ensures { (form : ℕ) (runs : List RunPlace) (p : ℕ) →
        length (stub form runs p) ≡ stub_size form (length runs) }
{}
