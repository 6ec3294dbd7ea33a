//! System calls made.

ghost use Rattle.std.specs.Prelude.{◌≡◌, ◌≤◌, [], IfOk, map};

use mv_base::NoMemory;
use std::alloc::Global;
use std::marker::Model;

/// A system call made: EAX, EBX, ECX, EDX, ESI, EDI and EBP before it.
#[derive(Clone, Copy)]
pub struct Call {
    pub words: [u32; 7],
}

/// The calls made, the oldest first. Contracts see their words, and how many more calls have room.
#[derive(Drop)]
pub struct CallList {
    items: Vec<Call>,
}

impl Model for CallList {
    ghost use Rattle.std.specs.Prelude.{◌-◌, map};
    ghost use Rattle.std.specs.Vec.{vec_len, vec_capacity};
    ghost use Rattle.x86_machine.specs.Calls.{Calls};

    ghost Value = { Calls };

    ghost view = { λ l. record { made = map (λ c. c.words) l.items.items; spare = vec_capacity l.items - vec_len l.items } };
}

impl CallList {
    ghost use Rattle.std.specs.Prelude.{◌≡◌, ◌+◌, ◌<◌, ◌≤◌, ◌++◌, ◌∷◌, [], IfOk, map};

    /// No call, with room for so many.
    pub fn with_room(alloc: Global, room: usize) -> Result<CallList, NoMemory>
        ensures made { IfOk result (λ l. l.made ≡ []) }
        ensures spare { IfOk result (λ l. room ≤ l.spare) }
    {
        Ok(CallList {
            items: Vec::with_capacity(alloc, room)?,
        })
    }

    /// Adds a call, for which there is room.
    pub fn push(&mut self, call: Call)
        requires { 0 < self.old.spare }
        ensures made { self.new.made ≡ self.old.made ++ call.words ∷ [] }
        ensures spare { self.new.spare + 1 ≡ self.old.spare }
    {
        self.items.push_reserved(call);
    }

    /// The calls as a slice.
    pub fn as_slice(&self) -> &[Call]
        ensures { map (λ c. c.words) result.now ≡ self.now.made }
    {
        self.items.as_slice()
    }
}
