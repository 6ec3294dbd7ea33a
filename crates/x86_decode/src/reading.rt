//! What some bytes come to before the limit of 15 bytes is looked at.

ghost use Rattle.std.specs.Prelude.{◌≡◌, ◌≤◌, ◌+◌, ◌<◌, ◌^◌};
ghost use Rattle.x86_insn.specs.Scanning.{best as best_of, later as later_by};
ghost use Rattle.x86_decode.specs.Reading.{scan_of, len_of};

use x86_insn::Insn;

/// What bytes come to, read from the left.
#[derive(Clone, Copy)]
pub enum Reading {
    /// They begin with an instruction of this length.
    Found { insn: Insn, len: usize },
    /// They are too few. The shortest instruction that they begin has this length.
    More { len: usize },
    /// They begin no instruction.
    Nothing,
}

impl Reading {
    ghost use Rattle.std.specs.Prelude.{◌≡◌, ◌≤◌, ◌+◌, ◌<◌, ◌^◌};
    ghost use Rattle.x86_insn.specs.Scanning.{best as best_of, later as later_by};
    ghost use Rattle.x86_decode.specs.Reading.{scan_of, len_of};

    /// The same behind `count` bytes more.
    pub fn later(self, count: usize) -> Reading
        requires { len_of (scan_of self) + count < 2 ^ 64 }
        ensures is { scan_of result ≡ later_by count (scan_of self) }
        ensures len { len_of (scan_of result) ≤ len_of (scan_of self) + count }
    {
        match self {
            Reading::Found { insn, len } => Reading::Found {
                insn,
                len: count + len,
            },
            Reading::More { len } => Reading::More { len: count + len },
            Reading::Nothing => Reading::Nothing,
        }
    }

    /// Of two readings of the same bytes, by different forms: what is found, else the shorter.
    pub fn best(self, other: Reading) -> Reading
        ensures { scan_of result ≡ best_of (scan_of self) (scan_of other) }
    {
        match (self, other) {
            (Reading::Found { .. }, _) | (_, Reading::Nothing) => self,
            (_, Reading::Found { .. }) | (Reading::Nothing, _) => other,
            (Reading::More { len: first }, Reading::More { len: second }) => Reading::More {
                len: first.min(second),
            },
        }
    }
}
