//! The prefixes of an instruction. Intel SDM, volume 2, section 2.1.1.

ghost use Rattle.std.specs.Prelude.{◌≡◌, ◌≤◌, length};
ghost use Rattle.x86_insn.specs.Prefixes.{segments, locks_and_repeats, is_among, is_prefix, at_most_one, may_stand_together, rep_of, marks_of};
ghost use Rattle.x86_insn.specs.Spelling.{front, asks_memory};

use x86_insn::Rep;
use x86_insn::row::Marks;

// ES, CS, SS, DS and GS.
const SEGMENTS: [u8; 5] = [0x26, 0x2E, 0x36, 0x3E, GS];

// The prefix of operands that are relative to GS.
const GS: u8 = 0x65;

// LOCK, REPNE and REP.
const LOCKS_AND_REPEATS: [u8; 3] = [0xF0, 0xF2, 0xF3];

// The prefix of 16-bit operands.
const WORD: u8 = 0x66;

// A byte is one of a list.
fn is_among(list: &[u8], byte: u8) -> bool
    ensures { result ≡ is_among list.now byte }
{
    for other in list {
        if byte == *other {
            return true;
        }
    }
    false
}

fn is_prefix(byte: u8) -> bool
    ensures { result ≡ is_prefix byte }
{
    byte == WORD || is_among(&SEGMENTS, byte) || is_among(&LOCKS_AND_REPEATS, byte)
}

/// How many bytes at the front are prefixes.
pub fn prefix_count(bytes: &[u8]) -> usize
    ensures { result ≡ length (front bytes.now) }
{
    let mut count = 0;
    for byte in bytes {
        if !is_prefix(*byte) {
            return count;
        }
        count += 1;
    }
    count
}

// At most one of a group stands; it may stand several times.
fn at_most_one(group: &[u8], prefixes: &[u8]) -> bool
    ensures { result ≡ at_most_one group.now prefixes.now }
{
    group
        .iter()
        .filter(|prefix| is_among(prefixes, **prefix))
        .count()
        <= 1
}

/// At most one prefix of each group stands.
pub fn may_stand_together(prefixes: &[u8]) -> bool
    ensures { result ≡ may_stand_together prefixes.now }
{
    at_most_one(&SEGMENTS, prefixes) && at_most_one(&LOCKS_AND_REPEATS, prefixes)
}

/// What prefixes set; those of the segments set nothing, but for GS.
pub fn marks_of(prefixes: &[u8]) -> Marks
    ensures { result ≡ marks_of prefixes.now }
{
    let rep = if is_among(prefixes, 0xF3) {
        Rep::F3
    } else if is_among(prefixes, 0xF2) {
        Rep::F2
    } else {
        Rep::Once
    };
    Marks {
        word: is_among(prefixes, WORD),
        lock: is_among(prefixes, 0xF0),
        rep,
        gs: is_among(prefixes, GS),
    }
}

/// Whether the prefixes ask for memory: F0 and 65 do.
pub fn asks_memory(marks: Marks) -> bool
    ensures { result ≡ asks_memory marks }
{
    marks.lock || marks.gs
}
