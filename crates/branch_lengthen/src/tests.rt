//! Pieces at 0x00100000 whose target is at 0x00100040.

ghost use Rattle.std.specs.Prelude.{◌≡◌};

use crate::pieces::{branch_piece, count_piece, join_piece, jump_piece, near_len};
use superset::Site;
use x86_insn::{Cond, Insn, LoopKind};

const HERE: u32 = 0x0010_0000;

const TO: u32 = 0x0010_0040;

// A site of two bytes.
fn site(insn: Insn) -> Site
    ensures { result.insn ≡ insn }
{
    Site {
        at: 0x0804_8054,
        len: 2,
        insn,
    }
}

#[test]
fn pieces_are_as_worked_out(rt: HostRuntime) {
    let jump = site(Insn::Jump { rel: 2 });
    let piece = jump_piece(&jump, HERE, TO);
    assert!(rt; piece.as_slice() == &[0xE9, 0x3B, 0, 0, 0][..]);
    assert_eq!(rt; near_len(&jump), 5);

    let branch = site(Insn::Branch {
        cond: Cond::E,
        rel: 2,
    });
    let piece = branch_piece(&branch, HERE, TO);
    assert!(rt; piece.as_slice() == &[0x0F, 0x84, 0x3A, 0, 0, 0][..]);
    assert_eq!(rt; near_len(&branch), 6);

    let count = site(Insn::Loop {
        kind: LoopKind::Plain,
        rel: 1,
    });
    let piece = count_piece(&count, HERE, TO);
    assert!(rt; piece.as_slice() == &[0xE2, 2, 0xEB, 5, 0xE9, 0x37, 0, 0, 0][..]);
    assert_eq!(rt; near_len(&count), 9);

    // A join jumps back over its own five bytes.
    let join = join_piece(HERE, HERE);
    assert!(rt; join.as_slice() == &[0xE9, 0xFB, 0xFF, 0xFF, 0xFF][..]);
}
