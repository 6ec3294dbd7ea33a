//! Pieces at the address behind a stub of 77 bytes, as they are worked out by hand.

ghost use Rattle.std.specs.Prelude.{◌≡◌};

use call_rewrite::{call_piece, call_via_piece, far_len, jump_via_piece, return_piece};
use superset::Site;
use x86_insn::{Insn, Mem, Reg, Rm};

const STUB: u32 = 0x0010_0000;

const HERE: u32 = 0x0010_004D;

const PRIVATE: u32 = 0x0010_2000;

// An instruction of this length at 0x08048054.
fn site(len: u8, insn: Insn) -> Site
    ensures { result.insn ≡ insn }
{
    Site {
        at: 0x0804_8054,
        len,
        insn,
    }
}

#[test]
fn goes_through_an_operand(rt: HostRuntime) {
    // `jmp esp`; `call [eax*4+12345678]`
    let jump = site(
        2,
        Insn::JumpVia {
            src: Rm::R(Reg::Esp),
        },
    );
    let bytes: [u8; 22] = [
        0xA3, 0x00, 0x20, 0x10, 0x00, 0x89, 0xE0, 0xA3, 0x04, 0x20, 0x10, 0x00, 0xA1, 0x00, 0x20,
        0x10, 0x00, 0xE9, 0x9D, 0xFF, 0xFF, 0xFF,
    ];
    assert!(rt; jump_via_piece(&jump, HERE, STUB, PRIVATE).as_slice() == &bytes[..]);
    assert_eq!(rt; far_len(&jump), 22);
    let operand = Mem {
        base: None,
        index: Some((Reg::Eax, 4)),
        disp: 0x1234_5678,
        gs: false,
    };
    let call = site(
        7,
        Insn::CallVia {
            src: Rm::M(operand),
        },
    );
    let bytes: [u8; 32] = [
        0xA3, 0x00, 0x20, 0x10, 0x00, 0x8B, 0x04, 0x85, 0x78, 0x56, 0x34, 0x12, 0xA3, 0x04, 0x20,
        0x10, 0x00, 0xA1, 0x00, 0x20, 0x10, 0x00, 0x68, 0x5B, 0x80, 0x04, 0x08, 0xE9, 0x93, 0xFF,
        0xFF, 0xFF,
    ];
    assert!(rt; call_via_piece(&call, HERE, STUB, PRIVATE).as_slice() == &bytes[..]);
    assert_eq!(rt; far_len(&call), 32);
}

#[test]
fn calls_and_returns(rt: HostRuntime) {
    let call = site(5, Insn::Call { rel: 0x20 });
    let bytes: [u8; 10] = [0x68, 0x59, 0x80, 0x04, 0x08, 0xE9, 0x36, 0x00, 0x00, 0x00];
    assert!(rt; call_piece(&call, 0x0010_0040, 0x0010_0080).as_slice() == &bytes[..]);
    // `ret 8`
    let back = site(3, Insn::Ret { drop: 8 });
    let bytes: [u8; 18] = [
        0x8F, 0x05, 0x04, 0x20, 0x10, 0x00, 0x8D, 0xA4, 0x24, 0x08, 0x00, 0x00, 0x00, 0xE9, 0xA1,
        0xFF, 0xFF, 0xFF,
    ];
    assert!(rt; return_piece(&back, HERE, STUB, PRIVATE).as_slice() == &bytes[..]);
    assert_eq!(rt; far_len(&back), 18);
}
