//! Sites of runs of which some end within an instruction, and the bytes of a piece.

ghost use Rattle.std.specs.Prelude.{◌≡◌, IfOk};

use crate::disassembly::sites;
use crate::piece::Piece;
use crate::site::Site;
use crate::targets::{successor, target};
use elf32_read::Run;
use mv_base::{Bytes, NoMemory};
use std::alloc::Global;
use std::test::Fail;
use x86_insn::{Cond, Insn};

/// A run of these bytes.
fn run(alloc: Global, lo: u32, bytes: &[u8]) -> Result<Run, NoMemory>
    ensures { IfOk result (λ run. (run.lo ≡ lo) × (run.bytes ≡ bytes.now)) }
{
    Ok(Run {
        lo,
        bytes: Bytes::new(bytes.to_vec(alloc)?),
    })
}

#[test]
fn finds_what_lies_wholly_in_a_run(rt: HostRuntime) -> Result<(), Fail> {
    // `nop`, `hlt`, `int 0x80`; then `mov eax` with three of its four bytes, and with all; 06 begins no site.
    let runs = [
        run(rt.alloc(), 0x1000, &[0x90, 0xF4, 0xCD, 0x80])?,
        run(rt.alloc(), 0x1005, &[0xB8, 6, 6, 6])?,
        run(rt.alloc(), 0x100A, &[0xB8, 6, 6, 6, 6])?,
    ];
    let found = sites(rt.alloc(), &runs)?;
    assert_eq!(rt; found.len(), 4);
    for (site, (at, len)) in found
        .iter()
        .zip([(0x1000, 1), (0x1001, 1), (0x1002, 2), (0x100A, 5)])
    {
        assert_eq!(rt; site.at, at);
        assert_eq!(rt; site.len, len);
    }
    Ok(())
}

#[test]
fn names_the_target_of_a_branch(rt: HostRuntime) {
    // `je` back by 16 from behind its two bytes at the last address but one.
    let site = Site {
        at: 0xFFFF_FFFE,
        len: 2,
        insn: Insn::Branch {
            cond: Cond::E,
            rel: 0xFFFF_FFF0,
        },
    };
    assert_eq!(rt; successor(&site), 0);
    assert_eq!(rt; target(&site), 0xFFFF_FFF0);
}

#[test]
fn keeps_the_bytes_of_a_piece(rt: HostRuntime) {
    let piece = Piece::new(&[0xE9, 1, 2, 3, 4]);
    assert_eq!(rt; piece.len(), 5);
    assert!(rt; !piece.is_empty());
    assert_eq!(rt; piece.as_slice(), [0xE9, 1, 2, 3, 4].as_slice());
    let more = piece.and(&[0x90]);
    assert_eq!(rt; more.as_slice(), [0xE9, 1, 2, 3, 4, 0x90].as_slice());
}
