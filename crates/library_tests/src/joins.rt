//! Chains of programs of a few bytes, worked out by hand.

ghost use Rattle.std.specs.Prelude.{◌<◌, length};

use elf32_read::Run;
use mv_base::Bytes;
use sequence_join::chains;
use std::alloc::Global;
use std::process::Abort;
use std::test::Fail;
use superset::sites;

/// The chains of a program: of each its links, and the address at which it goes on or 0.
fn expect_chains(
    rt: &impl Abort,
    alloc: Global,
    code: &[u8],
    expected: &[(&[u32], Option<u32>)],
) -> Result<(), Fail>
    requires { length code.now < 16 }
{
    let runs = [Run {
        lo: 0x0804_8054,
        bytes: Bytes::new(code.to_vec(alloc)?),
    }];
    let made = chains(alloc, &sites(alloc, &runs)?)?;
    assert_eq!(rt; made.len(), expected.len());
    for (number, (links, next)) in expected.iter().enumerate() {
        assert!(rt; number < made.len());
        let chain = made.get(number);
        assert_eq!(rt; chain.links(), *links);
        assert_eq!(rt; chain.next(), *next);
    }
    Ok(())
}

#[test]
fn joins_the_sites_of_an_exit(rt: HostRuntime) -> Result<(), Fail> {
    // `mov eax,1`, `mov ebx,7`, `int 0x80`. The sites are at the offsets 0 to 5 and 7 to 10, and have 5, 2, 2, 2, 6, 5, 2,
    // 2, 2 and 2 bytes. Behind the last byte and at the one before it there is none.
    let code = [0xB8, 1, 0, 0, 0, 0xBB, 7, 0, 0, 0, 0xCD, 0x80];
    expect_chains(
        &rt,
        rt.alloc(),
        &code,
        &[
            (&[0, 5, 9], Some(0x0804_8060)),
            (&[1, 3], Some(0x0804_8059)),
            (&[2, 4], Some(0x0804_805E)),
            (&[6, 8], Some(0x0804_805F)),
            (&[7], Some(0x0804_805E)),
        ],
    )
}

#[test]
fn gives_a_shared_successor_to_the_first(rt: HostRuntime) -> Result<(), Fail> {
    // `mov eax` of four bytes that are each a `nop`, and then `hlt`, which ends the chain that begins first.
    let code = [0xB8, 0x90, 0x90, 0x90, 0x90, 0xF4];
    expect_chains(
        &rt,
        rt.alloc(),
        &code,
        &[(&[0, 5], None), (&[1, 2, 3, 4], Some(0x0804_8059))],
    )
}
