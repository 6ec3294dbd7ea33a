//! Which sites an edge rule picks, the texts of edge rules, a question that is stored, and the bytes of a piece as they are
//! worked out by hand.

ghost use Rattle.std.specs.Prelude.{◌≡◌, IfOk, replicate};
ghost use Rattle.counter_hooks.specs.Rules.{Tells};
ghost use Rattle.edge_hooks.specs.Rules.{edge_picked as is_picked, EdgesAscend};

use crate::hooks::EdgeHooks;
use crate::piece::{edge_len, edge_piece};
use crate::rule_text::{is_edge_rule, read_edge_rule};
use crate::rules::{EdgeRule, edge_number, edge_picked};
use counter_hooks::Question;
use mv_base::{Addrs, NoMemory};
use std::alloc::Global;
use std::test::Fail;
use superset::{Piece, Site};
use x86_insn::{Cond, Insn, LoopKind};

// A site of two bytes.
fn site(insn: Insn) -> Site
    ensures { result.insn ≡ insn }
{
    Site {
        at: 0x1000,
        len: 2,
        insn,
    }
}

// One address.
fn at(alloc: Global, address: u32) -> Result<EdgeRule, NoMemory>
    ensures { IfOk result EdgesAscend }
{
    let mut addresses = Vec::new(alloc);
    addresses.push(address)?;
    Ok(EdgeRule::At(Addrs::new(addresses)))
}

// How the hooks of a rule and a question answer at a site.
fn answer<G: Question + Drop>(rule: EdgeRule, ask: G, site: &Site) -> bool
    requires ascends { EdgesAscend rule }
    requires tells { Tells (G.answers ask) (is_picked rule) }
    ensures { result ≡ is_picked rule site.now }
{
    EdgeHooks::new(rule, ask).asks(site)
}

#[test]
fn rules_pick_branches_and_loops(rt: HostRuntime) -> Result<(), Fail> {
    let branch = site(Insn::Branch {
        cond: Cond::E,
        rel: 0,
    });
    let count = site(Insn::Loop {
        kind: LoopKind::Ecxz,
        rel: 0,
    });
    assert!(rt; edge_picked(&EdgeRule::All, &branch) && edge_picked(&EdgeRule::All, &count));
    assert!(rt; !edge_picked(&EdgeRule::All, &site(Insn::Jump { rel: 0 })));
    assert!(rt; !edge_picked(&EdgeRule::None, &branch));
    let here = at(rt.alloc(), 0x1000)?;
    assert!(rt; edge_picked(&here, &branch));
    assert!(rt; !edge_picked(&here, &site(Insn::Nop)));
    assert!(rt; !edge_picked(&at(rt.alloc(), 0x1001)?, &branch));
    assert_eq!(rt; edge_number(&EdgeRule::None), 0);
    assert_eq!(rt; edge_number(&EdgeRule::All), 1);
    assert_eq!(rt; edge_number(&here.copied(rt.alloc())?), 6);
    assert!(rt; !answer(EdgeRule::None, |_: &Site| false, &branch));
    Ok(())
}

#[test]
fn a_text_is_an_edge_rule_or_none(rt: HostRuntime) -> Result<(), Fail> {
    for text in ["none", "all", "at:0804805a", "at:0000000a,ffffffff"] {
        assert!(rt; is_edge_rule(text));
    }
    for text in ["", "branches", "at:", "at:0804805a,0804805a"] {
        assert!(rt; !is_edge_rule(text));
    }
    let rule = read_edge_rule(rt.alloc(), "at:0000000a,ffffffff")?;
    assert!(rt;
        matches!(&rule, Some(EdgeRule::At(list)) if list.as_slice() == &[10, u32::MAX][..])
    );
    assert!(rt; matches!(read_edge_rule(rt.alloc(), "all")?, Some(EdgeRule::All)));
    assert!(rt; read_edge_rule(rt.alloc(), "calls")?.is_none());
    Ok(())
}

// Bytes in place of a counter.
fn counter(byte: u8) -> Piece
    ensures { result ≡ replicate 46 byte }
{
    Piece::new(&[byte; 46])
}

#[test]
fn a_piece_is_as_worked_out(rt: HostRuntime) {
    // At 0x00100000, to 0x00100200: the near jump ends 105, or 101, bytes behind the piece's first byte.
    let branch = site(Insn::Branch {
        cond: Cond::Ne,
        rel: 0,
    });
    let piece = edge_piece(&branch, 0x0010_0000, 0x0010_0200, &counter(1), &counter(2));
    let bytes = piece.as_slice();
    assert_eq!(rt; bytes.len(), 105);
    assert_eq!(rt; edge_len(&branch), 105);
    assert!(rt; &bytes[..7] == &[0x0F, 0x85, 0x30, 0, 0, 0, 1][..]);
    assert!(rt; &bytes[51..55] == &[1, 0xEB, 0x33, 2][..]);
    assert!(rt; &bytes[99..] == &[2, 0xE9, 0x97, 1, 0, 0][..]);
    let count = site(Insn::Loop {
        kind: LoopKind::Ecxz,
        rel: 0,
    });
    let piece = edge_piece(&count, 0x0010_0000, 0x0010_0200, &counter(1), &counter(2));
    let bytes = piece.as_slice();
    assert_eq!(rt; bytes.len(), 101);
    assert_eq!(rt; edge_len(&count), 101);
    assert!(rt; &bytes[..3] == &[0xE3, 0x30, 1][..]);
    assert!(rt; &bytes[95..] == &[2, 0xE9, 0x9B, 1, 0, 0][..]);
}
