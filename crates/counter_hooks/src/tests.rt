//! Which sites a rule picks, the texts of rules, a question that is stored, and the bytes of a counter as they are worked
//! out by hand.

ghost use Rattle.std.specs.Prelude.{◌≡◌, IfOk};
ghost use Rattle.counter_hooks.specs.Rules.{IsAscending, Tells, picked as is_picked};

use crate::code::{counter_len, counter_piece};
use crate::hooks::{Hooks, Question};
use crate::rule_text::{is_rule, read_rule};
use crate::rules::{Rule, picked, rule_number};
use mv_base::{Addrs, NoMemory};
use std::alloc::Global;
use std::test::Fail;
use superset::Site;
use x86_insn::{Insn, Reg, Rm};

// A site of two bytes.
fn site(at: u32, insn: Insn) -> Site {
    Site { at, len: 2, insn }
}

// How the hooks of a rule and a question answer at a site.
fn answer<F: Question + Drop>(rule: Rule, ask: F, site: &Site) -> bool
    requires ascends { IsAscending rule }
    requires tells { Tells (F.answers ask) (is_picked rule) }
    ensures { result ≡ is_picked rule site.now }
{
    Hooks::new(rule, ask).asks(site)
}

// How a rule answers that is known when the program runs.
fn answer_by(alloc: Global, rule: Rule, site: &Site) -> Result<bool, NoMemory>
    requires { IsAscending rule }
    ensures { IfOk result (λ b. b ≡ is_picked rule site.now) }
{
    let asked = rule.copied(alloc)?;
    Ok(answer(rule, |site: &Site| picked(&asked, site), site))
}

// One address.
fn at(alloc: Global, address: u32) -> Result<Rule, NoMemory>
    ensures { IfOk result IsAscending }
{
    let mut addresses = Vec::new(alloc);
    addresses.push(address)?;
    Ok(Rule::At(Addrs::new(addresses)))
}

#[test]
fn rules_pick_by_flow(rt: HostRuntime) {
    let call = site(0x1000, Insn::Call { rel: 0 });
    let via = site(
        0x1000,
        Insn::CallVia {
            src: Rm::R(Reg::Eax),
        },
    );
    let ret = site(0x1000, Insn::Ret { drop: 4 });
    assert!(rt; picked(&Rule::Calls, &call));
    assert!(rt; picked(&Rule::Calls, &via));
    assert!(rt; !picked(&Rule::Calls, &ret));
    assert!(rt; picked(&Rule::Returns, &ret));
    assert!(rt; !picked(&Rule::Branches, &ret));
    assert!(rt; picked(&Rule::System, &site(0x1000, Insn::Int80)));
    assert!(rt; picked(&Rule::All, &site(0x1000, Insn::Nop)));
    assert!(rt; !picked(&Rule::None, &site(0x1000, Insn::Nop)));
}

#[test]
fn rules_have_numbers(rt: HostRuntime) -> Result<(), Fail> {
    assert_eq!(rt; rule_number(&Rule::None), 0);
    assert_eq!(rt; rule_number(&Rule::All), 1);
    assert_eq!(rt; rule_number(&Rule::Calls), 2);
    assert_eq!(rt; rule_number(&Rule::Returns), 3);
    assert_eq!(rt; rule_number(&Rule::Branches), 4);
    assert_eq!(rt; rule_number(&Rule::System), 5);
    assert_eq!(rt; rule_number(&at(rt.alloc(), 0x1000)?), 6);
    Ok(())
}

#[test]
fn hooks_answer_by_their_rule(rt: HostRuntime) -> Result<(), Fail> {
    let rule = Rule::All;
    let same = rule.copied(rt.alloc())?;
    assert!(rt; answer(rule, |_: &Site| true, &site(0x1000, Insn::Nop)));
    assert!(rt; picked(&same, &site(0x1000, Insn::Nop)));
    let nop = site(0x1000, Insn::Nop);
    assert!(rt; answer_by(rt.alloc(), at(rt.alloc(), 0x1000)?, &nop)?);
    assert!(rt; !answer_by(rt.alloc(), at(rt.alloc(), 0x1001)?, &nop)?);
    assert!(rt; !answer_by(rt.alloc(), Rule::Calls, &nop)?);
    Ok(())
}

#[test]
fn a_counter_is_as_worked_out(rt: HostRuntime) {
    // ECX is kept at 0x00105000, and the counter has the eight bytes from 0x00105040 on.
    let piece = counter_piece(0x0010_5000, 0x0010_5040);
    assert_eq!(rt; counter_len(), 46);
    assert!(rt;
        piece.as_slice()
            == &[
                0x89, 0x0D, 0x00, 0x50, 0x10, 0x00, 0x8B, 0x0D, 0x40, 0x50, 0x10, 0x00, 0x8D, 0x49,
                0x01, 0x89, 0x0D, 0x40, 0x50, 0x10, 0x00, 0xE3, 0x02, 0xEB, 0x0F, 0x8B, 0x0D, 0x44,
                0x50, 0x10, 0x00, 0x8D, 0x49, 0x01, 0x89, 0x0D, 0x44, 0x50, 0x10, 0x00, 0x8B, 0x0D,
                0x00, 0x50, 0x10, 0x00,
            ][..]
    );
}

#[test]
fn a_text_is_a_rule_or_none(rt: HostRuntime) {
    for text in ["none", "branches", "at:08048054", "at:0000000a,ffffffff"] {
        assert!(rt; is_rule(text));
    }
    for text in [
        "",
        "All",
        "at:",
        "at:0804805",
        "at:0804805A",
        "at:08048054,",
    ] {
        assert!(rt; !is_rule(text));
    }
    for list in ["at:08048054,08048054", "at:08048055,08048054"] {
        assert!(rt; !is_rule(list));
    }
}

#[test]
fn a_text_is_read(rt: HostRuntime) -> Result<(), Fail> {
    let rule = read_rule(rt.alloc(), "at:0000000a,ffffffff")?;
    assert!(rt; matches!(&rule, Some(Rule::At(list)) if list.as_slice() == &[10, u32::MAX][..]));
    assert!(rt; matches!(read_rule(rt.alloc(), "calls")?, Some(Rule::Calls)));
    assert!(rt; read_rule(rt.alloc(), "at:0000000a,")?.is_none());
    Ok(())
}
