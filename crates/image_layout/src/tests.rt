//! What no clause says: that laying out succeeds where there is memory, and two chains byte by byte, with a counter in front
//! of the branch.

ghost use Rattle.std.specs.Prelude.{◌≡◌, length};
ghost use Rattle.std.specs.List.{AllByRecursion};
ghost use Rattle.elf32_read.specs.Runs.{code_of};
ghost use Rattle.map_table.specs.Paged.{AreRuns};
ghost use Rattle.counter_hooks.specs.Rules.{IsAscending, Tells, picked as is_picked};
ghost use Rattle.superset.specs.Sites.{sites_in};
ghost use Rattle.sequence_join.specs.Chains.{order, EachOnce, IsLinked};
ghost use Rattle.image_layout.specs.Room.{ArePagesApart};

use crate::{LayFault, first_fit, lay};
use counter_hooks::{Hooks, Question, Rule, picked};
use elf32_read::{Headers, Image, Run, Segments};
use elf32_write::Plan;
use mv_base::Bytes;
use sequence_join::{ChainList, chains};
use std::alloc::Global;
use std::test::Fail;
use superset::{Site, sites};

// What is added by a rule and a question that answers by it.
fn lay_by<F: Question + Drop>(
    alloc: Global,
    image: &Image,
    runs: &[Run],
    sites: &[Site],
    chains: &ChainList,
    rule: Rule,
    ask: F,
) -> Result<Plan, LayFault>
    requires apart { ArePagesApart 0 image.now.segments }
    requires runs { AreRuns runs.now }
    requires sites { sites.now ≡ sites_in (code_of runs.now) runs.now }
    requires once { EachOnce (length sites.now) (order chains.now) }
    requires linked { AllByRecursion (IsLinked sites.now) chains.now }
    requires ascends { IsAscending rule }
    requires tells { Tells (F.answers ask) (is_picked rule) }
{
    lay(alloc, image, runs, sites, chains, &Hooks::new(rule, ask))
}

/// A branch to its own second byte, which is `inc eax` at 0x08048055: in front of it its counter, and behind each a join,
/// since the next address is no site. ECX is kept at 0x00104000.
const CHAINS: [u8; 64] = [
    0x89, 0x0D, 0x00, 0x40, 0x10, 0x00, 0x8B, 0x0D, 0x40, 0x40, 0x10, 0x00, 0x8D, 0x49, 0x01, 0x89,
    0x0D, 0x40, 0x40, 0x10, 0x00, 0xE3, 0x02, 0xEB, 0x0F, 0x8B, 0x0D, 0x44, 0x40, 0x10, 0x00, 0x8D,
    0x49, 0x01, 0x89, 0x0D, 0x44, 0x40, 0x10, 0x00, 0x8B, 0x0D, 0x00, 0x40, 0x10, 0x00, //
    0x0F, 0x84, 0x05, 0, 0, 0, 0xE9, 0xC2, 0x7F, 0xF4, 0x07, //
    0xFF, 0xC0, 0xE9, 0xBC, 0x7F, 0xF4, 0x07,
];

#[test]
fn two_chains_stand_behind_the_stub(rt: HostRuntime) -> Result<(), Fail> {
    let alloc = rt.alloc();
    let image = Image {
        entry: 0x0804_8054,
        e_flags: 0,
        ident: [0; 9],
        headers: Headers::new(Vec::new(alloc)),
        segments: Segments::new(Vec::new(alloc)),
    };
    let mut bytes = Vec::new(alloc);
    bytes.push(0x74)?;
    bytes.push(0xFF)?;
    bytes.push(0xC0)?;
    let runs = [Run {
        lo: 0x0804_8054,
        bytes: Bytes::new(bytes),
    }];
    let sites = sites(alloc, &runs)?;
    let chains = chains(alloc, &sites)?;
    let asked = Rule::Branches;
    let ask = |site: &Site| picked(&asked, site);
    assert_eq!(rt; first_fit(&image, 0x5000), Some(0x0010_0000));
    match lay_by(alloc, &image, &runs, &sites, &chains, Rule::Branches, ask) {
        Ok(plan) => {
            assert_eq!(rt; plan.base, 0x0010_0000);
            assert_eq!(rt; plan.entry, 0x0010_005B);
            assert!(rt; plan.counted.as_slice() == &[(0x0804_8054, 0)][..]);
            assert_eq!(rt; plan.rule, 4);
            assert_eq!(rt; plan.edge_rule, 0);
            assert_eq!(rt; plan.code.as_slice().get(91..), Some(CHAINS.as_slice()));
        }
        Err(_) => assert!(rt; false),
    }
    Ok(())
}
