//! Rewriting a whole file.

ghost use Rattle.std.specs.Prelude.{◌≡◌, ◌≤◌, length, None, IfOk};
ghost use Rattle.mv_base.specs.Bytes.{AreBytes};
ghost use Rattle.elf32_read.specs.Faults.{limit_fault, load_refusal};
ghost use Rattle.elf32_read.specs.Reading.{IsImage};
ghost use Rattle.counter_hooks.specs.Rules.{Tells};
ghost use Rattle.edge_hooks.specs.declared.rules.EdgeRule.TheVariants as edge_rule;
ghost use Rattle.edge_hooks.specs.Rules.{edge_picked};
ghost use Rattle.elf32_write.specs.Frame.{Frame};
ghost use Rattle.image_layout.specs.Rules.{alone, both};
ghost use Rattle.mv_rewrite.specs.Layout.{size, IsPlanned};
ghost use Rattle.mv_rewrite.specs.OutputFile.{IsWrittenFor};
ghost use Rattle.mv_rewrite.specs.Rewriting.{IsRewritten};
ghost use Rattle.simulation_laws.specs.Stopping.{Simulates};

use counter_hooks::{Hooks, Question};
use edge_hooks::{EdgeHooks, EdgeRule};
use elf32_read::{Image, ImageFault, ReadImage, admit, read_image, runs};
use elf32_write::{Plan, added_len, write_image};
use image_layout::{LayFault, lay_edges};
use mv_base::{Bytes, NoMemory, Range};
use sequence_join::chains;
use std::alloc::Global;
use superset::{Site, sites};
use thiserror::Error;

/// How many bytes a file that is read may have: 256 MiB.
pub const FILE_LIMIT: usize = 268_435_456;

/// An output file, how many sites its input has, the addresses that it adds, and how many counters it has.
#[derive(Drop)]
pub struct Rewritten {
    pub bytes: Bytes,
    pub sites: u32,
    pub added: Range,
    pub counters: u32,
}

/// Why a file is not rewritten: its first fault, no room for the added block, which has this many bytes, or want of
/// memory.
#[derive(Clone, Copy, Debug, PartialEq, Eq, Drop, Error)]
pub enum RewriteFault {
    #[error("bad image: {0}")]
    Image(ImageFault),
    #[error("no room for {0} bytes")]
    NoRoom(u64),
    #[error("no memory")]
    NoMemory,
}

impl From<NoMemory> for RewriteFault {
    ghost use Rattle.std.specs.Prelude.{◌≡◌};
    ghost use Rattle.mv_rewrite.specs.declared.rewriting.RewriteFault.TheVariants as fault;

    ghost from_gives = { λ _ e. e ≡ fault.NoMemory };

    fn from(_error: NoMemory) -> RewriteFault {
        RewriteFault::NoMemory
    }
}

impl From<LayFault> for RewriteFault {
    ghost use Rattle.std.specs.Prelude.{◌≡◌};
    ghost use Rattle.mv_rewrite.specs.Rewriting.{laid_fault};

    ghost from_gives = { λ fault e. e ≡ laid_fault fault };

    fn from(fault: LayFault) -> RewriteFault {
        match fault {
            LayFault::NoRoom(size) => RewriteFault::NoRoom(size),
            LayFault::NoMemory => RewriteFault::NoMemory,
        }
    }
}

/// The output of a static executable: its code relocated, a table from old to new addresses, the counters of the sites
/// that the hooks' rule picks, and the input whole, no longer executable. While the steps of a run of the input are clear
/// (its system calls touch no added address and no code, and no trap comes at an added address), the output passes through
/// a state that agrees after each of them, shows nothing else on the way, and stops where the input stops; where the input
/// stops at bytes outside the known instructions, the output stops by a fetch fault at the same address. After each of
/// these steps each counter holds how often its site was executed, modulo 2^64, and at a stop the instruction that stops
/// is counted too.
///
/// The hooks are asked twice a site.
///
/// # Errors
///
/// `Image` with the file's first fault, where it has one; else `NoRoom` with the size of the added block, where no
/// place has room for it; `NoMemory` where memory is wanted.
pub fn rewrite<F: Question>(
    alloc: Global,
    bytes: &[u8],
    hooks: &Hooks<F>,
) -> Result<Rewritten, RewriteFault>
    requires { length bytes.now ≤ FILE_LIMIT }
    ensures rewritten { IsRewritten bytes.now (alone hooks.now) result }
    ensures simulates { IfOk result (λ r. Simulates bytes.now r.bytes) }
    ensures written { IfOk result (λ r.
        (f : Frame) × IsWrittenFor bytes.now (alone hooks.now) r.bytes f) }
{
    rewrite_alone(alloc, bytes, hooks, |_: &Site| false)
}

/// The same, with a question that is answered by no at every site.
fn rewrite_alone<F: Question, G: Question + Drop>(
    alloc: Global,
    bytes: &[u8],
    hooks: &Hooks<F>,
    ask: G,
) -> Result<Rewritten, RewriteFault>
    requires limit { length bytes.now ≤ FILE_LIMIT }
    requires tells { Tells (G.answers ask) (edge_picked edge_rule.None) }
    ensures rewritten { IsRewritten bytes.now (alone hooks.now) result }
    ensures simulates { IfOk result (λ r. Simulates bytes.now r.bytes) }
    ensures written { IfOk result (λ r.
        (f : Frame) × IsWrittenFor bytes.now (alone hooks.now) r.bytes f) }
{
    let edges = EdgeHooks::new(EdgeRule::None, ask);
    rewrite_edges(alloc, bytes, hooks, &edges)
}

/// The output as `rewrite` has it, with two counters for each branch and loop that the edge hooks' rule picks: how often it
/// was taken, and how often it was passed, each modulo 2^64.
///
/// Both hooks are asked twice a site.
///
/// # Errors
///
/// Those of `rewrite`, for the block that these counters and their longer code give.
pub fn rewrite_edges<F: Question, G: Question>(
    alloc: Global,
    bytes: &[u8],
    hooks: &Hooks<F>,
    edges: &EdgeHooks<G>,
) -> Result<Rewritten, RewriteFault>
    requires { length bytes.now ≤ FILE_LIMIT }
    ensures rewritten { IsRewritten bytes.now (both hooks.now edges.now) result }
    ensures simulates { IfOk result (λ r. Simulates bytes.now r.bytes) }
    ensures written { IfOk result (λ r.
        (f : Frame) × IsWrittenFor bytes.now (both hooks.now edges.now) r.bytes f) }
{
    match read_image(alloc, bytes) {
        Ok(image) => rewrite_image(alloc, &image, bytes, hooks, edges),
        Err(ReadImage::Bad(fault)) => Err(RewriteFault::Image(fault)),
        Err(ReadImage::NoMemory) => Err(RewriteFault::NoMemory),
    }
}

/// The output of a file whose image this is.
fn rewrite_image<F: Question, G: Question>(
    alloc: Global,
    image: &Image,
    bytes: &[u8],
    hooks: &Hooks<F>,
    edges: &EdgeHooks<G>,
) -> Result<Rewritten, RewriteFault>
    requires image { IsImage bytes.now image.now }
    requires limit { length bytes.now ≤ FILE_LIMIT }
    ensures rewritten { IsRewritten bytes.now (both hooks.now edges.now) result }
    ensures bytes { IfOk result (λ r. AreBytes r.bytes) }
{
    match admit(image) {
        Ok(()) => rewrite_admitted(alloc, image, bytes, hooks, edges),
        Err(fault) => Err(RewriteFault::Image(fault)),
    }
}

/// The output of a file whose image this is, and within the limits.
fn rewrite_admitted<F: Question, G: Question>(
    alloc: Global,
    image: &Image,
    bytes: &[u8],
    hooks: &Hooks<F>,
    edges: &EdgeHooks<G>,
) -> Result<Rewritten, RewriteFault>
    requires image { IsImage bytes.now image.now }
    requires admitted { limit_fault bytes.now ≡ None }
    requires limit { length bytes.now ≤ FILE_LIMIT }
    ensures rewritten { IsRewritten bytes.now (both hooks.now edges.now) result }
    ensures bytes { IfOk result (λ r. AreBytes r.bytes) }
{
    let runs = runs(alloc, image, bytes)?;
    let sites = sites(alloc, &runs)?;
    let chains = chains(alloc, &sites)?;
    let plan = lay_edges(alloc, image, &runs, &sites, &chains, hooks, edges)?;
    let count = sites.len() as u32;
    // the file is as large as the code and the table, and the sites are larger than both
    drop(chains);
    drop(sites);
    let file = write_image(alloc, image, bytes, &plan)?;
    are_bytes(&file);
    Ok(Rewritten {
        bytes: Bytes::new(file),
        sites: count,
        added: added(bytes, hooks, edges, &plan),
        counters: plan.counted.len() as u32,
    })
}

/// The items of bytes are below 256.
fn are_bytes(_bytes: &[u8])
    ensures { AreBytes _bytes.now }
{}

/// The addresses that the plan of a file and rules adds.
fn added<F: Question, G: Question>(
    _bytes: &[u8],
    _hooks: &Hooks<F>,
    _edges: &EdgeHooks<G>,
    plan: &Plan,
) -> Range
    requires whole { load_refusal _bytes.now ≡ None }
    requires admitted { limit_fault _bytes.now ≡ None }
    requires planned { IsPlanned _bytes.now (both _hooks.now _edges.now) plan.now }
    ensures { result ≡ record {
      lo = plan.now.base;
      len = size _bytes.now (both _hooks.now _edges.now);
    } }
{
    Range::new(plan.base, added_len(plan))
}
