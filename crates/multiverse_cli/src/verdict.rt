//! What comes of the files that a command reads: a text to print and a file to write, or what they lack. No file and no
//! output is touched here.

ghost use Rattle.std.specs.Prelude.{◌≡◌, ◌≤◌, length, IfOk};
ghost use Rattle.counter_hooks.specs.Rules.{IsAscending, Tells, picked as is_picked};
ghost use Rattle.edge_hooks.specs.Rules.{EdgesAscend, edge_picked as is_edge_picked};
ghost use Rattle.elf32_write.specs.Frame.{Frame};
ghost use Rattle.image_layout.specs.Rules.{both};
ghost use Rattle.mv_rewrite.specs.OutputFile.{IsWrittenFor};
ghost use Rattle.mv_rewrite.specs.Rewriting.{IsRewritten};
ghost use Rattle.simulation_laws.specs.Stopping.{Simulates};
ghost use Rattle.multiverse_cli.specs.Answers.{Fits};
ghost use Rattle.multiverse_cli.specs.Commands.{IsAssembling, IsChecking, IsExtracting, IsListing, IsNotAlike, IsNotAssembled, IsNotExtracted, IsNotListed, IsNotRewritten, IsNotTraced, IsNotUpgraded, IsRewriting, IsSampling, IsTracing, IsUpgrading};
ghost use Rattle.multiverse_cli.specs.Verdicts.{AllFit, IsVerdict, IsVerdictOf};
ghost use Rattle.multiverse_cli.specs.Words.{HasRule, HasSize, IsEdgeRule, IsRule, IsRuled, ToList, ToRewrite, ToSample, ToTrace, input_count, named, named_edges as edges_of, named_rule as rule_of, work_of};

use crate::failure::Objection;
use crate::listing::{Listing, Printout};
use crate::refusal::Defect;
use crate::sample::{LARGEST, sample};
use crate::texts::{checked_text, input_text, rewritten_text, sample_text};
use crate::words::{RuleTexts, Task};
use counter_hooks::{Hooks, Question, Rule, picked, read_rule};
use edge_hooks::{EdgeHooks, EdgeRule, edge_picked, read_edge_rule};
use elf32_read::{admit, read_image, runs};
use elf32_write::read_frame;
use mini_asm::{assemble, listing};
use mv_base::{Bytes, NoMemory};
use mv_rewrite::{RewriteFault, Rewritten, frame_edge_rule, frame_rule, rewrite_edges};
use pair_check::check;
use std::alloc::Global;
use superset::{Site, sites};
use syscall_log::read_log;
use trace_run::{report_text, trace};

/// A file that a command writes.
#[derive(Drop)]
pub struct NewFile<'a> {
    pub name: &'a str,
    pub bytes: Bytes,
}

/// What a command delivers: a text that is printed, and the file that it writes, if any.
#[derive(Drop)]
pub struct Delivery<'a> {
    pub text: Printout,
    pub file: Option<NewFile<'a>>,
}

/// What a task delivers over the bytes of its files, each of which is within the limit, or what they lack.
pub fn verdict<'a>(
    alloc: Global,
    task: &Task<'a>,
    files: &[Bytes],
) -> Result<Delivery<'a>, Objection>
    requires count { length files.now ≡ input_count (work_of task.now) }
    requires fit { AllFit files.now }
    requires sized { HasSize (work_of task.now) }
    requires ruled { HasRule task.now }
    ensures { IsVerdict (work_of task.now) files.now result }
{
    match (*task, files) {
        (Task::Rewrite { output, rules }, [image]) => {
            rewritten(alloc, output, &rules, image.as_slice())
        }
        (Task::Trace { steps }, [image, log]) => {
            traced(alloc, image.as_slice(), log.as_slice(), steps)
        }
        (Task::Listing, [image]) => listed(alloc, image.as_slice()),
        (
            Task::Sample {
                number,
                size,
                output,
            },
            [],
        ) => sampled(alloc, number, size, output),
        (Task::Extract { output }, [file]) => extracted(alloc, output, file.as_slice()),
        (Task::Upgrade { output }, [file]) => upgraded(alloc, output, file.as_slice()),
        (Task::Check, [image, file]) => checked(alloc, image.as_slice(), file.as_slice()),
        (Task::Assemble { output }, [source]) => assembled(alloc, output, source.as_slice()),
        _ => unreachable!(),
    }
}

/// The rewritten image, with the counters that the rules of texts pick, which is written to `output`, and its numbers.
fn rewritten<'a>(
    alloc: Global,
    output: &'a str,
    rules: &RuleTexts<'_>,
    image: &[u8],
) -> Result<Delivery<'a>, Objection>
    requires fits { Fits image.now }
    requires ruled { IsRuled rules.now }
    ensures { IsVerdictOf (IsNotRewritten image.now (named rules.now))
        (IsRewriting output.now image.now (named rules.now)) result }
{
    let all = named_rule(alloc, rules.all)?;
    let ways = named_edges(alloc, rules.ways)?;
    counting(alloc, output, all, ways, image)
}

/// The rewritten image, with the counters that the rules pick, which is written to `output`, and its numbers.
fn counting<'a>(
    alloc: Global,
    output: &'a str,
    all: Rule,
    ways: EdgeRule,
    image: &[u8],
) -> Result<Delivery<'a>, Objection>
    requires fits { Fits image.now }
    requires ascends { IsAscending all }
    requires ways_ascend { EdgesAscend ways }
    ensures { IsVerdictOf (IsNotRewritten image.now (both all ways))
        (IsRewriting output.now image.now (both all ways)) result }
{
    let asked = all.copied(alloc)?;
    let asked_ways = ways.copied(alloc)?;
    let counted = |site: &Site| picked(&asked, site);
    let counted_ways = |site: &Site| edge_picked(&asked_ways, site);
    let rewritten = rewritten_by(alloc, image, all, ways, counted, counted_ways)?;
    let text = rewritten_text(alloc, &rewritten)?;
    Ok(Delivery {
        text: Printout::Text(text),
        file: Some(NewFile {
            name: output,
            bytes: rewritten.bytes,
        }),
    })
}

/// The output of an image by two rules, and by questions that answer by them.
fn rewritten_by<F: Question + Drop, G: Question + Drop>(
    alloc: Global,
    image: &[u8],
    all: Rule,
    ways: EdgeRule,
    ask: F,
    ask_ways: G,
) -> Result<Rewritten, RewriteFault>
    requires fits { Fits image.now }
    requires ascends { IsAscending all }
    requires ways_ascend { EdgesAscend ways }
    requires tells { Tells (F.answers ask) (is_picked all) }
    requires ways_tell { Tells (G.answers ask_ways) (is_edge_picked ways) }
    ensures rewritten { IsRewritten image.now (both all ways) result }
    ensures simulates { IfOk result (λ r. Simulates image.now r.bytes) }
    ensures written { IfOk result (λ r.
        (f : Frame) × IsWrittenFor image.now (both all ways) r.bytes f) }
{
    let hooks = Hooks::new(all, ask);
    let edges = EdgeHooks::new(ways, ask_ways);
    rewrite_edges(alloc, image, &hooks, &edges)
}

/// The input of a rewritten file, which is written to `output`, and how many bytes it has.
fn extracted<'a>(alloc: Global, output: &'a str, file: &[u8]) -> Result<Delivery<'a>, Objection>
    ensures { IsVerdictOf (IsNotExtracted file.now) (IsExtracting output.now file.now) result }
{
    let Some(frame) = read_frame(file) else {
        return Err(Objection::Lacking(Defect::NoFrame));
    };
    let input = frame.input();
    let text = input_text(alloc, input.len())?;
    let bytes = copied(alloc, input)?;
    Ok(Delivery {
        text: Printout::Text(text),
        file: Some(NewFile {
            name: output,
            bytes,
        }),
    })
}

/// The same bytes once more.
fn copied(alloc: Global, bytes: &[u8]) -> Result<Bytes, NoMemory>
    ensures { IfOk result (λ copy. copy ≡ bytes.now) }
{
    Ok(Bytes::new(Vec::from_slice(alloc, bytes)?))
}

/// The output of a rewritten file's input by the file's rules, which is written to `output`, and its numbers.
fn upgraded<'a>(alloc: Global, output: &'a str, file: &[u8]) -> Result<Delivery<'a>, Objection>
    ensures { IsVerdictOf (IsNotUpgraded file.now) (IsUpgrading output.now file.now) result }
{
    let Some(frame) = read_frame(file) else {
        return Err(Objection::Lacking(Defect::NoFrame));
    };
    let all = frame_rule(alloc, &frame)?;
    let ways = frame_edge_rule(alloc, &frame)?;
    counting(alloc, output, all, ways, frame.input())
}

/// Whether a file is a rewriting of an image, whoever made it, and how many sites the image has.
fn checked<'a>(alloc: Global, image: &[u8], file: &[u8]) -> Result<Delivery<'a>, Objection>
    requires fits { Fits image.now }
    ensures { IsVerdictOf (IsNotAlike image.now file.now) (IsChecking image.now file.now) result }
{
    let sites = check(alloc, image, file)?;
    let text = checked_text(alloc, sites)?;
    Ok(Delivery {
        text: Printout::Text(text),
        file: None,
    })
}

/// The image that a source assembles to, which is written to `output`, and its listing.
fn assembled<'a>(alloc: Global, output: &'a str, source: &[u8]) -> Result<Delivery<'a>, Objection>
    ensures { IsVerdictOf (IsNotAssembled source.now) (IsAssembling output.now source.now) result }
{
    let done = assemble(alloc, source)?;
    let mut text = Vec::new(alloc);
    listing(&done, &mut text)?;
    Ok(Delivery {
        text: Printout::Text(text),
        file: Some(NewFile {
            name: output,
            bytes: Bytes::new(done.bytes),
        }),
    })
}

/// The rule of a text that has one; that no site is counted, where there is no text.
fn named_rule(alloc: Global, text: Option<&str>) -> Result<Rule, NoMemory>
    requires { IsRule text }
    ensures is { IfOk result (λ rule. rule ≡ rule_of text.entry) }
    ensures ascends { IfOk result IsAscending }
{
    let Some(text) = text else {
        return Ok(Rule::None);
    };
    match read_rule(alloc, text)? {
        Some(rule) => Ok(rule),
        None => unreachable!(),
    }
}

/// The edge rule of a text that has one; that no way is counted, where there is no text.
fn named_edges(alloc: Global, text: Option<&str>) -> Result<EdgeRule, NoMemory>
    requires { IsEdgeRule text }
    ensures is { IfOk result (λ rule. rule ≡ edges_of text.entry) }
    ensures ascends { IfOk result EdgesAscend }
{
    let Some(text) = text else {
        return Ok(EdgeRule::None);
    };
    match read_edge_rule(alloc, text)? {
        Some(rule) => Ok(rule),
        None => unreachable!(),
    }
}

/// The report of an image that is run on a log.
fn traced<'a>(
    alloc: Global,
    image: &[u8],
    log: &[u8],
    steps: u64,
) -> Result<Delivery<'a>, Objection>
    ensures { IsVerdictOf (IsNotTraced steps image.now log.now)
        (IsTracing steps image.now log.now) result }
{
    let header = read_image(alloc, image)?;
    let log = read_log(alloc, log)?;
    let report = trace(alloc, image, &header, &log, steps)?;
    let mut text = Vec::new(alloc);
    report_text(&report, &mut text)?;
    Ok(Delivery {
        text: Printout::Text(text),
        file: None,
    })
}

/// The lines of an image's sites.
fn listed<'a>(alloc: Global, image: &[u8]) -> Result<Delivery<'a>, Objection>
    ensures { IsVerdictOf (IsNotListed image.now) (IsListing image.now) result }
{
    let loaded = read_image(alloc, image)?;
    admit(&loaded)?;
    let runs = runs(alloc, &loaded, image)?;
    let sites = sites(alloc, runs.as_slice())?;
    Ok(Delivery {
        text: Printout::Lines(Listing { runs, sites }),
        file: None,
    })
}

/// The rewritten sample of a number, which is written to `output`, and its numbers. A sample has no fault, and always
/// finds room.
fn sampled<'a>(
    alloc: Global,
    number: u32,
    size: u32,
    output: &'a str,
) -> Result<Delivery<'a>, Objection>
    requires some { 1 ≤ size }
    requires most { size ≤ LARGEST }
    ensures { IsVerdictOf (λ _. ⊥) (IsSampling number size output.now) result }
{
    let image = sample(alloc, number, size)?;
    let none = |_: &Site| false;
    let no_way = |_: &Site| false;
    let rewritten = rewritten_by(
        alloc,
        image.as_slice(),
        Rule::None,
        EdgeRule::None,
        none,
        no_way,
    )?;
    let text = sample_text(alloc, rewritten.sites, image.len(), rewritten.bytes.len())?;
    Ok(Delivery {
        text: Printout::Text(text),
        file: Some(NewFile {
            name: output,
            bytes: rewritten.bytes,
        }),
    })
}
