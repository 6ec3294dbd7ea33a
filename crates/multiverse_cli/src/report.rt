//! Printing what a command came to. The functions here that put are the only ones that reach the sink. Each puts once, but
//! for the lines of sites, which are put in pieces; after a put that fails nothing more is put.

ghost use Rattle.std.specs.Prelude.{◌≡◌, IsTrue};
ghost use Rattle.elf32_read.specs.Runs.{code_of};
ghost use Rattle.mv_base.specs.Faults.{SinkCounts};
ghost use Rattle.mv_base.specs.Printing.{Prints};
ghost use Rattle.multiverse_cli.specs.Listing.{printout_text, site_lines};
ghost use Rattle.multiverse_cli.specs.Outside.{SaysPart, printed};
ghost use Rattle.multiverse_cli.specs.Steps.{KeepsIfDone, PrintsRefusal, PrintsText, PutsFull, Reports};
ghost use Rattle.multiverse_cli.specs.Texts.{memory_message};

use crate::failure::Failure;
use crate::listing::{Printout, put_site};
use crate::refusal::Refusal;
use crate::texts::{memory_message_bytes, message};
use elf32_read::Run;
use mv_base::{Sink, SinkFault, Status};
use std::alloc::Global;
use superset::Site;

/// How many bytes of lines are gathered before they are put.
const PIECE: usize = 16_384;

/// Prints the text of a command that is done, or the message of one that isn't, and gives the answer.
pub fn report<K: Sink>(alloc: Global, outcome: Result<Printout, Failure<'_>>, out: &mut K) -> Status
    ensures reports { Reports result outcome.entry (printed K.Sink out.old out.new) }
    ensures counts { KeepsIfDone result (printed K.Sink out.old out.new) }
{
    match outcome {
        Ok(printout) => print(alloc, &printout, out),
        Err(Failure::Refused(refusal)) => print_refusal(alloc, &refusal, out),
        Err(Failure::NoMemory) => print_no_memory(out),
    }
}

/// Prints what a command that is done prints.
fn print<K: Sink>(alloc: Global, printout: &Printout, out: &mut K) -> Status
    ensures prints { PrintsText result (printout_text printout.now)
        (printed K.Sink out.old out.new) }
    ensures counts { KeepsIfDone result (printed K.Sink out.old out.new) }
{
    match put(alloc, printout, out) {
        Ok(()) => Status::Done,
        Err(SinkFault::Failed) => Status::SinkFault,
        Err(SinkFault::NoMemory) => Status::NoMemory,
    }
}

/// Puts a text, or the lines of sites.
fn put<K: Sink>(alloc: Global, printout: &Printout, out: &mut K) -> Result<(), SinkFault>
    ensures prints { IsTrue (K.tells out.old)
        → Prints result (printout_text printout.now) (K.written out.old) (K.written out.new) }
    ensures counts { SinkCounts result (K.faults out.old) (K.faults out.new) }
{
    match printout {
        Printout::Text(text) => out.put(text.as_slice()),
        Printout::Lines(listing) => {
            put_lines(
                alloc,
                listing.runs.as_slice(),
                listing.sites.as_slice(),
                out,
            )
        }
    }
}

/// Puts the lines of sites in pieces, each of which is put when it is full.
fn put_lines<K: Sink>(
    alloc: Global,
    runs: &[Run],
    sites: &[Site],
    out: &mut K,
) -> Result<(), SinkFault>
    ensures prints { IsTrue (K.tells out.old)
        → Prints result (site_lines (code_of runs.now) sites.now) (K.written out.old)
        (K.written out.new) }
    ensures counts { SinkCounts result (K.faults out.old) (K.faults out.new) }
{
    let mut piece = Vec::new(alloc);
    for site in sites {
        let Ok(()) = put_site(runs, site, &mut piece) else {
            return Err(SinkFault::NoMemory);
        };
        put_full(&mut piece, out)?;
    }
    out.put(piece.as_slice())
}

/// Puts a piece where it is full, and empties it then.
fn put_full<K: Sink>(piece: &mut Vec<u8>, out: &mut K) -> Result<(), SinkFault>
    ensures puts { IsTrue (K.tells out.old) → PutsFull result piece.old.items piece.new.items
        (K.written out.old) (K.written out.new) }
    ensures counts { SinkCounts result (K.faults out.old) (K.faults out.new) }
    ensures tells_same { K.tells out.new ≡ K.tells out.old }
{
    if piece.len() < PIECE {
        return Ok(());
    }
    out.put(piece.as_slice())?;
    piece.clear();
    Ok(())
}

/// Prints a refusal's message. That the sink fails changes no answer, that memory runs out does.
fn print_refusal<K: Sink>(alloc: Global, refusal: &Refusal<'_>, out: &mut K) -> Status
    ensures { PrintsRefusal result refusal.now (printed K.Sink out.old out.new) }
{
    let Ok(text) = message(alloc, refusal) else {
        return print_no_memory(out);
    };
    match out.put(text.as_slice()) {
        Ok(()) | Err(SinkFault::Failed) => refusal.status(),
        Err(SinkFault::NoMemory) => Status::NoMemory,
    }
}

/// Prints that memory ran out, as far as the sink takes it.
fn print_no_memory<K: Sink>(out: &mut K) -> Status
    ensures answer { result ≡ Status.NoMemory }
    ensures said { SaysPart (printed K.Sink out.old out.new) memory_message }
{
    let _ = out.put(memory_message_bytes());
    Status::NoMemory
}
