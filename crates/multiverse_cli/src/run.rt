//! The whole program over any store and any sink.

ghost use Rattle.multiverse_cli.specs.Answers.{Comes, DeliversAll, FirstDue, IsOwed, Leaves, PassesOutputs, Prints};
ghost use Rattle.multiverse_cli.specs.Loads.{LoadsByLeast};
ghost use Rattle.multiverse_cli.specs.Outside.{printed, stored};
ghost use Rattle.multiverse_cli.specs.Words.{asked_of, texts};

use crate::carry::attempt;
use crate::report::report;
use mv_base::{Sink, Status, Store};
use pair_check::laws::outputs_pass;
use std::alloc::Global;
use syscall_log::laws::one_log;
use x86_encode::laws::operands_load;

/// Does what the words after the program's name ask for, over the files of `store`, prints to `out`, and gives the
/// answer.
///
/// The answers are looked for in the order Usage, ReadFault, TooLarge of a file, NoFrame, BadImage, BadLog, BadSource, TooLarge of the
/// bytes that a traced program maps, NoRoom, WriteFault, SinkFault, Done; NoMemory may come at any place. The clauses say
/// when each comes, which one has to come, and what it leaves behind. All files of a command are read before any is judged.
///
/// After Done of a rewrite the output simulates the input: while the input's steps are clear, it passes in order through a
/// state that agrees after each, shows nothing else in between, and stops where the input stops. Bytes outside the known
/// instructions stop the input as outside and the output by a fetch fault at the same address.
///
/// After Done of a trace the report of the image, the log and the number of steps is printed, and no file has changed.
///
/// NoFrame comes exactly where a file has no frame of which the input is to be extracted, or written anew. After Done of an
/// extract the output is that input, byte for byte. After Done of an upgrade the output is the one that a rewrite of that
/// input by the frame's rule has, of which all is so that is said of a rewrite's.
///
/// After Done of a check the second file simulates the first, whoever made it; an output that a rewrite makes of the first
/// is never found to differ.
///
/// Where a store tells what it holds, the clauses speak of that. The files of the system tell nothing to a proof: for them
/// the clauses keep counts, causes and order, and the rest holds since this is one function for every store.
pub fn run<S: Store, K: Sink>(alloc: Global, words: &[String], store: &mut S, out: &mut K) -> Status
    // When an answer may come: a fault of the outside only where its count rose in this call, any other only where the
    // words or the bytes of the files that are read are so.
    ensures comes { Comes result (asked_of (texts words.now)) (stored S.Store store.old store.new)
        (printed K.Sink out.old out.new) }
    // Which answer has to come: the first that is due, and Done where none is; want of memory aside.
    ensures first_due { FirstDue result (asked_of (texts words.now))
        (stored S.Store store.old store.new) (printed K.Sink out.old out.new) }
    // Which answer a fault of the outside has, by the counts alone.
    ensures owed { IsOwed result (stored S.Store store.old store.new)
        (printed K.Sink out.old out.new) }
    // What each answer leaves in the store.
    ensures leaves { Leaves result (asked_of (texts words.now))
        (stored S.Store store.old store.new) }
    // What each answer has printed.
    ensures prints { Prints result (asked_of (texts words.now)) (stored S.Store store.old store.new)
        (printed K.Sink out.old out.new) }
    // What Done has delivered, over the bytes that the files which are read held at entry.
    ensures delivers { DeliversAll result (asked_of (texts words.now))
        (stored S.Store store.old store.new) (printed K.Sink out.old out.new) }
    // What an output has where a jump or a call goes through an operand: the least of the shortest spellings that load it.
    ensures loads { LoadsByLeast }
    // What a check says of an image and its output, by whatever rules: yes, unless something outside fails.
    ensures passes { PassesOutputs result (asked_of (texts words.now))
        (stored S.Store store.old store.new) }
{
    // The files of a command have one verdict, since a text spells one log.
    one_log();
    // An operand of a jump or a call has a least spelling that loads it.
    operands_load();
    // What a rewrite writes passes a check.
    outputs_pass();
    let outcome = attempt(alloc, words, store);
    report(alloc, outcome, out)
}
