//! Carrying out a command, up to the text that it prints. Nothing here reaches the sink.

ghost use Rattle.std.specs.Prelude.{◌≡◌, ◌≢◌, ◌≤◌, ℕ, List, length};
ghost use Rattle.multiverse_cli.specs.Outside.{KeepsOthers, stored};
ghost use Rattle.multiverse_cli.specs.Steps.{Attempts, Carries, KeepsCounts, ReadsFile, ReadsFiles, WritesFile};
ghost use Rattle.multiverse_cli.specs.Words.{HasRule, HasSize, asked, asked_of, input_count, texts, work_of};

use crate::failure::Failure;
use crate::listing::Printout;
use crate::refusal::Refusal;
use crate::verdict::verdict;
use crate::words::{Command, read_command};
use mv_base::{Bytes, Got, Store, StoreFault};
use mv_rewrite::FILE_LIMIT;
use std::alloc::Global;

/// Does what the words ask for, and gives what is to be printed.
pub fn attempt<'a, S: Store>(
    alloc: Global,
    words: &'a [String],
    store: &mut S,
) -> Result<Printout, Failure<'a>>
    ensures attempts { Attempts result (asked_of (texts words.now))
        (stored S.Store store.old store.new) }
    ensures counts { KeepsCounts result (stored S.Store store.old store.new) }
{
    match read_command(words) {
        None => Err(Failure::Refused(Refusal::Usage)),
        Some(command) => carry_out(alloc, &command, store),
    }
}

/// Reads all files of a command, then decides what comes of them, and then writes the new file, if there is one. So a name
/// that is read may be the one that is written.
fn carry_out<'a, S: Store>(
    alloc: Global,
    command: &Command<'a>,
    store: &mut S,
) -> Result<Printout, Failure<'a>>
    requires inputs { length command.now.reads.now ≡ input_count (work_of command.now.task) }
    requires sized { HasSize (work_of command.now.task) }
    requires ruled { HasRule command.now.task }
    ensures carries { Carries result (asked command.now) (stored S.Store store.old store.new) }
    ensures counts { KeepsCounts result (stored S.Store store.old store.new) }
{
    let files = read_files(alloc, command.reads, store)?;
    let delivery = verdict(alloc, &command.task, files.as_slice())?;
    if let Some(file) = &delivery.file {
        write_file(file.name, file.bytes.as_slice(), store)?;
    }
    Ok(delivery.text)
}

/// The bytes of all these files in order. Each is read, also behind one that is too large; the first such is named.
fn read_files<'a, S: Store>(
    alloc: Global,
    names: &'a [String],
    store: &mut S,
) -> Result<Vec<Bytes>, Failure<'a>>
    ensures reads { ReadsFiles result (texts names.now) (stored S.Store store.old store.new) }
    ensures counts { KeepsCounts result (stored S.Store store.old store.new) }
    ensures holds_same { S.holds store.new ≡ S.holds store.old }
    ensures never_falls { S.read_faults store.old ≤ S.read_faults store.new }
    ensures write_faults_same { S.write_faults store.new ≡ S.write_faults store.old }
    ensures tells_same { S.tells store.new ≡ S.tells store.old }
{
    let mut files = Vec::new(alloc);
    let mut oversized = None;
    for name in names {
        match read_file(alloc, name.as_str(), store)? {
            Some(bytes) => files.push(bytes)?,
            None => oversized = oversized.or(Some(name.as_str())),
        }
    }
    match oversized {
        None => Ok(files),
        Some(name) => Err(Failure::Refused(Refusal::TooLarge(name))),
    }
}

/// The bytes of a file; `None` where there are more than the limit.
fn read_file<'a, S: Store>(
    alloc: Global,
    name: &'a str,
    store: &mut S,
) -> Result<Option<Bytes>, Failure<'a>>
    ensures reads { ReadsFile result name.now (stored S.Store store.old store.new) }
    ensures counts { KeepsCounts result (stored S.Store store.old store.new) }
    ensures holds_same { S.holds store.new ≡ S.holds store.old }
    ensures never_falls { S.read_faults store.old ≤ S.read_faults store.new }
    ensures write_faults_same { S.write_faults store.new ≡ S.write_faults store.old }
    ensures tells_same { S.tells store.new ≡ S.tells store.old }
{
    let mut bytes = Vec::new(alloc);
    match store.get(name, FILE_LIMIT, &mut bytes) {
        Ok(Got::Whole) => Ok(Some(Bytes::new(bytes))),
        Ok(Got::TooLong) => Ok(None),
        Err(StoreFault::Failed) => Err(Failure::Refused(Refusal::ReadFault(name))),
        Err(StoreFault::NoMemory) => Err(Failure::NoMemory),
    }
}

/// Makes a file hold the bytes.
fn write_file<'a, S: Store>(name: &'a str, bytes: &[u8], store: &mut S) -> Result<(), Failure<'a>>
    ensures writes { WritesFile result name.now bytes.now (stored S.Store store.old store.new) }
    ensures counts { KeepsCounts result (stored S.Store store.old store.new) }
    ensures others_same { KeepsOthers (stored S.Store store.old store.new) name.now }
{
    match store.put(name, bytes) {
        Ok(()) => Ok(()),
        Err(StoreFault::Failed) => Err(Failure::Refused(Refusal::WriteFault(name))),
        Err(StoreFault::NoMemory) => Err(Failure::NoMemory),
    }
}
