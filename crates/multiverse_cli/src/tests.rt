//! What no clause says: that memory suffices, and what the program answers, prints and leaves, in tables of rows.
//!
//! A row is plain values: words, files and numbers. `answer` alone holds a store and a sink; it makes them of a row's values and
//! gives plain values back.

mod checks;
mod counters;
mod files;
mod hostile;
mod inner;
mod listings;
mod refusals;
mod rewriting;
mod sources;
mod traces;
mod upgrades;

use crate::run::run;
use mv_base::{MemSink, MemStore, Status};
use std::alloc::Global;
use std::test::Fail;

/// Which calls of a store and of a sink fail, by their numbers; 0 is none.
#[derive(Clone, Copy)]
struct Failing {
    get: u64,
    put: u64,
    print: u64,
}

/// No call fails.
const NONE: Failing = Failing {
    get: 0,
    put: 0,
    print: 0,
};

/// Files by their names.
type Files<'a> = &'a [(&'a str, &'a [u8])];

/// What a command answers and prints, what `b` holds then, which is nothing where there is no `b`, and whether all other files
/// are as they were.
#[derive(Drop)]
struct Reply {
    status: Status,
    text: Vec<u8>,
    written: Vec<u8>,
    is_kept: bool,
}

impl Reply {
    /// Whether it is this one: the status, the text, and what `b` holds.
    fn is(&self, status: Status, text: &str, written: &[u8]) -> bool {
        self.is_kept
            && self.status == status
            && self.text.as_slice() == text.as_bytes()
            && self.written.as_slice() == written
    }
}

/// The words of a text, which stand one blank apart.
fn words_of(alloc: Global, text: &str) -> Result<Vec<String>, Fail> {
    let mut words = Vec::new(alloc);
    let mut word = String::new(alloc);
    for letter in text.chars() {
        if letter == ' ' {
            words.push(word)?;
            word = String::new(alloc);
        } else {
            word.push(letter)?;
        }
    }
    if !text.is_empty() {
        words.push(word)?;
    }
    Ok(words)
}

/// A store that holds these files.
fn store_of(alloc: Global, files: Files<'_>, failing: Failing) -> Result<MemStore, Fail> {
    let gets = vec![in alloc; failing.get]?;
    let mut store = MemStore::new(alloc, gets, vec![in alloc; failing.put]?)?;
    for (name, bytes) in files {
        store.add(name, bytes)?;
    }
    Ok(store)
}

/// Whether a store holds these files but `b`.
fn is_kept(store: &MemStore, files: Files<'_>) -> bool {
    files.iter().all(|(name, bytes)| *name == "b" || store.file(name) == Some(*bytes))
}

/// What a command with these words answers and prints over a store, to a sink of which the call with this number fails.
fn said(
    alloc: Global,
    text: &str,
    store: &mut MemStore,
    print: u64,
) -> Result<(Status, Vec<u8>), Fail> {
    let words = words_of(alloc, text)?;
    let mut out = MemSink::new(alloc, vec![in alloc; print]?)?;
    let status = run(alloc, words.as_slice(), store, &mut out);
    Ok((status, Vec::from_slice(alloc, out.bytes())?))
}

/// What a command with these words answers over these files.
fn answer(alloc: Global, words: &str, files: Files<'_>, failing: Failing) -> Result<Reply, Fail> {
    let mut store = store_of(alloc, files, failing)?;
    let (status, text) = said(alloc, words, &mut store, failing.print)?;
    Ok(Reply {
        status,
        text,
        written: Vec::from_slice(alloc, store.file("b").unwrap_or(b""))?,
        is_kept: is_kept(&store, files),
    })
}

/// What a command answers where `a` is this file, `l` is a log that ends a program, and `b` is old.
fn answer_to(alloc: Global, words: &str, a: &[u8], failing: Failing) -> Result<Reply, Fail> {
    let files = [("a", a), ("l", b"log 1\ngone\n"), ("b", b"old")];
    answer(alloc, words, &files, failing)
}
