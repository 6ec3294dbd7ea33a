//! The program: a static executable in, its rewritten form out, or the report of its run; or a rewritten form in, and out the
//! executable that stands in it, or the form that a rewrite gives that today.
//!
//! - `words`: what the program is asked to do. A command reads some files and has a task.
//! - `verdict`: what comes of the bytes of these files, task by task: a text and perhaps a new file, or what they lack.
//! - `carry`: reading, the verdict and writing, over any store, up to the text that is printed.
//! - `refusal`, `failure`: why it is not done.
//! - `texts`: what is printed, as bytes.
//! - `listing`: the lines of sites, which are printed one by one.
//! - `sample`: the image that a sample makes.
//! - `report`: printing it, to any sink.
//! - `run`: the whole, whose contract says what each answer means.
//!
//! A further command is a form of words, a task, its case in `verdict`, and a line each in the definitions of what a
//! command lacks and delivers. Nothing else knows one command from another.
//!
//! `main` runs this over the files of the system and standard output, and ends with the answer's number.
#![tactic(auto)]

ghost use Rattle.std.specs.Prelude.{◌≡◌};
ghost use Rattle.multiverse_cli.specs.Wordless.{wordless_code as wordless_code_of};

mod carry;
mod failure;
mod listing;
mod refusal;
mod report;
mod run;
mod sample;
#[cfg(test)]
mod tests;
mod texts;
mod verdict;
mod words;

use mv_base::{FileStore, Status, StdSink};
use std::env;
use std::io::{self, ErrorKind};
use std::process::ExitCode;
use std::rt::Env;

/// The number with which the program ends where an argument isn't UTF-8. It stands for nothing else.
const NOT_TEXT: u8 = 14;

fn main(rt: HostRuntime) -> ExitCode {
    match words_after_name(&rt) {
        Ok(words) => {
            let mut store = FileStore::new(rt.alloc(), &rt);
            let mut out = StdSink::new(&rt);
            let status = run::run(rt.alloc(), words.as_slice(), &mut store, &mut out);
            ExitCode::from(status.code())
        }
        Err(error) => ExitCode::from(wordless_code(error.kind())),
    }
}

/// The words after the program's name.
fn words_after_name<R: Env + AllocGlobal>(rt: &R) -> io::Result<Vec<String>> {
    let words = env::args(rt)?.skip(1).collect(rt.alloc())?;
    Ok(words)
}

/// The number with which the program ends where it gets no words.
fn wordless_code(kind: ErrorKind) -> u8
    ensures { result ≡ wordless_code_of kind }
{
    match kind {
        ErrorKind::InvalidData => NOT_TEXT,
        _ => Status::NoMemory.code(),
    }
}
