//! A report as text. It is this project's own; each line ends with a line feed.

ghost use Rattle.std.specs.Prelude.{◌≡◌, ◌++◌, IfOk, OnErr, OnOk, codes, map};
ghost use Rattle.std.specs.List.{flat_map};
ghost use Rattle.trace_run.specs.Texts.{count_line, end_line, kind_word as word_of, steps_line, text_of, trap_line, words_line};

use crate::report::{End, Report};
use mv_base::{NoMemory, put_decimal, put_hex8};
use std::alloc::Global;
use x86_machine::{Call, Kind};

/// Appends the text of a report: a line `call` with its seven words for each call made, a line `count`, `taken` or
/// `nottaken` with an address and a decimal for each counter, then the lines `regs`, `flags`, `end` and `steps`. Words and addresses have eight
/// hexadecimal digits.
///
/// # Errors
///
/// `NoMemory`; `to` is then as it was.
pub fn report_text(report: &Report, to: &mut Vec<u8>) -> Result<(), NoMemory>
    ensures ok { OnOk result (to.new.items ≡ to.old.items ++ text_of report.now) }
    ensures no_memory { OnErr result (to.new.items ≡ to.old.items) }
{
    let text = text_of(*to.allocator(), report)?;
    to.extend_from_slice(text.as_slice())?;
    Ok(())
}

/// The text of a report.
fn text_of(alloc: Global, report: &Report) -> Result<Vec<u8>, NoMemory>
    ensures { IfOk result (λ text. text.items ≡ text_of report.now) }
{
    let mut text = Vec::new(alloc);
    put_calls(report.calls.as_slice(), &mut text)?;
    put_counts(report.counts.as_slice(), &mut text)?;
    put_words("regs", &report.regs, &mut text)?;
    put_words("flags", &[report.flags], &mut text)?;
    put_end(report.end, &mut text)?;
    put_steps(report.steps, &mut text)?;
    Ok(text)
}

/// Appends a line for each call.
fn put_calls(calls: &[Call], to: &mut Vec<u8>) -> Result<(), NoMemory>
    ensures { OnOk result (to.new.items
        ≡ to.old.items ++ flat_map (words_line (codes "call")) (map (λ c. c.words) calls.now)) }
{
    for call in calls {
        put_words("call", &call.words, to)?;
    }
    Ok(())
}

/// Appends a line for each counter.
fn put_counts(counts: &[(u32, u8, u64)], to: &mut Vec<u8>) -> Result<(), NoMemory>
    ensures { OnOk result (to.new.items ≡ to.old.items ++ flat_map count_line counts.now) }
{
    for count in counts {
        put_count(*count, to)?;
    }
    Ok(())
}

/// Appends the line of a counter.
fn put_count(count: (u32, u8, u64), to: &mut Vec<u8>) -> Result<(), NoMemory>
    ensures { OnOk result (to.new.items ≡ to.old.items ++ count_line count) }
{
    let (address, kind, number) = count;
    to.extend_from_slice(kind_word(kind).as_bytes())?;
    put_hex8(address, to)?;
    to.push(b' ')?;
    put_decimal(number, to)?;
    to.push(b'\n')?;
    Ok(())
}

/// The word of a counter's kind.
fn kind_word(kind: u8) -> &'static str
    ensures { result.now ≡ word_of kind }
{
    match kind {
        0 => "count ",
        1 => "taken ",
        _ => "nottaken ",
    }
}

/// Appends a line of a word and numbers.
fn put_words(word: &str, numbers: &[u32], to: &mut Vec<u8>) -> Result<(), NoMemory>
    ensures { OnOk result (to.new.items ≡ to.old.items ++ words_line word.now numbers.now) }
{
    to.extend_from_slice(word.as_bytes())?;
    for number in numbers {
        to.push(b' ')?;
        put_hex8(*number, to)?;
    }
    to.push(b'\n')?;
    Ok(())
}

/// Appends the line that says by what a run ended.
fn put_end(end: End, to: &mut Vec<u8>) -> Result<(), NoMemory>
    ensures { OnOk result (to.new.items ≡ to.old.items ++ end_line end) }
{
    match end {
        End::Steps => put_words("end steps", &[], to),
        End::Trap(kind, at) => put_trap(kind, at, to),
        End::Outside => put_words("end outside", &[], to),
        End::NoAnswer => put_words("end noanswer", &[], to),
        End::BadAnswer => put_words("end badanswer", &[], to),
        End::Gone => put_words("end gone", &[], to),
        End::NoStack => put_words("end nostack", &[], to),
    }
}

/// Appends the line of the end by a trap.
fn put_trap(kind: Kind, at: u32, to: &mut Vec<u8>) -> Result<(), NoMemory>
    ensures { OnOk result (to.new.items ≡ to.old.items ++ trap_line kind at) }
{
    match kind {
        Kind::ReadFault => put_words("end trap read", &[at], to),
        Kind::WriteFault => put_words("end trap write", &[at], to),
        Kind::FetchFault => put_words("end trap fetch", &[at], to),
        Kind::Divide => put_words("end trap divide", &[], to),
        Kind::Breakpoint => put_words("end trap breakpoint", &[], to),
        Kind::Invalid => put_words("end trap invalid", &[], to),
        Kind::Protection => put_words("end trap protection", &[], to),
    }
}

/// Appends the line of the number of steps.
fn put_steps(steps: u64, to: &mut Vec<u8>) -> Result<(), NoMemory>
    ensures { OnOk result (to.new.items ≡ to.old.items ++ steps_line steps) }
{
    to.extend_from_slice(b"steps ")?;
    put_decimal(steps, to)?;
    to.push(b'\n')?;
    Ok(())
}
