//! The texts that the program prints. They are this project's own; each line ends with a line feed.

ghost use Rattle.std.specs.Prelude.{◌≡◌, ◌++◌, IfOk, OnOk, codes, decimal};
ghost use Rattle.mv_base.specs.Text.{hex8};
ghost use Rattle.multiverse_cli.specs.Texts.{added_line, count_line, defect_message, differs_message, fault_name as fault_name_of, fault_place, image_message, line, memory_message, message_of, part_name as part_name_of, rewritten_text as rewritten_text_of, sample_text as sample_text_of};

use crate::refusal::{Defect, Refusal};
use elf32_read::ImageFault;
use mv_base::{NoMemory, put_decimal, put_hex8};
use mv_rewrite::Rewritten;
use pair_check::{Differs, Part};
use std::alloc::Global;

/// The message that memory ran out. It takes no memory.
pub fn memory_message_bytes() -> &'static [u8]
    ensures { result.now ≡ memory_message }
{
    b"multiverse: no memory\n"
}

/// What a rewrite prints when it is done: how many sites the image has, the first of the added addresses and how many
/// they are, and how many counters there are.
pub fn rewritten_text(alloc: Global, rewritten: &Rewritten) -> Result<Vec<u8>, NoMemory>
    ensures { IfOk result (λ text. text.items
        ≡ rewritten_text_of rewritten.now.sites rewritten.now.added.lo
        rewritten.now.added.len rewritten.now.counters) }
{
    let mut text = Vec::new(alloc);
    put_count("sites", u64::from(rewritten.sites), &mut text)?;
    put_added(rewritten.added.lo(), rewritten.added.len(), &mut text)?;
    put_count("counters", u64::from(rewritten.counters), &mut text)?;
    Ok(text)
}

/// What a sample prints when it is done: how many sites the image has, and how many bytes it and its output have.
pub fn sample_text(
    alloc: Global,
    sites: u32,
    input: usize,
    output: usize,
) -> Result<Vec<u8>, NoMemory>
    ensures { IfOk result (λ text. text.items ≡ sample_text_of sites input output) }
{
    let mut text = Vec::new(alloc);
    put_count("sites", u64::from(sites), &mut text)?;
    put_count("input", input as u64, &mut text)?;
    put_count("output", output as u64, &mut text)?;
    Ok(text)
}

/// What is printed when an input was taken out of a rewritten file: how many bytes it has.
pub fn input_text(alloc: Global, input: usize) -> Result<Vec<u8>, NoMemory>
    ensures { IfOk result (λ text. text.items ≡ count_line (codes "input") input) }
{
    let mut text = Vec::new(alloc);
    put_count("input", input as u64, &mut text)?;
    Ok(text)
}

/// What is printed when a file was found to be a rewriting of an image: how many sites the image has.
pub fn checked_text(alloc: Global, sites: u32) -> Result<Vec<u8>, NoMemory>
    ensures { IfOk result (λ text. text.items ≡ count_line (codes "checked") sites) }
{
    let mut text = Vec::new(alloc);
    put_count("checked", u64::from(sites), &mut text)?;
    Ok(text)
}

/// Appends the line of a number with a word before it.
fn put_count(word: &str, n: u64, to: &mut Vec<u8>) -> Result<(), NoMemory>
    ensures { OnOk result (to.new.items ≡ to.old.items ++ count_line word.now n) }
{
    to.extend_from_slice(word.as_bytes())?;
    to.push(b' ')?;
    put_decimal(n, to)?;
    to.push(b'\n')?;
    Ok(())
}

/// Appends the line of the added addresses.
fn put_added(lo: u32, len: u32, to: &mut Vec<u8>) -> Result<(), NoMemory>
    ensures { OnOk result (to.new.items ≡ to.old.items ++ added_line lo len) }
{
    to.extend_from_slice(b"added ")?;
    put_hex8(lo, to)?;
    to.push(b' ')?;
    put_hex8(len, to)?;
    to.push(b'\n')?;
    Ok(())
}

/// The message of a refusal.
pub fn message(alloc: Global, refusal: &Refusal<'_>) -> Result<Vec<u8>, NoMemory>
    ensures { IfOk result (λ text. text.items ≡ message_of refusal.now) }
{
    match refusal {
        Refusal::Usage => name_line(alloc, "multiverse: usage", "", ""),
        Refusal::ReadFault(name) => name_line(alloc, "multiverse: cannot read ", name, ""),
        Refusal::TooLarge(name) => {
            name_line(alloc, "multiverse: too large: ", name, " above 268435456")
        }
        Refusal::Lacking(defect) => defect_line(alloc, defect),
        Refusal::WriteFault(name) => name_line(alloc, "multiverse: cannot write ", name, ""),
    }
}

/// The message of what the files lack that are read.
fn defect_line(alloc: Global, defect: &Defect) -> Result<Vec<u8>, NoMemory>
    ensures { IfOk result (λ text. text.items ≡ defect_message defect.now) }
{
    match defect {
        Defect::NoFrame => name_line(alloc, "multiverse: no frame", "", ""),
        Defect::BadImage(fault) => fault_line(alloc, fault),
        Defect::BadLog(line) => number_line(alloc, "multiverse: bad log: line ", *line),
        Defect::BadSource(line) => number_line(alloc, "multiverse: bad source: line ", *line),
        Defect::Differs(found) => differs_line(alloc, found),
        Defect::TooLarge(size) => number_line(alloc, "multiverse: too large: mapped ", *size),
        Defect::NoRoom(size) => number_line(alloc, "multiverse: no room: ", *size),
    }
}

/// The line that a file is no rewriting of an image.
fn differs_line(alloc: Global, found: &Differs) -> Result<Vec<u8>, NoMemory>
    ensures { IfOk result (λ text. text.items ≡ differs_message found.now) }
{
    let mut text = Vec::new(alloc);
    text.extend_from_slice(b"multiverse: differs: ")?;
    text.extend_from_slice(part_name(found.part).as_bytes())?;
    put_word(found.at, &mut text)?;
    put_word(found.kept, &mut text)?;
    put_word(found.found, &mut text)?;
    text.push(b'\n')?;
    Ok(text)
}

/// Appends a space and a number in eight digits.
fn put_word(n: u32, to: &mut Vec<u8>) -> Result<(), NoMemory>
    ensures { OnOk result (to.new.items ≡ to.old.items ++ (codes " " ++ hex8 n)) }
{
    to.push(b' ')?;
    put_hex8(n, to)
}

/// The name of a part in which a file can differ.
fn part_name(part: Part) -> &'static str
    ensures { result.now ≡ part_name_of part }
{
    match part {
        Part::Room => "room",
        Part::Runs => "runs",
        Part::File => "file",
        Part::Counted => "counted",
        Part::Stub => "stub",
        Part::Entry => "entry",
        Part::Piece => "piece",
    }
}

/// The line of a name between two texts.
fn name_line(alloc: Global, before: &str, name: &str, after: &str) -> Result<Vec<u8>, NoMemory>
    ensures { IfOk result (λ text. text.items ≡ line (before.now ++ name.now ++ after.now)) }
{
    let mut text = Vec::new(alloc);
    text.extend_from_slice(before.as_bytes())?;
    text.extend_from_slice(name.as_bytes())?;
    text.extend_from_slice(after.as_bytes())?;
    text.push(b'\n')?;
    Ok(text)
}

/// The line that an image has a fault.
fn fault_line(alloc: Global, fault: &ImageFault) -> Result<Vec<u8>, NoMemory>
    ensures { IfOk result (λ text. text.items ≡ image_message fault.now) }
{
    let mut text = Vec::new(alloc);
    text.extend_from_slice(b"multiverse: bad image: ")?;
    text.extend_from_slice(fault_name(fault).as_bytes())?;
    put_place(fault, &mut text)?;
    text.push(b'\n')?;
    Ok(text)
}

/// The line of a number behind a text.
fn number_line(alloc: Global, before: &str, number: u64) -> Result<Vec<u8>, NoMemory>
    ensures { IfOk result (λ text. text.items ≡ line (before.now ++ decimal number)) }
{
    let mut text = Vec::new(alloc);
    text.extend_from_slice(before.as_bytes())?;
    put_decimal(number, &mut text)?;
    text.push(b'\n')?;
    Ok(text)
}

/// Appends the number of the header that has the fault, if it is a header's.
fn put_place(fault: &ImageFault, to: &mut Vec<u8>) -> Result<(), NoMemory>
    ensures { OnOk result (to.new.items ≡ to.old.items ++ fault_place fault.now) }
{
    match fault {
        ImageFault::Interpreter(i)
        | ImageFault::Dynamic(i)
        | ImageFault::FileRange(i)
        | ImageFault::MemorySmaller(i)
        | ImageFault::AddressRange(i)
        | ImageFault::NoPermission(i)
        | ImageFault::WritableCode(i)
        | ImageFault::NotCongruent(i)
        | ImageFault::SharedPage(i) => {
            to.extend_from_slice(b" header ")?;
            put_decimal(u64::from(*i), to)
        }
        _ => Ok(()),
    }
}

/// The name of a fault.
fn fault_name(fault: &ImageFault) -> &'static str
    ensures { result.now ≡ fault_name_of fault.now }
{
    match fault {
        ImageFault::ShortHeader => "ShortHeader",
        ImageFault::NotElf => "NotElf",
        ImageFault::NotElf32Little => "NotElf32Little",
        ImageFault::NotI386 => "NotI386",
        ImageFault::NotExecutable => "NotExecutable",
        ImageFault::BadVersion => "BadVersion",
        ImageFault::BadSizes => "BadSizes",
        ImageFault::HeaderCount => "HeaderCount",
        ImageFault::HeadersOutside => "HeadersOutside",
        ImageFault::Interpreter(_) => "Interpreter",
        ImageFault::Dynamic(_) => "Dynamic",
        ImageFault::FileRange(_) => "FileRange",
        ImageFault::MemorySmaller(_) => "MemorySmaller",
        ImageFault::AddressRange(_) => "AddressRange",
        ImageFault::NoPermission(_) => "NoPermission",
        ImageFault::WritableCode(_) => "WritableCode",
        ImageFault::NotCongruent(_) => "NotCongruent",
        ImageFault::SharedPage(_) => "SharedPage",
        ImageFault::NoLoad => "NoLoad",
        ImageFault::CodeTooLarge => "CodeTooLarge",
        ImageFault::HeadersFull => "HeadersFull",
    }
}
