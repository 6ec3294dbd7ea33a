//! The output file of a plan: a head, then the input whole, the code and the table, each up to a whole page.
//!
//! `part` appends numbers and bytes, `head` the ELF header and the program headers, `block` the frame record
//! and what is computed for it; `format` has the numbers that are written.

ghost use Rattle.std.specs.Prelude.{◌≡◌, ◌+◌, ◌≤◌, ◌++◌, [], length, IfOk, OnOk};
ghost use Rattle.elf32_write.specs.File.{head, file_of, padded, table_of, code_place};
ghost use Rattle.elf32_write.specs.Format.{up as up_of};
ghost use Rattle.elf32_write.specs.Writing.{HasHead, EndsLow, front};
ghost use Rattle.elf32_write.specs.Plans.{KeepsRules, ReadsBack};

mod block;
pub mod format;
mod head;
pub mod part;

pub use crate::file::block::added_len;
use crate::file::block::{added_headers, put_pairs, put_record, table_len};
use crate::file::format::{HEAD_LEN, RECORD_PLACE};
use crate::file::head::{put_all_headers, put_elf_header};
use crate::file::part::{put_padded, put_zeros, up};
use crate::plan::Plan;
use elf32_read::Image;
use mv_base::NoMemory;
use std::alloc::Global;

/// The output file of a plan for an input whose image this is: its first bytes are a new ELF header with the
/// input's program headers and three more, and the frame record; the input follows unchanged.
///
/// # Errors
///
/// `NoMemory` where memory for the file is wanted.
#[tactic(auto, unfolding(crate::specs::File::file_of))]
pub fn write_image(
    alloc: Global,
    image: &Image,
    input: &[u8],
    plan: &Plan,
) -> Result<Vec<u8>, NoMemory>
    requires image { HasHead input.now image.now }
    requires headers { length image.now.headers ≤ 61 }
    requires input { length input.now ≤ 268435456 }
    requires runs { length plan.now.runs ≤ 64 }
    requires block { EndsLow plan.now }
    ensures file { IfOk result (λ file. file.items ≡ file_of input.now plan.now) }

    // The frame that is read from the file is the plan, where the plan keeps the rules of a frame.
    ensures reads_back { KeepsRules plan.now →
        IfOk result (λ file. ReadsBack input.now plan.now file.items) }
{
    let mut file = Vec::with_capacity(alloc, file_len(input, plan))?;
    put_head(image, input, plan, &mut file)?;
    put_padded(input, &mut file)?;
    put_padded(plan.code.as_slice(), &mut file)?;
    put_table(plan, &mut file)?;
    Ok(file)
}

/// How many bytes the file has.
fn file_len(input: &[u8], plan: &Plan) -> usize
    requires input { length input.now ≤ 268435456 }
    requires block { EndsLow plan.now }
    ensures { result ≡ code_place (length input.now)
        + up_of (length plan.now.code) + up_of (length (table_of plan.now)) }
{
    HEAD_LEN as usize + up(input.len()) + up(plan.code.len()) + up(table_len(plan) as usize)
}

/// Writes the head of the file, which has no bytes yet.
fn put_head(image: &Image, input: &[u8], plan: &Plan, file: &mut Vec<u8>) -> Result<(), NoMemory>
    requires image { HasHead input.now image.now }
    requires headers { length image.now.headers ≤ 61 }
    requires input { length input.now ≤ 268435456 }
    requires runs { length plan.now.runs ≤ 64 }
    requires block { EndsLow plan.now }
    requires empty { file.old.items ≡ [] }
    ensures head { OnOk result (file.new.items ≡ head input.now plan.now) }
    ensures ident { OnOk result (length image.now.ident ≡ 9) }
{
    put_front(image, input, plan, file)?;
    put_zeros(RECORD_PLACE - file.len(), file)?;
    put_record(input.len() as u32, plan, file)?;
    put_zeros(HEAD_LEN as usize - file.len(), file)?;
    Ok(())
}

/// Writes the ELF header and the program headers of the file, which has no bytes yet.
fn put_front(image: &Image, input: &[u8], plan: &Plan, file: &mut Vec<u8>) -> Result<(), NoMemory>
    requires image { HasHead input.now image.now }
    requires headers { length image.now.headers ≤ 61 }
    requires input { length input.now ≤ 268435456 }
    requires block { EndsLow plan.now }
    requires empty { file.old.items ≡ [] }
    ensures front { OnOk result (file.new.items ≡ front input.now plan.now) }
    ensures ident { OnOk result (length image.now.ident ≡ 9) }
{
    let added = added_headers(input.len() as u32, plan);
    let count = (image.headers.len() + added.len()) as u16;
    put_elf_header(image, plan.entry, count, file)?;
    put_all_headers(plan.base, &added, image.headers.as_slice(), file)?;
    Ok(())
}

/// Appends the table with the list of counters, and zeros up to a multiple of 4,096.
fn put_table(plan: &Plan, file: &mut Vec<u8>) -> Result<(), NoMemory>
    requires { EndsLow plan.now }
    ensures { OnOk result (file.new.items ≡ file.old.items ++ padded (table_of plan.now)) }
{
    let len = table_len(plan) as usize;
    file.extend_from_slice(plan.table.as_slice())?;
    put_pairs(plan.counted.as_slice(), file)?;
    put_zeros(up(len) - len, file)?;
    Ok(())
}
