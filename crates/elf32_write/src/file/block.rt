//! Where the parts of a plan's block lie in memory, the program headers that load them, and the frame record.

ghost use Rattle.std.specs.Prelude.{◌≡◌, ◌+◌, ◌*◌, ◌≤◌, ◌++◌, length, OnOk};
ghost use Rattle.std.specs.List.{flat_map};
ghost use Rattle.mv_base.specs.Bytes.{words};
ghost use Rattle.elf32_write.specs.File.{added_header as header_of_block, added_headers as headers_of_block, added_len as len_of_block, table_of, table_lo as lo_of_table, private_lo as lo_of_private, list_lo as lo_of_list, code_place as place_of_code, pair_words, place_words, record_words as words_of_record};
ghost use Rattle.elf32_write.specs.Writing.{EndsLow, record_front};

use crate::file::format::{FRAME_MAGIC, FRAME_VERSION, HEAD_LEN, PAGED_FORM, PRIVATE_LEN};
use crate::file::head::{PT_LOAD, SEGMENT_ALIGN};
use crate::file::part::{put_words, up};
use crate::plan::Plan;
use elf32_read::Phdr;
use mv_base::{NoMemory, RunPlace};

/// The flags of a segment that can be read and executed, only read, and read and written.
const READ_EXECUTE: u32 = 5;

const READ: u32 = 4;

const READ_WRITE: u32 = 6;

/// How many bytes the table has together with the list of counters.
#[tactic(auto, using(crate::specs::Written::table_length))]
pub fn table_len(plan: &Plan) -> u32
    requires { EndsLow plan.now }
    ensures { result ≡ length (table_of plan.now) }
{
    (plan.table.len() + 8 * plan.counted.len()) as u32
}

/// The address of the table.
#[tactic(auto, using(crate::specs::Written::table_length))]
fn table_lo(plan: &Plan) -> u32
    requires { EndsLow plan.now }
    ensures { result ≡ lo_of_table plan.now }
{
    plan.base + up(plan.code.len()) as u32
}

/// The address of the private area.
#[tactic(auto, using(crate::specs::Written::table_length))]
fn private_lo(plan: &Plan) -> u32
    requires { EndsLow plan.now }
    ensures { result ≡ lo_of_private plan.now }
{
    table_lo(plan) + up(table_len(plan) as usize) as u32
}

/// How many bytes the private area has together with its counters.
#[tactic(auto, using(crate::specs::Written::table_length))]
fn private_len(plan: &Plan) -> u32
    requires { EndsLow plan.now }
    ensures { result ≡ 64 + 8 * length plan.now.counted }
{
    PRIVATE_LEN + 8 * plan.counted.len() as u32
}

/// How many bytes the whole block of a plan has, a multiple of 4,096.
#[tactic(auto, using(crate::specs::Written::table_length))]
pub fn added_len(plan: &Plan) -> u32
    requires { EndsLow plan.now }
    ensures { result ≡ len_of_block plan.now }
{
    (up(plan.code.len()) + up(table_len(plan) as usize) + up(private_len(plan) as usize)) as u32
}

/// Where in the file the code stands, behind an input of this length.
fn code_place(input_len: u32) -> u32
    requires { input_len ≤ 268435456 }
    ensures { result ≡ place_of_code input_len }
{
    HEAD_LEN + up(input_len as usize) as u32
}

/// A header that is added: it loads bytes of the file at an address.
fn added_header(offset: u32, lo: u32, filesz: u32, memsz: u32, flags: u32) -> Phdr
    ensures { result ≡ header_of_block offset lo filesz memsz flags }
{
    Phdr {
        kind: PT_LOAD,
        offset,
        vaddr: lo,
        paddr: lo,
        filesz,
        memsz,
        flags,
        align: SEGMENT_ALIGN,
    }
}

/// The headers that are added behind an input of this length: for the code, the table and the private area.
#[tactic(auto, using(crate::specs::Written::table_length))]
pub fn added_headers(input_len: u32, plan: &Plan) -> [Phdr; 3]
    requires input { input_len ≤ 268435456 }
    requires block { EndsLow plan.now }
    ensures { result ≡ headers_of_block input_len plan.now }
{
    let code_len = plan.code.len() as u32;
    let table_len = table_len(plan);
    let code_place = code_place(input_len);
    let table_place = code_place + up(code_len as usize) as u32;
    let private_place = table_place + up(table_len as usize) as u32;
    [
        added_header(code_place, plan.base, code_len, code_len, READ_EXECUTE),
        added_header(table_place, table_lo(plan), table_len, table_len, READ),
        added_header(
            private_place,
            private_lo(plan),
            0,
            private_len(plan),
            READ_WRITE,
        ),
    ]
}

/// The words of the frame record before its runs, behind an input of this length.
#[tactic(auto, using(crate::specs::Written::table_length))]
fn record_words(input_len: u32, plan: &Plan) -> [u32; 18]
    requires block { EndsLow plan.now }
    requires runs { length plan.now.runs ≤ 64 }
    ensures { result ≡ record_front input_len plan.now }
{
    let private = private_lo(plan);
    let added = added_len(plan);
    let table = table_lo(plan);
    let table_len = table_len(plan);
    let list = table + plan.table.len() as u32;
    [
        FRAME_MAGIC,
        FRAME_VERSION,
        PAGED_FORM,
        input_len,
        plan.base,
        added,
        plan.base,
        plan.code.len() as u32,
        table,
        table_len,
        private,
        PRIVATE_LEN,
        private + PRIVATE_LEN,
        plan.counted.len() as u32,
        list,
        plan.runs.len() as u32,
        u32::from(plan.rule),
        u32::from(plan.edge_rule),
    ]
}

/// Appends the list of counters, two words each.
pub fn put_pairs(pairs: &[(u32, u8)], to: &mut Vec<u8>) -> Result<(), NoMemory>
    ensures { OnOk result (to.new.items ≡ to.old.items ++ words (flat_map pair_words pairs.now)) }
{
    for pair in pairs {
        put_words(&[pair.0, u32::from(pair.1)], to)?;
    }
    Ok(())
}

/// Appends the places of runs, three words each.
fn put_places(places: &[RunPlace], to: &mut Vec<u8>) -> Result<(), NoMemory>
    ensures { OnOk result (to.new.items ≡ to.old.items ++ words (flat_map place_words places.now)) }
{
    for place in places {
        put_words(&[place.lo, place.len, place.dir], to)?;
    }
    Ok(())
}

/// Appends the frame record, behind an input of this length.
pub fn put_record(input_len: u32, plan: &Plan, to: &mut Vec<u8>) -> Result<(), NoMemory>
    requires block { EndsLow plan.now }
    requires runs { length plan.now.runs ≤ 64 }
    ensures { OnOk result (to.new.items ≡ to.old.items
        ++ words (words_of_record input_len plan.now)) }
{
    put_words(&record_words(input_len, plan), to)?;
    put_places(plan.runs.as_slice(), to)?;
    Ok(())
}
