//! The frame of a file: what its record says was added to what.
//!
//! `fields` reads the words of a record, `rules` tests what is asked of them. No call takes memory.

ghost use Rattle.std.specs.Prelude.{◌≡◌, ◌+◌, ◌-◌, ◌*◌, ◌<◌, ◌≤◌, ◌==◌, length, take, slice_get, if◌then◌else◌};
ghost use Rattle.mv_base.specs.Memory.{within};
ghost use Rattle.mv_base.specs.Table.{run_of};
ghost use Rattle.elf32_write.specs.Format.{up as up_of};
ghost use Rattle.elf32_write.specs.File.{code_place as place_of_code};
ghost use Rattle.elf32_write.specs.Frame.{field as field_of, frame, frame_at, table_at, frame_input, frame_code, frame_table, frame_entry, frame_map, counted_at as counted_address, counter_place as place_of_counter, kind_at as kind_of};
ghost use Rattle.elf32_write.specs.Framing.{HasList};

mod fields;
mod rules;
mod table;

use crate::file::format::FLAT_FORM;
use crate::frame::fields::{
    ADDED_LEN, ADDED_LO, CODE_LEN, CODE_LO, COUNTER_COUNT, FIRST_COUNTER, FORM, HEAD, INPUT_LEN,
    LIST, PRIVATE_LO, RUN_COUNT, TABLE_LEN, TABLE_LO, VERSION, code_place, edge_rule, field, kind,
    list_len, part, rule, run_place, table_place, word,
};
use crate::frame::rules::{has_kinds, has_numbers, has_record, has_runs};
use crate::frame::table::Table;
use mv_base::{Range, RunPlace};
use std::marker::Model;

/// A file with a frame: its record keeps the rules. It is seen as the ranges, places and counts of the record.
#[derive(Drop)]
pub struct Frame<'a> {
    file: &'a [u8],
}

impl<'a> Model for Frame<'a> {
    ghost use Rattle.elf32_write.specs.Frame.{Frame as FrameOf, frame_at};
    ghost use Rattle.elf32_write.specs.Framing.{IsFramed};

    ghost Value = { FrameOf };

    ghost view = { λ f. frame_at f.file.now };

    ghost invariant = { λ f. IsFramed f.file.now };
}

/// The table of a file with a record.
#[tactic(auto, unfolding(crate::specs::Frame::frame_at, crate::specs::Frame::frame_table))]
fn table_in(file: &[u8]) -> Table<'_>
    requires room { 0x1000 ≤ length file.now }
    requires list { HasList file.now }
    requires table { place_of_code (field_of file.now 3)
        + up_of (field_of file.now 7) + field_of file.now 9 ≤ length file.now }
    ensures is { result ≡ table_at (frame_at file.now) }
    ensures len { length result.bytes ≡ field_of file.now 9 }
{
    let len = field(file, TABLE_LEN) as usize;
    Table {
        form: field(file, FORM),
        bytes: part(file, table_place(file), len),
        lo: field(file, TABLE_LO),
        list: field(file, LIST),
    }
}

/// The frame of a file; `None` exactly where a rule of the record is not kept.
#[tactic(auto, unfolding(crate::specs::Frame::frame))]
pub fn read_frame(file: &[u8]) -> Option<Frame<'_>>
    ensures { result ≡ frame file.now }
{
    if !has_record(file) {
        return None;
    }
    if !has_numbers(file) {
        return None;
    }
    let table = table_in(file);
    if !has_kinds(file, &table) {
        return None;
    }
    if !has_runs(file, &table) {
        return None;
    }
    Some(Frame { file })
}

#[tactic(auto, unfolding(crate::specs::Frame::frame_at, crate::specs::Frame::frame_table))]
impl Frame<'_> {
    /// The version of the record, 1 or 2.
    pub fn version(&self) -> u8
        ensures value { result ≡ self.now.version }
        ensures low { 1 ≤ result }
        ensures high { result ≤ 2 }
    {
        field(self.file, VERSION) as u8
    }

    /// The number of the rule that the counters are of, 0 to 6: none, all, calls, returns, branches, system, listed
    /// addresses. Version 1 has the last.
    pub fn rule(&self) -> u8
        ensures value { result ≡ self.now.rule }
        ensures high { result ≤ 6 }
    {
        rule(self.file) as u8
    }

    /// The number of the rule that the counters of branches are of: none, 0, all, 1, or listed addresses, 6. Version 1
    /// has none.
    pub fn edge_rule(&self) -> u8
        ensures value { result ≡ self.now.edge_rule }
        ensures high { result ≤ 6 }
    {
        edge_rule(self.file) as u8
    }

    /// The number of the table's form.
    pub fn form(&self) -> u8
        ensures value { result ≡ self.now.form }
        ensures low { 1 ≤ result }
        ensures high { result ≤ 2 }
    {
        field(self.file, FORM) as u8
    }

    /// The input, whole.
    pub fn input(&self) -> &[u8]
        ensures is { result.now ≡ frame_input self.now }
        ensures short { length result.now ≤ 268435456 }
    {
        part(self.file, HEAD, field(self.file, INPUT_LEN) as usize)
    }

    /// The addresses of the added block.
    pub fn added(&self) -> Range
        ensures { result ≡ self.now.added }
    {
        Range::new(field(self.file, ADDED_LO), field(self.file, ADDED_LEN))
    }

    /// The addresses of the code.
    pub fn code(&self) -> Range
        ensures { result ≡ self.now.code }
    {
        Range::new(field(self.file, CODE_LO), field(self.file, CODE_LEN))
    }

    /// The address behind the code.
    pub fn code_end(&self) -> u32
        ensures { result ≡ self.now.code.lo + self.now.code.len }
    {
        field(self.file, CODE_LO) + field(self.file, CODE_LEN)
    }

    /// The code.
    pub fn code_bytes(&self) -> &[u8]
        ensures { result.now ≡ frame_code self.now }
    {
        part(
            self.file,
            code_place(self.file),
            field(self.file, CODE_LEN) as usize,
        )
    }

    /// The table with the list of counters.
    fn table(&self) -> Table<'_>
        ensures is { result ≡ table_at self.now }
        ensures len { length result.bytes ≡ self.now.table.len }
    {
        table_in(self.file)
    }

    /// The table without the list of counters.
    pub fn table_bytes(&self) -> &[u8]
        ensures { result.now ≡ take (self.now.list - self.now.table.lo) (frame_table self.now) }
    {
        let len = field(self.file, LIST) - field(self.file, TABLE_LO);
        &self.table().bytes[..len as usize]
    }

    /// The address of the private area.
    pub fn private(&self) -> u32
        ensures { result ≡ self.now.private }
    {
        field(self.file, PRIVATE_LO)
    }

    /// How many runs the input has.
    pub fn run_count(&self) -> u32
        ensures value { result ≡ length self.now.runs }
        ensures few { result ≤ 64 }
    {
        field(self.file, RUN_COUNT)
    }

    /// The place of run `index`, counted from 0.
    pub fn run_at(&self, index: u32) -> RunPlace
        requires { index < length self.now.runs }
        ensures { slice_get self.now.runs index ≡ Some result }
    {
        run_place(self.file, index as usize)
    }

    /// How many counters there are.
    pub fn counter_count(&self) -> u32
        ensures { result ≡ self.now.counters }
    {
        field(self.file, COUNTER_COUNT)
    }

    /// The address of the site of counter `index`, counted from 0.
    pub fn counted_at(&self, index: u32) -> u32
        requires { index < self.now.counters }
        ensures { result ≡ counted_address self.now index }
    {
        let list = (field(self.file, LIST) - field(self.file, TABLE_LO)) as usize;
        word(self.table().bytes, list + list_len(self.file, index))
    }

    /// The kind of counter `index`, counted from 0: 0 counts all executions of the site, 1 those of a branch that jumped,
    /// and 2 those of a branch that didn't.
    pub fn kind_at(&self, index: u32) -> u8
        requires { index < self.now.counters }
        ensures value { result ≡ kind_of self.now index }
        ensures high { result ≤ 2 }
    {
        kind(self.file, &self.table(), index) as u8
    }

    /// The address at which counter `index` is, counted from 0.
    pub fn counter_place(&self, index: u32) -> u32
        requires { index < self.now.counters }
        ensures { result ≡ place_of_counter self.now index }
    {
        field(self.file, FIRST_COUNTER) + 8 * index
    }

    /// The word for an address, or 0 where it lies in no run.
    fn entry_word(&self, address: u32) -> u32
        ensures { result ≡ frame_entry self.now address }
    {
        let Some(run) = run_with(self.file, address) else {
            return 0;
        };
        let table = self.table();
        if table.form == FLAT_FORM {
            return table.flat_word(&run, address);
        }
        let page = table.page_of(&run, address);
        table.word_in_page(page, &run, address)
    }

    /// The new address of an address; `None` exactly where it lies in no run or its entry is 0.
    pub fn entry(&self, address: u32) -> Option<u32>
        ensures { result ≡ (if frame_entry self.now address == 0
            then None else Some (frame_entry self.now address)) }
    {
        match self.entry_word(address) {
            0 => None,
            entry => Some(entry),
        }
    }

    /// Where an address goes: its new address, or itself where it has none.
    pub fn map(&self, address: u32) -> u32
        ensures { result ≡ frame_map self.now address }
    {
        self.entry(address).unwrap_or(address)
    }
}

/// Whether an address lies in a run.
fn is_in_run(run: &RunPlace, address: u32) -> bool
    ensures { result ≡ within run.now.lo run.now.len address }
{
    run.lo <= address && address - run.lo < run.len
}

/// The run of a file's record in which an address lies.
fn run_with(file: &[u8], address: u32) -> Option<RunPlace>
    requires room { 0x1000 ≤ length file.now }
    requires runs { field_of file.now 15 ≤ 64 }
    ensures { result ≡ run_of (frame_at file.now).runs address }
{
    for index in 0..field(file, RUN_COUNT) as usize {
        let run = run_place(file, index);
        if is_in_run(&run, address) {
            return Some(run);
        }
    }
    None
}
