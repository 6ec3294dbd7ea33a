//! The rules of a frame record. Sums of addresses are taken in 64 bits.

ghost use Rattle.std.specs.Prelude.{◌≡◌, ◌+◌, ◌≤◌, length, IsTrue};
ghost use Rattle.elf32_write.specs.Format.{up as up_of};
ghost use Rattle.elf32_write.specs.File.{code_place as place_of_code};
ghost use Rattle.elf32_write.specs.Frame.{edge_rule_in, field as field_of, frame_at, has_block as has_block_of, has_kinds as has_kinds_of, has_numbers as has_numbers_of, has_places as has_places_of, has_record as has_record_of, has_rules as has_rules_of, has_runs as has_runs_of, has_size as has_size_of, has_version as has_version_of, is_run as is_run_of, most_code as most_code_of, most_input as most_input_of, rule_in, table_at};
ghost use Rattle.elf32_write.specs.Framing.{HasList};

use crate::file::format::{
    FLAT_FORM, FRAME_MAGIC, FRAME_VERSION, OLD_VERSION, PAGED_FORM, PRIVATE_LEN,
};
use crate::file::part::up;
use crate::frame::fields::{
    ADDED_LEN, ADDED_LO, CODE_LEN, CODE_LO, COUNTER_COUNT, FIRST_COUNTER, FORM, HEAD, INPUT_LEN,
    LIST, MAGIC, PRIVATE_LO, PRIVATE_SIZE, RUN_COUNT, TABLE_LEN, TABLE_LO, VERSION, edge_rule,
    field, is_old, kind, list_len, rule, run_place, table_place,
};
use crate::frame::table::Table;
use mv_base::RunPlace;

/// The most runs that a record has.
const MOST_RUNS: u32 = 64;

/// The most bytes that an input has in version 1, and in version 2.
const OLD_MOST_INPUT: u32 = 67_108_864;

const MOST_INPUT: u32 = 268_435_456;

/// The most bytes that the runs have together in version 1, and in version 2.
const OLD_MOST_CODE: u64 = 4_194_304;

const MOST_CODE: u64 = 16_777_216;

/// The greatest number of a rule.
const MOST_RULE: u32 = 6;

/// The greatest kind of a counter.
const MOST_KIND: u32 = 2;

/// The end of the addresses that an added block may have.
const BLOCK_END: usize = 0xB000_0000;

/// The end of the addresses that a run may have.
const RUN_END: u64 = 0xFFFF_F000;

/// Whether a version has a form of a table: version 1 has both forms, and version 2 the second.
fn has_version(version: u32, form: u32) -> bool
    ensures value { result ≡ has_version_of version form }
    ensures version_low { IsTrue result → 1 ≤ version }
    ensures version_high { IsTrue result → version ≤ 2 }
    ensures low { IsTrue result → 1 ≤ form }
    ensures high { IsTrue result → form ≤ 2 }
{
    (version == OLD_VERSION && (form == FLAT_FORM || form == PAGED_FORM))
        || (version == FRAME_VERSION && form == PAGED_FORM)
}

/// The most bytes that an input has.
fn most_input(file: &[u8]) -> u32
    requires { 0x1000 ≤ length file.now }
    ensures value { result ≡ most_input_of (field_of file.now 1) }
    ensures limit { result ≤ 268435456 }
{
    if is_old(file) {
        OLD_MOST_INPUT
    } else {
        MOST_INPUT
    }
}

/// Whether the file has room for a record, and magic, version, form and the two limits agree.
#[tactic(auto, unfolding(crate::specs::Frame::has_record))]
pub fn has_record(file: &[u8]) -> bool
    ensures value { result ≡ has_record_of file.now }
    ensures room { IsTrue result → 0x1000 ≤ length file.now }
    ensures version_low { IsTrue result → 1 ≤ field_of file.now 1 }
    ensures version_high { IsTrue result → field_of file.now 1 ≤ 2 }
    ensures form_low { IsTrue result → 1 ≤ field_of file.now 2 }
    ensures form_high { IsTrue result → field_of file.now 2 ≤ 2 }
    ensures runs { IsTrue result → field_of file.now 15 ≤ 64 }
    ensures input { IsTrue result → field_of file.now 3 ≤ 268435456 }
{
    if file.len() < HEAD {
        return false;
    }
    if field(file, MAGIC) != FRAME_MAGIC {
        return false;
    }
    if !has_version(field(file, VERSION), field(file, FORM)) {
        return false;
    }
    if field(file, RUN_COUNT) > MOST_RUNS {
        return false;
    }
    field(file, INPUT_LEN) <= most_input(file)
}

/// Whether the places and lengths are those that follow from the lengths of the code and the table, and from
/// the number of counters.
#[tactic(auto, unfolding(crate::specs::Frame::has_places, crate::specs::Frame::frame_at))]
fn has_places(file: &[u8]) -> bool
    requires { 0x1000 ≤ length file.now }
    ensures value { result ≡ has_places_of (frame_at file.now) }
    ensures list { IsTrue result → HasList file.now }
{
    let code_end = up(field(file, CODE_LEN) as usize);
    let table_end = up(field(file, TABLE_LEN) as usize);
    let count = field(file, COUNTER_COUNT);
    let list_len = list_len(file, count);
    let private_end = up(PRIVATE_LEN as usize + 8 * count as usize);
    if field(file, CODE_LO) != field(file, ADDED_LO) {
        return false;
    }
    if field(file, TABLE_LO) as usize != field(file, ADDED_LO) as usize + code_end {
        return false;
    }
    if field(file, PRIVATE_LO) as usize != field(file, TABLE_LO) as usize + table_end {
        return false;
    }
    if field(file, PRIVATE_SIZE) != PRIVATE_LEN {
        return false;
    }
    if field(file, FIRST_COUNTER) as usize
        != field(file, PRIVATE_LO) as usize + PRIVATE_LEN as usize
    {
        return false;
    }
    if list_len > field(file, TABLE_LEN) as usize {
        return false;
    }
    if field(file, LIST) as usize
        != field(file, TABLE_LO) as usize + (field(file, TABLE_LEN) as usize - list_len)
    {
        return false;
    }
    field(file, ADDED_LEN) as usize == code_end + table_end + private_end
}

/// Whether the file has the length that follows, and the block begins at a page and ends low enough.
#[tactic(auto, unfolding(crate::specs::Frame::has_block, crate::specs::Frame::frame_at))]
fn has_block(file: &[u8]) -> bool
    requires { 0x1000 ≤ length file.now }
    ensures value { result ≡ has_block_of (frame_at file.now) }
    ensures room { IsTrue result →
        place_of_code (field_of file.now 3)
        + up_of (field_of file.now 7) + field_of file.now 9 ≤ length file.now }
{
    if file.len() != table_place(file) + up(field(file, TABLE_LEN) as usize) {
        return false;
    }
    if field(file, ADDED_LO) % 4096 != 0 {
        return false;
    }
    field(file, ADDED_LO) as usize + field(file, ADDED_LEN) as usize <= BLOCK_END
}

/// Whether a run begins at `from` or above it, has a length and ends low enough.
fn is_run(from: u64, run: &RunPlace) -> bool
    ensures value { result ≡ is_run_of from run.now }
    ensures end { IsTrue result → run.now.lo + run.now.len ≤ 0xFFFFF000 }
{
    if u64::from(run.lo) < from {
        return false;
    }
    if run.len == 0 {
        return false;
    }
    u64::from(run.lo) + u64::from(run.len) <= RUN_END
}

/// Whether the runs ascend with a gap between any two, and their parts of the table lie in it before the list.
pub fn has_runs(file: &[u8], table: &Table) -> bool
    requires room { 0x1000 ≤ length file.now }
    requires runs { field_of file.now 15 ≤ 64 }
    ensures { result ≡ has_runs_of table.now 0 (frame_at file.now).runs }
{
    let mut from = 0;
    for index in 0..field(file, RUN_COUNT) as usize {
        let run = run_place(file, index);
        if !is_run(from, &run) {
            return false;
        }
        if !table.has_part(&run) {
            return false;
        }
        from = u64::from(run.lo) + u64::from(run.len) + 1;
    }
    true
}

/// Whether the runs have few enough bytes together.
fn has_size(file: &[u8]) -> bool
    requires room { 0x1000 ≤ length file.now }
    requires runs { field_of file.now 15 ≤ 64 }
    ensures { result ≡ has_size_of (field_of file.now 1) (frame_at file.now).runs }
{
    let mut size = 0;
    for index in 0..field(file, RUN_COUNT) as usize {
        let run = run_place(file, index);
        size += u64::from(run.len);
    }
    size <= most_code(file)
}

/// The most bytes that the runs have together.
fn most_code(file: &[u8]) -> u64
    requires { 0x1000 ≤ length file.now }
    ensures { result ≡ most_code_of (field_of file.now 1) }
{
    if is_old(file) {
        OLD_MOST_CODE
    } else {
        MOST_CODE
    }
}

/// Whether the two rules are numbers of rules.
fn has_rules(file: &[u8]) -> bool
    requires { 0x1000 ≤ length file.now }
    ensures { result ≡ has_rules_of (rule_in file.now) (edge_rule_in file.now) }
{
    if rule(file) > MOST_RULE {
        return false;
    }
    matches!(edge_rule(file), 0 | 1 | 6)
}

/// Whether places, lengths, rules and limits are as a record has them.
pub fn has_numbers(file: &[u8]) -> bool
    requires room { 0x1000 ≤ length file.now }
    requires runs { field_of file.now 15 ≤ 64 }
    ensures value { result ≡ has_numbers_of file.now }
    ensures list { IsTrue result → HasList file.now }
    ensures table { IsTrue result →
        place_of_code (field_of file.now 3)
        + up_of (field_of file.now 7) + field_of file.now 9 ≤ length file.now }
{
    has_places(file) && has_block(file) && has_rules(file) && has_size(file)
}

/// Whether each counter has a kind that is known.
pub fn has_kinds(file: &[u8], table: &Table<'_>) -> bool
    requires room { 0x1000 ≤ length file.now }
    requires table { table.now ≡ table_at (frame_at file.now) }
    requires list { HasList file.now }
    requires bytes { length table.now.bytes ≡ field_of file.now 9 }
    ensures { result ≡ has_kinds_of (frame_at file.now) }
{
    for index in 0..field(file, COUNTER_COUNT) {
        if kind(file, table, index) > MOST_KIND {
            return false;
        }
    }
    true
}
