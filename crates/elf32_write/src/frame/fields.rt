//! The words of a frame record, by their places in it.

ghost use Rattle.std.specs.Prelude.{◌≡◌, ◌+◌, ◌*◌, ◌^◌, ◌<◌, ◌≤◌, ◌==◌, length, take, drop};
ghost use Rattle.mv_base.specs.Bytes.{word_at};
ghost use Rattle.elf32_write.specs.Format.{up as up_of};
ghost use Rattle.elf32_write.specs.File.{code_place as place_of_code};
ghost use Rattle.elf32_write.specs.Frame.{edge_rule_in, field as field_of, fixed_words as fixed_words_of, frame_at, kind_at, list_len as list_len_of, rule_in, run_place_at as run_place_of, table_at};
ghost use Rattle.elf32_write.specs.Framing.{HasList};

use crate::file::format::{HEAD_LEN, OLD_VERSION, RECORD_PLACE};
use crate::file::part::up;
use crate::frame::table::Table;
use byteorder::{ByteOrder, LittleEndian};
use mv_base::RunPlace;

/// How many bytes stand before the input in the file.
pub const HEAD: usize = HEAD_LEN as usize;

/// The words of a record, by number; the lengths are in bytes and the others are addresses or counts.
pub const MAGIC: usize = 0;

pub const VERSION: usize = 1;

pub const FORM: usize = 2;

pub const INPUT_LEN: usize = 3;

pub const ADDED_LO: usize = 4;

pub const ADDED_LEN: usize = 5;

pub const CODE_LO: usize = 6;

pub const CODE_LEN: usize = 7;

pub const TABLE_LO: usize = 8;

pub const TABLE_LEN: usize = 9;

pub const PRIVATE_LO: usize = 10;

pub const PRIVATE_SIZE: usize = 11;

pub const FIRST_COUNTER: usize = 12;

pub const COUNTER_COUNT: usize = 13;

pub const LIST: usize = 14;

pub const RUN_COUNT: usize = 15;

/// The two rules, which version 1 hasn't.
const RULE: usize = 16;

const EDGE_RULE: usize = 17;

/// The number of the rule of listed addresses, which is the rule of version 1.
const LISTED_RULE: u32 = 6;

/// How many words stand before those of the runs in version 1, and in version 2.
const OLD_FIXED_WORDS: usize = 16;

const FIXED_WORDS: usize = 18;

/// How many bytes of the list a counter has in version 1, and in version 2.
const OLD_LISTED_LEN: usize = 4;

const LISTED_LEN: usize = 8;

/// How many words a run has.
const RUN_WORDS: usize = 3;

/// The little-endian number in the four bytes from `place` on.
#[tactic(auto, unfolding(mv_base::specs::Bytes::word_at))]
pub fn word(bytes: &[u8], place: usize) -> u32
    requires { place + 4 ≤ length bytes.now }
    ensures { result ≡ word_at bytes.now place }
{
    LittleEndian::read_u32(&bytes[place..])
}

/// The bytes of a part that stands at a place.
pub fn part(bytes: &[u8], place: usize, len: usize) -> &[u8]
    requires { place + len ≤ length bytes.now }
    ensures { result.now ≡ take len (drop place bytes.now) }
{
    &bytes[place..place + len]
}

/// A word of the record.
pub fn field(file: &[u8], number: usize) -> u32
    requires room { 0x1000 ≤ length file.now }
    requires number { number < 256 }
    ensures { result ≡ field_of file.now number }
{
    word(file, RECORD_PLACE + 4 * number)
}

/// Where in the file the code stands.
pub fn code_place(file: &[u8]) -> usize
    requires { 0x1000 ≤ length file.now }
    ensures value { result ≡ place_of_code (field_of file.now 3) }
    ensures limit { result ≤ 2 ^ 34 }
{
    HEAD + up(field(file, INPUT_LEN) as usize)
}

/// Where in the file the table stands.
pub fn table_place(file: &[u8]) -> usize
    requires { 0x1000 ≤ length file.now }
    ensures value { result ≡ place_of_code (field_of file.now 3) + up_of (field_of file.now 7) }
    ensures limit { result ≤ 2 ^ 35 }
{
    code_place(file) + up(field(file, CODE_LEN) as usize)
}

/// Whether a record is one of version 1.
pub fn is_old(file: &[u8]) -> bool
    requires { 0x1000 ≤ length file.now }
    ensures { result ≡ (field_of file.now 1 == 1) }
{
    field(file, VERSION) == OLD_VERSION
}

/// How many bytes this many counters have in the list.
pub fn list_len(file: &[u8], count: u32) -> usize
    requires { 0x1000 ≤ length file.now }
    ensures value { result ≡ list_len_of (field_of file.now 1) count }
    ensures limit { result ≤ 8 * count }
{
    if is_old(file) {
        OLD_LISTED_LEN * count as usize
    } else {
        LISTED_LEN * count as usize
    }
}

/// The number of the rule that the counters are of.
pub fn rule(file: &[u8]) -> u32
    requires { 0x1000 ≤ length file.now }
    ensures { result ≡ rule_in file.now }
{
    if is_old(file) {
        LISTED_RULE
    } else {
        field(file, RULE)
    }
}

/// The number of the rule that the counters of branches are of.
pub fn edge_rule(file: &[u8]) -> u32
    requires { 0x1000 ≤ length file.now }
    ensures { result ≡ edge_rule_in file.now }
{
    if is_old(file) {
        0
    } else {
        field(file, EDGE_RULE)
    }
}

/// The kind of counter `index`, which is 0 in version 1.
#[tactic(auto, unfolding(crate::specs::Frame::frame_at))]
pub fn kind(file: &[u8], table: &Table<'_>, index: u32) -> u32
    requires room { 0x1000 ≤ length file.now }
    requires table { table.now ≡ table_at (frame_at file.now) }
    requires list { HasList file.now }
    requires bytes { length table.now.bytes ≡ field_of file.now 9 }
    requires index { index < field_of file.now 13 }
    ensures { result ≡ kind_at (frame_at file.now) index }
{
    if is_old(file) {
        return 0;
    }
    let list = (table.list - table.lo) as usize;
    word(table.bytes, list + (LISTED_LEN * index as usize + 4))
}

/// How many words stand before those of the runs.
fn fixed_words(file: &[u8]) -> usize
    requires { 0x1000 ≤ length file.now }
    ensures value { result ≡ fixed_words_of (field_of file.now 1) }
    ensures limit { result ≤ 18 }
{
    if is_old(file) {
        OLD_FIXED_WORDS
    } else {
        FIXED_WORDS
    }
}

/// The place of a run.
pub fn run_place(file: &[u8], index: usize) -> RunPlace
    requires room { 0x1000 ≤ length file.now }
    requires index { index < 64 }
    ensures { result ≡ run_place_of file.now index }
{
    let first = fixed_words(file) + RUN_WORDS * index;
    RunPlace {
        lo: field(file, first),
        len: field(file, first + 1),
        dir: field(file, first + 2),
    }
}
