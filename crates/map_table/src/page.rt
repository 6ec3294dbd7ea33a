//! The bytes of directories and pages, which are appended to what stands there already.

ghost use Rattle.std.specs.Prelude.{◌≡◌, ℕ, ◌+◌, ◌*◌, ◌^◌, ◌<◌, ◌≤◌, ◌++◌, map, replicate, IfOk, OnOk};
ghost use Rattle.std.specs.List.{count_by, range_with_len};
ghost use Rattle.mv_base.specs.Bytes.{word as word_of, words};
ghost use Rattle.map_table.specs.Groups.{has_site};
ghost use Rattle.map_table.specs.Pairs.{Ascend, entry_in, firsts, second_of};
ghost use Rattle.map_table.specs.Paged.{page as page_of, page_name, next_page, own_page, directory, pages as pages_of};
ghost use Rattle.map_table.specs.Ends.{EndLow};

use crate::group::{GROUP_LEN, Group};
use crate::pairs::{has_pair, pairs_from};
use byteorder::{ByteOrder, LittleEndian};
use mv_base::NoMemory;

/// How many bytes a page has.
pub const PAGE_LEN: u32 = 4096;

/// Appends a number as four bytes, the lowest first.
#[tactic(auto, unfolding(mv_base::specs::Bytes::word))]
fn put_word(number: u32, bytes: &mut Vec<u8>) -> Result<(), NoMemory>
    ensures { OnOk result (bytes.new.items ≡ bytes.old.items ++ word_of number) }
{
    let mut word = [0; 4];
    LittleEndian::write_u32(&mut word, number);
    bytes.extend_from_slice(&word)?;
    Ok(())
}

/// Appends words that are 0.
pub fn put_zeros(count: u32, bytes: &mut Vec<u8>) -> Result<(), NoMemory>
    ensures { OnOk result (bytes.new.items ≡ bytes.old.items ++ words (replicate count 0)) }
{
    bytes.resize(bytes.len() + 4 * count as usize, 0)?;
    Ok(())
}

/// The entry of an address below which no pair's first part is.
fn first_entry(pairs: &[(u32, u32)], address: u32) -> u32
    requires { Ascend address (firsts pairs.now) }
    ensures { result ≡ entry_in pairs.now address }
{
    let Some((pair, _)) = pairs.split_first() else {
        return 0;
    };
    if pair.0 == address { pair.1 } else { 0 }
}

/// The pairs behind an address below which no pair's first part is.
fn behind(pairs: &[(u32, u32)], address: u32) -> &[(u32, u32)]
    requires { Ascend address (firsts pairs.now) }
    ensures ascend { Ascend (address + 1) (firsts result.now) }
    ensures same { (a : ℕ) → address < a → second_of result.now a ≡ second_of pairs.now a }
{
    let Some((pair, others)) = pairs.split_first() else {
        return pairs;
    };
    if pair.0 == address { others } else { pairs }
}

/// Appends the entries of a group's addresses.
fn put_entries(pairs: &[(u32, u32)], group: Group, bytes: &mut Vec<u8>) -> Result<(), NoMemory>
    requires ascend { Ascend 0 (firsts pairs.now) }
    requires ends { group.lo + group.len < 2 ^ 32 }
    ensures { OnOk result (bytes.new.items ≡ bytes.old.items
        ++ words (map (entry_in pairs.now) (range_with_len group.lo group.len))) }
{
    let mut rest = pairs_from(pairs, group.lo);
    for offset in 0..group.len {
        let address = group.lo + offset;
        put_word(first_entry(rest, address), bytes)?;
        rest = behind(rest, address);
    }
    Ok(())
}

/// Appends the page of a group.
fn put_page(pairs: &[(u32, u32)], group: Group, bytes: &mut Vec<u8>) -> Result<(), NoMemory>
    requires ascend { Ascend 0 (firsts pairs.now) }
    requires ends { group.lo + group.len < 2 ^ 32 }
    requires len { group.len ≤ 1024 }
    ensures { OnOk result (bytes.new.items ≡ bytes.old.items ++ words (page_of pairs.now group)) }
{
    put_entries(pairs, group, bytes)?;
    put_zeros(GROUP_LEN - group.len, bytes)?;
    Ok(())
}

/// Appends the page of a group in which the first part of a pair lies.
fn put_own_page(pairs: &[(u32, u32)], group: Group, bytes: &mut Vec<u8>) -> Result<(), NoMemory>
    requires ascend { Ascend 0 (firsts pairs.now) }
    requires ends { group.lo + group.len < 2 ^ 32 }
    requires len { group.len ≤ 1024 }
    ensures { OnOk result (bytes.new.items ≡ bytes.old.items ++ words (own_page pairs.now group)) }
{
    if has_pair(pairs, group) {
        return put_page(pairs, group, bytes);
    }
    Ok(())
}

/// Appends the pages of groups.
pub fn put_pages(
    pairs: &[(u32, u32)],
    groups: &[Group],
    bytes: &mut Vec<u8>,
) -> Result<(), NoMemory>
    requires ascend { Ascend 0 (firsts pairs.now) }
    requires ends { EndLow groups.now }
    ensures { OnOk result (bytes.new.items ≡ bytes.old.items
        ++ words (pages_of pairs.now groups.now)) }
{
    for group in groups {
        put_own_page(pairs, *group, bytes)?;
    }
    Ok(())
}

/// Appends the name of a group's page, where the next page lies at `next`, and gives the address of the page behind it.
fn put_name(
    pairs: &[(u32, u32)],
    zeros: u32,
    next: u32,
    group: Group,
    bytes: &mut Vec<u8>,
) -> Result<u32, NoMemory>
    requires ascend { Ascend 0 (firsts pairs.now) }
    requires room { next_page (firsts pairs.now) next group < 2 ^ 32 }
    ensures word { OnOk result (bytes.new.items ≡ bytes.old.items
        ++ word_of (page_name (firsts pairs.now) zeros next group)) }
    ensures next { IfOk result (λ behind. behind ≡ next_page (firsts pairs.now) next group) }
{
    if has_pair(pairs, group) {
        put_word(next, bytes)?;
        return Ok(next + PAGE_LEN);
    }
    put_word(zeros, bytes)?;
    Ok(next)
}

/// Appends the directories of groups, where the first page that isn't that of zeros lies at `first`.
pub fn put_directories(
    pairs: &[(u32, u32)],
    zeros: u32,
    first: u32,
    groups: &[Group],
    bytes: &mut Vec<u8>,
) -> Result<(), NoMemory>
    requires ascend { Ascend 0 (firsts pairs.now) }
    requires room { first + 4096 * count_by (has_site (firsts pairs.now)) groups.now < 2 ^ 32 }
    ensures { OnOk result (bytes.new.items ≡ bytes.old.items
        ++ words (directory (firsts pairs.now) zeros first groups.now)) }
{
    let mut next = first;
    for group in groups {
        next = put_name(pairs, zeros, next, *group, bytes)?;
    }
    Ok(())
}
