//! The bytes of the stub.

ghost use Rattle.std.specs.Prelude.{◌≡◌, ◌+◌, ◌*◌, ◌<◌, ◌≤◌, ◌++◌, length, slice_index, IfOk};
ghost use Rattle.std.specs.List.{concat};
ghost use Rattle.lookup_stub.specs.Stub.{stub as stub_of, stub_size, head, search, finish};

use mv_base::{NoMemory, RunPlace};
use std::alloc::Global;

/// How many runs a stub has at most.
pub const MOST_RUNS: usize = 64;

// How many bytes stand before the runs' tests, in the test of one, and behind them for a table of form 2.
const HEAD_LEN: usize = 20;

const SEARCH_LEN: usize = 26;

const PAGED_END_LEN: usize = 45;

// The tail and the jump over it, for a table of form 1 and of form 2.
const FLAT_TAIL: [u8; 10] = [0xEB, 0x08, 0x8B, 0x0C, 0x8A, 0x85, 0xC9, 0x0F, 0x45, 0xC1];

const PAGED_TAIL: [u8; 24] = [
    0xEB, 0x16, 0x51, 0xC1, 0xE9, 0x0A, 0x8B, 0x14, 0x8A, 0x59, 0x81, 0xE1, 0xFF, 0x03, 0x00, 0x00,
    0x8B, 0x0C, 0x8A, 0x85, 0xC9, 0x0F, 0x45, 0xC1,
];

/// How many bytes the stub for a table of form 2 has.
pub fn stub_len(runs: usize) -> usize
    requires { runs ≤ MOST_RUNS }
    ensures { result ≡ stub_size 2 runs }
{
    HEAD_LEN + SEARCH_LEN * runs + PAGED_END_LEN
}

/// The stub for a table of form 2 over these runs, with the private area from `private` on. Sums of addresses are taken
/// modulo 2^32.
pub fn stub(alloc: Global, runs: &[RunPlace], private: u32) -> Result<Vec<u8>, NoMemory>
    requires { length runs.now ≤ MOST_RUNS }
    ensures { IfOk result (λ v. v.items ≡ stub_of 2 runs.now private) }
{
    let mut bytes = Vec::new(alloc);
    for i in 0..stub_len(runs.len()) {
        bytes.push(stub_byte(2, runs, private, i))?;
    }
    Ok(bytes)
}

/// Byte `i`, from 0, of the stub for a table of this form, 1 or 2.
pub fn stub_byte(form: u8, runs: &[RunPlace], private: u32, i: usize) -> u8
    requires form_low { 1 ≤ form }
    requires form_high { form ≤ 2 }
    requires few { length runs.now ≤ MOST_RUNS }
    requires inside { i < stub_size form (length runs.now) }
    ensures { result ≡ slice_index (stub_of form runs.now private) i }
{
    if i < HEAD_LEN {
        return head_bytes(private)[i];
    }
    let k = (i - HEAD_LEN) / SEARCH_LEN;
    if k < runs.len() {
        let behind = runs.len() - 1 - k;
        return search_bytes(&runs[k], behind)[(i - HEAD_LEN) % SEARCH_LEN];
    }
    let place = i - HEAD_LEN - SEARCH_LEN * runs.len();
    if form == 1 {
        end_byte(&FLAT_TAIL, private, place)
    } else {
        end_byte(&PAGED_TAIL, private, place)
    }
}

// The part before the runs' tests.
fn head_bytes(private: u32) -> [u8; 20]
    ensures { result ≡ concat (head private) }
{
    let target = private.wrapping_add(4).to_le_bytes();
    let esp = private.wrapping_add(8).to_le_bytes();
    let top = private.wrapping_add(64).to_le_bytes();
    [
        0x89, 0x25, esp[0], esp[1], esp[2], esp[3], 0xBC, top[0], top[1], top[2], top[3], 0x9C,
        0x50, 0x51, 0x52, 0xA1, target[0], target[1], target[2], target[3],
    ]
}

// The test of a run, where as many more are behind it.
fn search_bytes(run: &RunPlace, behind: usize) -> [u8; 26]
    requires { behind < MOST_RUNS }
    ensures { result ≡ concat (search run.now behind) }
{
    let lo = run.lo.to_le_bytes();
    let len = run.len.to_le_bytes();
    let dir = run.dir.to_le_bytes();
    let tail = (SEARCH_LEN as u32 * behind as u32 + 2).to_le_bytes();
    [
        0x89, 0xC1, 0x81, 0xE9, lo[0], lo[1], lo[2], lo[3], 0x81, 0xF9, len[0], len[1], len[2],
        len[3], 0x73, 0x0A, 0xBA, dir[0], dir[1], dir[2], dir[3], 0xE9, tail[0], tail[1], tail[2],
        tail[3],
    ]
}

// What stands behind the runs' tests: a tail, and then the end that both forms have.
fn end_byte(tail: &[u8], private: u32, place: usize) -> u8
    requires { place < length tail.now + 21 }
    ensures { result ≡ slice_index (tail.now ++ concat (finish private)) place }
{
    if place < tail.len() {
        tail[place]
    } else {
        finish_bytes(private)[place - tail.len()]
    }
}

// The end of the stub.
fn finish_bytes(private: u32) -> [u8; 21]
    ensures { result ≡ concat (finish private) }
{
    let target = private.wrapping_add(4).to_le_bytes();
    let esp = private.wrapping_add(8).to_le_bytes();
    [
        0xA3, target[0], target[1], target[2], target[3], 0x5A, 0x59, 0x58, 0x9D, 0x8B, 0x25,
        esp[0], esp[1], esp[2], esp[3], 0xFF, 0x25, target[0], target[1], target[2], target[3],
    ]
}
