//! The words of a table, read where they lie.

ghost use Rattle.std.specs.Prelude.{◌≡◌, ◌+◌, ◌-◌, ◌*◌, ◌/◌, ◌%◌, ◌≤◌, IsTrue, length};
ghost use Rattle.mv_base.specs.Bytes.{word_at};
ghost use Rattle.mv_base.specs.Memory.{within};
ghost use Rattle.mv_base.specs.Table.{page_at};
ghost use Rattle.map_table.specs.Built.{IsBuilt};
ghost use Rattle.map_table.specs.Pairs.{entry_in};

use crate::group::GROUP_LEN;
use byteorder::{ByteOrder, LittleEndian};
use elf32_read::Run;

/// The word for an address in the table of these pairs, which lies at `lo`; 0 where the address has no pair. No pair is
/// looked at.
pub fn word_for(
    runs: &[Run],
    _pairs: &[(u32, u32)],
    lo: u32,
    dirs: &[u32],
    bytes: &[u8],
    address: u32,
) -> u32
    requires { IsBuilt (record { runs = runs.now; pairs = _pairs.now; lo = lo }) dirs.now bytes.now }
    ensures { result ≡ entry_in _pairs.now address }
{
    for (index, run) in runs.iter().enumerate() {
        if is_in_run(run, address) {
            return word_in_page(bytes, lo, dirs[index], address - run.lo);
        }
    }
    0
}

/// Whether an address lies in a run.
fn is_in_run(run: &Run, address: u32) -> bool
    ensures value { result ≡ within run.now.lo (length run.now.bytes) address }
    ensures low { IsTrue result → run.now.lo ≤ address }
{
    run.lo <= address && ((address - run.lo) as usize) < run.bytes.len()
}

/// The word for an address so far behind the first of a run with this directory.
fn word_in_page(bytes: &[u8], lo: u32, dir: u32, offset: u32) -> u32
    requires low { lo ≤ dir }
    requires high { dir + 4 * (offset / 1024) + 4 ≤ lo + length bytes.now }
    requires page_low { lo ≤ page_at bytes.now lo dir offset }
    requires page_high { page_at bytes.now lo dir offset + 4096 ≤ lo + length bytes.now }
    ensures { result ≡ word_at bytes.now
        (page_at bytes.now lo dir offset - lo + 4 * (offset % 1024)) }
{
    let page = word(
        bytes,
        (dir - lo) as usize + 4 * (offset / GROUP_LEN) as usize,
    );
    word(
        bytes,
        (page - lo) as usize + 4 * (offset % GROUP_LEN) as usize,
    )
}

/// The little-endian number in the four bytes from `place` on.
#[tactic(auto, unfolding(mv_base::specs::Bytes::word_at))]
fn word(bytes: &[u8], place: usize) -> u32
    requires { place + 4 ≤ length bytes.now }
    ensures { result ≡ word_at bytes.now place }
{
    LittleEndian::read_u32(&bytes[place..])
}
