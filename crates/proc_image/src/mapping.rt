//! Ranges of cells that are made, written and taken away.

ghost use Rattle.std.specs.Prelude.{◌≡◌, ◌+◌, ◌/◌, ◌%◌, ◌<◌, ◌≤◌, ℕ, None, length, slice_index, OnOk, OnErr};
ghost use Rattle.mv_base.specs.Effects.{UnmapAt, applied};
ghost use Rattle.mv_base.specs.Memory.{put, read_fault};
ghost use Rattle.proc_image.specs.Mapping.{filled};
ghost use Rattle.proc_image.specs.Paged.{cells, page_of};

use crate::cell::Cell;
use crate::limits::PAGE_SIZE;
use crate::memory::Memory;
use mv_base::NoMemory;

impl Memory {
    /// Maps `len` new cells from `lo` on: `bytes` and then zeros, with these marks. Where memory is wanting, nothing has
    /// changed.
    pub(crate) fn map(
        &mut self,
        lo: u32,
        len: u32,
        bytes: &[u8],
        write: bool,
        exec: bool,
    ) -> Result<(), NoMemory>
        requires { lo + len ≤ 0xFFFFF000 }
        ensures ok { OnOk result (cells self.new ≡ filled (cells self.old) lo len bytes.now write
            exec) }
        ensures err { OnErr result (cells self.new ≡ cells self.old) }
    {
        self.reserve_range(lo, len)?;
        self.fill(lo, len, bytes, write, exec);
        Ok(())
    }

    /// Makes room for the cells of `len` addresses from `lo` on. The mapped cells stay, also where memory is wanting.
    pub(crate) fn reserve_range(&mut self, lo: u32, len: u32) -> Result<(), NoMemory>
        requires { lo + len ≤ 0xFFFFF000 }
        ensures same { cells self.new ≡ cells self.old }
        ensures room { OnOk result ((a : ℕ) → lo ≤ a → a < lo + len → a % 4096 < length
            (page_of self.new (a / 4096))) }
    {
        for page in lo / PAGE_SIZE..(lo + len + 4_095) / PAGE_SIZE {
            self.reserve(page)?;
        }
        Ok(())
    }

    /// Maps `len` new cells from `lo` on, for which there is room: `bytes` and then zeros, with these marks.
    pub(crate) fn fill(&mut self, lo: u32, len: u32, bytes: &[u8], write: bool, exec: bool)
        requires low { lo + len ≤ 0xFFFFF000 }
        requires room { (a : ℕ) → lo ≤ a → a < lo + len → a % 4096 < length
            (page_of self.old (a / 4096)) }
        ensures filled { cells self.new ≡ filled (cells self.old) lo len bytes.now write exec }
        ensures room { (q : ℕ) → length (page_of self.new q) ≡ length (page_of self.old q) }
    {
        for place in 0..len {
            let byte = byte_or_zero(bytes, place as usize);
            self.set(lo + place, Some(Cell::new(byte, write, exec)));
        }
    }

    /// Takes away `len` mapped cells from `lo` on.
    pub(crate) fn unmap(&mut self, lo: u32, len: u32)
        requires low { lo + len ≤ 0xFFFFF000 }
        requires mapped { read_fault (cells self.old) lo len ≡ None }
        ensures { cells self.new ≡ applied (cells self.old) (UnmapAt lo len) }
    {
        for place in 0..len {
            self.set(lo + place, None);
        }
    }
}

/// The byte at a place, or 0 where there is none.
fn byte_or_zero(bytes: &[u8], place: usize) -> u8
    ensures { result ≡ slice_index bytes.now place }
{
    match bytes.get(place) {
        Some(byte) => *byte,
        None => 0,
    }
}
