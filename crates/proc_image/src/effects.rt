//! What answers to system calls do to memory.

ghost use Rattle.std.specs.Prelude.{◌≡◌, ◌+◌, ◌%◌, ◌<◌, ◌≤◌, ℕ, Bool, List, is_some, not, length};
ghost use Rattle.mv_base.specs.Effects.{IsEffect, WriteAt, MapAt, UnmapAt, is_write_mode, is_exec_mode};
ghost use Rattle.mv_base.specs.Memory.{first_failing, is_executable};
ghost use Rattle.syscall_log.specs.Meaning.{effect_of, mode_of};
ghost use Rattle.proc_image.specs.Applying.{IsApplied};
ghost use Rattle.proc_image.specs.Counting.{mapped_pages, some_below};
ghost use Rattle.proc_image.specs.Mapping.{filled};
ghost use Rattle.proc_image.specs.Paged.{cells};

use crate::limits::{MOST_MAPPED, PAGE_BYTES, PAGE_SIZE};
use crate::memory::Memory;
use mv_base::NoMemory;
use syscall_log::{Effect, Mode};

/// Why an effect is refused.
#[derive(Clone, Copy, Debug, PartialEq, Eq)]
pub enum EffectFault {
    /// It maps executable cells, or touches one.
    Executable,
    /// The first address that it touches and that isn't mapped.
    NotMapped(u32),
    /// The first address that it writes and that can't be written.
    NotWritable(u32),
    /// 4,096 times the number of pages that would hold a mapped byte.
    TooLarge(u64),
    NoMemory,
}

impl From<NoMemory> for EffectFault {
    ghost use Rattle.std.specs.Prelude.{◌≡◌};
    ghost use Rattle.proc_image.specs.declared.effects.EffectFault.TheVariants.{NoMemory as WantsMemory};

    ghost from_gives = { λ _ e. e ≡ WantsMemory };

    fn from(_error: NoMemory) -> EffectFault {
        EffectFault::NoMemory
    }
}

impl Memory {
    /// Applies an effect that keeps its bounds. A descriptor touches no address.
    ///
    /// # Errors
    ///
    /// The first of these that holds: `Executable`, where it maps executable cells or touches one; `NotMapped`, where it
    /// writes or takes away an address that isn't mapped; `NotWritable`, where it writes to a cell that can't be
    /// written; `TooLarge`, where after a map more than 16,384 pages would hold a mapped byte; `NoMemory`, which a map
    /// alone can meet. Then nothing has changed.
    pub fn apply(&mut self, effect: &Effect) -> Result<(), EffectFault>
        requires { IsEffect (effect_of effect.now) }
        ensures { IsApplied (cells self.old) (effect_of effect.now) (cells self.new) result }
    {
        match effect {
            Effect::Write { lo, bytes } => self.apply_write(*lo, bytes.as_slice()),
            Effect::Map {
                lo,
                len,
                mode,
                bytes,
            } => { self.apply_map(*lo, *len, *mode, bytes.as_slice()) }
            Effect::Unmap { lo, len } => self.apply_unmap(*lo, *len),
            Effect::Desc { .. } => Ok(()),
        }
    }

    /// Writes bytes to mapped cells from `lo` on.
    fn apply_write(&mut self, lo: u32, bytes: &[u8]) -> Result<(), EffectFault>
        requires { lo + length bytes.now ≤ 0xFFFFF000 }
        ensures { IsApplied (cells self.old) (WriteAt lo bytes.now) (cells self.new) result }
    {
        let len = bytes.len() as u32;
        if self.touches_code(lo, len) {
            return Err(EffectFault::Executable);
        }
        if let Some(at) = self.read_fault(lo, len) {
            return Err(EffectFault::NotMapped(at));
        }
        if let Some(at) = self.write_fault(lo, len) {
            return Err(EffectFault::NotWritable(at));
        }
        self.put_bytes(lo, bytes);
        Ok(())
    }

    /// Maps `len` new cells from `lo` on.
    fn apply_map(&mut self, lo: u32, len: u32, mode: Mode, bytes: &[u8]) -> Result<(), EffectFault>
        requires some { 0 < len }
        requires low { lo + len ≤ 0xFFFFF000 }
        ensures { IsApplied (cells self.old) (MapAt lo len (mode_of mode) bytes.now)
            (cells self.new) result }
    {
        if is_exec(mode) || self.touches_code(lo, len) {
            return Err(EffectFault::Executable);
        }
        let size = PAGE_BYTES * u64::from(self.pages_with(lo, len));
        if size > MOST_MAPPED {
            return Err(EffectFault::TooLarge(size));
        }
        self.map(lo, len, bytes, is_write(mode), false)?;
        Ok(())
    }

    /// Takes away `len` cells from `lo` on.
    fn apply_unmap(&mut self, lo: u32, len: u32) -> Result<(), EffectFault>
        requires { lo + len ≤ 0xFFFFF000 }
        ensures { IsApplied (cells self.old) (UnmapAt lo len) (cells self.new) result }
    {
        if self.touches_code(lo, len) {
            return Err(EffectFault::Executable);
        }
        if let Some(at) = self.read_fault(lo, len) {
            return Err(EffectFault::NotMapped(at));
        }
        self.unmap(lo, len);
        Ok(())
    }

    /// How many pages would hold a mapped byte with these addresses mapped.
    fn pages_with(&self, lo: u32, len: u32) -> u32
        requires some { 0 < len }
        requires low { lo + len ≤ 0xFFFFF000 }
        ensures { (bytes : List ℕ) (write exec : Bool) → result ≡ mapped_pages
            (filled (cells self.now) lo len bytes write exec) }
    {
        let first = lo / PAGE_SIZE;
        let count = (lo + len + 4_095) / PAGE_SIZE - first;
        self.mapped_pages() + (count - self.mapped_pages_in(first, count))
    }

    /// Whether one of `len` cells from `lo` on can be executed.
    fn touches_code(&self, lo: u32, len: u32) -> bool
        requires { lo + len ≤ 0xFFFFF000 }
        ensures { result ≡ is_some (first_failing (λ a. not (is_executable (cells self.now) a))
            lo len) }
    {
        let end = lo + len;
        let mut at = lo;
        while at < end {
            let next = end.min((at / PAGE_SIZE + 1) * PAGE_SIZE);
            if self.has_code(at, next - at) {
                return true;
            }
            at = next;
        }
        false
    }

    /// Whether one of `len` cells from `lo` on, all in one page, can be executed.
    fn has_code(&self, lo: u32, len: u32) -> bool
        requires low { lo + len ≤ 0xFFFFF000 }
        requires page { lo % 4096 + len ≤ 4096 }
        ensures { result ≡ some_below (λ j. is_executable (cells self.now) (lo + j)) len }
    {
        if self.is_page_absent(lo / PAGE_SIZE) {
            return false;
        }
        for place in 0..len {
            if self.can_execute(lo + place) {
                return true;
            }
        }
        false
    }

    /// Whether the cell at an address can be executed.
    fn can_execute(&self, at: u32) -> bool
        ensures { result ≡ is_executable (cells self.now) at }
    {
        match self.cell(at) {
            Some(cell) => cell.is_executable(),
            None => false,
        }
    }
}

/// Whether new cells can be written.
fn is_write(mode: Mode) -> bool
    ensures { result ≡ is_write_mode (mode_of mode) }
{
    matches!(mode, Mode::Write)
}

/// Whether new cells can be executed.
fn is_exec(mode: Mode) -> bool
    ensures { result ≡ is_exec_mode (mode_of mode) }
{
    matches!(mode, Mode::Exec)
}
