//! What instructions ask of memory. Addresses go up modulo 2^32.

ghost use Rattle.std.specs.Prelude.{◌≡◌, ◌≤◌, ◌↔◌, ◌++◌, ◌∷◌, ℕ, [], IsTrue, length, drop};
ghost use Rattle.byteorder.specs.Endian.{little_bytes};
ghost use Rattle.mv_base.specs.Memory.{put, read_fault as first_unmapped, write_fault as first_unwritable, exec_byte, exec_bytes as executable_bytes, is_writable};
ghost use Rattle.proc_image.specs.Access.{IsByte, IsRead, IsWritten};
ghost use Rattle.x86_insn.specs.Values.{width_bytes};
ghost use Rattle.proc_image.specs.Paged.{cells};

use crate::limits::{LIMIT, PAGE_SIZE};
use crate::memory::Memory;
use byteorder::{ByteOrder, LittleEndian};
use x86_insn::Width;

impl Memory {
    /// The little-endian number in the bytes of a width from `at` on.
    ///
    /// # Errors
    ///
    /// The first of these bytes that isn't mapped.
    pub fn read(&self, at: u32, width: Width) -> Result<u32, u32>
        ensures { IsRead (cells self.now) at (width_bytes width) result }
    {
        match width {
            Width::B => self.read_byte(at),
            Width::W => self.read_word(at),
            Width::D => self.read_dword(at),
        }
    }

    fn read_byte(&self, at: u32) -> Result<u32, u32>
        ensures { IsRead (cells self.now) at 1 result }
    {
        let byte = self.byte(at)?;
        Ok(u32::from(byte))
    }

    fn read_word(&self, at: u32) -> Result<u32, u32>
        ensures { IsRead (cells self.now) at 2 result }
    {
        let second = at.wrapping_add(1);
        let bytes = [self.byte(at)?, self.byte(second)?];
        Ok(u32::from(LittleEndian::read_u16(&bytes)))
    }

    fn read_dword(&self, at: u32) -> Result<u32, u32>
        ensures { IsRead (cells self.now) at 4 result }
    {
        let second = at.wrapping_add(1);
        let third = second.wrapping_add(1);
        let fourth = third.wrapping_add(1);
        let bytes = [
            self.byte(at)?,
            self.byte(second)?,
            self.byte(third)?,
            self.byte(fourth)?,
        ];
        Ok(LittleEndian::read_u32(&bytes))
    }

    /// The byte at an address, or the address where none is mapped.
    pub(crate) fn byte(&self, at: u32) -> Result<u8, u32>
        ensures { IsByte (cells self.now) at result }
    {
        match self.cell(at) {
            Some(cell) => Ok(cell.byte()),
            None => Err(at),
        }
    }

    /// The first of `len` bytes from `at` on that isn't mapped; `None` where there is none.
    pub(crate) fn read_fault(&self, at: u32, len: u32) -> Option<u32>
        ensures { result ≡ first_unmapped (cells self.now) at len }
    {
        let mut next = at;
        for _done in 0..len {
            if self.cell(next).is_none() {
                return Some(next);
            }
            next = next.wrapping_add(1);
        }
        None
    }

    /// The first of `len` bytes from `at` on that isn't mapped or can't be written; `None` where there is none.
    pub fn write_fault(&self, at: u32, len: u32) -> Option<u32>
        ensures { result ≡ first_unwritable (cells self.now) at len }
    {
        let mut next = at;
        for _done in 0..len {
            if !self.can_write(next) {
                return Some(next);
            }
            next = next.wrapping_add(1);
        }
        None
    }

    /// Whether the cell at an address can be written.
    fn can_write(&self, at: u32) -> bool
        ensures { result ≡ is_writable (cells self.now) at }
    {
        match self.cell(at) {
            Some(cell) => cell.is_writable(),
            None => false,
        }
    }

    /// Writes the low bytes of `n`, as many as the width has, from `at` on, the lowest first. Marks stay.
    ///
    /// # Errors
    ///
    /// The first of these bytes that isn't mapped or can't be written. Then nothing has changed.
    pub fn write(&mut self, at: u32, width: Width, n: u32) -> Result<(), u32>
        ensures { IsWritten (cells self.old) at (little_bytes (width_bytes width) n)
            (cells self.new) result }
    {
        if let Some(fault) = self.write_fault(at, width.bytes() as u32) {
            return Err(fault);
        }
        match width {
            Width::B => self.put_byte(at, (n % 0x100) as u8),
            Width::W => self.put_word(at, n),
            Width::D => self.put_dword(at, n),
        }
        Ok(())
    }

    fn put_word(&mut self, at: u32, n: u32)
        ensures { cells self.new ≡ put (cells self.old) at (little_bytes 2 n) }
    {
        self.put_byte(at, (n % 0x100) as u8);
        self.put_byte(at.wrapping_add(1), (n / 0x100 % 0x100) as u8);
    }

    pub(crate) fn put_dword(&mut self, at: u32, n: u32)
        ensures { cells self.new ≡ put (cells self.old) at (little_bytes 4 n) }
    {
        self.put_word(at, n);
        self.put_word(at.wrapping_add(2), n / 0x1_0000);
    }

    /// Puts a byte into the cell at an address, where one is mapped.
    pub(crate) fn put_byte(&mut self, at: u32, byte: u8)
        ensures { cells self.new ≡ put (cells self.old) at (byte ∷ []) }
    {
        if let Some(cell) = self.cell(at) {
            self.set(at, Some(cell.with_byte(byte)));
        }
    }

    /// Copies the executable bytes from `at` on, at most 15, to the front of `to`, and gives their number.
    pub fn exec_bytes(&self, at: u32, to: &mut [u8; 15]) -> usize
        ensures copied { to.new ≡ executable_bytes (exec_byte (cells self.now)) at 15 ++ drop
            (length (executable_bytes (exec_byte (cells self.now)) at 15)) to.old }
        ensures number { result ≡ length (executable_bytes (exec_byte (cells self.now)) at 15) }
    {
        let place = at % PAGE_SIZE;
        if at < LIMIT
            && place + 15 <= PAGE_SIZE
            && let Some(page) = self.page(at / PAGE_SIZE)
        {
            return page.exec_bytes(place as usize, to);
        }
        self.exec_bytes_apart(at, to)
    }

    /// The same, byte by byte, where they may stand in two pages.
    fn exec_bytes_apart(&self, at: u32, to: &mut [u8; 15]) -> usize
        ensures copied { to.new ≡ executable_bytes (exec_byte (cells self.now)) at 15 ++ drop
            (length (executable_bytes (exec_byte (cells self.now)) at 15)) to.old }
        ensures number { result ≡ length (executable_bytes (exec_byte (cells self.now)) at 15) }
    {
        let mut next = u64::from(at);
        for i in 0..15 {
            match self.exec_byte(next) {
                Some(byte) => to[i] = byte,
                None => return i,
            }
            next += 1;
        }
        15
    }

    /// Whether these bytes, at most 15, stand in executable cells from `at` on.
    pub fn is_code(&self, at: u32, bytes: &[u8]) -> bool
        requires { length bytes.now ≤ 15 }
        ensures { IsTrue result ↔ (executable_bytes (exec_byte (cells self.now)) at
            (length bytes.now) ≡ bytes.now) }
    {
        let place = at % PAGE_SIZE;
        if at < LIMIT
            && place + 15 <= PAGE_SIZE
            && let Some(page) = self.page(at / PAGE_SIZE)
        {
            return page.is_code(place as usize, bytes);
        }
        self.is_code_apart(at, bytes)
    }

    /// The same, byte by byte, where they may stand in two pages.
    #[cold]
    fn is_code_apart(&self, at: u32, bytes: &[u8]) -> bool
        requires { length bytes.now ≤ 15 }
        ensures { IsTrue result ↔ (executable_bytes (exec_byte (cells self.now)) at
            (length bytes.now) ≡ bytes.now) }
    {
        let mut next = u64::from(at);
        for byte in bytes {
            match self.exec_byte(next) {
                Some(code) => {
                    if code != *byte {
                        return false;
                    }
                }
                None => return false,
            }
            next += 1;
        }
        true
    }

    /// The byte to be executed at an address; `None` where no cell there can be.
    fn exec_byte(&self, at: u64) -> Option<u8>
        ensures { result ≡ exec_byte (cells self.now) at }
    {
        if at >= u64::from(LIMIT) {
            return None;
        }
        match self.cell(at as u32) {
            Some(cell) if cell.is_executable() => Some(cell.byte()),
            _ => None,
        }
    }
}
