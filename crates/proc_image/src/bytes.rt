//! Accesses of any length. Addresses go up modulo 2^32.

ghost use Rattle.std.specs.Prelude.{◌≡◌, ◌<◌, ◌^◌, length};
ghost use Rattle.mv_base.specs.Memory.{put};
ghost use Rattle.proc_image.specs.Access.{IsCopied, IsWritten};
ghost use Rattle.proc_image.specs.Paged.{cells};

use crate::memory::Memory;

impl Memory {
    /// Copies the bytes from `at` on to all of `to`.
    ///
    /// # Errors
    ///
    /// The first of these bytes that isn't mapped; then nothing is said of `to`.
    pub fn read_bytes(&self, at: u32, to: &mut [u8]) -> Result<(), u32>
        ensures { IsCopied (cells self.now) at to.new result }
    {
        let mut next = at;
        for i in 0..to.len() {
            match self.byte(next) {
                Ok(byte) => to[i] = byte,
                Err(fault) => return Err(fault),
            }
            next = next.wrapping_add(1);
        }
        Ok(())
    }

    /// Writes bytes from `at` on. Marks stay.
    ///
    /// # Errors
    ///
    /// The first of these bytes that isn't mapped or can't be written. Then nothing has changed.
    pub fn write_bytes(&mut self, at: u32, bytes: &[u8]) -> Result<(), u32>
        requires { length bytes.now < 2 ^ 32 }
        ensures { IsWritten (cells self.old) at bytes.now (cells self.new) result }
    {
        if let Some(fault) = self.write_fault(at, bytes.len() as u32) {
            return Err(fault);
        }
        self.put_bytes(at, bytes);
        Ok(())
    }

    /// Puts bytes into the cells from `at` on, where they are mapped. Marks stay.
    pub(crate) fn put_bytes(&mut self, at: u32, bytes: &[u8])
        requires { length bytes.now < 2 ^ 32 }
        ensures { cells self.new ≡ put (cells self.old) at bytes.now }
    {
        let mut next = at;
        for byte in bytes {
            self.put_byte(next, *byte);
            next = next.wrapping_add(1);
        }
    }
}
