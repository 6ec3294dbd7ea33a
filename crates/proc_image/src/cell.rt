//! A cell of memory.

ghost use Rattle.std.specs.Prelude.{◌≡◌};

use std::marker::Model;

/// A byte, and whether it may be written and executed.
#[derive(Clone, Copy)]
pub struct Cell {
    byte: u8,
    write: bool,
    exec: bool,
}

impl Model for Cell {
    ghost use Rattle.mv_base.specs.Memory.{Cell};

    ghost Value = { Cell };

    ghost view = { λ c. record { byte = c.byte; write = c.write; exec = c.exec } };

    ghost inverse = { λ c. record { byte = c.byte; write = c.write; exec = c.exec } };
}

impl Cell {
    /// A cell with this byte and these marks.
    pub fn new(byte: u8, write: bool, exec: bool) -> Cell
        ensures { result ≡ record { byte = byte; write = write; exec = exec } }
    {
        Cell { byte, write, exec }
    }

    /// The byte.
    pub fn byte(self) -> u8
        ensures { result ≡ self.byte }
    {
        self.byte
    }

    /// Whether it may be written.
    pub fn is_writable(self) -> bool
        ensures { result ≡ self.write }
    {
        self.write
    }

    /// Whether it may be executed.
    pub fn is_executable(self) -> bool
        ensures { result ≡ self.exec }
    {
        self.exec
    }

    /// The cell with another byte and the same marks.
    pub fn with_byte(self, byte: u8) -> Cell
        ensures { result ≡ record self { byte = byte } }
    {
        Cell {
            byte,
            write: self.write,
            exec: self.exec,
        }
    }
}
