//! Pages, and tables of them. A page or a table that isn't there is an empty one: it has no room, and nothing is mapped
//! in it.

ghost use Rattle.std.specs.Prelude.{◌≡◌, ◌+◌, ◌++◌, ◌<◌, ◌≤◌, ◌↔◌, ℕ, [], None, IsTrue, MatchOption, drop, length, slice_index_or, slice_set, OnOk};
ghost use Rattle.mv_base.specs.Memory.{exec_bytes};
ghost use Rattle.proc_image.specs.Counting.{some_below};
ghost use Rattle.proc_image.specs.Paged.{IsLonger, exec_byte_in, is_mapped_in};

use crate::cell::Cell;
use crate::limits::PAGE_SIZE;
use mv_base::NoMemory;
use std::alloc::Global;
use std::marker::Model;

/// The cells of a page in their order, or none.
#[derive(Drop)]
pub struct Page {
    cells: Vec<Option<Cell>>,
}

impl Model for Page {
    ghost use Rattle.std.specs.Prelude.{List, Option};
    ghost use Rattle.mv_base.specs.Memory.{Cell};

    ghost Value = { List (Option Cell) };

    ghost view = { λ p. p.cells.items };
}

impl Page {
    /// A page that isn't there.
    pub fn new(alloc: Global) -> Page
        ensures { result ≡ [] }
    {
        Page {
            cells: Vec::new(alloc),
        }
    }

    /// Whether the page isn't there.
    pub fn is_empty(&self) -> bool
        ensures { IsTrue result ↔ (self.now ≡ []) }
    {
        self.cells.is_empty()
    }

    /// The cell at a place; `None` where none is mapped.
    pub fn cell(&self, place: usize) -> Option<Cell>
        ensures { result ≡ slice_index_or self.now place None }
    {
        match self.cells.get(place) {
            Some(cell) => *cell,
            None => None,
        }
    }

    /// Whether a cell is mapped at one of the 4,096 places.
    pub fn has_cell(&self) -> bool
        ensures { result ≡ some_below (is_mapped_in self.now) 4096 }
    {
        if self.is_empty() {
            return false;
        }
        for place in 0..PAGE_SIZE as usize {
            if self.cell(place).is_some() {
                return true;
            }
        }
        false
    }

    /// The byte to be executed at a place; `None` where no cell there can be.
    fn exec_byte(&self, place: usize) -> Option<u8>
        ensures { result ≡ exec_byte_in self.now place }
    {
        match self.cell(place) {
            Some(cell) if cell.is_executable() => Some(cell.byte()),
            _ => None,
        }
    }

    /// Copies the executable bytes from a place on, at most 15, to the front of `to`, and gives their number.
    pub fn exec_bytes(&self, place: usize, to: &mut [u8; 15]) -> usize
        requires { place + 15 ≤ 4096 }
        ensures copied { to.new ≡ exec_bytes (exec_byte_in self.now) place 15 ++ drop
            (length (exec_bytes (exec_byte_in self.now) place 15)) to.old }
        ensures number { result ≡ length (exec_bytes (exec_byte_in self.now) place 15) }
    {
        for i in 0..15 {
            match self.exec_byte(place + i) {
                Some(byte) => to[i] = byte,
                None => return i,
            }
        }
        15
    }

    /// Whether these bytes stand to be executed from a place on.
    pub fn is_code(&self, place: usize, bytes: &[u8]) -> bool
        requires { place + length bytes.now ≤ 4096 }
        ensures { IsTrue result ↔ (exec_bytes (exec_byte_in self.now) place
            (length bytes.now) ≡ bytes.now) }
    {
        let mut next = place;
        for byte in bytes {
            match self.exec_byte(next) {
                Some(code) => {
                    if code != *byte {
                        return false;
                    }
                }
                None => return false,
            }
            next += 1;
        }
        true
    }

    /// Maps a cell at a place that the page has, or with `None` takes it away.
    pub fn set(&mut self, place: usize, cell: Option<Cell>)
        requires { place < length self.old }
        ensures { self.new ≡ slice_set self.old place cell }
    {
        self.cells[place] = cell;
    }

    /// Makes room for all cells of the page. The mapped cells stay, also where memory is wanting.
    pub fn reserve(&mut self) -> Result<(), NoMemory>
        ensures longer { IsLonger self.old self.new }
        ensures room { OnOk result (4096 ≤ length self.new) }
    {
        if self.cells.len() < PAGE_SIZE as usize {
            self.cells.resize(PAGE_SIZE as usize, None)?;
        }
        Ok(())
    }
}

/// The pages of a table in their order.
#[derive(Drop)]
pub struct PageTable {
    pages: Vec<Page>,
}

impl Model for PageTable {
    ghost use Rattle.std.specs.Prelude.{List, Option};
    ghost use Rattle.mv_base.specs.Memory.{Cell};

    ghost Value = { List (List (Option Cell)) };

    ghost view = { λ t. t.pages.items };
}

impl PageTable {
    /// A table that isn't there.
    pub fn new(alloc: Global) -> PageTable
        ensures { result ≡ [] }
    {
        PageTable {
            pages: Vec::new(alloc),
        }
    }

    /// Whether the table isn't there.
    pub fn is_empty(&self) -> bool
        ensures { IsTrue result ↔ (self.now ≡ []) }
    {
        self.pages.is_empty()
    }

    /// The page with a number; `None` where it isn't there.
    pub fn page(&self, number: usize) -> Option<&Page>
        ensures { MatchOption result (slice_index_or self.now number [] ≡ [])
            (λ p. p.now ≡ slice_index_or self.now number []) }
    {
        self.pages.get(number)
    }

    /// Maps a cell at a place of a page, or with `None` takes it away. The page has the place.
    pub fn set(&mut self, number: usize, place: usize, cell: Option<Cell>)
        requires { place < length (slice_index_or self.old number []) }
        ensures { self.new ≡ slice_set self.old number (slice_set (slice_index_or self.old number
            []) place cell) }
    {
        self.pages[number].set(place, cell);
    }

    /// Makes room for all cells of a page. The mapped cells stay, also where memory is wanting.
    pub fn reserve(&mut self, alloc: Global, number: usize) -> Result<(), NoMemory>
        ensures longer { (q : ℕ) → IsLonger (slice_index_or self.old q [])
            (slice_index_or self.new q []) }
        ensures room { OnOk result (4096 ≤ length (slice_index_or self.new number [])) }
    {
        while self.pages.len() <= number {
            self.pages.push(Page::new(alloc))?;
        }
        self.pages[number].reserve()
    }
}
