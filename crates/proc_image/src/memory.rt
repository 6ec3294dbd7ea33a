//! Memory as pages.

ghost use Rattle.std.specs.Prelude.{◌≡◌, ◌/◌, ◌%◌, ◌<◌, ◌≤◌, ℕ, [], None, IsTrue, MatchOption, length, OnOk};
ghost use Rattle.proc_image.specs.Paged.{cells, page_of, table_of, with_cell};

use crate::cell::Cell;
use crate::limits::{LIMIT, PAGE_SIZE, TABLE_SIZE};
use crate::page::{Page, PageTable};
use mv_base::NoMemory;
use std::alloc::Global;

/// Memory: a cell at each mapped address below 0xFFFFF000. As on i386 a directory has 1,024 tables of 1,024 pages of
/// 4,096 cells; a table or a page that isn't there is empty.
#[derive(Drop)]
pub struct Memory {
    alloc: Global,
    directory: Vec<PageTable>,
}

impl Memory {
    /// Memory with no address mapped.
    pub(crate) fn new(alloc: Global) -> Memory
        ensures { (a : ℕ) → cells result a ≡ None }
    {
        Memory {
            alloc,
            directory: Vec::new(alloc),
        }
    }

    /// The table with a number; `None` where it isn't there.
    #[tactic(auto, unfolding(crate::specs::Paged::table_of))]
    fn table(&self, number: usize) -> Option<&PageTable>
        ensures { MatchOption result (table_of self.now number ≡ []) (λ t. t.now ≡ table_of
            self.now number) }
    {
        self.directory.get(number)
    }

    /// Whether the table with a number isn't there.
    pub(crate) fn is_table_absent(&self, number: u32) -> bool
        ensures { IsTrue result → table_of self.now number ≡ [] }
    {
        match self.table(number as usize) {
            Some(table) => table.is_empty(),
            None => true,
        }
    }

    /// The page with a number; `None` where it isn't there.
    pub(crate) fn page(&self, number: u32) -> Option<&Page>
        ensures { MatchOption result (page_of self.now number ≡ []) (λ p. p.now ≡ page_of
            self.now number) }
    {
        match self.table((number / TABLE_SIZE) as usize) {
            Some(table) => table.page((number % TABLE_SIZE) as usize),
            None => None,
        }
    }

    /// Whether the page with a number isn't there.
    pub(crate) fn is_page_absent(&self, number: u32) -> bool
        ensures { IsTrue result → page_of self.now number ≡ [] }
    {
        match self.page(number) {
            Some(page) => page.is_empty(),
            None => true,
        }
    }

    /// The cell at an address; `None` where none is mapped.
    pub(crate) fn cell(&self, at: u32) -> Option<Cell>
        ensures { result ≡ cells self.now at }
    {
        if at >= LIMIT {
            return None;
        }
        match self.page(at / PAGE_SIZE) {
            Some(page) => page.cell((at % PAGE_SIZE) as usize),
            None => None,
        }
    }

    /// Maps a cell at an address below 0xFFFFF000 whose page has room, or with `None` takes it away.
    pub(crate) fn set(&mut self, at: u32, cell: Option<Cell>)
        requires low { at < 0xFFFFF000 }
        requires room { at % 4096 < length (page_of self.old (at / 4096)) }
        ensures here { cells self.new ≡ with_cell (cells self.old) at cell }
        ensures room { (q : ℕ) → length (page_of self.new q) ≡ length (page_of self.old q) }
    {
        let number = at / PAGE_SIZE;
        self.directory[(number / TABLE_SIZE) as usize].set(
            (number % TABLE_SIZE) as usize,
            (at % PAGE_SIZE) as usize,
            cell,
        );
    }

    /// Makes room for all cells of a page. The mapped cells stay, also where memory is wanting.
    pub(crate) fn reserve(&mut self, number: u32) -> Result<(), NoMemory>
        ensures same { cells self.new ≡ cells self.old }
        ensures longer { (q : ℕ) → length (page_of self.old q) ≤ length (page_of self.new q) }
        ensures room { OnOk result (4096 ≤ length (page_of self.new number)) }
    {
        let table = (number / TABLE_SIZE) as usize;
        while self.directory.len() <= table {
            self.directory.push(PageTable::new(self.alloc))?;
        }
        self.directory[table].reserve(self.alloc, (number % TABLE_SIZE) as usize)
    }
}
