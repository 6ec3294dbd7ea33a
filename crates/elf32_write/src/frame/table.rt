//! The table of a file, as its frame finds it: which part of it a run has, and the words for an address.

ghost use Rattle.std.specs.Prelude.{◌≡◌, ◌+◌, ◌-◌, ◌*◌, ◌%◌, ◌^◌, ◌<◌, ◌≤◌, IsTrue, length};
ghost use Rattle.mv_base.specs.Bytes.{word_at};
ghost use Rattle.mv_base.specs.Table.{group_count as groups_of, page_at as page_of, page_named as page_in};
ghost use Rattle.elf32_write.specs.Frame.{is_in_table, has_pages as has_pages_of, has_part as has_part_of};

use crate::file::format::FLAT_FORM;
use crate::frame::fields::word;
use mv_base::RunPlace;
use std::marker::Model;

/// How many addresses have their words in one page of a table of form 2.
const GROUP: u32 = 1024;

/// How many bytes a page of a table has.
const PAGE_LEN: u64 = 4096;

/// A table: its form, its bytes with the list behind them, their address and the list's.
#[derive(Drop)]
pub struct Table<'a> {
    pub form: u32,
    pub bytes: &'a [u8],
    pub lo: u32,
    pub list: u32,
}

impl<'a> Model for Table<'a> {
    ghost use Rattle.std.specs.Prelude.{◌+◌, ◌≤◌, length};
    ghost use Rattle.elf32_write.specs.Frame.{TableAt};

    ghost Value = { TableAt };

    ghost view = { λ t. record { form = t.form; bytes = t.bytes.now; lo = t.lo; list = t.list } };

    ghost invariant = { λ t. t.list ≤ t.lo + length t.bytes.now };
}

/// How many groups of 1,024 addresses a run of this length has, the last of them shorter where needed.
fn group_count(len: u32) -> u32
    ensures { result ≡ groups_of len }
{
    len.div_ceil(GROUP)
}

impl Table<'_> {
    /// Whether this many addresses from one on lie in the table before the list.
    fn holds(&self, at: u32, len: u64) -> bool
        requires { len ≤ 2 ^ 40 }
        ensures value { result ≡ is_in_table self.now at len }
        ensures low { IsTrue result → self.now.lo ≤ at }
        ensures high { IsTrue result → at + len ≤ self.now.list }
    {
        self.lo <= at && u64::from(at) + len <= u64::from(self.list)
    }

    /// The page that a word of a directory names.
    fn page_named(&self, dir: u32, group: u32) -> u32
        requires low { self.now.lo ≤ dir }
        requires high { dir + 4 * group + 4 ≤ self.now.list }
        ensures { result ≡ page_in self.now.bytes self.now.lo dir group }
    {
        word(self.bytes, (dir - self.lo) as usize + 4 * group as usize)
    }

    /// Whether each page that a run's directory names lies in the table before the list.
    fn has_pages(&self, run: &RunPlace) -> bool
        requires low { self.now.lo ≤ run.now.dir }
        requires high { run.now.dir + 4 * groups_of run.now.len ≤ self.now.list }
        ensures { result ≡ has_pages_of self.now run.now }
    {
        for group in 0..group_count(run.len) {
            if !self.holds(self.page_named(run.dir, group), PAGE_LEN) {
                return false;
            }
        }
        true
    }

    /// Whether a run's part of the table lies in it before the list.
    #[tactic(auto, unfolding(crate::specs::Frame::has_part))]
    pub fn has_part(&self, run: &RunPlace) -> bool
        ensures { result ≡ has_part_of self.now run.now }
    {
        if self.form == FLAT_FORM {
            return self.holds(run.dir, 4 * u64::from(run.len));
        }
        if !self.holds(run.dir, 4 * u64::from(group_count(run.len))) {
            return false;
        }
        self.has_pages(run)
    }

    /// The word for an address of a run in a table of form 1.
    pub fn flat_word(&self, run: &RunPlace, address: u32) -> u32
        requires from { run.now.lo ≤ address }
        requires low { self.now.lo ≤ run.now.dir }
        requires high { run.now.dir + 4 * (address - run.now.lo) + 4 ≤ self.now.list }
        ensures { result
            ≡ word_at self.now.bytes (run.now.dir - self.now.lo + 4 * (address - run.now.lo)) }
    {
        let place = (run.dir - self.lo) as usize + 4 * (address - run.lo) as usize;
        word(self.bytes, place)
    }

    /// The page of an address of a run in a table of form 2.
    pub fn page_of(&self, run: &RunPlace, address: u32) -> u32
        requires from { run.now.lo ≤ address }
        requires below { address < run.now.lo + run.now.len }
        requires low { self.now.lo ≤ run.now.dir }
        requires high { run.now.dir + 4 * groups_of run.now.len ≤ self.now.list }
        ensures { result ≡ page_of self.now.bytes self.now.lo run.now.dir (address - run.now.lo) }
    {
        self.page_named(run.dir, (address - run.lo) / GROUP)
    }

    /// The word in a page for an address of a run in a table of form 2.
    pub fn word_in_page(&self, page: u32, run: &RunPlace, address: u32) -> u32
        requires from { run.now.lo ≤ address }
        requires low { self.now.lo ≤ page }
        requires high { page + 4096 ≤ self.now.list }
        ensures { result
            ≡ word_at self.now.bytes (page - self.now.lo + 4 * ((address - run.now.lo) % 1024)) }
    {
        let place = (page - self.lo) as usize + 4 * ((address - run.lo) % GROUP) as usize;
        word(self.bytes, place)
    }
}
