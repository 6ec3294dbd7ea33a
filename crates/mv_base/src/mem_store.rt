//! A store in memory, which fails at the calls that it is told to.

ghost use Rattle.std.specs.Prelude.{◌≡◌, ◌≢◌, ◌≤◌, ◌⊎◌, ℕ, Contains, IfOk, IsNone, IsTrue, MatchOption, OnOk, OnErr, None, Some, List, [], true};
ghost use Rattle.mv_base.specs.Faults.{StoreCounts, StoreFailsWhere, last_count, next_call};
ghost use Rattle.mv_base.specs.Holding.{Gets, KeepsLimit, Puts};
ghost use Rattle.mv_base.specs.MemStoreState.{SameCalls, failed_name, failing_gets, failing_puts, get_count, held_bytes, put_count, read_fault_count, write_fault_count};

use crate::faults::count_fault;
use crate::numbers::NoMemory;
use crate::store::{Got, Store, StoreFault};
use std::alloc::Global;
use std::collections::BTreeMap;

/// A store that keeps its names and their bytes, and tells them. It numbers the calls of `get` and those of `put` each
/// from 1, and fails at those whose number it was given. A number stands still at 2^64 - 1.
#[derive(Drop)]
pub struct MemStore {
    alloc: Global,
    files: BTreeMap<String, Vec<u8>>,
    fail_gets: Vec<u64>,
    fail_puts: Vec<u64>,
    gets: u64,
    puts: u64,
    read_faults: u64,
    write_faults: u64,
    failed: String,
}

impl MemStore {
    /// A store that holds no name, whose calls of `get` and of `put` with the given numbers are to fail.
    pub fn new(
        alloc: Global,
        fail_gets: Vec<u64>,
        fail_puts: Vec<u64>,
    ) -> Result<MemStore, NoMemory>
        ensures holds { IfOk result (λ s. (name : List ℕ) → held_bytes s name ≡ None) }
        ensures failing { IfOk result (λ s. (failing_gets s ≡ fail_gets.items) ×
            (failing_puts s ≡ fail_puts.items)) }
        ensures numbered { IfOk result (λ s. (get_count s ≡ 0) × (put_count s ≡ 0)) }
        ensures counts { IfOk result (λ s. (read_fault_count s ≡ 0) × (write_fault_count s ≡ 0)) }
        ensures failed { IfOk result (λ s. failed_name s ≡ []) }
    {
        Ok(MemStore {
            alloc,
            files: BTreeMap::new(alloc),
            fail_gets,
            fail_puts,
            gets: 0,
            puts: 0,
            read_faults: 0,
            write_faults: 0,
            failed: String::new(alloc),
        })
    }

    /// What `name` holds; `None` exactly where it isn't held.
    pub fn file(&self, name: &str) -> Option<&[u8]>
        ensures { MatchOption result (held_bytes self.now name.now ≡ None)
            (λ b. held_bytes self.now name.now ≡ Some b.now) }
    {
        match self.files.get(name) {
            Some(bytes) => Some(bytes.as_slice()),
            None => None,
        }
    }

    /// Makes `name` hold `bytes`. It is no `put`, and has no number. After an error nothing has changed.
    pub fn add(&mut self, name: &str, bytes: &[u8]) -> Result<(), NoMemory>
        ensures ok { OnOk result (held_bytes self.new name.now ≡ Some bytes.now) }
        ensures others_same { (other : List ℕ) → other ≢ name.now → held_bytes self.new other ≡
            held_bytes self.old other }
        ensures err { OnErr result (held_bytes self.new ≡ held_bytes self.old) }
        ensures calls_same { SameCalls self.old self.new }
    {
        let key = String::from_str(self.alloc, name)?;
        let value = Vec::from_slice(self.alloc, bytes)?;
        self.files.insert(key, value)?;
        Ok(())
    }
}

impl Store for MemStore {
    ghost tells = { λ _. true };

    ghost holds = { held_bytes };

    ghost read_faults = { read_fault_count };

    ghost write_faults = { write_fault_count };

    ghost failed = { failed_name };

    fn get(&mut self, name: &str, limit: usize, to: &mut Vec<u8>) -> Result<Got, StoreFault>
        requires { to.old.items ≡ [] }
        ensures gets { Gets result (held_bytes self.old name.now) limit to.new.items }
        ensures at_most_limit { KeepsLimit result limit to.new.items }
        ensures holds_same { held_bytes self.new ≡ held_bytes self.old }

        ensures counts { StoreCounts result (read_fault_count self.old)
            (read_fault_count self.new) name.now (failed_name self.old) (failed_name self.new) }
        ensures never_falls { read_fault_count self.old ≤ read_fault_count self.new }
        ensures to_last { read_fault_count self.old ≤ last_count → read_fault_count self.new ≤
            last_count }
        ensures write_faults_same { write_fault_count self.new ≡ write_fault_count self.old }

        // Failed comes exactly at the calls with the numbers that were given and at names that aren't held, want of
        // memory aside.
        ensures fails { StoreFailsWhere result (Contains (failing_gets self.old)
            (next_call (get_count self.old)) ⊎ IsNone (held_bytes self.old name.now)) }
        ensures numbered { get_count self.new ≡ next_call (get_count self.old) }
        ensures puts_same { put_count self.new ≡ put_count self.old }
        ensures failing_same { (failing_gets self.new ≡ failing_gets self.old) ×
            (failing_puts self.new ≡ failing_puts self.old) }
    {
        self.gets = self.gets.saturating_add(1);
        if self.fail_gets.contains(&self.gets) {
            return Err(count_fault(self.alloc, name, &mut self.read_faults, &mut self.failed));
        }
        match self.files.get(name) {
            None => Err(count_fault(self.alloc, name, &mut self.read_faults, &mut self.failed)),
            Some(bytes) if limit < bytes.len() => Ok(Got::TooLong),
            Some(bytes) => {
                to.extend_from_slice(bytes)?;
                Ok(Got::Whole)
            }
        }
    }

    fn put(&mut self, name: &str, bytes: &[u8]) -> Result<(), StoreFault>
        ensures puts { Puts result (held_bytes self.old name.now) (held_bytes self.new name.now)
            bytes.now }
        ensures others_same { (other : List ℕ) → other ≢ name.now → held_bytes self.new other ≡
            held_bytes self.old other }

        ensures counts { StoreCounts result (write_fault_count self.old)
            (write_fault_count self.new) name.now (failed_name self.old) (failed_name self.new) }
        ensures never_falls { write_fault_count self.old ≤ write_fault_count self.new }
        ensures to_last { write_fault_count self.old ≤ last_count → write_fault_count self.new ≤
            last_count }
        ensures read_faults_same { read_fault_count self.new ≡ read_fault_count self.old }

        // Failed comes exactly at the calls with the numbers that were given, want of memory aside.
        ensures fails { StoreFailsWhere result (Contains (failing_puts self.old)
            (next_call (put_count self.old))) }
        ensures numbered { put_count self.new ≡ next_call (put_count self.old) }
        ensures gets_same { get_count self.new ≡ get_count self.old }
        ensures failing_same { (failing_gets self.new ≡ failing_gets self.old) ×
            (failing_puts self.new ≡ failing_puts self.old) }
    {
        self.puts = self.puts.saturating_add(1);
        if self.fail_puts.contains(&self.puts) {
            return Err(count_fault(self.alloc, name, &mut self.write_faults, &mut self.failed));
        }
        self.add(name, bytes)?;
        Ok(())
    }
}
