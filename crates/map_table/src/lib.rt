//! The table from old to new addresses, of form 2: for each run a directory, and a page for each group of 1,024
//! addresses in which there is a site.
//!
//! `group` cuts runs into groups, `pairs` finds sites and pairs, `page` writes pages and directories, `reading` reads their
//! words, and `table` puts the table together. The definitions in specs/ say the same of the whole table.
#![tactic(auto)]

pub mod group;
mod page;
mod pairs;
mod reading;
pub mod table;
#[cfg(test)]
mod tests;

pub use group::Group;
pub use table::{Table, table_len};
