//! Tests of the libraries below the program, over their public functions: what no clause says, that calls succeed where there is
//! memory, and rows from outside that show that the clauses say what is meant. They stand in a crate of their own since one
//! with tests is proved twice.
//!
//! A row is plain values: bytes, texts and numbers. One function a family takes them, makes what a library wants of them, and
//! gives plain values back; one test goes over the table.
#![tactic(auto)]

#[cfg(test)]
mod arithmetic;
#[cfg(test)]
mod decoding;
#[cfg(test)]
mod encoding;
#[cfg(test)]
mod files;
#[cfg(test)]
mod frames;
#[cfg(test)]
mod images;
#[cfg(test)]
mod joins;
#[cfg(test)]
mod logs;
#[cfg(test)]
mod machine;
#[cfg(test)]
mod memory;
#[cfg(test)]
mod pieces;
#[cfg(test)]
mod stubs;
#[cfg(test)]
mod texts;
