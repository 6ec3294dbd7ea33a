//! What a command prints: a text, or the lines of sites, which are made one by one while they are printed.

ghost use Rattle.std.specs.Prelude.{◌≡◌, ◌+◌, ◌<◌, ◌%◌, ◌^◌, ◌++◌, slice_get, OnOk};
ghost use Rattle.elf32_read.specs.Runs.{code_of};
ghost use Rattle.mv_base.specs.Memory.{exec_bytes};
ghost use Rattle.mv_base.specs.Text.{hex_digit as hex_digit_of, hex_digits};
ghost use Rattle.multiverse_cli.specs.Listing.{hex_pairs, site_line};

use elf32_read::Run;
use insn_text::text;
use mv_base::{NoMemory, put_hex8};
use superset::{Site, successor};

/// What a command prints when it is done.
#[derive(Drop)]
pub enum Printout {
    /// This text.
    Text(Vec<u8>),
    /// The lines of these sites.
    Lines(Listing),
}

/// Sites, and the runs in which they were found. The lines of 16 MiB of code have more than 400 MB, so they are never
/// held together.
#[derive(Drop)]
pub struct Listing {
    pub runs: Vec<Run>,
    pub sites: Vec<Site>,
}

/// Appends the line of a site: its address in eight hexadecimal digits, its bytes in two each, and its text.
pub fn put_site(runs: &[Run], site: &Site, to: &mut Vec<u8>) -> Result<(), NoMemory>
    ensures { OnOk result (to.new.items ≡ to.old.items ++ site_line (code_of runs.now) site.now) }
{
    put_hex8(site.at, to)?;
    to.push(b' ')?;
    put_bytes(runs, site.at, site.len, to)?;
    to.push(b' ')?;
    text(&site.insn, successor(site), to)?;
    to.push(b'\n')?;
    Ok(())
}

/// Appends the bytes that the runs have from an address on, at most so many and up to a gap.
fn put_bytes(runs: &[Run], at: u32, count: u8, to: &mut Vec<u8>) -> Result<(), NoMemory>
    ensures { OnOk result
        (to.new.items ≡ to.old.items ++ hex_pairs (exec_bytes (code_of runs.now) at count)) }
{
    for offset in 0..count {
        match byte_at(runs, u64::from(at) + u64::from(offset)) {
            Some(byte) => put_pair(byte, to)?,
            None => return Ok(()),
        }
    }
    Ok(())
}

/// The byte that the runs have at an address.
fn byte_at(runs: &[Run], at: u64) -> Option<u8>
    ensures { result ≡ code_of runs.now at }
{
    match runs {
        [] => None,
        [run, rest @ ..] => {
            let lo = u64::from(run.lo);
            if lo <= at && at - lo < run.bytes.len() as u64 {
                byte_in(run.bytes.as_slice(), at - lo)
            } else {
                byte_at(rest, at)
            }
        }
    }
}

/// The byte at an offset.
fn byte_in(bytes: &[u8], offset: u64) -> Option<u8>
    ensures { result ≡ slice_get bytes.now offset }
{
    bytes.get(offset as usize).copied()
}

/// Appends the two hexadecimal digits of a byte.
fn put_pair(byte: u8, to: &mut Vec<u8>) -> Result<(), NoMemory>
    ensures { OnOk result (to.new.items ≡ to.old.items ++ hex_digits 2 byte) }
{
    to.extend_from_slice(&[hex_digit(byte >> 4), hex_digit(byte)])?;
    Ok(())
}

/// The lowest hexadecimal digit of `n`.
fn hex_digit(n: u8) -> u8
    ensures { result ≡ hex_digit_of (n % 16) }
{
    let digit = n % 16;
    if digit < 10 {
        b'0' + digit
    } else {
        b'a' + (digit - 10)
    }
}
