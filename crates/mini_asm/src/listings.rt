//! What a source assembles to, and its listing.

ghost use Rattle.std.specs.Prelude.{◌≡◌, ◌++◌, OnOk, OnErr};
ghost use Rattle.mini_asm.specs.Listings.{entry_text, listing_of};

use mv_base::{Bytes, NoMemory, put_hex_pairs, put_hex8};

/// A line that has bytes: its address, its bytes, and its text with numbers in place of labels.
#[derive(Drop)]
pub struct Listed {
    pub at: u32,
    pub bytes: Bytes,
    pub text: Bytes,
}

/// The image that a source assembles to, and its lines that have bytes.
#[derive(Drop)]
pub struct Assembled {
    pub bytes: Vec<u8>,
    pub lines: Vec<Listed>,
}

/// Appends a line of a listing.
fn put_entry(line: &Listed, to: &mut Vec<u8>) -> Result<(), NoMemory>
    ensures { OnOk result (to.new.items ≡ to.old.items ++ entry_text line.now) }
{
    put_hex8(line.at, to)?;
    to.push(b' ')?;
    put_hex_pairs(line.bytes.as_slice(), to)?;
    to.push(b' ')?;
    to.extend_from_slice(line.text.as_slice())?;
    to.push(b'\n')?;
    Ok(())
}

/// Appends the lines of a listing.
fn put_entries(lines: &[Listed], to: &mut Vec<u8>) -> Result<(), NoMemory>
    ensures { OnOk result (to.new.items ≡ to.old.items ++ listing_of lines.now) }
{
    for line in lines {
        put_entry(line, to)?;
    }
    Ok(())
}

/// Appends the listing of what a source assembles to; nothing is appended where memory runs out.
///
/// # Errors
///
/// `NoMemory`.
pub fn listing(done: &Assembled, to: &mut Vec<u8>) -> Result<(), NoMemory>
    ensures ok { OnOk result (to.new.items ≡ to.old.items ++ listing_of done.now.lines.items) }
    ensures no_memory { OnErr result (to.new.items ≡ to.old.items) }
{
    let mut text = Vec::new(*to.allocator());
    put_entries(done.lines.as_slice(), &mut text)?;
    to.extend_from_slice(text.as_slice())?;
    Ok(())
}
