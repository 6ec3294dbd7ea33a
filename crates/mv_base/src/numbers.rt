//! Little-endian numbers in bytes, and numbers as text.

ghost use Rattle.std.specs.Prelude.{◌≡◌, ◌+◌, ◌/◌, ◌%◌, ◌^◌, ◌<◌, ◌≤◌, ◌++◌, length, decimal, OnOk, OnErr, IfSome, IfNone};
ghost use Rattle.mv_base.specs.Appended.{AppendsPrefix};
ghost use Rattle.mv_base.specs.Bytes.{word_at};
ghost use Rattle.mv_base.specs.Text.{byte_text, hex8, hex_digit as hex_digit_of, hex_text};

use byteorder::{ByteOrder, LittleEndian};
use itoa::Buffer;
use std::alloc::{AllocError, AllocFailed};
use thiserror::Error;

/// Memory ran out.
#[derive(Clone, Copy, Debug, PartialEq, Eq, Error)]
#[error("no memory")]
pub struct NoMemory;

impl From<AllocError> for NoMemory {
    fn from(_error: AllocError) -> NoMemory {
        NoMemory
    }
}

impl<T: Drop> From<AllocFailed<T>> for NoMemory {
    fn from(_error: AllocFailed<T>) -> NoMemory {
        NoMemory
    }
}

/// The little-endian number in the four bytes from `place` on; `None` where four bytes aren't there.
#[tactic(auto, unfolding(crate::specs::Bytes::word_at))]
pub fn u32_at(bytes: &[u8], place: usize) -> Option<u32>
    ensures missing { IfNone result (length bytes.now < place + 4) }
    ensures number { IfSome result (λ n. (place + 4 ≤ length bytes.now) × (n ≡ word_at bytes.now
        place)) }
{
    let tail = bytes.get(place..)?;
    if tail.len() < 4 {
        return None;
    }
    Some(LittleEndian::read_u32(tail))
}

/// Appends `n` as eight lower-case hexadecimal digits.
#[tactic(auto, using(crate::specs::Appended::unchanged))]
pub fn put_hex8(n: u32, to: &mut Vec<u8>) -> Result<(), NoMemory>
    ensures ok { OnOk result (to.new.items ≡ to.old.items ++ hex8 n) }
    ensures no_memory { OnErr result (AppendsPrefix to.old.items to.new.items (hex8 n)) }
{
    to.extend_from_slice(&[
        hex_digit(n >> 28),
        hex_digit(n >> 24),
        hex_digit(n >> 20),
        hex_digit(n >> 16),
        hex_digit(n >> 12),
        hex_digit(n >> 8),
        hex_digit(n >> 4),
        hex_digit(n),
    ])?;
    Ok(())
}

/// Appends a byte as two lower-case hexadecimal digits.
#[tactic(auto, using(crate::specs::Appended::unchanged), unfolding(crate::specs::Text::byte_text))]
pub fn put_hex2(byte: u8, to: &mut Vec<u8>) -> Result<(), NoMemory>
    ensures ok { OnOk result (to.new.items ≡ to.old.items ++ byte_text byte) }
    ensures no_memory { OnErr result (AppendsPrefix to.old.items to.new.items (byte_text byte)) }
{
    to.extend_from_slice(&[hex_digit(u32::from(byte >> 4)), hex_digit(u32::from(byte))])?;
    Ok(())
}

/// Appends bytes as two lower-case hexadecimal digits each.
pub fn put_hex_pairs(bytes: &[u8], to: &mut Vec<u8>) -> Result<(), NoMemory>
    ensures { OnOk result (to.new.items ≡ to.old.items ++ hex_text bytes.now) }
{
    for byte in bytes {
        put_hex2(*byte, to)?;
    }
    Ok(())
}

/// The lowest hexadecimal digit of `n`.
fn hex_digit(n: u32) -> u8
    ensures { result ≡ hex_digit_of (n % 16) }
{
    let digit = (n % 16) as u8;
    if digit < 10 {
        b'0' + digit
    } else {
        b'a' + (digit - 10)
    }
}

/// Appends `n` in decimal, with no leading zero.
#[tactic(auto, using(crate::specs::Appended::unchanged))]
pub fn put_decimal(n: u64, to: &mut Vec<u8>) -> Result<(), NoMemory>
    ensures ok { OnOk result (to.new.items ≡ to.old.items ++ decimal n) }
    ensures no_memory { OnErr result (AppendsPrefix to.old.items to.new.items (decimal n)) }
{
    let mut buffer = Buffer::new();
    to.extend_from_slice(buffer.format(n).as_bytes())?;
    Ok(())
}
