//! Parts of a file, which are appended to what stands there already.

ghost use Rattle.std.specs.Prelude.{◌≡◌, ◌+◌, ◌^◌, ◌≤◌, ◌++◌, length, replicate, OnOk};
ghost use Rattle.std.specs.List.{flat_map};
ghost use Rattle.byteorder.specs.Endian.{little_bytes};
ghost use Rattle.mv_base.specs.Bytes.{words};
ghost use Rattle.elf32_write.specs.Format.{up as up_of};
ghost use Rattle.elf32_write.specs.File.{padded};

use byteorder::{ByteOrder, LittleEndian};
use mv_base::NoMemory;

/// How many bytes a page has.
pub const PAGE: usize = 4096;

/// A number of bytes, raised to a multiple of 4,096.
pub fn up(len: usize) -> usize
    requires { len ≤ 2 ^ 40 }
    ensures { result ≡ up_of len }
{
    (len + (PAGE - 1)) / PAGE * PAGE
}

/// Appends a number of zeros.
pub fn put_zeros(count: usize, to: &mut Vec<u8>) -> Result<(), NoMemory>
    requires { count ≤ 2 ^ 40 }
    ensures { OnOk result (to.new.items ≡ to.old.items ++ replicate count 0) }
{
    to.resize(to.len() + count, 0)?;
    Ok(())
}

/// Appends bytes, and zeros behind them up to a multiple of 4,096.
pub fn put_padded(bytes: &[u8], to: &mut Vec<u8>) -> Result<(), NoMemory>
    requires { length bytes.now ≤ 2 ^ 32 }
    ensures { OnOk result (to.new.items ≡ to.old.items ++ padded bytes.now) }
{
    to.extend_from_slice(bytes)?;
    put_zeros(up(bytes.len()) - bytes.len(), to)
}

#[tactic(auto, unfolding(mv_base::specs::Bytes::words))]
/// Appends numbers as four bytes each, the lowest first.
pub fn put_words(numbers: &[u32], to: &mut Vec<u8>) -> Result<(), NoMemory>
    ensures { OnOk result (to.new.items ≡ to.old.items ++ words numbers.now) }
{
    for number in numbers {
        let mut word = [0; 4];
        LittleEndian::write_u32(&mut word, *number);
        to.extend_from_slice(&word)?;
    }
    Ok(())
}

/// Appends numbers as two bytes each, the lowest first.
pub fn put_halves(numbers: &[u16], to: &mut Vec<u8>) -> Result<(), NoMemory>
    ensures { OnOk result (to.new.items ≡ to.old.items ++ flat_map (little_bytes 2) numbers.now) }
{
    for number in numbers {
        let mut half = [0; 2];
        LittleEndian::write_u16(&mut half, *number);
        to.extend_from_slice(&half)?;
    }
    Ok(())
}
