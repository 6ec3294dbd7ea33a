//! The sample of a number: an image whose code a generator makes.

ghost use Rattle.std.specs.Prelude.{◌≡◌, ◌≤◌, ◌++◌, IfOk, OnOk};
ghost use Rattle.multiverse_cli.specs.Sample.{code_after, next_number as next_number_of, sample as sample_of};
ghost use Rattle.multiverse_cli.specs.Words.{largest_sample};

use mv_base::NoMemory;
use std::alloc::Global;

/// How many bytes of code a sample has at most: 1 MiB.
pub const LARGEST: u32 = 1_048_576;

/// What stands before the two sizes of the code: the ELF header, and the program header's type, offset and addresses.
const BEFORE_SIZES: [u8; 68] = [
    0x7f, 0x45, 0x4c, 0x46, 1, 1, 1, 0, 0, 0, 0, 0, 0, 0, 0, 0, 2, 0, 3, 0, 1, 0, 0, 0, 0x54, 0x80,
    4, 8, 52, 0, 0, 0, 0, 0, 0, 0, 0, 0, 0, 0, 52, 0, 32, 0, 1, 0, 0, 0, 0, 0, 0, 0, 1, 0, 0, 0,
    0x54, 0, 0, 0, 0x54, 0x80, 4, 8, 0x54, 0x80, 4, 8,
];

/// What stands behind them: the program header's flags, which allow to read and to run, and its alignment of 4,096.
const AFTER_SIZES: [u8; 8] = [5, 0, 0, 0, 0, 0x10, 0, 0];

/// The sample of a number, with so many bytes of code: an ELF32 file for i386 with one program header, whose code alone is
/// mapped, at 0x08048054, which is its entry. The code is made by a generator modulo 2^32 that begins with the number.
///
/// # Errors
///
/// `NoMemory`.
pub fn sample(alloc: Global, number: u32, size: u32) -> Result<Vec<u8>, NoMemory>
    requires { size ≤ LARGEST }
    ensures { IfOk result (λ image. image.items ≡ sample_of number size) }
{
    let mut image = Vec::with_capacity(alloc, 84 + size as usize)?;
    image.extend_from_slice(&BEFORE_SIZES)?;
    image.extend_from_slice(&size.to_le_bytes())?;
    image.extend_from_slice(&size.to_le_bytes())?;
    image.extend_from_slice(&AFTER_SIZES)?;
    put_code(number, size, &mut image)?;
    Ok(image)
}

/// Appends so many bytes of code: the highest byte of each of the numbers after `number`.
fn put_code(number: u32, size: u32, to: &mut Vec<u8>) -> Result<(), NoMemory>
    ensures { OnOk result (to.new.items ≡ to.old.items ++ code_after number size) }
{
    let mut x = number;
    for _made in 0..size {
        x = next_number(x);
        to.push((x >> 24) as u8)?;
    }
    Ok(())
}

/// The number after `x`.
fn next_number(x: u32) -> u32
    ensures { result ≡ next_number_of x }
{
    x.wrapping_mul(1_664_525).wrapping_add(1_013_904_223)
}
