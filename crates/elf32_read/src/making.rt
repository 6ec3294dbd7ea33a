//! The image of some code and nothing else.

ghost use Rattle.std.specs.Prelude.{◌≡◌, ◌^◌, ◌<◌, ◌≤◌, length, IfOk, None};
ghost use Rattle.elf32_read.specs.CodeImage.{image_of};
ghost use Rattle.elf32_read.specs.Faults.{refusal};

use mv_base::NoMemory;
use std::alloc::Global;

/// What stands before the two sizes of the code: the ELF header, and the program header's type, offset and addresses.
const BEFORE_SIZES: [u8; 68] = [
    0x7f, 0x45, 0x4c, 0x46, 1, 1, 1, 0, 0, 0, 0, 0, 0, 0, 0, 0, 2, 0, 3, 0, 1, 0, 0, 0, 0x54, 0x80,
    4, 8, 52, 0, 0, 0, 0, 0, 0, 0, 0, 0, 0, 0, 52, 0, 32, 0, 1, 0, 0, 0, 0, 0, 0, 0, 1, 0, 0, 0,
    0x54, 0, 0, 0, 0x54, 0x80, 4, 8, 0x54, 0x80, 4, 8,
];

/// What stands behind them: the program header's flags, which allow to read and to run, and its alignment of 4,096.
const AFTER_SIZES: [u8; 8] = [5, 0, 0, 0, 0, 0x10, 0, 0];

/// The image of this code: an ELF32 file for i386 with one program header, whose code alone is mapped, at 0x08048054,
/// which is its entry.
///
/// # Errors
///
/// `NoMemory`.
pub fn code_image(alloc: Global, code: &[u8]) -> Result<Vec<u8>, NoMemory>
    requires { length code.now < 2 ^ 32 }
    ensures is { IfOk result (λ image. image.items ≡ image_of code.now) }
    ensures faultless { 0 < length code.now → length code.now ≤ 16777216 →
        IfOk result (λ image. refusal image.items ≡ None) }
{
    let size = code.len() as u32;
    let mut image = Vec::with_capacity(alloc, 84 + code.len())?;
    image.extend_from_slice(&BEFORE_SIZES)?;
    image.extend_from_slice(&size.to_le_bytes())?;
    image.extend_from_slice(&size.to_le_bytes())?;
    image.extend_from_slice(&AFTER_SIZES)?;
    image.extend_from_slice(code)?;
    Ok(image)
}
