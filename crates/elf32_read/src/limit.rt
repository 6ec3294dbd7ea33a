//! The limits of what is rewritten.

ghost use Rattle.std.specs.Prelude.{◌≡◌, ◌∷◌, [], None, Some, MatchResult, nat_lt};
ghost use Rattle.elf32_read.specs.Faults.{code_size};
ghost use Rattle.elf32_read.specs.Limits.{exceeded};

use crate::fault::ImageFault;
use crate::image::{Image, Segment};

/// The most executable bytes of an image that is rewritten (this project's own).
const MOST_CODE: u64 = 16_777_216;

/// The most program headers of an image that is rewritten, so that three more can be added (this project's own).
const MOST_HEADERS: usize = 61;

/// Whether an image is within the limits of what is rewritten. It takes no memory.
///
/// # Errors
///
/// `CodeTooLarge` where the executable segments have more than 16,777,216 bytes together; else `HeadersFull` where
/// there are more than 61 program headers.
pub fn admit(image: &Image) -> Result<(), ImageFault>
    ensures { MatchResult result (λ _. exceeded image.now ≡ None) (λ fault. exceeded image.now ≡
        Some fault) }
{
    if has_too_much_code(image.segments.as_slice()) {
        return Err(ImageFault::CodeTooLarge);
    }
    if image.headers.len() > MOST_HEADERS {
        return Err(ImageFault::HeadersFull);
    }
    Ok(())
}

/// Whether executable segments have too many bytes together.
fn has_too_much_code(segments: &[Segment]) -> bool
    ensures { result ≡ nat_lt 16777216 (code_size segments.now) }
{
    let mut size: u64 = 0;
    for segment in segments {
        size += u64::from(code_len(segment));
        if size > MOST_CODE {
            return true;
        }
    }
    false
}

/// How many executable bytes a segment has.
fn code_len(segment: &Segment) -> u32
    ensures { result ≡ code_size (segment.now ∷ []) }
{
    if segment.exec { segment.range.len() } else { 0 }
}
