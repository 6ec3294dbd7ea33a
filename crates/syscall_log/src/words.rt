//! The words of a line. What they are not is answered by nothing, or by a fault that says whether memory ran out.

ghost use Rattle.std.specs.Prelude.{◌≡◌, option_map};
ghost use Rattle.syscall_log.specs.Reading.{bytes_in, hex_in, mode_and as mode_and_of, number_and as number_and_of};
ghost use Rattle.syscall_log.specs.Reads.{Reads};

use crate::effect::Mode;
use crate::fault::LineFault;
use mv_base::{Bytes, behind, hex_pairs, hex8_value};
use std::alloc::Global;

/// The number of eight digits that a space follows, and what stands behind the space.
#[tactic(auto, unfolding(crate::specs::Reading::number_and))]
pub(crate) fn number_and(text: &[u8]) -> Option<(u32, &[u8])>
    ensures { option_map (λ p. (p.0, p.1.now)) result ≡ number_and_of text.now }
{
    let (digits, rest) = text.split_at_checked(8)?;
    Some((hex8_value(digits)?, behind(b" ", rest)?))
}

/// The mode that a space follows, and what stands behind the space.
#[tactic(auto, unfolding(crate::specs::Reading::mode_and))]
pub(crate) fn mode_and(text: &[u8]) -> Option<(Mode, &[u8])>
    ensures { option_map (λ p. (p.0, p.1.now)) result ≡ mode_and_of text.now }
{
    if let Some(rest) = behind(b"r ", text) {
        Some((Mode::Read, rest))
    } else if let Some(rest) = behind(b"w ", text) {
        Some((Mode::Write, rest))
    } else {
        Some((Mode::Exec, behind(b"x ", text)?))
    }
}

/// The bytes of one pair of digits at least.
#[tactic(auto, unfolding(crate::specs::Reading::hex_in))]
pub(crate) fn hex(alloc: Global, text: &[u8]) -> Result<Bytes, LineFault>
    ensures { Reads (hex_in text.now) result }
{
    if text.is_empty() {
        return Err(LineFault::Unknown);
    }
    match hex_pairs(alloc, text)? {
        Some(bytes) => Ok(bytes),
        None => Err(LineFault::Unknown),
    }
}

/// The bytes of pairs of digits, or none for a dash.
#[tactic(auto, unfolding(crate::specs::Reading::bytes_in))]
pub(crate) fn bytes(alloc: Global, text: &[u8]) -> Result<Bytes, LineFault>
    ensures { Reads (bytes_in text.now) result }
{
    if text == b"-".as_slice() {
        Ok(Bytes::new(Vec::new(alloc)))
    } else {
        hex(alloc, text)
    }
}
