//! Hexadecimal digits and words, as they are read.

ghost use Rattle.std.specs.Prelude.{◌≡◌, ◌^◌, ◌<◌, ◌≤◌, length, IfOk, IfSome};
ghost use Rattle.std.specs.Option.{option_copied};
ghost use Rattle.mv_base.specs.Reading.{behind as behind_of, digit_value as digit_value_of, hex_value as hex_value_of, number_in, pairs_in};

use crate::lists::Bytes;
use crate::numbers::NoMemory;
use std::alloc::Global;

/// The value of a lower-case hexadecimal digit.
pub fn digit_value(digit: u8) -> Option<u32>
    ensures value { result ≡ digit_value_of digit }
    ensures small { IfSome result (λ d. d < 16) }
{
    match digit {
        b'0'..=b'9' => Some(u32::from(digit - b'0')),
        b'a'..=b'f' => Some(u32::from(digit - b'a') + 10),
        _ => None,
    }
}

/// The number of at most eight digits.
pub fn hex_value(text: &[u8]) -> Option<u32>
    requires { length text.now ≤ 8 }
    ensures value { result ≡ hex_value_of 0 text.now }
    ensures small { IfSome result (λ n. n < 16 ^ length text.now) }
{
    let mut value = 0;
    for digit in text {
        value = 16 * value + digit_value(*digit)?;
    }
    Some(value)
}

/// The number of eight digits.
#[tactic(auto, unfolding(crate::specs::Reading::number_in))]
pub fn hex8_value(text: &[u8]) -> Option<u32>
    ensures { result ≡ number_in text.now }
{
    if text.len() == 8 {
        hex_value(text)
    } else {
        None
    }
}

/// The bytes of pairs of digits; `None` where the text is none.
pub fn hex_pairs(alloc: Global, text: &[u8]) -> Result<Option<Bytes>, NoMemory>
    ensures { IfOk result (λ bytes. bytes ≡ pairs_in text.now) }
{
    let mut bytes = Vec::new(alloc);
    let mut rest = text;
    while rest.len() > 1 {
        let (pair, more) = rest.split_at(2);
        let Some(byte) = hex_value(pair) else {
            return Ok(None);
        };
        bytes.push(byte as u8)?;
        rest = more;
    }
    if rest.is_empty() {
        Ok(Some(Bytes::new(bytes)))
    } else {
        Ok(None)
    }
}

/// What stands behind a prefix.
pub fn behind<'a>(prefix: &[u8], text: &'a [u8]) -> Option<&'a [u8]>
    ensures { option_copied result ≡ behind_of prefix.now text.now }
{
    text.strip_prefix(prefix)
}
