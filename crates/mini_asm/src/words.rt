//! Numbers and words at the front of a text.

ghost use Rattle.std.specs.Prelude.{◌≡◌, ◌+◌, ◌^◌, ◌<◌, option_map, codes};
ghost use Rattle.mini_asm.specs.Words.{digits_at, number_at, word_at};

use mv_base::{behind, digit_value};

/// The number that the digits in front spell, of which the last eight count, and what stands behind them.
fn digits(text: &[u8]) -> (u32, &[u8])
    ensures value { result.0 ≡ (digits_at 0 text.now).0 }
    ensures rest { result.1.now ≡ (digits_at 0 text.now).1 }
{
    let mut value = 0;
    for (at, digit) in text.iter().enumerate() {
        let Some(low) = digit_value(*digit) else {
            return (value, &text[at..]);
        };
        value = 16 * (value % (1 << 28)) + low;
    }
    (value, &text[text.len()..])
}

/// The number in front, and what stands behind it.
#[tactic(auto, unfolding(crate::specs::Words::number_at))]
pub(crate) fn number(text: &[u8]) -> Option<(u32, &[u8])>
    ensures { option_map (λ p. (p.0, p.1.now)) result ≡ number_at text.now }
{
    Some(digits(behind(b"0x", text)?))
}

/// The first word, and what stands behind the space after it.
pub(crate) fn word(text: &[u8]) -> (&[u8], &[u8])
    ensures word { result.0.now ≡ (word_at text.now).0 }
    ensures rest { result.1.now ≡ (word_at text.now).1 }
{
    for (at, byte) in text.iter().enumerate() {
        if *byte == b' ' {
            return (&text[..at], &text[at + 1..]);
        }
    }
    (text, &text[text.len()..])
}
