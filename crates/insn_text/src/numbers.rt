//! Numbers in hexadecimal without zeros in front.

ghost use Rattle.std.specs.Prelude.{◌≡◌, ◌++◌, ◌<◌, ◌%◌, length, OnErr, OnOk};
ghost use Rattle.insn_text.specs.Extends.{Extends};
ghost use Rattle.mv_base.specs.Text.{hex8, hex_digit as hex_digit_of};
ghost use Rattle.insn_text.specs.Text.{number, significant as significant_of};

use mv_base::NoMemory;

/// Appends a number: `0x` and its digits.
#[tactic(auto, using(crate::proofs::Extending::extending))]
pub fn put_number(n: u32, to: &mut Vec<u8>) -> Result<(), NoMemory>
    ensures ok { OnOk result (to.new.items ≡ to.old.items ++ number n) }
    ensures grows { Extends to.old.items to.new.items }
{
    to.extend_from_slice(b"0x")?;
    to.extend_from_slice(significant(&digits(n)))?;
    Ok(())
}

// The eight digits of a number.
fn digits(n: u32) -> [u8; 8]
    ensures { result ≡ hex8 n }
{
    [
        hex_digit(n >> 28),
        hex_digit(n >> 24),
        hex_digit(n >> 20),
        hex_digit(n >> 16),
        hex_digit(n >> 12),
        hex_digit(n >> 8),
        hex_digit(n >> 4),
        hex_digit(n),
    ]
}

// The lowest digit of a number.
fn hex_digit(n: u32) -> u8
    ensures { result ≡ hex_digit_of (n % 16) }
{
    let digit = (n % 16) as u8;
    if digit < 10 {
        b'0' + digit
    } else {
        b'a' + (digit - 10)
    }
}

// Digits without the zeros in front; the last digit stays.
#[tactic(auto, using(crate::proofs::Digits::last_stays), unfolding(crate::specs::Text::significant))]
fn significant(digits: &[u8]) -> &[u8]
    ensures { result.now ≡ significant_of digits.now }
{
    match digits {
        [] | [_] => digits,
        [first, rest @ ..] => {
            if *first == b'0' {
                significant(rest)
            } else {
                digits
            }
        }
    }
}
