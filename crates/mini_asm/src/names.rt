//! The names of labels.

ghost use Rattle.std.specs.Prelude.{◌≡◌, ◌&&◌, length, nat_le, slice_index};
ghost use Rattle.std.specs.List.{list_all};
ghost use Rattle.mini_asm.specs.Names.{is_letter as is_letter_of, is_name as is_name_of, is_name_character as is_name_character_of, is_register as is_register_of, is_word as is_word_of};

/// How many bytes a name has at most.
const LONGEST: usize = 32;

/// Whether a byte is a lower-case letter.
fn is_letter(byte: u8) -> bool
    ensures { result ≡ is_letter_of byte }
{
    b'a' <= byte && byte < b'{'
}

/// Whether a byte is a lower-case letter, a digit or `_`.
fn is_name_character(byte: u8) -> bool
    ensures { result ≡ is_name_character_of byte }
{
    is_letter(byte) || b'0' <= byte && byte < b':' || byte == b'_'
}

/// Whether a text is the name of one of the eight registers of 32 bits.
#[tactic(auto, unfolding(crate::specs::Names::is_register))]
fn is_register(text: &[u8]) -> bool
    ensures { result ≡ is_register_of text.now }
{
    text == b"eax".as_slice()
        || text == b"ecx".as_slice()
        || text == b"edx".as_slice()
        || text == b"ebx".as_slice()
        || text == b"esp".as_slice()
        || text == b"ebp".as_slice()
        || text == b"esi".as_slice()
        || text == b"edi".as_slice()
}

/// Whether a text begins with a lower-case letter.
fn begins_with_letter(text: &[u8]) -> bool
    ensures { result ≡ is_letter_of (slice_index text.now 0) }
{
    !text.is_empty() && is_letter(text[0])
}

/// Whether a text has only bytes that a name may have.
fn all_name_characters(text: &[u8]) -> bool
    ensures { result ≡ list_all is_name_character_of text.now }
{
    text.iter().all(|byte| is_name_character(*byte))
}

/// Whether a text has at most so many bytes as a name may have, and only bytes that a name may have.
fn are_name_characters(text: &[u8]) -> bool
    ensures { result ≡ (nat_le (length text.now) 32 && list_all is_name_character_of text.now) }
{
    text.len() <= LONGEST && all_name_characters(text)
}

/// Whether a text is a word that begins with a letter.
#[tactic(auto, unfolding(crate::specs::Names::is_word))]
fn is_word(text: &[u8]) -> bool
    ensures { result ≡ is_word_of text.now }
{
    begins_with_letter(text) && are_name_characters(text)
}

/// Whether a text may be a label's name.
#[tactic(auto, unfolding(crate::specs::Names::is_name))]
pub(crate) fn is_name(text: &[u8]) -> bool
    ensures { result ≡ is_name_of text.now }
{
    is_word(text) && !is_register(text)
}
