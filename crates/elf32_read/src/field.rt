//! The number fields of a file, where there is room for them.

ghost use Rattle.std.specs.Prelude.{◌≡◌, ◌+◌, ◌≤◌, length};
ghost use Rattle.mv_base.specs.Bytes.{half_at, word_at};

use byteorder::{ByteOrder, LittleEndian};

/// The little-endian number in the two bytes from `place` on.
#[tactic(auto, unfolding(mv_base::specs::Bytes::half_at))]
pub fn u16_field(bytes: &[u8], place: usize) -> u16
    requires { place + 2 ≤ length bytes.now }
    ensures { result ≡ half_at bytes.now place }
{
    LittleEndian::read_u16(&bytes[place..])
}

/// The little-endian number in the four bytes from `place` on.
#[tactic(auto, unfolding(mv_base::specs::Bytes::word_at))]
pub fn u32_field(bytes: &[u8], place: usize) -> u32
    requires { place + 4 ≤ length bytes.now }
    ensures { result ≡ word_at bytes.now place }
{
    LittleEndian::read_u32(&bytes[place..])
}
