//! The bytes of a counter. No call takes memory.

ghost use Rattle.std.specs.Prelude.{◌≡◌, ℕ, length};
ghost use Rattle.counter_hooks.specs.Counter.{counter as counter_of};

use superset::Piece;

// How many bytes a counter has.
const COUNTER_LEN: usize = 46;

/// How many bytes a counter has.
pub fn counter_len() -> usize
    ensures { (private counter : ℕ) → result ≡ length (counter_of private counter) }
{
    COUNTER_LEN
}

/// The code that adds one to the eight bytes from `counter` on, modulo 2^64. It keeps ECX in the four bytes from
/// `private` on. Sums of addresses are taken modulo 2^32.
pub fn counter_piece(private: u32, counter: u32) -> Piece
    ensures { result ≡ counter_of private counter }
{
    let [p0, p1, p2, p3] = private.to_le_bytes();
    let [l0, l1, l2, l3] = counter.to_le_bytes();
    let [h0, h1, h2, h3] = counter.wrapping_add(4).to_le_bytes();
    let bytes: [u8; COUNTER_LEN] = [
        0x89, 0x0D, p0, p1, p2, p3, 0x8B, 0x0D, l0, l1, l2, l3, 0x8D, 0x49, 0x01, 0x89, 0x0D, l0,
        l1, l2, l3, 0xE3, 0x02, 0xEB, 0x0F, 0x8B, 0x0D, h0, h1, h2, h3, 0x8D, 0x49, 0x01, 0x89,
        0x0D, h0, h1, h2, h3, 0x8B, 0x0D, p0, p1, p2, p3,
    ];
    Piece::new(&bytes)
}
