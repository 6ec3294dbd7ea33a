//! The first place at which bytes differ from those that are wanted.

ghost use Rattle.std.specs.Prelude.{◌≡◌, ◌+◌, ◌<◌, ◌^◌, drop, get_or, length};
ghost use Rattle.simulation_laws.specs.Front.{difference};

/// What counts as a byte where there is none.
pub const MISSING: u32 = 256;

/// Where bytes first differ from those that are wanted: the place, the byte that is wanted there and the one that is
/// found, 256 where there is none.
#[derive(Clone, Copy, Drop)]
pub struct Difference {
    pub place: u64,
    pub kept: u32,
    pub found: u32,
}

/// The first difference of bytes from wanted ones, whose first place has this number; `None` exactly where the bytes
/// begin with those that are wanted.
pub fn first_difference(from: u64, wanted: &[u8], bytes: &[u8]) -> Option<Difference>
    requires { from + length wanted.now < 2 ^ 64 }
    ensures { result ≡ difference from wanted.now bytes.now }
{
    for i in 0..wanted.len() {
        let kept = u32::from(wanted[i]);
        let found = byte_or_missing(bytes, i);
        if kept != found {
            let place = from + i as u64;
            return Some(Difference { place, kept, found });
        }
    }
    None
}

/// The byte at an index, or what counts as one where there is none.
pub fn byte_or_missing(bytes: &[u8], index: usize) -> u32
    ensures { result ≡ get_or bytes.now index 256 }
{
    if index < bytes.len() {
        return u32::from(bytes[index]);
    }
    MISSING
}

/// The bytes behind the first ones, of which there may be none.
pub fn behind(bytes: &[u8], count: usize) -> &[u8]
    ensures { result.now ≡ drop count bytes.now }
{
    if bytes.len() < count {
        return &[];
    }
    &bytes[count..]
}
