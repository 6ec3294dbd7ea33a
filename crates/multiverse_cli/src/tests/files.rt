//! Files of code behind headers.

use std::alloc::Global;
use std::test::Fail;

/// A program header: its type, where its bytes stand in the file, its address, how many bytes it has in the file and in
/// memory, and its flags.
pub(super) type Header = [u32; 6];

/// The address of code behind one header.
pub(super) const CODE: u32 = 0x0804_8054;

/// `mov eax,1`, `mov ebx,7` and `int 0x80`.
pub(super) const EXIT: &[u8] = b"\xb8\x01\0\0\0\xbb\x07\0\0\0\xcd\x80";

/// The begin of a file, up to its entry.
const BEGIN: &[u8] = b"\x7fELF\x01\x01\x01\0\0\0\0\0\0\0\0\0\x02\0\x03\0\x01\0\0\0";

fn put_words(file: &mut Vec<u8>, words: &[u32]) -> Result<(), Fail> {
    for word in words {
        file.extend_from_slice(&word.to_le_bytes())?;
    }
    Ok(())
}

/// A file with this entry that says how many headers follow, with these headers, and the code behind them.
pub(super) fn file_with(
    alloc: Global,
    entry: u32,
    count: u32,
    headers: &[Header],
    code: &[u8],
) -> Result<Vec<u8>, Fail> {
    let mut file = Vec::from_slice(alloc, BEGIN)?;
    put_words(&mut file, &[entry, 52, 0, 0, 0x20_0034, count, 0])?;
    for [kind, place, address, len, size, flags] in headers {
        put_words(&mut file, &[*kind, *place, *address, *address])?;
        put_words(&mut file, &[*len, *size, *flags, 0x1000])?;
    }
    file.extend_from_slice(code)?;
    Ok(file)
}

/// A file of code alone, which is mapped where it is entered.
pub(super) fn file_of(alloc: Global, code: &[u8]) -> Result<Vec<u8>, Fail> {
    let len = u32::try_from(code.len()).ok().ok_or("a length")?;
    file_with(alloc, CODE, 1, &[[1, 84, CODE, len, len, 5]], code)
}

/// A file with 62 headers, of which the first maps a `hlt` behind them.
pub(super) fn full_of_headers(alloc: Global) -> Result<Vec<u8>, Fail> {
    let code = [[1, 0x7f4, 0x0804_87f4, 1, 1, 5]];
    let mut file = file_with(alloc, 0x0804_87f4, 62, &code, b"")?;
    file.resize(52 + 32 * 62, 0)?;
    file.push(0xf4)?;
    Ok(file)
}

/// What says what a file has beside its code: its entry, how many headers it says to have, and these.
#[derive(Clone, Copy)]
pub(super) struct Head {
    pub(super) entry: u32,
    pub(super) count: u32,
    pub(super) headers: &'static [Header],
}

impl Head {
    /// The file with this code.
    pub(super) fn file(&self, alloc: Global, code: &[u8]) -> Result<Vec<u8>, Fail> {
        file_with(alloc, self.entry, self.count, self.headers, code)
    }
}
