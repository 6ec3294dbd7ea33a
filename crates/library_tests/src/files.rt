//! Files of code behind headers.

use std::alloc::{AllocError, Global};

/// A program header: its type, where its bytes stand in the file, its address, how many bytes it has in the file and in
/// memory, and its flags.
#[derive(Clone, Copy)]
pub struct Header {
    pub kind: u32,
    pub place: u32,
    pub address: u32,
    pub len: u32,
    pub size: u32,
    pub flags: u32,
}

/// The address of code behind one header.
pub const CODE: u32 = 0x0804_8054;

/// `mov eax,1`, `mov ebx,7` and `int 0x80`.
pub const EXIT: &[u8] = b"\xb8\x01\0\0\0\xbb\x07\0\0\0\xcd\x80";

/// A header that maps code which stands at this place of the file.
pub const fn code(place: u32, address: u32, len: u32) -> Header {
    Header {
        kind: 1,
        place,
        address,
        len,
        size: len,
        flags: 5,
    }
}

/// A header that maps zeros which can be written.
pub const fn zeros(address: u32, size: u32) -> Header {
    Header {
        kind: 1,
        place: 0,
        address,
        len: 0,
        size,
        flags: 6,
    }
}

/// The first words of a header of ELF for the i386, up to its entry.
const FRONT: &[u8] = b"\x7fELF\x01\x01\x01\0\0\0\0\0\0\0\0\0\x02\0\x03\0\x01\0\0\0";

fn put_words(file: &mut Vec<u8>, words: &[u32]) -> Result<(), AllocError> {
    for word in words {
        file.extend_from_slice(&word.to_le_bytes())?;
    }
    Ok(())
}

/// A file with this entry, these headers, and the code behind them.
pub fn file_of(
    alloc: Global,
    entry: u32,
    headers: &[Header],
    code: &[u8],
) -> Result<Vec<u8>, AllocError> {
    let mut file = Vec::from_slice(alloc, FRONT)?;
    put_words(&mut file, &[entry, 52, 0, 0])?;
    file.extend_from_slice(b"\x34\0\x20\0")?;
    put_words(&mut file, &[u32::try_from(headers.len()).unwrap_or(0), 0])?;
    for header in headers {
        put_words(
            &mut file,
            &[
                header.kind,
                header.place,
                header.address,
                header.address,
                header.len,
                header.size,
                header.flags,
                0x1000,
            ],
        )?;
    }
    file.extend_from_slice(code)?;
    Ok(file)
}
