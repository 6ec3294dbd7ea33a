//! Reading an image, field by field.

ghost use Rattle.std.specs.Prelude.{◌≡◌, ◌≤◌, IfOk, length, None, take, drop};
ghost use Rattle.elf32_read.specs.Fields.{headers as headers_of, ident_rest};
ghost use Rattle.elf32_read.specs.Faults.{load_refusal};
ghost use Rattle.elf32_read.specs.Reading.{IsImage, IsRead};

use crate::fault::ImageFault;
use crate::field::u32_field;
use crate::head::head_fault;
use crate::headers::{has_load, headers, headers_fault, segments};
use crate::image::{Headers, Image, Phdr, Segments};
use mv_base::NoMemory;
use std::alloc::Global;
use thiserror::Error;

/// Why a file was not read: its first fault, or want of memory.
#[derive(Clone, Copy, Debug, Drop, Error)]
pub enum ReadImage {
    #[error("{0}")]
    Bad(ImageFault),
    #[error("no memory")]
    NoMemory,
}

impl From<NoMemory> for ReadImage {
    ghost use Rattle.std.specs.Prelude.{◌≡◌};
    ghost use Rattle.elf32_read.specs.declared.reader.ReadImage.TheVariants.{NoMemory as WantsMemory};

    ghost from_gives = { λ _ e. e ≡ WantsMemory };

    fn from(_error: NoMemory) -> ReadImage {
        ReadImage::NoMemory
    }
}

/// The image that the bytes are, or their first fault in the order of `ImageFault`. The limits of what is
/// rewritten are no faults here; `admit` looks for them.
///
/// # Errors
///
/// `Bad` with the first fault, exactly where there is one; `NoMemory`.
pub fn read_image(alloc: Global, bytes: &[u8]) -> Result<Image, ReadImage>
    ensures { IsRead bytes.now result }
{
    if let Some(fault) = head_fault(bytes) {
        return Err(ReadImage::Bad(fault));
    }
    let headers = headers(alloc, bytes)?;
    if let Some(fault) = headers_fault(bytes.len() as u64, &headers) {
        return Err(ReadImage::Bad(fault));
    }
    if !has_load(&headers) {
        return Err(ReadImage::Bad(ImageFault::NoLoad));
    }
    Ok(whole_image(alloc, bytes, headers)?)
}

/// The image of a file with no fault, which has these program headers.
fn whole_image(alloc: Global, bytes: &[u8], headers: Vec<Phdr>) -> Result<Image, NoMemory>
    requires whole { load_refusal bytes.now ≡ None }
    requires headers_are { headers.items ≡ headers_of bytes.now }
    ensures { IfOk result (IsImage bytes.now) }
{
    let segments = segments(alloc, &headers)?;
    Ok(Image {
        entry: u32_field(bytes, 24),
        e_flags: u32_field(bytes, 36),
        ident: ident_rest(bytes),
        headers: Headers::new(headers),
        segments: Segments::new(segments),
    })
}

/// Bytes 7 to 15 of the file.
fn ident_rest(bytes: &[u8]) -> [u8; 9]
    requires { 16 ≤ length bytes.now }
    ensures { result ≡ ident_rest bytes.now }
{
    let mut ident = [0; 9];
    ident.copy_from_slice(&bytes[7..16]);
    ident
}
