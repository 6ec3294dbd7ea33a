//! Checking a pair of files.

ghost use Rattle.std.specs.Prelude.{◌≡◌, ◌≤◌, length, None, Some, IfOk, IfErr};
ghost use Rattle.elf32_read.specs.Faults.{limit_fault};
ghost use Rattle.elf32_read.specs.Reading.{IsImage};
ghost use Rattle.elf32_read.specs.Runs.{runs_of};
ghost use Rattle.elf32_write.specs.Frame.{frame as frame_of};
ghost use Rattle.image_layout.specs.Rules.{Rules};
ghost use Rattle.simulation_laws.specs.Stopping.{Simulates};
ghost use Rattle.mv_rewrite.specs.Upgrading.{HasOutput};
ghost use Rattle.pair_check.specs.Checking.{IsChecked};
ghost use Rattle.pair_check.specs.Parts.{parts_differ};

use crate::counted::pairs_difference;
use crate::differs::Differs;
use crate::file::file_difference;
use crate::laws::outputs_pass;
use crate::parts::{room_difference, runs_difference, stub_part};
use crate::sites::sites_difference;
use elf32_read::{Image, ImageFault, ReadImage, Run, admit, read_image, runs};
use elf32_write::{Frame, read_frame};
use mv_base::NoMemory;
use std::alloc::Global;
use thiserror::Error;

/// How many bytes an input may have: 256 MiB.
const FILE_LIMIT: usize = 268_435_456;

/// Why there is no yes: the input's first fault, no frame in the output, what differs first, or want of memory.
#[derive(Clone, Copy, Debug, PartialEq, Eq, Drop, Error)]
pub enum CheckFault {
    #[error("bad image: {0}")]
    Image(ImageFault),
    #[error("no frame")]
    NoFrame,
    #[error("differs: {0}")]
    Differs(Differs),
    #[error("no memory")]
    NoMemory,
}

impl From<NoMemory> for CheckFault {
    ghost use Rattle.std.specs.Prelude.{◌≡◌};
    ghost use Rattle.pair_check.specs.declared.checking.CheckFault.TheVariants as fault;

    ghost from_gives = { λ _ e. e ≡ fault.NoMemory };

    fn from(_error: NoMemory) -> CheckFault {
        CheckFault::NoMemory
    }
}

/// Whether an output is a rewriting of an input, and then how many sites the input has. Whoever made the output: where
/// the answer is yes, it follows the input, shows nothing else on the way and stops where the input stops, as what
/// `rewrite` makes does. What is made of the input by any rules always gets a yes where memory suffices.
///
/// # Errors
///
/// `Image` with the input's first fault, where it has one; else `NoFrame` where the output has no frame; else `Differs`
/// with what differs first; `NoMemory` where memory is wanted.
pub fn check(alloc: Global, original: &[u8], output: &[u8]) -> Result<u32, CheckFault>
    requires { length original.now ≤ FILE_LIMIT }
    ensures checked { IsChecked original.now output.now result }
    ensures simulates { IfOk result (λ _. Simulates original.now output.now) }
    ensures outputs { (rules : Rules) → HasOutput original.now rules output.now →
        IfErr result (λ e. e ≡ CheckFault.NoMemory) }
{
    outputs_pass();
    match read_image(alloc, original) {
        Ok(image) => check_image(alloc, &image, original, output),
        Err(ReadImage::Bad(fault)) => Err(CheckFault::Image(fault)),
        Err(ReadImage::NoMemory) => Err(CheckFault::NoMemory),
    }
}

/// The same for an input whose image this is.
fn check_image(
    alloc: Global,
    image: &Image,
    original: &[u8],
    output: &[u8],
) -> Result<u32, CheckFault>
    requires image { IsImage original.now image.now }
    requires limit { length original.now ≤ FILE_LIMIT }
    ensures { IsChecked original.now output.now result }
{
    match admit(image) {
        Ok(()) => match read_frame(output) {
            Some(frame) => check_framed(alloc, image, original, &frame, output),
            None => Err(CheckFault::NoFrame),
        },
        Err(fault) => Err(CheckFault::Image(fault)),
    }
}

/// The same for an input within the limits, and an output with this frame.
fn check_framed(
    alloc: Global,
    image: &Image,
    original: &[u8],
    frame: &Frame<'_>,
    output: &[u8],
) -> Result<u32, CheckFault>
    requires image { IsImage original.now image.now }
    requires limit { length original.now ≤ FILE_LIMIT }
    requires admitted { limit_fault original.now ≡ None }
    requires framed { frame_of output.now ≡ Some frame.now }
    ensures { IsChecked original.now output.now result }
{
    let runs = runs(alloc, image, original)?;
    match parts_difference(alloc, image, original, &runs, frame, output)? {
        Some(found) => Err(CheckFault::Differs(found)),
        None => match sites_difference(frame, &runs) {
            Ok(count) => Ok(count),
            Err(found) => Err(CheckFault::Differs(found)),
        },
    }
}

/// What is wrong first in the parts that a file has once.
fn parts_difference(
    alloc: Global,
    image: &Image,
    original: &[u8],
    runs: &[Run],
    frame: &Frame<'_>,
    output: &[u8],
) -> Result<Option<Differs>, NoMemory>
    requires image { IsImage original.now image.now }
    requires limit { length original.now ≤ FILE_LIMIT }
    requires admitted { limit_fault original.now ≡ None }
    requires runs { runs.now ≡ runs_of original.now }
    requires framed { frame_of output.now ≡ Some frame.now }
    ensures { IfOk result (λ found. found ≡ parts_differ original.now output.now frame.now) }
{
    if let Some(found) = room_difference(frame, image.segments.as_slice()) {
        return Ok(Some(found));
    }
    if let Some(found) = runs_difference(frame, runs) {
        return Ok(Some(found));
    }
    if let Some(found) = file_difference(alloc, image, original, frame, output)? {
        return Ok(Some(found));
    }
    if let Some(found) = pairs_difference(alloc, frame, runs)? {
        return Ok(Some(found));
    }
    Ok(stub_part(frame))
}
