//! The maximal ranges of executable addresses, with their bytes.

ghost use Rattle.std.specs.Prelude.{◌≡◌, ◌+◌, ◌==◌, ◌∷◌, ◌++◌, ℕ, List, [], None, length, take, drop, IfOk};
ghost use Rattle.std.specs.List.{All};
ghost use Rattle.mv_base.specs.Memory.{exec_byte};
ghost use Rattle.elf32_read.specs.declared.image.Segment.{Segment as Mapped};
ghost use Rattle.elf32_read.specs.declared.run.Run.{Run as Made};
ghost use Rattle.elf32_read.specs.Faults.{limit_fault};
ghost use Rattle.elf32_read.specs.Load.{load};
ghost use Rattle.elf32_read.specs.Reading.{IsImage};
ghost use Rattle.elf32_read.specs.Runs.{segment_bytes, join_run, join_last, runs_of, runs_in, code_of, AreApart, IsFilled};

use crate::image::{Image, Segment};
use mv_base::{Bytes, NoMemory};
use std::alloc::Global;

/// A maximal range of executable addresses, and its bytes.
#[derive(Drop)]
pub struct Run {
    pub lo: u32,
    pub bytes: Bytes,
}

/// The runs of an image, ascending. The image is the one that was read from these bytes, and `admit` takes it.
///
/// # Errors
///
/// `NoMemory`.
#[tactic(auto, using(crate::specs::Segments::run_laws))]
pub fn runs(alloc: Global, image: &Image, bytes: &[u8]) -> Result<Vec<Run>, NoMemory>
    requires image { IsImage bytes.now image.now }
    requires admitted { limit_fault bytes.now ≡ None }
    ensures list { IfOk result (λ rs. rs.items ≡ runs_of bytes.now) }

    // The runs have the executable bytes of the loaded file and no other, and a gap stands between any two.
    ensures code { (a : ℕ) → exec_byte (load bytes.now) a ≡ code_of (runs_of bytes.now) a }
    ensures apart { AreApart 0 (runs_of bytes.now) }
{
    segment_runs(alloc, image.segments.as_slice(), bytes)
}

/// The runs of segments, in their order.
fn segment_runs(alloc: Global, segments: &[Segment], bytes: &[u8]) -> Result<Vec<Run>, NoMemory>
    requires { All (IsFilled bytes.now) segments.now }
    ensures { IfOk result (λ rs. rs.items ≡ runs_in bytes.now segments.now) }
{
    let mut joining = Joining::new(alloc, segments.len())?;
    for segment in segments {
        joining = joining.with_segment(alloc, segment, bytes)?;
    }
    joining.into_runs()
}

/// Runs that are being joined, ascending: those that are complete, and the last, which may get more bytes.
#[derive(Drop)]
struct Joining {
    done: Vec<Run>,
    last: Option<Run>,
}

impl Joining {
    ghost use Rattle.elf32_read.specs.Joining.{runs_with};

    /// No run, with room for so many.
    fn new(alloc: Global, most: usize) -> Result<Joining, NoMemory>
        ensures none { IfOk result (λ joining. joining.done.items ≡ []) }
        ensures open { IfOk result (λ joining. joining.last ≡ None) }
    {
        Ok(Joining {
            done: Vec::with_capacity(alloc, most)?,
            last: None,
        })
    }

    /// These runs with a segment behind them: where it is executable its bytes are joined to the last run that it
    /// touches, or begin a new one.
    fn with_segment(
        self,
        alloc: Global,
        segment: &Segment,
        bytes: &[u8],
    ) -> Result<Joining, NoMemory>
        requires { IsFilled bytes.now segment.now }
        ensures { IfOk result
            (λ more. (rest : List Mapped) → runs_with bytes.now more rest ≡ runs_with bytes.now self (segment.now ∷ rest)) }
    {
        if !segment.exec {
            return Ok(self);
        }
        let Joining { mut done, last } = self;
        let run = run_at(alloc, last, segment.range.lo(), &mut done)?;
        Ok(Joining {
            done,
            last: Some(extended(run, segment, bytes)?),
        })
    }

    /// The runs, all complete.
    fn into_runs(self) -> Result<Vec<Run>, NoMemory>
        ensures { IfOk result (λ rs. rs.items ≡ self.done.items ++ join_last self.last []) }
    {
        let Joining { mut done, last } = self;
        if let Some(run) = last {
            done.push(run)?;
        }
        Ok(done)
    }
}

/// The run that bytes from `lo` on belong to: the last, where it ends there; else a new one, and the last is
/// complete.
fn run_at(alloc: Global, last: Option<Run>, lo: u32, done: &mut Vec<Run>) -> Result<Run, NoMemory>
    ensures { IfOk result
        (λ run. (added : List ℕ) (rest : List Made)
        → done.new.items ++ join_run run.lo (run.bytes ++ added) rest ≡ done.old.items ++ join_last last (join_run lo added rest)) }
{
    let Some(run) = last else {
        return Ok(new_run(alloc, lo));
    };
    if ends_at(&run, lo) {
        return Ok(run);
    }
    done.push(run)?;
    Ok(new_run(alloc, lo))
}

/// A run at `lo` with no byte yet.
fn new_run(alloc: Global, lo: u32) -> Run
    ensures { result ≡ record { lo = lo; bytes = [] } }
{
    Run {
        lo,
        bytes: Bytes::new(Vec::new(alloc)),
    }
}

/// Whether `at` is the address after the run's last.
fn ends_at(run: &Run, at: u32) -> bool
    ensures { result ≡ (run.now.lo + length run.now.bytes == at) }
{
    at >= run.lo && (at - run.lo) as usize == run.bytes.len()
}

/// A run with the bytes of a segment behind it: those of the file, then zeros.
fn extended(run: Run, segment: &Segment, bytes: &[u8]) -> Result<Run, NoMemory>
    requires { IsFilled bytes.now segment.now }
    ensures { IfOk result (λ more. more ≡ record {
      lo = run.lo;
      bytes = run.bytes ++
          segment_bytes bytes.now segment.now;
    }) }
{
    let Run { lo, bytes: held } = run;
    let mut held = held.into_vec();
    held.reserve(segment.range.len() as usize)?;
    held.extend_from_slice(file_bytes(segment, bytes))?;
    let zeros = (segment.range.len() - segment.filesz) as usize;
    held.resize(held.len() + zeros, 0)?;
    Ok(Run {
        lo,
        bytes: Bytes::new(held),
    })
}

/// The bytes of the file that a segment has.
fn file_bytes<'a>(segment: &Segment, bytes: &'a [u8]) -> &'a [u8]
    requires { IsFilled bytes.now segment.now }
    ensures { result.now ≡ take segment.now.filesz (drop segment.now.offset bytes.now) }
{
    if segment.filesz == 0 {
        return &bytes[..0];
    }
    let start = segment.offset as usize;
    &bytes[start..start + segment.filesz as usize]
}
