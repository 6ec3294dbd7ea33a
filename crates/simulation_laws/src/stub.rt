//! The lookup stub at the front of a frame's code.

ghost use Rattle.std.specs.Prelude.{◌≡◌, ℕ, ◌+◌, ◌≤◌, true, List, length, take};
ghost use Rattle.std.specs.Option.{option_map};
ghost use Rattle.x86_insn.specs.State.{State};
ghost use Rattle.elf32_write.specs.Frame.{frame as frame_of, frame_code, frame_map};
ghost use Rattle.lookup_stub.specs.Stub.{stub, stub_size};
ghost use Rattle.lookup_stub.specs.Finding.{Finds, lookup_steps};
ghost use Rattle.simulation_laws.specs.Front.{begins, difference};
ghost use Rattle.simulation_laws.specs.Standing.{stub_difference as difference_of};
ghost use Rattle.simulation_laws.specs.Entered.{IsEntered};

use crate::front::{Difference, byte_or_missing};
use elf32_write::Frame;
use lookup_stub::{MOST_RUNS, stub_byte};
use mv_base::RunPlace;

const NO_RUN: RunPlace = RunPlace {
    lo: 0,
    len: 0,
    dir: 0,
};

/// Whether the code begins with the lookup stub over the frame's runs, for a table of the frame's form. Where it does, a
/// run that enters it in a memory that holds the frame's parts, with an address in the private area's second word, comes
/// to where the frame maps the address: no step on the way stops, registers and flags come back, and each state keeps all
/// but the private bytes 4 to 11 and 44 to 63.
pub fn stub_at(frame: &Frame<'_>) -> bool
    ensures value { result
        ≡ begins (stub frame.now.form frame.now.runs frame.now.private) (frame_code frame.now) }
    ensures finds { result ≡ true → (x : List ℕ) (a : ℕ) (s : State) → frame_of x ≡ Some frame.now →
        IsEntered frame.now a s →
        Finds frame.now.private (lookup_steps frame.now.form frame.now.runs a)
        (frame_map frame.now a) s }
{
    frame_difference(frame).is_none()
}

/// The first byte at which the code differs from the lookup stub over the frame's runs: its address, the byte that is
/// wanted, and the one that is found, 256 where the code has ended. `None` exactly where `stub_at` is true.
pub fn stub_difference(frame: &Frame<'_>) -> Option<(u32, u32, u32)>
    ensures { result ≡ option_map (λ d. (frame.now.code.lo + d.place, d.kept, d.found))
        (difference_of frame.now) }
{
    let end = frame.code_end();
    match frame_difference(frame) {
        Some(Difference { place, kept, found }) => {
            let at = frame.code().lo() + place as u32;
            Some((at, kept, found))
        }
        None => None,
    }
}

// The first difference of the code from the lookup stub over the frame's runs.
fn frame_difference(frame: &Frame<'_>) -> Option<Difference>
    ensures { result ≡ difference_of frame.now }
{
    let runs = run_places(frame);
    let count = frame.run_count() as usize;
    difference_from_stub(
        frame.form(),
        &runs[..count],
        frame.private(),
        frame.code_bytes(),
    )
}

// The places of a frame's runs, from the first on.
fn run_places(frame: &Frame<'_>) -> [RunPlace; 64]
    ensures { take (length frame.now.runs) result ≡ frame.now.runs }
{
    let mut runs = [NO_RUN; MOST_RUNS];
    for i in 0..frame.run_count() {
        runs[i as usize] = frame.run_at(i);
    }
    runs
}

// The first difference of bytes from the stub.
fn difference_from_stub(
    form: u8,
    runs: &[RunPlace],
    private: u32,
    code: &[u8],
) -> Option<Difference>
    requires form_low { 1 ≤ form }
    requires form_high { form ≤ 2 }
    requires few { length runs.now ≤ MOST_RUNS }
    ensures { result ≡ difference 0 (stub form runs.now private) code.now }
{
    for i in 0..stub_len(form, runs.len()) {
        let kept = u32::from(stub_byte(form, runs, private, i));
        let found = byte_or_missing(code, i);
        if kept != found {
            let place = i as u64;
            return Some(Difference { place, kept, found });
        }
    }
    None
}

// How many bytes the stub has, for a table of this form.
fn stub_len(form: u8, runs: usize) -> usize
    requires { runs ≤ MOST_RUNS }
    ensures { result ≡ stub_size form runs }
{
    let ends = if form == 1 { 51 } else { 65 };
    ends + 26 * runs
}
