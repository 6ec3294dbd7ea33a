//! The counters of an address, in a frame's list.

ghost use Rattle.std.specs.Prelude.{◌≡◌, ◌+◌};
ghost use Rattle.elf32_write.specs.Frame.{AscendPairs, counted};
ghost use Rattle.simulation_laws.specs.Relocated.{kind_of as place_of};
ghost use Rattle.simulation_laws.specs.laws.Counters.{IsFrom};

use elf32_write::Frame;

// How many counters there are of addresses below an address.
fn counters_below(frame: &Frame<'_>, address: u32) -> u32
    requires { AscendPairs (counted frame.now) }
    ensures { IsFrom frame.now address 0 result }
{
    let mut low = 0;
    let mut high = frame.counter_count();
    while low < high {
        let middle = low + (high - low) / 2;
        if frame.counted_at(middle) < address {
            low = middle + 1;
        } else {
            high = middle;
        }
    }
    high
}

// Where the counter of a kind at an address is, if the frame has it, where so many counters stand before it; and how many
// stand before that of the next kind.
fn counter_at(frame: &Frame<'_>, number: u32, address: u32, kind: u8) -> (Option<u32>, u32)
    requires ascends { AscendPairs (counted frame.now) }
    requires from { IsFrom frame.now address kind number }
    ensures is { result.0 ≡ place_of frame.now kind address }
    ensures next { IsFrom frame.now address (kind + 1) result.1 }
{
    if number == frame.counter_count() {
        return (None, number);
    }
    if frame.counted_at(number) != address {
        return (None, number);
    }
    if frame.kind_at(number) != kind {
        return (None, number);
    }
    (Some(frame.counter_place(number)), number + 1)
}

/// Where the counters of an address are: that of all executions, and those of a branch or a loop that is taken and that
/// is passed.
#[derive(Clone, Copy, Drop)]
pub struct Counters {
    pub all: Option<u32>,
    pub taken: Option<u32>,
    pub passed: Option<u32>,
}

/// The counters of an address, by one search.
pub fn counters_of(frame: &Frame<'_>, address: u32) -> Counters
    requires { AscendPairs (counted frame.now) }
    ensures all { result.all ≡ place_of frame.now 0 address }
    ensures taken { result.taken ≡ place_of frame.now 1 address }
    ensures passed { result.passed ≡ place_of frame.now 2 address }
{
    let first = counters_below(frame, address);
    let (all, second) = counter_at(frame, first, address, 0);
    let (taken, third) = counter_at(frame, second, address, 1);
    let (passed, _) = counter_at(frame, third, address, 2);
    Counters { all, taken, passed }
}
