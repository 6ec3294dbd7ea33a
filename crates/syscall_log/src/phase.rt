//! Which line may come next.

ghost use Rattle.std.specs.Prelude.{◌≡◌, ◌↔◌, IsTrue, IfSome, IfNone};
ghost use Rattle.syscall_log.specs.Phases.{MayCome, phase_after};

use crate::bounds::{MOST_ARGUMENTS, MOST_BYTES, has_no_zero};
use crate::item::Item;
use mv_base::Bytes;

/// What the lines so far leave open. In each phase but the first they are a log.
#[derive(Clone, Copy, Drop)]
pub(crate) enum Phase {
    /// Nothing was read.
    Start,
    /// The header and arguments: how many more there may be, and how many bytes they may have, each with a zero.
    Arguments { places: usize, room: usize },
    /// An answer, which may get effects.
    Answers,
    /// An answer that gets no effects.
    Settled,
    /// The end of the program.
    Over,
}

impl Phase {
    /// Whether nothing was read.
    pub(crate) fn is_start(self) -> bool
        ensures { IsTrue result ↔ (self ≡ Phase.Start) }
    {
        matches!(self, Phase::Start)
    }

    /// The phase after an item; `None` where the item may not come here, or breaks its own bounds.
    pub(crate) fn after(self, item: &Item) -> Option<Phase>
        ensures some { IfSome result (λ next.
            MayCome self item.now × (next ≡ phase_after self item.now)) }
        ensures none { IfNone result (¬ MayCome self item.now) }
    {
        match (self, item) {
            (Phase::Start, Item::Header) => Some(Phase::Arguments {
                places: MOST_ARGUMENTS,
                room: MOST_BYTES,
            }),
            (Phase::Arguments { places, room }, Item::Arg(bytes)) => with_argument(
                places, room, bytes,
            ),
            (Phase::Answers, Item::Change(effect)) => {
                effect.keeps_bounds().then_some(Phase::Answers)
            }
            (Phase::Arguments { .. } | Phase::Answers | Phase::Settled, Item::Ret(eax)) => {
                let _value = *eax;
                Some(Phase::Answers)
            }
            (Phase::Arguments { .. } | Phase::Answers | Phase::Settled, Item::Gone) => {
                Some(Phase::Over)
            }
            (
                Phase::Arguments { .. } | Phase::Answers | Phase::Settled,
                Item::Cpuid { eax, ebx, ecx, edx },
            ) => {
                let _values = (*eax, *ebx, *ecx, *edx);
                Some(Phase::Settled)
            }
            _ => None,
        }
    }
}

/// The phase after an argument, where there may be `places` more, and `room` bytes of them, each with a zero.
fn with_argument(places: usize, room: usize, bytes: &Bytes) -> Option<Phase>
    ensures some { IfSome result (λ next.
        MayCome (Phase.Arguments places room) (Item.Arg bytes.now)
        × (next ≡ phase_after (Phase.Arguments places room) (Item.Arg bytes.now))) }
    ensures none { IfNone result
        (¬ MayCome (Phase.Arguments places room) (Item.Arg bytes.now)) }
{
    if places > 0 && bytes.len() < room && has_no_zero(bytes) {
        Some(Phase::Arguments {
            places: places - 1,
            room: room - (bytes.len() + 1),
        })
    } else {
        None
    }
}
