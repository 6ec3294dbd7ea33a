//! The bounds that a log keeps.

ghost use Rattle.std.specs.Prelude.{◌≡◌, ◌+◌, ◌≤◌, ◌↔◌, IsTrue, length, sum_by};
ghost use Rattle.std.specs.List.{All};
ghost use Rattle.syscall_log.specs.Rules.{AreArguments, AreAnswers, IsArgument};

use crate::answer::Answer;
use mv_base::Bytes;

/// The most arguments, and the most bytes that they have together with one ending zero each.
pub(crate) const MOST_ARGUMENTS: usize = 1_024;

pub(crate) const MOST_BYTES: usize = 65_536;

/// Whether arguments keep the bounds of a log.
pub(crate) fn are_arguments(args: &[Bytes]) -> bool
    ensures { IsTrue result ↔ AreArguments args.now }
{
    args.len() <= MOST_ARGUMENTS && are_short(args) && none_has_zero(args)
}

/// Whether arguments have at most 65,536 bytes together, with one ending zero each.
fn are_short(args: &[Bytes]) -> bool
    ensures { IsTrue result ↔ (sum_by (λ a. length a + 1) args.now ≤ 65536) }
{
    let mut room = MOST_BYTES;
    for arg in args {
        if arg.len() >= room {
            return false;
        }
        room -= arg.len() + 1;
    }
    true
}

/// Whether no argument has a zero byte.
fn none_has_zero(args: &[Bytes]) -> bool
    ensures { IsTrue result ↔ All IsArgument args.now }
{
    args.iter().all(has_no_zero)
}

/// Whether no byte of an argument is zero.
#[tactic(auto, unfolding(crate::specs::Rules::IsArgument))]
pub(crate) fn has_no_zero(arg: &Bytes) -> bool
    ensures { IsTrue result ↔ IsArgument arg.now }
{
    arg.as_slice().iter().all(|byte| *byte != 0)
}

/// Whether answers keep the bounds of a log: each keeps its own, and none follows the one that ends the program.
pub(crate) fn are_answers(answers: &[Answer]) -> bool
    ensures { IsTrue result ↔ AreAnswers answers.now }
{
    let mut left = answers.len();
    for answer in answers {
        left -= 1;
        if !answer.keeps_bounds() || (answer.is_gone() && left > 0) {
            return false;
        }
    }
    true
}
