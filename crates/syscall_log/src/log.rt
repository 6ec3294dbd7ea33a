//! A log: arguments and answers within the bounds that each log keeps.

ghost use Rattle.std.specs.Prelude.{◌≡◌, ◌↔◌, IsSome, IfSome};
ghost use Rattle.syscall_log.specs.Rules.{IsLog, IsLog-prop};

use crate::answer::AnswerList;
use crate::args::Args;
use crate::bounds::{are_answers, are_arguments};

/// What a traced program is given: at most 1,024 arguments without a zero byte, which have at most 65,536 bytes with one
/// ending zero each, and answers whose effects keep their bounds, of which at most the last ends the program.
#[derive(Drop)]
pub struct Log {
    pub args: Args,
    pub answers: AnswerList,
    pub ghost bounds: { IsLog args answers } by { IsLog-prop args answers },
}

impl Log {
    /// The log of these arguments and answers; `None` exactly where they break a bound.
    pub fn new(args: Args, answers: AnswerList) -> Option<Log>
        ensures is { IsSome result ↔ IsLog args answers }
        ensures value { IfSome result (λ log. (log.args ≡ args) × (log.answers ≡ answers)) }
    {
        if are_arguments(args.as_slice()) && are_answers(answers.as_slice()) {
            Some(Log { args, answers })
        } else {
            None
        }
    }
}
