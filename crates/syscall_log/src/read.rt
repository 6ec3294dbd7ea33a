//! The reader of a log's text.

ghost use Rattle.std.specs.Prelude.{◌≡◌, IfOk, IfErr};
ghost use Rattle.syscall_log.specs.Faults.{IsFault};
ghost use Rattle.syscall_log.specs.Grammar.{text_of};

use crate::draft::Draft;
use crate::fault::LogFault;
use crate::items::next_item;
use crate::log::Log;
use crate::phase::Phase;
use std::alloc::Global;

/// The log that a text spells. A text that spells none is answered by its first line that no log has in its place; an
/// empty text has one empty line, and a last line without a line feed is a line that no log has.
pub fn read_log(alloc: Global, bytes: &[u8]) -> Result<Log, LogFault>
    ensures log { IfOk result (λ log. bytes.now ≡ text_of log.args log.answers) }
    ensures fault { IfErr result (IsFault bytes.now) }
{
    let mut draft = Draft::new(alloc);
    let mut phase = Phase::Start;
    let mut rest = bytes;
    let mut line = 0;
    while phase.is_start() || !rest.is_empty() {
        line += 1;
        let next = match next_item(alloc, phase, rest) {
            Ok(next) => next,
            Err(fault) => return Err(fault.at(line)),
        };
        draft.add(next.item)?;
        phase = next.phase;
        rest = next.rest;
    }
    Ok(draft.into_log())
}
