//! A log as far as it was read.

ghost use Rattle.std.specs.Prelude.{◌≡◌, [], OnOk, IfOk};
ghost use Rattle.syscall_log.specs.Drafts.{answers_with, args_with, with_effect};
ghost use Rattle.syscall_log.specs.Rules.{IsLog};

use crate::answer::{Answer, AnswerList};
use crate::args::Args;
use crate::effect::{Effect, Effects};
use crate::item::Item;
use crate::log::Log;
use mv_base::{Bytes, NoMemory};
use std::alloc::Global;

/// The arguments and answers of a log as far as it was read.
#[derive(Drop)]
pub(crate) struct Draft {
    alloc: Global,
    args: Vec<Bytes>,
    answers: Vec<Answer>,
}

impl Draft {
    /// A draft of nothing.
    pub(crate) fn new(alloc: Global) -> Draft
        ensures args { result.args.items ≡ [] }
        ensures answers { result.answers.items ≡ [] }
    {
        Draft {
            alloc,
            args: Vec::new(alloc),
            answers: Vec::new(alloc),
        }
    }

    /// Takes an item more.
    pub(crate) fn add(&mut self, item: Item) -> Result<(), NoMemory>
        ensures args { OnOk result (self.new.args.items ≡ args_with self.old.args.items item) }
        ensures answers { OnOk result (self.new.answers.items
            ≡ answers_with self.old.answers.items item) }
    {
        match item {
            Item::Header => {}
            Item::Arg(bytes) => self.args.push(bytes)?,
            Item::Ret(eax) => self.answers.push(Answer::Ret {
                eax,
                effects: Effects::new(Vec::new(self.alloc)),
            })?,
            Item::Change(effect) => {
                if let Some(answer) = self.answers.pop() {
                    self.answers.push(changed(answer, effect)?)?;
                }
            }
            Item::Gone => self.answers.push(Answer::Gone)?,
            Item::Cpuid { eax, ebx, ecx, edx } => self
                .answers
                .push(Answer::Cpuid { eax, ebx, ecx, edx })?,
        }
        Ok(())
    }

    /// The log that was read.
    pub(crate) fn into_log(self) -> Log
        requires { IsLog self.args.items self.answers.items }
        ensures args { result.args ≡ self.args.items }
        ensures answers { result.answers ≡ self.answers.items }
    {
        Log {
            args: Args::new(self.args),
            answers: AnswerList::new(self.answers),
        }
    }
}

/// An answer with an effect more, if it takes effects.
fn changed(answer: Answer, effect: Effect) -> Result<Answer, NoMemory>
    ensures { IfOk result (λ a. a ≡ with_effect answer effect) }
{
    match answer {
        Answer::Ret { eax, effects } => {
            let mut effects = effects.into_vec();
            effects.push(effect)?;
            Ok(Answer::Ret {
                eax,
                effects: Effects::new(effects),
            })
        }
        Answer::Gone => Ok(Answer::Gone),
        Answer::Cpuid { eax, ebx, ecx, edx } => Ok(Answer::Cpuid { eax, ebx, ecx, edx }),
    }
}
