//! The answers to system calls and to CPUID.

ghost use Rattle.std.specs.Prelude.{◌≡◌, ◌↔◌, IsTrue, [], length};
ghost use Rattle.std.specs.List.{All};
ghost use Rattle.mv_base.specs.Effects.{IsAnswer, IsEffect};
ghost use Rattle.syscall_log.specs.Meaning.{answer_of, effect_of, is_gone};

use crate::effect::{Effect, Effects};
use std::marker::Model;

/// What a system call gets, or CPUID.
#[derive(Drop)]
pub enum Answer {
    /// A value for EAX, after some effects.
    Ret {
        eax: u32,
        effects: Effects,
    },
    /// The end of the program.
    Gone,
    /// The values that CPUID gives.
    Cpuid {
        eax: u32,
        ebx: u32,
        ecx: u32,
        edx: u32,
    },
}

impl Answer {
    /// Whether each of its effects keeps its bounds.
    pub fn keeps_bounds(&self) -> bool
        ensures { IsTrue result ↔ IsAnswer (answer_of self.now) }
    {
        match self {
            Answer::Ret { eax, effects } => {
                let _value = *eax;
                keep_bounds(effects.as_slice())
            }
            Answer::Gone => true,
            Answer::Cpuid { eax, ebx, ecx, edx } => {
                let _values = (*eax, *ebx, *ecx, *edx);
                true
            }
        }
    }

    /// Whether the program ends.
    pub fn is_gone(&self) -> bool
        ensures { result ≡ is_gone self.now }
    {
        matches!(self, Answer::Gone)
    }
}

/// Whether each effect keeps its bounds.
fn keep_bounds(effects: &[Effect]) -> bool
    ensures { IsTrue result ↔ All (λ e. IsEffect (effect_of e)) effects.now }
{
    effects.iter().all(|effect| effect.keeps_bounds())
}

/// Answers in their order.
#[derive(Drop)]
pub struct AnswerList {
    items: Vec<Answer>,
}

impl Model for AnswerList {
    ghost use Rattle.std.specs.Prelude.{List};
    ghost use Rattle.syscall_log.specs.declared.answer.Answer.{Answer};

    ghost Value = { List Answer };

    ghost view = { λ a. a.items.items };
}

impl AnswerList {
    /// The answers of a vector.
    pub fn new(items: Vec<Answer>) -> AnswerList
        ensures { result ≡ items.items }
    {
        AnswerList { items }
    }

    /// The vector of the answers.
    pub fn into_vec(self) -> Vec<Answer>
        ensures { result.items ≡ self }
    {
        self.items
    }

    /// The answers as a slice.
    pub fn as_slice(&self) -> &[Answer]
        ensures { result.now ≡ self.now }
    {
        self.items.as_slice()
    }

    /// How many answers there are.
    pub fn len(&self) -> usize
        ensures { result ≡ length self.now }
    {
        self.items.len()
    }

    /// Whether there is no answer.
    pub fn is_empty(&self) -> bool
        ensures { IsTrue result ↔ (self.now ≡ []) }
    {
        self.items.is_empty()
    }
}
