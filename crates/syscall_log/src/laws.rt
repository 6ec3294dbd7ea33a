//! Laws of texts, over all logs. They stand for no work: their bodies are empty.

ghost use Rattle.std.specs.Prelude.{◌≡◌, ℕ, List};
ghost use Rattle.syscall_log.specs.declared.answer.Answer.{Answer};
ghost use Rattle.syscall_log.specs.Rules.{IsLog};
ghost use Rattle.syscall_log.specs.Grammar.{text_of};

/// A text spells one log: logs of equal texts are equal.
pub fn one_log()
    ensures { (args args' : List (List ℕ)) (answers answers' : List Answer) →
        IsLog args answers → IsLog args' answers' →
        text_of args answers ≡ text_of args' answers' → (args ≡ args') × (answers ≡ answers') }
{}
