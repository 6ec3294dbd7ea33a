//! The words with which the program is called.

ghost use Rattle.std.specs.Prelude.{◌≡◌, ◌≤◌, IfSome, IsSome, length};
ghost use Rattle.std.specs.Option.{option_map};
ghost use Rattle.counter_hooks.specs.RuleTexts.{rule_of};
ghost use Rattle.edge_hooks.specs.RuleTexts.{edge_rule_of};
ghost use Rattle.multiverse_cli.specs.Words.{asked, asked_of, assemble_words, check_words, counting_asked, counting_words, edges_or_none, extract_words, frame_words, image_words, input_count, is_name as is_name_of, IsRuled, HasRule, HasSize, list_words, made_words, named, number_of, number_within as number_within_of, one_option, option_edges, option_rule, rewrite_words, rule_or_none, sample_words, texts, trace_words, two_options, upgrade_words, work_of};

use crate::sample::LARGEST;
use counter_hooks::is_rule;
use edge_hooks::is_edge_rule;
use itoa::Buffer;

/// The texts of the rules by which a rewritten image is counted: that of executions, and that of the ways that branches and
/// loops go. Without a text nothing is counted.
#[derive(Clone, Copy)]
pub struct RuleTexts<'a> {
    pub all: Option<&'a str>,
    pub ways: Option<&'a str>,
}

/// What is done with the files that a command reads.
#[derive(Clone, Copy)]
pub enum Task<'a> {
    /// Write to `output` the rewritten image, which the one file holds, with the counters that the rules of these texts
    /// pick.
    Rewrite {
        output: &'a str,
        rules: RuleTexts<'a>,
    },
    /// Run the image, which the first file holds, on the log in the second, for at most `steps` steps.
    Trace {
        steps: u64,
    },
    /// List the sites of the image, which the one file holds.
    Listing,
    /// Write to `output` the rewritten sample of `number` with `size` bytes of code, from 1 to 1 MiB.
    Sample {
        number: u32,
        size: u32,
        output: &'a str,
    },
    /// Write to `output` the input of the rewritten file, which the one file is.
    Extract {
        output: &'a str,
    },
    /// Write to `output` the output of that input, by the rules that the rewritten file has.
    Upgrade {
        output: &'a str,
    },
    /// Look whether the second file is a rewriting of the image, which the first file holds.
    Check,
    /// Write to `output` the image that the source, which the one file is, assembles to.
    Assemble {
        output: &'a str,
    },
}

/// A command: the names of the store's files that it reads, in order, and what it does with them.
#[derive(Clone, Copy)]
pub struct Command<'a> {
    pub reads: &'a [String],
    pub task: Task<'a>,
}

/// The command that the words after the program's name are; `None` exactly where they are none.
pub fn read_command(words: &[String]) -> Option<Command<'_>>
    ensures is { option_map asked result ≡ asked_of (texts words.now) }
    ensures inputs { IfSome result (λ c. length c.reads.now ≡ input_count (work_of c.task)) }
    ensures sized { IfSome result (λ c. HasSize (work_of c.task)) }
    ensures ruled { IfSome result (λ c. HasRule c.task) }
{
    image_command(words).or_else(|| frame_command(words))
}

/// A command over an image: one that is read, or one that is made.
fn image_command(words: &[String]) -> Option<Command<'_>>
    ensures is { option_map asked result ≡ image_words (texts words.now) }
    ensures inputs { IfSome result (λ c. length c.reads.now ≡ input_count (work_of c.task)) }
    ensures sized { IfSome result (λ c. HasSize (work_of c.task)) }
    ensures ruled { IfSome result (λ c. HasRule c.task) }
{
    rewrite_command(words)
        .or_else(|| counting_command(words))
        .or_else(|| trace_command(words))
        .or_else(|| list_command(words))
        .or_else(|| made_command(words))
}

/// A command that makes an image: a sample, or what a source assembles to.
fn made_command(words: &[String]) -> Option<Command<'_>>
    ensures is { option_map asked result ≡ made_words (texts words.now) }
    ensures inputs { IfSome result (λ c. length c.reads.now ≡ input_count (work_of c.task)) }
    ensures sized { IfSome result (λ c. HasSize (work_of c.task)) }
    ensures ruled { IfSome result (λ c. HasRule c.task) }
{
    sample_command(words).or_else(|| assemble_command(words))
}

/// A command over what a rewrite wrote.
fn frame_command(words: &[String]) -> Option<Command<'_>>
    ensures is { option_map asked result ≡ frame_words (texts words.now) }
    ensures inputs { IfSome result (λ c. length c.reads.now ≡ input_count (work_of c.task)) }
    ensures sized { IfSome result (λ c. HasSize (work_of c.task)) }
    ensures ruled { IfSome result (λ c. HasRule c.task) }
{
    extract_command(words)
        .or_else(|| upgrade_command(words))
        .or_else(|| check_command(words))
}

/// `rewrite IN OUT`.
fn rewrite_command(words: &[String]) -> Option<Command<'_>>
    ensures is { option_map asked result ≡ rewrite_words (texts words.now) }
    ensures inputs { IfSome result (λ c. length c.reads.now ≡ input_count (work_of c.task)) }
    ensures sized { IfSome result (λ c. HasSize (work_of c.task)) }
    ensures ruled { IfSome result (λ c. HasRule c.task) }
{
    match words {
        [command, input, output]
            if command.as_str() == "rewrite"
                && is_name(input.as_str())
                && is_name(output.as_str()) => {
            Some(Command {
                reads: &words[1..2],
                task: Task::Rewrite {
                    output: output.as_str(),
                    rules: RuleTexts {
                        all: None,
                        ways: None,
                    },
                },
            })
        }
        _ => None,
    }
}

/// `rewrite IN OUT --count=RULE`, `rewrite IN OUT --edges=ERULE`, or both options in this order.
fn counting_command(words: &[String]) -> Option<Command<'_>>
    ensures is { option_map asked result ≡ counting_words (texts words.now) }
    ensures inputs { IfSome result (λ c. length c.reads.now ≡ input_count (work_of c.task)) }
    ensures sized { IfSome result (λ c. HasSize (work_of c.task)) }
    ensures ruled { IfSome result (λ c. HasRule c.task) }
{
    match words {
        [command, input, output, option] if is_name(input.as_str()) => counting(
            command.as_str(),
            &words[1..2],
            output.as_str(),
            one_rule(option.as_str()),
        ),
        [command, input, output, count, ways] if is_name(input.as_str()) => counting(
            command.as_str(),
            &words[1..2],
            output.as_str(),
            two_rules(count.as_str(), ways.as_str()),
        ),
        _ => None,
    }
}

/// The command of these words, where the one file that is read has a name.
#[tactic(auto, unfolding(crate::specs::Words::counting_asked))]
fn counting<'a>(
    command: &str,
    reads: &'a [String],
    output: &'a str,
    rules: Option<RuleTexts<'a>>,
) -> Option<Command<'a>>
    requires reads { length reads.now ≡ 1 }
    requires ruled { IfSome rules IsRuled }
    ensures is { option_map asked result ≡ counting_asked command.now (texts reads.now) output.now
        (option_map named rules.entry) }
    ensures inputs { IfSome result (λ c. length c.reads.now ≡ input_count (work_of c.task)) }
    ensures sized { IfSome result (λ c. HasSize (work_of c.task)) }
    ensures ruled { IfSome result (λ c. HasRule c.task) }
{
    if command != "rewrite" || !is_name(output) {
        return None;
    }
    let rules = rules?;
    Some(Command {
        reads,
        task: Task::Rewrite { output, rules },
    })
}

/// The rules of one word, `--count=RULE` or `--edges=ERULE`; `None` where it is neither.
#[tactic(auto, unfolding(crate::specs::Words::one_option))]
fn one_rule(option: &str) -> Option<RuleTexts<'_>>
    ensures is { option_map named result ≡ one_option option.now }
    ensures ruled { IfSome result IsRuled }
{
    match counted(option) {
        Some(all) => Some(RuleTexts {
            all: Some(all),
            ways: None,
        }),
        None => {
            let ways = edges(option)?;
            Some(RuleTexts {
                all: None,
                ways: Some(ways),
            })
        }
    }
}

/// The rules of the words `--count=RULE` and `--edges=ERULE`; `None` where one of them isn't so.
#[tactic(auto, unfolding(crate::specs::Words::two_options))]
fn two_rules<'a>(count: &'a str, ways: &'a str) -> Option<RuleTexts<'a>>
    ensures is { option_map named result ≡ two_options count.now ways.now }
    ensures ruled { IfSome result IsRuled }
{
    let all = counted(count)?;
    let ways = edges(ways)?;
    Some(RuleTexts {
        all: Some(all),
        ways: Some(ways),
    })
}

/// The text of the rule of a word `--count=RULE`; `None` where it is no such word.
#[tactic(auto, unfolding(crate::specs::Words::option_rule))]
fn counted(option: &str) -> Option<&str>
    ensures is { option_map (λ text. rule_or_none text.now) result ≡ option_rule option.now }
    ensures ruled { IfSome result (λ text. IsSome (rule_of text.now)) }
{
    let text = option.strip_prefix("--count=")?;
    if is_rule(text) { Some(text) } else { None }
}

/// The text of the edge rule of a word `--edges=ERULE`; `None` where it is no such word.
#[tactic(auto, unfolding(crate::specs::Words::option_edges))]
fn edges(option: &str) -> Option<&str>
    ensures is { option_map (λ text. edges_or_none text.now) result ≡ option_edges option.now }
    ensures ruled { IfSome result (λ text. IsSome (edge_rule_of text.now)) }
{
    let text = option.strip_prefix("--edges=")?;
    if is_edge_rule(text) { Some(text) } else { None }
}

/// `trace IN LOG STEPS`.
fn trace_command(words: &[String]) -> Option<Command<'_>>
    ensures is { option_map asked result ≡ trace_words (texts words.now) }
    ensures inputs { IfSome result (λ c. length c.reads.now ≡ input_count (work_of c.task)) }
    ensures sized { IfSome result (λ c. HasSize (work_of c.task)) }
    ensures ruled { IfSome result (λ c. HasRule c.task) }
{
    match words {
        [command, input, log, steps]
            if command.as_str() == "trace" && is_name(input.as_str()) && is_name(log.as_str()) => {
            let steps = number(steps.as_str())?;
            Some(Command {
                reads: &words[1..3],
                task: Task::Trace { steps },
            })
        }
        _ => None,
    }
}

/// `list IN`.
fn list_command(words: &[String]) -> Option<Command<'_>>
    ensures is { option_map asked result ≡ list_words (texts words.now) }
    ensures inputs { IfSome result (λ c. length c.reads.now ≡ input_count (work_of c.task)) }
    ensures sized { IfSome result (λ c. HasSize (work_of c.task)) }
    ensures ruled { IfSome result (λ c. HasRule c.task) }
{
    match words {
        [command, input] if command.as_str() == "list" && is_name(input.as_str()) => {
            Some(Command {
                reads: &words[1..2],
                task: Task::Listing,
            })
        }
        _ => None,
    }
}

/// `sample NUMBER SIZE OUT`.
fn sample_command(words: &[String]) -> Option<Command<'_>>
    ensures is { option_map asked result ≡ sample_words (texts words.now) }
    ensures inputs { IfSome result (λ c. length c.reads.now ≡ input_count (work_of c.task)) }
    ensures sized { IfSome result (λ c. HasSize (work_of c.task)) }
    ensures ruled { IfSome result (λ c. HasRule c.task) }
{
    match words {
        [command, number, size, output]
            if command.as_str() == "sample" && is_name(output.as_str()) => {
            let number = number_within(0, u32::MAX, number.as_str())?;
            let size = number_within(1, LARGEST, size.as_str())?;
            Some(Command {
                reads: &words[..0],
                task: Task::Sample {
                    number,
                    size,
                    output: output.as_str(),
                },
            })
        }
        _ => None,
    }
}

/// `extract IN OUT`.
fn extract_command(words: &[String]) -> Option<Command<'_>>
    ensures is { option_map asked result ≡ extract_words (texts words.now) }
    ensures inputs { IfSome result (λ c. length c.reads.now ≡ input_count (work_of c.task)) }
    ensures sized { IfSome result (λ c. HasSize (work_of c.task)) }
    ensures ruled { IfSome result (λ c. HasRule c.task) }
{
    match words {
        [command, input, output]
            if command.as_str() == "extract"
                && is_name(input.as_str())
                && is_name(output.as_str()) => {
            Some(Command {
                reads: &words[1..2],
                task: Task::Extract {
                    output: output.as_str(),
                },
            })
        }
        _ => None,
    }
}

/// `upgrade IN OUT`.
fn upgrade_command(words: &[String]) -> Option<Command<'_>>
    ensures is { option_map asked result ≡ upgrade_words (texts words.now) }
    ensures inputs { IfSome result (λ c. length c.reads.now ≡ input_count (work_of c.task)) }
    ensures sized { IfSome result (λ c. HasSize (work_of c.task)) }
    ensures ruled { IfSome result (λ c. HasRule c.task) }
{
    match words {
        [command, input, output]
            if command.as_str() == "upgrade"
                && is_name(input.as_str())
                && is_name(output.as_str()) => {
            Some(Command {
                reads: &words[1..2],
                task: Task::Upgrade {
                    output: output.as_str(),
                },
            })
        }
        _ => None,
    }
}

/// `check IN OUT`.
fn check_command(words: &[String]) -> Option<Command<'_>>
    ensures is { option_map asked result ≡ check_words (texts words.now) }
    ensures inputs { IfSome result (λ c. length c.reads.now ≡ input_count (work_of c.task)) }
    ensures sized { IfSome result (λ c. HasSize (work_of c.task)) }
    ensures ruled { IfSome result (λ c. HasRule c.task) }
{
    match words {
        [command, input, output]
            if command.as_str() == "check" && is_name(input.as_str()) && is_name(output.as_str()) =>
            {
                Some(Command {
                    reads: &words[1..3],
                    task: Task::Check,
                })
            }
        _ => None,
    }
}

/// `assemble SRC OUT`.
fn assemble_command(words: &[String]) -> Option<Command<'_>>
    ensures is { option_map asked result ≡ assemble_words (texts words.now) }
    ensures inputs { IfSome result (λ c. length c.reads.now ≡ input_count (work_of c.task)) }
    ensures sized { IfSome result (λ c. HasSize (work_of c.task)) }
    ensures ruled { IfSome result (λ c. HasRule c.task) }
{
    match words {
        [command, source, output]
            if command.as_str() == "assemble"
                && is_name(source.as_str())
                && is_name(output.as_str()) => {
            Some(Command {
                reads: &words[1..2],
                task: Task::Assemble {
                    output: output.as_str(),
                },
            })
        }
        _ => None,
    }
}

/// Whether a word is a name: not empty, and with no `--` at its start.
fn is_name(word: &str) -> bool
    ensures { result ≡ is_name_of word.now }
{
    !word.is_empty() && !word.starts_with("--")
}

/// The number of which a word is the decimal; `None` where it is none below 2^64.
fn number(word: &str) -> Option<u64>
    ensures { result ≡ number_of word.now }
{
    let number = word.parse::<u64>().ok()?;
    let mut buffer = Buffer::new();
    if buffer.format(number) == word {
        Some(number)
    } else {
        None
    }
}

/// The number from `low` to `high` of which a word is the decimal; `None` where it is none.
fn number_within(low: u32, high: u32, word: &str) -> Option<u32>
    ensures is { result ≡ number_within_of low high word.now }
    ensures within { IfSome result (λ n. (low ≤ n) × (n ≤ high)) }
{
    let number = u32::try_from(number(word)?).ok()?;
    if low <= number && number <= high {
        Some(number)
    } else {
        None
    }
}
