//! Which words are accepted, and what they ask for.

ghost use Rattle.std.specs.Prelude.{◌≡◌, ◌≤◌, IfSome, MatchOption, Some, None};
ghost use Rattle.sch_words.specs.Commands.{command_of, expansion_of, following_of, following_to, is_file_name, is_of_phase, measuring_of, notice_of, of_one_name, of_option, of_three_names, shown, summary_of, undo_depth_of, validation_of, watching_of};
ghost use Rattle.sch_words.specs.declared.count.TheConstants.{MAX_UNDO_DEPTH};

use crate::asked::{ScriptedValidation, Validation, Watching};
use crate::count::{count_of, depth_of};
use crate::notice::Notice;
use sch_base::Text;

/// The phase where none is named: the one that the schema chooses.
pub const DEFAULT_PHASE: &str = "#DEFAULT";

/// What accepted words ask for.
#[derive(Drop)]
pub enum Command<'a> {
    /// Write what the program says of itself.
    Tell(Notice),
    /// Write the schema expanded.
    Expand { schema: &'a Text },
    /// Validate a document, and write the report.
    Validate(Validation<'a>),
    /// Validate a document, and again after each command of an edit script; write each report.
    Follow(ScriptedValidation<'a>),
    /// Follow the script of a document with so many items, both made for that, and write counts of the first state and the last one.
    Measure { items: u32 },
    /// Sum up a report.
    Summarize { report: &'a Text },
    /// Evaluate watched expressions over a document, and again after each command of an edit script; write what they give.
    Watch(Watching<'a>),
}

/// Whether a word may name a file: it is not empty and does not begin with `-`.
fn is_file_name(word: &Text) -> bool
    ensures { result ≡ is_file_name word.now }
{
    let word = word.as_str();
    !word.is_empty() && !word.starts_with('-')
}

/// Whether the words name a phase.
fn is_of_phase(option: &Text, phase: &Text) -> bool
    ensures { result ≡ is_of_phase option.now phase.now }
{
    option.as_str() == "--phase" && !phase.as_str().is_empty()
}

/// The notice that the word asks for.
fn notice_of(word: &Text) -> Option<Command<'_>>
    ensures { MatchOption result (notice_of word.now ≡ None) (λ command. notice_of word.now ≡ Some (shown command)) }
{
    match word.as_str() {
        "--help" => Some(Command::Tell(Notice::Help)),
        "--version" => Some(Command::Tell(Notice::Version)),
        _ => None,
    }
}

/// The expansion that the words ask for.
fn expansion_of<'a>(verb: &Text, schema: &'a Text) -> Option<Command<'a>>
    ensures { MatchOption result (expansion_of verb.now schema.now ≡ None) (λ command. expansion_of verb.now schema.now ≡ Some (shown command)) }
{
    if verb.as_str() == "expand" && is_file_name(schema) {
        Some(Command::Expand { schema })
    } else {
        None
    }
}

/// The measure that the word asks for.
fn measuring_of(count: &Text) -> Option<Command<'_>>
    ensures { MatchOption result (measuring_of count.now ≡ None) (λ command. measuring_of count.now ≡ Some (shown command)) }
{
    match count_of(count.as_str()) {
        Some(items) => Some(Command::Measure { items }),
        None => None,
    }
}

/// The summary that the word asks for.
fn summary_of(report: &Text) -> Option<Command<'_>>
    ensures { MatchOption result (summary_of report.now ≡ None) (λ command. summary_of report.now ≡ Some (shown command)) }
{
    if is_file_name(report) {
        Some(Command::Summarize { report })
    } else {
        None
    }
}

/// What a verb and a word behind it ask for.
fn of_one_name<'a>(verb: &Text, word: &'a Text) -> Option<Command<'a>>
    ensures { MatchOption result (of_one_name verb.now word.now ≡ None) (λ command. of_one_name verb.now word.now ≡ Some (shown command)) }
{
    if verb.as_str() == "measure" {
        measuring_of(word)
    } else if verb.as_str() == "summary" {
        summary_of(word)
    } else {
        expansion_of(verb, word)
    }
}

/// The validation that the words ask for.
fn validation_of<'a>(verb: &Text, asked: Validation<'a>) -> Option<Command<'a>>
    ensures { MatchOption result (validation_of verb.now asked.entry.phase.now asked.entry.schema.now asked.entry.document.now ≡ None)
        (λ command. validation_of verb.now asked.entry.phase.now asked.entry.schema.now asked.entry.document.now ≡ Some (shown command)) }
{
    if verb.as_str() == "validate" && is_file_name(asked.schema) && is_file_name(asked.document) {
        Some(Command::Validate(asked))
    } else {
        None
    }
}

/// How many edits can be undone, as the words say it.
fn undo_depth_of(option: &Text, word: &Text) -> Option<u32>
    ensures depth { result ≡ undo_depth_of option.now word.now }
    ensures within { IfSome result (λ undos. undos ≤ MAX_UNDO_DEPTH) }
{
    if option.as_str() == "--undo" {
        depth_of(word.as_str())
    } else {
        None
    }
}

/// The script that the words ask to follow.
fn following_of<'a>(verb: &Text, asked: ScriptedValidation<'a>) -> Option<Command<'a>>
    ensures { MatchOption result (following_of asked.entry.undos verb.now asked.entry.validation.phase.now asked.entry.validation.schema.now asked.entry.validation.document.now asked.entry.script.now ≡ None)
        (λ command. following_of asked.entry.undos verb.now asked.entry.validation.phase.now asked.entry.validation.schema.now asked.entry.validation.document.now asked.entry.script.now ≡ Some (shown command)) }
{
    if verb.as_str() == "follow"
        && is_file_name(asked.validation.schema)
        && is_file_name(asked.validation.document)
        && is_file_name(asked.script)
    {
        Some(Command::Follow(asked))
    } else {
        None
    }
}

/// The script that the words ask to follow, where an option and its word say how many edits can be undone.
fn following_to<'a>(
    verb: &Text,
    option: &Text,
    word: &Text,
    validation: Validation<'a>,
    script: &'a Text,
) -> Option<Command<'a>>
    ensures { MatchOption result (following_to (undo_depth_of option.now word.now) verb.now validation.entry.phase.now validation.entry.schema.now validation.entry.document.now script.now ≡ None)
        (λ command. following_to (undo_depth_of option.now word.now) verb.now validation.entry.phase.now validation.entry.schema.now validation.entry.document.now script.now ≡ Some (shown command)) }
{
    match undo_depth_of(option, word) {
        Some(undos) => following_of(
            verb,
            ScriptedValidation {
                validation,
                script,
                undos,
            },
        ),
        None => None,
    }
}

/// What the words ask to watch.
fn watching_of(asked: Watching<'_>) -> Option<Command<'_>>
    ensures { MatchOption result (watching_of asked.entry.watches.now asked.entry.document.now asked.entry.script.now ≡ None)
        (λ command. watching_of asked.entry.watches.now asked.entry.document.now asked.entry.script.now ≡ Some (shown command)) }
{
    if is_file_name(asked.watches) && is_file_name(asked.document) && is_file_name(asked.script) {
        Some(Command::Watch(asked))
    } else {
        None
    }
}

/// What a verb and three words behind it ask for.
fn of_three_names<'a>(
    verb: &Text,
    first: &'a Text,
    document: &'a Text,
    script: &'a Text,
) -> Option<Command<'a>>
    ensures { MatchOption result (of_three_names verb.now first.now document.now script.now ≡ None)
        (λ command. of_three_names verb.now first.now document.now script.now ≡ Some (shown command)) }
{
    if verb.as_str() == "watch" {
        let watches = first;
        return watching_of(Watching {
            watches,
            document,
            script,
        });
    }
    let validation = Validation {
        phase: DEFAULT_PHASE,
        schema: first,
        document,
    };
    let undos = 0;
    let asked = ScriptedValidation {
        validation,
        script,
        undos,
    };
    following_of(verb, asked)
}

/// What a verb, an option and its word, and three words behind them ask for.
fn of_option<'a>(
    verb: &Text,
    option: &Text,
    word: &'a Text,
    schema: &'a Text,
    document: &'a Text,
    script: &'a Text,
) -> Option<Command<'a>>
    ensures { MatchOption result (of_option verb.now option.now word.now schema.now document.now script.now ≡ None)
        (λ command. of_option verb.now option.now word.now schema.now document.now script.now ≡ Some (shown command)) }
{
    if is_of_phase(option, word) {
        let phase = word.as_str();
        let validation = Validation {
            phase,
            schema,
            document,
        };
        let undos = 0;
        return following_of(
            verb,
            ScriptedValidation {
                validation,
                script,
                undos,
            },
        );
    }
    let phase = DEFAULT_PHASE;
    let validation = Validation {
        phase,
        schema,
        document,
    };
    following_to(verb, option, word, validation, script)
}

/// What the words ask for, or None where they are not accepted.
pub fn command_of(words: &[Text]) -> Option<Command<'_>>
    ensures { MatchOption result (command_of words.now ≡ None) (λ command. command_of words.now ≡ Some (shown command)) }
{
    match words {
        [word] => notice_of(word),
        [verb, word] => of_one_name(verb, word),
        [verb, schema, document] => {
            let phase = DEFAULT_PHASE;
            let asked = Validation {
                phase,
                schema,
                document,
            };
            validation_of(verb, asked)
        }
        [verb, first, document, script] => of_three_names(verb, first, document, script),
        [verb, option, phase, schema, document] if is_of_phase(option, phase) => {
            let phase = phase.as_str();
            let asked = Validation {
                phase,
                schema,
                document,
            };
            validation_of(verb, asked)
        }
        [verb, option, word, schema, document, script] => {
            of_option(verb, option, word, schema, document, script)
        }
        [verb, option, phase, other, word, schema, document, script]
            if is_of_phase(option, phase) => {
            let phase = phase.as_str();
            let validation = Validation {
                phase,
                schema,
                document,
            };
            following_to(verb, other, word, validation, script)
        }
        _ => None,
    }
}
