// Reading the words of the command line.
ghost use Rattle.std.specs.Prelude.{◌≡◌, ◌∷◌, ◌≤◌, length, Some, IfSome, IfOk};
ghost use Rattle.go_run.specs.declared.wanted.Verb.{Verb as AnyVerb};
ghost use Rattle.go_run.specs.declared.limits.TheConstants.{SCRIPTS};
ghost use Rattle.go_api.specs.Limits.{IsSetup};
ghost use Rattle.go_run.specs.Words.{IsAskedBy, OverAsked, log_asked};
ghost use Rattle.go_run.specs.Found.{kept_of, kept_in, nothing_kept, Reads, StepsOver, asked_in, word_of_verb};

use crate::found::Found;
use crate::setting::{Word, word_of};
use crate::wanted::{Verb, Wanted, wanted_by};
use go_text::Text;
use std::alloc::{AllocError, Global};

/// The name of the log file that the words of the command line, without the program's name, ask for; `None` exactly where they
/// are no words of the program.
pub fn log_name(alloc: Global, words: &[Text]) -> Result<Option<Text>, AllocError>
    ensures { IfOk result (λ name. OverAsked words.now (λ asked. name ≡ log_asked asked)) }
{
    match read_words(words) {
        Some(wanted) => Ok(Some(Text::of(alloc, wanted.log)?)),
        None => Ok(None),
    }
}

/// What the words ask for; `None` where they ask for nothing.
pub fn read_words(words: &[Text]) -> Option<Wanted<'_>>
    ensures asked { IsAskedBy words.now (asked_in result) }
    ensures setup { IfSome result (λ wanted. IsSetup wanted.setup) }
{
    let (command, others) = words.split_first()?;
    let verb = verb_of(command)?;
    wanted_by(verb, find_all(others)?)
}

// The command that a word is.
fn verb_of(word: &Text) -> Option<Verb>
    ensures some { IfSome result (λ verb. word.now ≡ word_of_verb verb) }
    ensures alone { (verb : AnyVerb) → word.now ≡ word_of_verb verb → result ≡ Some verb }
{
    match word.as_text() {
        "drive" => Some(Verb::Drive),
        "gen" => Some(Verb::Generate),
        _ => None,
    }
}

// What all these words choose and name.
fn find_all(words: &[Text]) -> Option<Found<'_>>
    ensures reads { Reads nothing_kept words.now (kept_in result) }
    ensures few { IfSome result (λ found. length (kept_of found).files ≤ SCRIPTS) }
{
    let mut found = Found::nothing();
    let mut left = words;
    loop {
        let Some((word, rest)) = left.split_first() else {
            return Some(found);
        };
        let Some((more, behind)) = take_part(found, word, rest) else {
            return None;
        };
        found = more;
        left = behind;
    }
}

// Adds what the first words write to what was found, and gives the words behind them.
fn take_part<'a>(
    found: Found<'a>,
    word: &'a Text,
    rest: &'a [Text],
) -> Option<(Found<'a>, &'a [Text])>
    ensures { StepsOver (kept_of found.entry) (word.now ∷ rest.now) result }
{
    match word_of(word.as_text()) {
        Word::File => Some((found.with_file(word)?, rest)),
        Word::Name(setting) => {
            let (value, behind) = rest.split_first()?;
            Some((found.with(setting, value.as_text())?, behind))
        }
        Word::Choice(setting, value) => Some((found.with(setting, value)?, rest)),
        Word::Unknown => None,
    }
}
