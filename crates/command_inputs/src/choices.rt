//! The choices, the schedule and the events that the words give: numbers joined by commas.

ghost use Rattle.std.specs.Prelude.{◌≡◌, ◌==◌, ◌<◌, IfOk, IfSome, length, map};
ghost use Rattle.std.specs.List.{list_all, slice_split};
ghost use Rattle.command_inputs.specs.ChoiceWords.{choices_after, choices_in, events_in, is_entry, numbers_up_to, picks_after, picks_with, schedule_in};
ghost use Rattle.command_inputs.specs.ChoiceWordsTerms.{items_of, picks_seen};
ghost use Rattle.command_output.specs.Verbs.{words_of};

use crate::limits::{MAX_CHOICES, MAX_SCHEDULE};
use std::alloc::{AllocError, Global};
use trace_replay::number_of_word;

/// The parts of a text between its commas.
fn parts_of(alloc: Global, text: &str) -> Result<Vec<&str>, AllocError>
    ensures { IfOk result (λ parts. map (λ part. part.now) parts.items
        ≡ slice_split (λ byte. byte == 44) text.now) }
{
    text.split(',').collect(alloc)
}

/// The numbers that a text gives, if it is 1 to so many of them joined by commas.
fn numbers_of(alloc: Global, text: &str, most: usize) -> Result<Option<Vec<u32>>, AllocError>
    ensures { IfOk result (λ numbers. items_of numbers ≡ numbers_up_to most text.now) }
{
    let parts = parts_of(alloc, text)?;
    if parts.len() > most {
        return Ok(None);
    }
    let mut numbers = Vec::new(alloc);
    for part in &parts {
        match number_of_word(*part) {
            Some(number) => numbers.push(number)?,
            None => return Ok(None),
        }
    }
    Ok(Some(numbers))
}

/// The choices that a text gives, if it is 1 to 4,096 numbers joined by commas.
pub fn choices_of(alloc: Global, text: &str) -> Result<Option<Vec<u32>>, AllocError>
    ensures { IfOk result (λ choices. items_of choices ≡ choices_in text.now) }
{
    numbers_of(alloc, text, MAX_CHOICES)
}

/// Whether all numbers are from 1 on.
fn are_entries(numbers: &[u32]) -> bool
    ensures { result ≡ list_all is_entry numbers.now }
{
    numbers.iter().all(|number| *number != 0)
}

/// The schedule that a text gives, if it is 1 to 65,536 numbers from 1 on joined by commas.
pub fn schedule_of(alloc: Global, text: &str) -> Result<Option<Vec<u32>>, AllocError>
    ensures { IfOk result (λ schedule. items_of schedule ≡ schedule_in text.now) }
{
    let Some(numbers) = numbers_of(alloc, text, MAX_SCHEDULE)? else {
        return Ok(None);
    };
    if !are_entries(numbers.as_slice()) {
        return Ok(None);
    }
    Ok(Some(numbers))
}

/// The events of an update that a text gives, if it is 1 to 65,536 numbers joined by commas.
pub fn events_of(alloc: Global, text: &str) -> Result<Option<Vec<u32>>, AllocError>
    ensures { IfOk result (λ events. items_of events ≡ events_in text.now) }
{
    numbers_of(alloc, text, MAX_SCHEDULE)
}

/// The choices that may follow the words of a command, if these are the words that follow them:
/// none, or one of choices. Where there is none, each decision takes its first member.
pub fn choices_of_words(alloc: Global, words: &[String]) -> Result<Option<Vec<u32>>, AllocError>
    ensures spelled { IfOk result (λ choices. items_of choices
        ≡ choices_after (words_of words.now)) }
    ensures some { IfOk result (λ choices. IfSome choices (λ all. 0 < length all.items)) }
{
    match words {
        [] => Ok(Some(vec![in alloc; 0]?)),
        [choices] => choices_of(alloc, choices.as_str()),
        _ => Ok(None),
    }
}

/// The choices that may follow the words of a command, and the schedule that may follow them.
#[derive(Debug, Drop)]
pub struct Picks {
    /// The choices that each packet takes, at least one.
    pub choices: Vec<u32>,
    /// The numbers of the packets whose turns come first, one after the other.
    pub schedule: Vec<u32>,
}

/// What a text of choices and a schedule give.
fn picks_of(
    alloc: Global,
    choices: &str,
    schedule: Option<Vec<u32>>,
) -> Result<Option<Picks>, AllocError>
    ensures spelled { IfOk result (λ picks. picks_seen picks
        ≡ picks_with (choices_in choices.now) (items_of schedule)) }
    ensures some { IfOk result (λ picks. IfSome picks (λ p. 0 < length p.choices.items)) }
{
    let Some(choices) = choices_of(alloc, choices)? else {
        return Ok(None);
    };
    match schedule {
        Some(schedule) => Ok(Some(Picks { choices, schedule })),
        None => Ok(None),
    }
}

/// The choices and the schedule that may follow the words of a command, if these are the words
/// that follow them: none, one of choices, or one of choices and one of a schedule.
pub fn picks_of_words(alloc: Global, words: &[String]) -> Result<Option<Picks>, AllocError>
    ensures spelled { IfOk result (λ picks. picks_seen picks ≡ picks_after (words_of words.now)) }
    ensures some { IfOk result (λ picks. IfSome picks (λ p. 0 < length p.choices.items)) }
{
    match words {
        [] => Ok(Some(Picks {
            choices: vec![in alloc; 0]?,
            schedule: Vec::new(alloc),
        })),
        [choices] => picks_of(alloc, choices.as_str(), Some(Vec::new(alloc))),
        [choices, schedule] => {
            picks_of(
                alloc,
                choices.as_str(),
                schedule_of(alloc, schedule.as_str())?,
            )
        }
        _ => Ok(None),
    }
}
