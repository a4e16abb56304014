//! The words of `update`.

ghost use Rattle.std.specs.Prelude.{◌≡◌, IfOk};
ghost use Rattle.command_inputs.specs.ChoiceWordsTerms.{items_of};
ghost use Rattle.command_output.specs.Verbs.{words_of};
ghost use Rattle.update_commands.specs.UpdateCommand.{update_words, words_with};
ghost use Rattle.update_commands.specs.UpdateCommandTerms.{update_asked};

use command_inputs::events_of;
use command_output::{TwoWords, two_words_after};
use std::alloc::{AllocError, Global};

/// What the words of `update` ask for.
#[derive(Debug, Drop)]
pub struct UpdateWords<'a> {
    /// The old description's name.
    pub old: &'a str,
    /// The new one's name.
    pub new: &'a str,
    /// The intent's name.
    pub intent: &'a str,
    /// The events: 0 is an edit, and another number a stage of the packet of that number.
    pub events: Vec<u32>,
}

/// What two files, an intent's word and events ask for.
fn with_intent<'a>(
    files: TwoWords<'a>,
    intent: &'a str,
    events: Option<Vec<u32>>,
) -> Option<UpdateWords<'a>>
    ensures { update_asked result ≡ words_with (record {
      first = files.entry.first.now;
      second = files.entry.second.now;
      more = words_of files.entry.more.now;
    }) intent.now (items_of events) }
{
    let Some(events) = events else {
        return None;
    };
    if intent.is_empty() {
        return None;
    }
    Some(UpdateWords {
        old: files.first,
        new: files.second,
        intent,
        events,
    })
}

/// What these words ask for, if they are those of `update`.
pub fn update_of_words(
    alloc: Global,
    words: &[String],
) -> Result<Option<UpdateWords<'_>>, AllocError>
    ensures { IfOk result (λ asked. update_asked asked ≡ update_words (words_of words.now)) }
{
    let Some(files) = two_words_after("update", words) else {
        return Ok(None);
    };
    match files.more {
        [intent] => Ok(with_intent(files, intent.as_str(), Some(Vec::new(alloc)))),
        [intent, events] => {
            let events = events_of(alloc, events.as_str())?;
            Ok(with_intent(files, intent.as_str(), events))
        }
        _ => Ok(None),
    }
}
