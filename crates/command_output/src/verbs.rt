//! The words of a verb.

ghost use Rattle.std.specs.Prelude.{◌≡◌};
ghost use Rattle.command_output.specs.Verbs.{two_words, words_of};
ghost use Rattle.command_output.specs.VerbsTerms.{two_words_seen};

/// The two words after a verb, neither of them empty, and those that follow them.
#[derive(Debug, Drop)]
pub struct TwoWords<'a> {
    /// The first.
    pub first: &'a str,
    /// The second.
    pub second: &'a str,
    /// Those that follow them.
    pub more: &'a [String],
}

/// The two words after a verb, and those that follow them; none where the first of these words is
/// another, or one of the two is empty or missing.
pub fn two_words_after<'a>(name: &str, words: &'a [String]) -> Option<TwoWords<'a>>
    ensures { two_words_seen result ≡ two_words name.now (words_of words.now) }
{
    if words.len() < 3 {
        return None;
    }
    let (verb, first, second) = (words[0].as_str(), words[1].as_str(), words[2].as_str());
    if verb == name && !first.is_empty() && !second.is_empty() {
        return Some(TwoWords {
            first,
            second,
            more: words.split_at(3).1,
        });
    }
    None
}
