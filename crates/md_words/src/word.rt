// The words of the program.
ghost use Rattle.std.specs.Prelude.{◌≡◌, [], ◌∷◌, ◌<◌, length, IfOk, MatchOption};
ghost use Rattle.md_words.specs.Words.{texts, spaced, begins_with_dash};

use crate::Utf8;
use std::alloc::{AllocError, Global};

/// The words with a space between each two, as one text.
pub fn spaced(alloc: Global, words: &[String]) -> Result<Utf8, AllocError>
    ensures { IfOk result (λ made. made ≡ spaced (texts words.now)) }
{
    let text = words.join(alloc, " ")?;
    Ok(Utf8::from_string(text))
}

/// The first word, and the others.
pub fn first_word(words: &[String]) -> Option<(&str, &[String])>
    ensures cases { MatchOption result
        (texts words.now ≡ [])
        (λ p. (texts words.now ≡ p.0.now ∷ texts p.1.now) × (length p.1.now < length words.now)) }
{
    let (word, rest) = words.split_first()?;
    Some((word.as_str(), rest))
}

/// Whether it begins with `-`.
#[tactic(auto, unfolding(crate::specs::Words::begins_with_dash))]
pub fn begins_with_dash(word: &str) -> bool
    ensures { result ≡ begins_with_dash word.now }
{
    match word.as_bytes() {
        [] => false,
        [first, ..] => *first == b'-',
    }
}
