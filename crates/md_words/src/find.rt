// The options of `mdfind`.
ghost use Rattle.std.specs.Prelude.{◌≡◌, ◌≤◌, ◌∷◌, true, false, length, IfOk, IfSome, Some, None, codes, bytes_eq, is_none, not, if◌then◌else◌};
ghost use Rattle.std.specs.Option.{option_map, option_and_then, option_or};
ghost use Rattle.md_words.specs.Words.{texts, begins_with_dash};
ghost use Rattle.md_words.specs.Find.{flag_of, before, read_from, option, dir, text, no_options, with_option, find_options_of};

use crate::files::path_of;
use crate::once::{set_flag, set_once};
use crate::word::{begins_with_dash, first_word};
use crate::{Mode, Utf8};
use md_value::Path;
use std::alloc::{AllocError, Global};

/// What one option of `mdfind` says.
#[derive(Drop)]
pub enum FindWord {
    /// `-0`
    Zero,
    /// `-count`
    Count,
    /// `-onlyin DIR`
    OnlyIn(Path),
    /// `-name TEXT`
    Name(Utf8),
    /// `-literal` or `-interpret`
    Mode(Mode),
}

#[tactic(auto, unfolding(crate::specs::Find::flag_of))]
fn flag_of(word: &str) -> Option<FindWord>
    ensures { result ≡ flag_of word.now }
{
    if word == "-0" {
        return Some(FindWord::Zero);
    }
    if word == "-count" {
        return Some(FindWord::Count);
    }
    if word == "-literal" {
        return Some(FindWord::Mode(Mode::Literal));
    }
    if word == "-interpret" {
        return Some(FindWord::Mode(Mode::Plain));
    }
    None
}

// The DIR of `-onlyin`, and the words after it.
fn only_in<'a>(
    alloc: Global,
    words: &'a [String],
) -> Result<Option<(FindWord, &'a [String])>, AllocError>
    ensures value { IfOk result (λ r. read_from dir (texts words.now) ≡ option_and_then (λ p. before p.0 (read_from option (texts p.1.now))) r) }
    ensures shorter { IfOk result (λ r. IfSome r (λ p. length p.1.now ≤ length words.now)) }
{
    let Some((word, rest)) = first_word(words) else {
        return Ok(None);
    };
    match path_of(alloc, word)? {
        Some(scope) => Ok(Some((FindWord::OnlyIn(scope), rest))),
        None => Ok(None),
    }
}

// The TEXT of `-name`, and the words after it.
fn named<'a>(
    alloc: Global,
    words: &'a [String],
) -> Result<Option<(FindWord, &'a [String])>, AllocError>
    ensures value { IfOk result (λ r. read_from text (texts words.now) ≡ option_and_then (λ p. before p.0 (read_from option (texts p.1.now))) r) }
    ensures shorter { IfOk result (λ r. IfSome r (λ p. length p.1.now ≤ length words.now)) }
{
    let Some((word, rest)) = first_word(words) else {
        return Ok(None);
    };
    Ok(Some((FindWord::Name(Utf8::of(alloc, word)?), rest)))
}

// The option that the word begins, and the words after it.
fn option_of<'a>(
    alloc: Global,
    word: &str,
    words: &'a [String],
) -> Result<Option<(FindWord, &'a [String])>, AllocError>
    requires not_end { bytes_eq word.now (codes "--") ≡ false }
    requires dash { begins_with_dash word.now ≡ true }
    ensures value { IfOk result (λ r. read_from option (word.now ∷ texts words.now) ≡ option_and_then (λ p. before p.0 (read_from option (texts p.1.now))) r) }
    ensures shorter { IfOk result (λ r. IfSome r (λ p. length p.1.now ≤ length words.now)) }
{
    if word == "-onlyin" {
        return only_in(alloc, words);
    }
    if word == "-name" {
        return named(alloc, words);
    }
    match flag_of(word) {
        Some(flag) => Ok(Some((flag, words))),
        None => Ok(None),
    }
}

/// What the options of `mdfind` say.
#[derive(Drop)]
pub struct FindOptions {
    pub zero: bool,
    pub count: bool,
    pub scope: Option<Path>,
    pub name: Option<Utf8>,
    pub mode: Option<Mode>,
}

impl FindOptions {
    fn new() -> FindOptions
        ensures { result ≡ no_options }
    {
        FindOptions {
            zero: false,
            count: false,
            scope: None,
            name: None,
            mode: None,
        }
    }

    // Takes the option in, unless one of its kind stands already.
    fn take(&mut self, option: FindWord) -> bool
        ensures { with_option option self.old ≡ (if result then Some self.new else None) }
    {
        match option {
            FindWord::Zero => set_flag(&mut self.zero),
            FindWord::Count => set_flag(&mut self.count),
            FindWord::OnlyIn(scope) => set_once(&mut self.scope, scope),
            FindWord::Name(name) => set_once(&mut self.name, name),
            FindWord::Mode(mode) => set_once(&mut self.mode, mode),
        }
    }
}

/// What the options of `mdfind` say, and the words that follow them.
#[tactic(auto, using(crate::proofs::Searching::read_all, crate::proofs::Searching::read_before))]
pub fn find_options_of<'a>(
    alloc: Global,
    words: &'a [String],
) -> Result<Option<(FindOptions, &'a [String])>, AllocError>
    ensures { IfOk result (λ r. option_map (λ p. (p.0, texts p.1.now)) r ≡ find_options_of (texts words.now)) }
{
    let mut options = FindOptions::new();
    let mut rest = words;
    while let Some((word, after)) = first_word(rest) {
        if word == "--" {
            return Ok(Some((options, after)));
        }
        if !begins_with_dash(word) {
            return Ok(Some((options, rest)));
        }
        let Some((option, after)) = option_of(alloc, word, after)? else {
            return Ok(None);
        };
        if !options.take(option) {
            return Ok(None);
        }
        rest = after;
    }
    Ok(Some((options, rest)))
}
