// The options of `mdls`.
ghost use Rattle.std.specs.Prelude.{◌≡◌, ◌≤◌, ◌∷◌, ℕ, List, false, true, length, IfOk, IfSome, Some, None, codes, bytes_eq, if◌then◌else◌};
ghost use Rattle.std.specs.Option.{option_map, option_and_then};
ghost use Rattle.md_value.specs.Name.{is_name};
ghost use Rattle.md_words.specs.Words.{texts, begins_with_dash};
ghost use Rattle.md_words.specs.Options.{no_options, with_raw, joined, options_from, options_of, option, text, name};

use crate::Utf8;
use crate::once::set_flag;
use crate::word::{begins_with_dash, first_word};
use md_value::{Name, NameError, PlainVec};
use std::alloc::{AllocError, Global};

/// What the options of `mdls` say.
#[derive(Drop)]
pub struct Options {
    pub raw: bool,
    pub marker: Option<Utf8>,
    pub names: PlainVec<Name>,
}

fn name_of(alloc: Global, word: &str) -> Result<Option<Name>, AllocError>
    ensures { IfOk result (λ r. r ≡ (if is_name word.now then Some word.now else None)) }
{
    match Name::read(alloc, word) {
        Ok(name) => Ok(Some(name)),
        Err(NameError::Bad) => Ok(None),
        Err(NameError::Memory) => Err(AllocError),
    }
}

impl Options {
    fn new(alloc: Global) -> Options
        ensures { result ≡ no_options }
    {
        Options {
            raw: false,
            marker: None,
            names: PlainVec::new(alloc),
        }
    }

    // Takes `-raw` in, unless it stands already, and answers the words after it.
    fn take_raw<'a>(&mut self, words: &'a [String]) -> Option<&'a [String]>
        ensures value { joined self.old (option_and_then with_raw (options_from option (texts words.now))) ≡ option_and_then (λ rest. joined self.new (options_from option (texts rest.now))) result }
        ensures shorter { IfSome result (λ rest. length rest.now ≤ length words.now) }
    {
        if set_flag(&mut self.raw) {
            Some(words)
        } else {
            None
        }
    }

    // Takes in the TEXT of `-nullMarker`, unless one stands already, and answers the words after it.
    fn take_marker<'a>(
        &mut self,
        alloc: Global,
        words: &'a [String],
    ) -> Result<Option<&'a [String]>, AllocError>
        ensures value { IfOk result (λ r. joined self.old (options_from text (texts words.now)) ≡ option_and_then (λ rest. joined self.new (options_from option (texts rest.now))) r) }
        ensures shorter { IfOk result (λ r. IfSome r (λ rest. length rest.now ≤ length words.now)) }
    {
        let Some((word, rest)) = first_word(words) else {
            return Ok(None);
        };
        if self.marker.is_some() {
            return Ok(None);
        }
        self.marker = Some(Utf8::of(alloc, word)?);
        Ok(Some(rest))
    }

    // Takes in the NAME of `-name`, and answers the words after it.
    fn take_name<'a>(
        &mut self,
        alloc: Global,
        words: &'a [String],
    ) -> Result<Option<&'a [String]>, AllocError>
        ensures value { IfOk result (λ r. joined self.old (options_from name (texts words.now)) ≡ option_and_then (λ rest. joined self.new (options_from option (texts rest.now))) r) }
        ensures shorter { IfOk result (λ r. IfSome r (λ rest. length rest.now ≤ length words.now)) }
    {
        let Some((word, rest)) = first_word(words) else {
            return Ok(None);
        };
        let Some(name) = name_of(alloc, word)? else {
            return Ok(None);
        };
        self.names.push(name)?;
        Ok(Some(rest))
    }

    // Takes in the option that the word begins, and answers the words after it.
    fn take_option<'a>(
        &mut self,
        alloc: Global,
        word: &str,
        words: &'a [String],
    ) -> Result<Option<&'a [String]>, AllocError>
        requires not_end { bytes_eq word.now (codes "--") ≡ false }
        requires dash { begins_with_dash word.now ≡ true }
        ensures value { IfOk result (λ r. joined self.old (options_from option (word.now ∷ texts words.now)) ≡ option_and_then (λ rest. joined self.new (options_from option (texts rest.now))) r) }
        ensures shorter { IfOk result (λ r. IfSome r (λ rest. length rest.now ≤ length words.now)) }
    {
        if word == "-raw" {
            return Ok(self.take_raw(words));
        }
        if word == "-nullMarker" {
            return self.take_marker(alloc, words);
        }
        if word == "-name" {
            return self.take_name(alloc, words);
        }
        Ok(None)
    }
}

/// What the options of `mdls` say, and the words that follow them.
pub fn options_of<'a>(
    alloc: Global,
    words: &'a [String],
) -> Result<Option<(Options, &'a [String])>, AllocError>
    ensures { IfOk result (λ r. option_map (λ p. (p.0, texts p.1.now)) r ≡ options_of (texts words.now)) }
{
    let mut options = Options::new(alloc);
    let mut rest = words;
    while let Some((word, after)) = first_word(rest) {
        if word == "--" {
            return Ok(Some((options, after)));
        }
        if !begins_with_dash(word) {
            return Ok(Some((options, rest)));
        }
        let Some(after) = options.take_option(alloc, word, after)? else {
            return Ok(None);
        };
        rest = after;
    }
    Ok(Some((options, rest)))
}
