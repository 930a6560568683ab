// The options of a query.
ghost use Rattle.std.specs.Prelude.{◌≡◌, [], IfOk, Some, None, is_some, if◌then◌else◌};
ghost use Rattle.std.specs.Option.{option_map};
ghost use Rattle.md_script.specs.Lines.{words_of};
ghost use Rattle.md_script.specs.Words.{folder_of};
ghost use Rattle.md_script.specs.Options.{named, key_of, number_choice, choice_by, choice_of, together, with_choice, asked_of};
ghost use Rattle.md_script.specs.declared.options.Choice.TheVariants.{In, By};

use crate::lines::{first, split_once, split_word};
use crate::words::{folder_of, number_of, text_of};
use md_value::{Name, NameError, Path, PlainVec};
use md_words::set_once;
use md_world::SortKey;
use std::alloc::{AllocError, Global};

/// The most `by=` that a query has.
pub const MOST_KEYS: usize = 8;

/// What one option of a query chooses.
#[derive(Drop)]
pub enum Choice {
    /// `in=PATH`
    In(Path),
    /// `first=K`
    First(u32),
    /// `progress=K`
    Progress(u32),
    /// `update=K`
    Update(u32),
    /// `ms=K`
    Ms(u64),
    /// `by=NAME` or `by=-NAME`
    By(SortKey),
}

#[tactic(auto, unfolding(crate::specs::Options::named))]
fn named(alloc: Global, descending: bool, name: &[u8]) -> Result<Option<SortKey>, AllocError>
    ensures { IfOk result (λ key. key ≡ named descending name.now) }
{
    let Some(name) = text_of(name) else {
        return Ok(None);
    };
    match Name::read(alloc, name) {
        Ok(name) => Ok(Some(SortKey { name, descending })),
        Err(NameError::Bad) => Ok(None),
        Err(NameError::Memory) => Err(AllocError),
    }
}

#[tactic(auto, unfolding(crate::specs::Options::key_of))]
fn key_of(alloc: Global, text: &[u8]) -> Result<Option<SortKey>, AllocError>
    ensures { IfOk result (λ key. key ≡ key_of text.now) }
{
    let Some((sign, name)) = first(text) else {
        return Ok(None);
    };
    if sign == b'-' {
        named(alloc, true, name)
    } else {
        named(alloc, false, text)
    }
}

fn scope_choice(alloc: Global, value: &[u8]) -> Result<Option<Choice>, AllocError>
    ensures { IfOk result (λ c. c ≡ option_map In (folder_of value.now)) }
{
    match folder_of(alloc, value)? {
        Some(scope) => Ok(Some(Choice::In(scope))),
        None => Ok(None),
    }
}

fn key_choice(alloc: Global, value: &[u8]) -> Result<Option<Choice>, AllocError>
    ensures { IfOk result (λ c. c ≡ option_map By (key_of value.now)) }
{
    match key_of(alloc, value)? {
        Some(key) => Ok(Some(Choice::By(key))),
        None => Ok(None),
    }
}

// `first=K`, `progress=K`, `update=K` or `ms=K`.
#[tactic(auto, unfolding(crate::specs::Options::number_choice))]
fn number_choice(name: &[u8], value: &[u8]) -> Option<Choice>
    ensures { result ≡ number_choice name.now value.now }
{
    let number = number_of(value)?;
    if name == b"first".as_slice() {
        return Some(Choice::First(number));
    }
    if name == b"progress".as_slice() {
        return Some(Choice::Progress(number));
    }
    if name == b"update".as_slice() {
        return Some(Choice::Update(number));
    }
    if name == b"ms".as_slice() {
        return Some(Choice::Ms(u64::from(number)));
    }
    None
}

#[tactic(auto, unfolding(crate::specs::Options::choice_by))]
fn choice_by(alloc: Global, name: &[u8], value: &[u8]) -> Result<Option<Choice>, AllocError>
    ensures { IfOk result (λ c. c ≡ choice_by name.now value.now) }
{
    if name == b"in".as_slice() {
        return scope_choice(alloc, value);
    }
    if name == b"by".as_slice() {
        return key_choice(alloc, value);
    }
    Ok(number_choice(name, value))
}

// What one word chooses.
#[tactic(auto, unfolding(crate::specs::Options::choice_of))]
fn choice_of(alloc: Global, word: &[u8]) -> Result<Option<Choice>, AllocError>
    ensures { IfOk result (λ c. c ≡ choice_of word.now) }
{
    let Some((name, value)) = split_once(b'=', word) else {
        return Ok(None);
    };
    choice_by(alloc, name, value)
}

/// What the options of a query say.
#[derive(Drop)]
pub struct Options {
    pub scope: Option<Path>,
    pub first: Option<u32>,
    pub progress: Option<u32>,
    pub update: Option<u32>,
    pub ms: Option<u64>,
    pub keys: PlainVec<SortKey>,
}

impl Options {
    fn new(alloc: Global) -> Options
        ensures { result ≡ together [] }
    {
        Options {
            scope: None,
            first: None,
            progress: None,
            update: None,
            ms: None,
            keys: PlainVec::new(alloc),
        }
    }

    fn take_key(&mut self, key: SortKey) -> Result<bool, AllocError>
        ensures { IfOk result (λ taken. with_choice self.old (By key) ≡ (if taken then Some self.new else None)) }
    {
        if self.keys.len() == MOST_KEYS {
            return Ok(false);
        }
        self.keys.push(key)?;
        Ok(true)
    }

    // Takes the choice in, unless one of its kind stands that may not stand twice, or too many keys do.
    fn take(&mut self, choice: Choice) -> Result<bool, AllocError>
        ensures { IfOk result (λ taken. with_choice self.old choice ≡ (if taken then Some self.new else None)) }
    {
        match choice {
            Choice::In(scope) => Ok(set_once(&mut self.scope, scope)),
            Choice::First(k) => Ok(set_once(&mut self.first, k)),
            Choice::Progress(k) => Ok(set_once(&mut self.progress, k)),
            Choice::Update(k) => Ok(set_once(&mut self.update, k)),
            Choice::Ms(k) => Ok(set_once(&mut self.ms, k)),
            Choice::By(key) => self.take_key(key),
        }
    }
}

/// What the options before the word `where` say, and the text that follows it.
pub fn options_of<'a>(
    alloc: Global,
    text: &'a [u8],
) -> Result<Option<(Options, &'a [u8])>, AllocError>
    ensures { IfOk result (λ r. option_map (λ p. (p.0, p.1.now)) r ≡ asked_of (words_of text.now)) }
{
    let mut options = Options::new(alloc);
    let mut rest = text;
    while !rest.is_empty() {
        let (word, after) = split_word(rest);
        if word == b"where".as_slice() {
            return Ok(Some((options, after)));
        }
        let Some(choice) = choice_of(alloc, word)? else {
            return Ok(None);
        };
        if !options.take(choice)? {
            return Ok(None);
        }
        rest = after;
    }
    Ok(None)
}
