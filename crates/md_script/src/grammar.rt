// What a line says.
ghost use Rattle.std.specs.Prelude.{◌≡◌, IfOk};
ghost use Rattle.md_script.specs.Grammar.{put_of, import_of, remove_of, event_of, asked_by, client_line, command_of, says_nothing, moment_of, said_by, said};

use crate::What;
use crate::lines::split_word;
use crate::query::query_of;
use crate::words::{client_of, content_of, is_text, number_of, path_of};
use std::alloc::{AllocError, Global};

/// What a line means.
#[derive(Drop)]
pub enum Meaning {
    /// It is empty or a comment.
    Nothing,
    /// `at MS`: the lines after it, to the next `at`, have this moment, in milliseconds.
    At(u64),
    /// It says something.
    Says(What),
}

#[tactic(auto, unfolding(crate::specs::Grammar::put_of))]
fn put_of(alloc: Global, rest: &[u8]) -> Result<Option<What>, AllocError>
    ensures { IfOk result (λ what. what ≡ put_of rest.now) }
{
    let (word, rest) = split_word(rest);
    let Some(path) = path_of(alloc, word)? else {
        return Ok(None);
    };
    match content_of(alloc, rest)? {
        Some(text) => Ok(Some(What::Put { path, text })),
        None => Ok(None),
    }
}

#[tactic(auto, unfolding(crate::specs::Grammar::import_of))]
fn import_of(alloc: Global, rest: &[u8]) -> Result<Option<What>, AllocError>
    ensures { IfOk result (λ what. what ≡ import_of rest.now) }
{
    match path_of(alloc, rest)? {
        Some(path) => Ok(Some(What::Import { path })),
        None => Ok(None),
    }
}

#[tactic(auto, unfolding(crate::specs::Grammar::remove_of))]
fn remove_of(alloc: Global, rest: &[u8]) -> Result<Option<What>, AllocError>
    ensures { IfOk result (λ what. what ≡ remove_of rest.now) }
{
    match path_of(alloc, rest)? {
        Some(path) => Ok(Some(What::Remove { path })),
        None => Ok(None),
    }
}

#[tactic(auto, unfolding(crate::specs::Grammar::event_of))]
fn event_of(client: u8, verb: &[u8], number: u32) -> Option<What>
    ensures { result ≡ event_of client verb.now number }
{
    if verb == b"gather".as_slice() {
        return Some(What::Gather { client, number });
    }
    if verb == b"poll".as_slice() {
        return Some(What::Poll { client, number });
    }
    if verb == b"disable".as_slice() {
        return Some(What::Disable { client, number });
    }
    if verb == b"enable".as_slice() {
        return Some(What::Enable { client, number });
    }
    if verb == b"stop".as_slice() {
        return Some(What::Stop { client, number });
    }
    if verb == b"show".as_slice() {
        return Some(What::Show { client, number });
    }
    None
}

#[tactic(auto, unfolding(crate::specs::Grammar::asked_by))]
fn asked_by(alloc: Global, client: u8, verb: &[u8], rest: &[u8]) -> Result<Option<What>, AllocError>
    ensures { IfOk result (λ what. what ≡ asked_by client verb.now rest.now) }
{
    if verb == b"query".as_slice() {
        return query_of(alloc, client, rest);
    }
    match number_of(rest) {
        Some(number) => Ok(event_of(client, verb, number)),
        None => Ok(None),
    }
}

#[tactic(auto, unfolding(crate::specs::Grammar::client_line))]
fn client_line(alloc: Global, client: u8, rest: &[u8]) -> Result<Option<What>, AllocError>
    ensures { IfOk result (λ what. what ≡ client_line client rest.now) }
{
    if rest == b"vacuum".as_slice() {
        return Ok(Some(What::Vacuum { client }));
    }
    let (verb, rest) = split_word(rest);
    asked_by(alloc, client, verb, rest)
}

#[tactic(auto, unfolding(crate::specs::Grammar::command_of))]
fn command_of(alloc: Global, word: &[u8], rest: &[u8]) -> Result<Option<What>, AllocError>
    ensures { IfOk result (λ what. what ≡ command_of word.now rest.now) }
{
    if word == b"put".as_slice() {
        return put_of(alloc, rest);
    }
    if word == b"import".as_slice() {
        return import_of(alloc, rest);
    }
    if word == b"remove".as_slice() {
        return remove_of(alloc, rest);
    }
    match client_of(word) {
        Some(client) => client_line(alloc, client, rest),
        None => Ok(None),
    }
}

#[tactic(auto, unfolding(crate::specs::Grammar::says_nothing))]
fn says_nothing(line: &[u8]) -> bool
    ensures { result ≡ says_nothing line.now }
{
    match line {
        [] => true,
        [first, ..] => *first == b'#',
    }
}

#[tactic(auto, unfolding(crate::specs::Grammar::moment_of))]
fn moment_of(rest: &[u8]) -> Option<Meaning>
    ensures { result ≡ moment_of rest.now }
{
    match number_of(rest) {
        Some(ms) => Some(Meaning::At(u64::from(ms))),
        None => None,
    }
}

#[tactic(auto, unfolding(crate::specs::Grammar::said_by))]
fn said_by(alloc: Global, word: &[u8], rest: &[u8]) -> Result<Option<Meaning>, AllocError>
    ensures { IfOk result (λ r. r ≡ said_by word.now rest.now) }
{
    if word == b"at".as_slice() {
        return Ok(moment_of(rest));
    }
    match command_of(alloc, word, rest)? {
        Some(what) => Ok(Some(Meaning::Says(what))),
        None => Ok(None),
    }
}

/// What a line says, or `None` where it is not in the grammar.
#[tactic(auto, unfolding(crate::specs::Grammar::said))]
pub fn said(alloc: Global, line: &[u8]) -> Result<Option<Meaning>, AllocError>
    ensures { IfOk result (λ r. r ≡ said line.now) }
{
    if !is_text(line) {
        return Ok(None);
    }
    if says_nothing(line) {
        return Ok(Some(Meaning::Nothing));
    }
    let (word, rest) = split_word(line);
    said_by(alloc, word, rest)
}
