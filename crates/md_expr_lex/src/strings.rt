// Strings, their wildcards, escapes and modifiers.
ghost use Rattle.std.specs.Prelude.{◌≡◌, false, IfOk, OnOk, ◌++◌, ◌∷◌, [], chars, string_bytes};
ghost use Rattle.std.specs.Option.{option_map, option_and_then};
ghost use Rattle.md_expr_lex.specs.Strings.{words, modified, after_c, after_d, act_of, body_at, string_at};

use crate::class::is_escapable;
use crate::prefix::{begins_word, first, push};
use md_expr_tree::{Literal, Token};
use md_value::{PlainVec, Text};
use std::alloc::{AllocError, Global};

fn words(pieces: PlainVec<Text>, fold: bool, marks: bool, text: &[char]) -> Option<(Token, &[char])>
    ensures { option_map (λ x. (x.0, x.1.now)) result ≡ words pieces fold marks text.now }
{
    if begins_word(text) {
        return None;
    }
    let token = Token::Value(Literal::Words {
        pieces,
        fold,
        marks,
    });
    Some((token, text))
}

fn after_c(pieces: PlainVec<Text>, text: &[char]) -> Option<(Token, &[char])>
    ensures { option_map (λ x. (x.0, x.1.now)) result ≡ after_c pieces text.now }
{
    match text {
        ['d', rest @ ..] => words(pieces, true, true, rest),
        _ => words(pieces, true, false, text),
    }
}

fn after_d(pieces: PlainVec<Text>, text: &[char]) -> Option<(Token, &[char])>
    ensures { option_map (λ x. (x.0, x.1.now)) result ≡ after_d pieces text.now }
{
    match text {
        ['c', rest @ ..] => words(pieces, true, true, rest),
        _ => words(pieces, false, true, text),
    }
}

fn modified(pieces: PlainVec<Text>, text: &[char]) -> Option<(Token, &[char])>
    ensures { option_map (λ x. (x.0, x.1.now)) result ≡ modified pieces text.now }
{
    match text {
        ['c', rest @ ..] => after_c(pieces, rest),
        ['d', rest @ ..] => after_d(pieces, rest),
        _ => words(pieces, false, false, text),
    }
}

/// What a character between quotes does.
#[derive(Clone, Copy, Debug, PartialEq, Eq)]
pub enum Act {
    /// Ends the string.
    End,
    /// Makes the next character literal.
    Escape,
    /// Ends a piece and begins the next.
    Wildcard,
    /// Stands for itself.
    Add,
    /// Is no escape.
    Fail,
}

fn act_of(escaping: bool, quote: char, c: char) -> Act
    ensures { result ≡ act_of escaping quote c }
{
    if escaping {
        if is_escapable(c) {
            return Act::Add;
        }
        return Act::Fail;
    }
    if c == quote {
        return Act::End;
    }
    if c == '\\' {
        return Act::Escape;
    }
    if c == '*' {
        return Act::Wildcard;
    }
    Act::Add
}

/// A piece without characters.
#[tactic(auto, using(crate::proofs::Spellings::no_characters))]
fn empty_piece(alloc: Global) -> String
    ensures { chars (string_bytes result) ≡ [] }
{
    String::new(alloc)
}

/// Ends a piece.
fn end_piece(alloc: Global, pieces: &mut PlainVec<Text>, piece: &str) -> Result<(), AllocError>
    ensures { OnOk result (pieces.new ≡ pieces.old ++ chars piece.now ∷ []) }
{
    pieces.push(Text::of(alloc, piece)?)
}

/// The pieces between two quotes, and what follows the second.
fn body(
    alloc: Global,
    quote: char,
    text: &[char],
) -> Result<Option<(PlainVec<Text>, &[char])>, AllocError>
    ensures { IfOk result (λ r. option_map (λ x. (x.0, x.1.now)) r ≡ body_at false quote text.now) }
{
    let mut pieces = PlainVec::new(alloc);
    let mut piece = empty_piece(alloc);
    let mut escaping = false;
    let mut rest = text;
    while let Some((c, tail)) = first(rest) {
        rest = tail;
        match act_of(escaping, quote, c) {
            Act::End => {
                end_piece(alloc, &mut pieces, piece.as_str())?;
                return Ok(Some((pieces, rest)));
            }
            Act::Escape => escaping = true,
            Act::Wildcard => {
                end_piece(alloc, &mut pieces, piece.as_str())?;
                piece = empty_piece(alloc);
            }
            Act::Add => {
                push(&mut piece, c)?;
                escaping = false;
            }
            Act::Fail => return Ok(None),
        }
    }
    Ok(None)
}

/// The string behind its first quote.
pub(crate) fn string(
    alloc: Global,
    quote: char,
    text: &[char],
) -> Result<Option<(Token, &[char])>, AllocError>
    ensures { IfOk result (λ r. option_map (λ x. (x.0, x.1.now)) r ≡ string_at quote text.now) }
{
    match body(alloc, quote, text)? {
        Some((pieces, rest)) => Ok(modified(pieces, rest)),
        None => Ok(None),
    }
}
