// The prefix of a text, and text of characters.
ghost use Rattle.std.specs.Prelude.{◌≡◌, ◌∷◌, ◌++◌, [], length, IfOk, OnOk, MatchOption, chars, encode_utf8_all, string_bytes};
ghost use Rattle.std.specs.Char.{is_ascii, is_ascii_digit};
ghost use Rattle.std.specs.List.{list_all, take_while};
ghost use Rattle.std.specs.Option.{option_map};
ghost use Rattle.md_value.specs.Name.{is_name_part};
ghost use Rattle.md_expr_tree.specs.Tokens.{may_not_follow_number, may_not_follow_time};
ghost use Rattle.md_expr_lex.specs.Prefix.{prefix, begins, after};
ghost use Rattle.md_expr_lex.specs.Kinds.{is_not_closing};

use crate::class;
use md_value::is_name_part;
use std::alloc::{AllocError, Global};

fn word_len(text: &[char]) -> usize
    ensures { result ≡ length (take_while is_name_part text.now) }
{
    text.iter().take_while(|c| is_name_part(**c)).count()
}

/// The letters, digits and `_` at the beginning, and the rest.
#[tactic(auto, using(crate::proofs::Prefixes::prefix_split))]
pub(crate) fn word(text: &[char]) -> (&[char], &[char])
    ensures { (result.0.now, result.1.now) ≡ prefix is_name_part text.now }
{
    text.split_at(word_len(text))
}

fn digits_len(text: &[char]) -> usize
    ensures { result ≡ length (take_while is_ascii_digit text.now) }
{
    text.iter().take_while(|c| class::is_digit(**c)).count()
}

/// The digits at the beginning, and the rest.
#[tactic(auto, using(crate::proofs::Prefixes::prefix_split))]
pub(crate) fn digits(text: &[char]) -> (&[char], &[char])
    ensures { (result.0.now, result.1.now) ≡ prefix is_ascii_digit text.now }
{
    text.split_at(digits_len(text))
}

fn inside_len(text: &[char]) -> usize
    ensures { result ≡ length (take_while is_not_closing text.now) }
{
    text.iter()
        .take_while(|c| class::is_not_closing(**c))
        .count()
}

/// What stands before the first `)`, and the rest.
#[tactic(auto, using(crate::proofs::Prefixes::prefix_split))]
pub(crate) fn inside(text: &[char]) -> (&[char], &[char])
    ensures { (result.0.now, result.1.now) ≡ prefix is_not_closing text.now }
{
    text.split_at(inside_len(text))
}

/// The first character, and the others.
pub(crate) fn first(text: &[char]) -> Option<(char, &[char])>
    ensures { MatchOption result (text.now ≡ []) (λ x. text.now ≡ x.0 ∷ x.1.now) }
{
    match text {
        [] => None,
        [c, rest @ ..] => Some((*c, rest)),
    }
}

pub(crate) fn begins_word(text: &[char]) -> bool
    ensures { result ≡ begins is_name_part text.now }
{
    match text {
        [] => false,
        [c, ..] => is_name_part(*c),
    }
}

pub(crate) fn lengthens_number(text: &[char]) -> bool
    ensures { result ≡ begins may_not_follow_number text.now }
{
    match text {
        [] => false,
        [c, ..] => class::may_not_follow_number(*c),
    }
}

pub(crate) fn lengthens_time(text: &[char]) -> bool
    ensures { result ≡ begins may_not_follow_time text.now }
{
    match text {
        [] => false,
        [c, ..] => class::may_not_follow_time(*c),
    }
}

/// What follows the text's beginning, if it begins so.
pub(crate) fn after<'t>(beginning: &[char], text: &'t [char]) -> Option<&'t [char]>
    ensures { option_map (λ rest. rest.now) result ≡ after beginning.now text.now }
{
    match beginning {
        [] => Some(text),
        [p, ps @ ..] => match text {
            [c, cs @ ..] if *c == *p => after(ps, cs),
            _ => None,
        },
    }
}

/// The characters of a text.
pub fn characters(alloc: Global, text: &str) -> Result<Vec<char>, AllocError>
    ensures { IfOk result (λ v. v.items ≡ chars text.now) }
{
    text.chars().collect(alloc)
}

/// The text of characters.
pub(crate) fn text_of(alloc: Global, all: &[char]) -> Result<String, AllocError>
    ensures { IfOk result (λ text. string_bytes text ≡ encode_utf8_all all.now) }
{
    let mut text = String::new(alloc);
    for c in all {
        text.push(*c)?;
    }
    Ok(text)
}

/// Adds a character to a text.
pub(crate) fn push(text: &mut String, c: char) -> Result<(), AllocError>
    ensures { OnOk result (chars (string_bytes text.new) ≡ chars (string_bytes text.old) ++ c ∷ []) }
{
    text.push(c)?;
    Ok(())
}
