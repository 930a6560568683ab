// Forms of time.
ghost use Rattle.std.specs.Prelude.{◌≡◌, IfOk};
ghost use Rattle.std.specs.Char.{is_ascii};
ghost use Rattle.std.specs.List.{list_all};
ghost use Rattle.std.specs.Option.{option_map};
ghost use Rattle.md_value.specs.Name.{is_name_part};
ghost use Rattle.md_expr_lex.specs.Prefix.{prefix};
ghost use Rattle.md_expr_lex.specs.Kinds.{is_not_closing};
ghost use Rattle.md_expr_lex.specs.Times.{sign_of, closing, after_sign, count_at, keyword_of, form_of, with_count, iso_of, iso_from, iso_at, time_by, timed, worded, time_at};

use crate::class::is_ascii;
use crate::numbers::whole;
use crate::prefix::{after, digits, inside, lengthens_time, text_of, word};
use md_expr_tree::{Literal, Token};
use md_time::{Form, IsoText};
use std::alloc::{AllocError, Global};

/// The word of a form of time.
#[derive(Clone, Copy, Debug, PartialEq, Eq)]
pub enum Keyword {
    Now,
    Today,
    Yesterday,
    Week,
    Month,
    Year,
    Iso,
    Other,
}

fn sign_of(text: &[char]) -> (bool, &[char])
    ensures { (result.0, result.1.now) ≡ sign_of text.now }
{
    match text {
        ['-', rest @ ..] => (true, rest),
        ['+', rest @ ..] => (false, rest),
        _ => (false, text),
    }
}

fn closing(text: &[char]) -> Option<&[char]>
    ensures { option_map (λ rest. rest.now) result ≡ closing text.now }
{
    match text {
        [')', rest @ ..] => Some(rest),
        _ => None,
    }
}

fn counted(is_negative: bool, text: &[char]) -> Option<(i64, &[char])>
    ensures { option_map (λ x. (x.0, x.1.now)) result ≡ after_sign (is_negative, text.now) }
{
    let (found, rest) = digits(text);
    let count = whole(is_negative, found)?;
    Some((count, closing(rest)?))
}

/// The count, 0 where there is none, and what follows it.
fn count(text: &[char]) -> Option<(i64, &[char])>
    ensures { option_map (λ x. (x.0, x.1.now)) result ≡ count_at text.now }
{
    match text {
        ['(', rest @ ..] => {
            let (is_negative, rest) = sign_of(rest);
            counted(is_negative, rest)
        }
        _ => Some((0, text)),
    }
}

fn keyword_of(word: &[char]) -> Keyword
    ensures { result ≡ keyword_of word.now }
{
    if word == ['n', 'o', 'w'].as_slice() {
        return Keyword::Now;
    }
    if word == ['t', 'o', 'd', 'a', 'y'].as_slice() {
        return Keyword::Today;
    }
    if word == ['y', 'e', 's', 't', 'e', 'r', 'd', 'a', 'y'].as_slice() {
        return Keyword::Yesterday;
    }
    if word == ['t', 'h', 'i', 's', '_', 'w', 'e', 'e', 'k'].as_slice() {
        return Keyword::Week;
    }
    if word == ['t', 'h', 'i', 's', '_', 'm', 'o', 'n', 't', 'h'].as_slice() {
        return Keyword::Month;
    }
    if word == ['t', 'h', 'i', 's', '_', 'y', 'e', 'a', 'r'].as_slice() {
        return Keyword::Year;
    }
    if word == ['i', 's', 'o'].as_slice() {
        return Keyword::Iso;
    }
    Keyword::Other
}

fn form_of(keyword: Keyword, count: i64) -> Option<Form>
    ensures { result ≡ form_of keyword count }
{
    match keyword {
        Keyword::Now => Some(Form::Now(count)),
        Keyword::Today => Some(Form::Day(count)),
        Keyword::Week => Some(Form::Week(count)),
        Keyword::Month => Some(Form::Month(count)),
        Keyword::Year => Some(Form::Year(count)),
        _ => None,
    }
}

fn with_count(keyword: Keyword, text: &[char]) -> Option<(Form, &[char])>
    ensures { option_map (λ x. (x.0, x.1.now)) result ≡ with_count keyword text.now }
{
    let (count, rest) = count(text)?;
    Some((form_of(keyword, count)?, rest))
}

fn are_ascii(text: &[char]) -> bool
    ensures { result ≡ list_all is_ascii text.now }
{
    text.iter().all(|c| is_ascii(*c))
}

#[tactic(auto, using(crate::proofs::Spellings::encodes_ascii))]
fn iso_text(alloc: Global, text: &[char]) -> Result<Option<IsoText>, AllocError>
    ensures { IfOk result (λ iso. iso ≡ iso_of text.now) }
{
    if !are_ascii(text) {
        return Ok(None);
    }
    let text = text_of(alloc, text)?;
    Ok(IsoText::read(text.as_str()))
}

fn iso_inside(alloc: Global, text: &[char]) -> Result<Option<(Form, &[char])>, AllocError>
    ensures { IfOk result (λ r. option_map (λ x. (x.0, x.1.now)) r ≡ iso_from (prefix is_not_closing text.now)) }
{
    let (found, rest) = inside(text);
    match (iso_text(alloc, found)?, closing(rest)) {
        (Some(iso), Some(rest)) => Ok(Some((Form::Iso(iso), rest))),
        _ => Ok(None),
    }
}

fn iso(alloc: Global, text: &[char]) -> Result<Option<(Form, &[char])>, AllocError>
    ensures { IfOk result (λ r. option_map (λ x. (x.0, x.1.now)) r ≡ iso_at text.now) }
{
    match text {
        ['(', rest @ ..] => iso_inside(alloc, rest),
        _ => Ok(None),
    }
}

/// The form, and what follows it.
fn form(
    alloc: Global,
    keyword: Keyword,
    text: &[char],
) -> Result<Option<(Form, &[char])>, AllocError>
    ensures { IfOk result (λ r. option_map (λ x. (x.0, x.1.now)) r ≡ time_by keyword text.now) }
{
    match keyword {
        Keyword::Yesterday => Ok(Some((Form::Day(-1), text))),
        Keyword::Iso => iso(alloc, text),
        _ => Ok(with_count(keyword, text)),
    }
}

fn timed(form: Form, text: &[char]) -> Option<(Token, &[char])>
    ensures { option_map (λ x. (x.0, x.1.now)) result ≡ timed (form, text.now) }
{
    if lengthens_time(text) {
        return None;
    }
    Some((Token::Value(Literal::Time(form)), text))
}

fn worded(alloc: Global, text: &[char]) -> Result<Option<(Token, &[char])>, AllocError>
    ensures { IfOk result (λ r. option_map (λ x. (x.0, x.1.now)) r ≡ worded (prefix is_name_part text.now)) }
{
    let (found, text) = word(text);
    match form(alloc, keyword_of(found), text) {
        Ok(Some((form, rest))) => Ok(timed(form, rest)),
        Ok(None) => Ok(None),
        Err(refused) => Err(refused),
    }
}

/// The form of time behind its `$`.
pub(crate) fn time(alloc: Global, text: &[char]) -> Result<Option<(Token, &[char])>, AllocError>
    ensures { IfOk result (λ r. option_map (λ x. (x.0, x.1.now)) r ≡ time_at text.now) }
{
    match after(&['t', 'i', 'm', 'e', '.'], text) {
        Some(rest) => worded(alloc, rest),
        None => Ok(None),
    }
}
