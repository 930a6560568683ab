// Strings, numbers and forms of time.
ghost use Rattle.std.specs.Prelude.{◌≡◌, ◌++◌, ◌∷◌, [], ◌+◌, ◌<◌, ◌≤◌, ◌^◌, map, true, codes, OnOk, chars, string_bytes};
ghost use Rattle.std.specs.Char.{is_ascii};
ghost use Rattle.std.specs.List.{flat_map, list_all};
ghost use Rattle.md_expr_print.specs.Literals.{counted, count_text, decimals, escape, fraction_text, join, literal_text, minus, modifier, number_text, time_text, words_text};

use crate::pushes::{push, push_between, push_number, push_signed, push_str};
use md_expr_tree::Literal;
use md_time::{Form, IsoText};
use md_value::Text;
use std::alloc::AllocError;

fn push_escaped(out: &mut String, c: char) -> Result<(), AllocError>
    ensures { OnOk result (chars (string_bytes out.new) ≡ chars (string_bytes out.old) ++ escape c) }
{
    match c {
        '"' | '\\' | '*' => {
            push(out, '\\')?;
            push(out, c)
        }
        _ => push(out, c),
    }
}

fn push_piece(out: &mut String, piece: &Text) -> Result<(), AllocError>
    ensures { OnOk result (chars (string_bytes out.new) ≡ chars (string_bytes out.old) ++ flat_map escape piece.now) }
{
    for c in piece.as_str().chars() {
        push_escaped(out, c)?;
    }
    Ok(())
}

fn push_pieces(out: &mut String, pieces: &[Text]) -> Result<(), AllocError>
    ensures { OnOk result (chars (string_bytes out.new) ≡ chars (string_bytes out.old) ++ join (codes "*") (map (flat_map escape) pieces.now)) }
{
    let mut is_first = true;
    for piece in pieces {
        push_between(out, is_first, "*")?;
        is_first = false;
        push_piece(out, piece)?;
    }
    Ok(())
}

fn push_modifier(out: &mut String, is_set: bool, letter: &str) -> Result<(), AllocError>
    requires { list_all is_ascii letter.now ≡ true }
    ensures { OnOk result (chars (string_bytes out.new) ≡ chars (string_bytes out.old) ++ modifier is_set letter.now) }
{
    if is_set {
        push_str(out, letter)?;
    }
    Ok(())
}

fn push_words(out: &mut String, pieces: &[Text], fold: bool, marks: bool) -> Result<(), AllocError>
    ensures { OnOk result (chars (string_bytes out.new) ≡ chars (string_bytes out.old) ++ words_text pieces.now fold marks) }
{
    push_str(out, "\"")?;
    push_pieces(out, pieces)?;
    push_str(out, "\"")?;
    push_modifier(out, fold, "c")?;
    push_modifier(out, marks, "d")
}

fn push_digit(out: &mut String, digit: u32) -> Result<(), AllocError>
    requires { digit < 10 }
    ensures { OnOk result (chars (string_bytes out.new) ≡ chars (string_bytes out.old) ++ (48 + digit) ∷ []) }
{
    push(out, (b'0' + digit as u8) as char)
}

/// Appends decimals of so many places, up to the last one that is not 0.
fn push_decimals(out: &mut String, places: u32, n: u32) -> Result<(), AllocError>
    requires places { places ≤ 9 }
    requires n { n < 10 ^ places }
    ensures { OnOk result (chars (string_bytes out.new) ≡ chars (string_bytes out.old) ++ decimals places n) }
{
    let mut rest = n;
    let mut left = places;
    while rest != 0 {
        left -= 1;
        let unit = 10_u32.pow(left);
        push_digit(out, rest / unit)?;
        rest %= unit;
    }
    Ok(())
}

fn push_fraction(out: &mut String, parts: u32) -> Result<(), AllocError>
    requires { parts < 10 ^ 9 }
    ensures { OnOk result (chars (string_bytes out.new) ≡ chars (string_bytes out.old) ++ fraction_text parts) }
{
    if parts == 0 {
        return Ok(());
    }
    push_str(out, ".")?;
    push_decimals(out, 9, parts)
}

fn push_minus(out: &mut String, n: i128) -> Result<(), AllocError>
    ensures { OnOk result (chars (string_bytes out.new) ≡ chars (string_bytes out.old) ++ minus n) }
{
    if n < 0 {
        push_str(out, "-")?;
    }
    Ok(())
}

/// Appends a number in parts of 10^9.
fn push_parts(out: &mut String, n: i128) -> Result<(), AllocError>
    ensures { OnOk result (chars (string_bytes out.new) ≡ chars (string_bytes out.old) ++ number_text n) }
{
    let size = n.unsigned_abs();
    push_minus(out, n)?;
    push_number(out, size / 1_000_000_000)?;
    push_fraction(out, (size % 1_000_000_000) as u32)
}

fn push_count(out: &mut String, n: i64) -> Result<(), AllocError>
    ensures { OnOk result (chars (string_bytes out.new) ≡ chars (string_bytes out.old) ++ count_text n) }
{
    if n == 0 {
        return Ok(());
    }
    push_str(out, "(")?;
    push_signed(out, n)?;
    push_str(out, ")")
}

#[tactic(auto, unfolding(crate::specs::Literals::counted))]
fn push_counted(out: &mut String, word: &str, n: i64) -> Result<(), AllocError>
    requires { list_all is_ascii word.now ≡ true }
    ensures { OnOk result (chars (string_bytes out.new) ≡ chars (string_bytes out.old) ++ counted word.now n) }
{
    push_str(out, "$time.")?;
    push_str(out, word)?;
    push_count(out, n)
}

fn push_iso(out: &mut String, iso: &IsoText) -> Result<(), AllocError>
    ensures { OnOk result (chars (string_bytes out.new) ≡ chars (string_bytes out.old) ++ (codes "$time.iso(" ++ (iso.now ++ codes ")"))) }
{
    push_str(out, "$time.iso(")?;
    push_str(out, iso.text())?;
    push_str(out, ")")
}

fn push_time(out: &mut String, form: &Form) -> Result<(), AllocError>
    ensures { OnOk result (chars (string_bytes out.new) ≡ chars (string_bytes out.old) ++ time_text form.now) }
{
    match form {
        Form::Now(n) => push_counted(out, "now", *n),
        Form::Day(n) => push_counted(out, "today", *n),
        Form::Week(n) => push_counted(out, "this_week", *n),
        Form::Month(n) => push_counted(out, "this_month", *n),
        Form::Year(n) => push_counted(out, "this_year", *n),
        Form::Iso(iso) => push_iso(out, iso),
    }
}

/// Appends what a subject is compared with.
pub(crate) fn push_literal(out: &mut String, literal: &Literal) -> Result<(), AllocError>
    ensures { OnOk result (chars (string_bytes out.new) ≡ chars (string_bytes out.old) ++ literal_text literal.now) }
{
    match literal {
        Literal::Words {
            pieces,
            fold,
            marks,
        } => push_words(out, pieces.as_slice(), *fold, *marks),
        Literal::Number(n) => push_parts(out, *n),
        Literal::Time(form) => push_time(out, form),
        Literal::Present => push_str(out, "*"),
    }
}
