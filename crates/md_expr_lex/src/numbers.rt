// Numbers in decimal digits.
ghost use Rattle.std.specs.Prelude.{◌≡◌, ◌∷◌, ◌≤◌, ◌<◌, ◌^◌, ◌*◌, ◌+◌, ◌-◌, Some, None, length, MatchOption};
ghost use Rattle.std.specs.Option.{option_map};
ghost use Rattle.md_expr_tree.specs.Numbers.{value_of, signed, most};
ghost use Rattle.md_expr_lex.specs.Numbers.{whole_of, scale_of, decimals_of, fraction_at, in_parts, sized, ended, number_at};

use crate::prefix::{digits, lengthens_number};
use md_expr_tree::{Literal, Token};

/// The value with one more digit, where it is at most 2^63.
fn shift(before: u64, digit: char) -> Option<u64>
    requires { before ≤ 2 ^ 63 }
    ensures { MatchOption result (2 ^ 63 < before * 10 + (digit - 48)) (λ n. (n ≡ before * 10 + (digit - 48)) × (n ≤ 2 ^ 63)) }
{
    let more = before as u128 * 10 + (digit as u32).saturating_sub(48) as u128;
    if 1 << 63 < more {
        None
    } else {
        Some(more as u64)
    }
}

/// The value of digits, where it is at most 2^63.
#[tactic(auto, using(crate::proofs::Values::too_large))]
fn value(digits: &[char]) -> Option<u64>
    ensures { MatchOption result (2 ^ 63 < value_of digits.now) (λ n. (n ≡ value_of digits.now) × (n ≤ 2 ^ 63)) }
{
    let mut all = 0;
    for d in digits {
        match shift(all, *d) {
            Some(more) => all = more,
            None => return None,
        }
    }
    Some(all)
}

/// The greatest size of a 64-bit number of this sign.
fn most(is_negative: bool) -> u64
    ensures { result ≡ most is_negative }
{
    if is_negative { 1 << 63 } else { (1 << 63) - 1 }
}

fn signed(is_negative: bool, size: u128) -> i128
    requires { size < 2 ^ 127 }
    ensures { result ≡ signed is_negative size }
{
    let size = size as i128;
    if is_negative { -size } else { size }
}

/// The value of digits, where it is a number of 64 bits with sign.
pub(crate) fn whole(is_negative: bool, digits: &[char]) -> Option<i64>
    ensures { result ≡ whole_of is_negative digits.now }
{
    if digits.is_empty() {
        return None;
    }
    let size = value(digits)?;
    if most(is_negative) < size {
        return None;
    }
    Some(signed(is_negative, size as u128) as i64)
}

/// What the last of the decimals counts, in parts of 10^9.
fn scale(decimals: usize) -> Option<u64>
    ensures value { result ≡ scale_of decimals }
    ensures bound { MatchOption result (0 ≤ 0) (λ n. n ≤ 100000000) }
{
    match decimals {
        1 => Some(100_000_000),
        2 => Some(10_000_000),
        3 => Some(1_000_000),
        4 => Some(100_000),
        5 => Some(10_000),
        6 => Some(1_000),
        7 => Some(100),
        8 => Some(10),
        9 => Some(1),
        _ => None,
    }
}

fn decimals(text: &[char]) -> Option<(u128, &[char])>
    ensures value { option_map (λ x. (x.0, x.1.now)) result ≡ fraction_at (46 ∷ text.now) }
    ensures bound { MatchOption result (0 ≤ 0) (λ x. x.0 ≤ 2 ^ 63 * 100000000) }
{
    let (found, rest) = digits(text);
    let all = value(found)?;
    let scale = scale(found.len())?;
    Some((all as u128 * scale as u128, rest))
}

/// The decimals, in parts of 10^9, and what follows them.
fn fraction(text: &[char]) -> Option<(u128, &[char])>
    ensures value { option_map (λ x. (x.0, x.1.now)) result ≡ fraction_at text.now }
    ensures bound { MatchOption result (0 ≤ 0) (λ x. x.0 ≤ 2 ^ 63 * 100000000) }
{
    match text {
        ['.', rest @ ..] => decimals(rest),
        _ => Some((0, text)),
    }
}

fn in_parts(is_negative: bool, whole: u64, parts: u128) -> Option<i128>
    requires whole { whole ≤ 2 ^ 63 }
    requires parts { parts ≤ 2 ^ 63 * 100000000 }
    ensures { result ≡ in_parts is_negative whole parts }
{
    let size = whole as u128 * 1_000_000_000 + parts;
    if most(is_negative) as u128 * 1_000_000_000 < size {
        return None;
    }
    Some(signed(is_negative, size))
}

fn sized(is_negative: bool, digits: &[char], parts: u128) -> Option<i128>
    requires { parts ≤ 2 ^ 63 * 100000000 }
    ensures { result ≡ sized is_negative digits.now parts }
{
    if digits.is_empty() {
        return None;
    }
    in_parts(is_negative, value(digits)?, parts)
}

/// The number behind its sign.
pub(crate) fn number(is_negative: bool, text: &[char]) -> Option<(Token, &[char])>
    ensures { option_map (λ x. (x.0, x.1.now)) result ≡ number_at is_negative text.now }
{
    let (found, text) = digits(text);
    let (parts, rest) = fraction(text)?;
    if lengthens_number(rest) {
        return None;
    }
    let number = sized(is_negative, found, parts)?;
    Some((Token::Value(Literal::Number(number)), rest))
}
