// The expression that a text reads as.
ghost use Rattle.std.specs.Prelude.{◌≡◌, ◌⊎◌, IfOk, Err, true, chars};
ghost use Rattle.md_expr_tree.specs.WellMade.{is_well_made};
ghost use Rattle.md_expr_parse.specs.declared.read.ReadError.TheVariants.{Memory};
ghost use Rattle.md_expr.specs.Verdict.{IsVerdict, HasOneReading};
ghost use Rattle.md_expr.specs.Printed.{IsReadBack};
ghost use Rattle.md_expr.specs.Reader.{verdict, IsOneVerdict};

use md_expr_lex::{characters, tokens_of};
use md_expr_parse::{ReadError, read_tokens};
use md_expr_plain::MOST_BYTES;
use md_expr_tree::Expr;
use std::alloc::Global;
use std::collections::VecDeque;

/// The expression that the text reads as. The grammar and its meaning stand in `docs/EXPRESSIONS.md`.
///
/// The refusals are tried in this order: `TooLong` exactly where the text has over 65,536 bytes, `NotExpression`
/// exactly where it is not in the grammar, `TooDeep` exactly where over 64 groups are open at one place, `TooMany`
/// exactly where it has over 4,096 comparisons.
pub fn read(alloc: Global, text: &str) -> Result<Expr, ReadError>
    ensures answer { IsVerdict result text.now }
    ensures verdict { (result ≡ verdict text.now) ⊎ (result ≡ Err Memory) }
    ensures well_made { IfOk result (λ e. is_well_made e ≡ true) }
{
    if MOST_BYTES < text.len() {
        return Err(ReadError::TooLong);
    }
    let text = characters(alloc, text)?;
    let Some(tokens) = tokens_of(alloc, &text)? else {
        return Err(ReadError::NotExpression);
    };
    read_tokens(alloc, VecDeque::from(tokens))
}

/// A law: a text reads as at most one expression, and in one way of opening groups.
pub fn one_reading(text: &str)
    ensures { HasOneReading (chars text.now) }
{}

/// A law: what reading a text answers can be computed, and want of memory is the only other answer.
pub fn one_verdict(text: &str)
    ensures { IsOneVerdict text.now }
{}

/// A law: what is printed of an expression that some text reads as is read back as that expression, where the spelling
/// has at most 65,536 bytes, at most 64 groups open at one place and at most 4,096 comparisons.
pub fn printed_is_read(expr: &Expr, text: &str)
    ensures { IsReadBack expr.now text.now }
{}
