// Tokens as an expression.
ghost use Rattle.std.specs.Prelude.{◌≡◌, ◌<◌, ◌≤◌, ◌^◌, ◌++◌, ◌∷◌, [], length, IfOk, Some, None, false, MatchOption};
ghost use Rattle.std.specs.Option.{option_map, option_and_then};
ghost use Rattle.md_expr_tree.specs.declared.tree.Expr.{Expr};
ghost use Rattle.md_expr_tree.specs.Grammar.{IsExpression};
ghost use Rattle.md_expr_parse.specs.Group.{group};
ghost use Rattle.md_expr_parse.specs.Machine.{run};
ghost use Rattle.md_expr_parse.specs.Reading.{Reading};

use crate::build::Builder;
use crate::group::{item, next};
use crate::survey::measure;
use md_expr_tree::{Expr, Item, Token};
use std::alloc::{AllocError, Global};
use std::collections::VecDeque;

/// The most groups that are open at one place of an expression.
pub const MOST_GROUPS: usize = 64;

/// The most comparisons of an expression.
pub const MOST_COMPARISONS: usize = 4096;

/// The items of the tokens, if there are such.
pub fn items(alloc: Global, tokens: VecDeque<Token>) -> Result<Option<Vec<Item>>, AllocError>
    ensures { IfOk result (λ r. option_map (λ q. q.items) r ≡ group 0 tokens.items) }
{
    let mut tokens = tokens;
    let mut items = Vec::new(alloc);
    while let Some(first) = next(&mut tokens) {
        match item(first, &mut tokens) {
            Some(i) => items.push(i)?,
            None => return Ok(None),
        }
    }
    Ok(Some(items))
}

fn next_item(items: &mut VecDeque<Item>) -> Option<Item>
    ensures { MatchOption result (items.old.items ≡ []) (λ i. items.old.items ≡ i ∷ items.new.items) }
{
    items.pop_front()
}

/// The expression of the items, if they are one.
pub fn expression(alloc: Global, items: Vec<Item>) -> Result<Option<Expr>, AllocError>
    ensures { IfOk result (λ r. r ≡ run false [] [] [] items.items) }
{
    let mut items = VecDeque::from(items);
    let mut builder = Builder::new(alloc);
    while let Some(i) = next_item(&mut items) {
        match builder.step(alloc, i)? {
            Some(next) => builder = next,
            None => return Ok(None),
        }
    }
    builder.finish()
}

/// Why a text is not read as an expression.
#[derive(Clone, Copy, Debug, PartialEq, Eq)]
pub enum ReadError {
    /// The text has over 65,536 bytes.
    TooLong,
    /// The text is not in the grammar, or a plain text has no word.
    NotExpression,
    /// Over 64 groups are open at one place.
    TooDeep,
    /// There are over 4,096 comparisons.
    TooMany,
    /// Memory ran out.
    Memory,
}

impl From<AllocError> for ReadError {
    ghost use Rattle.md_expr_parse.specs.declared.read.ReadError.TheVariants.{Memory};

    ghost from_gives = { λ _ e. e ≡ Memory };

    fn from(_: AllocError) -> ReadError {
        ReadError::Memory
    }
}

/// The expression of the tokens.
pub fn read(alloc: Global, tokens: VecDeque<Token>) -> Result<Expr, ReadError>
    ensures { Reading result tokens.items }
{
    let Some(items) = items(alloc, tokens)? else {
        return Err(ReadError::NotExpression);
    };
    let Some(place) = measure(items.as_slice()) else {
        return Err(ReadError::NotExpression);
    };
    if MOST_GROUPS < place.deepest {
        return Err(ReadError::TooDeep);
    }
    if MOST_COMPARISONS < place.comparisons {
        return Err(ReadError::TooMany);
    }
    match expression(alloc, items)? {
        Some(e) => Ok(e),
        None => Err(ReadError::NotExpression),
    }
}
