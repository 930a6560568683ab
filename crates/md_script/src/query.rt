// The line of a query.
ghost use Rattle.std.specs.Prelude.{◌≡◌, [], IfOk, unwrap_or};
ghost use Rattle.md_script.specs.Query.{batch_of, order_of, query_by, query_of};

use crate::What;
use crate::lines::split_word;
use crate::options::{Options, options_of};
use crate::words::{expression_of, number_of};
use md_expr::Expr;
use md_machine::Batch;
use md_value::{Path, PlainVec};
use md_world::{NotShown, Order, SortKey};
use std::alloc::{AllocError, Global};

fn scope_or_root(alloc: Global, scope: Option<Path>) -> Path
    ensures { result ≡ unwrap_or scope [] }
{
    match scope {
        Some(scope) => scope,
        None => Path::root(alloc),
    }
}

fn order_of(keys: PlainVec<SortKey>) -> Option<Order>
    ensures { result ≡ order_of keys }
{
    match Order::of(keys.into_vec()) {
        Ok(order) => Some(order),
        Err(NotShown) => None,
    }
}

fn batch_of(
    first: Option<u32>,
    progress: Option<u32>,
    update: Option<u32>,
    ms: Option<u64>,
) -> Option<Batch>
    ensures { result ≡ batch_of first progress update ms }
{
    Batch::new(first, progress, update, ms)
}

#[tactic(auto, unfolding(crate::specs::Query::query_by))]
fn query_by(alloc: Global, client: u8, number: u32, options: Options, expr: Expr) -> Option<What>
    ensures { result ≡ query_by client number options expr }
{
    let Options {
        scope,
        first,
        progress,
        update,
        ms,
        keys,
    } = options;
    let order = order_of(keys)?;
    let batch = batch_of(first, progress, update, ms)?;
    Some(What::Query {
        client,
        number,
        expr,
        scope: scope_or_root(alloc, scope),
        order,
        batch,
    })
}

/// The query of `N OPTIONS where EXPRESSION` or `N where EXPRESSION`.
#[tactic(auto, unfolding(crate::specs::Query::query_of))]
pub fn query_of(alloc: Global, client: u8, rest: &[u8]) -> Result<Option<What>, AllocError>
    ensures { IfOk result (λ what. what ≡ query_of client rest.now) }
{
    let (word, rest) = split_word(rest);
    let Some(number) = number_of(word) else {
        return Ok(None);
    };
    let Some((options, text)) = options_of(alloc, rest)? else {
        return Ok(None);
    };
    match expression_of(alloc, text)? {
        Some(expr) => Ok(query_by(alloc, client, number, options, expr)),
        None => Ok(None),
    }
}
