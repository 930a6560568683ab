// The first form of time of an expression that is out of range.
ghost use Rattle.std.specs.Prelude.{◌≡◌, ◌∷◌, ◌++◌, [], is_none, map};
ghost use Rattle.std.specs.Option.{option_map};
ghost use Rattle.md_time.specs.Moments.{moment_of};
ghost use Rattle.md_match.specs.Forms.{forms_of_literal, forms_of_test, joined, forms, first_out_of_range, capped, searched};

use md_expr_tree::{Expr, Literal, Test};
use md_time::{Form, LocalTime};

/// How far a search for a form that is out of range has come. Numbers stop at the greatest one.
#[derive(Clone, Copy, Debug, Drop)]
pub enum Searched {
    /// The form of this number is the first that is out of range.
    Out(u32),
    /// So many forms were seen, and all are in range.
    InRange(u32),
}

fn is_out_of_range(form: &Form, local: &LocalTime) -> bool
    ensures { result ≡ is_none (moment_of form.now local.now.moment local.now.offset) }
{
    form.moment(local.moment, local.offset).is_err()
}

fn in_form(form: &Form, local: &LocalTime, seen: u32) -> Searched
    ensures { result ≡ searched local.now.moment local.now.offset seen (form.now ∷ []) }
{
    let number = seen.saturating_add(1);
    if is_out_of_range(form, local) {
        Searched::Out(number)
    } else {
        Searched::InRange(number)
    }
}

fn in_literal(literal: &Literal, local: &LocalTime, seen: u32) -> Searched
    ensures { result ≡ searched local.now.moment local.now.offset seen (forms_of_literal literal.now) }
{
    match literal {
        Literal::Time(form) => in_form(form, local, seen),
        _ => Searched::InRange(seen),
    }
}

#[tactic(auto, using(crate::proofs::Times::search_append))]
fn in_range(least: &Literal, greatest: &Literal, local: &LocalTime, seen: u32) -> Searched
    ensures { result ≡ searched local.now.moment local.now.offset seen (forms_of_literal least.now ++ forms_of_literal greatest.now) }
{
    match in_literal(least, local, seen) {
        Searched::Out(number) => Searched::Out(number),
        Searched::InRange(seen) => in_literal(greatest, local, seen),
    }
}

fn in_test(test: &Test, local: &LocalTime, seen: u32) -> Searched
    ensures { result ≡ searched local.now.moment local.now.offset seen (forms_of_test test.now) }
{
    match test {
        Test::Compare { literal, .. } => in_literal(literal, local, seen),
        Test::Range {
            least,
            greatest,
            ..
        } => in_range(least, greatest, local, seen),
    }
}

#[cycle(search)]
fn in_all(list: &[Expr], local: &LocalTime, seen: u32) -> Searched
    ensures { result ≡ searched local.now.moment local.now.offset seen (joined (map forms list.now)) }
{
    let mut seen = seen;
    for e in list {
        match in_expr(e, local, seen) {
            Searched::Out(number) => return Searched::Out(number),
            Searched::InRange(more) => seen = more,
        }
    }
    Searched::InRange(seen)
}

#[cycle(search)]
fn in_expr(expr: &Expr, local: &LocalTime, seen: u32) -> Searched
    ensures { result ≡ searched local.now.moment local.now.offset seen (forms expr.now) }
{
    match expr {
        Expr::Test(test) => in_test(test, local, seen),
        Expr::Not(inner) => in_expr(inner.get(), local, seen),
        Expr::All(list) => in_all(list.as_slice(), local, seen),
        Expr::Any(list) => in_all(list.as_slice(), local, seen),
    }
}

fn first_out(expr: &Expr, local: &LocalTime) -> Option<u32>
    ensures { result ≡ option_map capped (first_out_of_range local.now.moment local.now.offset expr.now) }
{
    match in_expr(expr, local, 0) {
        Searched::Out(number) => Some(number),
        Searched::InRange(_) => None,
    }
}

/// The number from 1, in reading order, of the first form of time whose moment is out of range, where the forms are resolved
/// from `now`, in seconds since 1970 in UTC, at `offset`, the minutes by which local time is ahead of UTC. In place of a
/// number over 4,294,967,295 it is that. Takes no memory.
pub fn first_out_of_range(expr: &Expr, now: i64, offset: i32) -> Option<u32>
    ensures { result ≡ option_map capped (first_out_of_range now offset expr.now) }
{
    let local = LocalTime {
        moment: now,
        offset,
    };
    first_out(expr, &local)
}
