// Plans and the rows that they find.
ghost use Rattle.std.specs.Prelude.{◌≡◌, ℕ, map, true, false, IfOk};
ghost use Rattle.md_match.specs.Candidates.{RowSet, narrows, candidate};
ghost use Rattle.md_plan.specs.Plans.{plan_set, some_set};

use crate::compare::{narrows, probe_between, probe_of};
use md_expr_tree::{Expr, Literal, Op, Subject, Test};
use md_index::Probe;
use md_match::Filter;
use md_time::LocalTime;
use md_value::Name;
use sqlite_items::Items;
use std::alloc::{AllocError, Global};

/// Which rows an index finds.
#[derive(Drop)]
pub enum Plan {
    /// All rows.
    All,
    /// Those with a value between two edges.
    Probe(Probe),
    /// Those of the smallest of these, the first where some are of one size.
    Least(Items<Plan>),
    /// Those of some of these.
    Union(Items<Plan>),
}

// The rows of a probe, or none.
fn found(alloc: Global, probe: Option<Probe>) -> Plan
    ensures { (size : RowSet → ℕ) → plan_set size result ≡ some_set probe }
{
    match probe {
        Some(probe) => Plan::Probe(probe),
        None => Plan::Union(Items::new(alloc)),
    }
}

// The plan of a comparison of a named attribute.
fn of_comparison(
    alloc: Global,
    name: &Name,
    op: Op,
    literal: &Literal,
    local: &LocalTime,
) -> Result<Plan, AllocError>
    requires { narrows (Test.Compare (Subject.Named name.now) op literal.now) ≡ true }
    ensures { IfOk result (λ plan. (size : RowSet → ℕ) → plan_set size plan ≡ candidate size local.now.moment local.now.offset (Expr.Test (Test.Compare (Subject.Named name.now) op literal.now))) }
{
    let probe = probe_of(alloc, name, op, literal, local)?;
    Ok(found(alloc, probe))
}

// The plan of a comparison with two bounds.
fn of_range(
    alloc: Global,
    name: &Name,
    least: &Literal,
    greatest: &Literal,
    local: &LocalTime,
) -> Result<Plan, AllocError>
    requires { narrows (Test.Range name.now least.now greatest.now) ≡ true }
    ensures { IfOk result (λ plan. (size : RowSet → ℕ) → plan_set size plan ≡ candidate size local.now.moment local.now.offset (Expr.Test (Test.Range name.now least.now greatest.now))) }
{
    let probe = probe_between(alloc, name, least, greatest, local)?;
    Ok(found(alloc, probe))
}

// All rows, for a comparison that does not narrow.
fn of_other(test: &Test, local: &LocalTime) -> Plan
    requires { narrows test.now ≡ false }
    ensures { (size : RowSet → ℕ) → plan_set size result ≡ candidate size local.now.moment local.now.offset (Expr.Test test.now) }
{
    let _ = test;
    let _ = local;
    Plan::All
}

fn of_narrow(alloc: Global, test: &Test, local: &LocalTime) -> Result<Plan, AllocError>
    requires { narrows test.now ≡ true }
    ensures { IfOk result (λ plan. (size : RowSet → ℕ) → plan_set size plan ≡ candidate size local.now.moment local.now.offset (Expr.Test test.now)) }
{
    match test {
        Test::Compare {
            subject: Subject::Named(name),
            op,
            literal,
        } => of_comparison(alloc, name, *op, literal, local),
        Test::Compare {
            subject: Subject::Some,
            ..
        } => Ok(Plan::All),
        Test::Range {
            name,
            least,
            greatest,
        } => of_range(alloc, name, least, greatest, local),
    }
}

fn of_test(alloc: Global, test: &Test, local: &LocalTime) -> Result<Plan, AllocError>
    ensures { IfOk result (λ plan. (size : RowSet → ℕ) → plan_set size plan ≡ candidate size local.now.moment local.now.offset (Expr.Test test.now)) }
{
    if !narrows(test) {
        return Ok(of_other(test, local));
    }
    of_narrow(alloc, test, local)
}

#[cycle(made)]
fn all_of(alloc: Global, list: &[Expr], local: &LocalTime) -> Result<Items<Plan>, AllocError>
    ensures { IfOk result (λ plans. (size : RowSet → ℕ) → map (plan_set size) plans ≡ map (candidate size local.now.moment local.now.offset) list.now) }
{
    let mut all = Items::new(alloc);
    for expr in list {
        all.push(of_expr(alloc, expr, local)?)?;
    }
    Ok(all)
}

#[cycle(made)]
fn of_expr(alloc: Global, expr: &Expr, local: &LocalTime) -> Result<Plan, AllocError>
    ensures { IfOk result (λ plan. (size : RowSet → ℕ) → plan_set size plan ≡ candidate size local.now.moment local.now.offset expr.now) }
{
    match expr {
        Expr::Test(test) => of_test(alloc, test, local),
        Expr::Not(_) => Ok(Plan::All),
        Expr::All(list) => Ok(Plan::Least(all_of(alloc, list.as_slice(), local)?)),
        Expr::Any(list) => Ok(Plan::Union(all_of(alloc, list.as_slice(), local)?)),
    }
}

/// The plan that finds the candidates of a filter's expression.
pub fn plan_of(alloc: Global, filter: &Filter) -> Result<Plan, AllocError>
    ensures { IfOk result (λ plan. (size : RowSet → ℕ) → plan_set size plan ≡ candidate size filter.now.moment filter.now.offset filter.now.expr) }
{
    let local = LocalTime {
        moment: filter.now(),
        offset: filter.offset(),
    };
    of_expr(alloc, filter.expr(), &local)
}
