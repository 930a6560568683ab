// Expressions that are ready to be tested on rows.
ghost use Rattle.std.specs.Prelude.{◌≡◌, List, map, IfOk};
ghost use Rattle.std.specs.List.{list_all, list_any};
ghost use Rattle.md_value.specs.Attrs.{Attr};
ghost use Rattle.md_match.specs.Satisfies.{satisfies};
ghost use Rattle.md_match.specs.Ready.{is_satisfied};

use crate::check::Check;
use md_expr_tree::Expr;
use md_time::LocalTime;
use md_value::Attrs;
use sqlite_items::{Boxed, Items};
use std::alloc::{AllocError, Global};

/// An expression with its keys made and its moments resolved.
#[derive(Drop)]
pub enum Ready {
    /// A comparison.
    Check(Check),
    /// Whether the other is not satisfied.
    Not(Boxed<Ready>),
    /// Whether all are satisfied.
    All(Items<Ready>),
    /// Whether some are satisfied.
    Any(Items<Ready>),
}

#[cycle(made)]
fn all_of(alloc: Global, list: &[Expr], local: &LocalTime) -> Result<Items<Ready>, AllocError>
    ensures { IfOk result (λ rs. (attrs : List Attr) → map (λ r. is_satisfied r attrs) rs ≡ map (λ e. satisfies local.now.moment local.now.offset e attrs) list.now) }
{
    let mut all = Items::new(alloc);
    for e in list {
        all.push(Ready::of(alloc, e, local)?)?;
    }
    Ok(all)
}

#[cycle(tested)]
fn all_satisfied(alloc: Global, list: &[Ready], attrs: &Attrs) -> Result<bool, AllocError>
    ensures { IfOk result (λ is. is ≡ list_all (λ r. is_satisfied r attrs.now) list.now) }
{
    for ready in list {
        if !ready.is_satisfied(alloc, attrs)? {
            return Ok(false);
        }
    }
    Ok(true)
}

#[cycle(tested)]
fn some_satisfied(alloc: Global, list: &[Ready], attrs: &Attrs) -> Result<bool, AllocError>
    ensures { IfOk result (λ is. is ≡ list_any (λ r. is_satisfied r attrs.now) list.now) }
{
    for ready in list {
        if ready.is_satisfied(alloc, attrs)? {
            return Ok(true);
        }
    }
    Ok(false)
}

impl Ready {
    /// The expression, with its forms of time resolved from the local time.
    #[cycle(made)]
    pub fn of(alloc: Global, expr: &Expr, local: &LocalTime) -> Result<Ready, AllocError>
        ensures { IfOk result (λ r. (attrs : List Attr) → is_satisfied r attrs ≡ satisfies local.now.moment local.now.offset expr.now attrs) }
    {
        match expr {
            Expr::Test(test) => Ok(Ready::Check(Check::of(alloc, test, local)?)),
            Expr::Not(inner) => {
                let inner = Ready::of(alloc, inner.get(), local)?;
                Ok(Ready::Not(Boxed::new(alloc, inner)?))
            }
            Expr::All(list) => Ok(Ready::All(all_of(alloc, list.as_slice(), local)?)),
            Expr::Any(list) => Ok(Ready::Any(all_of(alloc, list.as_slice(), local)?)),
        }
    }

    /// Whether the attributes satisfy it.
    #[cycle(tested)]
    pub fn is_satisfied(&self, alloc: Global, attrs: &Attrs) -> Result<bool, AllocError>
        ensures { IfOk result (λ is. is ≡ is_satisfied self.now attrs.now) }
    {
        match self {
            Ready::Check(check) => check.holds(alloc, attrs),
            Ready::Not(inner) => Ok(!inner.get().is_satisfied(alloc, attrs)?),
            Ready::All(list) => all_satisfied(alloc, list.as_slice(), attrs),
            Ready::Any(list) => some_satisfied(alloc, list.as_slice(), attrs),
        }
    }
}
