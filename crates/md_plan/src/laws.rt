//! Laws of candidates.
ghost use Rattle.std.specs.Prelude.{ℕ, ℤ};
ghost use Rattle.md_world.specs.declared.Row.{Row as AnyRow};
ghost use Rattle.md_match.specs.Candidates.{RowSet};
ghost use Rattle.md_plan.specs.Hits.{IsHit, AreHits};

use md_expr_tree::Expr;

#[cycle(hits)]
fn each_among(list: &[Expr])
    ensures { (size : RowSet → ℕ) (now offset : ℤ) (row : AnyRow) → AreHits size now offset row list.now }
{
    for expr in list {
        hits_are_among(expr);
    }
}

/// Each row that satisfies an expression is among its candidates, whatever the sizes of sets are. Does nothing.
#[cycle(hits)]
pub fn hits_are_among(expr: &Expr)
    ensures { (size : RowSet → ℕ) (now offset : ℤ) (row : AnyRow) → IsHit size now offset row expr.now }
{
    match expr {
        Expr::Test(_) => {}
        Expr::Not(_) => {}
        Expr::All(list) => each_among(list.as_slice()),
        Expr::Any(list) => each_among(list.as_slice()),
    }
}
