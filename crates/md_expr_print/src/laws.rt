// What is printed is read back.
ghost use Rattle.md_expr_tree.specs.Reads.{IsFit, Reads};
ghost use Rattle.md_expr_print.specs.Spell.{spell};

use md_expr_tree::Expr;

/// A law: the canonical spelling of an expression that some text reads as reads as that expression.
pub fn spelling_reads_back(expr: &Expr)
    ensures { IsFit expr.now → Reads (spell expr.now) expr.now }
{}
