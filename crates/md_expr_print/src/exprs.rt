// Chains, groups and whole expressions.
ghost use Rattle.std.specs.Prelude.{◌≡◌, ◌++◌, map, codes, IfOk, OnOk, chars, string_bytes};
ghost use Rattle.md_expr_tree.specs.Reads.{IsFit, Reads};
ghost use Rattle.md_expr_print.specs.Literals.{join};
ghost use Rattle.md_expr_print.specs.Spell.{in_all, in_any, in_group, spell, spelling};

use crate::comparisons::push_test;
use crate::pushes::{push_between, push_str};
use md_expr_tree::Expr;
use md_value::Memory;
use std::alloc::{AllocError, Global};

#[cycle(spell)]
fn push_group(out: &mut String, e: &Expr) -> Result<(), AllocError>
    ensures { OnOk result (chars (string_bytes out.new) ≡ chars (string_bytes out.old) ++ in_group (spelling e.now).1) }
{
    push_str(out, "(")?;
    push_expr(out, e)?;
    push_str(out, ")")
}

#[cycle(spell)]
fn push_in_all(out: &mut String, e: &Expr) -> Result<(), AllocError>
    ensures { OnOk result (chars (string_bytes out.new) ≡ chars (string_bytes out.old) ++ in_all (spelling e.now)) }
{
    match e {
        Expr::Test(_) | Expr::Not(_) => push_expr(out, e),
        Expr::All(_) | Expr::Any(_) => push_group(out, e),
    }
}

#[cycle(spell)]
fn push_in_any(out: &mut String, e: &Expr) -> Result<(), AllocError>
    ensures { OnOk result (chars (string_bytes out.new) ≡ chars (string_bytes out.old) ++ in_any (spelling e.now)) }
{
    match e {
        Expr::Test(_) | Expr::Not(_) | Expr::All(_) => push_expr(out, e),
        Expr::Any(_) => push_group(out, e),
    }
}

#[cycle(spell)]
fn push_all(out: &mut String, members: &[Expr]) -> Result<(), AllocError>
    ensures { OnOk result (chars (string_bytes out.new) ≡ chars (string_bytes out.old) ++ join (codes " && ") (map in_all (map spelling members.now))) }
{
    let mut is_first = true;
    for member in members {
        push_between(out, is_first, " && ")?;
        is_first = false;
        push_in_all(out, member)?;
    }
    Ok(())
}

#[cycle(spell)]
fn push_any(out: &mut String, members: &[Expr]) -> Result<(), AllocError>
    ensures { OnOk result (chars (string_bytes out.new) ≡ chars (string_bytes out.old) ++ join (codes " || ") (map in_any (map spelling members.now))) }
{
    let mut is_first = true;
    for member in members {
        push_between(out, is_first, " || ")?;
        is_first = false;
        push_in_any(out, member)?;
    }
    Ok(())
}

#[cycle(spell)]
fn push_expr(out: &mut String, e: &Expr) -> Result<(), AllocError>
    ensures { OnOk result (chars (string_bytes out.new) ≡ chars (string_bytes out.old) ++ (spelling e.now).1) }
{
    match e {
        Expr::Test(test) => push_test(out, test),
        Expr::Not(inner) => {
            push_str(out, "!")?;
            push_group(out, inner.get())
        }
        Expr::All(members) => push_all(out, members.as_slice()),
        Expr::Any(members) => push_any(out, members.as_slice()),
    }
}

/// The canonical spelling of the expression, which reads as it where some text does. Fails only where memory runs out.
///
/// One space stands on each side of an operator, of `&&` and of `||`, and one behind a comma. Strings stand in double
/// quotes, with `"`, `\` and a literal `*` behind a `\`, and the modifiers `c` and `d` in this order. Numbers have no
/// needless zero, zero no sign, and a form of time a count only where it is not 0. `!` stands before a group. A member of
/// a chain of `&&` stands in parentheses where it is a chain, one of a chain of `||` where it is a chain of `||`.
pub fn print(alloc: Global, expr: &Expr) -> Result<String, Memory>
    ensures spelling { IfOk result (λ text. chars (string_bytes text) ≡ spell expr.now) }
    ensures reads_back { IfOk result (λ text. IsFit expr.now → Reads (chars (string_bytes text)) expr.now) }
{
    let mut out = String::new(alloc);
    push_expr(&mut out, expr)?;
    Ok(out)
}
