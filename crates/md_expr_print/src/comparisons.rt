// Comparisons.
ghost use Rattle.std.specs.Prelude.{◌≡◌, ◌++◌, true, OnOk, chars, string_bytes};
ghost use Rattle.std.specs.Char.{is_ascii};
ghost use Rattle.std.specs.List.{list_all};
ghost use Rattle.md_expr_tree.specs.declared.tree.Test.TheVariants.{Compare, Range};
ghost use Rattle.md_expr_print.specs.Spell.{op_text, subject_text, test_text};

use crate::literals::push_literal;
use crate::pushes::{push_str, push_text};
use md_expr_tree::{Literal, Op, Subject, Test};
use md_value::Name;
use std::alloc::AllocError;

fn push_name(out: &mut String, name: &Name) -> Result<(), AllocError>
    ensures { OnOk result (chars (string_bytes out.new) ≡ chars (string_bytes out.old) ++ chars name.now) }
{
    push_text(out, name.as_str())
}

fn push_subject(out: &mut String, subject: &Subject) -> Result<(), AllocError>
    ensures { OnOk result (chars (string_bytes out.new) ≡ chars (string_bytes out.old) ++ subject_text subject.now) }
{
    match subject {
        Subject::Named(name) => push_name(out, name),
        Subject::Some => push_str(out, "*"),
    }
}

fn op_text(op: Op) -> &'static str
    ensures text { result.now ≡ op_text op }
    ensures ascii { list_all is_ascii result.now ≡ true }
{
    match op {
        Op::Equal => "==",
        Op::NotEqual => "!=",
        Op::Less => "<",
        Op::Greater => ">",
        Op::LessEqual => "<=",
        Op::GreaterEqual => ">=",
    }
}

fn push_compare(
    out: &mut String,
    subject: &Subject,
    op: Op,
    literal: &Literal,
) -> Result<(), AllocError>
    ensures { OnOk result (chars (string_bytes out.new) ≡ chars (string_bytes out.old) ++ test_text (Compare subject.now op literal.now)) }
{
    push_subject(out, subject)?;
    push_str(out, " ")?;
    push_str(out, op_text(op))?;
    push_str(out, " ")?;
    push_literal(out, literal)
}

fn push_range(
    out: &mut String,
    name: &Name,
    least: &Literal,
    greatest: &Literal,
) -> Result<(), AllocError>
    ensures { OnOk result (chars (string_bytes out.new) ≡ chars (string_bytes out.old) ++ test_text (Range name.now least.now greatest.now)) }
{
    push_str(out, "InRange(")?;
    push_name(out, name)?;
    push_str(out, ", ")?;
    push_literal(out, least)?;
    push_str(out, ", ")?;
    push_literal(out, greatest)?;
    push_str(out, ")")
}

/// Appends a comparison.
pub(crate) fn push_test(out: &mut String, test: &Test) -> Result<(), AllocError>
    ensures { OnOk result (chars (string_bytes out.new) ≡ chars (string_bytes out.old) ++ test_text test.now) }
{
    match test {
        Test::Compare {
            subject,
            op,
            literal,
        } => push_compare(out, subject, *op, literal),
        Test::Range {
            name,
            least,
            greatest,
        } => push_range(out, name, least, greatest),
    }
}
