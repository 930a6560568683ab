// What the verdict on a script means, and what the expression of a query is.
ghost use Rattle.std.specs.Prelude.{◌≡◌, ◌≢◌, ℕ, ◌<◌, ◌≤◌, ◌↔◌, true, List, length, Some, None, Ok, Err};
ghost use Rattle.std.specs.Str.{is_utf8};
ghost use Rattle.std.specs.Str.Lines.{lines};
ghost use Rattle.md_expr_tree.specs.declared.tree.Expr.{Expr};
ghost use Rattle.md_expr.specs.Verdict.{IsVerdict};
ghost use Rattle.md_script.specs.Scripts.{verdict, first_bad, statements, IsShort};
ghost use Rattle.md_script.specs.Limits.{most_bytes, most_lines};
ghost use Rattle.md_script.specs.Words.{expression_of};
ghost use Rattle.md_script.specs.declared.script.Line.{Line};
ghost use Rattle.md_script.specs.declared.script.ScriptError.TheVariants.{TooLong, TooManyLines, BadLine, Memory};

/// For every script, the causes of a refusal exclude each other and acceptance, and one of them stands.
pub fn one_reading()
    ensures too_long { (bytes : List ℕ) → (verdict bytes ≡ Err TooLong) ↔ (most_bytes < length bytes) }
    ensures too_many_lines { (bytes : List ℕ) → (verdict bytes ≡ Err TooManyLines) ↔ ((length bytes ≤ most_bytes) × (most_lines < length (lines bytes))) }
    ensures bad_line { (bytes : List ℕ) (number : ℕ) → (verdict bytes ≡ Err (BadLine number)) ↔ (IsShort bytes × (first_bad bytes ≡ Some number)) }
    ensures accepted { (bytes : List ℕ) (read : List Line) → (verdict bytes ≡ Ok read) ↔ (IsShort bytes × (first_bad bytes ≡ None) × (read ≡ statements bytes)) }
    // Want of memory is no verdict.
    ensures memory { (bytes : List ℕ) → verdict bytes ≢ Err Memory }
{}

/// The text after `where` gives an expression exactly where it is UTF-8 and reads as that expression by the grammar, within the
/// limits.
pub fn expressions_are_read()
    ensures { (text : List ℕ) (expr : Expr) → (expression_of text ≡ Some expr) ↔ ((is_utf8 text ≡ true) × IsVerdict (Ok expr) text) }
{}
