// The expression that is searched for.
ghost use Rattle.std.specs.Prelude.{◌≡◌, ◌⊎◌, ◌∷◌, [], IfOk, Err, true};
ghost use Rattle.std.specs.List.{list_any};
ghost use Rattle.std.specs.Option.{option_map};
ghost use Rattle.md_expr_tree.specs.WellMade.{is_well_made};
ghost use Rattle.md_expr_parse.specs.declared.read.ReadError.TheVariants.{Memory};
ghost use Rattle.md_find.specs.Searches.{is_sign, has_part, looks_like_expression, searched, search_of};

use md_expr::{Expr, ReadError, interpret, named, read};
use md_words::Mode;
use sqlite_items::Items;
use std::alloc::{AllocError, Global};

fn is_sign(byte: u8) -> bool
    ensures { result ≡ is_sign byte }
{
    matches!(byte, b'=' | b'<' | b'>')
}

fn has_sign(text: &[u8]) -> bool
    ensures { result ≡ list_any is_sign text.now }
{
    text.iter().any(|byte| is_sign(*byte))
}

fn has_part(part: &str, text: &str) -> bool
    ensures { result ≡ has_part part.now text.now }
{
    text.contains(part)
}

// Whether a text that may be either is read as an expression.
#[tactic(auto, unfolding(crate::specs::Searches::looks_like_expression))]
fn looks_like_expression(text: &str) -> bool
    ensures { result ≡ looks_like_expression text.now }
{
    has_sign(text.as_bytes()) || has_part("InRange(", text)
}

// The expression of a search text.
#[tactic(auto, unfolding(crate::specs::Readings::reading_of))]
fn searched(alloc: Global, mode: Mode, text: &str) -> Result<Expr, ReadError>
    ensures answer { (result ≡ searched mode text.now) ⊎ (result ≡ Err Memory) }
    ensures well_made { IfOk result (λ e. is_well_made e ≡ true) }
{
    match mode {
        Mode::Literal => read(alloc, text),
        Mode::Plain => interpret(alloc, text),
        Mode::Guess => {
            if looks_like_expression(text) {
                read(alloc, text)
            } else {
                interpret(alloc, text)
            }
        }
    }
}

// Both expressions, in this order.
fn both(alloc: Global, first: Expr, second: Expr) -> Result<Expr, AllocError>
    requires first { is_well_made first ≡ true }
    requires second { is_well_made second ≡ true }
    ensures both { IfOk result (λ e. e ≡ Expr.All (first ∷ second ∷ [])) }
    ensures well_made { IfOk result (λ e. is_well_made e ≡ true) }
{
    let mut members = Items::new(alloc);
    members.push(first)?;
    members.push(second)?;
    Ok(Expr::All(members))
}

/// The expression that is searched for by a name, a search text or both: a test whether the file's name has the name in
/// it, with case and diacritical marks ignored, and what the text stands for. With neither, the text is empty.
///
/// The text is an expression by `Literal` and a plain search text by `Plain`. By `Guess` it is an expression exactly
/// where it has one of `=`, `<`, `>` or the text `InRange(`. A refusal is that of the text.
pub fn search(
    alloc: Global,
    name: Option<&str>,
    mode: Mode,
    text: Option<&str>,
) -> Result<Expr, ReadError>
    ensures answer { (result ≡ search_of (option_map (λ t. t.now) name.entry) mode (option_map (λ t. t.now) text.entry)) ⊎ (result ≡ Err Memory) }
    ensures well_made { IfOk result (λ e. is_well_made e ≡ true) }
{
    match (name, text) {
        (Some(name), Some(text)) => {
            let name = named(alloc, name)?;
            let text = searched(alloc, mode, text)?;
            Ok(both(alloc, name, text)?)
        }
        (Some(name), None) => Ok(named(alloc, name)?),
        (None, Some(text)) => searched(alloc, mode, text),
        (None, None) => searched(alloc, mode, ""),
    }
}
