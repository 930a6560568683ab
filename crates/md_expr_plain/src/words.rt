// The words of a plain search text.
ghost use Rattle.std.specs.Prelude.{◌≡◌, ◌∷◌, ◌++◌, [], IfOk, OnOk, chars, length, string_bytes};
ghost use Rattle.md_expr_tree.specs.Classes.{is_blank};
ghost use Rattle.md_expr_plain.specs.Plain.{is_word, words_of};

use std::alloc::{AllocError, Global};

/// Whether it is white space.
pub(crate) fn is_blank(c: char) -> bool
    ensures { result ≡ is_blank c }
{
    c == ' ' || c == '\t' || c == '\n' || c == '\r'
}

/// Whether it has a character.
pub(crate) fn is_word(part: &[char]) -> bool
    ensures { result ≡ is_word part.now }
{
    !part.is_empty()
}

/// How many words a text has.
pub(crate) fn word_count(text: &[char]) -> usize
    ensures { result ≡ length (words_of text.now) }
{
    text.split(|c| is_blank(*c))
        .filter(|part| is_word(part))
        .count()
}

/// The characters of a text.
pub(crate) fn characters(alloc: Global, text: &str) -> Result<Vec<char>, AllocError>
    ensures { IfOk result (λ v. v.items ≡ chars text.now) }
{
    text.chars().collect(alloc)
}

fn push(text: &mut String, c: char) -> Result<(), AllocError>
    ensures { OnOk result (chars (string_bytes text.new) ≡ chars (string_bytes text.old) ++ c ∷ []) }
{
    text.push(c)?;
    Ok(())
}

/// The text of characters.
pub(crate) fn text_of(alloc: Global, all: &[char]) -> Result<String, AllocError>
    ensures { IfOk result (λ text. chars (string_bytes text) ≡ all.now) }
{
    let mut text = String::new(alloc);
    for c in all {
        push(&mut text, *c)?;
    }
    Ok(text)
}
