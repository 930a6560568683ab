// Patterns with wildcards.
ghost use Rattle.std.specs.Prelude.{◌≡◌, ◌<◌, ◌↔◌, ℕ, List, chars, length, map, IsTrue, IfOk};
ghost use Rattle.md_text.specs.Key.{key};
ghost use Rattle.md_text.specs.Wild.{wild, IsMatch};

use crate::characters::{is_own_key, key_text};
use crate::scan::is_wild;
use md_value::Text;
use std::alloc::{AllocError, Global};
use std::marker::Model;

/// Pieces with a wildcard between each two. Contracts see the list of the pieces' keys.
#[derive(Debug, Drop)]
pub struct Pattern {
    pieces: Vec<Text>,
}

impl Model for Pattern {
    ghost use Rattle.std.specs.Prelude.{List, ℕ, ◌<◌, length};

    ghost Value = { List (List ℕ) };

    ghost view = { λ p. p.pieces.items };

    ghost invariant = { λ p. 0 < length p.pieces.items };
}

fn key_of(alloc: Global, piece: &Text, fold: bool, marks: bool) -> Result<Text, AllocError>
    ensures { IfOk result (λ made. made ≡ key fold marks piece.now) }
{
    let characters = key_text(alloc, piece.as_str(), fold, marks)?;
    Text::of(alloc, &characters)
}

impl Pattern {
    /// The pattern of the pieces, of which there is at least one, with case folded under `fold`
    /// and marks left out under `marks`.
    pub fn of(
        alloc: Global,
        pieces: &[Text],
        fold: bool,
        marks: bool,
    ) -> Result<Pattern, AllocError>
        requires { 0 < length pieces.now }
        ensures { IfOk result (λ made. made ≡ map (key fold marks) pieces.now) }
    {
        let mut made = Vec::with_capacity(alloc, pieces.len())?;
        for piece in pieces {
            made.push(key_of(alloc, piece, fold, marks)?)?;
        }
        Ok(Pattern { pieces: made })
    }

    /// Whether the text's key, with case folded under `fold` and marks left out under `marks`, is
    /// the first piece, any text, the next piece, and so on to the last piece. With one piece it
    /// has to be that piece.
    pub fn matches(
        &self,
        alloc: Global,
        text: &str,
        fold: bool,
        marks: bool,
    ) -> Result<bool, AllocError>
        ensures relation { IfOk result (λ is. IsTrue is ↔ IsMatch self.now (key fold marks (chars text.now))) }
        ensures computed { IfOk result (λ is. is ≡ wild self.now (key fold marks (chars text.now))) }
    {
        if is_own_key(text, fold) {
            return Ok(is_wild(text, self.pieces.as_slice()));
        }
        let characters = key_text(alloc, text, fold, marks)?;
        Ok(is_wild(&characters, self.pieces.as_slice()))
    }
}

/// A law: the test `wild` says of each text whether it matches.
pub fn wild_decides()
    ensures { (pieces : List (List ℕ)) (text : List ℕ)
        → IsTrue (wild pieces text) ↔ IsMatch pieces text }
{}
