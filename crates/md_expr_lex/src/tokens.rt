// The tokens of a text.
ghost use Rattle.std.specs.Prelude.{◌≡◌, List, IfOk, MatchOption};
ghost use Rattle.md_expr_tree.specs.declared.token.Token.{Token};
ghost use Rattle.md_expr_tree.specs.Tokens.{Lexes};

use crate::class::is_blank;
use crate::find::token;
use crate::prefix::first;
use md_expr_tree::Token;
use std::alloc::{AllocError, Global};

/// The tokens of a text, if it is made of tokens. It has no others.
pub fn tokens(alloc: Global, text: &[char]) -> Result<Option<Vec<Token>>, AllocError>
    ensures ok { IfOk result (λ r. MatchOption r ((ts : List Token) → Lexes text.now ts → ⊥) (λ v. Lexes text.now v.items × ((ts : List Token) → Lexes text.now ts → ts ≡ v.items))) }
{
    let mut rest = text;
    let mut tokens = Vec::new(alloc);
    while let Some((c, tail)) = first(rest) {
        if is_blank(c) {
            rest = tail;
        } else {
            match token(alloc, rest)? {
                Some((t, following)) => {
                    tokens.push(t)?;
                    rest = following;
                }
                None => return Ok(None),
            }
        }
    }
    Ok(Some(tokens))
}
