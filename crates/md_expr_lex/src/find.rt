// The token at the beginning of a text.
ghost use Rattle.std.specs.Prelude.{◌≡◌, IfOk};
ghost use Rattle.std.specs.Option.{option_map};
ghost use Rattle.md_value.specs.Name.{is_name_part};
ghost use Rattle.md_expr_lex.specs.Prefix.{prefix};
ghost use Rattle.md_expr_lex.specs.Find.{named, token_at};

use crate::class::{Kind, kind_of};
use crate::numbers::number;
use crate::prefix::{first, text_of, word};
use crate::signs::sign;
use crate::strings::string;
use crate::times::time;
use md_expr_tree::Token;
use md_value::{Name, NameError};
use std::alloc::{AllocError, Global};

/// The name, and what follows it.
#[tactic(auto, using(crate::proofs::Spellings::encodes_word))]
fn name(alloc: Global, text: &[char]) -> Result<Option<(Token, &[char])>, AllocError>
    ensures { IfOk result (λ r. option_map (λ x. (x.0, x.1.now)) r ≡ named (prefix is_name_part text.now)) }
{
    let (found, rest) = word(text);
    let found = text_of(alloc, found)?;
    match Name::read(alloc, found.as_str()) {
        Ok(name) => Ok(Some((Token::Name(name), rest))),
        Err(NameError::Bad) => Ok(None),
        Err(NameError::Memory) => Err(AllocError),
    }
}

/// The token at the beginning of a text, and what follows it.
pub(crate) fn token(alloc: Global, text: &[char]) -> Result<Option<(Token, &[char])>, AllocError>
    ensures { IfOk result (λ r. option_map (λ x. (x.0, x.1.now)) r ≡ token_at text.now) }
{
    let Some((c, rest)) = first(text) else {
        return Ok(None);
    };
    match kind_of(c) {
        Kind::Letter => name(alloc, text),
        Kind::Quote => string(alloc, c, rest),
        Kind::Digit => Ok(number(false, text)),
        Kind::Minus => Ok(number(true, rest)),
        Kind::Dollar => time(alloc, rest),
        kind => Ok(sign(kind, rest)),
    }
}
