// Operators, connectives and other signs.
ghost use Rattle.std.specs.Prelude.{◌≡◌, Some};
ghost use Rattle.std.specs.Option.{option_map};
ghost use Rattle.md_expr_lex.specs.Signs.{either, doubled, sign_at};

use crate::class::Kind;
use md_expr_tree::{Op, Token};

/// The longer token where the character comes next, else the shorter one.
fn either(next: char, long: Token, short: Token, text: &[char]) -> (Token, &[char])
    ensures { either next long short text.now ≡ Some (result.0, result.1.now) }
{
    match text {
        [c, rest @ ..] if *c == next => (long, rest),
        _ => (short, text),
    }
}

fn doubled(next: char, token: Token, text: &[char]) -> Option<(Token, &[char])>
    ensures { option_map (λ x. (x.0, x.1.now)) result ≡ doubled next token text.now }
{
    match text {
        [c, rest @ ..] if *c == next => Some((token, rest)),
        _ => None,
    }
}

/// The token of a sign, from what follows its first character.
pub(crate) fn sign(kind: Kind, text: &[char]) -> Option<(Token, &[char])>
    ensures { option_map (λ x. (x.0, x.1.now)) result ≡ sign_at kind text.now }
{
    match kind {
        Kind::Equal => Some(either('=', Token::Op(Op::Equal), Token::Op(Op::Equal), text)),
        Kind::Bang => Some(either('=', Token::Op(Op::NotEqual), Token::Not, text)),
        Kind::Less => Some(either('=', Token::Op(Op::LessEqual), Token::Op(Op::Less), text)),
        Kind::Greater => Some(either(
            '=',
            Token::Op(Op::GreaterEqual),
            Token::Op(Op::Greater),
            text,
        )),
        Kind::Ampersand => doubled('&', Token::And, text),
        Kind::Bar => doubled('|', Token::Or, text),
        Kind::Star => Some((Token::Star, text)),
        Kind::Open => Some((Token::Open, text)),
        Kind::Close => Some((Token::Close, text)),
        Kind::Comma => Some((Token::Comma, text)),
        _ => None,
    }
}
