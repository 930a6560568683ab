// Tokens as comparisons, connectives and groups.
ghost use Rattle.std.specs.Prelude.{◌≡◌, ◌∷◌, [], IsTrue, true, false, Some, None, MatchOption, drop, codes};
ghost use Rattle.md_expr_tree.specs.WellMade.{is_bound};
ghost use Rattle.md_expr_parse.specs.Group.{is_equality, has_pieces, is_value, compared, value_at, comparison_at, range_at, named_at, item_at, not_at, Takes};

use md_expr_tree::{Item, Literal, Op, Subject, Test, Token};
use md_value::{Name, Text};
use std::collections::VecDeque;

fn is_equality(op: Op) -> bool
    ensures { result ≡ is_equality op }
{
    match op {
        Op::Equal => true,
        Op::NotEqual => true,
        _ => false,
    }
}

fn is_bound(literal: &Literal) -> bool
    ensures { result ≡ is_bound literal.now }
{
    match literal {
        Literal::Number(_) => true,
        Literal::Time(_) => true,
        _ => false,
    }
}

pub fn next(tokens: &mut VecDeque<Token>) -> Option<Token>
    ensures { MatchOption result (tokens.old.items ≡ []) (λ t. tokens.old.items ≡ t ∷ tokens.new.items) }
{
    tokens.pop_front()
}

fn has_pieces(pieces: &[Text]) -> bool
    ensures { result ≡ has_pieces pieces.now }
{
    match pieces {
        [] => false,
        _ => true,
    }
}

fn is_value(literal: &Literal) -> bool
    ensures { result ≡ is_value literal.now }
{
    match literal {
        Literal::Present => false,
        Literal::Words { pieces, .. } => has_pieces(pieces.as_slice()),
        _ => true,
    }
}

fn compared(subject: Subject, op: Op, literal: Literal) -> Option<Item>
    ensures { result ≡ compared subject op literal }
{
    if is_value(&literal) {
        Some(Item::Test(Test::Compare {
            subject,
            op,
            literal,
        }))
    } else {
        None
    }
}

fn value(subject: Subject, op: Op, tokens: &mut VecDeque<Token>) -> Option<Item>
    ensures { MatchOption result (value_at subject op tokens.old.items ≡ None) (λ i. (value_at subject op tokens.old.items ≡ Some (i, 2)) × (tokens.new.items ≡ drop 1 tokens.old.items)) }
{
    match next(tokens)? {
        Token::Value(literal) => compared(subject, op, literal),
        Token::Star if is_equality(op) => Some(Item::Test(Test::Compare {
            subject,
            op,
            literal: Literal::Present,
        })),
        _ => None,
    }
}

fn comparison(subject: Subject, tokens: &mut VecDeque<Token>) -> Option<Item>
    ensures { Takes result (comparison_at subject tokens.old.items) tokens.old.items tokens.new.items }
{
    match next(tokens)? {
        Token::Op(op) => value(subject, op, tokens),
        _ => None,
    }
}

fn range(tokens: &mut VecDeque<Token>) -> Option<Item>
    ensures { MatchOption result (range_at tokens.old.items ≡ None) (λ i. (range_at tokens.old.items ≡ Some (i, 7)) × (tokens.new.items ≡ drop 6 tokens.old.items)) }
{
    let Token::Name(name) = next(tokens)? else {
        return None;
    };
    let Token::Comma = next(tokens)? else {
        return None;
    };
    let Token::Value(least) = next(tokens)? else {
        return None;
    };
    let Token::Comma = next(tokens)? else {
        return None;
    };
    let Token::Value(greatest) = next(tokens)? else {
        return None;
    };
    let Token::Close = next(tokens)? else {
        return None;
    };
    if is_bound(&least) && is_bound(&greatest) {
        Some(Item::Test(Test::Range {
            name,
            least,
            greatest,
        }))
    } else {
        None
    }
}

fn named(name: Name, tokens: &mut VecDeque<Token>) -> Option<Item>
    ensures { Takes result (named_at name tokens.old.items) tokens.old.items tokens.new.items }
{
    if let Some(Token::Open) = tokens.front() {
        next(tokens)?;
        if name.as_str() == "InRange" {
            range(tokens)
        } else {
            None
        }
    } else {
        comparison(Subject::Named(name), tokens)
    }
}

/// The item that begins with a token, if one does.
pub fn item(first: Token, tokens: &mut VecDeque<Token>) -> Option<Item>
    ensures { Takes result (item_at first tokens.old.items) tokens.old.items tokens.new.items }
{
    match first {
        Token::And => Some(Item::And),
        Token::Or => Some(Item::Or),
        Token::Open => Some(Item::Open),
        Token::Close => Some(Item::Close),
        Token::Not => match next(tokens)? {
            Token::Open => Some(Item::OpenNot),
            _ => None,
        },
        Token::Star => comparison(Subject::Some, tokens),
        Token::Name(name) => named(name, tokens),
        _ => None,
    }
}
