// What begins with a character.
ghost use Rattle.std.specs.Prelude.{◌≡◌, ◌==◌};
ghost use Rattle.std.specs.Char.{is_ascii, is_ascii_digit};
ghost use Rattle.md_expr_tree.specs.Classes.{is_blank, is_escapable};
ghost use Rattle.md_expr_tree.specs.Tokens.{may_not_follow_number, may_not_follow_time};
ghost use Rattle.md_expr_lex.specs.Kinds.{kind_of, word_kind, sign_kind, is_not_closing};

use md_value::{is_name_part, is_name_start};

/// What begins with a character.
#[derive(Clone, Copy, Debug, PartialEq, Eq)]
pub enum Kind {
    /// White space.
    Blank,
    /// A name.
    Letter,
    /// A string.
    Quote,
    /// A number without a sign.
    Digit,
    /// A number with a sign.
    Minus,
    /// A form of time.
    Dollar,
    Equal,
    Bang,
    Less,
    Greater,
    Ampersand,
    Bar,
    Star,
    Open,
    Close,
    Comma,
    Other,
}

pub(crate) fn is_blank(c: char) -> bool
    ensures { result ≡ is_blank c }
{
    c == ' ' || c == '\t' || c == '\n' || c == '\r'
}

pub(crate) fn is_ascii(c: char) -> bool
    ensures { result ≡ is_ascii c }
{
    c.is_ascii()
}

pub(crate) fn is_digit(c: char) -> bool
    ensures { result ≡ is_ascii_digit c }
{
    c.is_ascii_digit()
}

pub(crate) fn is_escapable(c: char) -> bool
    ensures { result ≡ is_escapable c }
{
    c == '"' || c == '\'' || c == '\\' || c == '*'
}

pub(crate) fn may_not_follow_number(c: char) -> bool
    ensures { result ≡ may_not_follow_number c }
{
    is_name_part(c) || c == '.'
}

pub(crate) fn may_not_follow_time(c: char) -> bool
    ensures { result ≡ may_not_follow_time c }
{
    is_name_part(c) || c == '('
}

/// Whether it may stand between parentheses.
pub(crate) fn is_not_closing(c: char) -> bool
    ensures { result ≡ is_not_closing c }
{
    c != ')'
}

fn sign_kind(c: char) -> Kind
    ensures { result ≡ sign_kind c }
{
    if c == '=' {
        return Kind::Equal;
    }
    if c == '!' {
        return Kind::Bang;
    }
    if c == '<' {
        return Kind::Less;
    }
    if c == '>' {
        return Kind::Greater;
    }
    if c == '&' {
        return Kind::Ampersand;
    }
    if c == '|' {
        return Kind::Bar;
    }
    if c == '*' {
        return Kind::Star;
    }
    if c == '(' {
        return Kind::Open;
    }
    if c == ')' {
        return Kind::Close;
    }
    if c == ',' {
        return Kind::Comma;
    }
    Kind::Other
}

fn word_kind(c: char) -> Kind
    ensures { result ≡ word_kind c }
{
    if c == '"' || c == '\'' {
        return Kind::Quote;
    }
    if is_digit(c) {
        return Kind::Digit;
    }
    if c == '-' {
        return Kind::Minus;
    }
    if c == '$' {
        return Kind::Dollar;
    }
    sign_kind(c)
}

pub(crate) fn kind_of(c: char) -> Kind
    ensures { result ≡ kind_of c }
{
    if is_blank(c) {
        return Kind::Blank;
    }
    if is_name_start(c) {
        return Kind::Letter;
    }
    word_kind(c)
}
