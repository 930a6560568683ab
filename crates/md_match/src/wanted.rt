// What a value has to meet.
ghost use Rattle.std.specs.Prelude.{◌≡◌, IfOk, OnOk, ◌∷◌, ◌++◌, chars, string_bytes, pos, ◌*ℤ◌, ◌^◌};
ghost use Rattle.md_value.specs.declared.value.Value.{Value as AnyValue};
ghost use Rattle.md_text.specs.Key.{key};
ghost use Rattle.md_match.specs.Meets.{words, number, present};
ghost use Rattle.md_match.specs.Meets.{resolved, stands, starred, parts, flag_number, meets};
ghost use Rattle.md_match.specs.Ready.{is_met};

use md_expr_tree::{Literal, Op};
use md_text::{Key, Pattern};
use md_time::{Form, LocalTime};
use md_value::{Text, Value};
use std::alloc::{AllocError, Global};
use std::cmp::Ordering;

/// A literal under an operator other than `!=`, with its keys made and its moment resolved.
#[derive(Drop)]
pub enum Wanted {
    /// A text whose key matches the pattern.
    Matches {
        pattern: Pattern,
        fold: bool,
        marks: bool,
    },
    /// A text whose key stands so to the key.
    Stands {
        op: Op,
        key: Key,
        fold: bool,
        marks: bool,
    },
    /// A number that stands so to this one, which is in units of one part in 10^9.
    Number {
        op: Op,
        number: i128,
    },
    /// A moment that stands so to this one.
    Moment {
        op: Op,
        moment: i64,
    },
    /// Any value.
    Any,
    /// No value.
    Nothing,
}

fn stands(op: Op, ordering: Ordering) -> bool
    ensures { result ≡ stands op ordering }
{
    match op {
        Op::Equal => ordering.is_eq(),
        Op::NotEqual => false,
        Op::Less => ordering.is_lt(),
        Op::Greater => ordering.is_gt(),
        Op::LessEqual => ordering.is_le(),
        Op::GreaterEqual => ordering.is_ge(),
    }
}

// In parts of 10^9.
fn parts(number: i64) -> i128
    ensures { result ≡ parts number }
{
    number as i128 * 1_000_000_000
}

fn flag_number(flag: bool) -> i64
    ensures { result ≡ flag_number flag }
{
    if flag { 1 } else { 0 }
}

fn push_text(text: &mut String, more: &str) -> Result<(), AllocError>
    ensures { OnOk result (chars (string_bytes text.new) ≡ chars (string_bytes text.old) ++ chars more.now) }
{
    text.push_str(more)?;
    Ok(())
}

fn push_starred(text: &mut String, piece: &Text) -> Result<(), AllocError>
    ensures { OnOk result (chars (string_bytes text.new) ≡ chars (string_bytes text.old) ++ 42 ∷ piece.now) }
{
    push_text(text, "*")?;
    push_text(text, piece.as_str())?;
    Ok(())
}

/// The pieces with a `*` between each two.
pub fn starred(alloc: Global, pieces: &[Text]) -> Result<String, AllocError>
    ensures { IfOk result (λ text. chars (string_bytes text) ≡ starred pieces.now) }
{
    let mut text = String::new(alloc);
    let [first, others @ ..] = pieces else {
        return Ok(text);
    };
    push_text(&mut text, first.as_str())?;
    for piece in others {
        push_starred(&mut text, piece)?;
    }
    Ok(text)
}

fn matching(alloc: Global, pieces: &[Text], fold: bool, marks: bool) -> Result<Wanted, AllocError>
    ensures { IfOk result (λ w. (v : AnyValue) → is_met w v ≡ meets Op.Equal v (words pieces.now fold marks)) }
{
    if pieces.is_empty() {
        return Ok(Wanted::Nothing);
    }
    let pattern = Pattern::of(alloc, pieces, fold, marks)?;
    Ok(Wanted::Matches {
        pattern,
        fold,
        marks,
    })
}

fn ordered(
    alloc: Global,
    op: Op,
    pieces: &[Text],
    fold: bool,
    marks: bool,
) -> Result<Wanted, AllocError>
    ensures { IfOk result (λ w. w ≡ Wanted.Stands op (key fold marks (starred pieces.now)) fold marks) }
{
    let text = starred(alloc, pieces)?;
    let key = Key::of(alloc, text.as_str(), fold, marks)?;
    Ok(Wanted::Stands {
        op,
        key,
        fold,
        marks,
    })
}

fn of_words(
    alloc: Global,
    op: Op,
    pieces: &[Text],
    fold: bool,
    marks: bool,
) -> Result<Wanted, AllocError>
    ensures { IfOk result (λ w. (v : AnyValue) → is_met w v ≡ meets op v (words pieces.now fold marks)) }
{
    match op {
        Op::Equal => matching(alloc, pieces, fold, marks),
        _ => ordered(alloc, op, pieces, fold, marks),
    }
}

fn of_time(op: Op, form: &Form, local: &LocalTime) -> Wanted
    ensures { (v : AnyValue) → is_met result v ≡ meets op v (resolved local.now.moment local.now.offset (Literal.Time form.now)) }
{
    match form.moment(local.moment, local.offset) {
        Ok(moment) => Wanted::Moment { op, moment },
        Err(_) => Wanted::Nothing,
    }
}

fn of_number(op: Op, n: i128) -> Wanted
    ensures { (v : AnyValue) → is_met result v ≡ meets op v (number n) }
{
    Wanted::Number { op, number: n }
}

fn of_present(op: Op) -> Wanted
    ensures { (v : AnyValue) → is_met result v ≡ meets op v present }
{
    Wanted::Any
}

impl Wanted {
    /// What a value has to be to meet the literal.
    pub fn of(
        alloc: Global,
        op: Op,
        literal: &Literal,
        local: &LocalTime,
    ) -> Result<Wanted, AllocError>
        ensures { IfOk result (λ w. (v : AnyValue) → is_met w v ≡ meets op v (resolved local.now.moment local.now.offset literal.now)) }
    {
        match literal {
            Literal::Words {
                pieces,
                fold,
                marks,
            } => of_words(alloc, op, pieces.as_slice(), *fold, *marks),
            Literal::Number(number) => Ok(of_number(op, *number)),
            Literal::Time(form) => Ok(of_time(op, form, local)),
            Literal::Present => Ok(of_present(op)),
        }
    }

    /// Whether the value is as wanted.
    pub fn is_met(&self, alloc: Global, value: &Value) -> Result<bool, AllocError>
        ensures { IfOk result (λ is. is ≡ is_met self.now value.now) }
    {
        match (self, value) {
            (
                Wanted::Matches {
                    pattern,
                    fold,
                    marks,
                },
                Value::Text(text),
            ) => pattern.matches(alloc, text.as_str(), *fold, *marks),
            (
                Wanted::Stands {
                    op,
                    key,
                    fold,
                    marks,
                },
                Value::Text(text),
            ) => {
                let other = Key::of(alloc, text.as_str(), *fold, *marks)?;
                Ok(stands(*op, other.cmp(key)))
            }
            (Wanted::Number { op, number }, Value::Number(n)) => {
                Ok(stands(*op, parts(*n).cmp(number)))
            }
            (Wanted::Number { op, number }, Value::Flag(flag)) => {
                Ok(stands(*op, parts(flag_number(*flag)).cmp(number)))
            }
            (Wanted::Moment { op, moment }, Value::Moment(n)) => Ok(stands(*op, n.cmp(moment))),
            (Wanted::Any, _) => Ok(true),
            _ => Ok(false),
        }
    }
}
