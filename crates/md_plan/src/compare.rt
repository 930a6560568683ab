// The values that meet one comparison, as those between two edges.
ghost use Rattle.std.specs.Prelude.{◌≡◌, not, false, IfOk};
ghost use Rattle.md_value.specs.Values.{is_same};
ghost use Rattle.md_value.specs.Attrs.{text_content};
ghost use Rattle.md_text.specs.Key.{key};
ghost use Rattle.md_match.specs.Meets.{resolved, starred};
ghost use Rattle.md_match.specs.Candidates.{finds, is_point, narrows};
ghost use Rattle.md_index.specs.declared.between.Mark.TheVariants.{Text as text_mark};
ghost use Rattle.md_plan.specs.Edges.{low_edge, high_edge, probe_at, probe_of, point_of, probe_between};

use md_expr_tree::{Literal, Op, Subject, Test};
use md_index::{Edge, Mark, Probe};
use md_match::starred;
use md_text::Key;
use md_time::{Form, LocalTime};
use md_value::{Copied, Name, TEXT_CONTENT, Text};
use std::alloc::{AllocError, Global};

fn low_edge(op: Op, mark: Mark) -> Edge
    ensures { result ≡ low_edge op mark }
{
    match op {
        Op::Equal | Op::GreaterEqual => Edge::With(mark),
        Op::Greater => Edge::Without(mark),
        Op::NotEqual | Op::Less | Op::LessEqual => Edge::None,
    }
}

fn high_edge(op: Op, mark: Mark) -> Edge
    ensures { result ≡ high_edge op mark }
{
    match op {
        Op::Equal | Op::LessEqual => Edge::With(mark),
        Op::Less => Edge::Without(mark),
        Op::NotEqual | Op::Greater | Op::GreaterEqual => Edge::None,
    }
}

fn finds(op: Op, literal: &Literal) -> bool
    ensures { result ≡ finds op literal.now }
{
    match op {
        Op::Equal => match literal {
            Literal::Words { pieces, .. } => pieces.len() == 1,
            Literal::Number(_) | Literal::Time(_) => true,
            Literal::Present => false,
        },
        Op::NotEqual => false,
        Op::Less | Op::Greater | Op::LessEqual | Op::GreaterEqual => true,
    }
}

fn is_point(literal: &Literal) -> bool
    ensures { result ≡ is_point literal.now }
{
    matches!(literal, Literal::Number(_) | Literal::Time(_))
}

fn is_indexed(name: &Name) -> bool
    ensures { result ≡ not (is_same name.now text_content) }
{
    !name.is(TEXT_CONTENT)
}

/// Whether an index finds the rows that meet the comparison.
pub fn narrows(test: &Test) -> bool
    ensures { result ≡ narrows test.now }
{
    match test {
        Test::Compare {
            subject: Subject::Named(name),
            op,
            literal,
        } => is_indexed(name) && finds(*op, literal),
        Test::Compare {
            subject: Subject::Some,
            ..
        } => false,
        Test::Range {
            name,
            least,
            greatest,
        } => is_indexed(name) && is_point(least) && is_point(greatest),
    }
}

fn text_mark(alloc: Global, pieces: &[Text], fold: bool, marks: bool) -> Result<Mark, AllocError>
    ensures { IfOk result (λ mark. mark ≡ text_mark (key fold marks (starred pieces.now))) }
{
    let text = starred(alloc, pieces)?;
    Ok(Mark::Text(Key::of(alloc, text.as_str(), fold, marks)?))
}

fn of_words(
    alloc: Global,
    name: &Name,
    op: Op,
    pieces: &[Text],
    fold: bool,
    marks: bool,
) -> Result<Probe, AllocError>
    ensures { IfOk result (λ probe. probe ≡ probe_at name.now op fold marks (text_mark (key fold marks (starred pieces.now)))) }
{
    Ok(Probe {
        name: name.copy(alloc)?,
        fold,
        marks,
        low: low_edge(op, text_mark(alloc, pieces, fold, marks)?),
        high: high_edge(op, text_mark(alloc, pieces, fold, marks)?),
    })
}

fn of_number(alloc: Global, name: &Name, op: Op, number: i128) -> Result<Probe, AllocError>
    ensures { IfOk result (λ probe. probe ≡ probe_at name.now op false false (Mark.Number number)) }
{
    Ok(Probe {
        name: name.copy(alloc)?,
        fold: false,
        marks: false,
        low: low_edge(op, Mark::Number(number)),
        high: high_edge(op, Mark::Number(number)),
    })
}

fn of_moment(alloc: Global, name: &Name, op: Op, moment: i64) -> Result<Probe, AllocError>
    ensures { IfOk result (λ probe. probe ≡ probe_at name.now op false false (Mark.Moment moment)) }
{
    Ok(Probe {
        name: name.copy(alloc)?,
        fold: false,
        marks: false,
        low: low_edge(op, Mark::Moment(moment)),
        high: high_edge(op, Mark::Moment(moment)),
    })
}

fn of_time(
    alloc: Global,
    name: &Name,
    op: Op,
    form: &Form,
    local: &LocalTime,
) -> Result<Option<Probe>, AllocError>
    ensures { IfOk result (λ probe. probe ≡ probe_of name.now op (resolved local.now.moment local.now.offset (Literal.Time form.now))) }
{
    match form.moment(local.moment, local.offset) {
        Ok(moment) => Ok(Some(of_moment(alloc, name, op, moment)?)),
        Err(_) => Ok(None),
    }
}

fn of_present(alloc: Global, name: &Name) -> Result<Probe, AllocError>
    ensures { IfOk result (λ probe. probe ≡ record { name = name.now; fold = false; marks = false; low = Edge.None; high = Edge.None }) }
{
    Ok(Probe {
        name: name.copy(alloc)?,
        fold: false,
        marks: false,
        low: Edge::None,
        high: Edge::None,
    })
}

/// The values that meet the comparison of a named attribute. None where the form of time is out of range, so that no value
/// meets it.
pub fn probe_of(
    alloc: Global,
    name: &Name,
    op: Op,
    literal: &Literal,
    local: &LocalTime,
) -> Result<Option<Probe>, AllocError>
    ensures { IfOk result (λ probe. probe ≡ probe_of name.now op (resolved local.now.moment local.now.offset literal.now)) }
{
    match literal {
        Literal::Words {
            pieces,
            fold,
            marks,
        } => Ok(Some(of_words(alloc, name, op, pieces.as_slice(), *fold, *marks)?)),
        Literal::Number(number) => Ok(Some(of_number(alloc, name, op, *number)?)),
        Literal::Time(form) => of_time(alloc, name, op, form, local),
        Literal::Present => Ok(Some(of_present(alloc, name)?)),
    }
}

fn point_of(literal: &Literal, local: &LocalTime) -> Option<Mark>
    ensures { result ≡ point_of (resolved local.now.moment local.now.offset literal.now) }
{
    match literal {
        Literal::Number(number) => Some(Mark::Number(*number)),
        Literal::Time(form) => match form.moment(local.moment, local.offset) {
            Ok(moment) => Some(Mark::Moment(moment)),
            Err(_) => None,
        },
        Literal::Words { .. } | Literal::Present => None,
    }
}

/// The values from one literal to another, each a number or a time. None where no value is.
pub fn probe_between(
    alloc: Global,
    name: &Name,
    least: &Literal,
    greatest: &Literal,
    local: &LocalTime,
) -> Result<Option<Probe>, AllocError>
    ensures { IfOk result (λ probe. probe ≡ probe_between name.now (point_of (resolved local.now.moment local.now.offset least.now)) (point_of (resolved local.now.moment local.now.offset greatest.now))) }
{
    let (Some(low), Some(high)) = (point_of(least, local), point_of(greatest, local)) else {
        return Ok(None);
    };
    Ok(Some(Probe {
        name: name.copy(alloc)?,
        fold: false,
        marks: false,
        low: Edge::With(low),
        high: Edge::With(high),
    }))
}
