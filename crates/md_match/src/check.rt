// Comparisons of a row's attributes.
ghost use Rattle.std.specs.Prelude.{◌≡◌, ◌&&◌, List, IfOk};
ghost use Rattle.std.specs.List.{list_any};
ghost use Rattle.md_value.specs.Attrs.{Attr};
ghost use Rattle.md_match.specs.Satisfies.{all_values, values_of, holds};
ghost use Rattle.md_match.specs.Ready.{is_met, values_at, check_holds};

use crate::wanted::Wanted;
use md_expr_tree::{Literal, Op, Subject, Test};
use md_time::LocalTime;
use md_value::{Attrs, Copied, Name, Value};
use std::alloc::{AllocError, Global};

/// A comparison with what is wanted of its values.
#[derive(Drop)]
pub enum Check {
    /// Some value of the subject is as wanted.
    Some {
        subject: Subject,
        wanted: Wanted,
    },
    /// No value of the subject is as wanted.
    None {
        subject: Subject,
        wanted: Wanted,
    },
    /// One value of the attribute is as both want it.
    Range {
        name: Name,
        least: Wanted,
        greatest: Wanted,
    },
}

fn some_met(alloc: Global, values: &[Value], wanted: &Wanted) -> Result<bool, AllocError>
    ensures { IfOk result (λ is. is ≡ list_any (is_met wanted.now) values.now) }
{
    for value in values {
        if wanted.is_met(alloc, value)? {
            return Ok(true);
        }
    }
    Ok(false)
}

fn some_between(
    alloc: Global,
    values: &[Value],
    least: &Wanted,
    greatest: &Wanted,
) -> Result<bool, AllocError>
    ensures { IfOk result (λ is. is ≡ list_any (λ v. is_met least.now v && is_met greatest.now v) values.now) }
{
    for value in values {
        if least.is_met(alloc, value)? && greatest.is_met(alloc, value)? {
            return Ok(true);
        }
    }
    Ok(false)
}

fn some_at(alloc: Global, attrs: &Attrs, place: usize, wanted: &Wanted) -> Result<bool, AllocError>
    ensures { IfOk result (λ is. is ≡ list_any (is_met wanted.now) (values_at attrs.now place)) }
{
    match attrs.at(place) {
        Some((_, values)) => some_met(alloc, values, wanted),
        None => Ok(false),
    }
}

#[tactic(auto, using(crate::proofs::Checks::values_step, crate::proofs::Checks::values_end))]
fn some_of_all(alloc: Global, attrs: &Attrs, wanted: &Wanted) -> Result<bool, AllocError>
    ensures { IfOk result (λ is. is ≡ list_any (is_met wanted.now) (all_values attrs.now)) }
{
    for place in 0..attrs.len() {
        if some_at(alloc, attrs, place, wanted)? {
            return Ok(true);
        }
    }
    Ok(false)
}

fn some_of_named(
    alloc: Global,
    attrs: &Attrs,
    name: &Name,
    wanted: &Wanted,
) -> Result<bool, AllocError>
    ensures { IfOk result (λ is. is ≡ list_any (is_met wanted.now) (values_of (Subject.Named name.now) attrs.now)) }
{
    match attrs.get(name) {
        Some(values) => some_met(alloc, values, wanted),
        None => Ok(false),
    }
}

fn some_of(
    alloc: Global,
    attrs: &Attrs,
    subject: &Subject,
    wanted: &Wanted,
) -> Result<bool, AllocError>
    ensures { IfOk result (λ is. is ≡ list_any (is_met wanted.now) (values_of subject.now attrs.now)) }
{
    match subject {
        Subject::Named(name) => some_of_named(alloc, attrs, name, wanted),
        Subject::Some => some_of_all(alloc, attrs, wanted),
    }
}

fn between(
    alloc: Global,
    attrs: &Attrs,
    name: &Name,
    least: &Wanted,
    greatest: &Wanted,
) -> Result<bool, AllocError>
    ensures { IfOk result (λ is. is ≡ list_any (λ v. is_met least.now v && is_met greatest.now v) (values_of (Subject.Named name.now) attrs.now)) }
{
    match attrs.get(name) {
        Some(values) => some_between(alloc, values, least, greatest),
        None => Ok(false),
    }
}

fn comparison(
    alloc: Global,
    subject: &Subject,
    op: Op,
    literal: &Literal,
    local: &LocalTime,
) -> Result<Check, AllocError>
    ensures { IfOk result (λ c. (attrs : List Attr) → check_holds c attrs ≡ holds local.now.moment local.now.offset (Test.Compare subject.now op literal.now) attrs) }
{
    let subject = subject.copy(alloc)?;
    match op {
        Op::NotEqual => {
            let wanted = Wanted::of(alloc, Op::Equal, literal, local)?;
            Ok(Check::None { subject, wanted })
        }
        _ => {
            let wanted = Wanted::of(alloc, op, literal, local)?;
            Ok(Check::Some { subject, wanted })
        }
    }
}

fn range(
    alloc: Global,
    name: &Name,
    least: &Literal,
    greatest: &Literal,
    local: &LocalTime,
) -> Result<Check, AllocError>
    ensures { IfOk result (λ c. (attrs : List Attr) → check_holds c attrs ≡ holds local.now.moment local.now.offset (Test.Range name.now least.now greatest.now) attrs) }
{
    let name = name.copy(alloc)?;
    let least = Wanted::of(alloc, Op::GreaterEqual, least, local)?;
    let greatest = Wanted::of(alloc, Op::LessEqual, greatest, local)?;
    Ok(Check::Range {
        name,
        least,
        greatest,
    })
}

impl Check {
    /// The comparison of the test, with forms of time resolved from the local time.
    pub fn of(alloc: Global, test: &Test, local: &LocalTime) -> Result<Check, AllocError>
        ensures { IfOk result (λ c. (attrs : List Attr) → check_holds c attrs ≡ holds local.now.moment local.now.offset test.now attrs) }
    {
        match test {
            Test::Compare {
                subject,
                op,
                literal,
            } => comparison(alloc, subject, *op, literal, local),
            Test::Range {
                name,
                least,
                greatest,
            } => range(alloc, name, least, greatest, local),
        }
    }

    /// Whether it holds of the attributes.
    pub fn holds(&self, alloc: Global, attrs: &Attrs) -> Result<bool, AllocError>
        ensures { IfOk result (λ is. is ≡ check_holds self.now attrs.now) }
    {
        match self {
            Check::Some { subject, wanted } => some_of(alloc, attrs, subject, wanted),
            Check::None { subject, wanted } => Ok(!some_of(alloc, attrs, subject, wanted)?),
            Check::Range {
                name,
                least,
                greatest,
            } => between(alloc, attrs, name, least, greatest),
        }
    }
}
