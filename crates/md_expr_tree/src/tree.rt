// Expressions, and their copies.
ghost use Rattle.std.specs.Prelude.{◌≡◌, IfOk};

use md_time::Form;
use md_value::{Copied, Name, PlainVec as Pieces, Text};
use sqlite_items::{Boxed, Items};
use std::alloc::{AllocError, Global};

/// An operator of comparison.
#[derive(Clone, Copy, Debug, PartialEq, Eq)]
pub enum Op {
    /// `==` or `=`
    Equal,
    /// `!=`
    NotEqual,
    /// `<`
    Less,
    /// `>`
    Greater,
    /// `<=`
    LessEqual,
    /// `>=`
    GreaterEqual,
}

/// What is compared.
#[derive(Debug, Drop)]
pub enum Subject {
    /// The attribute of this name.
    Named(Name),
    /// Some attribute, written `*`.
    Some,
}

/// What a subject is compared with.
#[derive(Debug, Drop)]
pub enum Literal {
    /// A string: the texts between its wildcards, at least one.
    Words {
        pieces: Pieces<Text>,
        /// Case is ignored (modifier `c`).
        fold: bool,
        /// Diacritical marks are ignored (modifier `d`).
        marks: bool,
    },
    /// A number in units of one part in 10^9, so that 1 is 1,000,000,000.
    Number(i128),
    /// A moment.
    Time(Form),
    /// Any value, written `*`.
    Present,
}

/// A comparison.
#[derive(Debug, Drop)]
pub enum Test {
    /// `subject op literal`
    Compare {
        subject: Subject,
        op: Op,
        literal: Literal,
    },
    /// `InRange(name, least, greatest)`, with both bounds included.
    Range {
        name: Name,
        least: Literal,
        greatest: Literal,
    },
}

/// A query expression after Apple's File Metadata Query Expression Syntax. Contracts see it as a plain tree.
#[derive(Drop)]
pub enum Expr {
    /// A comparison.
    Test(Test),
    /// `!( )` around an expression.
    Not(Boxed<Expr>),
    /// Two or more expressions joined by `&&`.
    All(Items<Expr>),
    /// Two or more expressions joined by `||`.
    Any(Items<Expr>),
}

impl Copied for Subject {
    fn copy(&self, alloc: Global) -> Result<Subject, AllocError> {
        match self {
            Subject::Named(name) => Ok(Subject::Named(name.copy(alloc)?)),
            Subject::Some => Ok(Subject::Some),
        }
    }
}

impl Copied for Literal {
    fn copy(&self, alloc: Global) -> Result<Literal, AllocError> {
        match self {
            Literal::Words {
                pieces,
                fold,
                marks,
            } => Ok(Literal::Words {
                pieces: pieces.copy(alloc)?,
                fold: *fold,
                marks: *marks,
            }),
            Literal::Number(n) => Ok(Literal::Number(*n)),
            Literal::Time(form) => Ok(Literal::Time(*form)),
            Literal::Present => Ok(Literal::Present),
        }
    }
}

impl Copied for Test {
    fn copy(&self, alloc: Global) -> Result<Test, AllocError> {
        match self {
            Test::Compare {
                subject,
                op,
                literal,
            } => Ok(Test::Compare {
                subject: subject.copy(alloc)?,
                op: *op,
                literal: literal.copy(alloc)?,
            }),
            Test::Range {
                name,
                least,
                greatest,
            } => Ok(Test::Range {
                name: name.copy(alloc)?,
                least: least.copy(alloc)?,
                greatest: greatest.copy(alloc)?,
            }),
        }
    }
}

#[cycle(copy)]
fn copy_all(alloc: Global, list: &[Expr]) -> Result<Items<Expr>, AllocError>
    ensures { IfOk result (λ es. es ≡ list.now) }
{
    let mut all = Items::new(alloc);
    for e in list {
        all.push(e.copy(alloc)?)?;
    }
    Ok(all)
}

impl Expr {
    /// The same expression in memory of its own.
    #[cycle(copy)]
    pub fn copy(&self, alloc: Global) -> Result<Expr, AllocError>
        ensures { IfOk result (λ e. e ≡ self.now) }
    {
        match self {
            Expr::Test(test) => Ok(Expr::Test(test.copy(alloc)?)),
            Expr::Not(inner) => Ok(Expr::Not(Boxed::new(alloc, inner.get().copy(alloc)?)?)),
            Expr::All(list) => Ok(Expr::All(copy_all(alloc, list.as_slice())?)),
            Expr::Any(list) => Ok(Expr::Any(copy_all(alloc, list.as_slice())?)),
        }
    }
}
