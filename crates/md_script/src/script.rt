// The lines of a script, and why one is refused.
ghost use Rattle.std.specs.Prelude.{◌≡◌};
ghost use Rattle.md_script.specs.declared.script.ScriptError.TheVariants.{Memory};

use md_expr::Expr;
use md_machine::Batch;
use md_value::{Path, PlainVec};
use md_words::Utf8;
use md_world::Order;
use std::alloc::{AllocError, AllocFailed};
use std::marker::Model;

/// What a line of a script says. A client's number is 0 to 255, a query's 0 to 4294967295.
#[derive(Drop)]
pub enum What {
    /// `put PATH CONTENT` or `put PATH`: a job whose file has this content, or none.
    Put {
        path: Path,
        text: Utf8,
    },
    /// `import PATH`: a job whose file is read from the tree.
    Import {
        path: Path,
    },
    /// `remove PATH`: a job that removes the path.
    Remove {
        path: Path,
    },
    /// `cC query N OPTIONS where EXPRESSION`: the client's query of this number asks for the files inside `scope` that
    /// satisfy the expression. The options may be absent: `in=PATH` is the scope, else it is the root; `by=NAME` or
    /// `by=-NAME`, at most `MOST_KEYS` times, are the keys of the order, the latter descending; `first=K`, `progress=K`,
    /// `update=K` and `ms=K` are the numbers of the batch.
    Query {
        client: u8,
        number: u32,
        expr: Expr,
        scope: Path,
        order: Order,
        batch: Batch,
    },
    /// `cC gather N`
    Gather {
        client: u8,
        number: u32,
    },
    /// `cC poll N`
    Poll {
        client: u8,
        number: u32,
    },
    /// `cC disable N`
    Disable {
        client: u8,
        number: u32,
    },
    /// `cC enable N`
    Enable {
        client: u8,
        number: u32,
    },
    /// `cC stop N`
    Stop {
        client: u8,
        number: u32,
    },
    /// `cC show N`: prints what the client holds, and is no event.
    Show {
        client: u8,
        number: u32,
    },
    /// `cC vacuum`: gives up the stored rows that no live query and no new one can see.
    Vacuum {
        client: u8,
    },
}

/// A line that says something.
#[derive(Drop)]
pub struct Line {
    /// Its place among all lines of the script, from 1.
    pub number: u32,
    /// Its moment in milliseconds, from 0 to 4294967295: that of the last `at` before it, or 0.
    pub at_ms: u64,
    pub what: What,
}

/// The lines of a script that say something. Contracts see it as their list.
#[derive(Drop)]
pub struct Script {
    lines: PlainVec<Line>,
}

impl Model for Script {
    ghost use Rattle.std.specs.Prelude.{List};
    ghost use Rattle.md_script.specs.declared.script.Line.{Line};

    ghost Value = { List Line };

    ghost use Rattle.md_expr_tree.specs.contracts.tree.Expr as expr;
    ghost use Rattle.std.specs.Coded.{codes};

    ghost coded = { Prim.hlevel (codes, expr.the_row.coded) };

    ghost view = { λ s. s.lines };
}

impl Script {
    pub fn new(lines: Vec<Line>) -> Script
        ensures { result ≡ lines.items }
    {
        Script {
            lines: PlainVec::from_vec(lines),
        }
    }

    /// The lines that say something, in order.
    pub fn lines(&self) -> &[Line]
        ensures { result.now ≡ self.now }
    {
        self.lines.as_slice()
    }
}

/// Why a script is refused.
#[derive(Clone, Copy, Debug, PartialEq, Eq)]
pub enum ScriptError {
    /// It has over `MOST_BYTES` bytes.
    TooLong,
    /// It has over `MOST_LINES` lines.
    TooManyLines,
    /// The number, from 1, of the first line that is not in the grammar.
    BadLine(u32),
    Memory,
}

impl From<AllocError> for ScriptError {
    ghost from_gives = { λ _ e. e ≡ Memory };

    fn from(_: AllocError) -> ScriptError {
        ScriptError::Memory
    }
}

impl<T: Drop> From<AllocFailed<T>> for ScriptError {
    ghost from_gives = { λ _ e. e ≡ Memory };

    fn from(_: AllocFailed<T>) -> ScriptError {
        ScriptError::Memory
    }
}
