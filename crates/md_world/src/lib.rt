//! Rows, tables, changes, parts, notices, orders and counters of row reads.
#![tactic(auto)]

ghost use Rattle.std.specs.Prelude.{◌≡◌, ◌==◌, [], IfOk, map};
ghost use Rattle.md_world.specs.Tables.{shown, same_row};

mod laws;
mod order;
mod steps;
mod values;

pub use laws::limits_are_standard;
use md_value::{Attrs, Copied, Path, PlainVec, TEXT_CONTENT};
pub use order::{NotShown, Order, SortKey};
use std::alloc::{AllocError, Global};
pub use steps::Steps;
pub use values::value_cmp;

/// A file's path with its attributes.
#[derive(Debug, Drop)]
pub struct Row {
    pub path: Path,
    pub attrs: Attrs,
}

/// What a commit does to the row of a path.
#[derive(Debug, Drop)]
pub enum Change {
    Put(Attrs),
    Remove,
}

/// Rows, seen as their list.
pub type Rows = PlainVec<Row>;

/// Paths, seen as their list.
pub type Paths = PlainVec<Path>;

/// The next hits of a query, as shown rows in path order.
#[derive(Debug, Drop)]
pub struct Part {
    pub hits: Rows,
    pub last: bool,
}

/// What differs between two versions in a query's answer, as shown rows, each list in path order.
#[derive(Debug, Drop)]
pub struct Notice {
    pub from: u32,
    pub to: u32,
    pub added: Rows,
    pub changed: Rows,
    pub removed: Paths,
}

/// How much a server keeps.
#[derive(Clone, Copy, Debug, Drop)]
pub struct Limits {
    /// Paths that are ever committed.
    pub paths: u32,
    /// Tickets that are drawn in all.
    pub tickets: u32,
    /// Live queries of one client.
    pub queries: u32,
    /// Disables of one query that no enable has matched.
    pub disables: u32,
}

impl Limits {
    /// The limits of the shipped server.
    pub const STANDARD: Limits = Limits {
        paths: 1_000_000,
        tickets: u32::MAX,
        queries: 64,
        disables: 1_000,
    };
}

impl Row {
    /// Whether both have the same path and the same attributes.
    pub fn same(&self, other: &Row) -> bool
        ensures { result ≡ same_row self.now other.now }
    {
        self.path == other.path && self.attrs.same(&other.attrs)
    }

    /// A copy without the text content.
    pub fn shown(&self, alloc: Global) -> Result<Row, AllocError>
        ensures { IfOk result (λ row. row ≡ shown self.now) }
    {
        Ok(Row {
            path: self.path.copy(alloc)?,
            attrs: self.attrs.without(alloc, TEXT_CONTENT)?,
        })
    }
}

impl Copied for Row {
    fn copy(&self, alloc: Global) -> Result<Row, AllocError> {
        Ok(Row {
            path: self.path.copy(alloc)?,
            attrs: self.attrs.copy(alloc)?,
        })
    }
}

impl Copied for Change {
    fn copy(&self, alloc: Global) -> Result<Change, AllocError> {
        Ok(match self {
            Change::Put(attrs) => Change::Put(attrs.copy(alloc)?),
            Change::Remove => Change::Remove,
        })
    }
}

impl Copied for Part {
    fn copy(&self, alloc: Global) -> Result<Part, AllocError> {
        Ok(Part {
            hits: self.hits.copy(alloc)?,
            last: self.last,
        })
    }
}

impl Copied for Notice {
    fn copy(&self, alloc: Global) -> Result<Notice, AllocError> {
        Ok(Notice {
            from: self.from,
            to: self.to,
            added: self.added.copy(alloc)?,
            changed: self.changed.copy(alloc)?,
            removed: self.removed.copy(alloc)?,
        })
    }
}
