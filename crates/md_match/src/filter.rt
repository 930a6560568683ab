// Filters of rows.
ghost use Rattle.std.specs.Prelude.{◌≡◌, ℕ, IfOk, IsErrOf, Some, None};
ghost use Rattle.std.specs.Option.{option_map};
ghost use Rattle.md_match.specs.Forms.{first_out_of_range, capped};
ghost use Rattle.md_match.specs.Conditions.{passes};
ghost use Rattle.md_match.specs.declared.filter.FilterError.TheVariants.{Memory};

use crate::forms::first_out_of_range;
use crate::ready::Ready;
use md_expr_tree::Expr;
use md_time::LocalTime;
use md_value::{Copied, Path};
use md_world::Row;
use std::alloc::{AllocError, Global};
use std::marker::Model;

/// A test of rows: whether the path is inside a folder and the attributes satisfy an expression.
/// Contracts see what it was made of.
#[derive(Drop)]
pub struct Filter {
    expr: Expr,
    local: LocalTime,
    scope: Path,
    /// The expression with its keys made and its moments resolved.
    ready: Ready,
}

impl Model for Filter {
    ghost use Rattle.md_match.specs.Conditions.{Condition, condition_code};

    ghost Value = { Condition };

    ghost coded = { condition_code };

    ghost view = { λ f. record { expr = f.expr; moment = f.local.moment; offset = f.local.offset; scope = f.scope } };

    ghost use Rattle.std.specs.Prelude.{◌≡◌, List};
    ghost use Rattle.md_value.specs.Attrs.{Attr};
    ghost use Rattle.md_match.specs.Satisfies.{satisfies};
    ghost use Rattle.md_match.specs.Ready.{is_satisfied};

    ghost invariant = { λ f. (attrs : List Attr) → is_satisfied f.ready attrs ≡ satisfies f.local.moment f.local.offset f.expr attrs };
}

/// Why a filter was not made.
#[derive(Clone, Copy, Debug, PartialEq, Eq)]
pub enum FilterError {
    /// The moment of a form of time is out of range. The forms are numbered from 1 in reading order, and this is the
    /// first such form, or 4,294,967,295 where its number is greater.
    TimeOutOfRange(u32),
    Memory,
}

impl From<AllocError> for FilterError {
    ghost from_gives = { λ _ e. e ≡ Memory };

    fn from(_: AllocError) -> FilterError {
        FilterError::Memory
    }
}

impl Filter {
    /// The filter of the rows inside the scope that satisfy the expression, whose forms of time are resolved from `now`, in
    /// seconds since 1970 in UTC, at `offset`, the minutes by which local time is ahead of UTC.
    ///
    /// `TimeOutOfRange` comes exactly where the moment of some form is out of range.
    pub fn new(
        alloc: Global,
        expr: &Expr,
        now: i64,
        offset: i32,
        scope: &Path,
    ) -> Result<Filter, FilterError>
        ensures made { IfOk result (λ f. f ≡ record { expr = expr.now; moment = now; offset = offset; scope = scope.now }) }
        ensures in_range { IfOk result (λ _. first_out_of_range now offset expr.now ≡ None) }
        ensures out_of_range { (which : ℕ) → IsErrOf result (FilterError.TimeOutOfRange which) → option_map capped (first_out_of_range now offset expr.now) ≡ Some which }
    {
        if let Some(which) = first_out_of_range(expr, now, offset) {
            return Err(FilterError::TimeOutOfRange(which));
        }
        Ok(Filter::of(alloc, expr, now, offset, scope)?)
    }

    /// The same filter, also where the moment of some form is out of range: no value meets such a form.
    pub fn of(
        alloc: Global,
        expr: &Expr,
        now: i64,
        offset: i32,
        scope: &Path,
    ) -> Result<Filter, AllocError>
        ensures { IfOk result (λ f. f ≡ record { expr = expr.now; moment = now; offset = offset; scope = scope.now }) }
    {
        let local = LocalTime {
            moment: now,
            offset,
        };
        Ok(Filter {
            expr: expr.copy(alloc)?,
            local,
            scope: scope.copy(alloc)?,
            ready: Ready::of(alloc, expr, &local)?,
        })
    }

    /// Whether the row's path is inside the scope and its attributes satisfy the expression.
    #[tactic(auto, unfolding(crate::specs::Conditions::passes))]
    pub fn test(&self, alloc: Global, row: &Row) -> Result<bool, AllocError>
        ensures { IfOk result (λ is. is ≡ passes self.now row.now) }
    {
        if !row.path.inside(&self.scope) {
            return Ok(false);
        }
        self.ready.is_satisfied(alloc, &row.attrs)
    }

    /// The expression. Takes no memory.
    pub fn expr(&self) -> &Expr
        ensures { result.now ≡ self.now.expr }
    {
        &self.expr
    }

    /// The moment from which forms of time are resolved. Takes no memory.
    pub fn now(&self) -> i64
        ensures { result ≡ self.now.moment }
    {
        self.local.moment
    }

    /// The minutes by which local time is ahead of UTC. Takes no memory.
    pub fn offset(&self) -> i32
        ensures { result ≡ self.now.offset }
    {
        self.local.offset
    }

    /// The folder. Takes no memory.
    pub fn scope(&self) -> &Path
        ensures { result.now ≡ self.now.scope }
    {
        &self.scope
    }
}
