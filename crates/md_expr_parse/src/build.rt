// Builds an expression from its items.
ghost use Rattle.std.specs.Prelude.{◌≡◌, ◌∷◌, ◌++◌, [], List, Option, Some, None, true, false, IfOk, reverse};
ghost use Rattle.std.specs.Option.{option_map, option_and_then};
ghost use Rattle.md_expr_tree.specs.declared.token.Item.{Item};
ghost use Rattle.md_expr_tree.specs.declared.token.Item.TheVariants.{Close};
ghost use Rattle.md_expr_tree.specs.Grammar.{all_of, any_of};
ghost use Rattle.md_expr_parse.specs.Group.{group};
ghost use Rattle.md_expr_parse.specs.Machine.{closed, signed, run};
ghost use Rattle.md_expr_parse.specs.Resume.{resume};

use md_expr_tree::{Expr, Item};
use sqlite_items::{Boxed, Items};
use std::alloc::{AllocError, Global};

/// An expression that is not over, up to the group that is open in it.
#[derive(Drop)]
pub struct Level {
    ors: Items<Expr>,
    ands: Items<Expr>,
    negated: bool,
}

/// What has been read so far. The innermost open group is last in `outer`.
#[derive(Drop)]
pub struct Builder {
    outer: Items<Level>,
    ors: Items<Expr>,
    ands: Items<Expr>,
    /// A unit has just ended.
    ready: bool,
}

#[tactic(auto, using(crate::proofs::Chains::all_of_one, crate::proofs::Chains::all_of_more))]
fn all_of(list: Items<Expr>) -> Expr
    ensures { result ≡ all_of list }
{
    let mut list = list;
    if list.len() == 1
        && let Some(e) = list.pop()
    {
        e
    } else {
        Expr::All(list)
    }
}

#[tactic(auto, using(crate::proofs::Chains::any_of_one, crate::proofs::Chains::any_of_more))]
fn any_of(list: Items<Expr>) -> Expr
    ensures { result ≡ any_of list }
{
    let mut list = list;
    if list.len() == 1
        && let Some(e) = list.pop()
    {
        e
    } else {
        Expr::Any(list)
    }
}

fn closed(ors: Items<Expr>, ands: Items<Expr>) -> Result<Expr, AllocError>
    ensures { IfOk result (λ e. e ≡ closed ors ands) }
{
    let mut ors = ors;
    ors.push(all_of(ands))?;
    Ok(any_of(ors))
}

fn signed(alloc: Global, negated: bool, e: Expr) -> Result<Expr, AllocError>
    ensures { IfOk result (λ x. x ≡ signed negated e) }
{
    if negated {
        Ok(Expr::Not(Boxed::new(alloc, e)?))
    } else {
        Ok(e)
    }
}

impl Builder {
    pub fn new(alloc: Global) -> Builder
        ensures { (is : List Item) → resume result is ≡ run false [] [] [] is }
    {
        Builder {
            outer: Items::new(alloc),
            ors: Items::new(alloc),
            ands: Items::new(alloc),
            ready: false,
        }
    }

    fn unit(self, e: Expr) -> Result<Builder, AllocError>
        ensures { IfOk result (λ b. (is : List Item) → resume b is ≡ run true (reverse self.outer) self.ors (self.ands ++ e ∷ []) is) }
    {
        let Builder {
            outer,
            ors,
            mut ands,
            ..
        } = self;
        ands.push(e)?;
        Ok(Builder {
            outer,
            ors,
            ands,
            ready: true,
        })
    }

    fn open(self, alloc: Global, negated: bool) -> Result<Builder, AllocError>
        ensures { IfOk result (λ b. (is : List Item) → resume b is ≡ run false (record { ors = self.ors; ands = self.ands; negated = negated } ∷ reverse self.outer) [] [] is) }
    {
        let Builder {
            mut outer,
            ors,
            ands,
            ..
        } = self;
        outer.push(Level { ors, ands, negated })?;
        Ok(Builder {
            outer,
            ors: Items::new(alloc),
            ands: Items::new(alloc),
            ready: false,
        })
    }

    fn next_all(self, alloc: Global) -> Result<Builder, AllocError>
        ensures { IfOk result (λ b. (is : List Item) → resume b is ≡ run false (reverse self.outer) (self.ors ++ all_of self.ands ∷ []) [] is) }
    {
        let Builder {
            outer,
            mut ors,
            ands,
            ..
        } = self;
        ors.push(all_of(ands))?;
        Ok(Builder {
            outer,
            ors,
            ands: Items::new(alloc),
            ready: false,
        })
    }

    fn close(self, alloc: Global) -> Result<Option<Builder>, AllocError>
        requires { self.ready ≡ true }
        ensures { IfOk result (λ next. (is : List Item) → resume self (Close ∷ is) ≡ option_and_then (λ b. resume b is) next) }
    {
        let Builder {
            mut outer,
            ors,
            ands,
            ready,
        } = self;
        match outer.pop() {
            None => Ok(None),
            Some(level) => {
                let Level {
                    ors: before,
                    ands: units,
                    negated,
                } = level;
                let e = signed(alloc, negated, closed(ors, ands)?)?;
                let inner = Builder {
                    outer,
                    ors: before,
                    ands: units,
                    ready,
                };
                Ok(Some(inner.unit(e)?))
            }
        }
    }

    pub fn step(self, alloc: Global, item: Item) -> Result<Option<Builder>, AllocError>
        ensures { IfOk result (λ next. (is : List Item) → resume self (item ∷ is) ≡ option_and_then (λ b. resume b is) next) }
    {
        match (self.ready, item) {
            (false, Item::Test(test)) => Ok(Some(self.unit(Expr::Test(test))?)),
            (false, Item::Open) => Ok(Some(self.open(alloc, false)?)),
            (false, Item::OpenNot) => Ok(Some(self.open(alloc, true)?)),
            (true, Item::And) => Ok(Some(Builder {
                ready: false,
                ..self
            })),
            (true, Item::Or) => Ok(Some(self.next_all(alloc)?)),
            (true, Item::Close) => self.close(alloc),
            _ => Ok(None),
        }
    }

    pub fn finish(self) -> Result<Option<Expr>, AllocError>
        ensures { IfOk result (λ e. e ≡ resume self []) }
    {
        let Builder {
            outer,
            ors,
            ands,
            ready,
        } = self;
        if ready && outer.is_empty() {
            Ok(Some(closed(ors, ands)?))
        } else {
            Ok(None)
        }
    }
}
