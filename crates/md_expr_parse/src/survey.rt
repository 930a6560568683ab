// How deep items are, and how many comparisons they have, before any tree is made.
ghost use Rattle.std.specs.Prelude.{◌≡◌, ◌≤◌, ◌<◌, ◌+◌, ◌^◌, ◌∷◌, List, length, max, IfSome, IfNone, MatchOption, true, false};
ghost use Rattle.md_expr_tree.specs.declared.token.Item.{Item};
ghost use Rattle.md_expr_parse.specs.Survey.{accepts, deepest, comparisons_in, Follows};

use md_expr_tree::Item;

/// What is known of the items so far, before any tree is made.
#[derive(Clone, Copy, Debug, PartialEq, Eq)]
pub struct Place {
    /// A unit has just ended.
    ready: bool,
    /// How many groups are open.
    groups: usize,
    pub deepest: usize,
    pub comparisons: usize,
}

impl Place {
    fn deeper(self) -> Place
        requires { self.groups < 2 ^ 63 }
        ensures { result ≡ record { ready = false; groups = self.groups + 1; deepest = max self.deepest (self.groups + 1); comparisons = self.comparisons } }
    {
        let groups = self.groups + 1;
        Place {
            ready: false,
            groups,
            deepest: self.deepest.max(groups),
            comparisons: self.comparisons,
        }
    }

    #[tactic(auto, using(crate::proofs::Depth::opened, crate::proofs::Depth::shut))]
    fn after(self, item: &Item) -> Option<Place>
        requires within { self.groups ≤ self.deepest }
        requires deepest { self.deepest < 2 ^ 63 }
        requires comparisons { self.comparisons < 2 ^ 63 }
        ensures { MatchOption result ((is : List Item) → accepts self.ready self.groups (item.now ∷ is) ≡ false) (Follows self item.now) }
    {
        match (self.ready, item) {
            (false, Item::Test(_)) => Some(Place {
                ready: true,
                comparisons: self.comparisons + 1,
                ..self
            }),
            (false, Item::Open) => Some(self.deeper()),
            (false, Item::OpenNot) => Some(self.deeper()),
            (true, Item::And) => Some(Place {
                ready: false,
                ..self
            }),
            (true, Item::Or) => Some(Place {
                ready: false,
                ..self
            }),
            (true, Item::Close) if 0 < self.groups => Some(Place {
                groups: self.groups - 1,
                ..self
            }),
            _ => None,
        }
    }
}

/// None where the items are no expression.
pub fn measure(items: &[Item]) -> Option<Place>
    ensures some { IfSome result (λ p. (accepts false 0 items.now ≡ true) × (p.deepest ≡ deepest 0 items.now) × (p.comparisons ≡ comparisons_in items.now)) }
    ensures none { IfNone result (accepts false 0 items.now ≡ false) }
{
    let mut place = Place {
        ready: false,
        groups: 0,
        deepest: 0,
        comparisons: 0,
    };
    for item in items {
        match place.after(item) {
            Some(next) => place = next,
            None => return None,
        }
    }
    if place.ready && place.groups == 0 {
        Some(place)
    } else {
        None
    }
}
