// A gather, part by part.
ghost use Rattle.std.specs.Prelude.{◌≡◌, ◌+◌, ◌≤◌, ◌<◌, drop, length, All, IfOk, true};
ghost use Rattle.md_store.specs.Stores.{is_shown};
ghost use Rattle.md_gather.specs.Hits.{hits_in, first_of, past, is_last};

use crate::walk::{is_full, walk};
use md_match::Filter;
use md_store::Store;
use md_value::PlainVec;
use md_world::{Part, Steps};
use std::alloc::{AllocError, Global};
use std::marker::Model;
use std::sync::ledger::Ledger;

/// The candidates of a query on one version of a store, of which some were walked. Contracts see those that are left.
#[derive(Debug, Drop)]
pub struct Gather {
    places: Vec<u32>,
    walked: usize,
    version: u32,
}

impl Model for Gather {
    ghost use Rattle.std.specs.Prelude.{◌≤◌, drop, length};
    ghost use Rattle.md_gather.specs.Hits.{Left};

    ghost Value = { Left };

    ghost view = { λ g. record { left = drop g.walked g.places.items; version = g.version } };

    ghost invariant = { λ g. g.walked ≤ length g.places.items };
}

/// How many candidates a part walked. Contracts see the number.
#[derive(Debug, Drop)]
pub struct Reached {
    walked: usize,
}

impl Model for Reached {
    ghost use Rattle.std.specs.Prelude.{ℕ};

    ghost Value = { ℕ };

    ghost view = { λ r. r.walked };
}

impl Gather {
    /// A gather of these candidates on a version, with none walked. Takes no memory.
    pub fn new(places: Vec<u32>, version: u32) -> Gather
        ensures { result ≡ record { left = places.items; version = version } }
    {
        Gather {
            places,
            walked: 0,
            version,
        }
    }

    /// The next hits, at most so many, as they are shown. A part is the last where it has fewer, or all are asked for. Each
    /// candidate that is walked costs one read of its row. Fails only where memory runs out.
    pub fn part<L: Ledger>(
        &self,
        alloc: Global,
        filter: &Filter,
        most: Option<u32>,
        store: &Store,
        steps: &mut Steps<L>,
    ) -> Result<(Part, Reached), AllocError>
        requires version { is_shown store.now self.now.version ≡ true }
        requires places { All (λ place. place < length store.now.places) self.now.left }
        ensures hits { IfOk result (λ r. r.0.hits ≡ first_of most (hits_in filter.now store.now self.now.version self.now.left)) }
        ensures last { IfOk result (λ r. r.0.last ≡ is_last most (length (hits_in filter.now store.now self.now.version self.now.left))) }
        ensures left { IfOk result (λ r. hits_in filter.now store.now self.now.version (drop r.1 self.now.left) ≡ past most (hits_in filter.now store.now self.now.version self.now.left)) }
        ensures walked { IfOk result (λ r. r.1 ≤ length self.now.left) }
        ensures cost { IfOk result (λ r. steps.new ≡ steps.old + r.1) }
        ensures bound { steps.new ≤ steps.old + length self.now.left }
    {
        let left = &self.places[self.walked..];
        let (hits, walked) = walk(alloc, left, self.version, filter, most, store, steps)?;
        let last = !is_full(hits.len(), most);
        Ok((
            Part {
                hits: PlainVec::from_vec(hits),
                last,
            },
            Reached { walked },
        ))
    }

    /// Passes over the candidates that a part walked, on the gather as it was then. Takes no memory.
    pub fn advance(&mut self, reached: Reached)
        requires { reached ≤ length self.old.left }
        ensures { self.new ≡ record self.old { left = drop reached self.old.left } }
    {
        self.walked += reached.walked;
    }
}
