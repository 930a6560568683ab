//! The right to act.
use crate::rule::View;
use atomic_table::Badge;
use std::marker::Model;

/// The right to make a number of acts, its share, with what is known of the journal: what was seen of it, and which entries
/// are the pass's own. One that is dropped takes its share with it, and the lock cannot be closed any more.
#[derive(Drop)]
pub struct Pass {
    pub(crate) badge: Badge<View>,
    pub(crate) share: u64,
    pub(crate) made: u64,
}

impl Model for Pass {
    ghost use Rattle.md_turn.specs.Passes.{Known, known_of, view_of, IsPass};
    ghost use Rattle.std.specs.Coded.{codes};
    ghost use Rattle.md_turn.specs.contracts.journal.JournalEntry as journal;

    ghost Value = { Known };

    ghost coded = { Prim.hlevel (codes, journal.the_row.coded) };

    ghost view = { λ p. known_of p.badge.table_id (view_of p.badge.views) };

    ghost invariant = { λ p. IsPass p.badge.views p.share p.made };
}

impl Pass {
    ghost use Rattle.std.specs.Prelude.{◌≡◌, ◌≤◌, All};
    ghost use Rattle.md_turn.specs.Journal.{Has, Rises};
    ghost use Rattle.md_turn.specs.Passes.{made_by};

    /// How many acts it may make in all.
    pub fn share(&self) -> u64
        ensures { result ≡ self.now.share }
    {
        self.share
    }

    /// How many it made, those included that were refused.
    pub fn made(&self) -> u64
        ensures count { result ≡ made_by self.now }
        ensures within { result ≤ self.now.share }
    {
        self.made
    }

    // Its own entries stand in the journal that it has seen, and by place.
    pub(crate) fn own_are_seen(&self)
        ensures seen { All (Has self.now.seen) self.now.own }
        ensures rises { Rises self.now.own }
    {
        let _ = &self.badge;
    }
}
