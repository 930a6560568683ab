//! The lock, and its calls.
use crate::journal::JournalEntry;
use crate::journaled::{Core, Journaled};
use crate::pass::Pass;
use crate::rule::TurnTable;
use crate::steps::{act_by, close_by, cut_by, join_by};
use atomic_table::{Badge, Table};
use md_machine::{Event, Reply};
use std::alloc::{AllocError, Global};
use std::marker::{Brand, Model};
use std::mem::replace;
use std::snapshot::Snapshot;
use std::sync::{Mutex, Wait};

/// A server and its journal, which one pass at a time acts on.
#[derive(Drop)]
pub struct Turn<C: Core> {
    table: TurnTable<C>,
    // Journaled from before a ticket is drawn until the turn is passed on, so that one ticket at most is out.
    gate: Mutex<()>,
}

impl<C: Core> Model for Turn<C> {
    ghost use Rattle.std.specs.Prelude.{◌≡◌};
    ghost use Rattle.md_turn.specs.Passes.{Lock};

    ghost Value = { Lock };

    ghost view = { λ t. record { id = t.table.shared.table_id; opening = C.state t.table.shared.key.value } };

    ghost use Rattle.md_expr_tree.specs.contracts.tree.Expr as expr;
    ghost use Rattle.std.specs.Coded.{codes};

    ghost coded = { Prim.hlevel (codes, expr.the_row.coded) };

    ghost invariant = { λ t. (t.table.shared.table_id.words ≡ 2) × (t.table.shared.table_id.slots ≡ 1) };
}

/// Memory ran out: the server is as it was and no entry was made. The event comes back.
#[derive(Drop)]
pub struct Refused {
    pub event: Event,
}

impl<C: Core> Turn<C> {
    ghost use Rattle.std.specs.Prelude.{◌≡◌, ◌+◌, ◌-◌, ◌<◌, ◌≤◌, [], ◌∷◌, length, All, IfOk, IfErr, IsOk};
    ghost use Rattle.md_turn.specs.Journal.{Has, total_of};
    ghost use Rattle.md_turn.specs.Turns.{whole_share};
    ghost use Rattle.md_turn.specs.Passes.{made_by, Known, Joined, Ended, Gathered};
    ghost use Rattle.md_turn.specs.Acts.{Acted, Unacted};

    /// A lock round the server, with an empty journal, and a pass that may make 18,446,744,073,709,551,615 acts. Fails only
    /// where memory runs out.
    pub fn new(alloc: Global, core: C) -> Result<(Turn<C>, Pass), AllocError>
        ensures turn { IfOk result (λ r. (r.1.id ≡ r.0.id) × (r.0.opening ≡ C.state core)) }
        ensures pass { IfOk result (λ r. (r.1.seen ≡ []) × (r.1.own ≡ []) × (r.1.refused ≡ 0) × (r.1.share ≡ whole_share)) }
    {
        let key = Snapshot::of(&core);
        let mut slots = Vec::with_capacity(alloc, 1)?;
        slots.push_reserved(Some(Journaled {
            alloc,
            core,
            journal: Vec::new(alloc),
        }));
        match Table::new(alloc, &[0, 0], slots, &key) {
            Ok((table, seat)) => {
                let pass = Pass {
                    badge: seat.into_badge(),
                    share: u64::MAX,
                    made: 0,
                };
                let gate = Mutex::new(());
                Ok((Turn { table, gate }, pass))
            }
            Err(_) => Err(AllocError),
        }
    }

    /// Waits for the pass's turn and has the event answered: the entry's place in the journal, and the reply. The pass has
    /// then seen the journal up to its entry.
    ///
    /// `Refused` comes only where memory runs out. The server is then as it was and there is no entry; the pass counts one
    /// refused act more, and may have seen more entries of others.
    pub fn act<R: Wait>(
        &self,
        rt: &R,
        pass: &mut Pass,
        event: Event,
    ) -> Result<(u64, Reply), Refused>
        requires turn { pass.old.id ≡ self.now.id }
        requires room { made_by pass.old < pass.old.share }
        ensures same { (pass.new.id ≡ pass.old.id) × (pass.new.share ≡ pass.old.share) }
        ensures acted { IfOk result (λ r. Acted self.now.opening pass.old.seen pass.old.own pass.new.seen pass.new.own event r.0 r.1 × (pass.new.refused ≡ pass.old.refused)) }
        ensures refused { IfErr result (λ e. (e.event ≡ event) × Unacted self.now.opening pass.old.seen pass.old.own pass.new.seen pass.new.own × (pass.new.refused ≡ pass.old.refused + 1)) }
    {
        let mut seat = replace(&mut pass.badge, Badge::blank()).into_seat();
        let guard = self.gate.lock(rt);
        let outcome = act_by::<C, Brand, R>(rt, &self.table, &mut seat, event);
        drop(guard);
        pass.badge = seat.into_badge();
        pass.made += 1;
        match outcome {
            Ok(answer) => Ok(answer),
            Err(event) => Err(Refused { event }),
        }
    }

    /// Moves so much of the pass's share to a new pass, which has seen as much and made nothing.
    pub fn split(&self, pass: &mut Pass, share: u64) -> Result<Pass, AllocError>
        requires turn { pass.old.id ≡ self.now.id }
        requires room { share ≤ pass.old.share - made_by pass.old }
        ensures old { pass.new ≡ record pass.old { share = pass.old.share - share } }
        ensures given { IsOk result }
        ensures new { IfOk result (λ p. p ≡ record { id = pass.old.id; share = share; seen = pass.old.seen; own = []; refused = 0 }) }
    {
        let mut seat = replace(&mut pass.badge, Badge::blank()).into_seat();
        let new = cut_by::<C, Brand>(&self.table, &mut seat, share);
        pass.badge = seat.into_badge();
        pass.share -= share;
        Ok(Pass {
            badge: new.into_badge(),
            share,
            made: 0,
        })
    }

    /// The pass takes in the other one: it has the shares, the entries and the refused acts of both, and has seen the longer
    /// of both journals.
    pub fn join(&self, pass: &mut Pass, other: Pass)
        requires turn { (pass.old.id ≡ self.now.id) × (other.id ≡ self.now.id) }
        ensures same { pass.new.id ≡ pass.old.id }
        ensures joined { Joined pass.old other pass.new }
        ensures own { All (Has pass.new.seen) pass.old.own × All (Has pass.new.seen) other.own }
    {
        let Pass { badge, share, made } = other;
        let mut seat = replace(&mut pass.badge, Badge::blank()).into_seat();
        join_by(&self.table, &mut seat, badge.into_seat());
        pass.badge = seat.into_badge();
        pass.share += share;
        pass.made += made;
    }

    // The lock at its end, by a pass that has the whole share.
    fn close_one(self, pass: Pass) -> (C, Vec<JournalEntry>)
        requires turn { pass.id ≡ self.id }
        requires whole { pass.share ≡ whole_share }
        ensures { Ended self.opening (pass ∷ []) (C.state result.0) result.1.items }
    {
        pass.own_are_seen();
        let Turn { table, .. } = self;
        let Pass { badge, .. } = pass;
        let Journaled { core, journal, .. } = close_by(table, badge.into_seat());
        (core, journal)
    }

    // One pass that took in all of these.
    fn gather(&self, mut passes: Vec<Pass>) -> Pass
        requires turn { All (λ (p : Known). p.id ≡ self.now.id) passes.items }
        requires some { 0 < length passes.items }
        ensures same { result.id ≡ self.now.id }
        ensures gathered { Gathered passes.items result }
    {
        let mut pass = passes.pop().unwrap();
        pass.own_are_seen();
        while let Some(other) = passes.pop() {
            other.own_are_seen();
            self.join(&mut pass, other);
        }
        pass
    }

    /// The server and its journal, by passes that have the whole share, so that no other pass can act. Takes no memory.
    pub fn close(self, passes: Vec<Pass>) -> (C, Vec<JournalEntry>)
        requires turn { All (λ (p : Known). p.id ≡ self.id) passes.items }
        requires shares { total_of (λ (p : Known). p.share) passes.items ≡ whole_share }
        ensures { Ended self.opening passes.items (C.state result.0) result.1.items }
    {
        let pass = self.gather(passes);
        self.close_one(pass)
    }
}
