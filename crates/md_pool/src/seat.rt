// A seat of claims.
ghost use Rattle.std.specs.Prelude.{◌≡◌, ◌≤◌};
ghost use Rattle.md_pool.specs.Claims.{made_by};

use crate::rule::Chair;
use std::marker::Model;

/// The right to draw some numbers of some [`Claims`](crate::Claims): as many as its share. Contracts see the claims that it is
/// of, the share and the numbers drawn. It may be moved to another thread.
#[derive(Drop)]
pub struct ClaimSeat {
    pub(crate) chair: Chair,
    pub(crate) share: u64,
    pub(crate) made: u64,
}

impl Model for ClaimSeat {
    ghost use Rattle.std.specs.Prelude.{◌≡◌, ◌≤◌, [], length};
    ghost use Rattle.md_pool.specs.Claims.{Drawer};

    ghost Value = { Drawer };

    ghost view = { λ s. record { id = s.chair.table_id; share = s.chair.me.0.share; drawn = s.chair.me.0.drawn } };

    ghost invariant = { λ s. (s.share ≡ s.chair.me.0.share) × (s.made ≡ length s.chair.me.0.drawn) × (s.made ≤ s.share) × (s.chair.me.1 ≡ []) };
}

impl ClaimSeat {
    /// How many claims it may make in all.
    pub fn share(&self) -> u64
        ensures { result ≡ self.now.share }
    {
        self.share
    }

    /// How many claims it made, at most [`share`](ClaimSeat::share).
    pub fn made(&self) -> u64
        ensures count { result ≡ made_by self.now }
        ensures within { result ≤ self.now.share }
    {
        self.made
    }
}
