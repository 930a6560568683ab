//! Claims: the numbers below a bound, of which any number of threads draw one each in turn, by one atomic addition. No
//! number is drawn twice and none is left out, and nobody waits.
#![tactic(auto)]

mod claims;
mod draws;
mod rule;
mod seat;

pub use claims::Claims;
pub use seat::ClaimSeat;

// Takes types that threads may share, and that may be moved to one.
const fn crosses<Shared: Sync, Moved: Send>() {}

/// Threads may share [`Claims`], and a [`ClaimSeat`] may be moved to one.
pub const fn may_cross() {
    crosses::<Claims, ClaimSeat>();
}
