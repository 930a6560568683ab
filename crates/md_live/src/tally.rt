// What the notices of a run come to.
ghost use Rattle.std.specs.Prelude.{◌≡◌, ◌∷◌, []};
ghost use Rattle.md_live.specs.Tallies.{HasRoom, IsMore, both, no_tally, tally_of};

use md_machine::Reply;

/// How many notices there are, and how many items their lists have in all.
#[derive(Clone, Copy, Debug, PartialEq, Eq)]
pub struct Tally {
    pub notices: u64,
    pub added: u128,
    pub changed: u128,
    pub removed: u128,
}

impl Tally {
    /// No notice.
    pub(crate) fn new() -> Tally
        ensures { result ≡ no_tally }
    {
        Tally {
            notices: 0,
            added: 0,
            changed: 0,
            removed: 0,
        }
    }

    /// Counts a reply if it is a notice.
    pub(crate) fn add(&mut self, reply: &Reply)
        requires { HasRoom self.old }
        ensures tally { self.new ≡ both self.old (tally_of (reply.now ∷ [])) }
        ensures more { IsMore self.old self.new }
    {
        if let Reply::Notice(notice) = reply {
            self.notices += 1;
            self.added += notice.added.len() as u128;
            self.changed += notice.changed.len() as u128;
            self.removed += notice.removed.len() as u128;
        }
    }
}
