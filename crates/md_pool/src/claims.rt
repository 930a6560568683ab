// Claims.
ghost use Rattle.std.specs.Prelude.{◌≡◌, ℕ, ◌+◌, ◌-◌, ◌<◌, ◌≤◌, [], ◌++◌, min, All, IfOk, IsOk};
ghost use Rattle.md_pool.specs.Claims.{Drawer, IsClaimed, EachDrawnOnce, made_by, whole_share, total_of};
ghost use Rattle.md_pool.specs.Rules.{Gathered};

use crate::draws::{count, cut_off, draw, take_in};
use crate::rule::Word;
use crate::seat::ClaimSeat;
use std::alloc::{AllocError, Global};
use std::marker::{Brand, Model};

/// The numbers below a bound, which [seats](ClaimSeat) draw. Contracts see which claims they are and the bound. Threads may
/// share them.
#[derive(Drop)]
pub struct Claims {
    word: Word,
    numbers: u32,
}

impl Model for Claims {
    ghost use Rattle.std.specs.Prelude.{◌≡◌};
    ghost use Rattle.md_pool.specs.Claims.{Pool};

    ghost Value = { Pool };

    ghost view = { λ c. record { id = c.word.shared.table_id; numbers = c.numbers } };

    ghost invariant = { λ c. c.word.shared.table_id.words ≡ 1 };
}

impl Claims {
    /// Claims of the numbers below `numbers`, with a seat that has all shares, 18446744073709551615.
    ///
    /// # Errors
    ///
    /// Memory is refused.
    pub fn new(alloc: Global, numbers: u32) -> Result<(Claims, ClaimSeat), AllocError>
        ensures claims { IfOk result (λ r. r.0.numbers ≡ numbers) }
        ensures seat { IfOk result (λ r. r.1 ≡ record { id = r.0.id; share = whole_share; drawn = [] }) }
    {
        let (word, chair) = Word::of_words(alloc, &[0], &())?;
        let seat = ClaimSeat {
            chair,
            share: u64::MAX,
            made: 0,
        };
        Ok((Claims { word, numbers }, seat))
    }

    /// A new seat, to which `share` of this one's share moves. It takes no memory as it is built today, so it is never refused.
    ///
    /// # Errors
    ///
    /// None.
    pub fn split(&self, seat: &mut ClaimSeat, share: u64) -> Result<ClaimSeat, AllocError>
        requires seat { seat.old.id ≡ self.now.id }
        requires room { share ≤ seat.old.share - made_by seat.old }
        ensures old { seat.new ≡ record seat.old { share = seat.old.share - share } }
        ensures given { IsOk result }
        ensures new { IfOk result (λ new. new ≡ record { id = seat.old.id; share = share; drawn = [] }) }
    {
        let chair = cut_off::<Brand>(&self.word, &mut seat.chair, share);
        seat.share -= share;
        Ok(ClaimSeat {
            chair,
            share,
            made: 0,
        })
    }

    /// Draws a number, by one atomic addition: `None` where all numbers below the bound were drawn before. It takes no memory
    /// and never waits.
    pub fn claim(&self, seat: &mut ClaimSeat) -> Option<u32>
        requires seat { seat.old.id ≡ self.now.id }
        requires room { made_by seat.old < seat.old.share }
        ensures { IsClaimed self.now seat.old seat.new result }
    {
        let number = draw(&self.word, &mut seat.chair);
        seat.made += 1;
        if number < u64::from(self.numbers) {
            Some(number as u32)
        } else {
            None
        }
    }

    // The seat takes in the other one.
    fn join(&self, seat: &mut ClaimSeat, other: ClaimSeat)
        requires seats { (seat.old.id ≡ self.now.id) × (other.id ≡ self.now.id) }
        requires shares { seat.old.share + other.share ≤ whole_share }
        ensures { seat.new ≡ record { id = seat.old.id; share = seat.old.share + other.share; drawn = seat.old.drawn ++ other.drawn } }
    {
        let ClaimSeat { chair, share, made } = other;
        take_in(&self.word, &mut seat.chair, chair);
        seat.share += share;
        seat.made += made;
    }

    // One seat that took in all of these.
    fn gather(&self, mut seats: Vec<ClaimSeat>) -> ClaimSeat
        requires seats { All (λ (s : Drawer). s.id ≡ self.now.id) seats.items }
        requires whole { total_of (λ (s : Drawer). s.share) seats.items ≡ whole_share }
        ensures same { result.id ≡ self.now.id }
        ensures gathered { Gathered seats.items result }
    {
        let mut all = seats.pop().unwrap();
        while let Some(seat) = seats.pop() {
            self.join(&mut all, seat);
        }
        all
    }

    /// How many of the numbers were drawn. The seats have all shares, so nobody else can draw one. It takes no memory.
    pub fn close(self, seats: Vec<ClaimSeat>) -> u32
        requires seats { All (λ (s : Drawer). s.id ≡ self.id) seats.items }
        requires whole { total_of (λ (s : Drawer). s.share) seats.items ≡ whole_share }
        ensures count { result ≡ min self.numbers (total_of made_by seats.items) }
        ensures once { EachDrawnOnce seats.items }
    {
        let mut all = self.gather(seats);
        let made = count(&self.word, &mut all.chair);
        made.min(u64::from(self.numbers)) as u32
    }
}
