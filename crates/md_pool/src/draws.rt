// The steps of the word, by a seat.
ghost use Rattle.std.specs.Prelude.{◌≡◌, ℕ, ◌+◌, ◌-◌, ◌<◌, ◌≤◌, [], ◌∷◌, ◌++◌, length, All};
ghost use Rattle.md_pool.specs.Claims.{whole_share, times, once_below};
ghost use Rattle.md_pool.specs.Rules.{hand};

use crate::rule::{Amount, Both, Chair, Close, Cut, Draw, Word};

// Draws a number by one atomic addition.
pub(crate) fn draw(word: &Word, chair: &mut Chair) -> u64
    requires table { (chair.old.table_id ≡ word.now.shared.table_id) × (word.now.shared.table_id.words ≡ 1) }
    requires room { length chair.old.me.0.drawn < chair.old.me.0.share }
    ensures table { chair.new.table_id ≡ chair.old.table_id }
    ensures drawn { chair.new.me ≡ (hand chair.old.me.0.share (chair.old.me.0.drawn ++ result ∷ []), chair.old.me.1) }
    ensures above { All (λ earlier. earlier < result) chair.old.me.0.drawn }
    ensures least { length chair.old.me.0.drawn ≤ result }
{
    word.shared.fetch_add::<Draw>(chair, 0, 1)
}

// How many numbers were drawn. The seat has all shares, so it drew all of them.
pub(crate) fn count(word: &Word, chair: &mut Chair) -> u64
    requires table { (chair.old.table_id ≡ word.now.shared.table_id) × (word.now.shared.table_id.words ≡ 1) }
    requires whole { chair.old.me.0.share ≡ whole_share }
    ensures count { length chair.old.me.0.drawn ≡ result }
    ensures once { (x : ℕ) → times x chair.old.me.0.drawn ≡ once_below x result }
{
    word.shared.load::<Close>(chair, 0)
}

// A new seat with a part of this one's share.
pub(crate) fn cut_off<N: Amount>(word: &Word, chair: &mut Chair, share: u64) -> Chair
    requires amount { share ≡ N.amount }
    requires table { (chair.old.table_id ≡ word.now.shared.table_id) × (word.now.shared.table_id.words ≡ 1) }
    requires room { share ≤ chair.old.me.0.share - length chair.old.me.0.drawn }
    ensures table { (chair.new.table_id ≡ chair.old.table_id) × (result.table_id ≡ chair.old.table_id) }
    ensures old { chair.new.me ≡ (hand (chair.old.me.0.share - share) chair.old.me.0.drawn, chair.old.me.1) }
    ensures new { result.me ≡ (hand share [], []) }
{
    word.shared.split_seat::<Cut<N>>(chair)
}

// The seat takes in the other one.
pub(crate) fn take_in(word: &Word, chair: &mut Chair, other: Chair)
    requires table { (chair.old.table_id ≡ word.now.shared.table_id) × (word.now.shared.table_id.words ≡ 1) }
    requires other { (other.table_id ≡ word.now.shared.table_id) × (other.me.1 ≡ []) }
    ensures table { chair.new.table_id ≡ chair.old.table_id }
    ensures both { chair.new.me ≡ (hand (chair.old.me.0.share + other.me.0.share) (chair.old.me.0.drawn ++ other.me.0.drawn), chair.old.me.1) }
{
    word.shared.join_seat::<Both>(chair, other)
}
