// The rule of the word from which numbers are drawn, and the steps that keep it.
ghost use Rattle.std.specs.Prelude.{ℕ};

use atomic_table::{Join, Play, Seat, Split, Table, TableRule};
use std::alloc::Global;
use std::collections::LinkedList;
use std::marker::{Brand, PhantomData};

// What a seat knows: how many numbers it may draw in all, and those that it drew. No value of it is made.
pub struct Hand {
    pub share: u64,
    pub drawn: LinkedList<u64>,
}

pub struct Drawing;

impl TableRule<(), Hand, ()> for Drawing {
    ghost use Rattle.std.specs.Prelude.{[]};
    ghost use Rattle.md_pool.specs.Claims.{whole_share};
    ghost use Rattle.md_pool.specs.Rules.{Rules, hand};

    ghost holds = { λ _. Rules };

    ghost first = { λ _. hand whole_share [] };
}

pub struct Draw;

impl Play<(), Hand> for Draw {
    ghost use Rattle.md_pool.specs.Rules.{Draws};

    ghost then = { Draws };
}

pub struct Close;

impl Play<(), Hand> for Close {
    ghost use Rattle.md_pool.specs.Rules.{Closes};

    ghost then = { Closes };
}

// A number that is known in proofs alone: how much of a share moves to a new seat.
pub trait Amount {
    ghost amount: { ℕ };
}

impl Amount for Brand {
    ghost amount = { 0 };
}

pub struct Cut<N> {
    of: PhantomData<N>,
}

impl<N: Amount> Split<Hand> for Cut<N> {
    ghost use Rattle.std.specs.Prelude.{[], ◌-◌};
    ghost use Rattle.md_pool.specs.Rules.{hand};

    ghost left = { λ v. hand (v.share - N.amount) v.drawn };

    ghost right = { λ v. hand N.amount [] };
}

pub struct Both;

impl Join<Hand> for Both {
    ghost use Rattle.std.specs.Prelude.{[], ◌+◌, ◌++◌};
    ghost use Rattle.md_pool.specs.Rules.{hand};

    ghost both = { λ v w. hand (v.share + w.share) (v.drawn ++ w.drawn) };

    ghost spent = { hand 0 [] };
}

// A word, from which seats draw.
pub type Word = Table<(), Hand, (), Drawing, Global>;

pub type Chair = Seat<(), Hand>;
