// Places, each with whether it is counted. A place that is not counted yet has its room.
ghost use Rattle.std.specs.Prelude.{◌≡◌, ◌==◌, ◌||◌, ◌<◌, ℕ, length, true, false, OnOk, IfOk, is_some};
ghost use Rattle.md_index.specs.States.{is_on, written, one_state, place_state};
ghost use Rattle.md_index.specs.Indexed.{lists, Adds};

use crate::blocks::{self, Blocks};
use std::alloc::{AllocError, Global};
use std::collections::BTreeMap;

/// Some places.
#[derive(Drop)]
pub enum Places {
    /// One place alone, and whether it is counted.
    One(u32, bool),
    Many(Blocks),
}

/// No place. Takes no memory.
pub fn none(alloc: Global) -> Places
    ensures { (p : ℕ) → is_on (place_state result p) ≡ false }
{
    Places::Many(BTreeMap::new(alloc))
}

/// Makes room for a place.
pub fn promise(alloc: Global, places: &mut Places, place: u32) -> Result<(), AllocError>
    ensures same { (p : ℕ) → is_on (place_state places.new p) ≡ is_on (place_state places.old p) }
    ensures keeps { (p : ℕ) → is_some (place_state places.old p) ≡ true → is_some (place_state places.new p) ≡ true }
    ensures there { OnOk result (is_some (place_state places.new place) ≡ true) }
{
    match places {
        Places::One(one, counted) => {
            if *one == place {
                return Ok(());
            }
            let mut blocks = blocks::of_one(alloc, *one, *counted)?;
            blocks::promise(&mut blocks, place)?;
            *places = Places::Many(blocks);
            Ok(())
        }
        Places::Many(blocks) => blocks::promise(blocks, place),
    }
}

fn write_one(one: u32, counted: bool, place: u32, flag: bool) -> bool
    ensures { (p : ℕ) → one_state one result p ≡ written ((place == p)) flag (one_state one counted p) }
{
    if one == place { flag } else { counted }
}

/// Sets whether a place is counted, if it has room. Takes no memory.
pub fn write(places: &mut Places, place: u32, flag: bool)
    ensures { (p : ℕ) → place_state places.new p ≡ written ((place == p)) flag (place_state places.old p) }
{
    match places {
        Places::One(one, counted) => {
            *counted = write_one(*one, *counted, place, flag);
        }
        Places::Many(blocks) => blocks::write(blocks, place, flag),
    }
}

/// Gives up room around a place that is not counted. Takes no memory.
pub fn sweep(places: &mut Places, place: u32)
    ensures { (p : ℕ) → is_on (place_state places.new p) ≡ is_on (place_state places.old p) }
{
    if let Places::Many(blocks) = places {
        blocks::sweep(blocks, place);
    }
}

/// Whether there is no place, but for the room of one.
pub fn is_empty(places: &Places) -> bool
    ensures { result ≡ true → (p : ℕ) → is_on (place_state places.now p) ≡ false }
{
    match places {
        Places::One(_, counted) => !*counted,
        Places::Many(blocks) => blocks.is_empty(),
    }
}

fn push_one(places: &mut Vec<u32>, one: u32, counted: bool) -> Result<(), AllocError>
    ensures { OnOk result ((p : ℕ) → lists places.new.items p ≡ lists places.old.items p || is_on (one_state one counted p)) }
{
    if counted {
        places.push(one)?;
    }
    Ok(())
}

/// Adds the places that are counted, or some of them where there are more than a limit then. Answers whether it were all.
pub fn push_counted(out: &mut Vec<u32>, places: &Places, limit: usize) -> Result<bool, AllocError>
    ensures adds { IfOk result (λ whole. Adds out.old.items out.new.items whole (λ p. is_on (place_state places.now p))) }
    ensures over { IfOk result (λ whole. whole ≡ false → limit < length out.new.items) }
{
    if out.len() > limit {
        return Ok(false);
    }
    match places {
        Places::One(one, counted) => {
            push_one(out, *one, *counted)?;
            Ok(true)
        }
        Places::Many(blocks) => blocks::push_counted(out, blocks, limit),
    }
}
