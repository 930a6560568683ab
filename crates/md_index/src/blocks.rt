// Places as bits: words of 32 places by the number of their block. A place that is not counted has its room where its
// word is there.
ghost use Rattle.std.specs.Prelude.{◌≡◌, ◌<◌, ◌==◌, ◌||◌, ◌+◌, ◌^◌, ℕ, length, true, false, OnOk, IfOk, is_some, if◌then◌else◌};
ghost use Rattle.std.specs.Ordering.{nat_cmp};
ghost use Rattle.std.specs.BTreeMap.{IsOrdered};
ghost use Rattle.md_index.specs.States.{is_on, written, has_bit, blocks_state, one_state};
ghost use Rattle.md_index.specs.Indexed.{lists, in_block, from_bit, in_blocks, Adds};

use std::alloc::{AllocError, Global};
use std::collections::BTreeMap;

pub type Blocks = BTreeMap<u32, u32>;

fn with_bit(word: u32, bit: u32, flag: bool) -> u32
    requires { bit < 32 }
    ensures { (i : ℕ) → i < 32 → has_bit result i ≡ (if bit == i then flag else has_bit word i) }
{
    let mask = 1 << bit;
    if flag { word | mask } else { word & !mask }
}

fn has_bit(word: u32, bit: u32) -> bool
    requires { bit < 32 }
    ensures { result ≡ has_bit word bit }
{
    (word >> bit) & 1 == 1
}

/// Makes room for a place.
pub fn promise(blocks: &mut Blocks, place: u32) -> Result<(), AllocError>
    ensures same { (p : ℕ) → is_on (blocks_state blocks.new p) ≡ is_on (blocks_state blocks.old p) }
    ensures keeps { (p : ℕ) → is_some (blocks_state blocks.old p) ≡ true → is_some (blocks_state blocks.new p) ≡ true }
    ensures there { OnOk result (is_some (blocks_state blocks.new place) ≡ true) }
{
    let block = place / 32;
    if !blocks.contains_key(&block) {
        blocks.insert(block, 0)?;
    }
    Ok(())
}

/// Sets whether a place is counted, if it has room. Takes no memory.
pub fn write(blocks: &mut Blocks, place: u32, flag: bool)
    ensures { (p : ℕ) → blocks_state blocks.new p ≡ written ((place == p)) flag (blocks_state blocks.old p) }
{
    if let Some(word) = blocks.get_mut(&(place / 32)) {
        *word = with_bit(*word, place % 32, flag);
    }
}

/// Gives up the room of the places around a place, where none of them is counted. Takes no memory.
pub fn sweep(blocks: &mut Blocks, place: u32)
    ensures { (p : ℕ) → is_on (blocks_state blocks.new p) ≡ is_on (blocks_state blocks.old p) }
{
    let block = place / 32;
    if blocks.get(&block) == Some(&0) {
        blocks.remove(&block);
    }
}

/// One place as bits.
pub fn of_one(alloc: Global, place: u32, counted: bool) -> Result<Blocks, AllocError>
    ensures same { IfOk result (λ blocks. (p : ℕ) → is_on (blocks_state blocks p) ≡ is_on (one_state place counted p)) }
    ensures keeps { IfOk result (λ blocks. (p : ℕ) → is_some (one_state place counted p) ≡ true → is_some (blocks_state blocks p) ≡ true) }
{
    let mut blocks = BTreeMap::new(alloc);
    promise(&mut blocks, place)?;
    write(&mut blocks, place, counted);
    Ok(blocks)
}

// Adds the place of a bit, if it is counted.
fn push_bit(places: &mut Vec<u32>, block: u32, word: u32, bit: u32) -> Result<(), AllocError>
    requires block { block < 2 ^ 27 }
    requires bit { bit < 32 }
    ensures { OnOk result ((p : ℕ) → lists places.new.items p || from_bit (bit + 1) (block, word) p ≡ lists places.old.items p || from_bit bit (block, word) p) }
{
    if has_bit(word, bit) {
        places.push(block * 32 + bit)?;
    }
    Ok(())
}

// Adds the places of a block that are counted.
fn push_bits(places: &mut Vec<u32>, block: u32, word: u32) -> Result<(), AllocError>
    requires { block < 2 ^ 27 }
    ensures { OnOk result ((p : ℕ) → lists places.new.items p ≡ lists places.old.items p || in_block (block, word) p) }
{
    for bit in 0..32 {
        push_bit(places, block, word, bit)?;
    }
    Ok(())
}

fn push_block(places: &mut Vec<u32>, block: u32, word: u32) -> Result<(), AllocError>
    ensures { OnOk result ((p : ℕ) → lists places.new.items p ≡ lists places.old.items p || in_block (block, word) p) }
{
    if block < 1 << 27 {
        push_bits(places, block, word)?;
    }
    Ok(())
}

/// Adds the places that are counted, or some of them where there are more than a limit then. Answers whether it were all.
pub fn push_counted(
    places: &mut Vec<u32>,
    blocks: &Blocks,
    limit: usize,
) -> Result<bool, AllocError>
    ensures ordered { IsOrdered nat_cmp blocks.now }
    ensures adds { IfOk result (λ whole. Adds places.old.items places.new.items whole (in_blocks blocks.now.entries)) }
    ensures over { IfOk result (λ whole. whole ≡ false → limit < length places.new.items) }
{
    for (block, word) in blocks {
        if places.len() > limit {
            return Ok(false);
        }
        push_block(places, *block, *word)?;
    }
    Ok(true)
}
