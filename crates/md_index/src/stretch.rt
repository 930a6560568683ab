// The keys that may be between the edges of a probe, as those between two.
ghost use Rattle.std.specs.Prelude.{◌≡◌, true, [], IfOk, IfSome};
ghost use Rattle.std.specs.Option.{option_map};
ghost use Rattle.md_index.specs.Keys.{before_texts, after_texts, edge_key, is_of_texts, IsStretchOf, is_upward};

use crate::between::{Edge, Mark, Probe};
use crate::indexed_value::IndexedValue;
use crate::keyed::Keyed;
use md_text::Key;
use md_value::{Copied, Text, Value};
use std::alloc::{AllocError, Global};

/// Keys from one on to one that is not before it. Where there is none, it has no end there.
#[derive(Drop)]
pub struct Stretch {
    pub low: Option<Keyed>,
    pub high: Option<Keyed>,
}

fn edge_key(edge: &Edge) -> Option<&Key>
    ensures { option_map (λ k. k.now) result ≡ edge_key edge.now }
{
    match edge {
        Edge::With(Mark::Text(key)) => Some(key),
        Edge::Without(Mark::Text(key)) => Some(key),
        Edge::None | Edge::With(_) | Edge::Without(_) => None,
    }
}

/// Whether only texts are between the edges.
pub fn is_of_texts(probe: &Probe) -> bool
    ensures { result ≡ is_of_texts probe.now }
{
    edge_key(&probe.low).is_some() || edge_key(&probe.high).is_some()
}

#[tactic(auto, using(crate::proofs::Texts::no_characters))]
fn empty(alloc: Global) -> Result<Text, AllocError>
    ensures { IfOk result (λ text. text ≡ []) }
{
    Text::of(alloc, "")
}

// What is before all texts of the key at the edge.
fn before_texts(alloc: Global, edge: &Edge) -> Result<Option<Keyed>, AllocError>
    ensures { IfOk result (λ keyed. keyed ≡ option_map before_texts (edge_key edge.now)) }
{
    let Some(key) = edge_key(edge) else {
        return Ok(None);
    };
    Ok(Some(Keyed {
        key: key.copy(alloc)?,
        indexed: IndexedValue::of(alloc, &Value::Text(empty(alloc)?))?,
    }))
}

// What is after all texts of the key at the edge.
fn after_texts(alloc: Global, edge: &Edge) -> Result<Option<Keyed>, AllocError>
    ensures { IfOk result (λ keyed. keyed ≡ option_map after_texts (edge_key edge.now)) }
{
    let Some(key) = edge_key(edge) else {
        return Ok(None);
    };
    Ok(Some(Keyed {
        key: key.copy(alloc)?,
        indexed: IndexedValue::of(alloc, &Value::Number(0))?,
    }))
}

fn is_upward(low: &Option<Keyed>, high: &Option<Keyed>) -> bool
    ensures { result ≡ is_upward low.now high.now }
{
    match (low, high) {
        (Some(low), Some(high)) => low.cmp(high).is_le(),
        _ => true,
    }
}

/// The keys that may be between the edges. None where not only texts are, or the second edge is before the first.
pub fn stretch_of(alloc: Global, probe: &Probe) -> Result<Option<Stretch>, AllocError>
    ensures { IfOk result (λ stretch. IfSome stretch (IsStretchOf probe.now)) }
{
    if !is_of_texts(probe) {
        return Ok(None);
    }
    let low = before_texts(alloc, &probe.low)?;
    let high = after_texts(alloc, &probe.high)?;
    if !is_upward(&low, &high) {
        return Ok(None);
    }
    Ok(Some(Stretch { low, high }))
}
