// The pinned versions, ascending, each as often as it is pinned.
ghost use Rattle.std.specs.Prelude.{◌≡◌, ◌≤◌, length, nat_lt, slice_get, OnOk, OnErr, true};
ghost use Rattle.std.specs.List.{prefix_len};
ghost use Rattle.md_store.specs.Pins.{Ascend, with_pin, without_pin, is_pinned};

use std::alloc::AllocError;

// How many pins are of versions before this one.
fn before(pins: &[u32], version: u32) -> usize
    requires { Ascend pins.now }
    ensures value { result ≡ prefix_len (λ pin. nat_lt pin version) pins.now }
    ensures bound { result ≤ length pins.now }
{
    pins.partition_point(|pin| *pin < version)
}

/// The first pin of this version or of a later one.
pub fn first_from(pins: &[u32], version: u32) -> Option<u32>
    requires { Ascend pins.now }
    ensures { result ≡ slice_get pins.now (prefix_len (λ pin. nat_lt pin version) pins.now) }
{
    pins.get(before(pins, version)).copied()
}

/// Pins a version once more. Fails only where memory runs out.
#[tactic(auto, using(crate::proofs::Pinning::ascend_with))]
pub fn pin(pins: &mut Vec<u32>, version: u32) -> Result<(), AllocError>
    requires { Ascend pins.old.items }
    ensures ok { OnOk result (pins.new.items ≡ with_pin pins.old.items version) }
    ensures err { OnErr result (pins.new.items ≡ pins.old.items) }
    ensures ascend { Ascend pins.new.items }
    ensures pinned { OnOk result (is_pinned pins.new.items version ≡ true) }
{
    let place = before(pins, version);
    pins.insert(place, version)?;
    Ok(())
}

/// Takes one pin of a version away.
pub fn unpin(pins: &mut Vec<u32>, version: u32)
    requires ascend { Ascend pins.old.items }
    requires pinned { is_pinned pins.old.items version ≡ true }
    ensures pins { pins.new.items ≡ without_pin pins.old.items version }
    ensures ascend { Ascend pins.new.items }
{
    let place = before(pins, version);
    pins.remove(place);
}

/// Takes one pin of a version away, and pins another version once more in its place. Takes no memory.
#[tactic(auto, using(crate::proofs::Pinning::ascend_with))]
pub fn move_pin(pins: &mut Vec<u32>, from: u32, to: u32)
    requires ascend { Ascend pins.old.items }
    requires pinned { is_pinned pins.old.items from ≡ true }
    ensures pins { pins.new.items ≡ with_pin (without_pin pins.old.items from) to }
    ensures ascend { Ascend pins.new.items }
{
    let place = before(pins, from);
    pins.remove(place);
    let place = before(pins, to);
    let Ok(()) = pins.insert(place, to) else {
        unreachable!()
    };
}
