// The clients of a script.
ghost use Rattle.std.specs.Prelude.{◌≡◌, ◌≤◌, length, IfOk, None};
ghost use Rattle.md_value.specs.Values.{IsMoment};
ghost use Rattle.md_workers.specs.Teams.{Ask};
ghost use Rattle.md_clients.specs.Asks.{asks_in};
ghost use Rattle.md_clients.specs.Askers.{lesser, nearer, next_in};

use crate::asks::{asker, asks_by};
use md_script::Line;
use md_time::LocalTime;
use md_workers::Client;
use std::alloc::{AllocError, Global};

// The lesser of two numbers, of which the first may be none.
fn lesser(best: Option<u8>, client: u8) -> u8
    ensures { result ≡ lesser best client }
{
    match best {
        Some(other) => { if client < other { client } else { other } }
        None => client,
    }
}

// The lesser of two clients, where the second is one that has this number or a greater one.
fn nearer(least: u32, best: Option<u8>, client: Option<u8>) -> Option<u8>
    ensures { result ≡ nearer least best client }
{
    match client {
        Some(client) => {
            if u32::from(client) < least {
                best
            } else {
                Some(lesser(best, client))
            }
        }
        None => best,
    }
}

// The least client that asks something by one of the lines, of those with this number or a greater one.
fn next_client(lines: &[Line], least: u32) -> Option<u8>
    ensures { result ≡ next_in least None lines.now }
{
    let mut best = None;
    for line in lines {
        best = nearer(least, best, asker(&line.what));
    }
    best
}

/// The clients that ask something by the lines, in the order of their numbers, each with its events in the order of the lines,
/// in a run that began at `start`. Fails only where memory is refused.
pub fn read_clients(
    alloc: Global,
    start: &LocalTime,
    lines: &[Line],
) -> Result<Vec<Client>, AllocError>
    requires { IsMoment start.now.moment }
    ensures ask { IfOk result (λ clients. Ask (asks_in start.now.moment start.now.offset lines.now) clients.items) }
    ensures few { IfOk result (λ clients. length clients.items ≤ 256) }
{
    let mut clients = Vec::new(alloc);
    let mut least = 0;
    while let Some(id) = next_client(lines, least) {
        let events = asks_by(alloc, start, lines, id)?;
        clients.push(Client { id, events })?;
        least = u32::from(id) + 1;
    }
    Ok(clients)
}
