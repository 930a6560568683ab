// Clients and workers that run side by side.
ghost use Rattle.std.specs.Prelude.{◌≡◌, ◌+◌, ◌-◌, ◌*◌, ◌<◌, ◌≤◌, ◌^◌, [], ◌++◌, length, map, All, IfOk, OnOk};
ghost use Rattle.md_turn.specs.Passes.{made_by};
ghost use Rattle.md_workers.specs.declared.actor.Role.TheVariants.{Client as client_role, Worker as worker_role};
ghost use Rattle.md_workers.specs.Teams.{actor_share, fresh_pass, fresh_seat, workers_of, roles_of, AreFresh, HasShared, HasSharedSeat};

use crate::actor::{Actor, Client, Role};
use md_pool::{ClaimSeat, Claims};
use md_turn::{Core, Pass, Turn};
use std::alloc::{AllocError, Global};

/// How many acts, and for a worker how many claims, an actor may make.
const ACTOR_SHARE: u64 = 1 << 40;

// A client, with a pass that is split from this one.
fn client_actor<C: Core>(
    turn: &Turn<C>,
    first: &mut Pass,
    number: u32,
    client: Client,
) -> Result<Actor, AllocError>
    requires turn { first.old.id ≡ turn.now.id }
    requires room { made_by first.old + actor_share ≤ first.old.share }
    ensures pass { first.new ≡ record first.old { share = first.old.share - actor_share } }
    ensures actor { IfOk result (λ a. (a.pass ≡ fresh_pass first.old) × (a.role ≡ client_role client)) }
{
    let pass = turn.split(first, ACTOR_SHARE)?;
    Ok(Actor {
        number,
        pass,
        role: Role::Client(client),
    })
}

// A worker, with a pass and a seat that are split from these.
fn worker_actor<C: Core>(
    turn: &Turn<C>,
    claims: &Claims,
    first: &mut Pass,
    seat: &mut ClaimSeat,
    number: u32,
) -> Result<Actor, AllocError>
    requires turn { (first.old.id ≡ turn.now.id) × (seat.old.id ≡ claims.now.id) }
    requires room { (made_by first.old + actor_share ≤ first.old.share) × (seat.old.drawn ≡ []) × (actor_share ≤ seat.old.share) }
    ensures pass { OnOk result (first.new ≡ record first.old { share = first.old.share - actor_share }) }
    ensures seat { OnOk result (seat.new ≡ record seat.old { share = seat.old.share - actor_share }) }
    ensures actor { IfOk result (λ a. (a.pass ≡ fresh_pass first.old) × (a.role ≡ worker_role (fresh_seat claims.now))) }
{
    let pass = turn.split(first, ACTOR_SHARE)?;
    let seat = claims.split(seat, ACTOR_SHARE)?;
    Ok(Actor {
        number,
        pass,
        role: Role::Worker(seat),
    })
}

// Clients, with passes that are split from this one.
fn split_clients<C: Core>(
    alloc: Global,
    turn: &Turn<C>,
    first: &mut Pass,
    clients: Vec<Client>,
) -> Result<Vec<Actor>, AllocError>
    requires turn { first.old.id ≡ turn.now.id }
    requires few { length clients.items ≤ 256 }
    requires room { made_by first.old + 256 * actor_share ≤ first.old.share }
    ensures shared { IfOk result (λ actors. HasShared (length actors.items) first.old first.new) }
    ensures count { IfOk result (λ actors. length actors.items ≡ length clients.items) }
    ensures fresh { IfOk result (λ actors. AreFresh first.old actors.items) }
    ensures roles { IfOk result (λ actors. map (λ a. a.role) actors.items ≡ map client_role clients.items) }
{
    let mut actors = Vec::new(alloc);
    for client in clients {
        let number = actors.len() as u32 + 1;
        actors.push(client_actor(turn, first, number, client)?)?;
    }
    Ok(actors)
}

// Appends so many workers, with passes and seats that are split from these.
fn split_workers<C: Core>(
    turn: &Turn<C>,
    claims: &Claims,
    first: &mut Pass,
    seat: &mut ClaimSeat,
    actors: &mut Vec<Actor>,
    workers: u32,
) -> Result<(), AllocError>
    requires turn { (first.old.id ≡ turn.now.id) × (seat.old.id ≡ claims.now.id) }
    requires few { (length actors.old.items ≤ 256) × (workers ≤ 64) }
    requires room { (made_by first.old + 64 * actor_share ≤ first.old.share) × (seat.old.drawn ≡ []) × (64 * actor_share ≤ seat.old.share) }
    ensures shared { OnOk result (HasShared workers first.old first.new) }
    ensures claims { OnOk result (HasSharedSeat workers seat.old seat.new) }
    ensures count { OnOk result (length actors.new.items ≡ length actors.old.items + workers) }
    ensures fresh { OnOk result (AreFresh first.old actors.old.items → AreFresh first.old actors.new.items) }
    ensures roles { OnOk result (map (λ a. a.role) actors.new.items ≡ map (λ a. a.role) actors.old.items ++ workers_of (fresh_seat claims.now) workers) }
{
    for _ in 0..workers {
        let number = actors.len() as u32 + 1;
        actors.push(worker_actor(turn, claims, first, seat, number)?)?;
    }
    Ok(())
}

/// Actors for these clients and for so many workers, with passes and seats that are split from these. They are numbered from 1,
/// the clients first.
///
/// Fails only where memory is refused.
pub fn split_all<C: Core>(
    alloc: Global,
    turn: &Turn<C>,
    claims: &Claims,
    first: &mut Pass,
    seat: &mut ClaimSeat,
    clients: Vec<Client>,
    workers: u32,
) -> Result<Vec<Actor>, AllocError>
    requires turn { (first.old.id ≡ turn.now.id) × (seat.old.id ≡ claims.now.id) }
    requires few { (length clients.items ≤ 256) × (workers ≤ 64) }
    requires room { (made_by first.old + 320 * actor_share ≤ first.old.share) × (seat.old.drawn ≡ []) × (64 * actor_share ≤ seat.old.share) }
    ensures shared { IfOk result (λ actors. HasShared (length actors.items) first.old first.new) }
    ensures claims { OnOk result (HasSharedSeat workers seat.old seat.new) }
    ensures fresh { IfOk result (λ actors. AreFresh first.old actors.items) }
    ensures roles { IfOk result (λ actors. map (λ a. a.role) actors.items ≡ roles_of claims.now clients.items workers) }
{
    let mut actors = split_clients(alloc, turn, first, clients)?;
    split_workers(turn, claims, first, seat, &mut actors, workers)?;
    Ok(actors)
}
