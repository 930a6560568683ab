// Actors.
ghost use Rattle.std.specs.Prelude.{◌≡◌, ◌<◌, ◌^◌, length};
ghost use Rattle.md_workers.specs.Actors.{MayRun, Ends};

use crate::client::serve;
use crate::jobs::Jobs;
use crate::worker::work;
use md_machine::Event;
use md_pool::{ClaimSeat, Claims};
use md_source::Gate;
use md_turn::{Core, Pass, Turn};
use md_value::PlainVec;
use std::alloc::Global;
use std::sync::Wait;

/// A client's number, and the events that it has answered, in order.
#[derive(Drop)]
pub struct Client {
    pub id: u8,
    pub events: PlainVec<Event>,
}

/// What an actor is for.
#[derive(Drop)]
pub enum Role {
    Client(Client),
    /// It claims jobs with this seat.
    Worker(ClaimSeat),
}

/// A client or a worker, with all that it needs to run in a thread of its own.
#[derive(Drop)]
pub struct Actor {
    /// The number by which a gate knows it.
    pub number: u32,
    pub pass: Pass,
    pub role: Role,
}

/// What an actor hands back: the pass and the seat that it was given, with all that they have done.
#[derive(Drop)]
pub struct Ended {
    pub pass: Pass,
    /// The seat of a worker.
    pub seat: Option<ClaimSeat>,
    /// Whether memory was refused. The actor ended there.
    pub refused: bool,
}

/// Runs a client or a worker.
pub fn run_actor<R: Wait, C: Core, J: Jobs, G: Gate>(
    rt: &R,
    alloc: Global,
    turn: &Turn<C>,
    claims: &Claims,
    jobs: &J,
    gate: &G,
    actor: Actor,
) -> Ended
    requires claims { claims.now.numbers ≡ length (J.jobs jobs.now) }
    requires few { length (J.jobs jobs.now) < 2 ^ 32 }
    requires actor { MayRun turn.now.id claims.now (J.jobs jobs.now) actor }
    ensures { Ends (J.jobs jobs.now) actor result }
{
    let Actor {
        number,
        mut pass,
        role,
    } = actor;
    match role {
        Role::Client(client) => {
            let outcome = serve(rt, turn, gate, number, &mut pass, client.events);
            Ended {
                pass,
                seat: None,
                refused: outcome.is_err(),
            }
        }
        Role::Worker(mut seat) => {
            let outcome = work(
                rt, alloc, turn, claims, jobs, gate, number, &mut pass, &mut seat,
            );
            Ended {
                pass,
                seat: Some(seat),
                refused: outcome.is_err(),
            }
        }
    }
}
