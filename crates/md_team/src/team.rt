// The threads of a team.
ghost use Rattle.std.specs.Prelude.{All, IfOk, map};
ghost use Rattle.md_jobs.specs.Sources.{job_in};
ghost use Rattle.md_workers.specs.Teams.{AreRun};
ghost use Rattle.md_team.specs.Teams.{MayJoin};

use md_hub::Hub;
use md_jobs::ScriptJobs;
use md_pool::Claims;
use md_source::Gate;
use md_turn::Turn;
use md_workers::{Actor, Ended, Runs, run_actor, spread};
use std::alloc::{AllocError, Global};
use std::sync::Wait;
use std::thread::Threads;

/// What all threads of a team share.
#[derive(Drop)]
pub struct Team<'a, G> {
    pub alloc: Global,
    pub turn: &'a Turn<Hub>,
    pub claims: &'a Claims,
    pub jobs: &'a ScriptJobs,
    pub gate: &'a G,
}

impl<'a, G: Gate> Runs<Actor, Ended> for Team<'a, G> {
    ghost use Rattle.std.specs.Prelude.{map};
    ghost use Rattle.md_workers.specs.Actors.{Ends};
    ghost use Rattle.md_jobs.specs.Sources.{job_in};
    ghost use Rattle.md_team.specs.Teams.{MayJoin};

    ghost takes = { λ team actor. MayJoin team.turn.now.id team.claims.now (map (job_in team.jobs.now.offset) team.jobs.now.jobs) actor };

    ghost gives = { λ team actor ended. Ends (map (job_in team.jobs.now.offset) team.jobs.now.jobs) actor ended };

    fn run<R: Wait>(&self, rt: &R, job: Actor) -> Ended {
        run_actor(
            rt,
            self.alloc,
            self.turn,
            self.claims,
            self.jobs,
            self.gate,
            job,
        )
    }
}

/// Runs each actor in a thread of its own, and waits for all. Fails only where memory is refused.
pub fn run_all<R: Threads + Wait + Sync, G: Gate + Sync>(
    rt: &R,
    team: &Team<'_, G>,
    actors: Vec<Actor>,
) -> Result<Vec<Ended>, AllocError>
    requires { All (MayJoin team.now.turn.now.id team.now.claims.now (map (job_in team.now.jobs.now.offset) team.now.jobs.now.jobs)) actors.items }
    ensures { IfOk result (λ ended. AreRun (map (job_in team.now.jobs.now.offset) team.now.jobs.now.jobs) actors.items ended.items) }
{
    spread(rt, team, actors)
}
