//! How statements are left before their end.

ghost use Rattle.std.specs.Prelude.{◌≡◌, IfOk};
ghost use Rattle.sy_meaning.specs.declared.outcomes.Flow.{Flow};
ghost use Rattle.sy_meaning.specs.declared.runs.Run.{Run};
ghost use Rattle.sy_meaning.specs.Ends.{close_flow};
ghost use Rattle.sy_meaning.specs.Outcomes.{Flowed};
ghost use Rattle.sy_outcomes.specs.Comes.{Executes, Leaves};
ghost use Rattle.sy_outcomes.specs.declared.exits.Exit.TheVariants as exit;

use crate::stops::Stop;
use std::alloc::{AllocError, Global};
use sy_access::Values;
use sy_ends::close_flow;
use sy_meaning::{Flow, Run};

/// How a statement is left, but at its end. A number is the line of the word or error.
#[derive(Drop)]
pub enum Exit {
    Broke(u32),
    Continued(u32),
    Returned(Values, u32),
    Stopped(Stop),
}

impl From<Stop> for Exit {
    ghost use Rattle.std.specs.Prelude.{◌≡◌};
    ghost use Rattle.sy_outcomes.specs.declared.exits.Exit.TheVariants.{Stopped};

    ghost from_gives = { λ stop e. e ≡ Stopped stop };

    fn from(stop: Stop) -> Exit {
        Exit::Stopped(stop)
    }
}

impl From<AllocError> for Exit {
    ghost use Rattle.std.specs.Prelude.{◌≡◌};
    ghost use Rattle.sy_outcomes.specs.declared.exits.Exit.TheVariants.{Stopped};
    ghost use Rattle.sy_outcomes.specs.declared.stops.Stop.TheVariants.{Memory};

    ghost from_gives = { λ _ e. e ≡ Stopped Memory };

    fn from(_: AllocError) -> Exit {
        Exit::Stopped(Stop::Memory)
    }
}

fn stop_of(stop: Stop) -> Result<Flow, AllocError>
    ensures { (came : Flowed) (r : Run) → Leaves came (exit.Stopped stop) r → IfOk result (λ flow. came ≡ (flow, r)) }
{
    match stop {
        Stop::Threw(error, line) => Ok(Flow::Threw(error, line)),
        Stop::Asked(asked) => Ok(Flow::Stopped(asked)),
        Stop::Memory => Err(AllocError),
    }
}

/// How a statement has ended, as the definitions say it.
pub fn flow_of(ended: Result<(), Exit>) -> Result<Flow, AllocError>
    ensures { (came : Flowed) (r : Run) → Executes came ended r → IfOk result (λ flow. came ≡ (flow, r)) }
{
    match ended {
        Ok(_unit) => Ok(Flow::Normal),
        Err(exit) => match exit {
            Exit::Broke(line) => Ok(Flow::Broke(line)),
            Exit::Continued(line) => Ok(Flow::Continued(line)),
            Exit::Returned(object, line) => Ok(Flow::Returned(object, line)),
            Exit::Stopped(stop) => stop_of(stop),
        },
    }
}

/// How a statement has ended, as an answer that `?` goes on with.
fn exit_of(flow: Flow) -> Result<(), Exit>
    ensures { (r : Run) → Executes (flow, r) result r }
{
    match flow {
        Flow::Normal => Ok(()),
        Flow::Broke(line) => Err(Exit::Broke(line)),
        Flow::Continued(line) => Err(Exit::Continued(line)),
        Flow::Returned(object, line) => Err(Exit::Returned(object, line)),
        Flow::Threw(error, line) => Err(Exit::Stopped(Stop::Threw(error, line))),
        Flow::Stopped(asked) => Err(Exit::Stopped(Stop::Asked(asked))),
    }
}

/// Leaves the innermost scope of statements that have ended so.
pub fn leave_block(
    alloc: Global,
    run: &mut Run,
    line: u32,
    ended: Result<(), Exit>,
) -> Result<(), Exit>
    ensures { (came : Flowed) → Executes came ended run.old → Executes (close_flow line came) result run.new }
{
    let flow = flow_of(ended)?;
    exit_of(close_flow(alloc, run, line, flow)?)
}
