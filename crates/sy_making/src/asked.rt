// Asks and what goes on after them, and what ends an expression.

ghost use Rattle.std.specs.Prelude.{◌≡◌, List, ℕ, ℤ, IfOk};
ghost use Rattle.sy_meaning.specs.Outcomes.{Op, ask, for_contents, for_done, for_number, trap_ask};
ghost use Rattle.sy_meaning.specs.declared.outcomes.Evaluated.TheVariants as evaluated;
ghost use Rattle.sy_meaning.specs.declared.runs.World.{World};
ghost use Rattle.sy_state.specs.Going.{gone_on};
ghost use Rattle.sy_making.specs.Answers.{contents_on, done_on};

use std::alloc::{AllocError, Global};
use sy_access::Values;
use sy_meaning::{Evaluated, Reply, World};
use sy_state::{ask, contents_of, number_in, trap_ask};
use sy_work::{Ask, Cause};

/// Whether the ask was answered, whatever the answer. Else what ends the expression.
pub fn done_in(reply: Reply) -> Result<(), Evaluated>
    ensures { (go : Op) (w : World) → for_done (reply, w) go ≡ done_on result go w }
{
    match reply {
        Reply::Answered(_answer) => Ok(()),
        Reply::Stopped(asked) => Err(Evaluated::Stopped(asked)),
    }
}

/// The numbers of an answer; one that has none counts as empty. Else what ends the expression.
pub fn contents_in(alloc: Global, reply: Reply) -> Result<Values, Evaluated>
    ensures { (go : List ℤ → Op) (w : World) → for_contents (reply, w) go ≡ contents_on result go w }
{
    match reply {
        Reply::Answered(answer) => Ok(contents_of(alloc, answer)),
        Reply::Stopped(asked) => Err(Evaluated::Stopped(asked)),
    }
}

/// Asks, and the number of the answer; else what ends the expression.
pub fn asked_number(
    alloc: Global,
    world: &mut World,
    line: u32,
    asked: Ask,
) -> Result<Result<u32, Evaluated>, AllocError>
    ensures { IfOk result (λ number. (go : ℕ → Op) → for_number line (ask line asked world.old) go ≡ gone_on number go world.new) }
{
    let reply = ask(alloc, world, line, asked)?;
    Ok(number_in(world, line, reply))
}

/// Asks, and the numbers of the answer; else what ends the expression.
pub fn asked_contents(
    alloc: Global,
    world: &mut World,
    line: u32,
    asked: Ask,
) -> Result<Result<Values, Evaluated>, AllocError>
    ensures { IfOk result (λ values. (go : List ℤ → Op) → for_contents (ask line asked world.old) go ≡ contents_on values go world.new) }
{
    let reply = ask(alloc, world, line, asked)?;
    Ok(contents_in(alloc, reply))
}

/// What an expression comes to that ends in a trap.
pub fn trapped(cause: Cause, line: u32) -> Evaluated
    ensures { result ≡ evaluated.Stopped (trap_ask cause line) }
{
    Evaluated::Stopped(trap_ask(cause, line))
}
