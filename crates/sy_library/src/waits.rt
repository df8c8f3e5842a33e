// Threads (C++17, "thread members") and waits (SYCL 2020, "Queue class", "Event class").

ghost use Rattle.std.specs.Prelude.{◌≡◌, IfOk};
ghost use Rattle.sy_making.specs.Answers.{done_on};
ghost use Rattle.sy_meaning.specs.declared.outcomes.Evaluated.TheVariants as evaluated;
ghost use Rattle.sy_meaning.specs.Library.{join, wait, wait_and_throw};
ghost use Rattle.sy_meaning.specs.Outcomes.{Op, ask, for_done, gives};
ghost use Rattle.sy_meaning.specs.Words.{nothing};
ghost use Rattle.sy_work.specs.declared.asks.Ask.TheVariants as asks;
ghost use Rattle.sy_work.specs.declared.asks.Halt.TheVariants as halt;

use std::alloc::{AllocError, Global};
use sy_making::done_in;
use sy_meaning::{Evaluated, World};
use sy_state::{ask, is_joined, joined};
use sy_typed::Thing;
use sy_words::{nothing, number, queue_number};
use sy_work::{Ask, Halt, Why};

/// What an expression comes to that ends the run.
pub fn halted(why: Why) -> Evaluated
    ensures { result ≡ evaluated.Stopped (asks.Halt (halt.Terminated why)) }
{
    Evaluated::Stopped(Ask::Halt(Halt::Terminated(why)))
}

/// Asks, whatever the answer; else what ends the expression.
pub fn asked_done(
    alloc: Global,
    world: &mut World,
    line: u32,
    asked: Ask,
) -> Result<Result<(), Evaluated>, AllocError>
    ensures { IfOk result (λ done. (go : Op) → for_done (ask line asked world.old) go ≡ done_on done go world.new) }
{
    let reply = ask(alloc, world, line, asked)?;
    Ok(done_in(reply))
}

fn waited(alloc: Global, world: &mut World, line: u32, asked: Ask) -> Result<Evaluated, AllocError>
    ensures { IfOk result (λ value. (value, world.new) ≡ for_done (ask line asked world.old) (gives nothing)) }
{
    match asked_done(alloc, world, line, asked)? {
        Ok(_unit) => Ok(Evaluated::Gives(nothing(alloc))),
        Err(end) => Ok(end),
    }
}

/// Waits for the commands of a queue, or for that of an event.
pub fn wait(
    alloc: Global,
    world: &mut World,
    line: u32,
    what: Thing,
    object: &[i128],
) -> Result<Evaluated, AllocError>
    ensures { IfOk result (λ value. (value, world.new) ≡ wait line what object.now world.old) }
{
    match what {
        Thing::Queue => waited(alloc, world, line, Ask::WaitQueue(queue_number(object)?)),
        _ => waited(alloc, world, line, Ask::WaitNode(number(object, 0)?)),
    }
}

/// Waits for the commands of a queue, and for its asynchronous errors.
pub fn wait_and_throw(
    alloc: Global,
    world: &mut World,
    line: u32,
    object: &[i128],
) -> Result<Evaluated, AllocError>
    ensures { IfOk result (λ value. (value, world.new) ≡ wait_and_throw line object.now world.old) }
{
    waited(alloc, world, line, Ask::ThrowQueue(queue_number(object)?))
}

/// Joins a thread: the end of the run where it was joined before.
pub fn join(
    alloc: Global,
    world: &mut World,
    line: u32,
    thread: u32,
) -> Result<Evaluated, AllocError>
    ensures { IfOk result (λ value. (value, world.new) ≡ join line thread world.old) }
{
    if is_joined(world, thread) {
        return Ok(halted(Why::NotJoinable));
    }
    match asked_done(alloc, world, line, Ask::Join(thread))? {
        Ok(_unit) => {
            joined(world, thread)?;
            Ok(Evaluated::Gives(nothing(alloc)))
        }
        Err(end) => Ok(end),
    }
}
