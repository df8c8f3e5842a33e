// Command groups, which are sent when their lambda has come to its end (SYCL 2020, "Queue class").

ghost use Rattle.std.specs.Prelude.{◌≡◌, IfOk};
ghost use Rattle.sy_meaning.specs.Frame.{group_of, no_group, no_longer};
ghost use Rattle.sy_meaning.specs.Lambdas.{in_group, sent, submitted};

use crate::threads::object_in;
use std::alloc::{AllocError, Global};
use sy_access::{Needs, Numbers, Sizes};
use sy_meaning::{Evaluated, Flow, Group, Run, World};
use sy_state::{ask, put_group, take_group, throws};
use sy_work::{Ask, Errc, Submission};

/// Submits a command group to a queue, and gives its event; one without a command is an error.
pub fn sent(
    alloc: Global,
    world: &mut World,
    line: u32,
    queue: u32,
    group: Group,
) -> Result<Evaluated, AllocError>
    ensures { IfOk result (λ value. (value, world.new) ≡ sent line queue group group.command world.old) }
{
    let Group {
        needs,
        after,
        command,
        ..
    } = group;
    match command {
        None => Ok(throws(world, Errc::Invalid, line)),
        Some(command) => {
            let submission = Submission {
                queue,
                command,
                needs,
                after,
            };
            let reply = ask(alloc, world, line, Ask::Submit(submission))?;
            object_in(alloc, world, line, reply)
        }
    }
}

fn sent_from(
    alloc: Global,
    world: &mut World,
    line: u32,
    queue: u32,
) -> Result<Evaluated, AllocError>
    ensures { IfOk result (λ value. (value, world.new) ≡ sent line queue (group_of world.old) (group_of world.old).command (no_longer world.old)) }
{
    let group = take_group(alloc, world);
    sent(alloc, world, line, queue, group)
}

/// Submits the command group whose lambda came to this, unless an error or an ask ended it.
pub fn submitted(
    alloc: Global,
    run: &mut Run,
    line: u32,
    queue: u32,
    flow: Flow,
) -> Result<Evaluated, AllocError>
    ensures { IfOk result (λ value. (value, run.new) ≡ submitted line queue (flow, run.old)) }
{
    match flow {
        Flow::Threw(error, at) => Ok(Evaluated::Threw(error, at)),
        Flow::Stopped(asked) => Ok(Evaluated::Stopped(asked)),
        Flow::Normal => sent_from(alloc, &mut run.world, line, queue),
        Flow::Broke(_) => sent_from(alloc, &mut run.world, line, queue),
        Flow::Continued(_) => sent_from(alloc, &mut run.world, line, queue),
        Flow::Returned(_, _) => sent_from(alloc, &mut run.world, line, queue),
    }
}

fn no_group(alloc: Global) -> Group
    ensures { result ≡ no_group }
{
    Group {
        needs: Needs::of(Vec::new(alloc)),
        locals: Sizes::of(Vec::new(alloc)),
        after: Numbers::of(Vec::new(alloc)),
        reduced: Numbers::of(Vec::new(alloc)),
        command: None,
    }
}

/// Begins a command group.
pub fn in_group(alloc: Global, run: &mut Run)
    ensures { run.new ≡ in_group run.old }
{
    put_group(&mut run.world, no_group(alloc));
}
