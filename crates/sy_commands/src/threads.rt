// Threads, and what is asked with a number as answer (C++17, "thread constructors").

ghost use Rattle.std.specs.Prelude.{◌≡◌, [], ◌∷◌, pos, IfOk};
ghost use Rattle.sy_commands.specs.Closures.{lambda_of};
ghost use Rattle.sy_meaning.specs.Lambdas.{emplace_back, put_thread, spawn, spawned};
ghost use Rattle.sy_meaning.specs.Outcomes.{for_number, gives};

use crate::closures::{Closure, all_words, captures_of};
use std::alloc::{AllocError, Global};
use sy_access::Values;
use sy_meaning::{Evaluated, Reply, Run, World};
use sy_state::{ask, number_in, put_values, row_values};
use sy_words::{nothing, number, of_natural, word};
use sy_work::Ask;

/// The object of one word that an answer's number is. Else what ends the expression.
pub(crate) fn object_in(
    alloc: Global,
    world: &mut World,
    line: u32,
    reply: Reply,
) -> Result<Evaluated, AllocError>
    ensures { IfOk result (λ value. (value, world.new) ≡ for_number line (reply, world.old) (λ n. gives (pos n ∷ []))) }
{
    match number_in(world, line, reply) {
        Ok(n) => Ok(Evaluated::Gives(of_natural(alloc, n as u64)?)),
        Err(ended) => Ok(ended),
    }
}

/// Starts a thread of the body with these captures, and gives it.
pub fn spawned(
    alloc: Global,
    world: &mut World,
    line: u32,
    body: u32,
    captures: Values,
) -> Result<Evaluated, AllocError>
    ensures { IfOk result (λ value. (value, world.new) ≡ spawned line body captures world.old) }
{
    let reply = ask(alloc, world, line, Ask::Spawn(body, captures))?;
    object_in(alloc, world, line, reply)
}

/// Starts a thread of a lambda's body, and gives it.
pub fn spawn(
    alloc: Global,
    run: &mut Run,
    line: u32,
    lambda: &Closure,
) -> Result<Evaluated, AllocError>
    ensures { IfOk result (λ value. (value, run.new) ≡ spawn line (lambda_of lambda.now) run.old) }
{
    match captures_of(alloc, run, lambda)? {
        Ok(objects) => {
            let words = all_words(alloc, objects.as_slice())?;
            spawned(alloc, &mut run.world, line, lambda.number, words)
        }
        Err(ended) => Ok(ended),
    }
}

/// Puts a thread behind those of a vector.
pub fn put_thread(
    alloc: Global,
    world: &mut World,
    v: u32,
    thread: &[i128],
) -> Result<Evaluated, AllocError>
    ensures { IfOk result (λ value. (value, world.new) ≡ put_thread v thread.now world.old) }
{
    let mut threads = Vec::from_slice(alloc, row_values(world, v))?;
    threads.push(word(thread, 0))?;
    put_values(alloc, world, v, Values::of(threads));
    Ok(Evaluated::Gives(nothing(alloc)))
}

/// Starts a thread of a lambda's body, and puts it behind those of a vector.
pub fn emplace_back(
    alloc: Global,
    run: &mut Run,
    line: u32,
    lambda: &Closure,
    vector: &[i128],
) -> Result<Evaluated, AllocError>
    ensures { IfOk result (λ value. (value, run.new) ≡ emplace_back line (lambda_of lambda.now) vector.now run.old) }
{
    let v = number(vector, 0)?;
    match spawn(alloc, run, line, lambda)? {
        Evaluated::Gives(thread) => put_thread(alloc, &mut run.world, v, thread.items()),
        Evaluated::Threw(error, at) => Ok(Evaluated::Threw(error, at)),
        Evaluated::Stopped(asked) => Ok(Evaluated::Stopped(asked)),
    }
}
