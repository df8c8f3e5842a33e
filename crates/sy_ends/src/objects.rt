// The end of one object.

ghost use Rattle.std.specs.Prelude.{◌≡◌, [], unsigned_abs, IfOk};
ghost use Rattle.sy_meaning.specs.Frame.{access_at, give_back, put_access, put_values};
ghost use Rattle.sy_meaning.specs.Ends.{after_end, all_joined, end_one};
ghost use Rattle.sy_meaning.specs.declared.runs.Live.TheVariants as live;
ghost use Rattle.sy_work.specs.declared.asks.Ask.TheVariants as asks;
ghost use Rattle.sy_work.specs.declared.asks.Halt.TheVariants as halt;
ghost use Rattle.sy_work.specs.declared.asks.Why.TheVariants as why;

use std::alloc::{AllocError, Global};
use sy_access::Values;
use sy_meaning::{Live, Reply, World};
use sy_state::{
    access_at, ask, contents_of, give_back, is_joined, put_access, put_values, row_values,
};
use sy_work::{Ask, Halt, Why};

fn thread_number(num: i128) -> Result<u32, AllocError>
    ensures { IfOk result (λ n. n ≡ unsigned_abs num) }
{
    let size = num.unsigned_abs();
    if size <= u32::MAX as u128 {
        Ok(size as u32)
    } else {
        Err(AllocError)
    }
}

fn all_joined(threads: &[i128], world: &World) -> Result<bool, AllocError>
    ensures { IfOk result (λ all. all ≡ all_joined threads.now world.now) }
{
    let mut rest = threads;
    while let [first, others @ ..] = rest {
        if !is_joined(world, thread_number(*first)?) {
            return Ok(false);
        }
        rest = others;
    }
    Ok(true)
}

fn no_words(alloc: Global) -> Values
    ensures { result ≡ [] }
{
    Values::of(Vec::new(alloc))
}

fn joinable() -> Ask
    ensures { result ≡ asks.Halt (halt.Terminated why.Joinable) }
{
    Ask::Halt(Halt::Terminated(Why::Joinable))
}

fn end_row(alloc: Global, world: &mut World, v: u32)
    ensures { world.new ≡ put_values v [] world.old }
{
    put_values(alloc, world, v, no_words(alloc));
}

fn end_team(alloc: Global, world: &mut World, line: u32, v: u32) -> Result<Option<Ask>, AllocError>
    ensures { IfOk result (λ end. (end, world.new) ≡ end_one line (live.Team v) world.old) }
{
    if all_joined(row_values(world, v), world)? {
        end_row(alloc, world, v);
        Ok(None)
    } else {
        Ok(Some(joinable()))
    }
}

fn end_thread(world: &World, line: u32, thread: u32) -> Option<Ask>
    ensures { (result, world.now) ≡ end_one line (live.Thread thread) world.now }
{
    if is_joined(world, thread) {
        None
    } else {
        Some(joinable())
    }
}

fn given_back(
    alloc: Global,
    world: &mut World,
    buffer: u32,
    reply: Reply,
) -> Result<Option<Ask>, AllocError>
    ensures { IfOk result (λ end. (end, world.new) ≡ after_end (reply, world.old) (give_back buffer)) }
{
    match reply {
        Reply::Answered(answer) => {
            let values = contents_of(alloc, answer);
            give_back(alloc, world, buffer, values.items())?;
            Ok(None)
        }
        Reply::Stopped(asked) => Ok(Some(asked)),
    }
}

fn end_buffer(
    alloc: Global,
    world: &mut World,
    line: u32,
    buffer: u32,
) -> Result<Option<Ask>, AllocError>
    ensures { IfOk result (λ end. (end, world.new) ≡ end_one line (live.Buffer buffer) world.old) }
{
    let reply = ask(alloc, world, line, Ask::EndBuffer(buffer))?;
    given_back(alloc, world, buffer, reply)
}

fn taken_back(alloc: Global, world: &mut World, k: u32, reply: Reply) -> Option<Ask>
    ensures { (result, world.new) ≡ after_end (reply, world.old) (λ values. put_access k []) }
{
    match reply {
        Reply::Answered(_) => {
            put_access(world, k, no_words(alloc));
            None
        }
        Reply::Stopped(asked) => Some(asked),
    }
}

fn contents(alloc: Global, world: &World, k: u32) -> Result<Values, AllocError>
    ensures { IfOk result (λ values. values ≡ access_at k world.now) }
{
    Ok(Values::of(Vec::from_slice(alloc, access_at(world, k))?))
}

fn end_access(
    alloc: Global,
    world: &mut World,
    line: u32,
    k: u32,
) -> Result<Option<Ask>, AllocError>
    ensures { IfOk result (λ end. (end, world.new) ≡ end_one line (live.Access k) world.old) }
{
    let values = contents(alloc, world, k)?;
    let reply = ask(alloc, world, line, Ask::CloseHost(k, values))?;
    Ok(taken_back(alloc, world, k, reply))
}

/// Ends one object; answers the ask by which the run stops there, if it does.
pub fn end_one(
    alloc: Global,
    world: &mut World,
    line: u32,
    object: Live,
) -> Result<Option<Ask>, AllocError>
    ensures { IfOk result (λ end. (end, world.new) ≡ end_one line object world.old) }
{
    match object {
        Live::Row(v) => {
            end_row(alloc, world, v);
            Ok(None)
        }
        Live::Team(v) => end_team(alloc, world, line, v),
        Live::Thread(thread) => Ok(end_thread(world, line, thread)),
        Live::Buffer(buffer) => end_buffer(alloc, world, line, buffer),
        Live::Access(k) => end_access(alloc, world, line, k),
    }
}
