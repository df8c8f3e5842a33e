// Turns, asks and their answers, and errors.

ghost use Rattle.std.specs.Prelude.{◌≡◌, ℕ, IfOk};
ghost use Rattle.sy_meaning.specs.Outcomes.{Op, trap_ask, throws, spent, turn, answered, ask, for_number, contents_of};
ghost use Rattle.sy_state.specs.Going.{gone_on};

use std::alloc::{AllocError, Global};
use sy_access::Values;
use sy_meaning::{Evaluated, Reply, World};
use sy_work::{Answer, Ask, Cause, Errc, Halt, Why};

/// The ask by which a run stops at a trap.
pub fn trap_ask(cause: Cause, line: u32) -> Ask
    ensures { result ≡ trap_ask cause line }
{
    Ask::Halt(Halt::Trapped(cause, line))
}

/// Throws an error, or ends the run where no `try` is open.
pub fn throws(world: &mut World, error: Errc, line: u32) -> Evaluated
    ensures { (result, world.new) ≡ throws error line world.old }
{
    if world.tries == 0 {
        return Evaluated::Stopped(Ask::Halt(Halt::Terminated(Why::Errc(error))));
    }
    world.group = None;
    Evaluated::Threw(error, line)
}

/// The ask by which a run stops where no turn is left.
pub fn spent(world: &World, line: u32) -> Ask
    ensures { result ≡ spent line world.now }
{
    if world.at.is_some() {
        trap_ask(Cause::Turns, line)
    } else {
        Ask::Halt(Halt::TurnsSpent(line))
    }
}

/// Takes a turn, and says whether one was left.
pub fn turn(world: &mut World) -> bool
    ensures { (result, world.new) ≡ turn world.old }
{
    if world.turns == 0 {
        return false;
    }
    world.turns -= 1;
    true
}

/// The same answer, which owns its numbers.
pub fn copy_of_answer(alloc: Global, answer: &Answer) -> Result<Answer, AllocError>
    ensures { IfOk result (λ copy. copy ≡ answer.now) }
{
    match answer {
        Answer::Done => Ok(Answer::Done),
        Answer::Number(n) => Ok(Answer::Number(*n)),
        Answer::Contents(values) => Ok(Answer::Contents(values.copy(alloc)?)),
        Answer::Refused(error) => Ok(Answer::Refused(*error)),
    }
}

/// The next of the answers that are left, which is kept with what was asked.
pub fn answered(alloc: Global, world: &mut World, asked: Ask) -> Result<Reply, AllocError>
    ensures { IfOk result (λ reply. (reply, world.new) ≡ answered asked world.old.feed world.old) }
{
    match world.feed.pop() {
        Some(answer) => {
            let kept = copy_of_answer(alloc, &answer)?;
            world.asked.push((asked, kept))?;
            Ok(Reply::Answered(answer))
        }
        None => Ok(Reply::Stopped(asked)),
    }
}

/// Asks, which takes a turn.
pub fn ask(alloc: Global, world: &mut World, line: u32, asked: Ask) -> Result<Reply, AllocError>
    ensures { IfOk result (λ reply. (reply, world.new) ≡ ask line asked world.old) }
{
    if turn(world) {
        answered(alloc, world, asked)
    } else {
        Ok(Reply::Stopped(spent(world, line)))
    }
}

/// The number of an answer; one that has none counts as 0. Else what ends the expression.
pub fn number_in(world: &mut World, line: u32, reply: Reply) -> Result<u32, Evaluated>
    ensures { (go : ℕ → Op) → for_number line (reply, world.old) go ≡ gone_on result go world.new }
{
    match reply {
        Reply::Answered(answer) => match answer {
            Answer::Number(n) => Ok(n),
            Answer::Refused(error) => Err(throws(world, error, line)),
            Answer::Done => Ok(0),
            Answer::Contents(_) => Ok(0),
        },
        Reply::Stopped(asked) => Err(Evaluated::Stopped(asked)),
    }
}

/// The numbers of an answer, if it has any.
pub fn contents_of(alloc: Global, answer: Answer) -> Values
    ensures { result ≡ contents_of answer }
{
    match answer {
        Answer::Contents(values) => values,
        _ => Values::of(Vec::new(alloc)),
    }
}
