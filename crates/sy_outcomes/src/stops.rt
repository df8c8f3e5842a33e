//! What ends an expression before it has a value.

ghost use Rattle.std.specs.Prelude.{◌≡◌, Result, ℕ, IfOk};
ghost use Rattle.sy_meaning.specs.declared.outcomes.Evaluated.{Evaluated};
ghost use Rattle.sy_meaning.specs.declared.runs.Run.{Run};
ghost use Rattle.sy_meaning.specs.declared.runs.World.{World};
ghost use Rattle.sy_meaning.specs.Ends.{close_value};
ghost use Rattle.sy_meaning.specs.Outcomes.{Valued, computed};
ghost use Rattle.sy_num.specs.Scalars.{Scalar};
ghost use Rattle.sy_outcomes.specs.Comes.{Evaluates};

use std::alloc::{AllocError, Global};
use sy_access::Values;
use sy_ends::close_value;
use sy_meaning::{Evaluated, Run};
use sy_num::Undefined;
use sy_state::trap_ask;
use sy_words::{Word, cause_of, of_word};
use sy_work::{Ask, Errc};

/// Why an expression has no value.
#[derive(Drop)]
pub enum Stop {
    /// An error that was thrown at this line.
    Threw(Errc, u32),
    /// The run stands at this ask.
    Asked(Ask),
    Memory,
}

impl From<AllocError> for Stop {
    ghost use Rattle.std.specs.Prelude.{◌≡◌};
    ghost use Rattle.sy_outcomes.specs.declared.stops.Stop.TheVariants.{Memory};

    ghost from_gives = { λ _ e. e ≡ Memory };

    fn from(_: AllocError) -> Stop {
        Stop::Memory
    }
}

/// What an expression comes to, as an answer that `?` goes on with.
pub fn settled(value: Evaluated) -> Result<Values, Stop>
    ensures run { (r : Run) → Evaluates (value, r) result r }
    ensures world { (w : World) → Evaluates (value, w) result w }
{
    match value {
        Evaluated::Gives(object) => Ok(object),
        Evaluated::Threw(error, line) => Err(Stop::Threw(error, line)),
        Evaluated::Stopped(asked) => Err(Stop::Asked(asked)),
    }
}

fn unsettled(ended: Result<Values, Stop>) -> Result<Evaluated, AllocError>
    ensures { (came : Valued) (r : Run) → Evaluates came ended r → IfOk result (λ value. came ≡ (value, r)) }
{
    match ended {
        Ok(object) => Ok(Evaluated::Gives(object)),
        Err(stop) => match stop {
            Stop::Threw(error, line) => Ok(Evaluated::Threw(error, line)),
            Stop::Asked(asked) => Ok(Evaluated::Stopped(asked)),
            Stop::Memory => Err(AllocError),
        },
    }
}

/// The value of an operator at this line, or its trap.
pub fn computed(
    alloc: Global,
    run: &mut Run,
    line: u32,
    value: Result<Word, Undefined>,
) -> Result<Values, Stop>
    ensures { Evaluates (computed line value run.old) result run.new }
{
    let _ = run;
    match value {
        Ok(word) => Ok(of_word(alloc, word)?),
        Err(undefined) => Err(Stop::Asked(trap_ask(cause_of(undefined), line))),
    }
}

/// Leaves the innermost scope of an expression that has ended so.
pub fn leave_expression(
    alloc: Global,
    run: &mut Run,
    line: u32,
    ended: Result<Values, Stop>,
) -> Result<Values, Stop>
    ensures { (came : Valued) → Evaluates came ended run.old → Evaluates (close_value line came) result run.new }
{
    let value = unsettled(ended)?;
    settled(close_value(alloc, run, line, value)?)
}
