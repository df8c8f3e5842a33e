// How expressions and statements leave their scope.

ghost use Rattle.std.specs.Prelude.{◌≡◌, IfOk, MatchOption};
ghost use Rattle.sy_meaning.specs.declared.runs.Run.{Run};
ghost use Rattle.sy_meaning.specs.declared.runs.World.{World};
ghost use Rattle.sy_meaning.specs.Ends.{close_flow, close_value, end_scope, ended_flow, ended_value};

use crate::scopes::end_scope;
use std::alloc::{AllocError, Global};
use sy_meaning::{Evaluated, Flow, Run};
use sy_work::Ask;

fn leaves_value_at(line: u32, value: &Evaluated) -> Option<u32>
    ensures { MatchOption result
        ((r : Run) → close_value line (value.now, r) ≡ (value.now, r))
        (λ at. (r : Run) → close_value line (value.now, r) ≡ ended_value value.now r (end_scope at r.world)) }
{
    match value {
        Evaluated::Gives(_) => Some(line),
        Evaluated::Threw(_, own) => Some(*own),
        Evaluated::Stopped(_) => None,
    }
}

fn ended_value(value: Evaluated, end: Option<Ask>) -> Evaluated
    ensures { (r : Run) (w : World) → (result, record r { world = w }) ≡ ended_value value r (end, w) }
{
    match end {
        Some(asked) => Evaluated::Stopped(asked),
        None => value,
    }
}

/// Leaves the innermost scope of an expression, at the line; an error leaves it at its own.
pub fn close_value(
    alloc: Global,
    run: &mut Run,
    line: u32,
    value: Evaluated,
) -> Result<Evaluated, AllocError>
    ensures { IfOk result (λ closed. (closed, run.new) ≡ close_value line (value, run.old)) }
{
    match leaves_value_at(line, &value) {
        Some(at) => {
            let end = end_scope(alloc, &mut run.world, at)?;
            Ok(ended_value(value, end))
        }
        None => Ok(value),
    }
}

fn leaves_flow_at(line: u32, flow: &Flow) -> Option<u32>
    ensures { MatchOption result
        ((r : Run) → close_flow line (flow.now, r) ≡ (flow.now, r))
        (λ at. (r : Run) → close_flow line (flow.now, r) ≡ ended_flow flow.now r (end_scope at r.world)) }
{
    match flow {
        Flow::Normal => Some(line),
        Flow::Broke(own) => Some(*own),
        Flow::Continued(own) => Some(*own),
        Flow::Returned(_, own) => Some(*own),
        Flow::Threw(_, own) => Some(*own),
        Flow::Stopped(_) => None,
    }
}

fn ended_flow(flow: Flow, end: Option<Ask>) -> Flow
    ensures { (r : Run) (w : World) → (result, record r { world = w }) ≡ ended_flow flow r (end, w) }
{
    match end {
        Some(asked) => Flow::Stopped(asked),
        None => flow,
    }
}

/// Leaves the innermost scope of statements, at the line; a word or error leaves it at its own.
pub fn close_flow(alloc: Global, run: &mut Run, line: u32, flow: Flow) -> Result<Flow, AllocError>
    ensures { IfOk result (λ closed. (closed, run.new) ≡ close_flow line (flow, run.old)) }
{
    match leaves_flow_at(line, &flow) {
        Some(at) => {
            let end = end_scope(alloc, &mut run.world, at)?;
            Ok(ended_flow(flow, end))
        }
        None => Ok(flow),
    }
}
