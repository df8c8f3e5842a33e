// Each function on a worked case.

use crate::{close_flow, close_value, end_one, end_scope};
use sqlite_items::Items;
use std::alloc::{AllocError, Global};
use sy_access::Values;
use sy_meaning::{Evaluated, Flow, Live, Run, Store, World};
use sy_stack::{Stack, Table};
use sy_state::{lives, opened};
use sy_work::{Ask, Halt, Why};

fn empty_run(alloc: Global) -> Run {
    Run {
        frame: Table::new(alloc),
        world: World {
            rows: Table::new(alloc),
            accesses: Table::new(alloc),
            scopes: Stack::new(alloc),
            joined: Stack::new(alloc),
            tries: 0,
            group: None,
            turns: 1,
            feed: Stack::new(alloc),
            asked: Stack::new(alloc),
            at: None,
            store: Store {
                cells: Items::new(alloc),
            },
            later: Items::new(alloc),
            steps: Stack::new(alloc),
        },
    }
}

fn is_joinable(asked: &Ask) -> bool {
    matches!(asked, Ask::Halt(Halt::Terminated(Why::Joinable)))
}

fn stops_as_joinable(end: &Option<Ask>) -> bool {
    match end {
        Some(asked) => is_joinable(asked),
        None => false,
    }
}

/// A run with one scope, in which this lives.
fn with_one_living(alloc: Global, object: Live) -> Result<Run, AllocError> {
    let mut run = empty_run(alloc);
    opened(alloc, &mut run.world)?;
    lives(alloc, &mut run.world, object)?;
    Ok(run)
}

fn a_thread_stops_the_end(alloc: Global) -> Result<bool, AllocError> {
    let mut run = with_one_living(alloc, Live::Thread(5))?;
    let end = end_scope(alloc, &mut run.world, 3)?;
    Ok(stops_as_joinable(&end))
}

fn a_thread_by_itself_stops(alloc: Global) -> Result<bool, AllocError> {
    let mut run = empty_run(alloc);
    let end = end_one(alloc, &mut run.world, 3, Live::Thread(5))?;
    Ok(stops_as_joinable(&end))
}

fn is_break(flow: &Flow) -> bool {
    matches!(flow, Flow::Broke(2))
}

fn is_value(value: &Evaluated) -> bool {
    matches!(value, Evaluated::Gives(_))
}

fn a_scope_is_left(alloc: Global) -> Result<bool, AllocError> {
    let mut run = with_one_living(alloc, Live::Row(4))?;
    let closed = close_flow(alloc, &mut run, 3, Flow::Broke(2))?;
    Ok(is_break(&closed) && run.world.scopes.is_empty())
}

fn a_value_outlives_its_scope(alloc: Global) -> Result<bool, AllocError> {
    let mut run = with_one_living(alloc, Live::Row(4))?;
    let value = Evaluated::Gives(Values::of(Vec::new(alloc)));
    let closed = close_value(alloc, &mut run, 3, value)?;
    Ok(is_value(&closed) && run.world.scopes.is_empty())
}

fn holds(case: Result<bool, AllocError>) -> bool {
    match case {
        Ok(holds) => holds,
        Err(_) => false,
    }
}

#[test]
fn threads_stop_ends(rt: HostRuntime) {
    assert!(rt; holds(a_thread_stops_the_end(rt.alloc())));
    assert!(rt; holds(a_thread_by_itself_stops(rt.alloc())));
}

#[test]
fn scopes_are_left(rt: HostRuntime) {
    assert!(rt; holds(a_scope_is_left(rt.alloc())));
    assert!(rt; holds(a_value_outlives_its_scope(rt.alloc())));
}
