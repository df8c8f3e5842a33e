// Each function on a worked case.

use crate::{
    access_at, ask, elements, give_back, is_joined, is_leased, joined, lease, lives, local,
    next_living, no_row, number_in, opened, put, put_access, put_row, put_values, row_values,
};
use sqlite_items::Items;
use std::alloc::{AllocError, Global};
use sy_access::Values;
use sy_meaning::{Live, Reply, Row, Run, Store, World};
use sy_stack::{Stack, Table};
use sy_work::{Answer, Ask};

fn values(alloc: Global, nums: &[i128]) -> Result<Values, AllocError> {
    Ok(Values::of(Vec::from_slice(alloc, nums)?))
}

fn empty_world(alloc: Global) -> World {
    World {
        rows: Table::new(alloc),
        accesses: Table::new(alloc),
        scopes: Stack::new(alloc),
        joined: Stack::new(alloc),
        tries: 0,
        group: None,
        turns: 1,
        feed: Stack::new(alloc),
        asked: Stack::new(alloc),
        at: None,
        store: Store {
            cells: Items::new(alloc),
        },
        later: Items::new(alloc),
        steps: Stack::new(alloc),
    }
}

fn locals_are_read(alloc: Global) -> Result<bool, AllocError> {
    let mut run = Run {
        frame: Table::new(alloc),
        world: empty_world(alloc),
    };
    put(alloc, &mut run, 2, values(alloc, &[7])?)?;
    let kept = local(&run, 2) == [7].as_slice();
    Ok(kept && local(&run, 1).is_empty() && run.frame.len() == 3)
}

fn accesses_are_read(alloc: Global) -> Result<bool, AllocError> {
    let mut world = empty_world(alloc);
    world.accesses.push(values(alloc, &[])?)?;
    put_access(&mut world, 0, values(alloc, &[4, 5])?);
    Ok(access_at(&world, 0) == [4, 5].as_slice())
}

fn rows_come_back(alloc: Global) -> Result<bool, AllocError> {
    let mut world = empty_world(alloc);
    world.rows.push(no_row(alloc))?;
    let row = Row {
        values: values(alloc, &[1])?,
        counts: true,
        leased: None,
    };
    put_row(&mut world, 0, row);
    put_values(alloc, &mut world, 0, values(alloc, &[1, 2, 3])?);
    let counted = elements(&world)?;
    lease(alloc, &mut world, 9, 0);
    let leased = is_leased(&world, 0);
    give_back(alloc, &mut world, 9, &[8, 9])?;
    let free = !is_leased(&world, 0);
    Ok(counted == 3 && leased && free && row_values(&world, 0) == [8, 9, 3].as_slice())
}

/// A world with one scope, in which a vector lives and then a thread.
fn with_two_living(alloc: Global) -> Result<World, AllocError> {
    let mut world = empty_world(alloc);
    opened(alloc, &mut world)?;
    lives(alloc, &mut world, Live::Row(4))?;
    lives(alloc, &mut world, Live::Thread(5))?;
    Ok(world)
}

fn is_thread(object: Option<Live>) -> bool {
    matches!(object, Some(Live::Thread(5)))
}

fn is_row(object: Option<Live>) -> bool {
    matches!(object, Some(Live::Row(4)))
}

fn the_last_made_is_next(alloc: Global) -> Result<bool, AllocError> {
    let mut world = with_two_living(alloc)?;
    Ok(is_thread(next_living(alloc, &mut world)?))
}

fn the_first_made_is_last(alloc: Global) -> Result<bool, AllocError> {
    let mut world = with_two_living(alloc)?;
    let last = is_thread(next_living(alloc, &mut world)?);
    let first = is_row(next_living(alloc, &mut world)?);
    Ok(last && first)
}

fn an_empty_scope_is_left(alloc: Global) -> Result<bool, AllocError> {
    let mut world = empty_world(alloc);
    opened(alloc, &mut world)?;
    let end = next_living(alloc, &mut world)?;
    Ok(end.is_none() && world.scopes.is_empty())
}

fn a_joined_thread_is_known(alloc: Global) -> Result<bool, AllocError> {
    let mut world = empty_world(alloc);
    joined(&mut world, 5)?;
    Ok(is_joined(&world, 5))
}

fn number_of(world: &mut World, reply: Reply) -> u32 {
    match number_in(world, 3, reply) {
        Ok(n) => n,
        Err(_) => 0,
    }
}

fn an_ask_is_answered(alloc: Global) -> Result<bool, AllocError> {
    let mut world = empty_world(alloc);
    world.feed.push(Answer::Number(6))?;
    let reply = ask(alloc, &mut world, 3, Ask::Join(1))?;
    let answered = number_of(&mut world, reply) == 6;
    let spent = matches!(
        ask(alloc, &mut world, 3, Ask::Join(1))?,
        Reply::Stopped(Ask::Halt(_))
    );
    Ok(answered && spent && world.asked.len() == 1)
}

fn holds(case: Result<bool, AllocError>) -> bool {
    match case {
        Ok(holds) => holds,
        Err(_) => false,
    }
}

#[test]
fn objects_are_kept_at_their_numbers(rt: HostRuntime) {
    assert!(rt; holds(locals_are_read(rt.alloc())));
    assert!(rt; holds(accesses_are_read(rt.alloc())));
    assert!(rt; holds(rows_come_back(rt.alloc())));
}

#[test]
fn scopes_end_their_objects(rt: HostRuntime) {
    assert!(rt; holds(the_last_made_is_next(rt.alloc())));
    assert!(rt; holds(the_first_made_is_last(rt.alloc())));
    assert!(rt; holds(an_empty_scope_is_left(rt.alloc())));
}

#[test]
fn threads_and_asks(rt: HostRuntime) {
    assert!(rt; holds(a_joined_thread_is_known(rt.alloc())));
    assert!(rt; holds(an_ask_is_answered(rt.alloc())));
}
