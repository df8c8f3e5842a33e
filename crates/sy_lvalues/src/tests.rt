// Each function on a worked case.

use crate::{index_into, load, number_at, store};
use sqlite_items::Items;
use std::alloc::{AllocError, Global};
use sy_access::{Cell, Values};
use sy_meaning::{Area, Evaluated, Location, Row, Run, Store, World};
use sy_num::Kind;
use sy_stack::{Stack, Table};
use sy_state::{access_at, local, row_values};
use sy_typed::{Dimensions, Thing};
use sy_words::Word;
use sy_work::{Ask, Cause, Halt};

const SEVEN: Word = Word {
    kind: Kind::Int,
    num: 7,
};

fn values(alloc: Global, nums: &[i128]) -> Result<Values, AllocError> {
    Ok(Values::of(Vec::from_slice(alloc, nums)?))
}

/// A run with one vector of two elements and one host access of one.
fn small_run(alloc: Global) -> Result<Run, AllocError> {
    let mut rows = Table::new(alloc);
    rows.push(Row {
        values: values(alloc, &[1, 2])?,
        counts: true,
        leased: None,
    })?;
    let mut accesses = Table::new(alloc);
    accesses.push(values(alloc, &[3])?)?;
    let world = World {
        rows,
        accesses,
        scopes: Stack::new(alloc),
        joined: Stack::new(alloc),
        tries: 0,
        group: None,
        turns: 0,
        feed: Stack::new(alloc),
        asked: Stack::new(alloc),
        at: None,
        store: Store {
            cells: Items::new(alloc),
        },
        later: Items::new(alloc),
        steps: Stack::new(alloc),
    };
    Ok(Run {
        frame: Table::new(alloc),
        world,
    })
}

fn gives(value: Result<Evaluated, AllocError>, wanted: &[i128]) -> bool {
    match value {
        Ok(Evaluated::Gives(object)) => object.items() == wanted,
        _ => false,
    }
}

fn is_out_of_range(value: Result<Evaluated, AllocError>) -> bool {
    match value {
        Ok(Evaluated::Stopped(asked)) => {
            matches!(asked, Ask::Halt(Halt::Trapped(Cause::Index, 3)))
        }
        _ => false,
    }
}

fn numbers_are_stored(alloc: Global) -> Result<bool, AllocError> {
    let mut run = small_run(alloc)?;
    let a = store(alloc, &mut run, 3, Location::Local(1), &[], SEVEN);
    let b = store(alloc, &mut run, 3, Location::Element, &[0, 1], SEVEN);
    let access = Location::Cell(Area::Access);
    let c = store(alloc, &mut run, 3, access, &[0, 0, 1], SEVEN);
    let kept = local(&run, 1) == [7].as_slice()
        && row_values(&run.world, 0) == [1, 7].as_slice()
        && access_at(&run.world, 0) == [7].as_slice();
    Ok(gives(a, &[7]) && gives(b, &[7]) && gives(c, &[7]) && kept)
}

fn numbers_are_loaded(alloc: Global) -> Result<bool, AllocError> {
    let mut run = small_run(alloc)?;
    let first = values(alloc, &[0, 0])?;
    let a = load(alloc, &mut run, 3, Kind::Int, Location::Element, first);
    let third = values(alloc, &[0, 2])?;
    let b = load(alloc, &mut run, 3, Kind::Int, Location::Element, third);
    Ok(gives(a, &[1]) && is_out_of_range(b))
}

fn cells_are_steps(alloc: Global) -> Result<bool, AllocError> {
    let mut run = small_run(alloc)?;
    let root = Location::Cell(Area::Root);
    let a = store(alloc, &mut run, 3, root, &[4, 5], SEVEN);
    let b = load(alloc, &mut run, 3, Kind::Int, root, values(alloc, &[4, 5])?);
    let seen = number_at(Cell::Buffer(4, 5), &run.world);
    let stepped = run.world.steps.len() == 2;
    Ok(gives(a, &[7]) && gives(b, &[7]) && seen == 7 && stepped)
}

fn objects_are_indexed(alloc: Global) -> Result<bool, AllocError> {
    let run = small_run(alloc)?;
    let vector = Thing::Vector(Kind::Int);
    let int = Thing::Integer(Kind::Int);
    let range = Thing::Range(Dimensions::Two);
    let a = index_into(alloc, &run.world, 3, vector, int, &[0], &[1]);
    let b = index_into(alloc, &run.world, 3, range, int, &[8, 9], &[1]);
    let c = index_into(alloc, &run.world, 3, range, int, &[8, 9], &[2]);
    Ok(gives(a, &[0, 1]) && gives(b, &[9]) && is_out_of_range(c))
}

fn holds(case: Result<bool, AllocError>) -> bool {
    match case {
        Ok(holds) => holds,
        Err(_) => false,
    }
}

#[test]
fn lvalues_are_read_and_written(rt: HostRuntime) {
    assert!(rt; holds(numbers_are_stored(rt.alloc())));
    assert!(rt; holds(numbers_are_loaded(rt.alloc())));
    assert!(rt; holds(cells_are_steps(rt.alloc())));
}

#[test]
fn an_index_is_checked(rt: HostRuntime) {
    assert!(rt; holds(objects_are_indexed(rt.alloc())));
}
