// Members of each sort of object, and what a group does together.

use crate::{
    barrier, group_function, item_member, library_member, position, range_of_object, size_of,
};
use sqlite_items::Items;
use std::alloc::{AllocError, Global};
use sy_access::Values;
use sy_making::Given;
use sy_meaning::{Evaluated, Row, Store, World};
use sy_note::Spot;
use sy_num::Kind;
use sy_range::{Position, Range};
use sy_stack::{Stack, Table};
use sy_state::row_values;
use sy_tree::{FunctionObject, LibraryFunction};
use sy_typed::{Dimensions, Member, Thing};
use sy_work::{Answer, Ask, Cause, Halt, Why};

const INT: Thing = Thing::Integer(Kind::Int);

const VECTOR: Thing = Thing::Vector(Kind::Int);

const AT: Spot = Spot { line: 3, column: 7 };

fn values(alloc: Global, nums: &[i128]) -> Result<Values, AllocError> {
    Ok(Values::of(Vec::from_slice(alloc, nums)?))
}

/// The arguments of a group function: the group, the value, and what tells the operator or the item.
fn of_group(
    alloc: Global,
    num: i128,
    what: Thing,
    more: &[i128],
) -> Result<Vec<Given>, AllocError> {
    let mut given = Vec::new(alloc);
    given.push(Given {
        what: Thing::Group(Dimensions::Two),
        object: values(alloc, &[])?,
    })?;
    given.push(Given {
        what: INT,
        object: values(alloc, &[num])?,
    })?;
    given.push(Given {
        what,
        object: values(alloc, more)?,
    })?;
    Ok(given)
}

fn one(alloc: Global, num: i128) -> Result<Vec<Given>, AllocError> {
    let object = values(alloc, &[num])?;
    let mut given = Vec::new(alloc);
    given.push(Given { what: INT, object })?;
    Ok(given)
}

fn no_arguments(alloc: Global) -> Vec<Given> {
    Vec::new(alloc)
}

fn no_cells(alloc: Global) -> Store {
    Store {
        cells: Items::new(alloc),
    }
}

/// An item of an nd_range in a world in which a vector of two elements lives, one ask is answered and one phase
/// follows.
fn world_of(alloc: Global, answer: Answer) -> Result<World, AllocError> {
    let mut rows = Table::new(alloc);
    rows.push(Row {
        values: values(alloc, &[1, 2])?,
        counts: true,
        leased: None,
    })?;
    let mut feed = Stack::new(alloc);
    feed.push(answer)?;
    let mut later = Items::new(alloc);
    later.push(no_cells(alloc))?;
    Ok(World {
        rows,
        accesses: Table::new(alloc),
        scopes: Stack::new(alloc),
        joined: Stack::new(alloc),
        tries: 1,
        group: None,
        turns: 9,
        feed,
        asked: Stack::new(alloc),
        at: Some(Position {
            global: Range::new(&[8, 6]),
            local: Some(Range::new(&[4, 3])),
            item: 34,
        }),
        store: no_cells(alloc),
        later,
        steps: Stack::new(alloc),
    })
}

fn gives(value: Result<Evaluated, AllocError>, wanted: &[i128]) -> bool {
    match value {
        Ok(Evaluated::Gives(object)) => object.items() == wanted,
        _ => false,
    }
}

fn threw(value: Result<Evaluated, AllocError>) -> bool {
    matches!(value, Ok(Evaluated::Threw(_, 3)))
}

fn is_out_of_range(value: Result<Evaluated, AllocError>) -> bool {
    match value {
        Ok(Evaluated::Stopped(asked)) => {
            matches!(asked, Ask::Halt(Halt::Trapped(Cause::Index, 3)))
        }
        _ => false,
    }
}

fn is_not_joinable(value: Result<Evaluated, AllocError>) -> bool {
    match value {
        Ok(Evaluated::Stopped(asked)) => {
            matches!(asked, Ask::Halt(Halt::Terminated(Why::NotJoinable)))
        }
        _ => false,
    }
}

fn is(found: Result<Vec<u64>, AllocError>, wanted: &[u64]) -> bool {
    match found {
        Ok(numbers) => numbers.as_slice() == wanted,
        Err(_) => false,
    }
}

fn holds(case: Result<bool, AllocError>) -> bool {
    matches!(case, Ok(true))
}

fn of_item(alloc: Global, member: Member, wanted: &[i128]) -> Result<bool, AllocError> {
    let world = world_of(alloc, Answer::Done)?;
    let none = no_arguments(alloc);
    let value = item_member(alloc, &world, member, 3, none.as_slice());
    Ok(gives(value, wanted) && position(&world).item == 34)
}

fn an_item_has_coordinates(alloc: Global) -> Result<bool, AllocError> {
    let world = world_of(alloc, Answer::Done)?;
    let second = one(alloc, 1)?;
    let third = one(alloc, 2)?;
    let a = item_member(alloc, &world, Member::GetId, 3, second.as_slice());
    let b = item_member(alloc, &world, Member::GetGroup, 3, third.as_slice());
    Ok(gives(a, &[4]) && is_out_of_range(b))
}

#[test]
fn an_item_knows_its_place(rt: HostRuntime) {
    assert!(rt; holds(of_item(rt.alloc(), Member::GetGlobalId, &[5, 4])));
    assert!(rt; holds(of_item(rt.alloc(), Member::GetLocalId, &[1, 1])));
    assert!(rt; holds(of_item(rt.alloc(), Member::GetLocalRange, &[4, 3])));
    assert!(rt; holds(of_item(rt.alloc(), Member::GetGroupRange, &[2, 2])));
    assert!(rt; holds(of_item(rt.alloc(), Member::GetLocalLinearId, &[4])));
    assert!(rt; holds(of_item(rt.alloc(), Member::GetGroupLinearId, &[3])));
    assert!(rt; holds(an_item_has_coordinates(rt.alloc())));
}

/// A member of an object, with one argument.
fn of_object(
    alloc: Global,
    member: Member,
    what: Thing,
    object: &[i128],
    argument: i128,
) -> Result<Evaluated, AllocError> {
    let mut world = world_of(alloc, Answer::Done)?;
    let given = one(alloc, argument)?;
    library_member(alloc, &mut world, member, 3, what, object, given.as_slice())
}

#[test]
fn a_device_is_partitioned(rt: HostRuntime) {
    let device = Thing::Device;
    let two = of_object(rt.alloc(), Member::CreateSubDevices, device, &[0, 8], 3);
    assert!(rt; gives(two, &[0, 3, 2]));
    let none = of_object(rt.alloc(), Member::CreateSubDevices, device, &[0, 8], 9);
    assert!(rt; threw(none));
    let units = of_object(rt.alloc(), Member::MaxComputeUnits, device, &[4, 4], 0);
    assert!(rt; gives(units, &[4]));
}

fn objects_have_sizes(alloc: Global) -> Result<bool, AllocError> {
    let world = world_of(alloc, Answer::Done)?;
    let range = Thing::Range(Dimensions::Two);
    let vector = matches!(size_of(alloc, &world, VECTOR, &[0]), Ok(2));
    let items = matches!(size_of(alloc, &world, range, &[4, 5]), Ok(20));
    let item = Thing::Item(Dimensions::Two);
    Ok(vector && items && is(range_of_object(alloc, &world, item, &[5, 4]), &[8, 6]))
}

fn a_vector_grows(alloc: Global) -> Result<bool, AllocError> {
    let mut world = world_of(alloc, Answer::Done)?;
    let given = one(alloc, 7)?;
    let value = library_member(
        alloc,
        &mut world,
        Member::PushBack,
        3,
        VECTOR,
        &[0],
        given.as_slice(),
    );
    Ok(gives(value, &[]) && row_values(&world, 0) == [1, 2, 7].as_slice())
}

#[test]
fn objects_have_elements(rt: HostRuntime) {
    assert!(rt; holds(objects_have_sizes(rt.alloc())));
    assert!(rt; holds(a_vector_grows(rt.alloc())));
}

fn a_thread_is_joined_once(alloc: Global) -> Result<bool, AllocError> {
    let mut world = world_of(alloc, Answer::Done)?;
    let none = no_arguments(alloc);
    let none = none.as_slice();
    let thread = Thing::Thread;
    let a = library_member(alloc, &mut world, Member::Join, 3, thread, &[5], none);
    let b = library_member(alloc, &mut world, Member::Join, 3, thread, &[5], none);
    Ok(gives(a, &[]) && is_not_joinable(b))
}

fn a_queue_is_waited_for(alloc: Global) -> Result<bool, AllocError> {
    let mut world = world_of(alloc, Answer::Done)?;
    let none = no_arguments(alloc);
    let queue = [2, 0, 8];
    let value = library_member(
        alloc,
        &mut world,
        Member::Wait,
        3,
        Thing::Queue,
        &queue,
        none.as_slice(),
    );
    let asked = matches!(world.asked.peek(), Some((Ask::WaitQueue(2), _)));
    Ok(gives(value, &[]) && asked)
}

#[test]
fn threads_and_queues_are_waited_for(rt: HostRuntime) {
    assert!(rt; holds(a_thread_is_joined_once(rt.alloc())));
    assert!(rt; holds(a_queue_is_waited_for(rt.alloc())));
}

fn a_barrier_ends_a_phase(alloc: Global) -> Result<bool, AllocError> {
    let mut world = world_of(alloc, Answer::Done)?;
    let value = barrier(alloc, &mut world, AT);
    Ok(gives(value, &[]) && world.later.len() == 0)
}

fn a_group_adds_up(alloc: Global) -> Result<bool, AllocError> {
    let mut world = world_of(alloc, Answer::Contents(values(alloc, &[21])?))?;
    let plus = Thing::FunctionObject(FunctionObject::Plus, None);
    let given = of_group(alloc, 4, plus, &[])?;
    let reduce = LibraryFunction::ReduceOverGroup;
    let value = group_function(alloc, &mut world, reduce, AT, Kind::Int, given.as_slice());
    Ok(gives(value, &[21]))
}

fn a_group_has_no_such_item(alloc: Global) -> Result<bool, AllocError> {
    let mut world = world_of(alloc, Answer::Done)?;
    let given = of_group(alloc, 4, INT, &[12])?;
    let broadcast = LibraryFunction::GroupBroadcast;
    let value = group_function(
        alloc,
        &mut world,
        broadcast,
        AT,
        Kind::Int,
        given.as_slice(),
    );
    Ok(is_out_of_range(value))
}

#[test]
fn a_group_acts_together(rt: HostRuntime) {
    assert!(rt; holds(a_barrier_ends_a_phase(rt.alloc())));
    assert!(rt; holds(a_group_adds_up(rt.alloc())));
    assert!(rt; holds(a_group_has_no_such_item(rt.alloc())));
}
