// Objects of each sort, made of arguments.

use crate::{
    Given, asked_contents, contents_in, counted_values, counts_in, device_or_whole, done_in,
    has_end, has_identity_tag, has_in_order_tag, has_no_init_tag, is_reduced_in, length_limit,
    live_of, make, make_accessor, make_buffer, make_context, make_counted, make_local, make_team,
    make_temporary, make_vector, need_of, range_at, type_at, value_at,
};
use sqlite_items::Items;
use std::alloc::{AllocError, Global};
use sy_access::{Mode, Need, Values};
use sy_meaning::{Evaluated, Live, Reply, Scope, Store, World};
use sy_num::Kind;
use sy_stack::{Stack, Table};
use sy_state::{is_leased, row_values};
use sy_tree::AccessTag;
use sy_typed::{Dimensions, Thing};
use sy_work::{Answer, Ask, Halt, Why};

fn values(alloc: Global, nums: &[i128]) -> Result<Values, AllocError> {
    Ok(Values::of(Vec::from_slice(alloc, nums)?))
}

fn only(alloc: Global, what: Thing, nums: &[i128]) -> Result<Vec<Given>, AllocError> {
    let object = values(alloc, nums)?;
    let mut given = Vec::new(alloc);
    given.push(Given { what, object })?;
    Ok(given)
}

fn world_of(alloc: Global, feed: Stack<Answer>) -> World {
    World {
        rows: Table::new(alloc),
        accesses: Table::new(alloc),
        scopes: Stack::new(alloc),
        joined: Stack::new(alloc),
        tries: 1,
        group: None,
        turns: 9,
        feed,
        asked: Stack::new(alloc),
        at: None,
        store: Store {
            cells: Items::new(alloc),
        },
        later: Items::new(alloc),
        steps: Stack::new(alloc),
    }
}

/// A world in which one ask is answered.
fn answered(alloc: Global, answer: Answer) -> Result<World, AllocError> {
    let mut feed = Stack::new(alloc);
    feed.push(answer)?;
    Ok(world_of(alloc, feed))
}

/// A world in which one vector of two elements lives.
fn with_vector(alloc: Global, answer: Answer) -> Result<World, AllocError> {
    let mut world = answered(alloc, answer)?;
    let _vector = make_vector(alloc, &mut world, values(alloc, &[1, 2])?)?;
    Ok(world)
}

fn gives(value: Result<Evaluated, AllocError>, wanted: &[i128]) -> bool {
    match value {
        Ok(Evaluated::Gives(object)) => object.items() == wanted,
        _ => false,
    }
}

fn threw(value: Result<Evaluated, AllocError>) -> bool {
    matches!(value, Ok(Evaluated::Threw(_, 3)))
}

fn is_too_long(value: Result<Evaluated, AllocError>) -> bool {
    match value {
        Ok(Evaluated::Stopped(asked)) => {
            matches!(asked, Ask::Halt(Halt::Terminated(Why::Length)))
        }
        _ => false,
    }
}

fn is(found: Result<Vec<u64>, AllocError>, wanted: &[u64]) -> bool {
    match found {
        Ok(numbers) => numbers.as_slice() == wanted,
        Err(_) => false,
    }
}

const RANGE: Thing = Thing::Range(Dimensions::Two);

fn arguments_are_read(alloc: Global) -> Result<bool, AllocError> {
    let given = only(alloc, RANGE, &[4, 5])?;
    let given = given.as_slice();
    let first = type_at(given, 0) == RANGE && value_at(given, 0) == [4, 5].as_slice();
    let second = type_at(given, 1) == Thing::Void && value_at(given, 1).is_empty();
    let extents = is(range_at(alloc, given, 0), &[4, 5]);
    Ok(first && second && extents && is(counts_in(alloc, given), &[4]))
}

/// Whether each of the three tags is found as wanted.
fn tags_are(alloc: Global, what: Thing, wanted: [bool; 3]) -> Result<bool, AllocError> {
    let given = only(alloc, what, &[])?;
    let given = given.as_slice();
    let found = [
        has_no_init_tag(given),
        has_in_order_tag(given),
        has_identity_tag(given),
    ];
    Ok(found == wanted)
}

#[test]
fn arguments_have_types_and_values(rt: HostRuntime) {
    assert!(rt; matches!(arguments_are_read(rt.alloc()), Ok(true)));
    let no_init = Thing::AccessTag(AccessTag::NoInit);
    assert!(rt;
        matches!(
            tags_are(rt.alloc(), no_init, [true, false, false]),
            Ok(true)
        )
    );
    let in_order = Thing::InOrder;
    assert!(rt;
        matches!(
            tags_are(rt.alloc(), in_order, [false, true, false]),
            Ok(true)
        )
    );
    let identity = Thing::InitializeToIdentity;
    assert!(rt;
        matches!(
            tags_are(rt.alloc(), identity, [false, false, true]),
            Ok(true)
        )
    );
}

fn contents_come(alloc: Global) -> Result<bool, AllocError> {
    let reply = Reply::Answered(Answer::Contents(values(alloc, &[8])?));
    match contents_in(alloc, reply) {
        Ok(contents) => Ok(contents.items() == [8].as_slice()),
        Err(_) => Ok(false),
    }
}

fn contents_are_asked(alloc: Global) -> Result<bool, AllocError> {
    let mut world = answered(alloc, Answer::Contents(values(alloc, &[8])?))?;
    match asked_contents(alloc, &mut world, 3, Ask::WaitQueue(1))? {
        Ok(contents) => Ok(contents.items() == [8].as_slice()),
        Err(_) => Ok(false),
    }
}

#[test]
fn what_goes_on_after_an_ask(rt: HostRuntime) {
    assert!(rt; matches!(done_in(Reply::Answered(Answer::Done)), Ok(_)));
    assert!(rt; matches!(done_in(Reply::Stopped(Ask::WaitQueue(1))), Err(_)));
    assert!(rt; matches!(contents_come(rt.alloc()), Ok(true)));
    assert!(rt; matches!(contents_are_asked(rt.alloc()), Ok(true)));
}

fn vectors_are_numbered(alloc: Global) -> Result<bool, AllocError> {
    let mut world = with_vector(alloc, Answer::Done)?;
    let team = gives(make_team(alloc, &mut world), &[1]);
    Ok(team && row_values(&world, 0) == [1, 2].as_slice())
}

/// A count and a value, as arguments in parentheses.
fn pair(alloc: Global, count: i128) -> Result<Vec<Values>, AllocError> {
    let mut objects = Vec::new(alloc);
    objects.push(values(alloc, &[count])?)?;
    objects.push(values(alloc, &[7])?)?;
    Ok(objects)
}

fn elements_are_counted(alloc: Global) -> Result<bool, AllocError> {
    let three = pair(alloc, 3)?;
    let made = counted_values(alloc, Kind::Int, three.as_slice())?;
    Ok(made.items() == [7, 7, 7].as_slice())
}

fn a_vector_has_a_limit(alloc: Global) -> Result<bool, AllocError> {
    let mut world = with_vector(alloc, Answer::Done)?;
    let many = pair(alloc, length_limit() as i128 - 1)?;
    let made = make_counted(alloc, &mut world, Kind::Int, many.as_slice());
    Ok(is_too_long(made))
}

#[test]
fn vectors_are_made(rt: HostRuntime) {
    assert!(rt; matches!(vectors_are_numbered(rt.alloc()), Ok(true)));
    assert!(rt; matches!(elements_are_counted(rt.alloc()), Ok(true)));
    assert!(rt; matches!(a_vector_has_a_limit(rt.alloc()), Ok(true)));
}

fn a_buffer_leases_its_vector(alloc: Global) -> Result<bool, AllocError> {
    let mut world = with_vector(alloc, Answer::Number(6))?;
    let what = Thing::Vector(Kind::Int);
    let made = make_buffer(alloc, &mut world, 3, Kind::Int, what, &[]);
    Ok(gives(made, &[6, 6, 0, 2]) && is_leased(&world, 0))
}

fn a_context_has_a_place(alloc: Global) -> Result<bool, AllocError> {
    let mut world = answered(alloc, Answer::Number(2))?;
    let device = device_or_whole(Thing::Device, &[4, 2])?;
    Ok(gives(make_context(alloc, &mut world, 3, device), &[2, 4, 2]))
}

fn a_need_is_on_all_elements(alloc: Global) -> Result<bool, AllocError> {
    let need = need_of(alloc, &[7, 6, 8, 2, 4], Mode::Read, false)?;
    let wanted = Need {
        buffer: 6,
        mode: Mode::Read,
        no_init: false,
        from: 8,
        to: 16,
    };
    Ok(need == wanted)
}

fn an_accessor_is_a_need(alloc: Global) -> Result<bool, AllocError> {
    let mut world = answered(alloc, Answer::Done)?;
    let buffer = [7, 6, 8, 2];
    let made = make_accessor(alloc, &mut world, 3, Mode::Read, false, &buffer);
    let free = matches!(is_reduced_in(&world, &buffer), Ok(false));
    Ok(gives(made, &[6, 8, 2]) && free && world.group.is_some())
}

fn local_accessors_have_a_limit(alloc: Global) -> Result<bool, AllocError> {
    let mut world = answered(alloc, Answer::Done)?;
    let first = make_local(alloc, &mut world, 3, &[65536]);
    let second = make_local(alloc, &mut world, 3, &[1]);
    Ok(gives(first, &[0, 0, 65536]) && threw(second))
}

#[test]
fn buffers_and_accessors_are_made(rt: HostRuntime) {
    assert!(rt; matches!(a_buffer_leases_its_vector(rt.alloc()), Ok(true)));
    assert!(rt; matches!(a_context_has_a_place(rt.alloc()), Ok(true)));
    assert!(rt; matches!(a_need_is_on_all_elements(rt.alloc()), Ok(true)));
    assert!(rt; matches!(an_accessor_is_a_need(rt.alloc()), Ok(true)));
    assert!(rt; matches!(local_accessors_have_a_limit(rt.alloc()), Ok(true)));
}

fn makes(alloc: Global, what: Thing, given: &[Given], wanted: &[i128]) -> Result<bool, AllocError> {
    let mut world = answered(alloc, Answer::Number(5))?;
    Ok(gives(make(alloc, &mut world, 3, what, given), wanted))
}

fn a_queue_is_in_order(alloc: Global) -> Result<bool, AllocError> {
    let given = only(alloc, Thing::InOrder, &[])?;
    makes(alloc, Thing::Queue, given.as_slice(), &[5, 0, 8])
}

fn a_range_is_copied(alloc: Global) -> Result<bool, AllocError> {
    let given = only(alloc, RANGE, &[4, 5])?;
    makes(alloc, RANGE, given.as_slice(), &[4, 5])
}

fn is_buffer(live: Result<Option<Live>, AllocError>) -> bool {
    matches!(live, Ok(Some(Live::Buffer(5))))
}

fn a_temporary_is_ended(alloc: Global) -> Result<bool, AllocError> {
    let mut world = answered(alloc, Answer::Number(5))?;
    world.scopes.push(Scope {
        live: Stack::new(alloc),
    })?;
    let what = Thing::Buffer(Kind::Int, Dimensions::One);
    let given = only(alloc, Thing::Integer(Kind::Int), &[4])?;
    let made = make_temporary(alloc, &mut world, 3, what, given.as_slice());
    let ended = has_end(what) && is_buffer(live_of(what, &[5, 5, 0, 4]));
    Ok(gives(made, &[5, 5, 0, 4]) && ended)
}

#[test]
fn objects_are_made_by_their_types(rt: HostRuntime) {
    assert!(rt; matches!(makes(rt.alloc(), Thing::Device, &[], &[0, 8]), Ok(true)));
    assert!(rt; matches!(a_queue_is_in_order(rt.alloc()), Ok(true)));
    assert!(rt; matches!(a_range_is_copied(rt.alloc()), Ok(true)));
    assert!(rt; matches!(a_temporary_is_ended(rt.alloc()), Ok(true)));
}
