// Captures, threads, and the commands of a group, each on its happy path.

use crate::{
    Closure, all_words, captures_of, copy, depends_on, emplace_back, fill, has_accessor, in_group,
    is_second, make_reduction, nd_error, parallel_for, single_task, submitted, uses_local,
};
use sqlite_items::Items;
use std::alloc::{AllocError, Global};
use sy_access::{Mode, Values};
use sy_making::Given;
use sy_meaning::{Evaluated, Flow, Row, Run, Store, World};
use sy_note::Spot;
use sy_num::Kind;
use sy_stack::{Stack, Table};
use sy_state::row_values;
use sy_tree::FunctionObject;
use sy_typed::{Dimensions, Thing, TypedCapture, Variable};
use sy_work::{Answer, Ask, Command, Errc, Halt, Why};

const COPY: TypedCapture = TypedCapture::Copy(Variable {
    number: 0,
    what: Thing::Integer(Kind::Int),
    spot: Spot::START,
});

const ELEMENT: TypedCapture = TypedCapture::Element(Variable {
    number: 1,
    what: Thing::Integer(Kind::Int),
    spot: Spot::START,
});

const LOCAL: TypedCapture = TypedCapture::Copy(Variable {
    number: 2,
    what: Thing::LocalAccessor(Kind::Int, Dimensions::One),
    spot: Spot::START,
});

const KERNEL: Closure = Closure {
    number: 4,
    line: 3,
    captures: &[COPY, ELEMENT],
};

fn values(alloc: Global, nums: &[i128]) -> Result<Values, AllocError> {
    Ok(Values::of(Vec::from_slice(alloc, nums)?))
}

fn given(alloc: Global, what: Thing, nums: &[i128]) -> Result<Given, AllocError> {
    let object = values(alloc, nums)?;
    Ok(Given { what, object })
}

fn one_given(alloc: Global, one: Given) -> Result<Vec<Given>, AllocError> {
    let mut all = Vec::new(alloc);
    all.push(one)?;
    Ok(all)
}

fn two_given(alloc: Global, one: Given, other: Given) -> Result<Vec<Given>, AllocError> {
    let mut all = Vec::new(alloc);
    all.push(one)?;
    all.push(other)?;
    Ok(all)
}

fn vectors(alloc: Global) -> Result<Table<Row>, AllocError> {
    let mut rows = Table::new(alloc);
    rows.push(Row {
        values: values(alloc, &[1, 2])?,
        counts: true,
        leased: None,
    })?;
    Ok(rows)
}

/// A number, and the second element of the vector.
fn locals(alloc: Global) -> Result<Table<Values>, AllocError> {
    let mut frame = Table::new(alloc);
    frame.push(values(alloc, &[7])?)?;
    frame.push(values(alloc, &[0, 1])?)?;
    Ok(frame)
}

fn answers(alloc: Global) -> Result<Stack<Answer>, AllocError> {
    let mut feed = Stack::new(alloc);
    feed.push(Answer::Number(6))?;
    Ok(feed)
}

fn world_of(alloc: Global, rows: Table<Row>, feed: Stack<Answer>) -> World {
    World {
        rows,
        accesses: Table::new(alloc),
        scopes: Stack::new(alloc),
        joined: Stack::new(alloc),
        tries: 0,
        group: None,
        turns: 1,
        feed,
        asked: Stack::new(alloc),
        at: None,
        store: Store {
            cells: Items::new(alloc),
        },
        later: Items::new(alloc),
        steps: Stack::new(alloc),
    }
}

/// A run with one vector, two locals and one answer.
fn small_run(alloc: Global) -> Result<Run, AllocError> {
    let rows = vectors(alloc)?;
    let feed = answers(alloc)?;
    let frame = locals(alloc)?;
    let world = world_of(alloc, rows, feed);
    Ok(Run { frame, world })
}

fn gives(value: Result<Evaluated, AllocError>, wanted: &[i128]) -> bool {
    match value {
        Ok(Evaluated::Gives(object)) => object.items() == wanted,
        _ => false,
    }
}

fn is_invalid(value: Result<Evaluated, AllocError>) -> bool {
    match value {
        Ok(Evaluated::Stopped(asked)) => {
            matches!(asked, Ask::Halt(Halt::Terminated(Why::Errc(Errc::Invalid))))
        }
        _ => false,
    }
}

fn are(
    alloc: Global,
    captured: Result<Result<Items<Values>, Evaluated>, AllocError>,
    wanted: &[i128],
) -> bool {
    match captured {
        Ok(Ok(objects)) => have_words(alloc, objects.as_slice(), wanted),
        _ => false,
    }
}

fn have_words(alloc: Global, objects: &[Values], wanted: &[i128]) -> bool {
    match all_words(alloc, objects) {
        Ok(words) => words.items() == wanted,
        Err(_) => false,
    }
}

fn captures_are_given(alloc: Global, run: &mut Run) -> bool {
    are(alloc, captures_of(alloc, run, &KERNEL), &[7, 2])
}

fn a_local_accessor_is_seen() -> bool {
    let lambda = Closure {
        number: 4,
        line: 3,
        captures: &[COPY, LOCAL],
    };
    uses_local(&lambda) && !uses_local(&KERNEL)
}

fn a_thread_is_kept(alloc: Global, run: &mut Run) -> bool {
    let made = emplace_back(alloc, run, 3, &KERNEL, &[0]);
    gives(made, &[]) && row_values(&run.world, 0) == [1, 2, 6].as_slice()
}

fn a_task_is_the_command(alloc: Global, run: &mut Run) -> bool {
    in_group(alloc, run);
    let made = single_task(alloc, &mut run.world, 9, 3, &KERNEL, &[]);
    gives(made, &[]) && is_second(&run.world)
}

fn a_second_task_is_refused(alloc: Global, run: &mut Run) -> bool {
    is_invalid(single_task(alloc, &mut run.world, 9, 3, &KERNEL, &[]))
}

fn command_of(world: &World) -> Option<&Command> {
    match &world.group {
        Some(group) => group.command.as_ref(),
        None => None,
    }
}

fn is_plain(world: &World) -> bool {
    matches!(command_of(world), Some(Command::Plain(_, _)))
}

fn is_reduction(world: &World) -> bool {
    matches!(command_of(world), Some(Command::Reduce(_)))
}

fn fills_with(world: &World, wanted: i128) -> bool {
    match command_of(world) {
        Some(Command::Fill(0, number)) => *number == wanted,
        _ => false,
    }
}

fn one_range(alloc: Global) -> Result<Vec<Given>, AllocError> {
    one_given(alloc, given(alloc, Thing::Range(Dimensions::One), &[8])?)
}

fn a_kernel_is_over_a_range(alloc: Global, run: &mut Run) -> Result<bool, AllocError> {
    in_group(alloc, run);
    let all = one_range(alloc)?;
    let made = parallel_for(alloc, &mut run.world, 9, 3, &KERNEL, all.as_slice(), &[]);
    Ok(gives(made, &[]) && is_plain(&run.world))
}

fn range_and_reduction(alloc: Global) -> Result<Vec<Given>, AllocError> {
    let range = given(alloc, Thing::NdRange(Dimensions::One), &[8, 4])?;
    let what = Thing::Reduction(Kind::Int, FunctionObject::Plus);
    two_given(alloc, range, given(alloc, what, &[0, 1])?)
}

fn a_kernel_reduces(alloc: Global, run: &mut Run) -> Result<bool, AllocError> {
    in_group(alloc, run);
    let all = range_and_reduction(alloc)?;
    let made = parallel_for(alloc, &mut run.world, 9, 3, &KERNEL, all.as_slice(), &[]);
    Ok(gives(made, &[]) && is_reduction(&run.world))
}

fn an_uneven_range_is_refused(alloc: Global, run: &mut Run) -> bool {
    in_group(alloc, run);
    matches!(nd_error(&[8], &[3], &run.world), Ok(Some(Errc::NdRange)))
}

fn accessor_and_number(alloc: Global) -> Result<Vec<Given>, AllocError> {
    let what = Thing::Accessor(Kind::UChar, Dimensions::One, Mode::Write);
    let accessor = given(alloc, what, &[5, 0, 1])?;
    let int = given(alloc, Thing::Integer(Kind::Int), &[257])?;
    two_given(alloc, accessor, int)
}

fn a_fill_converts(alloc: Global, run: &mut Run) -> Result<bool, AllocError> {
    in_group(alloc, run);
    let all = accessor_and_number(alloc)?;
    let made = fill(alloc, &mut run.world, 3, all.as_slice());
    Ok(gives(made, &[]) && fills_with(&run.world, 1))
}

fn two_accessors(alloc: Global) -> Result<Vec<Given>, AllocError> {
    let what = Thing::Accessor(Kind::Int, Dimensions::One, Mode::Write);
    let one = given(alloc, what, &[5, 0, 2])?;
    let other = given(alloc, what, &[6, 0, 1])?;
    two_given(alloc, one, other)
}

fn a_copy_to_fewer_is_refused(alloc: Global, run: &mut Run) -> Result<bool, AllocError> {
    in_group(alloc, run);
    let all = two_accessors(alloc)?;
    let made = copy(alloc, &mut run.world, 3, all.as_slice());
    Ok(is_invalid(made) && !is_second(&run.world))
}

fn one_buffer(alloc: Global) -> Result<Vec<Given>, AllocError> {
    let what = Thing::Buffer(Kind::Int, Dimensions::One);
    one_given(alloc, given(alloc, what, &[5, 5, 0, 1])?)
}

fn a_reduction_keeps_the_value(alloc: Global, run: &mut Run) -> Result<bool, AllocError> {
    in_group(alloc, run);
    let all = one_buffer(alloc)?;
    let made = make_reduction(alloc, &mut run.world, 3, all.as_slice());
    Ok(gives(made, &[0, 1]))
}

fn a_reduction_is_no_accessor(run: &Run) -> bool {
    matches!(has_accessor(&[5, 5, 0, 1], &run.world), Ok(false))
}

fn an_event_is_waited_for(alloc: Global, run: &mut Run) -> bool {
    in_group(alloc, run);
    gives(depends_on(alloc, &mut run.world, &[2]), &[])
}

fn a_group_is_sent(alloc: Global, run: &mut Run) -> bool {
    gives(submitted(alloc, run, 3, 0, Flow::Normal), &[6])
}

fn an_empty_group_is_refused(alloc: Global, run: &mut Run) -> bool {
    in_group(alloc, run);
    is_invalid(submitted(alloc, run, 3, 0, Flow::Normal))
}

fn threads_hold(alloc: Global) -> Result<bool, AllocError> {
    let mut run = small_run(alloc)?;
    let captured = captures_are_given(alloc, &mut run);
    let kept = a_thread_is_kept(alloc, &mut run);
    Ok(captured && kept)
}

fn kernels_hold(alloc: Global) -> Result<bool, AllocError> {
    let mut run = small_run(alloc)?;
    let plain = a_kernel_is_over_a_range(alloc, &mut run);
    let reduced = a_kernel_reduces(alloc, &mut run);
    let uneven = an_uneven_range_is_refused(alloc, &mut run);
    Ok(holds(plain) && holds(reduced) && uneven)
}

fn moves_hold(alloc: Global) -> Result<bool, AllocError> {
    let mut run = small_run(alloc)?;
    let filled = a_fill_converts(alloc, &mut run);
    let copied = a_copy_to_fewer_is_refused(alloc, &mut run);
    let reduced = a_reduction_keeps_the_value(alloc, &mut run);
    let apart = a_reduction_is_no_accessor(&run);
    Ok(holds(filled) && holds(copied) && holds(reduced) && apart)
}

fn groups_hold(alloc: Global) -> Result<bool, AllocError> {
    let mut run = small_run(alloc)?;
    let waits = an_event_is_waited_for(alloc, &mut run);
    let task = a_task_is_the_command(alloc, &mut run);
    let second = a_second_task_is_refused(alloc, &mut run);
    let sent = a_group_is_sent(alloc, &mut run);
    let empty = an_empty_group_is_refused(alloc, &mut run);
    Ok(waits && task && second && sent && empty)
}

fn holds(case: Result<bool, AllocError>) -> bool {
    match case {
        Ok(holds) => holds,
        Err(_) => false,
    }
}

#[test]
fn threads_have_their_captures(rt: HostRuntime) {
    assert!(rt; a_local_accessor_is_seen());
    assert!(rt; holds(threads_hold(rt.alloc())));
}

#[test]
fn kernels_are_over_ranges(rt: HostRuntime) {
    assert!(rt; holds(kernels_hold(rt.alloc())));
}

#[test]
fn accessors_are_filled_and_copied(rt: HostRuntime) {
    assert!(rt; holds(moves_hold(rt.alloc())));
}

#[test]
fn groups_are_submitted(rt: HostRuntime) {
    assert!(rt; holds(groups_hold(rt.alloc())));
}
