// Group functions (SYCL 2020, "Group functions", "Group algorithms library").

ghost use Rattle.std.specs.Prelude.{◌≡◌, IfOk};
ghost use Rattle.sy_meaning.specs.Library.{broadcast, collect, group_function, local_range, operator_in, position};
ghost use Rattle.sy_meaning.specs.Making.{value_at};
ghost use Rattle.sy_meaning.specs.Words.{number_as};
ghost use Rattle.sy_range.specs.LinearIds.{product};

use crate::items::position;
use crate::phases::collect;
use std::alloc::{AllocError, Global};
use sy_making::{Given, trapped, value_at};
use sy_meaning::{Evaluated, World};
use sy_note::Spot;
use sy_num::Kind;
use sy_requests::{extents_of, local_range, operator_of, product};
use sy_tree::LibraryFunction;
use sy_typed::Thing;
use sy_words::{count_of, nothing, number_as};
use sy_work::{Cause, Collect, Form, RedOp};

/// The operator that an argument's type tells.
fn operator_in(given: &[Given]) -> RedOp
    ensures { result ≡ operator_in given.now }
{
    match given {
        [] => RedOp::Plus,
        [first, rest @ ..] => match first.what {
            Thing::FunctionObject(function, _) => operator_of(function),
            _ => operator_in(rest),
        },
    }
}

/// How many items the work-group has.
fn group_size(alloc: Global, world: &World) -> Result<u64, AllocError>
    ensures { IfOk result (λ n. n ≡ product (local_range (position world.now))) }
{
    let range = local_range(&position(world));
    let extents = extents_of(alloc, &range)?;
    product(extents.as_slice())
}

/// Gives every item of the group the number of one of them; a trap where there is no such item.
fn broadcast(
    alloc: Global,
    world: &mut World,
    at: Spot,
    kind: Kind,
    num: i128,
    item: u64,
) -> Result<Evaluated, AllocError>
    ensures { IfOk result (λ value. (value, world.new) ≡ broadcast at kind num item world.old) }
{
    if item < group_size(alloc, world)? {
        let call = Collect {
            form: Form::Broadcast(item),
            op: RedOp::Plus,
            kind,
            num,
        };
        collect(alloc, world, at, call)
    } else {
        Ok(trapped(Cause::Index, at.line))
    }
}

/// Combines the numbers of the group's items, as the arguments say.
fn combined(
    alloc: Global,
    world: &mut World,
    form: Form,
    at: Spot,
    kind: Kind,
    given: &[Given],
) -> Result<Evaluated, AllocError>
    ensures { IfOk result (λ value. (value, world.new) ≡ collect at form (operator_in given.now) kind (number_as kind (value_at 1 given.now)) world.old) }
{
    let call = Collect {
        form,
        op: operator_in(given),
        kind,
        num: number_as(kind, value_at(given, 1)),
    };
    collect(alloc, world, at, call)
}

/// A function of the library that gives a value: of the group, the value, and the operator or the item's number.
pub fn group_function(
    alloc: Global,
    world: &mut World,
    function: LibraryFunction,
    at: Spot,
    kind: Kind,
    given: &[Given],
) -> Result<Evaluated, AllocError>
    ensures { IfOk result (λ value. (value, world.new) ≡ group_function function at kind given.now world.old) }
{
    match function {
        LibraryFunction::ReduceOverGroup => {
            combined(alloc, world, Form::Reduce, at, kind, given)
        }
        LibraryFunction::ExclusiveScanOverGroup => {
            combined(alloc, world, Form::Exclusive, at, kind, given)
        }
        LibraryFunction::InclusiveScanOverGroup => {
            combined(alloc, world, Form::Inclusive, at, kind, given)
        }
        LibraryFunction::GroupBroadcast => {
            let num = number_as(kind, value_at(given, 1));
            let item = count_of(value_at(given, 2))?;
            broadcast(alloc, world, at, kind, num, item)
        }
        LibraryFunction::Reduction => Ok(Evaluated::Gives(nothing(alloc))),
    }
}
