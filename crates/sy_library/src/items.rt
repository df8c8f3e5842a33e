// Items, nd_items and groups (SYCL 2020, "Multi-dimensional objects and linearization", "nd_item class").

ghost use Rattle.std.specs.Prelude.{◌≡◌, slice_get, IfOk};
ghost use Rattle.sy_meaning.specs.declared.runs.World.{World};
ghost use Rattle.sy_meaning.specs.Library.{global_id, group_id, group_or_coordinate, group_range, item_member, local_id, local_range, one_or_all, position};
ghost use Rattle.sy_meaning.specs.Locations.{coordinate};
ghost use Rattle.sy_meaning.specs.Words.{unsigned_long};
ghost use Rattle.sy_range.specs.LinearIds.{linear_id};

use sqlite_items::at;
use std::alloc::{AllocError, Global};
use sy_access::Values;
use sy_making::{Given, trapped};
use sy_meaning::{Evaluated, World};
use sy_range::Position;
use sy_requests::{
    extents_of, global_id, group_id, group_range, linear_id, local_id, local_range, no_position,
};
use sy_typed::Member;
use sy_words::{count_of, nothing, of_naturals, unsigned_long};
use sy_work::Cause;

/// Where the work item stands; in host code as the only item of a single task.
pub fn position(world: &World) -> Position
    ensures { result ≡ position world.now }
{
    match world.at {
        Some(position) => position,
        None => no_position(),
    }
}

fn coordinate(alloc: Global, line: u32, found: Option<u64>) -> Result<Evaluated, AllocError>
    ensures { IfOk result (λ value. (w : World) → (value, w) ≡ coordinate line found w) }
{
    match found {
        Some(n) => Ok(Evaluated::Gives(unsigned_long(alloc, n)?)),
        None => Ok(trapped(Cause::Index, line)),
    }
}

fn number_at(numbers: &[u64], index: u64) -> Option<u64>
    ensures { result ≡ slice_get numbers.now index }
{
    match at(numbers, index as usize) {
        Some(n) => Some(*n),
        None => None,
    }
}

/// The coordinate that the argument names, or all of them where there is none.
pub fn one_or_all(
    alloc: Global,
    line: u32,
    ids: &[u64],
    given: &[Given],
) -> Result<Evaluated, AllocError>
    ensures { IfOk result (λ value. (w : World) → (value, w) ≡ one_or_all line ids.now given.now w) }
{
    match given {
        [] => Ok(Evaluated::Gives(of_naturals(alloc, ids)?)),
        [first, ..] => {
            let index = count_of(first.object.items())?;
            coordinate(alloc, line, number_at(ids, index))
        }
    }
}

/// The linear id of the item.
fn item_index(alloc: Global, world: &World) -> Result<Values, AllocError>
    ensures { IfOk result (λ object. object ≡ unsigned_long (position world.now).item) }
{
    unsigned_long(alloc, position(world).item)
}

/// The linear id of the item in its work-group.
fn local_index(alloc: Global, world: &World) -> Result<Values, AllocError>
    ensures { IfOk result (λ object. object ≡ unsigned_long (linear_id (local_id (position world.now)) (local_range (position world.now)))) }
{
    let position = position(world);
    let ids = local_id(alloc, &position)?;
    let extents = extents_of(alloc, &local_range(&position))?;
    unsigned_long(alloc, linear_id(ids.as_slice(), extents.as_slice())?)
}

/// The linear id of the item's work-group.
fn group_index(alloc: Global, world: &World) -> Result<Values, AllocError>
    ensures { IfOk result (λ object. object ≡ unsigned_long (linear_id (group_id (position world.now)) (group_range (position world.now)))) }
{
    let position = position(world);
    let ids = group_id(alloc, &position)?;
    let extents = group_range(alloc, &position)?;
    unsigned_long(alloc, linear_id(ids.as_slice(), extents.as_slice())?)
}

fn global_ids(
    alloc: Global,
    world: &World,
    line: u32,
    given: &[Given],
) -> Result<Evaluated, AllocError>
    ensures { IfOk result (λ value. (value, world.now) ≡ one_or_all line (global_id (position world.now)) given.now world.now) }
{
    let ids = global_id(alloc, &position(world))?;
    one_or_all(alloc, line, ids.as_slice(), given)
}

fn local_ids(
    alloc: Global,
    world: &World,
    line: u32,
    given: &[Given],
) -> Result<Evaluated, AllocError>
    ensures { IfOk result (λ value. (value, world.now) ≡ one_or_all line (local_id (position world.now)) given.now world.now) }
{
    let ids = local_id(alloc, &position(world))?;
    one_or_all(alloc, line, ids.as_slice(), given)
}

fn global_extents(
    alloc: Global,
    world: &World,
    line: u32,
    given: &[Given],
) -> Result<Evaluated, AllocError>
    ensures { IfOk result (λ value. (value, world.now) ≡ one_or_all line (position world.now).global given.now world.now) }
{
    let extents = extents_of(alloc, &position(world).global)?;
    one_or_all(alloc, line, extents.as_slice(), given)
}

fn local_extents(
    alloc: Global,
    world: &World,
    line: u32,
    given: &[Given],
) -> Result<Evaluated, AllocError>
    ensures { IfOk result (λ value. (value, world.now) ≡ one_or_all line (local_range (position world.now)) given.now world.now) }
{
    let extents = extents_of(alloc, &local_range(&position(world)))?;
    one_or_all(alloc, line, extents.as_slice(), given)
}

fn group_extents(
    alloc: Global,
    world: &World,
    line: u32,
    given: &[Given],
) -> Result<Evaluated, AllocError>
    ensures { IfOk result (λ value. (value, world.now) ≡ one_or_all line (group_range (position world.now)) given.now world.now) }
{
    let extents = group_range(alloc, &position(world))?;
    one_or_all(alloc, line, extents.as_slice(), given)
}

/// The group, which stands for itself, or a coordinate of it.
fn group_or_coordinate(
    alloc: Global,
    world: &World,
    line: u32,
    given: &[Given],
) -> Result<Evaluated, AllocError>
    ensures { IfOk result (λ value. (value, world.now) ≡ group_or_coordinate line given.now world.now) }
{
    match given {
        [] => Ok(Evaluated::Gives(nothing(alloc))),
        [first, ..] => {
            let index = count_of(first.object.items())?;
            let ids = group_id(alloc, &position(world))?;
            coordinate(alloc, line, number_at(ids.as_slice(), index))
        }
    }
}

/// A member of an item, an nd_item or a group, with its arguments.
pub fn item_member(
    alloc: Global,
    world: &World,
    member: Member,
    line: u32,
    given: &[Given],
) -> Result<Evaluated, AllocError>
    ensures { IfOk result (λ value. (value, world.now) ≡ item_member member line given.now world.now) }
{
    match member {
        Member::GetId => global_ids(alloc, world, line, given),
        Member::GetGlobalId => global_ids(alloc, world, line, given),
        Member::GetLocalId => local_ids(alloc, world, line, given),
        Member::GetGlobalRange => global_extents(alloc, world, line, given),
        Member::GetLocalRange => local_extents(alloc, world, line, given),
        Member::GetGroupRange => group_extents(alloc, world, line, given),
        Member::GetGroup => group_or_coordinate(alloc, world, line, given),
        Member::GetLinearId => Ok(Evaluated::Gives(item_index(alloc, world)?)),
        Member::GetGlobalLinearId => Ok(Evaluated::Gives(item_index(alloc, world)?)),
        Member::GetLocalLinearId => Ok(Evaluated::Gives(local_index(alloc, world)?)),
        Member::GetGroupLinearId => Ok(Evaluated::Gives(group_index(alloc, world)?)),
        _ => Ok(Evaluated::Gives(nothing(alloc))),
    }
}
