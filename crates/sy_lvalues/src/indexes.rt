// Objects at an index.

ghost use Rattle.std.specs.Prelude.{◌≡◌, [], ◌∷◌, ◌+◌, ◌*◌, slice_get, IfOk};
ghost use Rattle.sy_meaning.specs.declared.runs.World.{World};
ghost use Rattle.sy_meaning.specs.Locations.{coordinate, device_in, index_accessor, index_into, indexes, thread_in};
ghost use Rattle.sy_meaning.specs.Outcomes.{gives};
ghost use Rattle.sy_meaning.specs.Words.{accessor_extents, accessor_first, accessor_owner, count_of, natural, naturals, of_naturals};

use crate::elements::trapped;
use sqlite_items::at;
use std::alloc::{AllocError, Global};
use sy_access::Values;
use sy_meaning::{Evaluated, World};
use sy_requests::product;
use sy_state::row_values;
use sy_typed::Thing;
use sy_words::{
    accessor_extents, accessor_first, accessor_owner, count_of, device_at, device_count,
    device_words, indexes, natural, naturals, nothing, number, of_naturals, single, unsigned_long,
};
use sy_work::Cause;

fn accessor_object(
    alloc: Global,
    owner: u32,
    first: u64,
    extents: &[u64],
) -> Result<Values, AllocError>
    ensures { IfOk result (λ object. object ≡ of_naturals (owner ∷ first ∷ extents.now)) }
{
    let mut all = vec![in alloc; owner as u64, first]?;
    all.extend_from_slice(extents)?;
    of_naturals(alloc, all.as_slice())
}

fn moved_by(first: u64, index: u64, width: u64) -> Result<u64, AllocError>
    ensures { IfOk result (λ n. n ≡ first + index * width) }
{
    let behind = index.checked_mul(width).ok_or(AllocError)?;
    first.checked_add(behind).ok_or(AllocError)
}

/// An accessor at indexes, each of which takes a dimension off.
pub fn index_accessor(
    alloc: Global,
    line: u32,
    owner: u32,
    first: u64,
    extents: &[u64],
    indexes: &[u64],
) -> Result<Evaluated, AllocError>
    ensures { IfOk result (λ value. (w : World) → (value, w) ≡ index_accessor line owner first extents.now indexes.now w) }
{
    match indexes {
        [] => Ok(Evaluated::Gives(accessor_object(alloc, owner, first, extents)?)),
        [index, more_indexes @ ..] => match extents {
            [] => Ok(Evaluated::Gives(nothing(alloc))),
            [extent, more_extents @ ..] => {
                if *index < *extent {
                    let inner = moved_by(first, *index, product(more_extents)?)?;
                    index_accessor(alloc, line, owner, inner, more_extents, more_indexes)
                } else {
                    Ok(trapped(Cause::Index, line))
                }
            }
        },
    }
}

fn element_in(alloc: Global, object: &[i128], index: u64) -> Result<Evaluated, AllocError>
    ensures { IfOk result (λ value. (w : World) → (value, w) ≡ gives (of_naturals (natural 0 object.now ∷ index ∷ [])) w) }
{
    let v = natural(object, 0)?;
    Ok(Evaluated::Gives(of_naturals(alloc, &[v, index])?))
}

fn thread_in(
    alloc: Global,
    line: u32,
    threads: &[i128],
    index: u64,
) -> Result<Evaluated, AllocError>
    ensures { IfOk result (λ value. (w : World) → (value, w) ≡ thread_in line (slice_get threads.now index) w) }
{
    match at(threads, index as usize) {
        Some(thread) => Ok(Evaluated::Gives(single(alloc, *thread)?)),
        None => Ok(trapped(Cause::Index, line)),
    }
}

fn device_in(alloc: Global, line: u32, object: &[i128], index: u64) -> Result<Evaluated, AllocError>
    ensures { IfOk result (λ value. (w : World) → (value, w) ≡ device_in line object.now index w) }
{
    if index < device_count(object)? {
        let device = device_at(object, index)?;
        Ok(Evaluated::Gives(device_words(alloc, device)?))
    } else {
        Ok(trapped(Cause::Index, line))
    }
}

fn coordinate_of(
    alloc: Global,
    line: u32,
    numbers: &[u64],
    index: u64,
) -> Result<Evaluated, AllocError>
    ensures { IfOk result (λ value. (w : World) → (value, w) ≡ coordinate line (slice_get numbers.now index) w) }
{
    match at(numbers, index as usize) {
        Some(n) => Ok(Evaluated::Gives(unsigned_long(alloc, *n)?)),
        None => Ok(trapped(Cause::Index, line)),
    }
}

fn coordinate(
    alloc: Global,
    line: u32,
    object: &[i128],
    index: &[i128],
) -> Result<Evaluated, AllocError>
    ensures { IfOk result (λ value. (w : World) → (value, w) ≡ coordinate line (slice_get (naturals 0 object.now) (count_of index.now)) w) }
{
    let numbers = naturals(alloc, object, 0)?;
    coordinate_of(alloc, line, numbers.as_slice(), count_of(index)?)
}

fn accessor_at(
    alloc: Global,
    line: u32,
    object: &[i128],
    what: Thing,
    index: &[i128],
) -> Result<Evaluated, AllocError>
    ensures { IfOk result (λ value. (w : World) → (value, w) ≡ index_accessor line (accessor_owner object.now) (accessor_first object.now) (accessor_extents object.now) (indexes what index.now) w) }
{
    let owner = accessor_owner(object)?;
    let first = accessor_first(object)?;
    let extents = accessor_extents(alloc, object)?;
    let indexes = indexes(alloc, what, index)?;
    index_accessor(
        alloc,
        line,
        owner,
        first,
        extents.as_slice(),
        indexes.as_slice(),
    )
}

/// An object of the type `what` at an index of the type `index_type`.
pub fn index_into(
    alloc: Global,
    world: &World,
    line: u32,
    what: Thing,
    index_type: Thing,
    object: &[i128],
    index: &[i128],
) -> Result<Evaluated, AllocError>
    ensures { IfOk result (λ value. (value, world.now) ≡ index_into line what index_type object.now index.now world.now) }
{
    match what {
        Thing::Vector(_) => element_in(alloc, object, count_of(index)?),
        Thing::ThreadVector => {
            let threads = row_values(world, number(object, 0)?);
            thread_in(alloc, line, threads, count_of(index)?)
        }
        Thing::DeviceVector => device_in(alloc, line, object, count_of(index)?),
        Thing::Range(_) => coordinate(alloc, line, object, index),
        Thing::Id(_) => coordinate(alloc, line, object, index),
        Thing::Item(_) => coordinate(alloc, line, object, index),
        _ => accessor_at(alloc, line, object, index_type, index),
    }
}
