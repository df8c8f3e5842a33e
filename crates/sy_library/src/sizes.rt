// How many elements objects have, and their ranges.

ghost use Rattle.std.specs.Prelude.{◌≡◌, IfOk};
ghost use Rattle.sy_meaning.specs.Library.{range_of, size_of};

use crate::items::position;
use std::alloc::{AllocError, Global};
use sy_meaning::World;
use sy_requests::product;
use sy_state::row_values;
use sy_typed::Thing;
use sy_words::{device_count, extents_of, number};

/// How many elements an object has.
pub fn size_of(
    alloc: Global,
    world: &World,
    what: Thing,
    object: &[i128],
) -> Result<u64, AllocError>
    ensures { IfOk result (λ n. n ≡ size_of what object.now world.now) }
{
    match what {
        Thing::Vector(_) => Ok(row_values(world, number(object, 0)?).len() as u64),
        Thing::ThreadVector => Ok(row_values(world, number(object, 0)?).len() as u64),
        Thing::DeviceVector => device_count(object),
        _ => product(extents_of(alloc, what, object)?.as_slice()),
    }
}

/// The extents of an object; an item has those of its kernel.
pub fn range_of_object(
    alloc: Global,
    world: &World,
    what: Thing,
    object: &[i128],
) -> Result<Vec<u64>, AllocError>
    ensures { IfOk result (λ extents. extents.items ≡ range_of what object.now world.now) }
{
    match what {
        Thing::Item(_) => sy_requests::extents_of(alloc, &position(world).global),
        _ => extents_of(alloc, what, object),
    }
}
