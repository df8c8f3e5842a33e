// The extents of ranges, buffers and accessors, and the coordinates of ids.

ghost use Rattle.std.specs.Prelude.{◌≡◌, [], ◌∷◌, IfOk};
ghost use Rattle.sy_meaning.specs.Words.{buffer_extents, accessor_extents, global_extents, local_extents, extents_of};
ghost use Rattle.sy_meaning.specs.Locations.{indexes};
ghost use Rattle.sy_meaning.specs.Making.{range_in};

use crate::objects::{count_of, naturals};
use std::alloc::{AllocError, Global};
use sy_typed::Thing;

pub fn buffer_extents(alloc: Global, object: &[i128]) -> Result<Vec<u64>, AllocError>
    ensures { IfOk result (λ extents. extents.items ≡ buffer_extents object.now) }
{
    naturals(alloc, object, 3)
}

/// The extents that an accessor has left.
pub fn accessor_extents(alloc: Global, object: &[i128]) -> Result<Vec<u64>, AllocError>
    ensures { IfOk result (λ extents. extents.items ≡ accessor_extents object.now) }
{
    naturals(alloc, object, 2)
}

/// The extents of an nd_range's global range.
pub fn global_extents(alloc: Global, what: Thing, object: &[i128]) -> Result<Vec<u64>, AllocError>
    ensures { IfOk result (λ extents. extents.items ≡ global_extents what object.now) }
{
    match what {
        Thing::NdRange(d) => {
            let mut all = naturals(alloc, object, 0)?;
            all.truncate(d.count() as usize);
            Ok(all)
        }
        _ => naturals(alloc, object, 0),
    }
}

/// The extents of an nd_range's local range.
pub fn local_extents(alloc: Global, what: Thing, object: &[i128]) -> Result<Vec<u64>, AllocError>
    ensures { IfOk result (λ extents. extents.items ≡ local_extents what object.now) }
{
    match what {
        Thing::NdRange(d) => naturals(alloc, object, d.count() as usize),
        _ => naturals(alloc, object, 0),
    }
}

/// The extents of a range or buffer, those that an accessor has left, or the coordinates of an id.
pub fn extents_of(alloc: Global, what: Thing, object: &[i128]) -> Result<Vec<u64>, AllocError>
    ensures { IfOk result (λ extents. extents.items ≡ extents_of what object.now) }
{
    match what {
        Thing::Range(_) => naturals(alloc, object, 0),
        Thing::Id(_) => naturals(alloc, object, 0),
        Thing::Item(_) => naturals(alloc, object, 0),
        Thing::Buffer(_, _) => buffer_extents(alloc, object),
        _ => accessor_extents(alloc, object),
    }
}

fn only(alloc: Global, n: u64) -> Result<Vec<u64>, AllocError>
    ensures { IfOk result (λ ns. ns.items ≡ n ∷ []) }
{
    Ok(vec![in alloc; n]?)
}

/// The indexes that an object of the type gives: an id or item has all its coordinates.
pub fn indexes(alloc: Global, what: Thing, object: &[i128]) -> Result<Vec<u64>, AllocError>
    ensures { IfOk result (λ ns. ns.items ≡ indexes what object.now) }
{
    match what {
        Thing::Id(_) => naturals(alloc, object, 0),
        Thing::Item(_) => naturals(alloc, object, 0),
        _ => only(alloc, count_of(object)?),
    }
}

/// The extents that a range argument says: those of a range or of values in braces, or one integer.
pub fn range_in(alloc: Global, what: Thing, object: &[i128]) -> Result<Vec<u64>, AllocError>
    ensures { IfOk result (λ extents. extents.items ≡ range_in what object.now) }
{
    match what {
        Thing::Integer(_) => only(alloc, count_of(object)?),
        _ => naturals(alloc, object, 0),
    }
}
