// Where a work item stands (SYCL 2020, "Multi-dimensional objects and linearization", "nd_item class").

ghost use Rattle.std.specs.Prelude.{◌≡◌, IfOk};
ghost use Rattle.sy_meaning.specs.Library.{no_position, local_range, coordinates, global_id, local_id, group_id, group_range};

use crate::extents::{Pairing, both, extents_of, product, quotient, remainder};
use std::alloc::{AllocError, Global};
use sy_range::{Position, Range};

/// The position of the only item of a single task.
pub fn no_position() -> Position
    ensures { result ≡ no_position }
{
    Position {
        global: Range::new(&[1]),
        local: None,
        item: 0,
    }
}

/// The range of the item's work-group; that of the kernel where it has none.
pub fn local_range(position: &Position) -> Range
    ensures { result ≡ local_range position.now }
{
    match position.local {
        Some(range) => range,
        None => position.global,
    }
}

/// The coordinates of the item with this linear id.
pub fn coordinates(alloc: Global, item: u64, extents: &[u64]) -> Result<Vec<u64>, AllocError>
    ensures { IfOk result (λ ids. ids.items ≡ coordinates item extents.now) }
{
    let mut ids = Vec::new(alloc);
    let mut left = item;
    let mut rest = extents;
    while let [_, others @ ..] = rest {
        let step = product(others)?;
        ids.push(quotient(left, step))?;
        left = remainder(left, step);
        rest = others;
    }
    Ok(ids)
}

pub fn global_id(alloc: Global, position: &Position) -> Result<Vec<u64>, AllocError>
    ensures { IfOk result (λ ids. ids.items ≡ global_id position.now) }
{
    let global = extents_of(alloc, &position.global)?;
    coordinates(alloc, position.item, global.as_slice())
}

fn local_extents(alloc: Global, position: &Position) -> Result<Vec<u64>, AllocError>
    ensures { IfOk result (λ extents. extents.items ≡ local_range position.now) }
{
    let range = local_range(position);
    extents_of(alloc, &range)
}

/// The coordinates within the work-group.
pub fn local_id(alloc: Global, position: &Position) -> Result<Vec<u64>, AllocError>
    ensures { IfOk result (λ ids. ids.items ≡ local_id position.now) }
{
    let ids = global_id(alloc, position)?;
    let local = local_extents(alloc, position)?;
    both(alloc, Pairing::Remainder, ids.as_slice(), local.as_slice())
}

/// The coordinates of the work-group.
pub fn group_id(alloc: Global, position: &Position) -> Result<Vec<u64>, AllocError>
    ensures { IfOk result (λ ids. ids.items ≡ group_id position.now) }
{
    let ids = global_id(alloc, position)?;
    let local = local_extents(alloc, position)?;
    both(alloc, Pairing::Quotient, ids.as_slice(), local.as_slice())
}

/// How many work-groups there are in each dimension.
pub fn group_range(alloc: Global, position: &Position) -> Result<Vec<u64>, AllocError>
    ensures { IfOk result (λ extents. extents.items ≡ group_range position.now) }
{
    let global = extents_of(alloc, &position.global)?;
    let local = local_extents(alloc, position)?;
    both(
        alloc,
        Pairing::Quotient,
        global.as_slice(),
        local.as_slice(),
    )
}
