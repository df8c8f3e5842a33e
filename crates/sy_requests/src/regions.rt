// Regions of buffers (SYCL 2020, "Buffers"), and ranges in work-groups.

ghost use Rattle.std.specs.Prelude.{◌≡◌, ◌+◌, not, nat_lt, IfOk};
ghost use Rattle.sy_range.specs.NdRanges.{is_nd};
ghost use Rattle.sy_meaning.specs.Making.{fit_in, last_id, is_contiguous, first_of_region};

use crate::extents::{Pairing, both, divides, linear_id, plus, product};
use std::alloc::{AllocError, Global};

fn ends_within(base: u64, range: u64, extent: u64) -> bool
    ensures { result ≡ not (nat_lt extent (base + range)) }
{
    match base.checked_add(range) {
        Some(end) => end <= extent,
        None => false,
    }
}

/// Whether base and range together pass no extent.
pub fn fit_in(base: &[u64], ranges: &[u64], extents: &[u64]) -> bool
    ensures { result ≡ fit_in base.now ranges.now extents.now }
{
    match base {
        [] => true,
        [first, more_base @ ..] => match ranges {
            [] => true,
            [range, more_ranges @ ..] => match extents {
                [] => true,
                [extent, more_extents @ ..] => {
                    ends_within(*first, *range, *extent)
                        && fit_in(more_base, more_ranges, more_extents)
                }
            },
        },
    }
}

fn last_id(alloc: Global, base: &[u64], ranges: &[u64]) -> Result<Vec<u64>, AllocError>
    ensures { IfOk result (λ ids. ids.items ≡ last_id base.now ranges.now) }
{
    both(alloc, Pairing::Last, base, ranges)
}

/// Whether the linear ids of a region of so many elements in each dimension are consecutive.
pub fn is_contiguous(
    alloc: Global,
    base: &[u64],
    ranges: &[u64],
    parent: &[u64],
) -> Result<bool, AllocError>
    ensures { IfOk result (λ b. b ≡ is_contiguous base.now ranges.now parent.now) }
{
    let count = product(ranges)?;
    if count == 0 {
        return Ok(true);
    }
    let last = last_id(alloc, base, ranges)?;
    let end = plus(linear_id(last.as_slice(), parent)?, 1)?;
    let wanted = plus(linear_id(base, parent)?, count)?;
    Ok(end == wanted)
}

/// The linear id of a region's first element; 0 where the region is empty.
pub fn first_of_region(base: &[u64], ranges: &[u64], parent: &[u64]) -> Result<u64, AllocError>
    ensures { IfOk result (λ n. n ≡ first_of_region base.now ranges.now parent.now) }
{
    if product(ranges)? == 0 {
        return Ok(0);
    }
    linear_id(base, parent)
}

/// The most items that a work-group may have.
const GROUP_LIMIT: u64 = 1024;

/// Whether a global and a local range are an nd_range.
pub fn is_nd(global: &[u64], local: &[u64]) -> Result<bool, AllocError>
    ensures { IfOk result (λ b. b ≡ is_nd global.now local.now) }
{
    if !divides(local, global) {
        return Ok(false);
    }
    let count = product(local)?;
    Ok(count <= GROUP_LIMIT)
}
