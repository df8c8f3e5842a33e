// Ranges whose items are in work-groups, and the position of an item.

ghost use Rattle.std.specs.Prelude.{◌≡◌, length, is_ok, IfOk};
ghost use Rattle.sy_range.specs.NdRanges.{is_nd};

use crate::linear_ids::count;
use crate::ranges::Range;
use thiserror::Error;

/// A global range, and the local range of its work-groups (SYCL 2020, `nd_range` class).
#[derive(Clone, Copy, PartialEq, Eq, Debug)]
pub struct NdRange {
    pub global: Range,
    pub local: Range,
}

/// The two ranges are no ND-range.
#[derive(Clone, Copy, PartialEq, Eq, Debug, Error)]
#[error("the two ranges are no nd-range")]
pub struct BadNd;

/// Where a work item stands.
///
/// `local` is `None` for a plain range and a single task; `item` is the linear id in the whole range.
#[derive(Clone, Copy, PartialEq, Eq, Debug)]
pub struct Position {
    pub global: Range,
    pub local: Option<Range>,
    pub item: u64,
}

/// The most items that a work-group may have.
const GROUP_LIMIT: u64 = 1024;

/// The ND-range of a global and a local range.
///
/// Refused where a local extent is 0 or doesn't divide the global one, or a work-group would have
/// more than 1,024 items.
pub fn nd(global: Range, local: Range) -> Result<NdRange, BadNd>
    requires { length global ≡ length local }
    ensures ok { is_ok result ≡ is_nd global local }
    ensures ranges { IfOk result (λ n. n ≡ record { global = global; local = local }) }
{
    let small = match count(&local) {
        Some(items) => items <= GROUP_LIMIT,
        None => false,
    };
    if global.extents.is_multiple_of(&local.extents) && small {
        Ok(NdRange { global, local })
    } else {
        Err(BadNd)
    }
}
