// The end of the innermost scope.

ghost use Rattle.std.specs.Prelude.{◌≡◌, IfOk};
ghost use Rattle.sy_meaning.specs.Ends.{end_scope};

use crate::objects::end_one;
use std::alloc::{AllocError, Global};
use sy_meaning::World;
use sy_state::next_living;
use sy_work::Ask;

/// Ends what lives in the innermost scope, the last made first, and leaves it; answers the ask by which the run stops
/// there, if it does.
pub fn end_scope(alloc: Global, world: &mut World, line: u32) -> Result<Option<Ask>, AllocError>
    ensures { IfOk result (λ end. (end, world.new) ≡ end_scope line world.old) }
{
    while let Some(object) = next_living(alloc, world)? {
        if let Some(asked) = end_one(alloc, world, line, object)? {
            return Ok(Some(asked));
        }
    }
    Ok(None)
}
