// Reductions (SYCL 2020, "Reduction variables").

ghost use Rattle.std.specs.Prelude.{◌≡◌, ◌==◌, ◌||◌, ◌∷◌, not, pos, IfOk};
ghost use Rattle.sy_meaning.specs.Lambdas.{has_accessor, make_reduction, need_of_reduction, reduced_by};
ghost use Rattle.sy_meaning.specs.Words.{buffer_extents, truth_of};
ghost use Rattle.sy_range.specs.LinearIds.{product};

use std::alloc::{AllocError, Global};
use sy_access::{Mode, Need, Values};
use sy_making::{Given, has_identity_tag, need_of, value_at};
use sy_meaning::{Evaluated, Group, World};
use sy_requests::{add_reduction, has_need_on, is_reduced, need_index, product};
use sy_state::{put_group, take_group, throws};
use sy_words::{buffer_extents, buffer_root, truth};
use sy_work::Errc;

/// The need of a reduction on a buffer, which is read where its former value takes part.
pub fn need_of_reduction(alloc: Global, buffer: &[i128], keep: bool) -> Result<Need, AllocError>
    ensures { IfOk result (λ need. need ≡ need_of_reduction buffer.now keep) }
{
    let mode = if keep { Mode::ReadWrite } else { Mode::Write };
    need_of(alloc, buffer, mode, !keep)
}

/// Whether an accessor of the group is on the buffer's root. A need that is a reduction's is none.
pub fn has_accessor(buffer: &[i128], world: &World) -> Result<bool, AllocError>
    ensures { IfOk result (λ has. has ≡ has_accessor buffer.now world.now) }
{
    let root = buffer_root(buffer)?;
    match &world.group {
        Some(group) => Ok(has_need_on(root, group) && !is_reduced(root, group)),
        None => Ok(false),
    }
}

fn reduction_object(alloc: Global, index: usize, keep: bool) -> Result<Values, AllocError>
    ensures { IfOk result (λ object. object ≡ pos index ∷ truth_of keep) }
{
    let words = vec![in alloc; index as i128, truth(keep).num]?;
    Ok(Values::of(words))
}

/// Adds a reduction with this need to the group, and gives it.
pub fn reduced_by(
    alloc: Global,
    world: &mut World,
    need: &Need,
    keep: bool,
) -> Result<Evaluated, AllocError>
    ensures { IfOk result (λ value. (value, world.new) ≡ reduced_by need.now keep world.old) }
{
    let group = add_reduction(alloc, need, take_group(alloc, world))?;
    let index = need_index(need, group.needs.items());
    put_group(world, group);
    Ok(Evaluated::Gives(reduction_object(alloc, index, keep)?))
}

fn is_no_variable(alloc: Global, buffer: &[i128], world: &World) -> Result<bool, AllocError>
    ensures { IfOk result (λ b. b ≡ (not (product (buffer_extents buffer.now) == 1) || has_accessor buffer.now world.now)) }
{
    let extents = buffer_extents(alloc, buffer)?;
    if product(extents.as_slice())? != 1 {
        return Ok(true);
    }
    has_accessor(buffer, world)
}

/// A reduction on a buffer of one element; an error where an accessor of the group is on its root.
pub fn make_reduction(
    alloc: Global,
    world: &mut World,
    line: u32,
    given: &[Given],
) -> Result<Evaluated, AllocError>
    ensures { IfOk result (λ value. (value, world.new) ≡ make_reduction line given.now world.old) }
{
    let buffer = value_at(given, 0);
    if is_no_variable(alloc, buffer, world)? {
        return Ok(throws(world, Errc::Invalid, line));
    }
    let keep = !has_identity_tag(given);
    let need = need_of_reduction(alloc, buffer, keep)?;
    reduced_by(alloc, world, &need, keep)
}
