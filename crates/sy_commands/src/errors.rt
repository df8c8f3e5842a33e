// What the members of a handler refuse (SYCL 2020, "handler class").

ghost use Rattle.std.specs.Prelude.{◌≡◌, ◌||◌, not, nat_lt, IfOk};
ghost use Rattle.sy_commands.specs.Closures.{lambda_of};
ghost use Rattle.sy_meaning.specs.Lambdas.{commanded, is_second, item_limit, nd_error, plain_error, range_error, task_error};
ghost use Rattle.sy_range.specs.LinearIds.{product};
ghost use Rattle.sy_range.specs.NdRanges.{is_nd};

use crate::closures::{Closure, uses_local};
use std::alloc::{AllocError, Global};
use sy_meaning::{Evaluated, World};
use sy_range::count;
use sy_requests::{is_nd, range_of, with_command};
use sy_state::{put_group, take_group, throws};
use sy_typed::Thing;
use sy_words::{global_extents, local_extents, naturals, nothing};
use sy_work::{Command, Errc};

/// The most items that a kernel may have.
const ITEM_LIMIT: u64 = 1048576;

/// Throws the error, if there is one; else the group has the command.
pub fn commanded(
    alloc: Global,
    world: &mut World,
    line: u32,
    error: Option<Errc>,
    command: Command,
) -> Evaluated
    ensures { (result, world.new) ≡ commanded line error command world.old }
{
    match error {
        Some(error) => throws(world, error, line),
        None => {
            let group = take_group(alloc, world);
            put_group(world, with_command(command, group));
            Evaluated::Gives(nothing(alloc))
        }
    }
}

/// Whether the command group has a command already.
pub fn is_second(world: &World) -> bool
    ensures { result ≡ is_second world.now }
{
    match &world.group {
        Some(group) => group.command.is_some(),
        None => false,
    }
}

/// Why there is no single task of the lambda.
pub fn task_error(lambda: &Closure, world: &World) -> Option<Errc>
    ensures { result ≡ task_error (lambda_of lambda.now) world.now }
{
    if is_second(world) {
        return Some(Errc::Invalid);
    }
    if uses_local(lambda) {
        return Some(Errc::KernelArgument);
    }
    None
}

fn has_too_many_items(extents: &[u64]) -> Result<bool, AllocError>
    ensures { IfOk result (λ b. b ≡ nat_lt item_limit (product extents.now)) }
{
    match count(&range_of(extents)?) {
        Some(items) => Ok(items > ITEM_LIMIT),
        None => Ok(true),
    }
}

/// Why there is no kernel of the lambda over a range of these extents.
pub fn plain_error(
    extents: &[u64],
    lambda: &Closure,
    world: &World,
) -> Result<Option<Errc>, AllocError>
    ensures { IfOk result (λ error. error ≡ plain_error extents.now (lambda_of lambda.now) world.now) }
{
    if is_second(world) {
        return Ok(Some(Errc::Invalid));
    }
    if has_too_many_items(extents)? {
        return Ok(Some(Errc::NdRange));
    }
    if uses_local(lambda) {
        return Ok(Some(Errc::KernelArgument));
    }
    Ok(None)
}

fn is_no_nd_range(global: &[u64], local: &[u64]) -> Result<bool, AllocError>
    ensures { IfOk result (λ b. b ≡ (not (is_nd global.now local.now) || nat_lt item_limit (product global.now))) }
{
    if has_too_many_items(global)? {
        return Ok(true);
    }
    Ok(!is_nd(global, local)?)
}

/// Why there is no kernel over these two ranges.
pub fn nd_error(global: &[u64], local: &[u64], world: &World) -> Result<Option<Errc>, AllocError>
    ensures { IfOk result (λ error. error ≡ nd_error global.now local.now world.now) }
{
    if is_second(world) {
        return Ok(Some(Errc::Invalid));
    }
    if is_no_nd_range(global, local)? {
        return Ok(Some(Errc::NdRange));
    }
    Ok(None)
}

/// Why there is no kernel of the lambda over a range or nd_range.
pub fn range_error(
    alloc: Global,
    what: Thing,
    object: &[i128],
    lambda: &Closure,
    world: &World,
) -> Result<Option<Errc>, AllocError>
    ensures { IfOk result (λ error. error ≡ range_error what object.now (lambda_of lambda.now) world.now) }
{
    match what {
        Thing::NdRange(_) => {
            let global = global_extents(alloc, what, object)?;
            let local = local_extents(alloc, what, object)?;
            nd_error(global.as_slice(), local.as_slice(), world)
        }
        _ => plain_error(naturals(alloc, object, 0)?.as_slice(), lambda, world),
    }
}
