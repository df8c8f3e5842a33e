// Kernels over a range, and those with a reduction (SYCL 2020, "Invoking kernels").

ghost use Rattle.std.specs.Prelude.{◌≡◌, IfOk};
ghost use Rattle.sy_commands.specs.Closures.{lambda_of};
ghost use Rattle.sy_meaning.specs.Frame.{group_of};
ghost use Rattle.sy_meaning.specs.Lambdas.{given_at, is_plain, kernel, over_range, parallel_for, ranged, reduce, single_task};
ghost use Rattle.sy_meaning.specs.Making.{type_at, value_at};
ghost use Rattle.sy_meaning.specs.Words.{global_extents, local_extents};

use crate::closures::{Closure, all_words};
use crate::errors::{commanded, range_error, task_error};
use std::alloc::{AllocError, Global};
use sy_access::{Sizes, Values};
use sy_making::{Given, type_at, value_at};
use sy_meaning::{Evaluated, World};
use sy_num::Kind;
use sy_range::NdRange;
use sy_requests::{operator_of, range_of};
use sy_tree::FunctionObject;
use sy_typed::Thing;
use sy_words::{global_extents, local_extents, naturals, reduction_index, reduction_keeps};
use sy_work::{Command, Kernel, Reduction};

fn locals_of(alloc: Global, world: &World) -> Result<Sizes, AllocError>
    ensures { IfOk result (λ locals. locals ≡ (group_of world.now).locals) }
{
    match &world.group {
        Some(group) => group.locals.copy(alloc),
        None => Ok(Sizes::of(Vec::new(alloc))),
    }
}

/// The kernel of a lambda that was given these objects; each of its items may take `limit` turns.
pub fn kernel(
    alloc: Global,
    limit: u64,
    lambda: &Closure,
    objects: &[Values],
    world: &World,
) -> Result<Kernel, AllocError>
    ensures { IfOk result (λ made. made ≡ kernel limit (lambda_of lambda.now) objects.now world.now) }
{
    let captures = all_words(alloc, objects)?;
    let locals = locals_of(alloc, world)?;
    Ok(Kernel {
        code: lambda.number,
        captures,
        locals,
        turns: limit,
    })
}

fn both_ranges(alloc: Global, what: Thing, object: &[i128]) -> Result<NdRange, AllocError>
    ensures { IfOk result (λ range. range ≡ record { global = global_extents what object.now; local = local_extents what object.now }) }
{
    let global = global_extents(alloc, what, object)?;
    let local = local_extents(alloc, what, object)?;
    Ok(NdRange {
        global: range_of(global.as_slice())?,
        local: range_of(local.as_slice())?,
    })
}

/// The command of a kernel over a range or nd_range.
pub fn over_range(
    alloc: Global,
    what: Thing,
    object: &[i128],
    kernel: Kernel,
) -> Result<Command, AllocError>
    ensures { IfOk result (λ command. command ≡ over_range what object.now kernel) }
{
    match what {
        Thing::NdRange(_) => Ok(Command::Nd(both_ranges(alloc, what, object)?, kernel)),
        _ => {
            let extents = naturals(alloc, object, 0)?;
            Ok(Command::Plain(range_of(extents.as_slice())?, kernel))
        }
    }
}

/// A kernel that is run once, as the command of the group.
pub fn single_task(
    alloc: Global,
    world: &mut World,
    limit: u64,
    line: u32,
    lambda: &Closure,
    objects: &[Values],
) -> Result<Evaluated, AllocError>
    ensures { IfOk result (λ value. (value, world.new) ≡ single_task limit line (lambda_of lambda.now) objects.now world.old) }
{
    let error = task_error(lambda, world);
    let kernel = kernel(alloc, limit, lambda, objects, world)?;
    Ok(commanded(alloc, world, line, error, Command::Single(kernel)))
}

fn is_plain(what: Thing) -> bool
    ensures { result ≡ is_plain what }
{
    match what {
        Thing::NdRange(_) => false,
        _ => true,
    }
}

/// The command of a kernel over the first argument, with the reduction that is the second.
fn reduce(
    alloc: Global,
    line: u32,
    given: &[Given],
    function: FunctionObject,
    kind: Kind,
    kernel: Kernel,
) -> Result<Command, AllocError>
    ensures { IfOk result (λ command. command ≡ reduce line (type_at 0 given.now) (value_at 0 given.now) function kind (value_at 1 given.now) kernel) }
{
    let what = type_at(given, 0);
    let range = both_ranges(alloc, what, value_at(given, 0))?;
    let reduction = value_at(given, 1);
    Ok(Command::Reduce(Reduction {
        range,
        plain: is_plain(what),
        kernel,
        need: reduction_index(reduction)?,
        op: operator_of(function),
        kind,
        keep: reduction_keeps(reduction),
        line,
    }))
}

/// The command of a kernel over the first argument, with a reduction where the second is one.
pub fn ranged(
    alloc: Global,
    line: u32,
    given: &[Given],
    kernel: Kernel,
) -> Result<Command, AllocError>
    ensures { IfOk result (λ command. command ≡ ranged line (given_at 0 given.now) (given_at 1 given.now) kernel) }
{
    match type_at(given, 1) {
        Thing::Reduction(kind, function) => reduce(alloc, line, given, function, kind, kernel),
        _ => over_range(alloc, type_at(given, 0), value_at(given, 0), kernel),
    }
}

/// A kernel over a range or nd_range, as the command of the group; the arguments are those before the lambda.
pub fn parallel_for(
    alloc: Global,
    world: &mut World,
    limit: u64,
    line: u32,
    lambda: &Closure,
    given: &[Given],
    objects: &[Values],
) -> Result<Evaluated, AllocError>
    ensures { IfOk result (λ value. (value, world.new) ≡ parallel_for limit line (lambda_of lambda.now) given.now objects.now world.old) }
{
    let error = range_error(alloc, type_at(given, 0), value_at(given, 0), lambda, world)?;
    let kernel = kernel(alloc, limit, lambda, objects, world)?;
    let command = ranged(alloc, line, given, kernel)?;
    Ok(commanded(alloc, world, line, error, command))
}
