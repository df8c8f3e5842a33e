// Members of objects of the library, with their arguments.

ghost use Rattle.std.specs.Prelude.{◌≡◌, IfOk};
ghost use Rattle.sy_meaning.specs.Library.{device_of, library_member, one_or_all, partitioned, push_back, range_of, size_of};
ghost use Rattle.sy_meaning.specs.Making.{value_at};
ghost use Rattle.sy_meaning.specs.Words.{count_of, extents_of, kind_in, natural, unsigned_long};
ghost use Rattle.sy_meaning.specs.declared.runs.World.{World};

use crate::devices::{compute_units, device_of, get_device, partitioned};
use crate::items::{item_member, one_or_all};
use crate::sizes::{range_of_object, size_of};
use crate::vectors::push_back;
use crate::waits::{join, wait, wait_and_throw};
use std::alloc::{AllocError, Global};
use sy_access::Values;
use sy_making::{Given, value_at};
use sy_meaning::{Evaluated, World};
use sy_typed::{Member, Thing};
use sy_words::{copy_of, count_of, extents_of, kind_in, number, unsigned_long};

fn create_sub_devices(
    alloc: Global,
    world: &mut World,
    line: u32,
    what: Thing,
    object: &[i128],
    given: &[Given],
) -> Result<Evaluated, AllocError>
    ensures { IfOk result (λ value. (value, world.new) ≡ partitioned line (device_of what object.now) (count_of (value_at 0 given.now)) world.old) }
{
    let device = device_of(what, object)?;
    partitioned(alloc, world, line, device, count_of(value_at(given, 0))?)
}

fn get_range(
    alloc: Global,
    world: &World,
    line: u32,
    what: Thing,
    object: &[i128],
    given: &[Given],
) -> Result<Evaluated, AllocError>
    ensures { IfOk result (λ value. (value, world.now) ≡ one_or_all line (range_of what object.now world.now) given.now world.now) }
{
    let extents = range_of_object(alloc, world, what, object)?;
    one_or_all(alloc, line, extents.as_slice(), given)
}

fn push_back_to(
    alloc: Global,
    world: &mut World,
    line: u32,
    what: Thing,
    object: &[i128],
    given: &[Given],
) -> Result<Evaluated, AllocError>
    ensures { IfOk result (λ value. (value, world.new) ≡ push_back line (kind_in what) (natural 0 object.now) (value_at 0 given.now) world.old) }
{
    let v = number(object, 0)?;
    push_back(alloc, world, line, kind_in(what), v, value_at(given, 0))
}

fn get(
    alloc: Global,
    line: u32,
    what: Thing,
    object: &[i128],
    given: &[Given],
) -> Result<Evaluated, AllocError>
    ensures { IfOk result (λ value. (w : World) → (value, w) ≡ one_or_all line (extents_of what object.now) given.now w) }
{
    let extents = extents_of(alloc, what, object)?;
    one_or_all(alloc, line, extents.as_slice(), given)
}

fn size(alloc: Global, world: &World, what: Thing, object: &[i128]) -> Result<Values, AllocError>
    ensures { IfOk result (λ made. made ≡ unsigned_long (size_of what object.now world.now)) }
{
    unsigned_long(alloc, size_of(alloc, world, what, object)?)
}

/// A member that takes no lambda, of an object of the type `what`, with its arguments.
pub fn library_member(
    alloc: Global,
    world: &mut World,
    member: Member,
    line: u32,
    what: Thing,
    object: &[i128],
    given: &[Given],
) -> Result<Evaluated, AllocError>
    ensures { IfOk result (λ value. (value, world.new) ≡ library_member member line what object.now given.now world.old) }
{
    match member {
        Member::Wait => wait(alloc, world, line, what, object),
        Member::WaitAndThrow => wait_and_throw(alloc, world, line, object),
        Member::GetDevice => Ok(Evaluated::Gives(get_device(alloc, what, object)?)),
        Member::CreateSubDevices => create_sub_devices(alloc, world, line, what, object, given),
        Member::MaxComputeUnits => { Ok(Evaluated::Gives(compute_units(alloc, what, object)?)) }
        Member::GetRange => get_range(alloc, world, line, what, object, given),
        Member::Size => Ok(Evaluated::Gives(size(alloc, world, what, object)?)),
        Member::PushBack => push_back_to(alloc, world, line, what, object, given),
        Member::Data => Ok(Evaluated::Gives(copy_of(alloc, object)?)),
        Member::Join => join(alloc, world, line, number(object, 0)?),
        Member::Code => Ok(Evaluated::Gives(copy_of(alloc, object)?)),
        Member::Get => get(alloc, line, what, object, given),
        _ => item_member(alloc, world, member, line, given),
    }
}
