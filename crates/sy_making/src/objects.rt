// An object of a type, made of arguments, and what is ended of it.

ghost use Rattle.std.specs.Prelude.{◌≡◌, ◌++◌, IfOk, OnOk};
ghost use Rattle.sy_meaning.specs.Making.{counts_in, device_or_whole, has_end, kept, live_of, make, make_nd_range, make_shape, make_temporary, range_at, type_at, value_at};
ghost use Rattle.sy_meaning.specs.Words.{device_words, of_naturals};

use crate::accessors::{make_accessor, make_host, make_local};
use crate::arguments::{
    Given, counts_in, has_in_order_tag, has_no_init_tag, range_at, type_at, value_at,
};
use crate::buffers::make_buffer;
use crate::queues::{device_or_whole, make_context, make_queue};
use std::alloc::{AllocError, Global};
use sy_access::Values;
use sy_meaning::{Evaluated, Live, World};
use sy_state::lives;
use sy_typed::Thing;
use sy_words::{accessor_owner, buffer_number, copy_of, device_words, number, of_naturals};

fn counted_shape(alloc: Global, given: &[Given]) -> Result<Values, AllocError>
    ensures { IfOk result (λ object. object ≡ of_naturals (counts_in given.now)) }
{
    let counts = counts_in(alloc, given)?;
    of_naturals(alloc, counts.as_slice())
}

fn make_shape(alloc: Global, given: &[Given]) -> Result<Values, AllocError>
    ensures { IfOk result (λ object. object ≡ make_shape given.now) }
{
    match given {
        [only] => match only.what {
            Thing::Range(_) => copy_of(alloc, only.object.items()),
            Thing::Id(_) => copy_of(alloc, only.object.items()),
            _ => counted_shape(alloc, given),
        },
        _ => counted_shape(alloc, given),
    }
}

/// The words of a global and of a local range.
fn paired_ranges(alloc: Global, given: &[Given]) -> Result<Values, AllocError>
    ensures { IfOk result (λ object. object ≡ of_naturals (range_at 0 given.now ++ range_at 1 given.now)) }
{
    let mut extents = range_at(alloc, given, 0)?;
    let local = range_at(alloc, given, 1)?;
    extents.extend_from_slice(local.as_slice())?;
    of_naturals(alloc, extents.as_slice())
}

fn make_nd_range(alloc: Global, given: &[Given]) -> Result<Values, AllocError>
    ensures { IfOk result (λ object. object ≡ make_nd_range given.now) }
{
    match given {
        [first, ..] => match first.what {
            Thing::NdRange(_) => copy_of(alloc, first.object.items()),
            _ => paired_ranges(alloc, given),
        },
        _ => paired_ranges(alloc, given),
    }
}

fn make_device(alloc: Global, given: &[Given]) -> Result<Values, AllocError>
    ensures { IfOk result (λ object. object ≡ device_words (device_or_whole (type_at 0 given.now) (value_at 0 given.now))) }
{
    device_words(
        alloc,
        device_or_whole(type_at(given, 0), value_at(given, 0))?,
    )
}

/// An object of the type, made of these arguments at the line.
pub fn make(
    alloc: Global,
    world: &mut World,
    line: u32,
    what: Thing,
    given: &[Given],
) -> Result<Evaluated, AllocError>
    ensures { IfOk result (λ value. (value, world.new) ≡ make what line given.now world.old) }
{
    let first_type = type_at(given, 0);
    let object = value_at(given, 0);
    match what {
        Thing::Range(_) => Ok(Evaluated::Gives(make_shape(alloc, given)?)),
        Thing::Id(_) => Ok(Evaluated::Gives(make_shape(alloc, given)?)),
        Thing::NdRange(_) => Ok(Evaluated::Gives(make_nd_range(alloc, given)?)),
        Thing::Device => Ok(Evaluated::Gives(make_device(alloc, given)?)),
        Thing::Context => {
            let device = device_or_whole(first_type, object)?;
            make_context(alloc, world, line, device)
        }
        Thing::Queue => {
            let in_order = has_in_order_tag(given);
            make_queue(alloc, world, line, in_order, first_type, given)
        }
        Thing::Buffer(kind, _) => make_buffer(alloc, world, line, kind, first_type, given),
        Thing::Accessor(_, _, mode) => {
            make_accessor(alloc, world, line, mode, has_no_init_tag(given), object)
        }
        Thing::HostAccessor(_, _, mode) => {
            make_host(alloc, world, line, mode, has_no_init_tag(given), object)
        }
        Thing::LocalAccessor(_, _) => {
            let extents = range_at(alloc, given, 0)?;
            make_local(alloc, world, line, extents.as_slice())
        }
        _ => Ok(Evaluated::Gives(copy_of(alloc, object)?)),
    }
}

/// What has to be ended of an object of the type.
pub fn live_of(what: Thing, object: &[i128]) -> Result<Option<Live>, AllocError>
    ensures { IfOk result (λ live. live ≡ live_of what object.now) }
{
    match what {
        Thing::Buffer(_, _) => Ok(Some(Live::Buffer(buffer_number(object)?))),
        Thing::HostAccessor(_, _, _) => Ok(Some(Live::Access(accessor_owner(object)?))),
        Thing::Vector(_) => Ok(Some(Live::Row(number(object, 0)?))),
        Thing::ThreadVector => Ok(Some(Live::Team(number(object, 0)?))),
        Thing::Thread => Ok(Some(Live::Thread(number(object, 0)?))),
        _ => Ok(None),
    }
}

/// Has an object that has been made ended with the innermost scope.
pub fn kept(alloc: Global, world: &mut World, live: Option<Live>) -> Result<(), AllocError>
    ensures { OnOk result (world.new ≡ kept live world.old) }
{
    if let Some(object) = live {
        lives(alloc, world, object)?;
    }
    Ok(())
}

/// Whether objects of the type are ended by an ask.
pub fn has_end(what: Thing) -> bool
    ensures { result ≡ has_end what }
{
    matches!(what, Thing::Buffer(_, _) | Thing::HostAccessor(_, _, _))
}

/// A temporary of the type (C++17, "Temporary objects").
pub fn make_temporary(
    alloc: Global,
    world: &mut World,
    line: u32,
    what: Thing,
    given: &[Given],
) -> Result<Evaluated, AllocError>
    ensures { IfOk result (λ value. (value, world.new) ≡ make_temporary what line given.now world.old) }
{
    match make(alloc, world, line, what, given)? {
        Evaluated::Gives(object) => {
            kept(alloc, world, live_of(what, object.items())?)?;
            Ok(Evaluated::Gives(object))
        }
        Evaluated::Threw(error, at) => Ok(Evaluated::Threw(error, at)),
        Evaluated::Stopped(asked) => Ok(Evaluated::Stopped(asked)),
    }
}
