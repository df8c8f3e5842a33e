// Devices, contexts and queues (SYCL 2020, "Queue class", "Device class", "Context class").

ghost use Rattle.std.specs.Prelude.{◌≡◌, IfOk};
ghost use Rattle.sy_meaning.specs.Making.{context_words, device_or_whole, is_whole, make_context, make_queue, queue_in, queue_over, queue_with};

use crate::arguments::{Given, value_at};
use crate::asked::asked_number;
use std::alloc::{AllocError, Global};
use sy_access::{Device, Values, part_of};
use sy_meaning::{Evaluated, World};
use sy_state::throws;
use sy_typed::Thing;
use sy_words::{context_device, context_place, device_from, of_naturals};
use sy_work::{Ask, Errc, NewQueue};

fn is_whole(device: Device) -> bool
    ensures { result ≡ is_whole device }
{
    device.units == 8
}

/// The device that an argument of the type is; the whole one where it is none.
pub fn device_or_whole(what: Thing, object: &[i128]) -> Result<Device, AllocError>
    ensures { IfOk result (λ device. device ≡ device_or_whole what object.now) }
{
    match what {
        Thing::Device => device_from(object, 0),
        _ => Ok(Device::whole()),
    }
}

/// The words of a context or a queue: its number, and its device.
fn placed(alloc: Global, number: u32, device: Device) -> Result<Values, AllocError>
    ensures { IfOk result (λ object. object ≡ context_words number device) }
{
    let words = [number as u64, device.first as u64, device.units as u64];
    of_naturals(alloc, &words)
}

/// A context for the device.
pub fn make_context(
    alloc: Global,
    world: &mut World,
    line: u32,
    device: Device,
) -> Result<Evaluated, AllocError>
    ensures { IfOk result (λ value. (value, world.new) ≡ make_context line device world.old) }
{
    match asked_number(alloc, world, line, Ask::MakeContext(device))? {
        Ok(place) => Ok(Evaluated::Gives(placed(alloc, place, device)?)),
        Err(end) => Ok(end),
    }
}

/// A queue in the context at a place.
fn queue_in(
    alloc: Global,
    world: &mut World,
    line: u32,
    in_order: bool,
    device: Device,
    place: u32,
) -> Result<Evaluated, AllocError>
    ensures { IfOk result (λ value. (value, world.new) ≡ queue_in line in_order device place world.old) }
{
    let asked = Ask::MakeQueue(NewQueue {
        context: place,
        device,
        in_order,
    });
    match asked_number(alloc, world, line, asked)? {
        Ok(number) => Ok(Evaluated::Gives(placed(alloc, number, device)?)),
        Err(end) => Ok(end),
    }
}

/// A queue over a device, which has a context of its own where it is a part.
fn queue_over(
    alloc: Global,
    world: &mut World,
    line: u32,
    in_order: bool,
    device: Device,
) -> Result<Evaluated, AllocError>
    ensures { IfOk result (λ value. (value, world.new) ≡ queue_over line in_order device world.old) }
{
    if is_whole(device) {
        return queue_in(alloc, world, line, in_order, device, 1);
    }
    match asked_number(alloc, world, line, Ask::MakeContext(device))? {
        Ok(place) => queue_in(alloc, world, line, in_order, device, place),
        Err(end) => Ok(end),
    }
}

/// A queue of a context; an error where the device isn't a part of the context's.
fn queue_with(
    alloc: Global,
    world: &mut World,
    line: u32,
    in_order: bool,
    context: &[i128],
    device: Device,
) -> Result<Evaluated, AllocError>
    ensures { IfOk result (λ value. (value, world.new) ≡ queue_with line in_order context.now device world.old) }
{
    if part_of(&device, &context_device(context)?) {
        let place = context_place(context)?;
        queue_in(alloc, world, line, in_order, device, place)
    } else {
        Ok(throws(world, Errc::Invalid, line))
    }
}

/// A queue, by the type of its first argument.
pub fn make_queue(
    alloc: Global,
    world: &mut World,
    line: u32,
    in_order: bool,
    what: Thing,
    given: &[Given],
) -> Result<Evaluated, AllocError>
    ensures { IfOk result (λ value. (value, world.new) ≡ make_queue line in_order what given.now world.old) }
{
    let object = value_at(given, 0);
    match what {
        Thing::Context => {
            let device = device_from(value_at(given, 1), 0)?;
            queue_with(alloc, world, line, in_order, object, device)
        }
        Thing::Device => {
            let device = device_from(object, 0)?;
            queue_over(alloc, world, line, in_order, device)
        }
        _ => queue_over(alloc, world, line, in_order, Device::whole()),
    }
}
