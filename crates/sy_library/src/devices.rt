// Devices (SYCL 2020, "Device class").

ghost use Rattle.std.specs.Prelude.{◌≡◌, pos, IfOk};
ghost use Rattle.sy_meaning.specs.Library.{device_of, partitioned};
ghost use Rattle.sy_meaning.specs.Words.{device_words, taken_as};
ghost use Rattle.sy_num.specs.declared.Kind.TheVariants as kinds;

use std::alloc::{AllocError, Global};
use sy_access::{Device, Values};
use sy_meaning::{Evaluated, World};
use sy_num::Kind;
use sy_state::throws;
use sy_typed::Thing;
use sy_words::{device_from, device_words, of_naturals, queue_device, taken_as};
use sy_work::Errc;

/// The device that an object of the type is or has.
pub fn device_of(what: Thing, object: &[i128]) -> Result<Device, AllocError>
    ensures { IfOk result (λ device. device ≡ device_of what object.now) }
{
    match what {
        Thing::Queue => queue_device(object),
        _ => device_from(object, 0),
    }
}

/// A vector of as many parts of so many units as fit; an error where none does.
pub fn partitioned(
    alloc: Global,
    world: &mut World,
    line: u32,
    device: Device,
    units: u64,
) -> Result<Evaluated, AllocError>
    ensures { IfOk result (λ value. (value, world.new) ≡ partitioned line device units world.old) }
{
    let held = device.units as u64;
    if units == 0 || held < units {
        Ok(throws(world, Errc::Invalid, line))
    } else {
        let parts = [device.first as u64, units, held / units];
        Ok(Evaluated::Gives(of_naturals(alloc, &parts)?))
    }
}

/// The device of an object as a value.
pub fn get_device(alloc: Global, what: Thing, object: &[i128]) -> Result<Values, AllocError>
    ensures { IfOk result (λ made. made ≡ device_words (device_of what object.now)) }
{
    device_words(alloc, device_of(what, object)?)
}

/// How many units the device of an object has.
pub fn compute_units(alloc: Global, what: Thing, object: &[i128]) -> Result<Values, AllocError>
    ensures { IfOk result (λ made. made ≡ taken_as kinds.UInt (pos (device_of what object.now).units)) }
{
    let device = device_of(what, object)?;
    taken_as(alloc, Kind::UInt, device.units as i128)
}
