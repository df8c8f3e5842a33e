// What stands for queues, contexts, devices, buffers, accessors, elements and reductions.

ghost use Rattle.std.specs.Prelude.{◌≡◌, ◌+◌, ◌*◌, IfOk};
ghost use Rattle.sy_meaning.specs.Words.{device_from, device_words, queue_number, queue_device, context_place, context_device, device_at, device_count, buffer_number, buffer_root, buffer_first, accessor_owner, accessor_first, element_vector, element_index, reduction_index, reduction_keeps};

use crate::objects::{natural, number, of_naturals, word};
use std::alloc::{AllocError, Global};
use sy_access::{Device, Values};

/// The device whose words stand from an index on.
pub fn device_from(object: &[i128], k: u32) -> Result<Device, AllocError>
    ensures { IfOk result (λ device. device ≡ device_from k object.now) }
{
    let first = number(object, k as usize)?;
    let units = number(object, k as usize + 1)?;
    Ok(Device { first, units })
}

pub fn device_words(alloc: Global, device: Device) -> Result<Values, AllocError>
    ensures { IfOk result (λ object. object ≡ device_words device) }
{
    of_naturals(alloc, &[device.first as u64, device.units as u64])
}

pub fn queue_number(object: &[i128]) -> Result<u32, AllocError>
    ensures { IfOk result (λ n. n ≡ queue_number object.now) }
{
    number(object, 0)
}

pub fn queue_device(object: &[i128]) -> Result<Device, AllocError>
    ensures { IfOk result (λ device. device ≡ queue_device object.now) }
{
    device_from(object, 1)
}

pub fn context_place(object: &[i128]) -> Result<u32, AllocError>
    ensures { IfOk result (λ n. n ≡ context_place object.now) }
{
    number(object, 0)
}

pub fn context_device(object: &[i128]) -> Result<Device, AllocError>
    ensures { IfOk result (λ device. device ≡ context_device object.now) }
{
    device_from(object, 1)
}

fn multiple_behind(first: u32, k: u64, units: u32) -> Result<u32, AllocError>
    ensures { IfOk result (λ n. n ≡ first + k * units) }
{
    let Some(before) = k.checked_mul(units as u64) else {
        return Err(AllocError);
    };
    match before.checked_add(first as u64) {
        Some(n) => {
            if n <= u32::MAX as u64 {
                Ok(n as u32)
            } else {
                Err(AllocError)
            }
        }
        None => Err(AllocError),
    }
}

/// The k-th device of a vector of devices.
pub fn device_at(object: &[i128], k: u64) -> Result<Device, AllocError>
    ensures { IfOk result (λ device. device ≡ device_at object.now k) }
{
    let first = number(object, 0)?;
    let units = number(object, 1)?;
    let first = multiple_behind(first, k, units)?;
    Ok(Device { first, units })
}

/// How many devices a vector of devices has.
pub fn device_count(object: &[i128]) -> Result<u64, AllocError>
    ensures { IfOk result (λ n. n ≡ device_count object.now) }
{
    natural(object, 2)
}

pub fn buffer_number(object: &[i128]) -> Result<u32, AllocError>
    ensures { IfOk result (λ n. n ≡ buffer_number object.now) }
{
    number(object, 0)
}

pub fn buffer_root(object: &[i128]) -> Result<u32, AllocError>
    ensures { IfOk result (λ n. n ≡ buffer_root object.now) }
{
    number(object, 1)
}

/// The first element of a buffer in its root.
pub fn buffer_first(object: &[i128]) -> Result<u64, AllocError>
    ensures { IfOk result (λ n. n ≡ buffer_first object.now) }
{
    natural(object, 2)
}

/// The number of an accessor's root, local accessor or host access.
pub fn accessor_owner(object: &[i128]) -> Result<u32, AllocError>
    ensures { IfOk result (λ n. n ≡ accessor_owner object.now) }
{
    number(object, 0)
}

pub fn accessor_first(object: &[i128]) -> Result<u64, AllocError>
    ensures { IfOk result (λ n. n ≡ accessor_first object.now) }
{
    natural(object, 1)
}

/// The vector of which an element is.
pub fn element_vector(object: &[i128]) -> Result<u32, AllocError>
    ensures { IfOk result (λ n. n ≡ element_vector object.now) }
{
    number(object, 0)
}

pub fn element_index(object: &[i128]) -> Result<u64, AllocError>
    ensures { IfOk result (λ n. n ≡ element_index object.now) }
{
    natural(object, 1)
}

/// The index of a reduction's need.
pub fn reduction_index(object: &[i128]) -> Result<u32, AllocError>
    ensures { IfOk result (λ n. n ≡ reduction_index object.now) }
{
    number(object, 0)
}

/// Whether the former value of a reduction's variable takes part.
pub fn reduction_keeps(object: &[i128]) -> bool
    ensures { result ≡ reduction_keeps object.now }
{
    word(object, 1) == 1
}
