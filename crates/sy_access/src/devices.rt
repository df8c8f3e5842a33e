// Devices as runs of compute units, and their partition.

ghost use Rattle.std.specs.Prelude.{◌≡◌, ℕ, ◌+◌, ◌^◌, ◌<◌, ◌≤◌, ◌⊎◌, ◌↔◌, IsTrue, IfOk, IsErrOf, All};
ghost use Rattle.sy_access.specs.declared.devices.Device.{Device};
ghost use Rattle.sy_access.specs.declared.devices.PartStop.TheVariants.{Memory};
ghost use Rattle.sy_access.specs.Devices.{parts, has_unit, is_part};

use std::alloc::{AllocError, Global};
use thiserror::Error;

/// A device: `units` compute units, numbered from `first`.
#[derive(Clone, Copy, PartialEq, Eq, Debug)]
pub struct Device {
    pub first: u32,
    pub units: u32,
}

impl Device {
    /// The whole device, which has units 0 to 7.
    pub const fn whole() -> Device
        ensures { result ≡ record { first = 0; units = 8 } }
    {
        Device { first: 0, units: 8 }
    }
}

/// Why a device isn't partitioned.
#[derive(Clone, Copy, PartialEq, Eq, Debug, Error)]
pub enum PartStop {
    /// The count of units per part is 0, or the device has fewer.
    #[error("no part of that many units")]
    Invalid,
    #[error("out of memory")]
    Memory,
}

impl From<AllocError> for PartStop {
    ghost from_gives = { λ _ e. e ≡ Memory };

    fn from(_e: AllocError) -> PartStop {
        PartStop::Memory
    }
}

/// As many parts of `n` units as fit into the device, in order
/// (SYCL 2020, `info::partition_property::partition_equally`).
#[tactic(auto, unfolding(crate::specs::Devices::parts))]
pub fn partition(alloc: Global, d: &Device, n: u64) -> Result<Vec<Device>, PartStop>
    requires { d.now.first + d.now.units ≤ 2 ^ 32 }
    ensures parts { IfOk result (λ v. v.items ≡ parts d.now n) }
    ensures within { IfOk result (λ v. All (λ p. IsTrue (is_part p d.now)) v.items) }
    ensures invalid { IsErrOf result PartStop.Invalid ↔ ((n ≡ 0) ⊎ (d.now.units < n)) }
{
    if n == 0 || n > d.units as u64 {
        return Err(PartStop::Invalid);
    }
    Ok(equal_parts(alloc, d, n as u32)?)
}

/// The parts of `units` units each.
fn equal_parts(alloc: Global, d: &Device, units: u32) -> Result<Vec<Device>, AllocError>
    requires units { 0 < units }
    requires room { d.now.first + d.now.units ≤ 2 ^ 32 }
    ensures parts { IfOk result (λ v. v.items ≡ parts d.now units) }
    ensures within { IfOk result (λ v. All (λ p. IsTrue (is_part p d.now)) v.items) }
{
    let mut made = Vec::new(alloc);
    for k in 0..d.units / units {
        made.push(Device {
            first: d.first + k * units,
            units,
        })?;
    }
    Ok(made)
}

/// Whether each unit of `d` is one of `whole`; so a device is a part of itself.
#[tactic(auto, unfolding(crate::specs::Devices::is_part))]
pub fn part_of(d: &Device, whole: &Device) -> bool
    ensures { result ≡ is_part d.now whole.now }
{
    let end = d.first as u64 + d.units as u64;
    let whole_end = whole.first as u64 + whole.units as u64;
    d.units == 0 || (whole.first <= d.first && end <= whole_end)
}

/// A law: a device is a part of another exactly where each of its units is one of the other's.
pub fn part_is_by_units()
    ensures { (d whole : Device) → IsTrue (is_part d whole) ↔ ((k : ℕ) → IsTrue (has_unit d k) → IsTrue (has_unit whole k)) }
{}
