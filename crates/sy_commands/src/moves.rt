// Fills and copies, and events that a group waits for (SYCL 2020, "SYCL functions for explicit memory operations").

ghost use Rattle.std.specs.Prelude.{◌≡◌, ◌+◌, ◌||◌, [], ◌∷◌, false, IfOk};
ghost use Rattle.sy_access.specs.declared.access.Mode.TheVariants as mode;
ghost use Rattle.sy_meaning.specs.Frame.{group_of};
ghost use Rattle.sy_meaning.specs.Lambdas.{accessor_need, accessor_size, copy, depends_on, fill, first_error, is_second, is_smaller};
ghost use Rattle.sy_meaning.specs.Making.{value_at};
ghost use Rattle.sy_meaning.specs.Words.{accessor_first, accessor_owner};
ghost use Rattle.sy_work.specs.declared.asks.Errc.TheVariants as errc;

use crate::errors::{commanded, is_second};
use std::alloc::{AllocError, Global};
use sy_access::{Mode, Need};
use sy_making::{Given, type_at, value_at};
use sy_meaning::{Evaluated, World};
use sy_requests::{add_node, need_index, product};
use sy_state::{put_group, take_group};
use sy_words::{accessor_extents, accessor_owner, kind_in, nothing, number, number_as};
use sy_work::{Command, Errc};

/// How many elements an accessor has.
pub fn accessor_size(alloc: Global, accessor: &[i128]) -> Result<u64, AllocError>
    ensures { IfOk result (λ n. n ≡ accessor_size accessor.now) }
{
    let extents = accessor_extents(alloc, accessor)?;
    product(extents.as_slice())
}

fn end_of(from: u32, size: u64) -> Result<u32, AllocError>
    ensures { IfOk result (λ end. end ≡ from + size) }
{
    if size <= (u32::MAX - from) as u64 {
        Ok(from + size as u32)
    } else {
        Err(AllocError)
    }
}

fn read_of(alloc: Global, accessor: &[i128]) -> Result<Need, AllocError>
    ensures { IfOk result (λ need. need ≡ record { buffer = accessor_owner accessor.now; mode = mode.Read; no_init = false; from = accessor_first accessor.now; to = accessor_first accessor.now + accessor_size accessor.now }) }
{
    let buffer = accessor_owner(accessor)?;
    let from = number(accessor, 1)?;
    let to = end_of(from, accessor_size(alloc, accessor)?)?;
    Ok(Need {
        buffer,
        mode: Mode::Read,
        no_init: false,
        from,
        to,
    })
}

fn needs_of(world: &World) -> &[Need]
    ensures { result.now ≡ (group_of world.now).needs }
{
    match &world.group {
        Some(group) => group.needs.items(),
        None => &[],
    }
}

fn as_index(k: usize) -> Result<u32, AllocError>
    ensures { IfOk result (λ index. index ≡ k) }
{
    if k <= u32::MAX as usize {
        Ok(k as u32)
    } else {
        Err(AllocError)
    }
}

/// The index of the group's need of an accessor.
pub fn accessor_need(alloc: Global, accessor: &[i128], world: &World) -> Result<u32, AllocError>
    ensures { IfOk result (λ index. index ≡ accessor_need accessor.now world.now) }
{
    let need = read_of(alloc, accessor)?;
    as_index(need_index(&need, needs_of(world)))
}

/// `Invalid` where this holds.
fn invalid_if(holds: bool) -> Option<Errc>
    ensures { result ≡ first_error ((holds, errc.Invalid) ∷ []) }
{
    if holds { Some(Errc::Invalid) } else { None }
}

/// A fill of an accessor with a number, as the command of the group.
pub fn fill(
    alloc: Global,
    world: &mut World,
    line: u32,
    given: &[Given],
) -> Result<Evaluated, AllocError>
    ensures { IfOk result (λ value. (value, world.new) ≡ fill line given.now world.old) }
{
    let error = invalid_if(is_second(world));
    let target = accessor_need(alloc, value_at(given, 0), world)?;
    let number = number_as(kind_in(type_at(given, 0)), value_at(given, 1));
    let command = Command::Fill(target, number);
    Ok(commanded(alloc, world, line, error, command))
}

fn is_smaller(alloc: Global, one: &[i128], other: &[i128]) -> Result<bool, AllocError>
    ensures { IfOk result (λ smaller. smaller ≡ is_smaller one.now other.now) }
{
    Ok(accessor_size(alloc, one)? < accessor_size(alloc, other)?)
}

fn is_no_copy(alloc: Global, given: &[Given], world: &World) -> Result<bool, AllocError>
    ensures { IfOk result (λ b. b ≡ (is_second world.now || is_smaller (value_at 1 given.now) (value_at 0 given.now))) }
{
    if is_second(world) {
        return Ok(true);
    }
    is_smaller(alloc, value_at(given, 1), value_at(given, 0))
}

/// A copy from an accessor to another, as the command of the group.
pub fn copy(
    alloc: Global,
    world: &mut World,
    line: u32,
    given: &[Given],
) -> Result<Evaluated, AllocError>
    ensures { IfOk result (λ value. (value, world.new) ≡ copy line given.now world.old) }
{
    let error = invalid_if(is_no_copy(alloc, given, world)?);
    let source = accessor_need(alloc, value_at(given, 0), world)?;
    let target = accessor_need(alloc, value_at(given, 1), world)?;
    let command = Command::Copy(source, target);
    Ok(commanded(alloc, world, line, error, command))
}

/// The group waits for the event's node.
pub fn depends_on(alloc: Global, world: &mut World, event: &[i128]) -> Result<Evaluated, AllocError>
    ensures { IfOk result (λ value. (value, world.new) ≡ depends_on event.now world.old) }
{
    let node = number(event, 0)?;
    let group = take_group(alloc, world);
    put_group(world, add_node(alloc, node, group)?);
    Ok(Evaluated::Gives(nothing(alloc)))
}
