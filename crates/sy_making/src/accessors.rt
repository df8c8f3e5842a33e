// Accessors and the needs that they are (SYCL 2020, "Accessors").

ghost use Rattle.std.specs.Prelude.{◌≡◌, sum, IfOk, OnOk};
ghost use Rattle.sy_meaning.specs.Frame.{group_of, put_group};
ghost use Rattle.sy_meaning.specs.Making.{accessor, add_access, add_local, add_need, is_reduced, local_limit, make_accessor, make_host, make_local, need_of};
ghost use Rattle.sy_meaning.specs.Words.{buffer_extents, buffer_first, buffer_root};

use crate::asked::asked_contents;
use crate::buffers::root_index;
use crate::vectors::passes;
use std::alloc::{AllocError, Global};
use sy_access::{Mode, Need, Values};
use sy_meaning::{Evaluated, World};
use sy_requests::{add_local, add_need, is_reduced, plus, product};
use sy_state::{put_group, take_group, throws};
use sy_words::{buffer_extents, buffer_first, buffer_root, of_naturals};
use sy_work::{Ask, Errc};

/// A need on all elements of a buffer.
pub fn need_of(
    alloc: Global,
    buffer: &[i128],
    mode: Mode,
    no_init: bool,
) -> Result<Need, AllocError>
    ensures { IfOk result (λ need. need ≡ need_of buffer.now mode no_init) }
{
    let extents = buffer_extents(alloc, buffer)?;
    let first = buffer_first(buffer)?;
    let end = plus(first, product(extents.as_slice())?)?;
    Ok(Need {
        buffer: buffer_root(buffer)?,
        mode,
        no_init,
        from: root_index(first)?,
        to: root_index(end)?,
    })
}

fn accessor(alloc: Global, owner: u64, first: u64, extents: &[u64]) -> Result<Values, AllocError>
    ensures { IfOk result (λ object. object ≡ accessor owner first extents.now) }
{
    let mut all = vec![in alloc; owner, first]?;
    all.extend_from_slice(extents)?;
    of_naturals(alloc, all.as_slice())
}

/// The accessor of a command group on all elements of a buffer.
fn accessor_on(alloc: Global, buffer: &[i128]) -> Result<Values, AllocError>
    ensures { IfOk result (λ object. object ≡ accessor (buffer_root buffer.now) (buffer_first buffer.now) (buffer_extents buffer.now)) }
{
    let owner = buffer_root(buffer)?;
    let extents = buffer_extents(alloc, buffer)?;
    accessor(
        alloc,
        owner as u64,
        buffer_first(buffer)?,
        extents.as_slice(),
    )
}

/// Whether a reduction of the command group has the root of the buffer.
pub fn is_reduced_in(world: &World, buffer: &[i128]) -> Result<bool, AllocError>
    ensures { IfOk result (λ b. b ≡ is_reduced buffer.now world.now) }
{
    let root = buffer_root(buffer)?;
    match &world.group {
        Some(group) => Ok(is_reduced(root, group)),
        None => Ok(false),
    }
}

fn put_need(alloc: Global, world: &mut World, need: &Need) -> Result<(), AllocError>
    ensures { OnOk result (world.new ≡ put_group (add_need need.now (group_of world.old)) world.old) }
{
    let group = take_group(alloc, world);
    put_group(world, add_need(alloc, need, group)?);
    Ok(())
}

/// An accessor of the command group, which is a need of it; an error where a reduction of it has the root.
pub fn make_accessor(
    alloc: Global,
    world: &mut World,
    line: u32,
    mode: Mode,
    no_init: bool,
    buffer: &[i128],
) -> Result<Evaluated, AllocError>
    ensures { IfOk result (λ value. (value, world.new) ≡ make_accessor line mode no_init buffer.now world.old) }
{
    if is_reduced_in(world, buffer)? {
        return Ok(throws(world, Errc::Invalid, line));
    }
    let object = accessor_on(alloc, buffer)?;
    let need = need_of(alloc, buffer, mode, no_init)?;
    put_need(alloc, world, &need)?;
    Ok(Evaluated::Gives(object))
}

/// How many elements the local accessors of a command group may have together.
const LOCAL_LIMIT: u64 = 65536;

/// How many elements each local accessor of the command group has.
fn locals_of(world: &World) -> &[u64]
    ensures { result.now ≡ (group_of world.now).locals }
{
    match &world.group {
        Some(group) => group.locals.items(),
        None => &[],
    }
}

fn sum(sizes: &[u64]) -> Result<u64, AllocError>
    ensures { IfOk result (λ n. n ≡ sum sizes.now) }
{
    match sizes {
        [] => Ok(0),
        [first, rest @ ..] => plus(*first, sum(rest)?),
    }
}

fn put_local(alloc: Global, world: &mut World, size: u64) -> Result<(), AllocError>
    ensures { OnOk result (world.new ≡ put_group (add_local size (group_of world.old)) world.old) }
{
    let group = take_group(alloc, world);
    put_group(world, add_local(alloc, size, group)?);
    Ok(())
}

/// A local accessor of the command group; an error past the limit of their elements.
pub fn make_local(
    alloc: Global,
    world: &mut World,
    line: u32,
    extents: &[u64],
) -> Result<Evaluated, AllocError>
    ensures { IfOk result (λ value. (value, world.new) ≡ make_local line extents.now world.old) }
{
    let size = product(extents)?;
    let locals = locals_of(world);
    if passes(LOCAL_LIMIT, sum(locals)?, size) {
        return Ok(throws(world, Errc::MemoryAllocation, line));
    }
    let object = accessor(alloc, locals.len() as u64, 0, extents)?;
    put_local(alloc, world, size)?;
    Ok(Evaluated::Gives(object))
}

fn add_access(world: &mut World, values: Values) -> Result<(), AllocError>
    ensures { OnOk result (world.new ≡ add_access values world.old) }
{
    world.accesses.push(values)?;
    Ok(())
}

/// A host accessor, which waits for its elements.
pub fn make_host(
    alloc: Global,
    world: &mut World,
    line: u32,
    mode: Mode,
    no_init: bool,
    buffer: &[i128],
) -> Result<Evaluated, AllocError>
    ensures { IfOk result (λ value. (value, world.new) ≡ make_host line mode no_init buffer.now world.old) }
{
    let need = need_of(alloc, buffer, mode, no_init)?;
    let extents = buffer_extents(alloc, buffer)?;
    match asked_contents(alloc, world, line, Ask::OpenHost(need))? {
        Ok(values) => {
            let owner = world.accesses.len() as u64;
            let object = accessor(alloc, owner, 0, extents.as_slice())?;
            add_access(world, values)?;
            Ok(Evaluated::Gives(object))
        }
        Err(end) => Ok(end),
    }
}
