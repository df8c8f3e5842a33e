// Buffers and sub-buffers (SYCL 2020, "Buffers").

ghost use Rattle.std.specs.Prelude.{◌≡◌, ◌∷◌, None, Some, take, IfOk};
ghost use Rattle.sy_meaning.specs.Frame.{row_at};
ghost use Rattle.sy_meaning.specs.Making.{first_of_region, is_region, make_buffer, make_over, make_over_all, make_plain, make_sub, over_row, root_buffer, sub_buffer};
ghost use Rattle.sy_meaning.specs.Words.{buffer_extents, of_naturals};
ghost use Rattle.sy_work.specs.declared.asks.Ask.TheVariants as asks;

use crate::arguments::{Given, range_at, value_at};
use crate::asked::{asked_number, trapped};
use std::alloc::{AllocError, Global};
use sy_access::Values;
use sy_meaning::{Evaluated, World};
use sy_num::Kind;
use sy_requests::{first_of_region, fit_in, is_contiguous, product, range_of};
use sy_state::{is_leased, lease, row_values, throws};
use sy_typed::Thing;
use sy_words::{
    buffer_extents, buffer_number, buffer_root, copy_of, naturals, number, of_naturals,
};
use sy_work::{Ask, Cause, Errc, NewBuffer};

/// An index into a root, as asks and needs take it.
pub fn root_index(n: u64) -> Result<u32, AllocError>
    ensures { IfOk result (λ i. i ≡ n) }
{
    if n <= u32::MAX as u64 {
        Ok(n as u32)
    } else {
        Err(AllocError)
    }
}

fn buffer_object(
    alloc: Global,
    number: u32,
    root: u32,
    first: u32,
    extents: &[u64],
) -> Result<Values, AllocError>
    ensures { IfOk result (λ object. object ≡ of_naturals (number ∷ root ∷ first ∷ extents.now)) }
{
    let mut all = vec![in alloc; number as u64, root as u64, first as u64]?;
    all.extend_from_slice(extents)?;
    of_naturals(alloc, all.as_slice())
}

fn root_buffer(alloc: Global, number: u32, extents: &[u64]) -> Result<Values, AllocError>
    ensures { IfOk result (λ object. object ≡ root_buffer number extents.now) }
{
    buffer_object(alloc, number, number, 0, extents)
}

/// The ask for a buffer with these extents, over no vector or with the numbers of one.
fn new_buffer(kind: Kind, extents: &[u64], init: Option<Values>) -> Result<Ask, AllocError>
    ensures { IfOk result (λ asked. asked ≡ asks.MakeBuffer (record { kind = kind; range = extents.now; init = init })) }
{
    let range = range_of(extents)?;
    Ok(Ask::MakeBuffer(NewBuffer { kind, range, init }))
}

fn make_plain(
    alloc: Global,
    world: &mut World,
    line: u32,
    kind: Kind,
    extents: &[u64],
) -> Result<Evaluated, AllocError>
    ensures { IfOk result (λ value. (value, world.new) ≡ make_plain line kind extents.now world.old) }
{
    match asked_number(alloc, world, line, new_buffer(kind, extents, None)?)? {
        Ok(number) => Ok(Evaluated::Gives(root_buffer(alloc, number, extents)?)),
        Err(end) => Ok(end),
    }
}

#[tactic(auto, using(crate::proofs::LengthLemmas::whole_front))]
fn front(values: &[i128], count: u64) -> &[i128]
    ensures { result.now ≡ take count values.now }
{
    if count < values.len() as u64 {
        &values[..count as usize]
    } else {
        values
    }
}

/// The ask for a buffer over the first of a vector's elements.
fn new_over(
    alloc: Global,
    kind: Kind,
    extents: &[u64],
    count: u64,
    values: &[i128],
) -> Result<Ask, AllocError>
    ensures { IfOk result (λ asked. asked ≡ asks.MakeBuffer (record { kind = kind; range = extents.now; init = Some (take count values.now) })) }
{
    let init = copy_of(alloc, front(values, count))?;
    new_buffer(kind, extents, Some(init))
}

/// A buffer over a vector that no buffer is over.
fn over_row(
    alloc: Global,
    world: &mut World,
    line: u32,
    kind: Kind,
    v: u32,
    extents: &[u64],
) -> Result<Evaluated, AllocError>
    ensures { IfOk result (λ value. (value, world.new) ≡ over_row line kind v extents.now (row_at v world.old) world.old) }
{
    let count = product(extents)?;
    let values = row_values(world, v);
    if (values.len() as u64) < count {
        return Ok(trapped(Cause::Index, line));
    }
    let asked = new_over(alloc, kind, extents, count, values)?;
    match asked_number(alloc, world, line, asked)? {
        Ok(number) => {
            let object = root_buffer(alloc, number, extents)?;
            lease(alloc, world, number, v);
            Ok(Evaluated::Gives(object))
        }
        Err(end) => Ok(end),
    }
}

fn make_over(
    alloc: Global,
    world: &mut World,
    line: u32,
    kind: Kind,
    v: u32,
    extents: &[u64],
) -> Result<Evaluated, AllocError>
    ensures { IfOk result (λ value. (value, world.new) ≡ make_over line kind v extents.now world.old) }
{
    if is_leased(world, v) {
        return Ok(trapped(Cause::Leased, line));
    }
    over_row(alloc, world, line, kind, v, extents)
}

fn make_over_all(
    alloc: Global,
    world: &mut World,
    line: u32,
    kind: Kind,
    v: u32,
) -> Result<Evaluated, AllocError>
    ensures { IfOk result (λ value. (value, world.new) ≡ make_over_all line kind v world.old) }
{
    if is_leased(world, v) {
        return Ok(trapped(Cause::Leased, line));
    }
    let count = row_values(world, v).len() as u64;
    over_row(alloc, world, line, kind, v, &[count])
}

fn is_region(
    alloc: Global,
    buffer: &[i128],
    base: &[u64],
    extents: &[u64],
) -> Result<bool, AllocError>
    ensures { IfOk result (λ b. b ≡ is_region buffer.now base.now extents.now) }
{
    if buffer_number(buffer)? != buffer_root(buffer)? {
        return Ok(false);
    }
    let parent = buffer_extents(alloc, buffer)?;
    if !fit_in(base, extents, parent.as_slice()) {
        return Ok(false);
    }
    is_contiguous(alloc, base, extents, parent.as_slice())
}

/// The first element in its root of a sub-buffer.
fn first_in_root(
    alloc: Global,
    buffer: &[i128],
    base: &[u64],
    extents: &[u64],
) -> Result<u32, AllocError>
    ensures { IfOk result (λ n. n ≡ first_of_region base.now extents.now (buffer_extents buffer.now)) }
{
    let parent = buffer_extents(alloc, buffer)?;
    root_index(first_of_region(base, extents, parent.as_slice())?)
}

fn sub_buffer(
    alloc: Global,
    buffer: &[i128],
    number: u32,
    first: u32,
    extents: &[u64],
) -> Result<Values, AllocError>
    ensures { IfOk result (λ object. object ≡ sub_buffer buffer.now number first extents.now) }
{
    buffer_object(alloc, number, buffer_root(buffer)?, first, extents)
}

fn make_sub(
    alloc: Global,
    world: &mut World,
    line: u32,
    buffer: &[i128],
    base: &[u64],
    extents: &[u64],
) -> Result<Evaluated, AllocError>
    ensures { IfOk result (λ value. (value, world.new) ≡ make_sub line buffer.now base.now extents.now world.old) }
{
    if !is_region(alloc, buffer, base, extents)? {
        return Ok(throws(world, Errc::Invalid, line));
    }
    let first = first_in_root(alloc, buffer, base, extents)?;
    let asked = Ask::MakeSub(buffer_number(buffer)?, first, range_of(extents)?);
    match asked_number(alloc, world, line, asked)? {
        Ok(number) => {
            let object = sub_buffer(alloc, buffer, number, first, extents)?;
            Ok(Evaluated::Gives(object))
        }
        Err(end) => Ok(end),
    }
}

/// A buffer, by the type of its first argument.
pub fn make_buffer(
    alloc: Global,
    world: &mut World,
    line: u32,
    kind: Kind,
    what: Thing,
    given: &[Given],
) -> Result<Evaluated, AllocError>
    ensures { IfOk result (λ value. (value, world.new) ≡ make_buffer line kind what given.now world.old) }
{
    let object = value_at(given, 0);
    match what {
        Thing::Vector(_) => make_over_all(alloc, world, line, kind, number(object, 0)?),
        Thing::Data(_) => {
            let extents = range_at(alloc, given, 1)?;
            let v = number(object, 0)?;
            make_over(alloc, world, line, kind, v, extents.as_slice())
        }
        Thing::Buffer(_, _) => {
            let base = naturals(alloc, value_at(given, 1), 0)?;
            let extents = range_at(alloc, given, 2)?;
            make_sub(
                alloc,
                world,
                line,
                object,
                base.as_slice(),
                extents.as_slice(),
            )
        }
        _ => {
            let extents = range_at(alloc, given, 0)?;
            make_plain(alloc, world, line, kind, extents.as_slice())
        }
    }
}
