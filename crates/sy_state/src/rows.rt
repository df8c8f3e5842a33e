// Vectors, which are known by their indexes.

ghost use Rattle.std.specs.Prelude.{◌≡◌, ◌++◌, drop, length, is_some, map, sum_by, IfOk, OnOk};
ghost use Rattle.sy_meaning.specs.Frame.{no_row, row_at, put_row, put_values, lease, given_back, give_back, counted, elements};

use std::alloc::{AllocError, Global};
use sy_access::Values;
use sy_meaning::{Row, World};
use sy_stack::Table;

/// What stands where there is no vector.
pub fn no_row(alloc: Global) -> Row
    ensures { result ≡ no_row }
{
    Row {
        values: Values::of(Vec::new(alloc)),
        counts: false,
        leased: None,
    }
}

/// The elements of a vector.
pub fn row_values(world: &World, v: u32) -> &[i128]
    ensures { result.now ≡ (row_at v world.now).values }
{
    match world.rows.get(v as usize) {
        Some(row) => row.values.items(),
        None => &[],
    }
}

/// Whether a buffer is over the vector.
pub fn is_leased(world: &World, v: u32) -> bool
    ensures { result ≡ is_some (row_at v world.now).leased }
{
    match world.rows.get(v as usize) {
        Some(row) => row.leased.is_some(),
        None => false,
    }
}

pub fn put_row(world: &mut World, v: u32, row: Row)
    ensures { world.new ≡ put_row v row world.old }
{
    world.rows.set(v as usize, row);
}

/// Gives a vector its elements.
pub fn put_values(alloc: Global, world: &mut World, v: u32, values: Values)
    ensures { world.new ≡ put_values v values world.old }
{
    let held = world.rows.exchange(v as usize, no_row(alloc));
    let row = Row {
        values,
        counts: held.counts,
        leased: held.leased,
    };
    world.rows.set(v as usize, row);
}

/// Says that from now on the buffer is over the vector.
pub fn lease(alloc: Global, world: &mut World, buffer: u32, v: u32)
    ensures { world.new ≡ lease buffer v world.old }
{
    let mut row = world.rows.exchange(v as usize, no_row(alloc));
    row.leased = Some(buffer);
    world.rows.set(v as usize, row);
}

fn written_over(old: Values, values: &[i128], alloc: Global) -> Result<Values, AllocError>
    ensures { IfOk result (λ made. made ≡ values.now ++ drop (length values.now) old) }
{
    let mut made = Vec::from_slice(alloc, values)?;
    if values.len() < old.len() {
        made.extend_from_slice(&old.items()[values.len()..])?;
    }
    Ok(Values::of(made))
}

fn given_back(alloc: Global, buffer: u32, values: &[i128], row: Row) -> Result<Row, AllocError>
    ensures { IfOk result (λ freed. freed ≡ given_back buffer values.now row) }
{
    match row.leased {
        Some(over) => {
            if buffer == over {
                Ok(Row {
                    values: written_over(row.values, values, alloc)?,
                    counts: row.counts,
                    leased: None,
                })
            } else {
                Ok(row)
            }
        }
        None => Ok(row),
    }
}

fn give_back_in(
    alloc: Global,
    rows: &mut Table<Row>,
    buffer: u32,
    values: &[i128],
) -> Result<(), AllocError>
    ensures { OnOk result (rows.new ≡ map (given_back buffer values.now) rows.old) }
{
    let mut v = 0;
    while v < rows.len() {
        let row = rows.exchange(v, no_row(alloc));
        rows.set(v, given_back(alloc, buffer, values, row)?);
        v += 1;
    }
    Ok(())
}

/// The buffer has ended: each vector that it is over gets the contents and is free.
pub fn give_back(
    alloc: Global,
    world: &mut World,
    buffer: u32,
    values: &[i128],
) -> Result<(), AllocError>
    ensures { OnOk result (world.new ≡ give_back buffer values.now world.old) }
{
    give_back_in(alloc, &mut world.rows, buffer, values)?;
    Ok(())
}

fn counted(row: &Row) -> u64
    ensures { result ≡ counted row.now }
{
    if row.counts {
        row.values.len() as u64
    } else {
        0
    }
}

fn counted_in(rows: &[Row]) -> Result<u64, AllocError>
    ensures { IfOk result (λ n. n ≡ sum_by counted rows.now) }
{
    let mut total: u64 = 0;
    let mut rest = rows;
    while let [first, others @ ..] = rest {
        total = total.checked_add(counted(first)).ok_or(AllocError)?;
        rest = others;
    }
    Ok(total)
}

/// How many elements the live vectors of integers have.
pub fn elements(world: &World) -> Result<u64, AllocError>
    ensures { IfOk result (λ n. n ≡ elements world.now) }
{
    counted_in(world.rows.items())
}
