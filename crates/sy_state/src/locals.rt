// Locals, and the elements of host accesses.

ghost use Rattle.std.specs.Prelude.{◌≡◌, [], slice_index_or, OnOk};
ghost use Rattle.sy_meaning.specs.Frame.{local, put_at, put, access_at, put_access};

use std::alloc::{AllocError, Global};
use sy_access::Values;
use sy_meaning::{Run, World};
use sy_stack::Table;

fn object_at(objects: &Table<Values>, n: usize) -> &[i128]
    ensures { result.now ≡ slice_index_or objects.now n [] }
{
    match objects.get(n) {
        Some(object) => object.items(),
        None => &[],
    }
}

/// The object of the local with this number; one that has none yet is empty.
pub fn local(run: &Run, n: u32) -> &[i128]
    ensures { result.now ≡ local n run.now }
{
    object_at(&run.frame, n as usize)
}

fn no_words(alloc: Global) -> Values
    ensures { result ≡ [] }
{
    Values::of(Vec::new(alloc))
}

fn put_in(
    alloc: Global,
    frame: &mut Table<Values>,
    n: usize,
    object: Values,
) -> Result<(), AllocError>
    ensures { OnOk result (frame.new ≡ put_at n object frame.old) }
{
    while frame.len() <= n {
        frame.push(no_words(alloc))?;
    }
    frame.set(n, object);
    Ok(())
}

/// Gives the local with this number its object.
pub fn put(alloc: Global, run: &mut Run, n: u32, object: Values) -> Result<(), AllocError>
    ensures { OnOk result (run.new ≡ put n object run.old) }
{
    put_in(alloc, &mut run.frame, n as usize, object)?;
    Ok(())
}

/// The elements of a host access.
pub fn access_at(world: &World, k: u32) -> &[i128]
    ensures { result.now ≡ access_at k world.now }
{
    object_at(&world.accesses, k as usize)
}

/// Gives a host access its elements.
pub fn put_access(world: &mut World, k: u32, values: Values)
    ensures { world.new ≡ put_access k values world.old }
{
    world.accesses.set(k as usize, values);
}
