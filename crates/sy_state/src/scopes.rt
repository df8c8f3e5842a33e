// Scopes with what is to be ended with them, the threads that were joined, and the command group.

ghost use Rattle.std.specs.Prelude.{◌≡◌, ◌==◌, [], ◌∷◌, IfOk, MatchOption, OnOk};
ghost use Rattle.std.specs.List.{list_any};
ghost use Rattle.sy_meaning.specs.Frame.{opened, living, with_living, lives, left, is_joined, joined, group_of, put_group, no_longer};

use std::alloc::{AllocError, Global};
use sy_access::{Needs, Numbers, Sizes};
use sy_meaning::{Group, Live, Scope, World};
use sy_stack::Stack;

/// Opens a scope.
pub fn opened(alloc: Global, world: &mut World) -> Result<(), AllocError>
    ensures { OnOk result (world.new ≡ opened world.old) }
{
    world.scopes.push(Scope {
        live: Stack::new(alloc),
    })?;
    Ok(())
}

fn take_innermost(alloc: Global, world: &mut World) -> Scope
    ensures live { result.live ≡ living world.old }
    ensures rest { world.new ≡ left world.old }
{
    match world.scopes.pop() {
        Some(scope) => scope,
        None => Scope {
            live: Stack::new(alloc),
        },
    }
}

fn put_innermost(world: &mut World, scope: Scope) -> Result<(), AllocError>
    ensures { OnOk result (world.new ≡ record world.old { scopes = scope ∷ world.old.scopes }) }
{
    world.scopes.push(scope)?;
    Ok(())
}

/// Adds what is to be ended with the innermost scope.
pub fn lives(alloc: Global, world: &mut World, live: Live) -> Result<(), AllocError>
    ensures { OnOk result (world.new ≡ lives live world.old) }
{
    let mut scope = take_innermost(alloc, world);
    scope.live.push(live)?;
    put_innermost(world, scope)?;
    Ok(())
}

/// Takes the last made of what is to be ended with the innermost scope; where nothing is left, the scope is left.
pub fn next_living(alloc: Global, world: &mut World) -> Result<Option<Live>, AllocError>
    ensures { IfOk result
        (λ next.
        MatchOption next
        ((living world.old ≡ []) × (world.new ≡ left world.old))
        (λ live. (living world.old ≡ live ∷ living world.new) × (world.new ≡ with_living (living world.new) world.old))) }
{
    let mut scope = take_innermost(alloc, world);
    match scope.live.pop() {
        Some(live) => {
            put_innermost(world, scope)?;
            Ok(Some(live))
        }
        None => Ok(None),
    }
}

/// Leaves the innermost scope, with nothing ended.
pub fn left(world: &mut World)
    ensures { world.new ≡ left world.old }
{
    let _ = world.scopes.pop();
}

fn has(numbers: &[u32], n: u32) -> bool
    ensures { result ≡ list_any (λ u. u == n) numbers.now }
{
    let mut rest = numbers;
    while let [first, others @ ..] = rest {
        if *first == n {
            return true;
        }
        rest = others;
    }
    false
}

/// Whether the thread was joined.
pub fn is_joined(world: &World, thread: u32) -> bool
    ensures { result ≡ is_joined thread world.now }
{
    has(world.joined.oldest_first(), thread)
}

/// Says that the thread was joined.
pub fn joined(world: &mut World, thread: u32) -> Result<(), AllocError>
    ensures { OnOk result (world.new ≡ joined thread world.old) }
{
    world.joined.push(thread)?;
    Ok(())
}

/// Takes the command group out, or an empty one.
pub fn take_group(alloc: Global, world: &mut World) -> Group
    ensures group { result ≡ group_of world.old }
    ensures rest { world.new ≡ no_longer world.old }
{
    match world.group.take() {
        Some(group) => group,
        None => Group {
            needs: Needs::of(Vec::new(alloc)),
            locals: Sizes::of(Vec::new(alloc)),
            after: Numbers::of(Vec::new(alloc)),
            reduced: Numbers::of(Vec::new(alloc)),
            command: None,
        },
    }
}

pub fn put_group(world: &mut World, group: Group)
    ensures { world.new ≡ put_group group world.old }
{
    world.group = Some(group);
}

/// Leaves the command group.
pub fn no_longer(world: &mut World)
    ensures { world.new ≡ no_longer world.old }
{
    world.group = None;
}
