//! What a lambda is given. (C++17, [expr.prim.lambda.capture]; SYCL 2020, "Defining kernels as lambdas")

ghost use Rattle.std.specs.Prelude.{◌≡◌, ◌++◌, ℕ, List, [], ◌∷◌, OnOk, IfOk, map, nat_eq};
ghost use Rattle.std.specs.List.{list_any};
ghost use Rattle.sy_captures.specs.Taken.{taken_by};
ghost use Rattle.sy_rules.specs.Lambdas.{each_once, outer_uses, reference_to, copy_of, number_listed, captures_given};
ghost use Rattle.sy_rules.specs.Walk.{capture_of};
ghost use Rattle.sy_rules.specs.declared.names.Named.{Named as TheNamed};

use indexmap::IndexSet;
use std::alloc::{AllocError, Global};
use sy_constructs::variable;
use sy_rules::{Named, Role};
use sy_typed::TypedCapture;

/// A capture by reference.
fn reference_to(v: Named) -> TypedCapture
    ensures { result ≡ reference_to v }
{
    TypedCapture::Reference(variable(v.number, v.what, v.spot))
}

/// A capture by copy: where the name stands for an element, of the element.
fn copy_of(v: Named) -> TypedCapture
    ensures { result ≡ copy_of v }
{
    let copied = variable(v.number, v.what, v.spot);
    if v.names_element {
        TypedCapture::Element(copied)
    } else {
        TypedCapture::Copy(copied)
    }
}

fn taken_by(by_reference: bool, v: Named) -> TypedCapture
    ensures { result ≡ taken_by by_reference v }
{
    if by_reference {
        reference_to(v)
    } else {
        copy_of(v)
    }
}

/// Adds what a listed name takes, if it is declared.
pub fn push_listed(
    captures: &mut Vec<TypedCapture>,
    by_reference: bool,
    found: Option<Named>,
) -> Result<(), AllocError>
    ensures ok { OnOk result (captures.new.items ≡ captures.old.items ++ capture_of by_reference found) }
{
    if let Some(v) = found {
        captures.push(taken_by(by_reference, v))?;
    }
    Ok(())
}

fn number_listed(c: TypedCapture) -> u32
    ensures { result ≡ number_listed c }
{
    match c {
        TypedCapture::Reference(x) => x.number,
        TypedCapture::Copy(x) => x.number,
        TypedCapture::Element(x) => x.number,
    }
}

fn numbers_listed(alloc: Global, listed: &[TypedCapture]) -> Result<IndexSet<u32>, AllocError>
    ensures { IfOk result (λ s. (n : ℕ) → list_any (nat_eq n) s.keys ≡ list_any (nat_eq n) (map number_listed listed.now)) }
{
    let mut numbers = IndexSet::new(alloc);
    for c in listed {
        let _ = numbers.insert(number_listed(*c))?;
    }
    Ok(numbers)
}

/// Adds the declaration, unless its number was seen before.
fn push_once(
    seen: &mut IndexSet<u32>,
    captures: &mut Vec<TypedCapture>,
    by_reference: bool,
    v: Named,
) -> Result<(), AllocError>
    ensures ok { OnOk result ((rest : List TheNamed) → captures.new.items ++ map (taken_by by_reference) (each_once seen.new.keys rest) ≡ captures.old.items ++ map (taken_by by_reference) (each_once seen.old.keys (v ∷ rest))) }
{
    if seen.insert(v.number)? {
        captures.push(taken_by(by_reference, v))?;
    }
    Ok(())
}

/// Adds each declaration once that is used and has a number below `start`, but for those that were seen before.
fn push_uses(
    seen: &mut IndexSet<u32>,
    captures: &mut Vec<TypedCapture>,
    by_reference: bool,
    start: u32,
    used: &[Named],
) -> Result<(), AllocError>
    ensures ok { OnOk result (captures.new.items ≡ captures.old.items ++ map (taken_by by_reference) (each_once seen.old.keys (outer_uses start used.now))) }
{
    for v in used {
        if v.number < start {
            push_once(seen, captures, by_reference, *v)?;
        }
    }
    Ok(())
}

/// What a lambda of this role is given. The declarations from the number `start` on are its own; `listed` is what it
/// lists, and `used` what its body uses.
pub fn captures_given(
    alloc: Global,
    role: Role,
    start: u32,
    listed: Vec<TypedCapture>,
    used: &[Named],
) -> Result<Vec<TypedCapture>, AllocError>
    ensures { IfOk result (λ cs. cs.items ≡ captures_given role start listed.items used.now) }
{
    match role {
        Role::Group => Ok(Vec::new(alloc)),
        Role::Kernel(_, _) => {
            let mut copies = Vec::new(alloc);
            push_uses(&mut IndexSet::new(alloc), &mut copies, false, start, used)?;
            Ok(copies)
        }
        Role::Thread(_) => with_references(alloc, start, listed, used),
    }
}

/// What a thread's lambda lists, and then by reference what it uses.
fn with_references(
    alloc: Global,
    start: u32,
    listed: Vec<TypedCapture>,
    used: &[Named],
) -> Result<Vec<TypedCapture>, AllocError>
    ensures { IfOk result (λ cs. cs.items ≡ listed.items ++ map reference_to (each_once (map number_listed listed.items) (outer_uses start used.now))) }
{
    let mut captures = listed;
    let mut seen = numbers_listed(alloc, &captures)?;
    push_uses(&mut seen, &mut captures, true, start, used)?;
    Ok(captures)
}
