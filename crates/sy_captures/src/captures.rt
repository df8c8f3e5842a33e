//! A whole list of captures. (C++17, [expr.prim.lambda.capture])

ghost use Rattle.std.specs.Prelude.{◌≡◌, ◌++◌, Option, OnOk, IfOk, length, map};
ghost use Rattle.sy_captures.specs.Taken.{name_found};
ghost use Rattle.sy_found.specs.Noted.{found_in};
ghost use Rattle.sy_found.specs.declared.parts.Place.{Place};
ghost use Rattle.sy_rules.specs.Walk.{one_listed, one_capture, all_captures};
ghost use Rattle.sy_rules.specs.declared.names.Names.{Names as TheNames};

use crate::bodies::declare_listed;
use crate::faults::listed;
use crate::given::push_listed;
use std::alloc::{AllocError, Global};
use sy_constructs::used;
use sy_findings::Findings;
use sy_found::Found;
use sy_names::Names;
use sy_rules::{Named, ThreadScope};
use sy_tree::{Capture, Lexeme};
use sy_typed::TypedCapture;

/// Adds what a listed name breaks, uses and takes. `names` are those outside the lambda.
fn add_listed(
    found: &mut Found,
    captures: &mut Vec<TypedCapture>,
    names: &Names,
    t: Option<ThreadScope>,
    by_reference: bool,
    x: &Lexeme,
) -> Result<(), AllocError>
    ensures found { OnOk result ((p : Option Place) (n : TheNames) → found.new ≡ found_in p found.old (one_listed names.now t by_reference x.now n).found) }
    ensures taken { OnOk result ((n : TheNames) → captures.new.items ≡ captures.old.items ++ (one_listed names.now t by_reference x.now n).what) }
{
    let v = names.find(x.text.items());
    let mut own = Findings::new();
    listed(&mut own, names, t, by_reference, x, v);
    found.add(own);
    found.add_use(used(v))?;
    push_listed(captures, by_reference, v)?;
    Ok(())
}

fn add_capture(
    found: &mut Found,
    captures: &mut Vec<TypedCapture>,
    names: &Names,
    t: Option<ThreadScope>,
    c: &Capture,
) -> Result<(), AllocError>
    ensures found { OnOk result ((p : Option Place) (n : TheNames) → found.new ≡ found_in p found.old (one_capture names.now t c.now n).found) }
    ensures taken { OnOk result ((n : TheNames) → captures.new.items ≡ captures.old.items ++ (one_capture names.now t c.now n).what) }
{
    match c {
        Capture::Reference(_, x) => {
            add_listed(found, captures, names, t, true, x)?;
            Ok(())
        }
        Capture::Copy(x) => {
            add_listed(found, captures, names, t, false, x)?;
            Ok(())
        }
        _ => Ok(()),
    }
}

/// Adds what a list of captures breaks, uses and takes. `names` are those outside the lambda.
pub fn add_captures(
    found: &mut Found,
    captures: &mut Vec<TypedCapture>,
    names: &Names,
    t: Option<ThreadScope>,
    cs: &[Capture],
) -> Result<(), AllocError>
    ensures found { OnOk result ((p : Option Place) (n : TheNames) → found.new ≡ found_in p found.old (all_captures names.now t cs.now n).found) }
    ensures taken { OnOk result ((n : TheNames) → captures.new.items ≡ captures.old.items ++ (all_captures names.now t cs.now n).what) }
{
    for c in cs {
        add_capture(found, captures, names, t, c)?;
    }
    Ok(())
}

// ---- the names inside

fn name_found(names: &Names, c: &Capture) -> Option<Named>
    ensures { result ≡ name_found names.now c.now }
{
    match c {
        Capture::Reference(_, x) => names.find(x.text.items()),
        Capture::Copy(x) => names.find(x.text.items()),
        _ => None,
    }
}

/// What the names outside a lambda know of each name that it lists; None at a default.
pub fn names_found(
    alloc: Global,
    names: &Names,
    cs: &[Capture],
) -> Result<Vec<Option<Named>>, AllocError>
    ensures { IfOk result (λ vs. vs.items ≡ map (name_found names.now) cs.now) }
{
    let mut all = Vec::new(alloc);
    for c in cs {
        all.push(name_found(names, c))?;
    }
    Ok(all)
}

fn declare_capture(
    names: &mut Names,
    t: Option<ThreadScope>,
    c: &Capture,
    found: Option<Named>,
) -> Result<(), AllocError>
    ensures ok { OnOk result ((n : TheNames) → found ≡ name_found n c.now → names.new ≡ (one_capture n t c.now names.old).names) }
{
    match c {
        Capture::Reference(_, x) => declare_listed(names, t, true, x, found),
        Capture::Copy(x) => declare_listed(names, t, false, x, found),
        _ => Ok(()),
    }
}

/// Declares the names that a lambda lists, with what [`names_found`] answered outside it.
pub fn declare_captures(
    names: &mut Names,
    t: Option<ThreadScope>,
    cs: &[Capture],
    outside: &[Option<Named>],
) -> Result<(), AllocError>
    requires { length cs.now ≡ length outside.now }
    ensures ok { OnOk result ((n : TheNames) → outside.now ≡ map (name_found n) cs.now → names.new ≡ (all_captures n t cs.now names.old).names) }
{
    for i in 0..cs.len() {
        declare_capture(names, t, &cs[i], outside[i])?;
    }
    Ok(())
}
