//! Functions of a source. (C++17, [dcl.fct], [basic.start.main])

ghost use Rattle.std.specs.Prelude.{◌≡◌, List, [], OnOk, IfOk, map, length};
ghost use Rattle.std.specs.List.{list_any};
ghost use Rattle.sy_findings.specs.Told.{told};
ghost use Rattle.sy_note.specs.declared.Code.TheVariants as code;
ghost use Rattle.sy_rules.specs.Faults.{at};
ghost use Rattle.sy_rules.specs.declared.names.Setting.{Setting as TheSetting};
ghost use Rattle.sy_units.specs.Items.{is_main_item, is_function};
ghost use Rattle.sy_rules.specs.Units.{returned_kind, is_named_main, signature_of, with_function, in_function, returns_int, takes_nothing, is_main, no_main, function_items, place_of_main, passed_to};

use crate::parameters::passed_to;
use std::alloc::{AllocError, Global};
use sy_findings::Findings;
use sy_fits::same_kind;
use sy_names::Names;
use sy_note::{Code, Spot};
use sy_num::Kind;
use sy_rules::{Constant, Named, Parameters, Passed, Setting, Signature, Taken, Within};
use sy_tree::{FileItem, Function, Parameter, ReturnType};
use sy_typed::Thing;

/// The kind of the value that a function returns, if it returns one.
pub fn returned_kind(of: ReturnType) -> Option<Kind>
    ensures { result ≡ returned_kind of }
{
    match of {
        ReturnType::Void(_) => None,
        ReturnType::Integer(t) => Some(t.kind),
    }
}

fn is_named_main(f: &Function) -> bool
    ensures { result ≡ is_named_main f.now }
{
    f.name.text.items() == b"main".as_slice()
}

fn all_passed(alloc: Global, ps: &[Parameter]) -> Result<Vec<Passed>, AllocError>
    ensures { IfOk result (λ xs. xs.items ≡ map passed_to ps.now) }
{
    let mut all = Vec::new(alloc);
    for p in ps {
        all.push(passed_to(p))?;
    }
    Ok(all)
}

fn signature_of(alloc: Global, f: &Function) -> Result<Signature, AllocError>
    ensures { IfOk result (λ s. s ≡ signature_of f.now) }
{
    Ok(Signature {
        is_main: is_named_main(f),
        returned: returned_kind(f.returned),
        parameters: Parameters::of(all_passed(alloc, f.parameters.as_slice())?),
    })
}

/// Declares a function, with its place among the functions.
pub fn declare_function(
    alloc: Global,
    names: &mut Names,
    f: &Function,
    place: u32,
) -> Result<(), AllocError>
    requires { place ≡ length names.old.functions }
    ensures { OnOk result (names.new ≡ with_function f.now names.old) }
{
    let named = Named {
        number: 0,
        what: Some(Thing::Void),
        spot: f.name.spot,
        fixed: true,
        names_element: false,
        depth: names.depth(),
        constant: Constant::Varying,
        function: Some(place),
    };
    names.add_function(signature_of(alloc, f)?)?;
    names.add_entry(f.name.text.items(), named)
}

/// The setting of the body of the function with this place.
pub fn in_function(place: u32, f: &Function) -> Setting
    ensures { (s : TheSetting) → result ≡ in_function place f.now s }
{
    Setting {
        within: Within::Host,
        function: Some(place),
        returned: returned_kind(f.returned),
        in_loop: false,
        kernel: None,
        taken: Taken::Nothing,
    }
}

// ---- main

fn returns_int(of: ReturnType) -> bool
    ensures { result ≡ returns_int of }
{
    match of {
        ReturnType::Integer(t) => same_kind(t.kind, Kind::Int),
        ReturnType::Void(_) => false,
    }
}

fn takes_nothing(ps: &[Parameter]) -> bool
    ensures { result ≡ takes_nothing ps.now }
{
    match ps {
        [] => true,
        _ => false,
    }
}

fn is_main(f: &Function) -> bool
    ensures { result ≡ is_main f.now }
{
    is_named_main(f) && (returns_int(f.returned) && takes_nothing(f.parameters.as_slice()))
}

/// An item is a `main` that returns int and takes nothing.
fn is_main_item(i: &FileItem) -> bool
    ensures { result ≡ is_main_item i.now }
{
    match i {
        FileItem::Constant(_) => false,
        FileItem::Function(f) => is_main(f),
    }
}

fn has_main(items: &[FileItem]) -> bool
    ensures { result ≡ list_any is_main (function_items items.now) }
{
    for i in items {
        if is_main_item(i) {
            return true;
        }
    }
    false
}

/// NoMain, where no function is a `main` that returns int and takes nothing.
pub fn no_main(findings: &mut Findings, items: &[FileItem])
    ensures { findings.new ≡ told findings.old (at code.NoMain (no_main (function_items items.now))) }
{
    findings.tell_if(!has_main(items), Code::NoMain, Spot::START);
}

fn is_function(i: &FileItem) -> bool
    ensures { result ≡ is_function i.now }
{
    matches!(i, FileItem::Function(_))
}

/// How many functions stand before `main`.
pub fn place_of_main(items: &[FileItem]) -> usize
    ensures { result ≡ place_of_main (function_items items.now) }
{
    let mut place = 0;
    for i in items {
        if is_main_item(i) {
            return place;
        }
        if is_function(i) {
            place += 1;
        }
    }
    place
}

/// How many functions a source has.
pub fn count_functions(items: &[FileItem]) -> usize
    ensures { result ≡ length (function_items items.now) }
{
    let mut count = 0;
    for i in items {
        if is_function(i) {
            count += 1;
        }
    }
    count
}
