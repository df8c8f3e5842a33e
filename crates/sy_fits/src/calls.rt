//! Calls of the source's own functions, of a reduction, and of group functions. (C++17, [expr.call]; SYCL 2020,
//! "Reduction variables", "Group functions library")

ghost use Rattle.std.specs.Prelude.{◌≡◌, ◌&&◌};
ghost use Rattle.std.specs.List.{list_any};
ghost use Rattle.sy_rules.specs.Fit.{may_be};
ghost use Rattle.sy_rules.specs.Objects.{is_buffer, is_handler};
ghost use Rattle.sy_rules.specs.Calls.{same_object, is_const, can_be_passed, all_passed, is_reference, takes_references, returned_type, combines, element_kind, fit_combined, fit_reduction, fit_combining, fit_broadcast, fit_library, reduction_type, reduction_of, integer_of, value_of, library_gives, library_row, is_reduction_call, is_function_object};

use crate::fits::{arguments_if, both, element_if, same_dimensions, same_kind};
use crate::sorts::{Sort, may_be, type_in};
use sy_findings::{is_integer, kind_of};
use sy_num::Kind;
use sy_rules::{Denotes, Fit, Passed, Row, Seen, SeenArgument, Signature};
use sy_tree::LibraryFunction;
use sy_typed::Thing;

// ---- functions of the source

/// The types of reference parameters.
fn same_object(a: Thing, b: Thing) -> bool
    ensures { result ≡ same_object a b }
{
    match (a, b) {
        (Thing::Queue, Thing::Queue) => true,
        (Thing::Device, Thing::Device) => true,
        (Thing::Context, Thing::Context) => true,
        (Thing::Buffer(j, d), Thing::Buffer(k, e)) => same_kind(j, k) && same_dimensions(d, e),
        (Thing::Vector(j), Thing::Vector(k)) => same_kind(j, k),
        _ => false,
    }
}

pub fn is_const(denotes: Denotes) -> bool
    ensures { result ≡ is_const denotes }
{
    match denotes {
        Denotes::Place(fixed) => fixed,
        _ => false,
    }
}

/// An integer, or the name of a variable of the parameter's type, which is const only where it may be.
pub fn can_be_passed(p: Passed, a: Seen) -> bool
    ensures { result ≡ can_be_passed p a }
{
    let Some(found) = a.what else {
        return true;
    };
    match p {
        Passed::Integer => is_integer(found),
        Passed::Reference(None, _) => true,
        Passed::Reference(Some(t), takes_const) => {
            same_object(t, found) && (a.is_bare && (takes_const || !is_const(a.denotes)))
        }
    }
}

/// The arguments are those of the parameters.
pub fn all_passed(ps: &[Passed], xs: &[Seen]) -> bool
    ensures { result ≡ all_passed ps.now xs.now }
{
    let mut rest = xs;
    for p in ps {
        let [a, more @ ..] = rest else {
            return false;
        };
        if !can_be_passed(*p, *a) {
            return false;
        }
        rest = more;
    }
    rest.is_empty()
}

fn is_reference(p: Passed) -> bool
    ensures { result ≡ is_reference p }
{
    matches!(p, Passed::Reference(_, _))
}

/// The function has a parameter by reference.
pub fn takes_references(f: &Signature) -> bool
    ensures { result ≡ takes_references f.now }
{
    for p in f.parameters.items() {
        if is_reference(*p) {
            return true;
        }
    }
    false
}

pub fn returned_type(returned: Option<Kind>) -> Thing
    ensures { result ≡ returned_type returned }
{
    match returned {
        None => Thing::Void,
        Some(k) => Thing::Integer(k),
    }
}

// ---- functions of the library

/// A function object combines values of the kind: no Bool, and no other kind is written at it.
fn combines(op: Option<Thing>, kind: Kind) -> bool
    ensures { result ≡ combines op kind }
{
    match op {
        Some(Thing::FunctionObject(_, Some(j))) => {
            same_kind(j, kind) && !same_kind(kind, Kind::Bool)
        }
        _ => !same_kind(kind, Kind::Bool),
    }
}

fn element_kind(what: Option<Thing>) -> Option<Kind>
    ensures { result ≡ element_kind what }
{
    match what {
        Some(Thing::Buffer(k, _)) => Some(k),
        _ => None,
    }
}

fn fit_combined(op: Option<Thing>, kind: Option<Kind>) -> Fit
    ensures { result ≡ fit_combined op kind }
{
    match kind {
        None => Fit::Fits,
        Some(k) => element_if(combines(op, k)),
    }
}

/// The buffer, the handler and the operator of a reduction.
fn is_reduced(b: &SeenArgument, h: &SeenArgument, op: &SeenArgument, more: bool) -> bool
    ensures { result ≡ (may_be is_buffer b.now && (may_be is_handler h.now && (may_be is_function_object op.now && more))) }
{
    may_be(Sort::Buffer, b)
        && (may_be(Sort::Handler, h) && (may_be(Sort::FunctionObject, op) && more))
}

fn fit_reduction(xs: &[SeenArgument]) -> Fit
    ensures { result ≡ fit_reduction xs.now }
{
    match xs {
        [b, h, op] => both(
            arguments_if(
                may_be(Sort::Buffer, b)
                    && (may_be(Sort::Handler, h) && may_be(Sort::FunctionObject, op)),
            ),
            fit_combined(type_in(op), element_kind(type_in(b))),
        ),
        [b, h, op, i] => both(
            arguments_if(is_reduced(b, h, op, may_be(Sort::Identity, i))),
            fit_combined(type_in(op), element_kind(type_in(b))),
        ),
        _ => Fit::WrongArguments,
    }
}

fn fit_combining(xs: &[SeenArgument]) -> Fit
    ensures { result ≡ fit_combining xs.now }
{
    match xs {
        [g, x, op] => both(
            arguments_if(
                may_be(Sort::Group, g)
                    && (may_be(Sort::Integer, x) && may_be(Sort::FunctionObject, op)),
            ),
            fit_combined(type_in(op), kind_of(type_in(x))),
        ),
        _ => Fit::WrongArguments,
    }
}

fn fit_broadcast(xs: &[SeenArgument]) -> Fit
    ensures { result ≡ fit_broadcast xs.now }
{
    match xs {
        [g, x] => arguments_if(may_be(Sort::Group, g) && may_be(Sort::Integer, x)),
        [g, x, i] => arguments_if(
            may_be(Sort::Group, g) && (may_be(Sort::Integer, x) && may_be(Sort::Integer, i)),
        ),
        _ => Fit::WrongArguments,
    }
}

fn fit_library(f: LibraryFunction, xs: &[SeenArgument]) -> Fit
    ensures { result ≡ fit_library f xs.now }
{
    match f {
        LibraryFunction::Reduction => fit_reduction(xs),
        LibraryFunction::GroupBroadcast => fit_broadcast(xs),
        _ => fit_combining(xs),
    }
}

fn reduction_type(buffer: Option<Thing>, op: Option<Thing>) -> Option<Thing>
    ensures { result ≡ reduction_type buffer op }
{
    match buffer {
        Some(Thing::Buffer(k, _)) => match op {
            Some(Thing::FunctionObject(f, _)) => Some(Thing::Reduction(k, f)),
            _ => None,
        },
        _ => None,
    }
}

fn reduction_of(xs: &[SeenArgument]) -> Option<Thing>
    ensures { result ≡ reduction_of xs.now }
{
    match xs {
        [b, _, op, ..] => reduction_type(type_in(b), type_in(op)),
        _ => None,
    }
}

pub fn integer_of(kind: Option<Kind>) -> Option<Thing>
    ensures { result ≡ integer_of kind }
{
    match kind {
        None => None,
        Some(k) => Some(Thing::Integer(k)),
    }
}

/// The kind of the value of a group function.
fn value_of(xs: &[SeenArgument]) -> Option<Thing>
    ensures { result ≡ value_of xs.now }
{
    match xs {
        [_, x, ..] => integer_of(kind_of(type_in(x))),
        _ => None,
    }
}

/// The row of a function of the library.
pub fn library_row(f: LibraryFunction, xs: &[SeenArgument]) -> Row
    ensures { result ≡ library_row f xs.now }
{
    let gives = match f {
        LibraryFunction::Reduction => reduction_of(xs),
        _ => value_of(xs),
    };
    Row {
        fit: fit_library(f, xs),
        gives,
    }
}

pub fn is_reduction_call(f: LibraryFunction) -> bool
    ensures { result ≡ is_reduction_call f }
{
    matches!(f, LibraryFunction::Reduction)
}
