//! What all objects of the library are made of, and vectors. (SYCL 2020; C++17, [vector.cons])

ghost use Rattle.std.specs.Prelude.{◌≡◌};
ghost use Rattle.sy_rules.specs.Fit.{wanted_by};
ghost use Rattle.sy_rules.specs.Objects.{object_row, fit_vector_arguments, fit_vector_initializer, fit_vector, is_call_of, is_device_vector, is_event, fit_device_vector, is_submitted, arguments_of};

use crate::buffers::buffer_row;
use crate::objects::{accessor_row, fit_device, fit_queue, host_accessor_row, local_accessor_row};
use crate::ranges::{id_row, nd_range_row, range_row};
use sy_constants::dimensions_written;
use sy_fits::{all_integers, arguments_if, both, row, same_kind, wanted_of};
use sy_num::Kind;
use sy_rules::{Fit, Row, Seen, SeenArgument, SeenInitializer, Wanted};
use sy_tree::{Brackets, Lexeme, ObjectType};
use sy_typed::Thing;

/// The dimensions of a literal between `<` and `>`, which may be left out.
pub fn wanted_by(literal: &Option<Lexeme>) -> Wanted
    ensures { result ≡ wanted_by literal.now }
{
    match literal {
        None => Wanted::Unwritten,
        Some(x) => wanted_of(dimensions_written(x.text.items())),
    }
}

/// The row of an object that is made of these arguments.
pub fn object_row(t: &ObjectType, xs: &[SeenArgument]) -> Row
    ensures { result ≡ object_row t.now xs.now }
{
    match t {
        ObjectType::Queue(_) => row(fit_queue(xs), Thing::Queue),
        ObjectType::Device(_) => row(fit_device(xs), Thing::Device),
        ObjectType::Context(_) => row(fit_device(xs), Thing::Context),
        ObjectType::Event(_) => row(Fit::Fits, Thing::Event),
        ObjectType::Accessor(_) => accessor_row(xs),
        ObjectType::HostAccessor(_) => host_accessor_row(xs),
        ObjectType::LocalAccessor(_, t) => local_accessor_row(t, xs),
        ObjectType::Buffer(_, t) => buffer_row(t, xs),
        ObjectType::Range(_, d) => range_row(wanted_by(d), xs),
        ObjectType::Id(_, d) => id_row(wanted_by(d), xs),
        ObjectType::NdRange(_, d) => nd_range_row(wanted_by(d), xs),
    }
}

/// The row of a declared object with this initializer. `=` gives one argument.
pub fn initialized_row(t: &ObjectType, initializer: &Option<SeenInitializer>) -> Row
    ensures { result ≡ object_row t.now (arguments_of initializer.now) }
{
    match initializer {
        None => object_row(t, &[]),
        Some(SeenInitializer::Copy(a)) => object_row(t, &[SeenArgument::Value(*a)]),
        Some(SeenInitializer::Direct(_, xs)) => object_row(t, xs.as_slice()),
    }
}

// ---- vectors of integers: empty; of a count; of a count and a value; of the values in braces

fn fit_vector_arguments(brackets: Brackets, xs: &[SeenArgument]) -> Fit
    ensures { result ≡ fit_vector_arguments brackets xs.now }
{
    match brackets {
        Brackets::Braces => arguments_if(all_integers(xs)),
        Brackets::Parentheses => match xs {
            [] => Fit::WrongArguments,
            _ => arguments_if(all_integers(xs) && xs.len() <= 2),
        },
    }
}

fn fit_vector_initializer(initializer: &Option<SeenInitializer>) -> Fit
    ensures { result ≡ fit_vector_initializer initializer.now }
{
    match initializer {
        None => Fit::Fits,
        Some(SeenInitializer::Copy(a)) => arguments_if(a.what.is_none()),
        Some(SeenInitializer::Direct(b, xs)) => fit_vector_arguments(*b, xs.as_slice()),
    }
}

/// There is no vector of Bool.
pub fn fit_vector(kind: Kind, initializer: &Option<SeenInitializer>) -> Fit
    ensures { result ≡ fit_vector kind initializer.now }
{
    both(
        arguments_if(!same_kind(kind, Kind::Bool)),
        fit_vector_initializer(initializer),
    )
}

// ---- what calls give

fn is_call_for_devices(a: Seen) -> bool
    ensures { result ≡ is_call_of is_device_vector a }
{
    match a.what {
        None => true,
        Some(t) => matches!(t, Thing::DeviceVector) && a.variable.is_none(),
    }
}

fn is_call_of_submit(a: Seen) -> bool
    ensures { result ≡ is_call_of is_event a }
{
    match a.what {
        None => true,
        Some(t) => matches!(t, Thing::Event) && a.variable.is_none(),
    }
}

/// A vector of devices is what a call of `create_sub_devices` gives, behind `=`.
pub fn fit_device_vector(initializer: &Option<SeenInitializer>) -> Fit
    ensures { result ≡ fit_device_vector initializer.now }
{
    match initializer {
        Some(SeenInitializer::Copy(a)) => arguments_if(is_call_for_devices(*a)),
        _ => Fit::WrongArguments,
    }
}

/// An event is what a call of `submit` gives, behind `=`.
pub fn is_submitted(initializer: &Option<SeenInitializer>) -> bool
    ensures { result ≡ is_submitted initializer.now }
{
    match initializer {
        Some(SeenInitializer::Copy(a)) => is_call_of_submit(*a),
        _ => false,
    }
}
