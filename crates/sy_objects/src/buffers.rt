//! What buffers are made of: over a vector, of a range, or a part of another one. (SYCL 2020, "Buffer class")

ghost use Rattle.std.specs.Prelude.{◌≡◌, [], ◌∷◌, Some, None};
ghost use Rattle.sy_rules.specs.Objects.{fit_element, buffer_wanted, is_changeable, is_open_name, fit_only, fit_data, fit_id_type, fit_id, fit_part, fit_buffer, data_buffer, vector_buffer, found_buffer, buffer_made, buffer_row};

use crate::objects::element_dimensions;
use crate::ranges::first_type;
use sy_fits::{
    arguments_if, both, element_if, fit_dimensions, fit_range, fit_range_type, same_kind, type_in,
    wanted_of,
};
use sy_num::Kind;
use sy_rules::{Denotes, Fit, Row, Seen, SeenArgument, Wanted};
use sy_tree::ElementArguments;
use sy_typed::{Dimensions, Thing};

fn fit_element(t: &Option<ElementArguments>, k: Kind) -> Fit
    ensures { result ≡ fit_element t.now k }
{
    match t {
        None => Fit::Fits,
        Some(t) => element_if(same_kind(t.element.kind, k)),
    }
}

fn buffer_wanted(t: &Option<ElementArguments>) -> Wanted
    ensures { result ≡ buffer_wanted t.now }
{
    match t {
        None => Wanted::Unwritten,
        Some(t) => wanted_of(element_dimensions(t)),
    }
}

fn is_changeable(denotes: Denotes) -> bool
    ensures { result ≡ is_changeable denotes }
{
    match denotes {
        Denotes::Place(fixed) => !fixed,
        _ => false,
    }
}

/// The name itself, of what isn't const.
fn is_open_name(a: Seen) -> bool
    ensures { result ≡ is_open_name a }
{
    a.is_bare && is_changeable(a.denotes)
}

fn fit_only(t: &Option<ElementArguments>, a: Seen) -> Fit
    ensures { result ≡ fit_only t.now a a.what }
{
    match a.what {
        None => Fit::Fits,
        Some(Thing::Vector(k)) => both(
            arguments_if(is_open_name(a)),
            both(
                fit_dimensions(buffer_wanted(t), Dimensions::One),
                fit_element(t, k),
            ),
        ),
        Some(what) => match t {
            None => Fit::WrongArguments,
            Some(_) => fit_range_type(buffer_wanted(t), Some(what)),
        },
    }
}

fn fit_data(t: &Option<ElementArguments>, a: Seen) -> Fit
    ensures { result ≡ fit_data t.now a a.what }
{
    match a.what {
        None => Fit::Fits,
        Some(Thing::Data(k)) => both(arguments_if(is_open_name(a)), fit_element(t, k)),
        Some(_) => Fit::WrongArguments,
    }
}

fn fit_id_type(d: Dimensions, what: Option<Thing>) -> Fit
    ensures { result ≡ fit_id_type d what }
{
    match what {
        None => Fit::Fits,
        Some(Thing::Id(e)) => fit_dimensions(Wanted::Written(d), e),
        Some(_) => Fit::WrongArguments,
    }
}

fn fit_id(d: Dimensions, a: &SeenArgument) -> Fit
    ensures { result ≡ fit_id d a.now }
{
    match a {
        SeenArgument::Value(seen) => fit_id_type(d, seen.what),
        _ => Fit::WrongArguments,
    }
}

/// A part of a buffer, at an id and of a range.
fn fit_part(t: &Option<ElementArguments>, a: Seen, i: &SeenArgument, r: &SeenArgument) -> Fit
    ensures { result ≡ fit_part t.now a a.what i.now r.now }
{
    match a.what {
        Some(Thing::Buffer(k, d)) => {
            let whole = both(fit_dimensions(buffer_wanted(t), d), fit_element(t, k));
            let place = both(fit_id(d, i), both(fit_range(Wanted::Written(d), r), whole));
            both(arguments_if(a.is_bare), place)
        }
        None => Fit::Fits,
        Some(_) => Fit::WrongArguments,
    }
}

/// A range in place of a vector, where the elements' kind is written.
fn fit_extent(t: &Option<ElementArguments>, a: &SeenArgument) -> Fit
    ensures { result ≡ fit_buffer t.now (a.now ∷ []) }
{
    match a {
        SeenArgument::Value(seen) => fit_only(t, *seen),
        _ => match t {
            None => Fit::WrongArguments,
            Some(t) => fit_range(wanted_of(element_dimensions(t)), a),
        },
    }
}

pub fn fit_buffer(t: &Option<ElementArguments>, xs: &[SeenArgument]) -> Fit
    ensures { result ≡ fit_buffer t.now xs.now }
{
    match xs {
        [a] => fit_extent(t, a),
        [SeenArgument::Value(a), r] => both(fit_data(t, *a), fit_range(buffer_wanted(t), r)),
        [SeenArgument::Value(a), i, r] => fit_part(t, *a, i, r),
        _ => Fit::WrongArguments,
    }
}

fn data_buffer(elements: Option<Thing>, range: Option<Thing>) -> Option<Thing>
    ensures { result ≡ data_buffer elements range }
{
    match elements {
        Some(Thing::Data(k)) => match range {
            Some(Thing::Range(d)) => Some(Thing::Buffer(k, d)),
            _ => None,
        },
        _ => None,
    }
}

fn vector_buffer(what: Option<Thing>) -> Option<Thing>
    ensures { result ≡ vector_buffer what }
{
    match what {
        Some(Thing::Vector(k)) => Some(Thing::Buffer(k, Dimensions::One)),
        _ => None,
    }
}

/// The type of a buffer whose type isn't written.
fn found_buffer(xs: &[SeenArgument]) -> Option<Thing>
    ensures { result ≡ found_buffer xs.now }
{
    match xs {
        [a] => vector_buffer(type_in(a)),
        [a, r] => data_buffer(type_in(a), type_in(r)),
        _ => first_type(xs),
    }
}

fn buffer_made(t: &Option<ElementArguments>, xs: &[SeenArgument]) -> Option<Thing>
    ensures { result ≡ buffer_made t.now xs.now }
{
    match t {
        None => found_buffer(xs),
        Some(t) => match element_dimensions(t) {
            None => None,
            Some(d) => Some(Thing::Buffer(t.element.kind, d)),
        },
    }
}

pub fn buffer_row(t: &Option<ElementArguments>, xs: &[SeenArgument]) -> Row
    ensures { result ≡ buffer_row t.now xs.now }
{
    Row {
        fit: fit_buffer(t, xs),
        gives: buffer_made(t, xs),
    }
}
