//! What ranges, ids and nd_ranges are made of. (SYCL 2020, "Ranges and index space identifiers")

ghost use Rattle.std.specs.Prelude.{◌≡◌, [], ◌∷◌, None};
ghost use Rattle.sy_rules.specs.Literals.{dimensions_numbered};
ghost use Rattle.sy_rules.specs.Objects.{fit_integers, dimensions_of_range, dimensions_of_id, fit_one, fit_counted, counted_dimensions, made_dimensions, range_row, id_row, fit_integer_side, fit_side_type, fit_side, fit_nd_range_value, wanted_after, fit_second_side, fit_nd_range, dimensions_of_nd_range, first_type, nd_range_row};

use sy_findings::is_integer;
use sy_fits::{
    all_integers, arguments_if, both, fit_count, fit_dimensions, fit_range, fit_range_type, type_in,
};
use sy_rules::{Fit, Row, SeenArgument, Wanted};
use sy_typed::{Dimensions, Thing};

/// One to three integers, so many as dimensions are wanted.
pub fn fit_integers(wanted: Wanted, xs: &[SeenArgument]) -> Fit
    ensures { result ≡ fit_integers wanted xs.now }
{
    match xs {
        [] => Fit::WrongArguments,
        _ => both(
            arguments_if(all_integers(xs) && xs.len() <= 3),
            fit_count(wanted, xs.len()),
        ),
    }
}

pub fn dimensions_of_range(what: Option<Thing>) -> Option<Dimensions>
    ensures { result ≡ dimensions_of_range what }
{
    match what {
        Some(Thing::Range(d)) => Some(d),
        _ => None,
    }
}

pub fn dimensions_of_id(what: Option<Thing>) -> Option<Dimensions>
    ensures { result ≡ dimensions_of_id what }
{
    match what {
        Some(Thing::Id(d)) => Some(d),
        _ => None,
    }
}

/// So many dimensions, if there may be so many.
pub fn dimensions_numbered(count: usize) -> Option<Dimensions>
    ensures { result ≡ dimensions_numbered count }
{
    if count == 1 {
        Some(Dimensions::One)
    } else if count == 2 {
        Some(Dimensions::Two)
    } else if count == 3 {
        Some(Dimensions::Three)
    } else {
        None
    }
}

/// One value: an integer where it isn't of the type itself.
fn fit_one_integer(wanted: Wanted, a: &SeenArgument) -> Fit
    ensures { result ≡ fit_one wanted a.now None }
{
    match a {
        SeenArgument::Value(seen) => match seen.what {
            None => Fit::Fits,
            Some(t) => both(arguments_if(is_integer(t)), fit_count(wanted, 1)),
        },
        _ => Fit::WrongArguments,
    }
}

/// `same` has the dimensions of the value if it is of the type itself.
fn fit_one(wanted: Wanted, a: &SeenArgument, same: Option<Dimensions>) -> Fit
    ensures { result ≡ fit_one wanted a.now same }
{
    match same {
        Some(d) => fit_dimensions(wanted, d),
        None => fit_one_integer(wanted, a),
    }
}

fn made_dimensions(wanted: Wanted, found: Option<Dimensions>) -> Option<Dimensions>
    ensures { result ≡ made_dimensions wanted found }
{
    match wanted {
        Wanted::Written(d) => Some(d),
        Wanted::Unknown => None,
        Wanted::Unwritten => found,
    }
}

fn fit_range_made(wanted: Wanted, xs: &[SeenArgument]) -> Fit
    ensures { result ≡ fit_counted dimensions_of_range wanted xs.now }
{
    match xs {
        [a] => fit_one(wanted, a, dimensions_of_range(type_in(a))),
        _ => fit_integers(wanted, xs),
    }
}

fn fit_id_made(wanted: Wanted, xs: &[SeenArgument]) -> Fit
    ensures { result ≡ fit_counted dimensions_of_id wanted xs.now }
{
    match xs {
        [a] => fit_one(wanted, a, dimensions_of_id(type_in(a))),
        _ => fit_integers(wanted, xs),
    }
}

/// Those of a value of the same type, else one for each integer.
fn range_dimensions(xs: &[SeenArgument]) -> Option<Dimensions>
    ensures { result ≡ counted_dimensions dimensions_of_range xs.now }
{
    match xs {
        [a] => match dimensions_of_range(type_in(a)) {
            Some(d) => Some(d),
            None => Some(Dimensions::One),
        },
        _ => dimensions_numbered(xs.len()),
    }
}

/// Those of a value of the same type, else one for each integer.
fn id_dimensions(xs: &[SeenArgument]) -> Option<Dimensions>
    ensures { result ≡ counted_dimensions dimensions_of_id xs.now }
{
    match xs {
        [a] => match dimensions_of_id(type_in(a)) {
            Some(d) => Some(d),
            None => Some(Dimensions::One),
        },
        _ => dimensions_numbered(xs.len()),
    }
}

pub fn range_row(wanted: Wanted, xs: &[SeenArgument]) -> Row
    ensures { result ≡ range_row wanted xs.now }
{
    let gives = match made_dimensions(wanted, range_dimensions(xs)) {
        None => None,
        Some(d) => Some(Thing::Range(d)),
    };
    Row {
        fit: fit_range_made(wanted, xs),
        gives,
    }
}

pub fn id_row(wanted: Wanted, xs: &[SeenArgument]) -> Row
    ensures { result ≡ id_row wanted xs.now }
{
    let gives = match made_dimensions(wanted, id_dimensions(xs)) {
        None => None,
        Some(d) => Some(Thing::Id(d)),
    };
    Row {
        fit: fit_id_made(wanted, xs),
        gives,
    }
}

// ---- nd_range

/// An integer stands for a range of one dimension.
fn fit_integer_side(wanted: Wanted) -> Fit
    ensures { result ≡ fit_integer_side wanted }
{
    match wanted {
        Wanted::Written(Dimensions::One) => Fit::Fits,
        Wanted::Unknown => Fit::Fits,
        _ => Fit::WrongArguments,
    }
}

fn fit_side_type(wanted: Wanted, what: Option<Thing>) -> Fit
    ensures { result ≡ fit_side_type wanted what }
{
    match what {
        None => Fit::Fits,
        Some(t) => {
            if is_integer(t) {
                fit_integer_side(wanted)
            } else {
                fit_range_type(wanted, Some(t))
            }
        }
    }
}

fn fit_side(wanted: Wanted, a: &SeenArgument) -> Fit
    ensures { result ≡ fit_side wanted a.now }
{
    match a {
        SeenArgument::Value(seen) => fit_side_type(wanted, seen.what),
        _ => fit_range(wanted, a),
    }
}

fn fit_nd_range_value(wanted: Wanted, what: Option<Thing>) -> Fit
    ensures { result ≡ fit_nd_range_value wanted what }
{
    match what {
        Some(Thing::NdRange(d)) => fit_dimensions(wanted, d),
        None => Fit::Fits,
        Some(_) => Fit::WrongArguments,
    }
}

/// Where no dimensions are written, the second range has those of the first.
fn wanted_after(wanted: Wanted, a: &SeenArgument) -> Wanted
    ensures { result ≡ wanted_after wanted a.now }
{
    match wanted {
        Wanted::Unwritten => match dimensions_of_range(type_in(a)) {
            None => Wanted::Unwritten,
            Some(d) => Wanted::Written(d),
        },
        _ => wanted,
    }
}

fn fit_second_side(wanted: Wanted, after: Wanted, b: &SeenArgument) -> Fit
    ensures { result ≡ fit_second_side wanted after b.now }
{
    match wanted {
        Wanted::Unwritten => both(fit_side(Wanted::Unwritten, b), fit_side(after, b)),
        _ => fit_side(wanted, b),
    }
}

/// One value in place of an nd_range's two ranges.
fn fit_nd_range_copy(wanted: Wanted, a: &SeenArgument) -> Fit
    ensures { result ≡ fit_nd_range wanted (a.now ∷ []) }
{
    match a {
        SeenArgument::Value(seen) => fit_nd_range_value(wanted, seen.what),
        _ => Fit::WrongArguments,
    }
}

pub fn fit_nd_range(wanted: Wanted, xs: &[SeenArgument]) -> Fit
    ensures { result ≡ fit_nd_range wanted xs.now }
{
    match xs {
        [a] => fit_nd_range_copy(wanted, a),
        [a, b] => both(
            fit_side(wanted, a),
            fit_second_side(wanted, wanted_after(wanted, a), b),
        ),
        _ => Fit::WrongArguments,
    }
}

fn dimensions_of_nd_range(what: Option<Thing>) -> Option<Dimensions>
    ensures { result ≡ dimensions_of_nd_range what }
{
    match what {
        Some(Thing::NdRange(d)) => Some(d),
        Some(Thing::Range(d)) => Some(d),
        _ => None,
    }
}

pub fn first_type(xs: &[SeenArgument]) -> Option<Thing>
    ensures { result ≡ first_type xs.now }
{
    match xs {
        [] => None,
        [a, ..] => type_in(a),
    }
}

pub fn nd_range_row(wanted: Wanted, xs: &[SeenArgument]) -> Row
    ensures { result ≡ nd_range_row wanted xs.now }
{
    let gives = match made_dimensions(wanted, dimensions_of_nd_range(first_type(xs))) {
        None => None,
        Some(d) => Some(Thing::NdRange(d)),
    };
    Row {
        fit: fit_nd_range(wanted, xs),
        gives,
    }
}
