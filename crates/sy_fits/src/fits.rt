//! How arguments fit.

ghost use Rattle.std.specs.Prelude.{◌≡◌, not};
ghost use Rattle.sy_rules.specs.Fit.{both, arguments_if, dimension_if, element_if, row, fit_dimensions, fit_count, fit_range_type, fit_braced, fit_range, each_integer, all_integers, nothing_given, one_given, is_lambda, may_be, wanted_of};
ghost use Rattle.sy_rules.specs.Seen.{same_dimensions, same_kind, is_known, fails, is_integer, kind_number};
ghost use Rattle.sy_typed.specs.Things.{dimension_count};
ghost use Rattle.sy_fits.specs.Sorts.{is_of};

use crate::sorts::{Sort, may_be};
use sy_findings::is_integer;
use sy_num::Kind;
use sy_rules::{Fit, Row, Seen, SeenArgument, Wanted};
use sy_typed::{Dimensions, Thing};

/// Where the arguments aren't of the sorts that are taken, nothing else is asked of them.
pub fn both(first: Fit, second: Fit) -> Fit
    ensures { result ≡ both first second }
{
    match first {
        Fit::Fits => second,
        Fit::WrongArguments => Fit::WrongArguments,
        Fit::WrongDimension => match second {
            Fit::WrongArguments => Fit::WrongArguments,
            _ => Fit::WrongDimension,
        },
        Fit::WrongElement => match second {
            Fit::Fits => Fit::WrongElement,
            _ => second,
        },
    }
}

pub fn arguments_if(is_met: bool) -> Fit
    ensures { result ≡ arguments_if is_met }
{
    if is_met {
        Fit::Fits
    } else {
        Fit::WrongArguments
    }
}

pub fn dimension_if(is_met: bool) -> Fit
    ensures { result ≡ dimension_if is_met }
{
    if is_met {
        Fit::Fits
    } else {
        Fit::WrongDimension
    }
}

pub fn element_if(is_met: bool) -> Fit
    ensures { result ≡ element_if is_met }
{
    if is_met { Fit::Fits } else { Fit::WrongElement }
}

pub fn row(fit: Fit, gives: Thing) -> Row
    ensures { result ≡ row fit gives }
{
    Row {
        fit,
        gives: Some(gives),
    }
}

/// The kinds are one.
pub fn same_kind(j: Kind, k: Kind) -> bool
    ensures { result ≡ same_kind j k }
{
    kind_number(j) == kind_number(k)
}

fn kind_number(k: Kind) -> u8
    ensures { result ≡ kind_number k }
{
    match k {
        Kind::Bool => 0,
        Kind::Char => 1,
        Kind::SChar => 2,
        Kind::UChar => 3,
        Kind::Short => 4,
        Kind::UShort => 5,
        Kind::Int => 6,
        Kind::UInt => 7,
        Kind::Long => 8,
        Kind::ULong => 9,
        Kind::LLong => 10,
        Kind::ULLong => 11,
    }
}

/// The dimensions are as many.
pub fn same_dimensions(d: Dimensions, e: Dimensions) -> bool
    ensures { result ≡ same_dimensions d e }
{
    match (d, e) {
        (Dimensions::One, Dimensions::One) => true,
        (Dimensions::Two, Dimensions::Two) => true,
        (Dimensions::Three, Dimensions::Three) => true,
        _ => false,
    }
}

pub fn wanted_of(dimensions: Option<Dimensions>) -> Wanted
    ensures { result ≡ wanted_of dimensions }
{
    match dimensions {
        None => Wanted::Unknown,
        Some(d) => Wanted::Written(d),
    }
}

pub fn fit_dimensions(wanted: Wanted, found: Dimensions) -> Fit
    ensures { result ≡ fit_dimensions wanted found }
{
    match wanted {
        Wanted::Written(d) => dimension_if(same_dimensions(d, found)),
        _ => Fit::Fits,
    }
}

pub fn fit_count(wanted: Wanted, count: usize) -> Fit
    ensures { result ≡ fit_count wanted count }
{
    match wanted {
        Wanted::Written(d) => dimension_if(count == d.count() as usize),
        _ => Fit::Fits,
    }
}

/// Each is an integer, or a rule is broken in it.
pub fn each_integer(xs: &[Seen]) -> bool
    ensures { result ≡ each_integer xs.now }
{
    for x in xs {
        if !may_be_integer(*x) {
            return false;
        }
    }
    true
}

fn may_be_integer(a: Seen) -> bool
    ensures { result ≡ not (fails is_integer a.what) }
{
    match a.what {
        None => true,
        Some(t) => is_integer(t),
    }
}

/// Each is an integer's value, or a rule is broken in it.
pub fn all_integers(xs: &[SeenArgument]) -> bool
    ensures { result ≡ all_integers xs.now }
{
    for x in xs {
        if !may_be(Sort::Integer, x) {
            return false;
        }
    }
    true
}

/// The argument is a lambda, or a rule is broken in it.
pub fn is_lambda(a: &SeenArgument) -> bool
    ensures { result ≡ is_lambda a.now }
{
    match a {
        SeenArgument::Value(a) => a.what.is_none(),
        SeenArgument::Braced(_) => false,
        SeenArgument::Lambda(_) => true,
    }
}

pub fn nothing_given(xs: &[SeenArgument]) -> Fit
    ensures { result ≡ nothing_given xs.now }
{
    arguments_if(xs.is_empty())
}

/// One value of the sort is given.
pub fn one_given(sort: Sort, xs: &[SeenArgument]) -> Fit
    ensures { result ≡ one_given (may_be (is_of sort)) xs.now }
{
    match xs {
        [a] => arguments_if(may_be(sort, a)),
        _ => Fit::WrongArguments,
    }
}

pub fn one_lambda(xs: &[SeenArgument]) -> Fit
    ensures { result ≡ one_given is_lambda xs.now }
{
    match xs {
        [a] => arguments_if(is_lambda(a)),
        _ => Fit::WrongArguments,
    }
}

pub fn fit_range_type(wanted: Wanted, what: Option<Thing>) -> Fit
    ensures { result ≡ fit_range_type wanted what }
{
    match what {
        None => Fit::Fits,
        Some(Thing::Range(d)) => fit_dimensions(wanted, d),
        Some(_) => Fit::WrongArguments,
    }
}

pub fn fit_braced(wanted: Wanted, xs: &[Seen]) -> Fit
    ensures { result ≡ fit_braced wanted xs.now }
{
    match wanted {
        Wanted::Unwritten => Fit::WrongArguments,
        _ => both(arguments_if(each_integer(xs)), fit_count(wanted, xs.len())),
    }
}

/// A range's value, or integers in braces where the dimensions are written.
pub fn fit_range(wanted: Wanted, a: &SeenArgument) -> Fit
    ensures { result ≡ fit_range wanted a.now }
{
    match a {
        SeenArgument::Value(a) => fit_range_type(wanted, a.what),
        SeenArgument::Braced(xs) => fit_braced(wanted, xs.as_slice()),
        SeenArgument::Lambda(_) => Fit::WrongArguments,
    }
}
