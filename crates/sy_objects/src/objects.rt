//! What queues, devices, contexts and accessors are made of. (SYCL 2020, "Queue class", "Device class", "Context
//! class", "Accessors")

ghost use Rattle.std.specs.Prelude.{◌≡◌};
ghost use Rattle.sy_rules.specs.Objects.{fit_queue, fit_device, are_tags, mode_of_type, mode_of_tags, accessor_to, host_accessor_to, accessor_row, host_accessor_row, element_dimensions, fit_local_accessor, local_accessor_row};

use sy_access::Mode;
use sy_constants::dimensions_written;
use sy_fits::{Sort, arguments_if, both, fit_range, may_be, one_given, type_in, wanted_of};
use sy_rules::{Fit, Row, SeenArgument};
use sy_tree::{AccessTag, ElementArguments};
use sy_typed::{Dimensions, Thing};

pub fn fit_queue(xs: &[SeenArgument]) -> Fit
    ensures { result ≡ fit_queue xs.now }
{
    match xs {
        [] => Fit::Fits,
        [a] => arguments_if(may_be(Sort::InOrder, a) || may_be(Sort::Device, a)),
        [a, b] => arguments_if(
            (may_be(Sort::Device, a) && may_be(Sort::InOrder, b))
                || (may_be(Sort::Context, a) && may_be(Sort::Device, b)),
        ),
        [a, b, c] => arguments_if(
            may_be(Sort::Context, a) && (may_be(Sort::Device, b) && may_be(Sort::InOrder, c)),
        ),
        _ => Fit::WrongArguments,
    }
}

/// A device and a context take a device, or nothing.
pub fn fit_device(xs: &[SeenArgument]) -> Fit
    ensures { result ≡ fit_device xs.now }
{
    match xs {
        [] => Fit::Fits,
        _ => one_given(Sort::Device, xs),
    }
}

/// A mode tag and `no_init` may each be left out, and `no_init` doesn't go with `read_only`.
pub fn are_tags(xs: &[SeenArgument]) -> bool
    ensures { result ≡ are_tags xs.now }
{
    match xs {
        [] => true,
        [a] => may_be(Sort::Tag, a),
        [a, b] => may_be(Sort::WritingTag, a) && may_be(Sort::NoInit, b),
        _ => false,
    }
}

fn mode_of_type(what: Option<Thing>) -> Mode
    ensures { result ≡ mode_of_type what }
{
    match what {
        Some(Thing::AccessTag(AccessTag::ReadOnly)) => Mode::Read,
        Some(Thing::AccessTag(AccessTag::WriteOnly)) => Mode::Write,
        _ => Mode::ReadWrite,
    }
}

/// Read-write where no tag stands.
pub fn mode_of_tags(xs: &[SeenArgument]) -> Mode
    ensures { result ≡ mode_of_tags xs.now }
{
    match xs {
        [] => Mode::ReadWrite,
        [a, ..] => mode_of_type(type_in(a)),
    }
}

fn accessor_to(what: Option<Thing>, mode: Mode) -> Option<Thing>
    ensures { result ≡ accessor_to what mode }
{
    match what {
        Some(Thing::Buffer(k, d)) => Some(Thing::Accessor(k, d, mode)),
        _ => None,
    }
}

fn host_accessor_to(what: Option<Thing>, mode: Mode) -> Option<Thing>
    ensures { result ≡ host_accessor_to what mode }
{
    match what {
        Some(Thing::Buffer(k, d)) => Some(Thing::HostAccessor(k, d, mode)),
        _ => None,
    }
}

/// A row that fits nothing.
const UNFIT: Row = Row {
    fit: Fit::WrongArguments,
    gives: None,
};

pub fn accessor_row(xs: &[SeenArgument]) -> Row
    ensures { result ≡ accessor_row xs.now }
{
    match xs {
        [a, h, tags @ ..] => Row {
            fit: arguments_if(
                may_be(Sort::Buffer, a) && (may_be(Sort::Handler, h) && are_tags(tags)),
            ),
            gives: accessor_to(type_in(a), mode_of_tags(tags)),
        },
        _ => UNFIT,
    }
}

pub fn host_accessor_row(xs: &[SeenArgument]) -> Row
    ensures { result ≡ host_accessor_row xs.now }
{
    match xs {
        [a, tags @ ..] => Row {
            fit: arguments_if(may_be(Sort::Buffer, a) && are_tags(tags)),
            gives: host_accessor_to(type_in(a), mode_of_tags(tags)),
        },
        _ => UNFIT,
    }
}

/// The dimensions that stand behind an element's type: one where none do.
pub fn element_dimensions(t: &ElementArguments) -> Option<Dimensions>
    ensures { result ≡ element_dimensions t.now }
{
    match &t.dimensions {
        None => Some(Dimensions::One),
        Some(x) => dimensions_written(x.text.items()),
    }
}

fn fit_local_accessor(t: &ElementArguments, xs: &[SeenArgument]) -> Fit
    ensures { result ≡ fit_local_accessor t.now xs.now }
{
    match xs {
        [r, h] => both(
            fit_range(wanted_of(element_dimensions(t)), r),
            arguments_if(may_be(Sort::Handler, h)),
        ),
        _ => Fit::WrongArguments,
    }
}

pub fn local_accessor_row(t: &ElementArguments, xs: &[SeenArgument]) -> Row
    ensures { result ≡ local_accessor_row t.now xs.now }
{
    let gives = match element_dimensions(t) {
        None => None,
        Some(d) => Some(Thing::LocalAccessor(t.element.kind, d)),
    };
    Row {
        fit: fit_local_accessor(t, xs),
        gives,
    }
}
