// What a type says of its objects.

ghost use Rattle.std.specs.Prelude.{◌≡◌, ◌+◌};
ghost use Rattle.sy_typed.specs.Things.{dimension_count};
ghost use Rattle.sy_meaning.specs.Words.{is_sign, plain_width, width, kind_in};
ghost use Rattle.sy_meaning.specs.Locations.{element_of};

use sy_meaning::{Area, Location};
use sy_num::Kind;
use sy_typed::{Dimensions, Thing};

fn is_sign(what: Thing) -> bool
    ensures { result ≡ is_sign what }
{
    match what {
        Thing::NdItem(_) => true,
        Thing::Group(_) => true,
        Thing::Handler => true,
        Thing::FunctionObject(_, _) => true,
        Thing::AccessTag(_) => true,
        Thing::InOrder => true,
        Thing::InitializeToIdentity => true,
        Thing::Void => true,
        _ => false,
    }
}

fn plain_width(what: Thing) -> u64
    ensures { result ≡ plain_width what }
{
    match what {
        Thing::Queue => 3,
        Thing::Context => 3,
        Thing::DeviceVector => 3,
        Thing::Device => 2,
        Thing::Reduction(_, _) => 2,
        _ => { if is_sign(what) { 0 } else { 1 } }
    }
}

fn more_than(first: u8, dimensions: Dimensions) -> u64
    ensures { result ≡ first + dimension_count dimensions }
{
    first as u64 + dimensions.count() as u64
}

fn twice(dimensions: Dimensions) -> u64
    ensures { result ≡ dimension_count dimensions + dimension_count dimensions }
{
    dimensions.count() as u64 + dimensions.count() as u64
}

/// How many words an object of the type has.
pub fn width(what: Thing) -> u64
    ensures { result ≡ width what }
{
    match what {
        Thing::Range(d) => d.count() as u64,
        Thing::Id(d) => d.count() as u64,
        Thing::Item(d) => d.count() as u64,
        Thing::NdRange(d) => twice(d),
        Thing::Buffer(_, d) => more_than(3, d),
        Thing::Accessor(_, d, _) => more_than(2, d),
        Thing::HostAccessor(_, d, _) => more_than(2, d),
        Thing::LocalAccessor(_, d) => more_than(2, d),
        Thing::Indexed(_, _, wanted, _) => more_than(2, wanted),
        _ => plain_width(what),
    }
}

/// The kind of an integer, of the integer that an id or item stands for, or of the elements.
pub fn kind_in(what: Thing) -> Kind
    ensures { result ≡ kind_in what }
{
    match what {
        Thing::Integer(kind) => kind,
        Thing::Id(_) => Kind::ULong,
        Thing::Item(_) => Kind::ULong,
        Thing::Vector(kind) => kind,
        Thing::Buffer(kind, _) => kind,
        Thing::Accessor(kind, _, _) => kind,
        Thing::HostAccessor(kind, _, _) => kind,
        Thing::LocalAccessor(kind, _) => kind,
        Thing::Indexed(kind, _, _, _) => kind,
        Thing::Reduction(kind, _) => kind,
        Thing::Reducer(kind, _) => kind,
        _ => Kind::Int,
    }
}

/// What the elements of an object of the type are, where the object is at `location`.
pub fn element_of(what: Thing, location: Location) -> Location
    ensures { result ≡ element_of what location }
{
    match what {
        Thing::Vector(_) => Location::Element,
        Thing::Accessor(_, _, _) => Location::Cell(Area::Root),
        Thing::HostAccessor(_, _, _) => Location::Cell(Area::Access),
        Thing::LocalAccessor(_, _) => Location::Cell(Area::Local),
        Thing::Indexed(_, _, _, _) => location,
        _ => Location::Nowhere,
    }
}
