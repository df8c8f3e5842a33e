//! The sorts of types that the library's rows ask for.

ghost use Rattle.std.specs.Prelude.{◌≡◌};
ghost use Rattle.sy_fits.specs.Sorts.{is_of};
ghost use Rattle.sy_rules.specs.Fit.{may_be, type_in};
ghost use Rattle.sy_rules.specs.Members.{writes, reads};

use sy_access::Mode;
use sy_findings::is_integer;
use sy_rules::SeenArgument;
use sy_tree::AccessTag;
use sy_typed::Thing;

/// A sort of types.
#[derive(Clone, Copy, PartialEq, Eq, Debug)]
pub enum Sort {
    /// What counts as an integer.
    Integer,
    Device,
    Context,
    Handler,
    Buffer,
    InOrder,
    /// A mode tag or `no_init`.
    Tag,
    NoInit,
    /// A mode tag of an access that writes.
    WritingTag,
    Event,
    /// A range or an nd_range.
    Extent,
    Reduction,
    /// An accessor through which a command may write.
    WrittenAccessor,
    /// An accessor through which a command may read.
    ReadAccessor,
    Group,
    FunctionObject,
    /// `property::reduction::initialize_to_identity`.
    Identity,
}

fn writes(mode: Mode) -> bool
    ensures { result ≡ writes mode }
{
    !matches!(mode, Mode::Read)
}

fn reads(mode: Mode) -> bool
    ensures { result ≡ reads mode }
{
    !matches!(mode, Mode::Write)
}

fn is_written_accessor(what: Thing) -> bool
    ensures { result ≡ is_of Sort.WrittenAccessor what }
{
    match what {
        Thing::Accessor(_, _, mode) => writes(mode),
        _ => false,
    }
}

fn is_read_accessor(what: Thing) -> bool
    ensures { result ≡ is_of Sort.ReadAccessor what }
{
    match what {
        Thing::Accessor(_, _, mode) => reads(mode),
        _ => false,
    }
}

fn is_writing_tag(what: Thing) -> bool
    ensures { result ≡ is_of Sort.WritingTag what }
{
    match what {
        Thing::AccessTag(AccessTag::WriteOnly) => true,
        Thing::AccessTag(AccessTag::ReadWrite) => true,
        _ => false,
    }
}

fn is_extent(what: Thing) -> bool
    ensures { result ≡ is_of Sort.Extent what }
{
    match what {
        Thing::Range(_) => true,
        Thing::NdRange(_) => true,
        _ => false,
    }
}

/// The type is of the sort.
pub fn is_of(sort: Sort, what: Thing) -> bool
    ensures { result ≡ is_of sort what }
{
    match sort {
        Sort::Integer => is_integer(what),
        Sort::Device => matches!(what, Thing::Device),
        Sort::Context => matches!(what, Thing::Context),
        Sort::Handler => matches!(what, Thing::Handler),
        Sort::Buffer => matches!(what, Thing::Buffer(_, _)),
        Sort::InOrder => matches!(what, Thing::InOrder),
        Sort::Tag => matches!(what, Thing::AccessTag(_)),
        Sort::NoInit => matches!(what, Thing::AccessTag(AccessTag::NoInit)),
        Sort::WritingTag => is_writing_tag(what),
        Sort::Event => matches!(what, Thing::Event),
        Sort::Extent => is_extent(what),
        Sort::Reduction => matches!(what, Thing::Reduction(_, _)),
        Sort::WrittenAccessor => is_written_accessor(what),
        Sort::ReadAccessor => is_read_accessor(what),
        Sort::Group => matches!(what, Thing::Group(_)),
        Sort::FunctionObject => matches!(what, Thing::FunctionObject(_, _)),
        Sort::Identity => matches!(what, Thing::InitializeToIdentity),
    }
}

/// The argument may be a value of the sort. What a rule is broken in fits everywhere.
pub fn may_be(sort: Sort, a: &SeenArgument) -> bool
    ensures { result ≡ may_be (is_of sort) a.now }
{
    match a {
        SeenArgument::Value(a) => match a.what {
            None => true,
            Some(t) => is_of(sort, t),
        },
        SeenArgument::Braced(_) => false,
        SeenArgument::Lambda(l) => !l.is_sound,
    }
}

/// The type of the argument, if it is a value of a known one.
pub fn type_in(a: &SeenArgument) -> Option<Thing>
    ensures { result ≡ type_in a.now }
{
    match a {
        SeenArgument::Value(a) => a.what,
        _ => None,
    }
}
