//! The members of the library's objects, with their arguments and what they give. (SYCL 2020, "Queue class", "Event
//! class", "Device class", "Buffer class", "Accessors", "Ranges and index space identifiers", "Reduction variables",
//! "Command group handler class")

ghost use Rattle.std.specs.Prelude.{◌≡◌};
ghost use Rattle.sy_num.specs.declared.Kind.{Kind};
ghost use Rattle.sy_access.specs.declared.Mode.{Mode};
ghost use Rattle.sy_tree.specs.declared.parts.FunctionObject.{FunctionObject};
ghost use Rattle.sy_typed.specs.declared.things.Thing.TheVariants as thing;
ghost use Rattle.sy_rules.specs.Fit.{is_lambda, may_be};
ghost use Rattle.sy_rules.specs.Members.{size, giving, taking, numbered, whole_or_numbered, member_row};
ghost use Rattle.sy_fits.specs.Sorts.{is_of};

use crate::commands::{fit_copy, fit_fill, fit_parallel};
use sy_fits::{Sort, nothing_given, one_given, one_lambda, row};
use sy_num::Kind;
use sy_rules::{Fit, Row, SeenArgument};
use sy_typed::{Dimensions, Member, Thing};

const SIZE: Thing = Thing::Integer(Kind::ULong);

fn giving(xs: &[SeenArgument], gives: Thing) -> Option<Row>
    ensures { result ≡ giving xs.now gives }
{
    Some(row(nothing_given(xs), gives))
}

fn taking(sort: Sort, xs: &[SeenArgument], gives: Thing) -> Option<Row>
    ensures { result ≡ taking (may_be (is_of sort)) xs.now gives }
{
    Some(row(one_given(sort, xs), gives))
}

fn taking_lambda(xs: &[SeenArgument], gives: Thing) -> Option<Row>
    ensures { result ≡ taking is_lambda xs.now gives }
{
    Some(row(one_lambda(xs), gives))
}

/// A number of one dimension.
fn numbered(xs: &[SeenArgument]) -> Option<Row>
    ensures { result ≡ numbered xs.now }
{
    taking(Sort::Integer, xs, SIZE)
}

/// The whole without an argument, a number of one dimension with one.
fn whole_or_numbered(whole: Thing, xs: &[SeenArgument]) -> Option<Row>
    ensures { result ≡ whole_or_numbered whole xs.now }
{
    match xs {
        [] => Some(row(Fit::Fits, whole)),
        _ => numbered(xs),
    }
}

// ---- one function for each sort of objects

fn queue_row(member: Member, xs: &[SeenArgument]) -> Option<Row>
    ensures { result ≡ member_row thing.Queue member xs.now }
{
    match member {
        Member::Submit => taking_lambda(xs, Thing::Event),
        Member::Wait => giving(xs, Thing::Void),
        Member::WaitAndThrow => giving(xs, Thing::Void),
        Member::GetDevice => giving(xs, Thing::Device),
        _ => None,
    }
}

fn event_row(member: Member, xs: &[SeenArgument]) -> Option<Row>
    ensures { result ≡ member_row thing.Event member xs.now }
{
    match member {
        Member::Wait => giving(xs, Thing::Void),
        _ => None,
    }
}

fn device_row(member: Member, xs: &[SeenArgument]) -> Option<Row>
    ensures { result ≡ member_row thing.Device member xs.now }
{
    match member {
        Member::CreateSubDevices => taking(Sort::Integer, xs, Thing::DeviceVector),
        Member::MaxComputeUnits => giving(xs, Thing::Integer(Kind::UInt)),
        _ => None,
    }
}

/// The members of buffers and accessors.
fn extent_row(d: Dimensions, member: Member, xs: &[SeenArgument]) -> Option<Row>
    ensures buffer { (k : Kind) → result ≡ member_row (thing.Buffer k d) member xs.now }
    ensures accessor { (k : Kind) (m : Mode) → result ≡ member_row (thing.Accessor k d m) member xs.now }
    ensures host { (k : Kind) (m : Mode) → result ≡ member_row (thing.HostAccessor k d m) member xs.now }
    ensures local { (k : Kind) → result ≡ member_row (thing.LocalAccessor k d) member xs.now }
{
    match member {
        Member::GetRange => giving(xs, Thing::Range(d)),
        Member::Size => giving(xs, SIZE),
        _ => None,
    }
}

fn vector_row(kind: Kind, member: Member, xs: &[SeenArgument]) -> Option<Row>
    ensures { result ≡ member_row (thing.Vector kind) member xs.now }
{
    match member {
        Member::Size => giving(xs, SIZE),
        Member::PushBack => taking(Sort::Integer, xs, Thing::Void),
        Member::Data => giving(xs, Thing::Data(kind)),
        _ => None,
    }
}

fn device_vector_row(member: Member, xs: &[SeenArgument]) -> Option<Row>
    ensures { result ≡ member_row thing.DeviceVector member xs.now }
{
    match member {
        Member::Size => giving(xs, SIZE),
        _ => None,
    }
}

fn thread_vector_row(member: Member, xs: &[SeenArgument]) -> Option<Row>
    ensures { result ≡ member_row thing.ThreadVector member xs.now }
{
    match member {
        Member::Size => giving(xs, SIZE),
        Member::EmplaceBack => taking_lambda(xs, Thing::Void),
        _ => None,
    }
}

fn thread_row(member: Member, xs: &[SeenArgument]) -> Option<Row>
    ensures { result ≡ member_row thing.Thread member xs.now }
{
    match member {
        Member::Join => giving(xs, Thing::Void),
        _ => None,
    }
}

fn exception_row(member: Member, xs: &[SeenArgument]) -> Option<Row>
    ensures { result ≡ member_row thing.Exception member xs.now }
{
    match member {
        Member::Code => giving(xs, Thing::ErrorCode),
        _ => None,
    }
}

fn handler_row(member: Member, xs: &[SeenArgument]) -> Option<Row>
    ensures { result ≡ member_row thing.Handler member xs.now }
{
    match member {
        Member::SingleTask => taking_lambda(xs, Thing::Void),
        Member::ParallelFor => Some(row(fit_parallel(xs), Thing::Void)),
        Member::Fill => Some(row(fit_fill(xs), Thing::Void)),
        Member::Copy => Some(row(fit_copy(xs), Thing::Void)),
        Member::DependsOn => taking(Sort::Event, xs, Thing::Void),
        _ => None,
    }
}

/// The members of ranges and ids.
fn numbers_row(d: Dimensions, member: Member, xs: &[SeenArgument]) -> Option<Row>
    ensures range { result ≡ member_row (thing.Range d) member xs.now }
    ensures id { result ≡ member_row (thing.Id d) member xs.now }
{
    match member {
        Member::Get => numbered(xs),
        _ => None,
    }
}

fn item_row(d: Dimensions, member: Member, xs: &[SeenArgument]) -> Option<Row>
    ensures { result ≡ member_row (thing.Item d) member xs.now }
{
    match member {
        Member::GetId => whole_or_numbered(Thing::Id(d), xs),
        Member::GetRange => whole_or_numbered(Thing::Range(d), xs),
        Member::GetLinearId => giving(xs, SIZE),
        _ => None,
    }
}

fn nd_item_row(d: Dimensions, member: Member, xs: &[SeenArgument]) -> Option<Row>
    ensures { result ≡ member_row (thing.NdItem d) member xs.now }
{
    match member {
        Member::GetGlobalId => whole_or_numbered(Thing::Id(d), xs),
        Member::GetLocalId => whole_or_numbered(Thing::Id(d), xs),
        Member::GetGlobalRange => numbered(xs),
        Member::GetLocalRange => numbered(xs),
        Member::GetGroupRange => numbered(xs),
        Member::GetGroup => whole_or_numbered(Thing::Group(d), xs),
        Member::GetGlobalLinearId => giving(xs, SIZE),
        Member::GetLocalLinearId => giving(xs, SIZE),
        Member::GetGroupLinearId => giving(xs, SIZE),
        _ => None,
    }
}

fn group_row(d: Dimensions, member: Member, xs: &[SeenArgument]) -> Option<Row>
    ensures { result ≡ member_row (thing.Group d) member xs.now }
{
    match member {
        Member::GetGroupLinearId => giving(xs, SIZE),
        Member::GetLocalLinearId => giving(xs, SIZE),
        _ => None,
    }
}

fn reducer_row(member: Member, xs: &[SeenArgument]) -> Option<Row>
    ensures { (k : Kind) (f : FunctionObject) → result ≡ member_row (thing.Reducer k f) member xs.now }
{
    match member {
        Member::Combine => taking(Sort::Integer, xs, Thing::Void),
        _ => None,
    }
}

/// The row of a member of an object, if the library gives the object one.
pub fn member_row(object: Thing, member: Member, xs: &[SeenArgument]) -> Option<Row>
    ensures { result ≡ member_row object member xs.now }
{
    match object {
        Thing::Queue => queue_row(member, xs),
        Thing::Event => event_row(member, xs),
        Thing::Device => device_row(member, xs),
        Thing::Buffer(_, d) => extent_row(d, member, xs),
        Thing::Accessor(_, d, _) => extent_row(d, member, xs),
        Thing::HostAccessor(_, d, _) => extent_row(d, member, xs),
        Thing::LocalAccessor(_, d) => extent_row(d, member, xs),
        Thing::Vector(kind) => vector_row(kind, member, xs),
        Thing::DeviceVector => device_vector_row(member, xs),
        Thing::ThreadVector => thread_vector_row(member, xs),
        Thing::Thread => thread_row(member, xs),
        Thing::Exception => exception_row(member, xs),
        Thing::Handler => handler_row(member, xs),
        Thing::Range(d) => numbers_row(d, member, xs),
        Thing::Id(d) => numbers_row(d, member, xs),
        Thing::Item(d) => item_row(d, member, xs),
        Thing::NdItem(d) => nd_item_row(d, member, xs),
        Thing::Group(d) => group_row(d, member, xs),
        Thing::Reducer(_, _) => reducer_row(member, xs),
        _ => None,
    }
}
