//! What a kernel and a command group may not use, and what only they may. (SYCL 2020, "Language restrictions for
//! device functions", "Command group scope")

ghost use Rattle.std.specs.Prelude.{◌≡◌};
ghost use Rattle.sy_rules.specs.Foreign.{foreign_to_kernels, foreign_to_groups, foreign_to, made_in_kernels, made_in_groups, made_in_host, is_made_in, is_accessor, type_start, type_word};

use sy_note::Spot;
use sy_rules::{Taken, Within};
use sy_tree::ObjectType;
use sy_typed::Thing;

/// The runtime's objects.
fn foreign_to_kernels(what: Thing) -> bool
    ensures { result ≡ foreign_to_kernels what }
{
    match what {
        Thing::Queue | Thing::Device | Thing::Context | Thing::Event => true,
        Thing::Vector(_) | Thing::DeviceVector | Thing::ThreadVector | Thing::Thread => true,
        Thing::Buffer(_, _) => true,
        Thing::Handler => true,
        _ => false,
    }
}

/// A group may give an event to `depends_on`, and use a buffer for accessors and reductions and ask its size.
fn foreign_to_groups(taken: Taken, what: Thing) -> bool
    ensures { result ≡ foreign_to_groups taken what }
{
    match what {
        Thing::Queue | Thing::Device | Thing::Context => true,
        Thing::Event => !matches!(taken, Taken::Dependency),
        Thing::Vector(_) | Thing::DeviceVector | Thing::ThreadVector | Thing::Thread => true,
        Thing::Buffer(_, _) => !matches!(taken, Taken::Source),
        Thing::Exception => true,
        _ => false,
    }
}

/// A value of the type may not be used in `within`, where the place takes this.
pub fn foreign_to(within: Within, taken: Taken, what: Thing) -> bool
    ensures { result ≡ foreign_to within taken what }
{
    match within {
        Within::Host => false,
        Within::Group => foreign_to_groups(taken, what),
        Within::Kernel => foreign_to_kernels(what),
    }
}

fn made_in_kernels(t: &ObjectType) -> bool
    ensures { result ≡ made_in_kernels t.now }
{
    match t {
        ObjectType::Range(_, _) => true,
        ObjectType::Id(_, _) => true,
        _ => false,
    }
}

fn made_in_groups(t: &ObjectType) -> bool
    ensures { result ≡ made_in_groups t.now }
{
    match t {
        ObjectType::Accessor(_) => true,
        ObjectType::LocalAccessor(_, _) => true,
        ObjectType::Range(_, _) => true,
        ObjectType::Id(_, _) => true,
        ObjectType::NdRange(_, _) => true,
        _ => false,
    }
}

pub fn made_in_host(t: &ObjectType) -> bool
    ensures { result ≡ made_in_host t.now }
{
    match t {
        ObjectType::Accessor(_) => false,
        ObjectType::LocalAccessor(_, _) => false,
        _ => true,
    }
}

/// An object of the type may be made in `within`.
pub fn is_made_in(within: Within, t: &ObjectType) -> bool
    ensures { result ≡ is_made_in within t.now }
{
    match within {
        Within::Host => true,
        Within::Group => made_in_groups(t),
        Within::Kernel => made_in_kernels(t),
    }
}

/// What is indexed in kernels and in host code alone.
pub fn is_accessor(what: Thing) -> bool
    ensures { result ≡ is_accessor what }
{
    match what {
        Thing::Accessor(_, _, _) => true,
        Thing::HostAccessor(_, _, _) => true,
        Thing::LocalAccessor(_, _) => true,
        Thing::Indexed(_, _, _, _) => true,
        _ => false,
    }
}

/// The place of the type's first word.
pub fn type_start(t: &ObjectType) -> Spot
    ensures { result ≡ type_start t.now }
{
    match t {
        ObjectType::Queue(q) => q.namespace,
        ObjectType::Device(q) => q.namespace,
        ObjectType::Context(q) => q.namespace,
        ObjectType::Event(q) => q.namespace,
        ObjectType::Accessor(q) => q.namespace,
        ObjectType::HostAccessor(q) => q.namespace,
        ObjectType::LocalAccessor(q, _) => q.namespace,
        ObjectType::Buffer(q, _) => q.namespace,
        ObjectType::Range(q, _) => q.namespace,
        ObjectType::Id(q, _) => q.namespace,
        ObjectType::NdRange(q, _) => q.namespace,
    }
}

/// The place of the type's own word.
pub fn type_word(t: &ObjectType) -> Spot
    ensures { result ≡ type_word t.now }
{
    match t {
        ObjectType::Queue(q) => q.name,
        ObjectType::Device(q) => q.name,
        ObjectType::Context(q) => q.name,
        ObjectType::Event(q) => q.name,
        ObjectType::Accessor(q) => q.name,
        ObjectType::HostAccessor(q) => q.name,
        ObjectType::LocalAccessor(q, _) => q.name,
        ObjectType::Buffer(q, _) => q.name,
        ObjectType::Range(q, _) => q.name,
        ObjectType::Id(q, _) => q.name,
        ObjectType::NdRange(q, _) => q.name,
    }
}
