//! Subscripts and barriers. (C++17, [expr.sub]; SYCL 2020, "Accessors", "id class", "Group functions")

ghost use Rattle.std.specs.Prelude.{◌≡◌, ◌&&◌, is_some};
ghost use Rattle.sy_operands.specs.Operands.{is_wrong_index, index_faults, denotes_indexed, barrier_faults};
ghost use Rattle.sy_findings.specs.Told.{told};
ghost use Rattle.sy_rules.specs.Calls.{is_group};
ghost use Rattle.sy_rules.specs.ExprRules.{faults, indexed_dimensions, takes_ids, dimensions_differ, in_known, is_index_of_another, is_whole_index, wrong_index};
ghost use Rattle.sy_rules.specs.ExprTypes.{seen_as, with_index, element_of, whole_element, type_of_element, denotes_element, is_element};
ghost use Rattle.sy_rules.specs.Foreign.{is_accessor, is_group as is_within_group};
ghost use Rattle.sy_rules.specs.Seen.{index_dimensions, passes, fails, is_integer};
ghost use Rattle.sy_tree.specs.declared.tree.Argument.TheOpen.{Expr-F};

use sy_access::Mode;
use sy_constructs::{both_known, is_group as is_in_group, is_host, is_known, settle, value};
use sy_findings::{Findings, is_integer, unread};
use sy_fits::same_dimensions;
use sy_names::Names;
use sy_note::{Code, Spot};
use sy_num::Kind;
use sy_objects::is_accessor;
use sy_rules::{Constant, Denotes, Seen, Within};
use sy_tree::Qualified;
use sy_typed::{Dimensions, Thing};

/// The dimensions of what has elements.
fn indexed_dimensions(what: Thing) -> Option<Dimensions>
    ensures { result ≡ indexed_dimensions what }
{
    match what {
        Thing::Vector(_) => Some(Dimensions::One),
        Thing::DeviceVector => Some(Dimensions::One),
        Thing::ThreadVector => Some(Dimensions::One),
        Thing::Accessor(_, d, _) => Some(d),
        Thing::HostAccessor(_, d, _) => Some(d),
        Thing::LocalAccessor(_, d) => Some(d),
        Thing::Indexed(_, d, _, _) => Some(d),
        Thing::Range(d) => Some(d),
        Thing::Id(d) => Some(d),
        Thing::Item(d) => Some(d),
        _ => None,
    }
}

fn index_dimensions(what: Thing) -> Option<Dimensions>
    ensures { result ≡ index_dimensions what }
{
    match what {
        Thing::Id(d) => Some(d),
        Thing::Item(d) => Some(d),
        _ => None,
    }
}

/// The dimensions of an index that is an id or item.
fn dimensions_of_index(i: Seen) -> Option<Dimensions>
    ensures { result ≡ in_known index_dimensions i.what }
{
    match i.what {
        None => None,
        Some(t) => index_dimensions(t),
    }
}

fn dimensions_of_object(a: Seen) -> Option<Dimensions>
    ensures { result ≡ in_known indexed_dimensions a.what }
{
    match a.what {
        None => None,
        Some(t) => indexed_dimensions(t),
    }
}

fn dimensions_differ(d: Option<Dimensions>, e: Option<Dimensions>) -> bool
    ensures { result ≡ dimensions_differ d e }
{
    match (d, e) {
        (Some(d), Some(e)) => !same_dimensions(d, e),
        _ => false,
    }
}

/// The index is an id or item of another dimension than the object's.
fn is_index_of_another(a: Seen, i: Seen) -> bool
    ensures { result ≡ is_index_of_another a i }
{
    dimensions_differ(dimensions_of_object(a), dimensions_of_index(i))
}

/// An id or item takes the place of all indexes of these.
fn takes_ids(a: Seen) -> bool
    ensures { result ≡ passes takes_ids a.what }
{
    match a.what {
        Some(Thing::Accessor(_, _, _)) => true,
        Some(Thing::HostAccessor(_, _, _)) => true,
        Some(Thing::LocalAccessor(_, _)) => true,
        _ => false,
    }
}

fn is_whole_index(a: Seen, i: Seen) -> bool
    ensures { result ≡ is_whole_index a i }
{
    takes_ids(a) && dimensions_of_index(i).is_some()
}

fn is_no_integer(a: Seen) -> bool
    ensures { result ≡ fails is_integer a.what }
{
    match a.what {
        None => false,
        Some(t) => !is_integer(t),
    }
}

/// The index is neither an integer nor an id or item where one is taken.
fn is_wrong_index(a: Seen, i: Seen) -> bool
    ensures { result ≡ is_wrong_index a i }
{
    is_no_integer(i) && !(is_whole_index(a, i) || is_index_of_another(a, i))
}

fn has_no_elements(a: Seen) -> bool
    ensures { result ≡ fails (λ t. is_some (indexed_dimensions t)) a.what }
{
    match a.what {
        None => false,
        Some(t) => indexed_dimensions(t).is_none(),
    }
}

/// Tells what an index, whose `[` is at `bracket`, breaks.
fn tell_index(findings: &mut Findings, a: Seen, bracket: Spot, i: Seen)
    ensures { findings.new ≡ told findings.old (index_faults a bracket i) }
{
    findings.tell_if(is_index_of_another(a, i), Code::BadDimension, i.first);
    findings.tell_if(has_no_elements(a), Code::UnknownMember, bracket);
    findings.tell_if(is_wrong_index(a, i), Code::WrongOperand, i.first);
    unread(findings, i);
}

// ---- the element

/// What one more index leaves of an object with these dimensions, of which so many are left.
fn with_index(k: Kind, all: Dimensions, left: Dimensions, mode: Mode) -> Thing
    ensures { result ≡ with_index k all left mode }
{
    match left {
        Dimensions::One => Thing::Integer(k),
        Dimensions::Two => Thing::Indexed(k, all, Dimensions::One, mode),
        Dimensions::Three => Thing::Indexed(k, all, Dimensions::Two, mode),
    }
}

fn element_of(what: Thing) -> Option<Thing>
    ensures { result ≡ element_of what }
{
    match what {
        Thing::Vector(k) => Some(Thing::Integer(k)),
        Thing::DeviceVector => Some(Thing::Device),
        Thing::ThreadVector => Some(Thing::Thread),
        Thing::Accessor(k, d, mode) => Some(with_index(k, d, d, mode)),
        Thing::HostAccessor(k, d, mode) => Some(with_index(k, d, d, mode)),
        Thing::LocalAccessor(k, d) => Some(with_index(k, d, d, Mode::ReadWrite)),
        Thing::Indexed(k, d, left, mode) => Some(with_index(k, d, left, mode)),
        Thing::Range(_) => Some(Thing::Integer(Kind::ULong)),
        Thing::Id(_) => Some(Thing::Integer(Kind::ULong)),
        Thing::Item(_) => Some(Thing::Integer(Kind::ULong)),
        _ => None,
    }
}

/// The element behind an index for all dimensions.
fn whole_element(what: Thing) -> Option<Thing>
    ensures { result ≡ whole_element what }
{
    match what {
        Thing::Accessor(k, _, _) => Some(Thing::Integer(k)),
        Thing::HostAccessor(k, _, _) => Some(Thing::Integer(k)),
        Thing::LocalAccessor(k, _) => Some(Thing::Integer(k)),
        _ => None,
    }
}

fn type_of_element(a: Seen, i: Seen) -> Option<Thing>
    ensures { result ≡ type_of_element a i }
{
    match a.what {
        None => None,
        Some(t) => {
            if is_whole_index(a, i) {
                whole_element(t)
            } else {
                element_of(t)
            }
        }
    }
}

fn denotes_element(a: Seen) -> Denotes
    ensures { result ≡ denotes_element a a.what }
{
    match a.what {
        Some(Thing::Vector(_)) => a.denotes,
        Some(Thing::Accessor(_, _, mode)) => Denotes::Element(mode),
        Some(Thing::HostAccessor(_, _, mode)) => Denotes::Element(mode),
        Some(Thing::LocalAccessor(_, _)) => Denotes::Element(Mode::ReadWrite),
        Some(Thing::Indexed(_, _, _, mode)) => Denotes::Element(mode),
        _ => Denotes::Value,
    }
}

/// What an index denotes that gives this: an element only where all indexes are there.
fn denotes_indexed(a: Seen, what: Option<Thing>) -> Denotes
    ensures { result ≡ denotes_indexed a what }
{
    match what {
        Some(Thing::Integer(_)) => denotes_element(a),
        _ => Denotes::Value,
    }
}

fn is_indexed_in_group(within: Within, a: Seen) -> bool
    ensures { result ≡ (is_within_group within && passes is_accessor a.what) }
{
    match a.what {
        None => false,
        Some(t) => is_in_group(within) && is_accessor(t),
    }
}

/// `a[i]`, with its brackets.
pub fn subscript(
    names: &Names,
    findings: &mut Findings,
    a: Seen,
    bracket: Spot,
    i: Seen,
    end: Spot,
) -> Seen
    ensures seen { result ≡ seen_as names.now (Expr-F.Subscript a bracket i end) }
    ensures found { findings.new ≡ told findings.old (faults names.now (Expr-F.Subscript a bracket i end)) }
{
    let mut own = Findings::new();
    tell_index(&mut own, a, bracket, i);
    let what = type_of_element(a, i);
    let whole = Seen {
        what,
        first: a.first,
        denotes: denotes_indexed(a, what),
        constant: Constant::Varying,
        variable: None,
        is_bare: false,
    };
    let is_foreign = is_indexed_in_group(names.setting().within, a);
    settle(findings, own, is_foreign, both_known(a, i), whole)
}

// ---- barriers

fn is_no_group(a: Seen) -> bool
    ensures { result ≡ fails is_group a.what }
{
    match a.what {
        None => false,
        Some(Thing::Group(_)) => false,
        Some(_) => true,
    }
}

/// Tells what `group_barrier` breaks.
fn tell_barrier(findings: &mut Findings, within: Within, q: Qualified, a: Seen)
    ensures { findings.new ≡ told findings.old (barrier_faults within q a) }
{
    findings.tell_if(is_no_group(a), Code::WrongArguments, q.name);
    findings.tell_if(is_host(within), Code::NotInHost, q.namespace);
}

/// `group_barrier(a)`, up to `end`.
pub fn group_barrier(
    names: &Names,
    findings: &mut Findings,
    q: Qualified,
    a: Seen,
    end: Spot,
) -> Seen
    ensures seen { result ≡ seen_as names.now (Expr-F.GroupBarrier q a end) }
    ensures found { findings.new ≡ told findings.old (faults names.now (Expr-F.GroupBarrier q a end)) }
{
    let within = names.setting().within;
    let mut own = Findings::new();
    tell_barrier(&mut own, within, q, a);
    let whole = value(Some(Thing::Void), q.namespace, Constant::Varying);
    settle(findings, own, is_in_group(within), is_known(a), whole)
}
