//! What lambdas are given for, and the commands of a handler. (SYCL 2020, "Command group handler class")

ghost use Rattle.std.specs.Prelude.{◌≡◌};
ghost use Rattle.sy_rules.specs.Members.{index_over, reducer_for, kernel_after, if_first, member_role, extent_dimensions, agree, fit_kernel, fit_parallel, fit_fill, same_elements, fit_copy};

use sy_fits::{
    Sort, arguments_if, both, dimension_if, element_if, is_lambda, may_be, same_dimensions,
    same_kind, type_in,
};
use sy_rules::{Fit, KernelIndex, Role, SeenArgument};
use sy_typed::{Dimensions, Member, Thing};

fn index_over(what: Option<Thing>) -> KernelIndex
    ensures { result ≡ index_over what }
{
    match what {
        Some(Thing::Range(d)) => KernelIndex::OverRange(d),
        Some(Thing::NdRange(d)) => KernelIndex::OverNdRange(d),
        _ => KernelIndex::Unknown,
    }
}

fn reducer_for(what: Option<Thing>) -> Option<Thing>
    ensures { result ≡ reducer_for what }
{
    match what {
        Some(Thing::Reduction(k, f)) => Some(Thing::Reducer(k, f)),
        _ => None,
    }
}

/// The role of a lambda as an argument of `parallel_for`, behind these.
fn kernel_after(before: &[SeenArgument]) -> Option<Role>
    ensures { result ≡ kernel_after before.now }
{
    match before {
        [r] => Some(Role::Kernel(index_over(type_in(r)), None)),
        [r, x] => Some(Role::Kernel(index_over(type_in(r)), Some(reducer_for(type_in(x))))),
        _ => None,
    }
}

fn if_first(role: Role, before: &[SeenArgument]) -> Option<Role>
    ensures { result ≡ if_first role before.now }
{
    match before {
        [] => Some(role),
        _ => None,
    }
}

/// The role of a lambda as an argument of a member, behind these arguments. The object is the variable with this number.
pub fn member_role(
    object: Thing,
    variable: u32,
    member: Member,
    before: &[SeenArgument],
) -> Option<Role>
    ensures { result ≡ member_role object variable member before.now }
{
    match (object, member) {
        (Thing::Queue, Member::Submit) => if_first(Role::Group, before),
        (Thing::ThreadVector, Member::EmplaceBack) => if_first(Role::Thread(variable), before),
        (Thing::Handler, Member::SingleTask) => {
            if_first(Role::Kernel(KernelIndex::Absent, None), before)
        }
        (Thing::Handler, Member::ParallelFor) => kernel_after(before),
        _ => None,
    }
}

// ---- the commands of a handler

fn extent_dimensions(what: Option<Thing>) -> Option<Dimensions>
    ensures { result ≡ extent_dimensions what }
{
    match what {
        Some(Thing::Range(d)) => Some(d),
        Some(Thing::NdRange(d)) => Some(d),
        _ => None,
    }
}

fn agree(d: Option<Dimensions>, e: Option<Dimensions>) -> bool
    ensures { result ≡ agree d e }
{
    match (d, e) {
        (Some(d), Some(e)) => same_dimensions(d, e),
        _ => true,
    }
}

/// A kernel whose parameter has the dimensions of the range.
fn fit_kernel(r: &SeenArgument, x: &SeenArgument) -> Fit
    ensures { result ≡ fit_kernel r.now x.now }
{
    match x {
        SeenArgument::Lambda(l) => dimension_if(agree(extent_dimensions(type_in(r)), l.dimensions)),
        _ => arguments_if(is_lambda(x)),
    }
}

pub fn fit_parallel(xs: &[SeenArgument]) -> Fit
    ensures { result ≡ fit_parallel xs.now }
{
    match xs {
        [r, x] => both(arguments_if(may_be(Sort::Extent, r)), fit_kernel(r, x)),
        [r, s, x] => both(
            arguments_if(may_be(Sort::Extent, r) && may_be(Sort::Reduction, s)),
            fit_kernel(r, x),
        ),
        _ => Fit::WrongArguments,
    }
}

pub fn fit_fill(xs: &[SeenArgument]) -> Fit
    ensures { result ≡ fit_fill xs.now }
{
    match xs {
        [a, x] => { arguments_if(may_be(Sort::WrittenAccessor, a) && may_be(Sort::Integer, x)) }
        _ => Fit::WrongArguments,
    }
}

fn same_elements(a: Option<Thing>, b: Option<Thing>) -> bool
    ensures { result ≡ same_elements a b }
{
    match a {
        Some(Thing::Accessor(j, _, _)) => match b {
            Some(Thing::Accessor(k, _, _)) => same_kind(j, k),
            _ => true,
        },
        _ => true,
    }
}

pub fn fit_copy(xs: &[SeenArgument]) -> Fit
    ensures { result ≡ fit_copy xs.now }
{
    match xs {
        [a, b] => both(
            arguments_if(may_be(Sort::ReadAccessor, a) && may_be(Sort::WrittenAccessor, b)),
            element_if(same_elements(type_in(a), type_in(b))),
        ),
        _ => Fit::WrongArguments,
    }
}
