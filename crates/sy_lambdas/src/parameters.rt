//! The parameters of lambdas. (C++17, [expr.prim.lambda]; SYCL 2020, "Command group function objects", "Defining
//! kernels as lambdas")

ghost use Rattle.std.specs.Prelude.{◌≡◌};
ghost use Rattle.sy_findings.specs.Told.{told};
ghost use Rattle.sy_note.specs.declared.Code.TheVariants as code;
ghost use Rattle.sy_rules.specs.ExprRules.{wide_literal, no_dimension};
ghost use Rattle.sy_rules.specs.Faults.{at};
ghost use Rattle.sy_rules.specs.Literals.{dimensions_written};
ghost use Rattle.sy_rules.specs.Lambdas.{are_none, auto_parameter, parameter_type, in_parameter, lambda_parameter_faults, is_handler_type, is_auto, is_index, is_handler_reference, is_reducer_reference, rest_fits, indexed_fits, parameters_fit, parameter_dimensions, first_dimensions};

use sy_constants::dimensions_written;
use sy_findings::Findings;
use sy_names::Names;
use sy_rules::{KernelIndex, Role};
use sy_statements::{no_dimension, redeclaration, wide_literal};
use sy_tree::{LambdaParameter, LambdaParameterType, Lexeme};
use sy_typed::{Dimensions, Thing};

/// The type of `auto&`: a group's handler, or the variable of a kernel's reduction.
fn auto_parameter(role: Role) -> Option<Thing>
    ensures { result ≡ auto_parameter role }
{
    match role {
        Role::Group => Some(Thing::Handler),
        Role::Kernel(_, Some(reducer)) => reducer,
        _ => None,
    }
}

fn dimensions_at(x: &Lexeme) -> Option<Dimensions>
    ensures { result ≡ dimensions_written x.now.text }
{
    dimensions_written(x.text.items())
}

/// The type of a parameter of a lambda with this role.
pub fn parameter_type(role: Role, of: &LambdaParameterType) -> Option<Thing>
    ensures { result ≡ parameter_type role of.now }
{
    match of {
        LambdaParameterType::Handler(_) => Some(Thing::Handler),
        LambdaParameterType::Auto(_) => auto_parameter(role),
        LambdaParameterType::Id(_, x) => match dimensions_at(x) {
            None => None,
            Some(d) => Some(Thing::Id(d)),
        },
        LambdaParameterType::Item(_, x) => match dimensions_at(x) {
            None => None,
            Some(d) => Some(Thing::Item(d)),
        },
        LambdaParameterType::NdItem(_, x) => match dimensions_at(x) {
            None => None,
            Some(d) => Some(Thing::NdItem(d)),
        },
    }
}

fn wide_in_parameter(findings: &mut Findings, of: &LambdaParameterType)
    ensures { findings.new ≡ told findings.old (at code.BadLiteral (in_parameter wide_literal of.now)) }
{
    match of {
        LambdaParameterType::Id(_, x) => wide_literal(findings, x),
        LambdaParameterType::Item(_, x) => wide_literal(findings, x),
        LambdaParameterType::NdItem(_, x) => wide_literal(findings, x),
        _ => {}
    }
}

fn no_dimension_in_parameter(findings: &mut Findings, of: &LambdaParameterType)
    ensures { findings.new ≡ told findings.old (at code.BadDimension (in_parameter no_dimension of.now)) }
{
    match of {
        LambdaParameterType::Id(_, x) => no_dimension(findings, x),
        LambdaParameterType::Item(_, x) => no_dimension(findings, x),
        LambdaParameterType::NdItem(_, x) => no_dimension(findings, x),
        _ => {}
    }
}

/// What a parameter breaks.
pub fn parameter(findings: &mut Findings, names: &Names, p: &LambdaParameter)
    ensures { findings.new ≡ told findings.old (lambda_parameter_faults names.now p.now) }
{
    redeclaration(findings, names, &p.name);
    wide_in_parameter(findings, &p.of);
    no_dimension_in_parameter(findings, &p.of);
}

// ---- whether the parameters are those of the lambda's role

fn is_handler_type(of: &LambdaParameterType) -> bool
    ensures { result ≡ is_handler_type of.now }
{
    match of {
        LambdaParameterType::Handler(_) => true,
        LambdaParameterType::Auto(_) => true,
        _ => false,
    }
}

fn is_auto(of: &LambdaParameterType) -> bool
    ensures { result ≡ is_auto of.now }
{
    match of {
        LambdaParameterType::Auto(_) => true,
        _ => false,
    }
}

/// An id or item over a range, an nd_item over an nd_range.
fn is_index(index: KernelIndex, of: &LambdaParameterType) -> bool
    ensures { result ≡ is_index index of.now }
{
    match index {
        KernelIndex::OverRange(_) => match of {
            LambdaParameterType::Id(_, _) => true,
            LambdaParameterType::Item(_, _) => true,
            _ => false,
        },
        KernelIndex::OverNdRange(_) => match of {
            LambdaParameterType::NdItem(_, _) => true,
            _ => false,
        },
        KernelIndex::Unknown => !is_handler_type(of),
        KernelIndex::Absent => false,
    }
}

fn is_handler_reference(ps: &[LambdaParameter]) -> bool
    ensures { result ≡ is_handler_reference ps.now }
{
    match ps {
        [p] => is_handler_type(&p.of) && p.by_reference,
        _ => false,
    }
}

fn is_reducer_reference(ps: &[LambdaParameter]) -> bool
    ensures { result ≡ is_reducer_reference ps.now }
{
    match ps {
        [p] => is_auto(&p.of) && p.by_reference,
        _ => false,
    }
}

fn are_none(ps: &[LambdaParameter]) -> bool
    ensures { result ≡ are_none ps.now }
{
    match ps {
        [] => true,
        _ => false,
    }
}

/// Behind the index a reduction's variable, if there is one.
fn rest_fits(reducer: Option<Option<Thing>>, ps: &[LambdaParameter]) -> bool
    ensures { result ≡ rest_fits reducer ps.now }
{
    match reducer {
        None => are_none(ps),
        Some(_) => is_reducer_reference(ps),
    }
}

fn indexed_fits(index: KernelIndex, reducer: Option<Option<Thing>>, ps: &[LambdaParameter]) -> bool
    ensures { result ≡ indexed_fits index reducer ps.now }
{
    match index {
        KernelIndex::Absent => are_none(ps),
        _ => match ps {
            [] => false,
            [p, rest @ ..] => is_index(index, &p.of) && rest_fits(reducer, rest),
        },
    }
}

/// The parameters are those of the role.
pub fn parameters_fit(role: Role, ps: &[LambdaParameter]) -> bool
    ensures { result ≡ parameters_fit role ps.now }
{
    match role {
        Role::Group => is_handler_reference(ps),
        Role::Thread(_) => are_none(ps),
        Role::Kernel(index, reducer) => indexed_fits(index, reducer, ps),
    }
}

// ---- dimensions

fn parameter_dimensions(of: &LambdaParameterType) -> Option<Dimensions>
    ensures { result ≡ parameter_dimensions of.now }
{
    match of {
        LambdaParameterType::Id(_, x) => dimensions_at(x),
        LambdaParameterType::Item(_, x) => dimensions_at(x),
        LambdaParameterType::NdItem(_, x) => dimensions_at(x),
        _ => None,
    }
}

/// The dimensions of a kernel's index.
pub fn first_dimensions(ps: &[LambdaParameter]) -> Option<Dimensions>
    ensures { result ≡ first_dimensions ps.now }
{
    match ps {
        [] => None,
        [p, ..] => parameter_dimensions(&p.of),
    }
}
