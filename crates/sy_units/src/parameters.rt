//! Parameters of functions. (C++17, [dcl.fct])

ghost use Rattle.std.specs.Prelude.{◌≡◌, ◌++◌, Option, OnOk, IfOk};
ghost use Rattle.sy_findings.specs.Told.{told};
ghost use Rattle.sy_found.specs.Noted.{found_in};
ghost use Rattle.sy_found.specs.declared.parts.Place.{Place};
ghost use Rattle.sy_note.specs.declared.Code.TheVariants as code;
ghost use Rattle.sy_rules.specs.ExprRules.{if_written, wide_literal, no_dimension};
ghost use Rattle.sy_rules.specs.ExprTypes.{variable};
ghost use Rattle.sy_rules.specs.Faults.{at};
ghost use Rattle.sy_rules.specs.Names.{declared_variable};
ghost use Rattle.sy_rules.specs.Seen.{when, same_kind};
ghost use Rattle.sy_num.specs.declared.Kind.TheVariants.{Bool};
ghost use Rattle.sy_rules.specs.Units.{buffer_of, reference_type, in_reference, passed_to, one_parameter};
ghost use Rattle.sy_units.specs.Parameters.{name_of, type_of, is_fixed, bad_type, parameter_faults};

use std::alloc::AllocError;
use sy_constants::dimensions_written;
use sy_constructs::variable;
use sy_findings::Findings;
use sy_fits::same_kind;
use sy_found::Found;
use sy_names::{Declared, Names};
use sy_note::{Code, Spot};
use sy_num::Kind;
use sy_rules::{Constant, Passed};
use sy_statements::{no_dimension, redeclaration, wide_literal};
use sy_tree::{ElementArguments, Lexeme, Parameter, ReferenceType};
use sy_typed::{Dimensions, Thing, Variable};

fn buffer_of(t: &ElementArguments) -> Option<Thing>
    ensures { result ≡ buffer_of t.now }
{
    match &t.dimensions {
        None => Some(Thing::Buffer(t.element.kind, Dimensions::One)),
        Some(x) => match dimensions_written(x.text.items()) {
            None => None,
            Some(d) => Some(Thing::Buffer(t.element.kind, d)),
        },
    }
}

fn reference_type(of: &ReferenceType) -> Option<Thing>
    ensures { result ≡ reference_type of.now }
{
    match of {
        ReferenceType::Queue(_) => Some(Thing::Queue),
        ReferenceType::Device(_) => Some(Thing::Device),
        ReferenceType::Context(_) => Some(Thing::Context),
        ReferenceType::Buffer(_, t) => buffer_of(t),
    }
}

/// How a parameter takes its argument.
pub fn passed_to(p: &Parameter) -> Passed
    ensures { result ≡ passed_to p.now }
{
    match p {
        Parameter::Integer(_, _, _) => Passed::Integer,
        Parameter::Object(t, _) => Passed::Reference(reference_type(t), false),
        Parameter::Vector(c, _, t, _) => Passed::Reference(Some(Thing::Vector(t.kind)), *c),
    }
}

// ---- what a parameter is

fn name_of(p: &Parameter) -> &Lexeme
    ensures { result.now ≡ name_of p.now }
{
    match p {
        Parameter::Integer(_, _, x) => x,
        Parameter::Object(_, x) => x,
        Parameter::Vector(_, _, _, x) => x,
    }
}

fn type_of(p: &Parameter) -> Option<Thing>
    ensures { result ≡ type_of p.now }
{
    match p {
        Parameter::Integer(_, t, _) => Some(Thing::Integer(t.kind)),
        Parameter::Object(t, _) => reference_type(t),
        Parameter::Vector(_, _, t, _) => Some(Thing::Vector(t.kind)),
    }
}

fn is_fixed(p: &Parameter) -> bool
    ensures { result ≡ is_fixed p.now }
{
    match p {
        Parameter::Integer(c, _, _) => *c,
        Parameter::Object(_, _) => false,
        Parameter::Vector(c, _, _, _) => *c,
    }
}

// ---- what it breaks

fn wide_in_reference(findings: &mut Findings, of: &ReferenceType)
    ensures { findings.new ≡ told findings.old (at code.BadLiteral (in_reference wide_literal of.now)) }
{
    match of {
        ReferenceType::Buffer(_, t) => match &t.dimensions {
            None => {}
            Some(x) => wide_literal(findings, x),
        },
        _ => {}
    }
}

fn no_dimension_in_reference(findings: &mut Findings, of: &ReferenceType)
    ensures { findings.new ≡ told findings.old (at code.BadDimension (in_reference no_dimension of.now)) }
{
    match of {
        ReferenceType::Buffer(_, t) => match &t.dimensions {
            None => {}
            Some(x) => no_dimension(findings, x),
        },
        _ => {}
    }
}

fn bad_reference(findings: &mut Findings, of: &ReferenceType)
    ensures { findings.new ≡ told findings.old (at code.BadLiteral (in_reference wide_literal of.now) ++ at code.BadDimension (in_reference no_dimension of.now)) }
{
    wide_in_reference(findings, of);
    no_dimension_in_reference(findings, of);
}

/// There is no vector of bool.
fn vector_of_bool(findings: &mut Findings, kind: Kind, s: Spot)
    ensures { findings.new ≡ told findings.old (at code.WrongArguments (when (same_kind kind Bool) s)) }
{
    findings.tell_if(same_kind(kind, Kind::Bool), Code::WrongArguments, s);
}

fn bad_type(findings: &mut Findings, p: &Parameter)
    ensures { findings.new ≡ told findings.old (bad_type p.now) }
{
    match p {
        Parameter::Integer(_, _, _) => {}
        Parameter::Object(t, _) => bad_reference(findings, t),
        Parameter::Vector(_, _, t, x) => vector_of_bool(findings, t.kind, x.spot),
    }
}

fn parameter_faults(findings: &mut Findings, names: &Names, p: &Parameter)
    ensures { findings.new ≡ told findings.old (parameter_faults names.now p.now) }
{
    redeclaration(findings, names, name_of(p));
    bad_type(findings, p);
}

/// Declares a parameter, and adds what it breaks.
pub fn parameter(
    found: &mut Found,
    names: &mut Names,
    p: &Parameter,
) -> Result<Variable, AllocError>
    ensures found { (at : Option Place) → found.new ≡ found_in at found.old (one_parameter p.now names.old).found }
    ensures names { OnOk result (names.new ≡ (one_parameter p.now names.old).names) }
    ensures value { IfOk result (λ v. v ≡ (one_parameter p.now names.old).what) }
{
    let mut own = Findings::new();
    parameter_faults(&mut own, names, p);
    found.add(own);
    let x = name_of(p);
    let what = type_of(p);
    let number = names.add(
        x,
        Declared {
            what,
            fixed: is_fixed(p),
            constant: Constant::Varying,
            names_element: false,
        },
    )?;
    Ok(variable(number, what, x.spot))
}
