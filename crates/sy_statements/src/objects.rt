//! Declared objects of the library, and what a range-for goes over. (C++17, [stmt.ranged])

ghost use Rattle.std.specs.Prelude.{◌≡◌, ◌++◌, not, ◌&&◌, flat_map};
ghost use Rattle.sy_findings.specs.Told.{told};
ghost use Rattle.sy_note.specs.declared.Code.TheVariants as code;
ghost use Rattle.sy_rules.specs.ExprRules.{in_type, no_dimension, unread_argument, unread_arguments, is_wrong_dimension, is_wrong_arguments, is_wrong_element};
ghost use Rattle.sy_rules.specs.Faults.{at};
ghost use Rattle.sy_rules.specs.Foreign.{is_host, made_in_host, type_start};
ghost use Rattle.sy_rules.specs.Objects.{arguments_of};
ghost use Rattle.sy_rules.specs.Seen.{when, unread};
ghost use Rattle.sy_rules.specs.StmtRules.{unsubmitted, object_faults, vector_faults, device_vector_faults, goes_over, element_given};

use crate::declarations::redeclaration;
use crate::literals::{no_dimension_in_type, wide_in_type};
use sy_findings::{Findings, unread};
use sy_fits::same_kind;
use sy_names::Names;
use sy_note::{Code, Spot};
use sy_num::Kind;
use sy_objects::{
    fit_device_vector, fit_vector, initialized_row, is_submitted, made_in_host, type_start,
};
use sy_rules::{Fit, Seen, SeenArgument, SeenInitializer, Within};
use sy_tree::{Lexeme, ObjectType, TypeSpecifier};
use sy_typed::Thing;

// ---- what is read of arguments

/// ModeBroken at each that is read through write_only.
#[tactic(auto, using(sy_findings::proofs::ToldLemmas::told_at))]
pub fn unread_each(findings: &mut Findings, xs: &[Seen])
    ensures { findings.new ≡ told findings.old (at code.ModeBroken (flat_map unread xs.now)) }
{
    for x in xs {
        unread(findings, *x);
    }
}

fn unread_argument(findings: &mut Findings, a: &SeenArgument)
    ensures { findings.new ≡ told findings.old (at code.ModeBroken (unread_argument a.now)) }
{
    match a {
        SeenArgument::Value(a) => unread(findings, *a),
        SeenArgument::Braced(xs) => unread_each(findings, xs.as_slice()),
        SeenArgument::Lambda(_) => {}
    }
}

/// ModeBroken at each that is read through write_only.
#[tactic(auto, using(sy_findings::proofs::ToldLemmas::told_at))]
pub fn unread_arguments(findings: &mut Findings, xs: &[SeenArgument])
    ensures { findings.new ≡ told findings.old (at code.ModeBroken (unread_arguments xs.now)) }
{
    for x in xs {
        unread_argument(findings, x);
    }
}

#[tactic(auto, using(sy_findings::proofs::ToldLemmas::told_at))]
fn unread_initializer(findings: &mut Findings, i: &Option<SeenInitializer>)
    ensures { findings.new ≡ told findings.old (at code.ModeBroken (unread_arguments (arguments_of i.now))) }
{
    match i {
        None => {}
        Some(SeenInitializer::Copy(a)) => unread(findings, *a),
        Some(SeenInitializer::Direct(_, xs)) => unread_arguments(findings, xs.as_slice()),
    }
}

// ---- how arguments fit

fn is_wrong_dimension(fit: Fit) -> bool
    ensures { result ≡ is_wrong_dimension fit }
{
    matches!(fit, Fit::WrongDimension)
}

fn is_wrong_arguments(fit: Fit) -> bool
    ensures { result ≡ is_wrong_arguments fit }
{
    matches!(fit, Fit::WrongArguments)
}

fn is_wrong_element(fit: Fit) -> bool
    ensures { result ≡ is_wrong_element fit }
{
    matches!(fit, Fit::WrongElement)
}

/// BadDimension in the type, or at the name.
fn bad_dimension(findings: &mut Findings, t: &ObjectType, fit: Fit, s: Spot)
    ensures { findings.new ≡ told findings.old (at code.BadDimension (in_type no_dimension t.now ++ when (is_wrong_dimension fit) s)) }
{
    no_dimension_in_type(findings, t);
    findings.tell_if(is_wrong_dimension(fit), Code::BadDimension, s);
}

/// BadDeclaration at an event that isn't had from a call of `submit`.
fn event_declaration(findings: &mut Findings, t: &ObjectType, i: &Option<SeenInitializer>, s: Spot)
    ensures { findings.new ≡ told findings.old (at code.BadDeclaration (unsubmitted t.now i.now s)) }
{
    match t {
        ObjectType::Event(_) => findings.tell_if(!is_submitted(i), Code::BadDeclaration, s),
        _ => {}
    }
}

/// NotInHost at an accessor outside groups and kernels.
fn not_in_host(findings: &mut Findings, names: &Names, t: &ObjectType)
    ensures { findings.new ≡ told findings.old (at code.NotInHost (when (is_host names.now.setting.within && not (made_in_host t.now)) (type_start t.now))) }
{
    let is_host = matches!(names.setting().within, Within::Host);
    findings.tell_if(is_host && !made_in_host(t), Code::NotInHost, type_start(t));
}

/// What a declared object breaks beside its initializer's parts, unless a kernel or group that holds it forbids it.
pub fn object(
    findings: &mut Findings,
    names: &Names,
    t: &ObjectType,
    x: &Lexeme,
    i: &Option<SeenInitializer>,
)
    ensures { findings.new ≡ told findings.old (object_faults names.now t.now x.now i.now) }
{
    let fit = initialized_row(t, i).fit;
    redeclaration(findings, names, x);
    wide_in_type(findings, t);
    bad_dimension(findings, t, fit, x.spot);
    event_declaration(findings, t, i, x.spot);
    findings.tell_if(is_wrong_arguments(fit), Code::WrongArguments, x.spot);
    findings.tell_if(is_wrong_element(fit), Code::BadElement, x.spot);
    unread_initializer(findings, i);
    not_in_host(findings, names, t);
}

/// What a declared vector of integers breaks beside its initializer's parts.
pub fn vector(
    findings: &mut Findings,
    names: &Names,
    kind: Kind,
    x: &Lexeme,
    i: &Option<SeenInitializer>,
)
    ensures { findings.new ≡ told findings.old (vector_faults names.now kind x.now i.now) }
{
    redeclaration(findings, names, x);
    let fit = fit_vector(kind, i);
    findings.tell_if(is_wrong_arguments(fit), Code::WrongArguments, x.spot);
    unread_initializer(findings, i);
}

/// What a declared vector of devices breaks beside its initializer's parts.
pub fn device_vector(
    findings: &mut Findings,
    names: &Names,
    x: &Lexeme,
    i: &Option<SeenInitializer>,
)
    ensures { findings.new ≡ told findings.old (device_vector_faults names.now x.now i.now) }
{
    redeclaration(findings, names, x);
    let fit = fit_device_vector(i);
    findings.tell_if(is_wrong_arguments(fit), Code::WrongArguments, x.spot);
}

// ---- range-for

/// An element that is declared so goes over what has this type.
pub fn goes_over(of: TypeSpecifier, is_const: bool, by_reference: bool, what: Thing) -> bool
    ensures { result ≡ goes_over of is_const by_reference what }
{
    match (of, what) {
        (TypeSpecifier::Auto(_), Thing::Vector(_)) => true,
        (TypeSpecifier::Integer(t), Thing::Vector(k)) => !by_reference || same_kind(t.kind, k),
        (TypeSpecifier::Auto(_), Thing::DeviceVector) => true,
        (TypeSpecifier::Auto(_), Thing::ThreadVector) => by_reference && !is_const,
        _ => false,
    }
}

/// The type of the element.
pub fn element_given(of: TypeSpecifier, vector: Option<Thing>) -> Option<Thing>
    ensures { result ≡ element_given of vector }
{
    match of {
        TypeSpecifier::Integer(t) => Some(Thing::Integer(t.kind)),
        TypeSpecifier::Auto(_) => match vector {
            Some(Thing::Vector(k)) => Some(Thing::Integer(k)),
            Some(Thing::DeviceVector) => Some(Thing::Device),
            Some(Thing::ThreadVector) => Some(Thing::Thread),
            _ => None,
        },
    }
}
