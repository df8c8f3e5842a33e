//! Declared integers, and what `auto` takes. (C++17, [dcl.spec.auto], [basic.scope.declarative])

ghost use Rattle.std.specs.Prelude.{◌≡◌, Some};
ghost use Rattle.sy_findings.specs.Told.{told};
ghost use Rattle.sy_note.specs.declared.Code.TheVariants as code;
ghost use Rattle.sy_note.specs.declared.Spot.{Spot};
ghost use Rattle.sy_rules.specs.Faults.{at};
ghost use Rattle.sy_rules.specs.Seen.{when};
ghost use Rattle.sy_rules.specs.StmtRules.{redeclared, plain_faults, auto_takes, auto_takes_call, is_taken, same_type, differs_from, shared_after, bad_auto, is_missing, bad_declaration, is_constant, has_no_value, bad_constant, wrong_initializer, unread_initializer, declarator_faults, auto_type, declared_type, constant_given, declared_constant};

use sy_constants::{converted_to_type, or_unknown};
use sy_findings::{Findings, kind_of, no_integer, unread};
use sy_fits::{same_dimensions, same_kind};
use sy_names::Names;
use sy_note::{Code, Spot};
use sy_rules::{Constant, Seen, Shared};
use sy_tree::{ConstSpecifier, Lexeme, TypeSpecifier};
use sy_typed::Thing;

/// What stands before declared names: whether they have to be constants, `const` or `constexpr`, and the type.
#[derive(Clone, Copy, PartialEq, Eq, Debug)]
pub struct Specifiers {
    pub is_constant: bool,
    pub specifier: Option<ConstSpecifier>,
    pub of: TypeSpecifier,
}

/// An initializer, and whether it stands behind `=`.
pub type Given = Option<(Seen, bool)>;

/// Redeclared at a name that the innermost scope has.
pub fn redeclaration(findings: &mut Findings, names: &Names, x: &Lexeme)
    ensures { findings.new ≡ told findings.old (plain_faults names.now x.now) }
{
    findings.tell_if(names.is_here(x.text.items()), Code::Redeclared, x.spot);
}

fn auto_takes(what: Thing) -> bool
    ensures { result ≡ auto_takes what }
{
    match what {
        Thing::Integer(_) => true,
        Thing::Id(_) | Thing::Range(_) | Thing::NdRange(_) | Thing::Group(_) => true,
        Thing::Device => true,
        _ => false,
    }
}

/// What `auto` takes only from a call, and behind `=`.
fn auto_takes_call(what: Thing) -> bool
    ensures { result ≡ auto_takes_call what }
{
    matches!(what, Thing::Event | Thing::DeviceVector)
}

fn is_taken(a: Seen, equal: bool, what: Thing) -> bool
    ensures { result ≡ is_taken a equal what }
{
    auto_takes(what) || (auto_takes_call(what) && (equal && !a.variable.is_some()))
}

/// Several names of one `auto` have one type.
fn same_type(a: Thing, b: Thing) -> bool
    ensures { result ≡ same_type a b }
{
    match (a, b) {
        (Thing::Integer(j), Thing::Integer(k)) => same_kind(j, k),
        (Thing::Id(d), Thing::Id(e)) => same_dimensions(d, e),
        (Thing::Range(d), Thing::Range(e)) => same_dimensions(d, e),
        (Thing::NdRange(d), Thing::NdRange(e)) => same_dimensions(d, e),
        (Thing::Group(d), Thing::Group(e)) => same_dimensions(d, e),
        (Thing::Device, Thing::Device) => true,
        (Thing::Event, Thing::Event) => true,
        (Thing::DeviceVector, Thing::DeviceVector) => true,
        _ => false,
    }
}

fn differs_from(shared: Shared, what: Thing) -> bool
    ensures { result ≡ differs_from shared what }
{
    match shared {
        Shared::Type(first) => !same_type(first, what),
        _ => false,
    }
}

/// What the names share behind one of this type.
pub fn shared_after(shared: Shared, what: Option<Thing>) -> Shared
    ensures { result ≡ shared_after shared what }
{
    let Some(t) = what else {
        return shared;
    };
    match shared {
        Shared::Unknown => Shared::Type(t),
        Shared::Type(first) => {
            if same_type(first, t) {
                shared
            } else {
                Shared::Differs
            }
        }
        Shared::Differs => Shared::Differs,
    }
}

fn has_no_auto_type(first: Shared, a: Seen, equal: bool) -> bool
    ensures { (s : Spot) → when result s ≡ bad_auto first (Some (a, equal)) s }
{
    match a.what {
        None => false,
        Some(t) => !(is_taken(a, equal, t) && !differs_from(first, t)),
    }
}

/// BadDeclaration: `auto` has nothing to take its type from, or is the first with another one than the first name's.
fn bad_auto(findings: &mut Findings, first: Shared, given: Given, s: Spot)
    ensures { findings.new ≡ told findings.old (at code.BadDeclaration (bad_auto first given s)) }
{
    match given {
        None => findings.tell(Code::BadDeclaration, s),
        Some((a, equal)) => {
            findings.tell_if(has_no_auto_type(first, a, equal), Code::BadDeclaration, s);
        }
    }
}

/// What is const has an initializer.
fn is_missing(specifier: Option<ConstSpecifier>, given: Given) -> bool
    ensures { result ≡ is_missing specifier given }
{
    match specifier {
        None => false,
        Some(_) => given.is_none(),
    }
}

fn bad_declaration(findings: &mut Findings, d: Specifiers, first: Shared, given: Given, s: Spot)
    ensures { findings.new ≡ told findings.old (at code.BadDeclaration (bad_declaration d.specifier d.of first given s)) }
{
    match d.of {
        TypeSpecifier::Integer(_) => {
            findings.tell_if(is_missing(d.specifier, given), Code::BadDeclaration, s);
        }
        TypeSpecifier::Auto(_) => bad_auto(findings, first, given, s),
    }
}

fn has_no_value(c: Constant) -> bool
    ensures { result ≡ has_no_value c }
{
    matches!(c, Constant::Varying | Constant::Undefined)
}

/// BadConstant: a constant whose initializer is no constant, or has no value.
fn bad_constant(findings: &mut Findings, must: bool, given: Given)
    ensures { findings.new ≡ told findings.old (at code.BadConstant (bad_constant must given)) }
{
    match given {
        None => {}
        Some((a, _)) => {
            let is_broken = must && (a.what.is_some() && has_no_value(a.constant));
            findings.tell_if(is_broken, Code::BadConstant, a.first);
        }
    }
}

fn wrong_initializer(findings: &mut Findings, of: TypeSpecifier, given: Given)
    ensures { findings.new ≡ told findings.old (at code.WrongOperand (wrong_initializer of given)) }
{
    match of {
        TypeSpecifier::Integer(_) => match given {
            None => {}
            Some((a, _)) => no_integer(findings, a),
        },
        TypeSpecifier::Auto(_) => {}
    }
}

fn unread_initializer(findings: &mut Findings, given: Given)
    ensures { findings.new ≡ told findings.old (at code.ModeBroken (unread_initializer given)) }
{
    match given {
        None => {}
        Some((a, _)) => unread(findings, a),
    }
}

/// What a declared integer breaks beside its initializer. `first` is what several names share so far.
pub fn declarator(
    findings: &mut Findings,
    names: &Names,
    d: Specifiers,
    first: Shared,
    x: &Lexeme,
    given: Given,
)
    ensures { findings.new ≡ told findings.old (declarator_faults names.now d.is_constant d.specifier d.of first x.now given) }
{
    redeclaration(findings, names, x);
    bad_constant(findings, d.is_constant, given);
    bad_declaration(findings, d, first, given, x.spot);
    wrong_initializer(findings, d.of, given);
    unread_initializer(findings, given);
}

// ---- what a declared name is

fn auto_type(given: Given) -> Option<Thing>
    ensures { result ≡ auto_type given }
{
    match given {
        None => None,
        Some((a, equal)) => match a.what {
            None => None,
            Some(t) => { if is_taken(a, equal, t) { Some(t) } else { None } }
        },
    }
}

/// The type that the name gets.
pub fn declared_type(of: TypeSpecifier, given: Given) -> Option<Thing>
    ensures { result ≡ declared_type of given }
{
    match of {
        TypeSpecifier::Integer(t) => Some(Thing::Integer(t.kind)),
        TypeSpecifier::Auto(_) => auto_type(given),
    }
}

fn constant_given(what: Option<Thing>, given: Given) -> Constant
    ensures { result ≡ constant_given what given }
{
    match given {
        None => Constant::Unknown,
        Some((a, _)) => or_unknown(converted_to_type(kind_of(what), a.constant)),
    }
}

/// The value of a name, if it has to be a constant.
pub fn declared_constant(is_constant: bool, of: TypeSpecifier, given: Given) -> Constant
    ensures { result ≡ declared_constant is_constant of given }
{
    if is_constant {
        constant_given(declared_type(of, given), given)
    } else {
        Constant::Varying
    }
}
