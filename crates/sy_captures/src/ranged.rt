//! Heads of range-for. (C++17, [stmt.ranged])

ghost use Rattle.std.specs.Prelude.{◌≡◌, ◌||◌, ◌&&◌, if◌then◌else◌, [], OnOk, IfOk};
ghost use Rattle.sy_findings.specs.Told.{told};
ghost use Rattle.sy_found.specs.Noted.{found_in};
ghost use Rattle.sy_rules.specs.ExprTypes.{variable};
ghost use Rattle.sy_rules.specs.Foreign.{is_host};
ghost use Rattle.sy_rules.specs.Lambdas.{is_integer_type};
ghost use Rattle.sy_rules.specs.Seen.{passes, fails};
ghost use Rattle.sy_rules.specs.StmtRules.{goes_over, element_given};
ghost use Rattle.sy_rules.specs.Walk.{ranged_type, ranged_fixed, ranged_variable, range_faults, range_found, ranged_name};

use std::alloc::AllocError;
use sy_constructs::{Foreign, is_misused_in, used, variable};
use sy_findings::Findings;
use sy_found::{Found, Place};
use sy_names::{Declared, Names};
use sy_note::{Code, Spot};
use sy_rules::{Constant, Named, Within};
use sy_statements::{element_given, goes_over};
use sy_tree::{Lexeme, TypeSpecifier};
use sy_typed::{Thing, Variable};

/// How the head of a range-for declares its element.
#[derive(Clone, Copy, PartialEq, Eq, Debug)]
pub struct Element {
    pub is_const: bool,
    pub of: TypeSpecifier,
    pub by_reference: bool,
}

fn ranged_type(found: Option<Named>) -> Option<Thing>
    ensures { result ≡ ranged_type found }
{
    match found {
        None => None,
        Some(v) => v.what,
    }
}

fn ranged_fixed(found: Option<Named>) -> bool
    ensures { result ≡ ranged_fixed found }
{
    match found {
        None => false,
        Some(v) => v.fixed,
    }
}

/// What the loop goes over.
pub fn ranged_variable(found: Option<Named>, s: Spot) -> Variable
    ensures { result ≡ ranged_variable found s }
{
    match found {
        None => variable(0, None, s),
        Some(v) => variable(v.number, v.what, s),
    }
}

/// The type is known, and an element that is declared so doesn't go over it.
fn goes_badly(e: Element, what: Option<Thing>) -> bool
    ensures { result ≡ fails (goes_over e.of e.is_const e.by_reference) what }
{
    match what {
        None => false,
        Some(t) => !goes_over(e.of, e.is_const, e.by_reference, t),
    }
}

fn tell_range(
    findings: &mut Findings,
    names: &Names,
    e: Element,
    x: &Lexeme,
    v: &Lexeme,
    found: Option<Named>,
)
    ensures { findings.new ≡ told findings.old (range_faults names.now e.is_const e.of e.by_reference x.now v.now found) }
{
    let is_bad = goes_badly(e, ranged_type(found));
    findings.tell_if(found.is_none(), Code::UnknownName, v.spot);
    findings.tell_if(is_bad, Code::BadDeclaration, x.spot);
    findings.tell_if(is_misused_in(names, found), Code::ThreadCapture, v.spot);
}

fn is_host(within: Within) -> bool
    ensures { result ≡ is_host within }
{
    matches!(within, Within::Host)
}

/// What the head breaks in host code; elsewhere the loop itself is broken.
fn tell_head(
    findings: &mut Findings,
    names: &Names,
    e: Element,
    x: &Lexeme,
    v: &Lexeme,
    found: Option<Named>,
)
    ensures { findings.new ≡ told findings.old (if is_host names.now.setting.within then range_faults names.now e.is_const e.of e.by_reference x.now v.now found else []) }
{
    if is_host(names.setting().within) {
        tell_range(findings, names, e, x, v, found);
    }
}

/// Adds what the head of a range-for breaks and uses: `x` names the element, and `v` what it goes over, of which
/// `named` is known.
pub fn add_head(
    found: &mut Found,
    place: Option<Place>,
    names: &Names,
    e: Element,
    x: &Lexeme,
    v: &Lexeme,
    named: Option<Named>,
) -> Result<(), AllocError>
    ensures { OnOk result (found.new ≡ found_in place found.old (range_found names.now e.is_const e.of e.by_reference x.now v.now named)) }
{
    let mut own = Findings::new();
    tell_head(&mut own, names, e, x, v, named);
    found.add(own);
    let everywhere = Foreign {
        to_kernels: true,
        to_groups: true,
    };
    found.add_foreign(place, everywhere);
    found.add_use(used(named))?;
    Ok(())
}

fn is_integer_type(what: Option<Thing>) -> bool
    ensures { result ≡ passes is_integer_type what }
{
    matches!(what, Some(Thing::Integer(_)))
}

/// Declares the element in the scope of the body, and answers its variable.
pub fn declare_element(
    names: &mut Names,
    e: Element,
    x: &Lexeme,
    named: Option<Named>,
) -> Result<Variable, AllocError>
    ensures names { OnOk result (names.new ≡ ranged_name e.by_reference x.now (element_given e.of (ranged_type named)) (e.is_const || (e.by_reference && ranged_fixed named)) names.old) }
    ensures value { IfOk result (λ y. y ≡ variable names.old.next (element_given e.of (ranged_type named)) x.now.spot) }
{
    let what = element_given(e.of, ranged_type(named));
    let told = Declared {
        what,
        fixed: e.is_const || (e.by_reference && ranged_fixed(named)),
        constant: Constant::Varying,
        names_element: e.by_reference && is_integer_type(what),
    };
    let number = names.add(x, told)?;
    Ok(variable(number, what, x.spot))
}
