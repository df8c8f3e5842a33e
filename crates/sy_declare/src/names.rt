//! Declared names, once their initializers were looked at. (C++17, [basic.scope.declarative])

ghost use Rattle.std.specs.Prelude.{◌≡◌, List, None, Some, if◌then◌else◌, []};
ghost use Rattle.sy_constructs.specs.Uses.{foreign_found};
ghost use Rattle.sy_declare.specs.Declared.{made};
ghost use Rattle.sy_findings.specs.Told.{told};
ghost use Rattle.sy_looks.specs.Looked.{Looked};
ghost use Rattle.sy_note.specs.declared.Diagnostic.{Diagnostic};
ghost use Rattle.sy_note.specs.declared.Spot.{Spot as ThePlace};
ghost use Rattle.sy_rules.specs.Foreign.{is_host, foreign_everywhere};
ghost use Rattle.sy_rules.specs.Walk.{declared_value, declared_object, if_none};
ghost use Rattle.sy_typed.specs.declared.tree.TypedDeclaration.{TypedDeclaration as TheDeclaration};
ghost use Rattle.sy_typed.specs.declared.tree.Variable.{Variable as TheVariable};

use std::alloc::AllocError;
use sy_constructs::{Foreign, variable};
use sy_findings::Findings;
use sy_looks::Walk;
use sy_names::Declared;
use sy_rules::{Constant, Shared, Within};
use sy_statements::{Given, Specifiers, declarator, declared_constant, declared_type};
use sy_tree::Lexeme;
use sy_typed::{Thing, Variable};

/// Declares an integer, or what `auto` takes, and adds what that breaks beside the initializer. Answers the type too.
/// `first` is what several names share so far.
pub fn declare_value(
    w: &mut Walk,
    d: Specifiers,
    first: Shared,
    x: &Lexeme,
    given: Given,
) -> Result<(Option<Thing>, Variable), AllocError>
    ensures { Looked (declared_value d.is_constant d.specifier d.of first x.now given (λ v. v)) w.old result w.new }
{
    let mut own = Findings::new();
    declarator(&mut own, &w.names, d, first, x, given);
    w.found.add(own);
    let what = declared_type(d.of, given);
    let number = w.names.add(
        x,
        Declared {
            what,
            fixed: d.specifier.is_some(),
            constant: declared_constant(d.is_constant, d.of, given),
            names_element: false,
        },
    )?;
    Ok((what, variable(number, what, x.spot)))
}

// ---- objects

fn is_host(within: Within) -> bool
    ensures { result ≡ is_host within }
{
    matches!(within, Within::Host)
}

/// Broken rules count only where the place allows the object.
fn count_if(allowed: bool, own: Findings) -> Findings
    ensures { (ds : List Diagnostic) → own ≡ told None ds → result ≡ told None (if allowed then ds else []) }
{
    if allowed { own } else { Findings::new() }
}

/// What is declared has no type where a rule is broken.
fn type_if_none(own: &Findings, what: Option<Thing>) -> Option<Thing>
    ensures { (ds : List Diagnostic) → own.now ≡ told None ds → result ≡ if_none ds what }
{
    match own.first() {
        None => what,
        Some(_) => None,
    }
}

/// Declares an object. `own` has the rules that its declaration breaks, which count where the place allows it.
pub fn declare_object(
    w: &mut Walk,
    allowed: bool,
    own: Findings,
    foreign: Foreign,
    what: Option<Thing>,
    x: &Lexeme,
) -> Result<Variable, AllocError>
    ensures { (ds : List Diagnostic) (s : ThePlace) (make : TheVariable → TheDeclaration) → own ≡ told None ds → Looked (declared_object allowed ds (foreign_found foreign) what s x.now make) w.old (made s make result) w.new }
{
    let counted = count_if(allowed, own);
    let known = type_if_none(&counted, what);
    w.found.add(counted);
    w.found.add_foreign(w.place, foreign);
    let number = w.names.add(
        x,
        Declared {
            what: known,
            fixed: false,
            constant: Constant::Varying,
            names_element: false,
        },
    )?;
    Ok(variable(number, known, x.spot))
}

/// Declares an object that host code alone may have.
pub fn declare_in_host(
    w: &mut Walk,
    own: Findings,
    what: Thing,
    x: &Lexeme,
) -> Result<Variable, AllocError>
    ensures { (ds : List Diagnostic) (s : ThePlace) (make : TheVariable → TheDeclaration) → own ≡ told None ds → Looked (λ n. declared_object (is_host n.setting.within) ds foreign_everywhere (Some what) s x.now make n) w.old (made s make result) w.new }
{
    let allowed = is_host(w.names.setting().within);
    let everywhere = Foreign {
        to_kernels: true,
        to_groups: true,
    };
    declare_object(w, allowed, own, everywhere, Some(what), x)
}
