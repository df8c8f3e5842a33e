//! Constants of a file. (C++17, [dcl.constexpr], [basic.link])

ghost use Rattle.std.specs.Prelude.{◌≡◌, true, Option, Some, OnOk, IfOk};
ghost use Rattle.sy_found.specs.Noted.{found_in};
ghost use Rattle.sy_found.specs.declared.parts.Place.{Place};
ghost use Rattle.sy_rules.specs.Units.{constant_as};
ghost use Rattle.sy_typed.specs.declared.tree.Typed.{Typed};

use std::alloc::AllocError;
use sy_constructs::variable;
use sy_findings::Findings;
use sy_found::Found;
use sy_names::{Declared, Names};
use sy_rules::Shared;
use sy_statements::{Given, Specifiers, declarator, declared_constant, declared_type};
use sy_tree::{Constant, Lexeme};
use sy_typed::Variable;

fn specifiers_of(c: &Constant) -> Specifiers
    ensures specifier { result.specifier ≡ Some c.now.specifier }
    ensures of { result.of ≡ c.now.of }
    ensures is_constant { result.is_constant ≡ true }
{
    Specifiers {
        is_constant: true,
        specifier: Some(c.specifier),
        of: c.of,
    }
}

/// Declares a constant whose initializer is known, and adds what it breaks beside its initializer.
pub fn constant(
    found: &mut Found,
    names: &mut Names,
    c: &Constant,
    x: &Lexeme,
    given: Given,
) -> Result<Variable, AllocError>
    ensures found { (p : Option Place) (a : Typed) → found.new ≡ found_in p found.old (constant_as c.now x.now given a names.old).found }
    ensures names { OnOk result ((a : Typed) → names.new ≡ (constant_as c.now x.now given a names.old).names) }
    ensures value { IfOk result (λ v. (a : Typed) → (constant_as c.now x.now given a names.old).what ≡ record { variable = v; initializer = a }) }
{
    let mut own = Findings::new();
    declarator(&mut own, names, specifiers_of(c), Shared::Unknown, x, given);
    found.add(own);
    let what = declared_type(c.of, given);
    let number = names.add(
        x,
        Declared {
            what,
            fixed: true,
            constant: declared_constant(true, c.of, given),
            names_element: false,
        },
    )?;
    Ok(variable(number, what, x.spot))
}
