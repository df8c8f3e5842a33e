//! Calls of the source's own functions. (C++17, [expr.call])

ghost use Rattle.std.specs.Prelude.{◌≡◌, Some, not, flat_map};
ghost use Rattle.std.specs.List.{list_any, list_all};
ghost use Rattle.std.specs.Option.{option_copied};
ghost use Rattle.sy_calls.specs.Calls.{call_faults};
ghost use Rattle.sy_findings.specs.Told.{told};
ghost use Rattle.sy_note.specs.declared.Code.TheVariants as code;
ghost use Rattle.sy_rules.specs.Calls.{same_object, is_const, can_be_passed, all_passed, is_reference, takes_references, returned_type, signature_at};
ghost use Rattle.sy_rules.specs.ExprRules.{faults, function_of, is_called_wrongly, is_wrong_call, is_same_function, is_forbidden, is_bad_call};
ghost use Rattle.sy_rules.specs.ExprTypes.{seen_as, type_of_call};
ghost use Rattle.sy_rules.specs.Faults.{at};
ghost use Rattle.sy_rules.specs.Names.{look_up};
ghost use Rattle.sy_rules.specs.Seen.{fails, is_integer, is_known, unread};
ghost use Rattle.sy_tree.specs.declared.tree.Argument.TheOpen.{Expr-F};

use crate::arguments::{all_known, all_read};
use sy_constructs::{is_host, is_unknown, settle, value};
use sy_findings::Findings;
use sy_fits::{all_passed, returned_type, takes_references};
use sy_names::Names;
use sy_note::{Code, Spot};
use sy_rules::{Constant, Named, Seen, Signature};
use sy_tree::Lexeme;
use sy_typed::Thing;

/// The function that the name declares, if it declares one.
fn function_of(names: &Names, v: Named) -> Option<&Signature>
    ensures { option_copied result ≡ function_of names.now v }
{
    match v.function {
        None => None,
        Some(i) => names.signature(i),
    }
}

fn is_wrong_call(names: &Names, found: Option<Named>, arguments: &[Seen]) -> bool
    ensures { result ≡ is_wrong_call names.now found arguments.now }
{
    match found {
        None => false,
        Some(v) => match function_of(names, v) {
            None => true,
            Some(f) => !all_passed(f.parameters.items(), arguments),
        },
    }
}

fn is_same_function(a: Option<u32>, b: Option<u32>) -> bool
    ensures { result ≡ is_same_function a b }
{
    match (a, b) {
        (Some(i), Some(j)) => i == j,
        _ => false,
    }
}

/// The place may not call it: it is `main`, or the function round the place, or takes references and the place is in a
/// kernel or group.
fn is_bad_call(names: &Names, found: Option<Named>) -> bool
    ensures { result ≡ is_bad_call names.now found }
{
    let setting = names.setting();
    match found {
        None => false,
        Some(v) => match function_of(names, v) {
            None => false,
            Some(f) => {
                f.is_main
                    || (is_same_function(v.function, setting.function)
                        || (!is_host(setting.within) && takes_references(f)))
            }
        },
    }
}

fn type_of_call(names: &Names, found: Option<Named>) -> Option<Thing>
    ensures { result ≡ type_of_call names.now found }
{
    match found {
        None => None,
        Some(v) => match function_of(names, v) {
            None => None,
            Some(f) => Some(returned_type(f.returned)),
        },
    }
}

/// Tells what a call of what is declared so breaks, whose name is at `spot`.
fn tell_call(
    names: &Names,
    findings: &mut Findings,
    found: Option<Named>,
    spot: Spot,
    arguments: &[Seen],
)
    ensures { findings.new ≡ told findings.old (call_faults names.now found spot arguments.now) }
{
    findings.tell_if(is_unknown(found), Code::UnknownName, spot);
    findings.tell_if(
        is_wrong_call(names, found, arguments),
        Code::WrongArguments,
        spot,
    );
    all_read(findings, arguments);
    findings.tell_if(is_bad_call(names, found), Code::BadCall, spot);
}

/// `f(..)` up to `end`, with `found` for what the innermost scope that has the name knows of it.
pub fn call(
    names: &Names,
    findings: &mut Findings,
    f: &Lexeme,
    found: Option<Named>,
    arguments: &[Seen],
    end: Spot,
) -> Seen
    requires { found ≡ look_up names.now.entries f.now.text }
    ensures seen { result ≡ seen_as names.now (Expr-F.Call f.now arguments.now end) }
    ensures found { findings.new ≡ told findings.old (faults names.now (Expr-F.Call f.now arguments.now end)) }
{
    let mut own = Findings::new();
    tell_call(names, &mut own, found, f.spot, arguments);
    let whole = value(type_of_call(names, found), f.spot, Constant::Varying);
    settle(findings, own, false, all_known(arguments), whole)
}
