//! Listed names, and what a lambda is given. (C++17, [expr.prim.lambda.capture])

ghost use Rattle.std.specs.Prelude.{◌≡◌, ◌||◌};
ghost use Rattle.sy_findings.specs.Told.{told};
ghost use Rattle.sy_rules.specs.ExprRules.{is_misused_in};
ghost use Rattle.sy_rules.specs.Lambdas.{is_integer_type, is_listed_badly, listed_badly, listed_faults, thread_scope};
ghost use Rattle.sy_rules.specs.Names.{look_up};
ghost use Rattle.sy_rules.specs.Seen.{fails};

use crate::lists::has_reference_default;
use sy_constructs::{is_misused_in, may_share};
use sy_findings::Findings;
use sy_names::Names;
use sy_note::Code;
use sy_rules::{Named, Role, ThreadScope};
use sy_tree::{Capture, Lexeme};
use sy_typed::Thing;

/// The type is known, and no integer's.
fn is_no_integer(what: Option<Thing>) -> bool
    ensures { result ≡ fails is_integer_type what }
{
    match what {
        None => false,
        Some(Thing::Integer(_)) => false,
        Some(_) => true,
    }
}

/// It may not be listed so: by copy an integer may, by reference what may be shared, and no constant of the file.
fn is_listed_badly(t: ThreadScope, by_reference: bool, v: Named) -> bool
    ensures { result ≡ is_listed_badly t by_reference v }
{
    if v.depth == 0 {
        return true;
    }
    if by_reference {
        !may_share(t, v)
    } else {
        is_no_integer(v.what)
    }
}

/// A lambda that is no thread's lists no names.
fn listed_badly(t: Option<ThreadScope>, by_reference: bool, found: Option<Named>) -> bool
    ensures { result ≡ listed_badly t by_reference found }
{
    match (t, found) {
        (Some(t), Some(v)) => is_listed_badly(t, by_reference, v),
        _ => false,
    }
}

/// The name may not be listed, or a thread's lambda round this one takes it as it may not.
fn is_taken_badly(
    names: &Names,
    t: Option<ThreadScope>,
    by_reference: bool,
    found: Option<Named>,
) -> bool
    ensures { result ≡ (listed_badly t by_reference found || is_misused_in names.now.threads found) }
{
    listed_badly(t, by_reference, found) || is_misused_in(names, found)
}

/// What a listed name breaks, with `found` for what the innermost scope outside the lambda that has it knows of it.
pub fn listed(
    findings: &mut Findings,
    names: &Names,
    t: Option<ThreadScope>,
    by_reference: bool,
    x: &Lexeme,
    found: Option<Named>,
)
    requires { found ≡ look_up names.now.entries x.now.text }
    ensures { findings.new ≡ told findings.old (listed_faults names.now t by_reference x.now) }
{
    findings.tell_if(found.is_none(), Code::UnknownName, x.spot);
    let is_bad = is_taken_badly(names, t, by_reference, found);
    findings.tell_if(is_bad, Code::ThreadCapture, x.spot);
}

/// The scope of a thread's lambda at a place, if the role is a thread's.
pub fn thread_scope(names: &Names, role: Role, cs: &[Capture]) -> Option<ThreadScope>
    ensures { result ≡ thread_scope names.now role cs.now }
{
    match role {
        Role::Thread(variable) => Some(ThreadScope {
            outside: names.depth(),
            by_reference: has_reference_default(cs),
            variable,
        }),
        _ => None,
    }
}
