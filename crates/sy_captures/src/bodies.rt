//! Inside lambdas. (C++17, [expr.prim.lambda.capture]; SYCL 2020, "Command group function objects")

ghost use Rattle.std.specs.Prelude.{◌≡◌, ◌||◌, ◌&&◌, not, List, Option, None, OnOk, OnErr};
ghost use Rattle.sy_findings.specs.Told.{told};
ghost use Rattle.sy_note.specs.declared.Diagnostic.{Diagnostic as Broken};
ghost use Rattle.sy_rules.specs.Walk.{captured_by, inside, seen_lambda};

use std::alloc::AllocError;
use sy_lambdas::first_dimensions;
use sy_names::Names;
use sy_note::Diagnostic;
use sy_rules::{Named, Role, SeenLambda, Setting, Taken, ThreadScope, Within};
use sy_tree::{LambdaParameter, Lexeme};

/// What a listed name is inside its lambda: one of the thread's own. A copy is constant and stands for no element.
fn own_name(depth: u32, by_reference: bool, v: Named) -> Named
    ensures { result ≡ record v { depth = depth; fixed = v.fixed || not by_reference; names_element = v.names_element && by_reference } }
{
    Named {
        number: v.number,
        what: v.what,
        spot: v.spot,
        fixed: v.fixed || !by_reference,
        names_element: v.names_element && by_reference,
        depth,
        constant: v.constant,
        function: v.function,
    }
}

/// Declares a name that a lambda lists, with `found` for what the innermost scope outside it that has the name knows of
/// it. Only a thread's lambda has names of its own.
pub fn declare_listed(
    names: &mut Names,
    t: Option<ThreadScope>,
    by_reference: bool,
    x: &Lexeme,
    found: Option<Named>,
) -> Result<(), AllocError>
    ensures ok { OnOk result (names.new ≡ captured_by t by_reference x.now found names.old) }
    ensures err { OnErr result (names.new ≡ names.old) }
{
    match (t, found) {
        (Some(_), Some(v)) => {
            let own = own_name(names.depth(), by_reference, v);
            names.add_entry(x.text.items(), own)
        }
        _ => Ok(()),
    }
}

/// The setting of the body of a lambda with this role, with so many scopes outside it.
pub fn inside(role: Role, depth: u32, setting: Setting) -> Setting
    ensures { result ≡ inside role depth setting }
{
    let (within, kernel) = match role {
        Role::Group => (Within::Group, setting.kernel),
        Role::Thread(_) => (setting.within, setting.kernel),
        Role::Kernel(_, _) => (Within::Kernel, Some(depth)),
    };
    Setting {
        within,
        function: setting.function,
        returned: None,
        in_loop: false,
        kernel,
        taken: Taken::Nothing,
    }
}

/// What is seen of a lambda, with the rule in it that is told first.
pub fn seen_lambda(ps: &[LambdaParameter], inner: Option<Diagnostic>) -> SeenLambda
    ensures { (ds : List Broken) → inner ≡ told None ds → result ≡ seen_lambda ps.now ds }
{
    match inner {
        None => SeenLambda {
            is_sound: true,
            dimensions: first_dimensions(ps),
        },
        Some(_) => SeenLambda {
            is_sound: false,
            dimensions: None,
        },
    }
}
