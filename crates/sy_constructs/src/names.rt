//! Names of declarations. (C++17, [expr.prim.id]; SYCL 2020, "Defining kernels as lambdas")

ghost use Rattle.std.specs.Prelude.{◌≡◌, is_none};
ghost use Rattle.std.specs.List.{list_any};
ghost use Rattle.sy_constructs.specs.Whole.{name_faults, name_is_foreign, seen_name, is_wrong_reducer};
ghost use Rattle.sy_findings.specs.Told.{told};
ghost use Rattle.sy_rules.specs.ExprRules.{faults, is_outside, is_not_captured, is_captured_badly, is_shared, is_local_outside, may_share, is_misused, is_misused_in, is_combined_into};
ghost use Rattle.sy_rules.specs.ExprTypes.{seen_as, denotes_name, constant_of_name, variable_numbered};
ghost use Rattle.sy_rules.specs.Foreign.{type_of_name};
ghost use Rattle.sy_rules.specs.Names.{look_up};
ghost use Rattle.sy_rules.specs.Seen.{passes, fails};
ghost use Rattle.sy_tree.specs.declared.tree.Argument.TheOpen.{Expr-F};

use crate::whole::settle;
use sy_findings::Findings;
use sy_names::Names;
use sy_note::{Code, Spot};
use sy_objects::foreign_to;
use sy_rules::{Constant, Denotes, Named, Seen, Setting, Taken, ThreadScope};
use sy_tree::Lexeme;
use sy_typed::Thing;

/// It isn't declared.
pub fn is_unknown(found: Option<Named>) -> bool
    ensures { result ≡ is_none found }
{
    found.is_none()
}

pub fn type_of_name(found: Option<Named>) -> Option<Thing>
    ensures { result ≡ type_of_name found }
{
    match found {
        None => None,
        Some(v) => v.what,
    }
}

/// It is declared outside the kernel that it is used in.
pub fn is_outside(kernel: Option<u32>, v: Named) -> bool
    ensures { result ≡ is_outside kernel v }
{
    match kernel {
        None => false,
        Some(d) => v.depth <= d,
    }
}

fn is_combined_into(taken: Taken) -> bool
    ensures { result ≡ is_combined_into taken }
{
    matches!(taken, Taken::Reducer)
}

/// A reduction's variable, but in one of its statements.
fn is_wrong_reducer(taken: Taken, found: Option<Named>) -> bool
    ensures { result ≡ is_wrong_reducer taken found }
{
    match type_of_name(found) {
        Some(Thing::Reducer(_, _)) => !is_combined_into(taken),
        _ => false,
    }
}

fn is_not_captured(v: Named) -> bool
    ensures { result ≡ passes is_not_captured v.what }
{
    match v.what {
        Some(Thing::NdRange(_)) => true,
        Some(Thing::HostAccessor(_, _, _)) => true,
        Some(Thing::Exception) => true,
        _ => false,
    }
}

fn is_captured_badly(kernel: Option<u32>, found: Option<Named>) -> bool
    ensures { result ≡ is_captured_badly kernel found }
{
    match found {
        None => false,
        Some(v) => is_outside(kernel, v) && is_not_captured(v),
    }
}

// ---- threads

/// No thread may share what has this type.
fn is_unshared(v: Named) -> bool
    ensures { result ≡ fails is_shared v.what }
{
    match v.what {
        None => false,
        Some(Thing::Queue) => false,
        Some(Thing::Device) => false,
        Some(Thing::Context) => false,
        Some(Thing::Buffer(_, _)) => false,
        Some(_) => true,
    }
}

/// A thread may share it: it is declared before the thread.
pub fn may_share(t: ThreadScope, v: Named) -> bool
    ensures { result ≡ may_share t v }
{
    !is_unshared(v) && v.number < t.variable
}

fn is_local_outside(t: ThreadScope, v: Named) -> bool
    ensures { result ≡ is_local_outside t v }
{
    v.depth > 0 && v.depth <= t.outside
}

/// The thread's lambda uses the name, and doesn't list it.
fn is_misused(v: Named, t: ThreadScope) -> bool
    ensures { result ≡ is_misused v t }
{
    is_local_outside(t, v) && !(t.by_reference && may_share(t, v))
}

fn is_misused_in_any(threads: &[ThreadScope], v: Named) -> bool
    ensures { result ≡ list_any (is_misused v) threads.now }
{
    for t in threads {
        if is_misused(v, *t) {
            return true;
        }
    }
    false
}

/// A thread's lambda round the place takes the name as it may not.
pub fn is_misused_in(names: &Names, found: Option<Named>) -> bool
    ensures { result ≡ is_misused_in names.now.threads found }
{
    match found {
        None => false,
        Some(v) => is_misused_in_any(names.threads(), v),
    }
}

// ---- what is seen

fn denotes_name(kernel: Option<u32>, found: Option<Named>) -> Denotes
    ensures { result ≡ denotes_name kernel found }
{
    match found {
        None => Denotes::Unknown,
        Some(v) => Denotes::Place(v.fixed || is_outside(kernel, v)),
    }
}

fn constant_of_name(found: Option<Named>) -> Constant
    ensures { result ≡ constant_of_name found }
{
    match found {
        None => Constant::Unknown,
        Some(v) => v.constant,
    }
}

fn variable_numbered(found: Option<Named>) -> Option<u32>
    ensures { result ≡ variable_numbered found }
{
    match found {
        None => None,
        Some(v) => Some(v.number),
    }
}

fn seen_name(setting: Setting, found: Option<Named>, spot: Spot) -> Seen
    ensures { result ≡ seen_name setting found spot }
{
    Seen {
        what: type_of_name(found),
        first: spot,
        denotes: denotes_name(setting.kernel, found),
        constant: constant_of_name(found),
        variable: variable_numbered(found),
        is_bare: true,
    }
}

fn name_is_foreign(setting: Setting, found: Option<Named>) -> bool
    ensures { result ≡ name_is_foreign setting found }
{
    match type_of_name(found) {
        None => false,
        Some(t) => foreign_to(setting.within, setting.taken, t),
    }
}

/// Tells what a name breaks that is declared so.
fn tell_name(names: &Names, findings: &mut Findings, found: Option<Named>, spot: Spot)
    ensures { findings.new ≡ told findings.old (name_faults names.now.setting names.now.threads found spot) }
{
    let setting = names.setting();
    findings.tell_if(is_unknown(found), Code::UnknownName, spot);
    findings.tell_if(
        is_wrong_reducer(setting.taken, found),
        Code::WrongOperand,
        spot,
    );
    findings.tell_if(
        is_captured_badly(setting.kernel, found),
        Code::KernelCapture,
        spot,
    );
    findings.tell_if(is_misused_in(names, found), Code::ThreadCapture, spot);
}

/// A name, with `found` for what the innermost scope that has it knows of it.
pub fn name(names: &Names, findings: &mut Findings, x: &Lexeme, found: Option<Named>) -> Seen
    requires { found ≡ look_up names.now.entries x.now.text }
    ensures seen { result ≡ seen_as names.now (Expr-F.Name x.now) }
    ensures found { findings.new ≡ told findings.old (faults names.now (Expr-F.Name x.now)) }
{
    let setting = names.setting();
    let mut own = Findings::new();
    tell_name(names, &mut own, found, x.spot);
    let whole = seen_name(setting, found, x.spot);
    settle(findings, own, name_is_foreign(setting, found), true, whole)
}
