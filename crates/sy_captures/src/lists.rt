//! Lists of captures. (C++17, [expr.prim.lambda.capture]; SYCL 2020, "Command group function objects", "Defining kernels as lambdas")

ghost use Rattle.std.specs.Prelude.{◌≡◌, ◌&&◌, [], List, None};
ghost use Rattle.std.specs.List.{list_any};
ghost use Rattle.sy_findings.specs.Told.{told};
ghost use Rattle.sy_note.specs.declared.Code.TheVariants as code;
ghost use Rattle.sy_note.specs.declared.Diagnostic.{Diagnostic as Broken};
ghost use Rattle.sy_rules.specs.Faults.{at};
ghost use Rattle.sy_rules.specs.Lambdas.{is_reference_default, is_copy_default, names_it, is_repeated, is_listed_well, is_only, captures_fit, parameters_fit, bad_lambda};

use sy_findings::Findings;
use sy_lambdas::parameters_fit;
use sy_note::{Code, Diagnostic, Spot};
use sy_rules::Role;
use sy_tree::{Capture, LambdaParameter};

fn is_reference_default(c: &Capture) -> bool
    ensures { result ≡ is_reference_default c.now }
{
    matches!(c, Capture::DefaultReference(_))
}

fn is_copy_default(c: &Capture) -> bool
    ensures { result ≡ is_copy_default c.now }
{
    matches!(c, Capture::DefaultCopy(_))
}

fn names_it(x: &[u8], c: &Capture) -> bool
    ensures { result ≡ names_it x.now c.now }
{
    match c {
        Capture::Reference(_, y) => x == y.text.items(),
        Capture::Copy(y) => x == y.text.items(),
        _ => false,
    }
}

/// One of them is `&`.
pub fn has_reference_default(cs: &[Capture]) -> bool
    ensures { result ≡ list_any is_reference_default cs.now }
{
    for c in cs {
        if is_reference_default(c) {
            return true;
        }
    }
    false
}

fn has_copy_default(cs: &[Capture]) -> bool
    ensures { result ≡ list_any is_copy_default cs.now }
{
    for c in cs {
        if is_copy_default(c) {
            return true;
        }
    }
    false
}

fn names_it_before(x: &[u8], cs: &[Capture]) -> bool
    ensures { result ≡ list_any (names_it x.now) cs.now }
{
    for c in cs {
        if names_it(x, c) {
            return true;
        }
    }
    false
}

/// The name is listed twice, or again behind the default that takes it in the same way, or a default isn't the first.
fn is_repeated(before: &[Capture], c: &Capture) -> bool
    ensures { result ≡ is_repeated before.now c.now }
{
    match c {
        Capture::Reference(_, x) => {
            has_reference_default(before) || names_it_before(x.text.items(), before)
        }
        Capture::Copy(x) => has_copy_default(before) || names_it_before(x.text.items(), before),
        _ => !before.is_empty(),
    }
}

fn is_listed_well(cs: &[Capture]) -> bool
    ensures { result ≡ is_listed_well [] cs.now }
{
    for i in 0..cs.len() {
        if is_repeated(&cs[..i], &cs[i]) {
            return false;
        }
    }
    true
}

fn is_only_reference_default(cs: &[Capture]) -> bool
    ensures { result ≡ is_only is_reference_default cs.now }
{
    match cs {
        [c] => is_reference_default(c),
        _ => false,
    }
}

fn is_only_copy_default(cs: &[Capture]) -> bool
    ensures { result ≡ is_only is_copy_default cs.now }
{
    match cs {
        [c] => is_copy_default(c),
        _ => false,
    }
}

/// The captures are those of the role.
pub fn captures_fit(role: Role, cs: &[Capture]) -> bool
    ensures { result ≡ captures_fit role cs.now }
{
    match role {
        Role::Group => is_only_reference_default(cs),
        Role::Kernel(_, _) => is_only_copy_default(cs),
        Role::Thread(_) => is_listed_well(cs) && !has_copy_default(cs),
    }
}

/// The captures and the parameters are those of the role.
fn fits(role: Role, cs: &[Capture], ps: &[LambdaParameter]) -> bool
    ensures { result ≡ (captures_fit role cs.now && parameters_fit role ps.now) }
{
    captures_fit(role, cs) && parameters_fit(role, ps)
}

fn unfit(findings: &mut Findings, role: Role, s: Spot, cs: &[Capture], ps: &[LambdaParameter])
    ensures { findings.new ≡ told findings.old (at code.BadLambda (bad_lambda role s cs.now ps.now [])) }
{
    findings.tell_if(!fits(role, cs, ps), Code::BadLambda, s);
}

/// BadLambda at `s`, where `inner`, the rule in the lambda that is told first, is none.
pub fn bad_lambda(
    findings: &mut Findings,
    role: Role,
    s: Spot,
    cs: &[Capture],
    ps: &[LambdaParameter],
    inner: Option<Diagnostic>,
)
    ensures { (ds : List Broken) → inner ≡ told None ds → findings.new ≡ told findings.old (at code.BadLambda (bad_lambda role s cs.now ps.now ds)) }
{
    match inner {
        Some(_) => {}
        None => unfit(findings, role, s, cs, ps),
    }
}
