//! A construct, once its own rules were told.

ghost use Rattle.std.specs.Prelude.{◌≡◌, ◌&&◌, List, None};
ghost use Rattle.sy_constructs.specs.Whole.{seen_value, seen_if, counted, is_sound_if};
ghost use Rattle.sy_findings.specs.Told.{told};
ghost use Rattle.sy_note.specs.declared.Diagnostic.{Diagnostic};
ghost use Rattle.sy_rules.specs.ExprTypes.{is_empty};
ghost use Rattle.sy_rules.specs.Seen.{is_known};

use sy_findings::Findings;
use sy_note::Spot;
use sy_rules::{Constant, Denotes, Seen};
use sy_typed::Thing;

/// No rule is broken in it.
pub fn is_known(a: Seen) -> bool
    ensures { result ≡ is_known a }
{
    a.what.is_some()
}

/// No rule is broken in either.
pub fn both_known(a: Seen, b: Seen) -> bool
    ensures { result ≡ (is_known a && is_known b) }
{
    is_known(a) && is_known(b)
}

/// A value that is no constant and no name.
pub fn value(what: Option<Thing>, first: Spot, constant: Constant) -> Seen
    ensures { result ≡ seen_value what first constant }
{
    Seen {
        what,
        first,
        denotes: Denotes::Value,
        constant,
        variable: None,
        is_bare: false,
    }
}

/// A construct in which a rule is broken has no type.
pub fn seen_if(is_sound: bool, a: Seen) -> Seen
    ensures { result ≡ seen_if is_sound a }
{
    if is_sound {
        a
    } else {
        Seen {
            what: None,
            first: a.first,
            denotes: Denotes::Unknown,
            constant: Constant::Unknown,
            variable: a.variable,
            is_bare: a.is_bare,
        }
    }
}

/// Tells what a construct breaks by itself, and answers whether it breaks nothing.
fn told_here(findings: &mut Findings, own: Findings) -> bool
    ensures found { (ds : List Diagnostic) → own ≡ told None ds → findings.new ≡ told findings.old ds }
    ensures nothing { (ds : List Diagnostic) → own ≡ told None ds → result ≡ is_empty ds }
{
    match own.first() {
        None => true,
        Some(d) => {
            findings.tell(d.code, d.spot);
            false
        }
    }
}

/// What is seen of a construct that would be seen as `whole`. Its own rules were told to `own`; they count where its
/// place allows it.
pub fn settle(
    findings: &mut Findings,
    own: Findings,
    is_foreign: bool,
    parts_are_known: bool,
    whole: Seen,
) -> Seen
    ensures seen { (ds : List Diagnostic) → own ≡ told None ds → result ≡ seen_if (is_sound_if is_foreign parts_are_known ds) whole }
    ensures found { (ds : List Diagnostic) → own ≡ told None ds → findings.new ≡ told findings.old (counted is_foreign ds) }
{
    if is_foreign {
        return seen_if(false, whole);
    }
    let is_unbroken = told_here(findings, own);
    seen_if(parts_are_known && is_unbroken, whole)
}
