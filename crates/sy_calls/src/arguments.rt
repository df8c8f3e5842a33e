//! Arguments that the library is given.

ghost use Rattle.std.specs.Prelude.{◌≡◌, flat_map};
ghost use Rattle.std.specs.List.{list_all};
ghost use Rattle.sy_findings.specs.Told.{told};
ghost use Rattle.sy_note.specs.declared.Code.TheVariants as code;
ghost use Rattle.sy_rules.specs.ExprRules.{unread_argument, unread_arguments};
ghost use Rattle.sy_rules.specs.ExprTypes.{is_sound_argument};
ghost use Rattle.sy_rules.specs.Faults.{at};
ghost use Rattle.sy_rules.specs.Seen.{is_known, unread};

use sy_constructs::is_known;
use sy_findings::{Findings, unread};
use sy_rules::{Seen, SeenArgument};

/// No rule is broken in any.
pub fn all_known(xs: &[Seen]) -> bool
    ensures { result ≡ list_all is_known xs.now }
{
    for a in xs {
        if !is_known(*a) {
            return false;
        }
    }
    true
}

/// ModeBroken at each that isn't to be read.
pub fn all_read(findings: &mut Findings, xs: &[Seen])
    ensures { findings.new ≡ told findings.old (at code.ModeBroken (flat_map unread xs.now)) }
{
    for a in xs {
        unread(findings, *a);
    }
}

fn is_sound_argument(x: &SeenArgument) -> bool
    ensures { result ≡ is_sound_argument x.now }
{
    match x {
        SeenArgument::Value(a) => is_known(*a),
        SeenArgument::Braced(xs) => all_known(xs.as_slice()),
        SeenArgument::Lambda(l) => l.is_sound,
    }
}

/// No rule is broken in any.
pub fn all_sound(xs: &[SeenArgument]) -> bool
    ensures { result ≡ list_all is_sound_argument xs.now }
{
    for x in xs {
        if !is_sound_argument(x) {
            return false;
        }
    }
    true
}

fn argument_read(findings: &mut Findings, x: &SeenArgument)
    ensures { findings.new ≡ told findings.old (at code.ModeBroken (unread_argument x.now)) }
{
    match x {
        SeenArgument::Value(a) => unread(findings, *a),
        SeenArgument::Braced(xs) => all_read(findings, xs.as_slice()),
        SeenArgument::Lambda(_) => {}
    }
}

/// ModeBroken at each that isn't to be read.
pub fn arguments_read(findings: &mut Findings, xs: &[SeenArgument])
    ensures { findings.new ≡ told findings.old (at code.ModeBroken (unread_arguments xs.now)) }
{
    for x in xs {
        argument_read(findings, x);
    }
}
