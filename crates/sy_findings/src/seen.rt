//! What the rules ask of one expression that they see.

ghost use Rattle.std.specs.Prelude.{◌≡◌};
ghost use Rattle.sy_findings.specs.Told.{told};
ghost use Rattle.sy_note.specs.declared.Code.TheVariants as code;
ghost use Rattle.sy_rules.specs.Faults.{at};
ghost use Rattle.sy_rules.specs.Seen.{kind_in, kind_of, is_integer, is_bool, fails, passes, no_integer, if_bool, is_target, no_target, is_write_only, is_read_only, is_written, unread, unwritten};

use crate::findings::Findings;
use sy_access::Mode;
use sy_note::Code;
use sy_num::Kind;
use sy_rules::{Denotes, Seen};
use sy_typed::{Dimensions, Thing};

/// The kind that a value of the type has where an integer is wanted. (SYCL 2020, "id class", "item class":
/// conversion to size_t)
pub fn kind_in(what: Thing) -> Option<Kind>
    ensures { result ≡ kind_in what }
{
    match what {
        Thing::Integer(kind) => Some(kind),
        Thing::Id(Dimensions::One) => Some(Kind::ULong),
        Thing::Item(Dimensions::One) => Some(Kind::ULong),
        _ => None,
    }
}

pub fn kind_of(what: Option<Thing>) -> Option<Kind>
    ensures { result ≡ kind_of what }
{
    match what {
        None => None,
        Some(t) => kind_in(t),
    }
}

pub fn is_integer(what: Thing) -> bool
    ensures { result ≡ is_integer what }
{
    kind_in(what).is_some()
}

pub fn is_bool(what: Thing) -> bool
    ensures { result ≡ is_bool what }
{
    matches!(what, Thing::Integer(Kind::Bool))
}

/// WrongOperand at what isn't an integer.
pub fn no_integer(findings: &mut Findings, a: Seen)
    ensures { findings.new ≡ told findings.old (at code.WrongOperand (no_integer a)) }
{
    let fails = match a.what {
        None => false,
        Some(t) => !is_integer(t),
    };
    findings.tell_if(fails, Code::WrongOperand, a.first);
}

/// WrongOperand at a Bool.
pub fn if_bool(findings: &mut Findings, a: Seen)
    ensures { findings.new ≡ told findings.old (at code.WrongOperand (if_bool a)) }
{
    let passes = match a.what {
        None => false,
        Some(t) => is_bool(t),
    };
    findings.tell_if(passes, Code::WrongOperand, a.first);
}

fn is_target(denotes: Denotes) -> bool
    ensures { result ≡ is_target denotes }
{
    match denotes {
        Denotes::Unknown => true,
        Denotes::Value => false,
        Denotes::Place(fixed) => !fixed,
        Denotes::Element(_) => true,
    }
}

fn is_written(what: Thing) -> bool
    ensures { result ≡ is_written what }
{
    matches!(what, Thing::Integer(_))
}

/// NotAssignable at what is no integer variable and no element, or is const.
pub fn no_target(findings: &mut Findings, a: Seen)
    ensures { findings.new ≡ told findings.old (at code.NotAssignable (no_target a)) }
{
    let fails = match a.what {
        None => false,
        Some(t) => !(is_target(a.denotes) && is_written(t)),
    };
    findings.tell_if(fails, Code::NotAssignable, a.first);
}

fn is_write_only(denotes: Denotes) -> bool
    ensures { result ≡ is_write_only denotes }
{
    matches!(denotes, Denotes::Element(Mode::Write))
}

fn is_read_only(denotes: Denotes) -> bool
    ensures { result ≡ is_read_only denotes }
{
    matches!(denotes, Denotes::Element(Mode::Read))
}

/// ModeBroken at an element that is read through write_only.
pub fn unread(findings: &mut Findings, a: Seen)
    ensures { findings.new ≡ told findings.old (at code.ModeBroken (unread a)) }
{
    findings.tell_if(is_write_only(a.denotes), Code::ModeBroken, a.first);
}

/// ModeBroken at an element that is written through read_only.
pub fn unwritten(findings: &mut Findings, a: Seen)
    ensures { findings.new ≡ told findings.old (at code.ModeBroken (unwritten a)) }
{
    findings.tell_if(is_read_only(a.denotes), Code::ModeBroken, a.first);
}
