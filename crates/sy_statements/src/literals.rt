//! Literals, and those between `<` and `>`.

ghost use Rattle.std.specs.Prelude.{◌≡◌};
ghost use Rattle.sy_findings.specs.Told.{told};
ghost use Rattle.sy_note.specs.declared.Code.TheVariants as code;
ghost use Rattle.sy_rules.specs.ExprRules.{if_written, in_type, wide_literal, no_dimension};
ghost use Rattle.sy_rules.specs.Faults.{at};

use sy_constants::{dimensions_written, literal_kind};
use sy_findings::Findings;
use sy_note::Code;
use sy_tree::{Lexeme, ObjectType};

/// BadLiteral at a literal that no kind of its list holds.
pub fn wide_literal(findings: &mut Findings, x: &Lexeme)
    ensures { findings.new ≡ told findings.old (at code.BadLiteral (wide_literal x.now)) }
{
    let is_wide = literal_kind(x.text.items()).is_none();
    findings.tell_if(is_wide, Code::BadLiteral, x.spot);
}

/// BadDimension at a literal that isn't 1, 2 or 3.
pub fn no_dimension(findings: &mut Findings, x: &Lexeme)
    ensures { findings.new ≡ told findings.old (at code.BadDimension (no_dimension x.now)) }
{
    let is_none = dimensions_written(x.text.items()).is_none();
    findings.tell_if(is_none, Code::BadDimension, x.spot);
}

fn wide_if_written(findings: &mut Findings, x: &Option<Lexeme>)
    ensures { findings.new ≡ told findings.old (at code.BadLiteral (if_written wide_literal x.now)) }
{
    match x {
        None => {}
        Some(x) => wide_literal(findings, x),
    }
}

fn no_dimension_if_written(findings: &mut Findings, x: &Option<Lexeme>)
    ensures { findings.new ≡ told findings.old (at code.BadDimension (if_written no_dimension x.now)) }
{
    match x {
        None => {}
        Some(x) => no_dimension(findings, x),
    }
}

/// BadLiteral in a type.
pub fn wide_in_type(findings: &mut Findings, t: &ObjectType)
    ensures { findings.new ≡ told findings.old (at code.BadLiteral (in_type wide_literal t.now)) }
{
    match t {
        ObjectType::LocalAccessor(_, t) => wide_if_written(findings, &t.dimensions),
        ObjectType::Buffer(_, Some(t)) => wide_if_written(findings, &t.dimensions),
        ObjectType::Range(_, d) => wide_if_written(findings, d),
        ObjectType::Id(_, d) => wide_if_written(findings, d),
        ObjectType::NdRange(_, d) => wide_if_written(findings, d),
        _ => {}
    }
}

/// BadDimension in a type.
pub fn no_dimension_in_type(findings: &mut Findings, t: &ObjectType)
    ensures { findings.new ≡ told findings.old (at code.BadDimension (in_type no_dimension t.now)) }
{
    match t {
        ObjectType::LocalAccessor(_, t) => no_dimension_if_written(findings, &t.dimensions),
        ObjectType::Buffer(_, Some(t)) => no_dimension_if_written(findings, &t.dimensions),
        ObjectType::Range(_, d) => no_dimension_if_written(findings, d),
        ObjectType::Id(_, d) => no_dimension_if_written(findings, d),
        ObjectType::NdRange(_, d) => no_dimension_if_written(findings, d),
        _ => {}
    }
}
