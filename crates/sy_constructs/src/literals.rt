//! Literals. (C++17, [lex.icon], [lex.ccon])

ghost use Rattle.std.specs.Prelude.{◌≡◌, ◌++◌, [], is_none};
ghost use Rattle.sy_findings.specs.Told.{told};
ghost use Rattle.sy_note.specs.declared.Code.TheVariants as code;
ghost use Rattle.sy_rules.specs.ExprRules.{faults, wide_literal, no_dimension};
ghost use Rattle.sy_rules.specs.ExprTypes.{seen_as};
ghost use Rattle.sy_rules.specs.Faults.{at};
ghost use Rattle.sy_rules.specs.declared.names.Names.{Names};
ghost use Rattle.sy_tree.specs.declared.tree.Argument.TheOpen.{Expr-F};

use crate::whole::{settle, value};
use sy_constants::{character_value, dimensions_written, literal_kind, literal_value};
use sy_findings::Findings;
use sy_fits::integer_of;
use sy_note::Code;
use sy_num::Kind;
use sy_rules::{Constant, Seen};
use sy_tree::Lexeme;
use sy_typed::Thing;

/// BadLiteral at one that no kind of its list holds.
pub fn wide_literal(findings: &mut Findings, x: &Lexeme)
    ensures { findings.new ≡ told findings.old (at code.BadLiteral (wide_literal x.now)) }
{
    let is_wide = literal_kind(x.text.items()).is_none();
    findings.tell_if(is_wide, Code::BadLiteral, x.spot);
}

/// BadDimension at one between `<` and `>` that isn't 1, 2 or 3.
pub fn no_dimension(findings: &mut Findings, x: &Lexeme)
    ensures { findings.new ≡ told findings.old (at code.BadDimension (no_dimension x.now)) }
{
    let is_none = dimensions_written(x.text.items()).is_none();
    findings.tell_if(is_none, Code::BadDimension, x.spot);
}

/// An integer literal.
pub fn integer(findings: &mut Findings, x: &Lexeme) -> Seen
    ensures seen { (n : Names) → result ≡ seen_as n (Expr-F.Integer x.now) }
    ensures found { (n : Names) → findings.new ≡ told findings.old (faults n (Expr-F.Integer x.now)) }
{
    let mut own = Findings::new();
    wide_literal(&mut own, x);
    let text = x.text.items();
    let whole = value(integer_of(literal_kind(text)), x.spot, literal_value(text));
    settle(findings, own, false, true, whole)
}

/// A character literal.
pub fn character(x: &Lexeme) -> Seen
    ensures { (n : Names) → result ≡ seen_as n (Expr-F.Character x.now) }
{
    let number = character_value(x.text.items()) as i128;
    value(
        Some(Thing::Integer(Kind::Char)),
        x.spot,
        Constant::Number(number),
    )
}
