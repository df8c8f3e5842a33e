//! Expressions without parts, and parentheses.

ghost use Rattle.std.specs.Prelude.{◌≡◌, Some};
ghost use Rattle.sy_constructs.specs.Whole.{error_code_faults};
ghost use Rattle.sy_findings.specs.Told.{told};
ghost use Rattle.sy_note.specs.declared.Code.TheVariants as code;
ghost use Rattle.sy_rules.specs.ExprRules.{faults, is_compared, alone_code};
ghost use Rattle.sy_rules.specs.ExprTypes.{seen_as, kind_written};
ghost use Rattle.sy_rules.specs.declared.names.Names.{Names as TheNames};
ghost use Rattle.sy_tree.specs.declared.tree.Argument.TheOpen.{Expr-F};

use crate::whole::{is_known, seen_if, settle, value};
use sy_findings::Findings;
use sy_members::error_named;
use sy_names::Names;
use sy_note::{Code, Spot};
use sy_num::Kind;
use sy_rules::{Constant, Seen, Taken};
use sy_tree::{AccessTag, Brackets, FunctionObject, IntegerType, Lexeme, Qualified};
use sy_typed::Thing;

/// `true` or `false`.
pub fn boolean(spot: Spot, is_true: bool) -> Seen
    ensures { (n : TheNames) → result ≡ seen_as n (Expr-F.Boolean spot is_true) }
{
    let number = if is_true { 1 } else { 0 };
    value(
        Some(Thing::Integer(Kind::Bool)),
        spot,
        Constant::Number(number),
    )
}

/// `(a)`, from `first` to `end`.
pub fn parenthesized(first: Spot, a: Seen, end: Spot) -> Seen
    ensures { (n : TheNames) → result ≡ seen_as n (Expr-F.Parenthesized first a end) }
{
    let whole = Seen {
        what: a.what,
        first,
        denotes: a.denotes,
        constant: a.constant,
        variable: a.variable,
        is_bare: false,
    };
    seen_if(is_known(a), whole)
}

/// `sycl::read_only` and the like.
pub fn access_tag(q: Qualified, tag: AccessTag) -> Seen
    ensures { (n : TheNames) → result ≡ seen_as n (Expr-F.AccessTag q tag) }
{
    value(Some(Thing::AccessTag(tag)), q.namespace, Constant::Varying)
}

/// `property::queue::in_order{}`, up to `end`.
pub fn in_order(q: Qualified, brackets: Brackets, end: Spot) -> Seen
    ensures { (n : TheNames) → result ≡ seen_as n (Expr-F.InOrder q brackets end) }
{
    value(Some(Thing::InOrder), q.namespace, Constant::Varying)
}

/// `property::reduction::initialize_to_identity{}`, up to `end`.
pub fn initialize_to_identity(q: Qualified, brackets: Brackets, end: Spot) -> Seen
    ensures { (n : TheNames) → result ≡ seen_as n (Expr-F.InitializeToIdentity q brackets end) }
{
    value(
        Some(Thing::InitializeToIdentity),
        q.namespace,
        Constant::Varying,
    )
}

/// The kind that is written between `<` and `>`.
pub fn kind_written(written: Option<IntegerType>) -> Option<Kind>
    ensures { result ≡ kind_written written }
{
    match written {
        None => None,
        Some(t) => Some(t.kind),
    }
}

/// `plus<int>{}` and the like, up to `end`.
pub fn function_object(
    q: Qualified,
    function: FunctionObject,
    written: Option<IntegerType>,
    brackets: Brackets,
    end: Spot,
) -> Seen
    ensures { (n : TheNames) → result ≡ seen_as n (Expr-F.FunctionObject q function written brackets end) }
{
    let what = Thing::FunctionObject(function, kind_written(written));
    value(Some(what), q.namespace, Constant::Varying)
}

/// The place takes an error code.
pub fn is_compared(taken: Taken) -> bool
    ensures { result ≡ is_compared taken }
{
    matches!(taken, Taken::Compared)
}

/// Tells what a name behind `errc` breaks.
fn tell_error_code(findings: &mut Findings, taken: Taken, q: Qualified, x: &Lexeme)
    ensures { findings.new ≡ told findings.old (error_code_faults taken q x.now) }
{
    let is_unknown = error_named(x.text.items()).is_none();
    findings.tell_if(is_unknown, Code::UnknownName, x.spot);
    findings.tell_if(!is_compared(taken), Code::WrongOperand, q.namespace);
}

/// `errc::x`.
pub fn error_code(names: &Names, findings: &mut Findings, q: Qualified, x: &Lexeme) -> Seen
    ensures seen { result ≡ seen_as names.now (Expr-F.ErrorCode q x.now) }
    ensures found { findings.new ≡ told findings.old (faults names.now (Expr-F.ErrorCode q x.now)) }
{
    let mut own = Findings::new();
    tell_error_code(&mut own, names.setting().taken, q, x);
    let whole = value(Some(Thing::ErrorCode), q.namespace, Constant::Varying);
    settle(findings, own, false, true, whole)
}
