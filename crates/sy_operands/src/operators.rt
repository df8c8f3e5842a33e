//! Operators and casts. (C++17, "Expressions")

ghost use Rattle.std.specs.Prelude.{◌≡◌, ◌++◌, ◌&&◌, false, None};
ghost use Rattle.sy_constructs.specs.Whole.{seen_value, seen_if, is_sound_if};
ghost use Rattle.sy_operands.specs.Operands.{operand_faults, operator_faults, choice_faults, step_faults};
ghost use Rattle.sy_findings.specs.Told.{told};
ghost use Rattle.sy_note.specs.declared.Code.TheVariants as code;
ghost use Rattle.sy_rules.specs.Calls.{integer_of};
ghost use Rattle.sy_rules.specs.ExprRules.{faults, is_equality, are_error_codes, wrong_operands};
ghost use Rattle.sy_rules.specs.ExprTypes.{seen_as, kind_of_unary, kind_by, kind_of_both, kind_of_arms, type_of_binary};
ghost use Rattle.sy_rules.specs.Faults.{at};
ghost use Rattle.sy_rules.specs.Seen.{passes, fails, is_error_code, no_integer, unread, is_known, kind_of};
ghost use Rattle.sy_rules.specs.declared.names.Names.{Names};
ghost use Rattle.sy_rules.specs.declared.seen.Constant.TheVariants as constant;
ghost use Rattle.sy_tree.specs.declared.tree.Argument.TheOpen.{Expr-F};

use sy_constants::{binary_of, choice_of, converted_to, converted_to_type, unary_of};
use sy_constructs::{both_known, is_equality, is_known, settle, value};
use sy_findings::{Findings, if_bool, kind_of, no_integer, no_target, unread, unwritten};
use sy_fits::{integer_of, same_kind};
use sy_note::Spot;
use sy_num::{Kind, UnOp, common_kind, result_kind, result_kind_one};
use sy_rules::{Constant, Seen};
use sy_tree::{IntegerType, Operator, Step};
use sy_typed::Thing;

// ---- one operand

/// Tells what an operand breaks that is read as an integer.
fn tell_operand(findings: &mut Findings, a: Seen)
    ensures { findings.new ≡ told findings.old (operand_faults a) }
{
    no_integer(findings, a);
    unread(findings, a);
}

/// A construct with one operand, which is read as an integer.
fn with_operand(findings: &mut Findings, a: Seen, whole: Seen) -> Seen
    ensures seen { result ≡ seen_if (is_sound_if false (is_known a) (operand_faults a)) whole }
    ensures found { findings.new ≡ told findings.old (operand_faults a) }
{
    let mut own = Findings::new();
    tell_operand(&mut own, a);
    settle(findings, own, false, is_known(a), whole)
}

/// `(t) a`, whose `(` is at `first`.
pub fn cast(findings: &mut Findings, first: Spot, t: IntegerType, a: Seen) -> Seen
    ensures seen { (n : Names) → result ≡ seen_as n (Expr-F.Cast first t a) }
    ensures found { (n : Names) → findings.new ≡ told findings.old (faults n (Expr-F.Cast first t a)) }
{
    let whole = value(
        Some(Thing::Integer(t.kind)),
        first,
        converted_to(t.kind, a.constant),
    );
    with_operand(findings, a, whole)
}

/// `static_cast<t>(a)` from `first` to `end`.
pub fn static_cast(findings: &mut Findings, first: Spot, t: IntegerType, a: Seen, end: Spot) -> Seen
    ensures seen { (n : Names) → result ≡ seen_as n (Expr-F.StaticCast first t a end) }
    ensures found { (n : Names) → findings.new ≡ told findings.old (faults n (Expr-F.StaticCast first t a end)) }
{
    cast(findings, first, t, a)
}

/// `t(a)` up to `end`.
pub fn functional_cast(findings: &mut Findings, t: IntegerType, a: Seen, end: Spot) -> Seen
    ensures seen { (n : Names) → result ≡ seen_as n (Expr-F.FunctionalCast t a end) }
    ensures found { (n : Names) → findings.new ≡ told findings.old (faults n (Expr-F.FunctionalCast t a end)) }
{
    cast(findings, t.spot, t, a)
}

fn kind_of_unary(op: UnOp, kind: Option<Kind>) -> Option<Kind>
    ensures { result ≡ kind_of_unary op kind }
{
    match kind {
        None => None,
        Some(k) => Some(result_kind_one(op, k)),
    }
}

/// An operator with one operand, at `sign`.
pub fn unary(findings: &mut Findings, sign: Spot, op: UnOp, a: Seen) -> Seen
    ensures seen { (n : Names) → result ≡ seen_as n (Expr-F.Unary sign op a) }
    ensures found { (n : Names) → findings.new ≡ told findings.old (faults n (Expr-F.Unary sign op a)) }
{
    let kind = kind_of(a.what);
    let what = integer_of(kind_of_unary(op, kind));
    let whole = value(what, sign, unary_of(op, kind, a.constant));
    with_operand(findings, a, whole)
}

// ---- two operands

fn is_code(a: Seen) -> bool
    ensures { result ≡ passes is_error_code a.what }
{
    matches!(a.what, Some(Thing::ErrorCode))
}

fn is_no_code(a: Seen) -> bool
    ensures { result ≡ fails is_error_code a.what }
{
    match a.what {
        None => false,
        Some(Thing::ErrorCode) => false,
        Some(_) => true,
    }
}

/// They are compared as error codes.
fn are_error_codes(a: Seen, b: Seen) -> bool
    ensures { result ≡ are_error_codes a b }
{
    (is_code(a) && !is_no_code(b)) || (is_code(b) && !is_no_code(a))
}

/// WrongOperand at each that is no integer, unless error codes are compared.
fn wrong_operands(findings: &mut Findings, op: Operator, a: Seen, b: Seen)
    ensures { findings.new ≡ told findings.old (at code.WrongOperand (wrong_operands op a b)) }
{
    if is_equality(op) && are_error_codes(a, b) {
        return;
    }
    no_integer(findings, a);
    no_integer(findings, b);
}

/// ModeBroken at each that isn't to be read.
fn both_unread(findings: &mut Findings, a: Seen, b: Seen)
    ensures { findings.new ≡ told findings.old (at code.ModeBroken (unread a ++ unread b)) }
{
    unread(findings, a);
    unread(findings, b);
}

/// Tells what the operands of an operator break.
fn tell_operands(findings: &mut Findings, op: Operator, a: Seen, b: Seen)
    ensures { findings.new ≡ told findings.old (operator_faults op a b) }
{
    wrong_operands(findings, op, a, b);
    both_unread(findings, a, b);
}

fn kind_by(op: Operator, j: Kind, k: Kind) -> Kind
    ensures { result ≡ kind_by op j k }
{
    match op {
        Operator::Strict(op) => result_kind(op, j, k),
        Operator::LogicalAnd => Kind::Bool,
        Operator::LogicalOr => Kind::Bool,
    }
}

fn kind_of_operator(op: Operator, j: Option<Kind>, k: Option<Kind>) -> Option<Kind>
    ensures { result ≡ kind_of_both (kind_by op) j k }
{
    match (j, k) {
        (Some(j), Some(k)) => Some(kind_by(op, j, k)),
        _ => None,
    }
}

fn type_of_binary(op: Operator, a: Seen, b: Seen) -> Option<Thing>
    ensures { result ≡ type_of_binary op a b }
{
    if is_equality(op) && are_error_codes(a, b) {
        Some(Thing::Integer(Kind::Bool))
    } else {
        integer_of(kind_of_operator(op, kind_of(a.what), kind_of(b.what)))
    }
}

/// An operator between two operands, at `sign`.
pub fn binary(findings: &mut Findings, a: Seen, sign: Spot, op: Operator, b: Seen) -> Seen
    ensures seen { (n : Names) → result ≡ seen_as n (Expr-F.Binary a sign op b) }
    ensures found { (n : Names) → findings.new ≡ told findings.old (faults n (Expr-F.Binary a sign op b)) }
{
    let mut own = Findings::new();
    tell_operands(&mut own, op, a, b);
    let whole = value(type_of_binary(op, a, b), a.first, binary_of(op, a, b));
    settle(findings, own, false, both_known(a, b), whole)
}

// ---- `? :`

fn kind_of_arms(j: Kind, k: Kind) -> Kind
    ensures { result ≡ kind_of_arms j k }
{
    if same_kind(j, k) {
        j
    } else {
        common_kind(j, k)
    }
}

fn kind_of_choice(j: Option<Kind>, k: Option<Kind>) -> Option<Kind>
    ensures { result ≡ kind_of_both kind_of_arms j k }
{
    match (j, k) {
        (Some(j), Some(k)) => Some(kind_of_arms(j, k)),
        _ => None,
    }
}

/// WrongOperand at each that is no integer.
fn all_integers(findings: &mut Findings, a: Seen, b: Seen, c: Seen)
    ensures { findings.new ≡ told findings.old (at code.WrongOperand (no_integer a ++ (no_integer b ++ no_integer c))) }
{
    no_integer(findings, a);
    no_integer(findings, b);
    no_integer(findings, c);
}

/// ModeBroken at each that isn't to be read.
fn all_unread(findings: &mut Findings, a: Seen, b: Seen, c: Seen)
    ensures { findings.new ≡ told findings.old (at code.ModeBroken (unread a ++ (unread b ++ unread c))) }
{
    unread(findings, a);
    unread(findings, b);
    unread(findings, c);
}

fn all_known(a: Seen, b: Seen, c: Seen) -> bool
    ensures { result ≡ (is_known a && (is_known b && is_known c)) }
{
    is_known(a) && both_known(b, c)
}

/// Tells what the condition and the arms break.
fn tell_choice(findings: &mut Findings, a: Seen, b: Seen, c: Seen)
    ensures { findings.new ≡ told findings.old (choice_faults a b c) }
{
    all_integers(findings, a, b, c);
    all_unread(findings, a, b, c);
}

/// `a ? b : c`, whose `?` is at `sign`.
pub fn conditional(findings: &mut Findings, a: Seen, sign: Spot, b: Seen, c: Seen) -> Seen
    ensures seen { (n : Names) → result ≡ seen_as n (Expr-F.Conditional a sign b c) }
    ensures found { (n : Names) → findings.new ≡ told findings.old (faults n (Expr-F.Conditional a sign b c)) }
{
    let mut own = Findings::new();
    tell_choice(&mut own, a, b, c);
    let kind = kind_of_choice(kind_of(b.what), kind_of(c.what));
    let constant = converted_to_type(kind, choice_of(a.constant, b.constant, c.constant));
    let whole = value(integer_of(kind), a.first, constant);
    settle(findings, own, false, all_known(a, b, c), whole)
}

// ---- `++` and `--`

/// Tells what an operand of `++` or `--` breaks.
fn tell_target(findings: &mut Findings, a: Seen)
    ensures { findings.new ≡ told findings.old (step_faults a) }
{
    no_integer(findings, a);
    if_bool(findings, a);
    no_target(findings, a);
    unread(findings, a);
    unwritten(findings, a);
}

/// What is seen of `++` or `--` with this operand, from `first` on.
fn with_target(findings: &mut Findings, a: Seen, first: Spot) -> Seen
    ensures seen { result ≡ seen_if (is_sound_if false (is_known a) (step_faults a)) (seen_value (integer_of (kind_of a.what)) first constant.Varying) }
    ensures found { findings.new ≡ told findings.old (step_faults a) }
{
    let mut own = Findings::new();
    tell_target(&mut own, a);
    let whole = value(integer_of(kind_of(a.what)), first, Constant::Varying);
    settle(findings, own, false, is_known(a), whole)
}

/// `++a` or `--a`, at `first`.
pub fn prefix(findings: &mut Findings, first: Spot, step: Step, a: Seen) -> Seen
    ensures seen { (n : Names) → result ≡ seen_as n (Expr-F.Prefix first step a) }
    ensures found { (n : Names) → findings.new ≡ told findings.old (faults n (Expr-F.Prefix first step a)) }
{
    with_target(findings, a, first)
}

/// `a++` or `a--`, whose sign is at `sign`.
pub fn postfix(findings: &mut Findings, a: Seen, sign: Spot, step: Step) -> Seen
    ensures seen { (n : Names) → result ≡ seen_as n (Expr-F.Postfix a sign step) }
    ensures found { (n : Names) → findings.new ≡ told findings.old (faults n (Expr-F.Postfix a sign step)) }
{
    with_target(findings, a, a.first)
}
