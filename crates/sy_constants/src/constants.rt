//! The values of constant expressions: those that are built of literals, constants, operators and casts. (C++17,
//! [expr.const])

ghost use Rattle.std.specs.Prelude.{◌≡◌, IfSome, IfNone, Some, true, false};
ghost use Rattle.std.specs.Ordering.{int_eq};
ghost use Rattle.sy_num.specs.Kinds.{is_in_range};
ghost use Rattle.sy_num.specs.Operators.{applied, applied_one};
ghost use Rattle.sy_num.specs.Scalars.{scalar, converted_num};
ghost use Rattle.sy_rules.specs.Constants.{value_or_none, of_both, of_one, in_kind, in_any_kind, converted_to, converted_to_type, unary_of, strict_in, strict_of, truth_of, is_settled, right_if_needed, logical_of, binary_of, chosen, choice_of};
ghost use Rattle.sy_rules.specs.StmtRules.{or_unknown};
ghost use Rattle.sy_rules.specs.declared.seen.Constant.TheVariants as constant;

use sy_findings::kind_of;
use sy_num::{BinOp, Kind, UnOp, Undefined, Value, apply, apply_one, convert};
use sy_rules::{Constant, Seen};
use sy_tree::Operator;

fn value_or_none(found: Result<Value, Undefined>) -> Constant
    ensures { result ≡ value_or_none found }
{
    match found {
        Ok(v) => Constant::Number(v.num()),
        Err(_) => Constant::Undefined,
    }
}

/// The number as one of the kind.
fn in_kind(kind: Kind, num: i128) -> Option<Value>
    ensures value { IfSome result (λ v. v ≡ scalar kind num) }
    ensures held { IfSome result (λ v. is_in_range kind num ≡ true) }
    ensures none { IfNone result (is_in_range kind num ≡ false) }
{
    if kind.holds(num) {
        Some(Value::new(kind, num))
    } else {
        None
    }
}

// ---- conversions

fn convert_number(kind: Kind, num: i128) -> Constant
    ensures { result ≡ in_any_kind (λ z. constant.Number (converted_num kind z)) num }
{
    match in_kind(Kind::LLong, num) {
        Some(v) => Constant::Number(convert(kind, v).num()),
        None => match in_kind(Kind::ULLong, num) {
            Some(v) => Constant::Number(convert(kind, v).num()),
            None => Constant::Undefined,
        },
    }
}

/// The constant converted to the kind.
pub fn converted_to(kind: Kind, c: Constant) -> Constant
    ensures { result ≡ converted_to kind c }
{
    match c {
        Constant::Number(num) => convert_number(kind, num),
        _ => c,
    }
}

pub fn converted_to_type(kind: Option<Kind>, c: Constant) -> Constant
    ensures { result ≡ converted_to_type kind c }
{
    match kind {
        None => Constant::Unknown,
        Some(k) => converted_to(k, c),
    }
}

/// What isn't a number isn't known.
pub fn or_unknown(c: Constant) -> Constant
    ensures { result ≡ or_unknown c }
{
    match c {
        Constant::Number(_) => c,
        _ => Constant::Unknown,
    }
}

// ---- operators

fn unary_number(op: UnOp, kind: Kind, num: i128) -> Constant
    ensures { result ≡ in_kind kind (λ z. value_or_none (applied_one op (scalar kind z))) num }
{
    match in_kind(kind, num) {
        Some(v) => value_or_none(apply_one(op, v)),
        None => Constant::Undefined,
    }
}

/// An operator with one operand of this kind.
pub fn unary_of(op: UnOp, kind: Option<Kind>, c: Constant) -> Constant
    ensures { result ≡ unary_of op kind c }
{
    let Some(kind) = kind else {
        return Constant::Unknown;
    };
    match c {
        Constant::Number(num) => unary_number(op, kind, num),
        _ => c,
    }
}

/// What two constants come to that aren't both numbers.
fn of_both_else(a: Constant, b: Constant) -> Constant
    ensures { result ≡ of_both (λ x y. constant.Undefined) a b }
{
    match a {
        Constant::Unknown => Constant::Unknown,
        Constant::Varying => match b {
            Constant::Unknown => Constant::Unknown,
            _ => Constant::Varying,
        },
        _ => match b {
            Constant::Unknown => Constant::Unknown,
            Constant::Varying => Constant::Varying,
            _ => Constant::Undefined,
        },
    }
}

fn strict_numbers(op: BinOp, j: Kind, k: Kind, x: i128, y: i128) -> Constant
    ensures { result ≡ strict_in op j k x y }
{
    let Some(left) = in_kind(j, x) else {
        return Constant::Undefined;
    };
    let Some(right) = in_kind(k, y) else {
        return Constant::Undefined;
    };
    value_or_none(apply(op, left, right))
}

fn strict_kinds(op: BinOp, j: Kind, k: Kind, a: Constant, b: Constant) -> Constant
    ensures { result ≡ strict_of op (Some j) (Some k) a b }
{
    match a {
        Constant::Number(x) => match b {
            Constant::Number(y) => strict_numbers(op, j, k, x, y),
            _ => of_both_else(a, b),
        },
        _ => of_both_else(a, b),
    }
}

fn strict_of(op: BinOp, j: Option<Kind>, k: Option<Kind>, a: Constant, b: Constant) -> Constant
    ensures { result ≡ strict_of op j k a b }
{
    match j {
        None => Constant::Unknown,
        Some(j) => match k {
            None => Constant::Unknown,
            Some(k) => strict_kinds(op, j, k, a, b),
        },
    }
}

fn truth(num: i128) -> Constant
    ensures { result ≡ truth_of (constant.Number num) }
{
    Constant::Number(if num == 0 { 0 } else { 1 })
}

fn truth_of(c: Constant) -> Constant
    ensures { result ≡ truth_of c }
{
    match c {
        Constant::Number(num) => truth(num),
        _ => c,
    }
}

/// The left side of `&&` or `||` tells the value.
fn is_settled(op: Operator, num: i128) -> bool
    ensures { result ≡ is_settled op num }
{
    match op {
        Operator::LogicalAnd => num == 0,
        Operator::LogicalOr => num != 0,
        Operator::Strict(_) => false,
    }
}

fn right_if_needed(op: Operator, num: i128, b: Constant) -> Constant
    ensures { result ≡ right_if_needed op num b }
{
    match b {
        Constant::Unknown => Constant::Unknown,
        Constant::Varying => Constant::Varying,
        _ => {
            if is_settled(op, num) {
                truth(num)
            } else {
                truth_of(b)
            }
        }
    }
}

fn logical_of(op: Operator, a: Constant, b: Constant) -> Constant
    ensures { result ≡ logical_of op a b }
{
    match a {
        Constant::Number(num) => right_if_needed(op, num, b),
        _ => of_both_else(a, b),
    }
}

/// An operator with two operands.
pub fn binary_of(op: Operator, a: Seen, b: Seen) -> Constant
    ensures { result ≡ binary_of op a b }
{
    match op {
        Operator::Strict(op) => strict_of(
            op,
            kind_of(a.what),
            kind_of(b.what),
            a.constant,
            b.constant,
        ),
        _ => logical_of(op, a.constant, b.constant),
    }
}

fn chosen(num: i128, b: Constant, c: Constant) -> Constant
    ensures { result ≡ chosen num b c }
{
    match of_both_else(b, c) {
        Constant::Undefined => { if num == 0 { c } else { b } }
        other => other,
    }
}

/// `a ? b : c`
pub fn choice_of(a: Constant, b: Constant, c: Constant) -> Constant
    ensures { result ≡ choice_of a b c }
{
    match a {
        Constant::Number(num) => chosen(num, b, c),
        _ => of_both_else(a, of_both_else(b, c)),
    }
}
