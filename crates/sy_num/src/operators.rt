// The operators. A kind's numbers have at most 65 bits, so that no sum, difference or shift passes 128.

ghost use Rattle.std.specs.Prelude.{◌≡◌, bit_and, bit_or, bit_xor, ◌+ℤ◌, ◌-ℤ◌, ◌*ℤ◌, neg_ℤ};
ghost use Rattle.std.specs.Ordering.{int_eq};
ghost use Rattle.sy_num.specs.Kinds.{InRange, promoted};
ghost use Rattle.sy_num.specs.Scalars.{scalar, reduced, converted_num};
ghost use Rattle.sy_num.specs.Operators.{represented, fitted, quotient, remainder, is_count, shifted_left, shifted_right, on_bits, flipped, truth, promoted_num, applied, applied_one, result_kind, result_kind_one};

use crate::conversions::{converted_num, reduced};
use crate::{BinOp, Kind, UnOp, Undefined, Value, common_kind};

/// The value of an operator with two operands. Shifts promote each operand by itself; all other operators
/// convert both to their common kind.
#[tactic(auto, unfolding(crate::specs::Operators::applied))]
pub fn apply(op: BinOp, left: Value, right: Value) -> Result<Value, Undefined>
    ensures { result ≡ applied op left right }
{
    let kind = common_kind(left.kind, right.kind);
    let x = operand(kind, left);
    let y = operand(kind, right);
    match op {
        BinOp::Add => sum(kind, x, y),
        BinOp::Sub => difference(kind, x, y),
        BinOp::Mul => product(kind, x, y),
        BinOp::Div => quotient(kind, x, y),
        BinOp::Rem => remainder(kind, x, y),
        BinOp::Shl => shifted_left(
            left.kind.promoted(),
            promoted_num(left),
            promoted_num(right),
        ),
        BinOp::Shr => shifted_right(
            left.kind.promoted(),
            promoted_num(left),
            promoted_num(right),
        ),
        BinOp::And => Ok(bit_and(kind, x, y)),
        BinOp::Or => Ok(bit_or(kind, x, y)),
        BinOp::Xor => Ok(bit_xor(kind, x, y)),
        BinOp::Eq => Ok(truth(are_equal(x, y))),
        BinOp::Ne => Ok(truth(!are_equal(x, y))),
        BinOp::Lt => Ok(truth(x < y)),
        BinOp::Le => Ok(truth(x <= y)),
        BinOp::Gt => Ok(truth(x > y)),
        BinOp::Ge => Ok(truth(x >= y)),
    }
}

/// The value of an operator with one operand. `!` converts its operand to `Bool`, the others promote it.
#[tactic(auto, unfolding(crate::specs::Operators::applied_one))]
pub fn apply_one(op: UnOp, operand: Value) -> Result<Value, Undefined>
    ensures { result ≡ applied_one op operand }
{
    let kind = operand.kind.promoted();
    let x = promoted_num(operand);
    match op {
        UnOp::Plus => Ok(Value { kind, num: x }),
        UnOp::Minus => negated(kind, x),
        UnOp::Not => Ok(truth(are_equal(converted_num(Kind::Bool, operand.num), 0))),
        UnOp::Flip => Ok(flipped(kind, x)),
    }
}

/// The kind of the value of an operator with two operands of these kinds.
pub fn result_kind(op: BinOp, left: Kind, right: Kind) -> Kind
    ensures { result ≡ result_kind op left right }
{
    match op {
        BinOp::Add
        | BinOp::Sub
        | BinOp::Mul
        | BinOp::Div
        | BinOp::Rem
        | BinOp::And
        | BinOp::Or
        | BinOp::Xor => { common_kind(left, right) }
        BinOp::Shl | BinOp::Shr => left.promoted(),
        BinOp::Eq | BinOp::Ne | BinOp::Lt | BinOp::Le | BinOp::Gt | BinOp::Ge => Kind::Bool,
    }
}

/// The kind of the value of an operator with one operand of this kind.
pub fn result_kind_one(op: UnOp, operand: Kind) -> Kind
    ensures { result ≡ result_kind_one op operand }
{
    match op {
        UnOp::Plus | UnOp::Minus | UnOp::Flip => operand.promoted(),
        UnOp::Not => Kind::Bool,
    }
}

// The operand's number after the integral promotions.
fn promoted_num(operand: Value) -> i128
    ensures value { result ≡ promoted_num operand }
    ensures in_range { InRange (promoted operand.kind) result }
{
    converted_num(operand.kind.promoted(), operand.num)
}

// The value's number, converted to the kind. It is mostly of that kind already.
fn operand(kind: Kind, value: Value) -> i128
    ensures value { result ≡ converted_num kind value.num }
    ensures in_range { InRange kind result }
{
    if value.kind == kind {
        value.num
    } else {
        converted_num(kind, value.num)
    }
}

// The number as a value of the kind, where the kind can represent it.
#[tactic(auto, unfolding(crate::specs::Operators::represented))]
fn represented(kind: Kind, num: i128) -> Result<Value, Undefined>
    ensures { result ≡ represented kind num }
{
    if kind.holds(num) {
        Ok(Value { kind, num })
    } else {
        Err(Undefined::Overflow)
    }
}

// The number modulo 2^N as a value of the kind.
fn wrapped(kind: Kind, num: i128) -> Value
    ensures { result ≡ scalar kind (reduced kind num) }
{
    Value {
        kind,
        num: reduced(kind, num),
    }
}

// An unsigned kind takes the number modulo 2^N, a signed one refuses what it can't represent.
#[tactic(auto, unfolding(crate::specs::Operators::fitted))]
fn fitted(kind: Kind, num: i128) -> Result<Value, Undefined>
    ensures { result ≡ fitted kind num }
{
    if kind.is_signed() {
        represented(kind, num)
    } else {
        Ok(wrapped(kind, num))
    }
}

fn sum(kind: Kind, x: i128, y: i128) -> Result<Value, Undefined>
    requires x_in_range { InRange kind x }
    requires y_in_range { InRange kind y }
    ensures { result ≡ fitted kind (x +ℤ y) }
{
    fitted(kind, x + y)
}

fn difference(kind: Kind, x: i128, y: i128) -> Result<Value, Undefined>
    requires x_in_range { InRange kind x }
    requires y_in_range { InRange kind y }
    ensures { result ≡ fitted kind (x -ℤ y) }
{
    fitted(kind, x - y)
}

// A product of unsigned 64-bit numbers can pass `i128`: it is then taken modulo 2^128 first.
fn product(kind: Kind, x: i128, y: i128) -> Result<Value, Undefined>
    requires x_in_range { InRange kind x }
    requires y_in_range { InRange kind y }
    ensures { result ≡ fitted kind (x *ℤ y) }
{
    fitted(kind, x.wrapping_mul(y))
}

#[tactic(auto, unfolding(crate::specs::Operators::quotient))]
fn quotient(kind: Kind, x: i128, y: i128) -> Result<Value, Undefined>
    requires x_in_range { InRange kind x }
    requires y_in_range { InRange kind y }
    ensures { result ≡ quotient kind x y }
{
    if y == 0 {
        Err(Undefined::ZeroDivisor)
    } else {
        represented(kind, x / y)
    }
}

#[tactic(auto, unfolding(crate::specs::Operators::remainder))]
fn remainder(kind: Kind, x: i128, y: i128) -> Result<Value, Undefined>
    requires x_in_range { InRange kind x }
    requires y_in_range { InRange kind y }
    ensures { result ≡ remainder kind x y }
{
    if y == 0 {
        return Err(Undefined::ZeroDivisor);
    }
    let quotient = x / y;
    if kind.holds(quotient) {
        Ok(Value {
            kind,
            num: x - quotient * y,
        })
    } else {
        Err(Undefined::Overflow)
    }
}

fn negated(kind: Kind, x: i128) -> Result<Value, Undefined>
    requires { InRange kind x }
    ensures { result ≡ fitted kind (neg_ℤ x) }
{
    fitted(kind, -x)
}

// Whether numbers of the kind can be shifted by the count.
fn is_count(kind: Kind, count: i128) -> bool
    ensures { result ≡ is_count kind count }
{
    0 <= count && count < kind.bits() as i128
}

#[tactic(auto, unfolding(crate::specs::Operators::shifted_left))]
fn shifted_left(kind: Kind, x: i128, count: i128) -> Result<Value, Undefined>
    ensures { result ≡ shifted_left kind x count }
{
    if !is_count(kind, count) {
        Err(Undefined::Shift)
    } else if x < 0 {
        Err(Undefined::Overflow)
    } else {
        Ok(wrapped(kind, x << count as u32))
    }
}

#[tactic(auto, unfolding(crate::specs::Operators::shifted_right))]
fn shifted_right(kind: Kind, x: i128, count: i128) -> Result<Value, Undefined>
    requires { InRange kind x }
    ensures { result ≡ shifted_right kind x count }
{
    if is_count(kind, count) {
        Ok(Value {
            kind,
            num: x >> count as u32,
        })
    } else {
        Err(Undefined::Shift)
    }
}

fn bit_and(kind: Kind, x: i128, y: i128) -> Value
    ensures { result ≡ on_bits bit_and kind x y }
{
    wrapped(kind, x & y)
}

fn bit_or(kind: Kind, x: i128, y: i128) -> Value
    ensures { result ≡ on_bits bit_or kind x y }
{
    wrapped(kind, x | y)
}

fn bit_xor(kind: Kind, x: i128, y: i128) -> Value
    ensures { result ≡ on_bits bit_xor kind x y }
{
    wrapped(kind, x ^ y)
}

fn flipped(kind: Kind, x: i128) -> Value
    ensures { result ≡ flipped kind x }
{
    wrapped(kind, !x)
}

fn are_equal(x: i128, y: i128) -> bool
    ensures { result ≡ int_eq x y }
{
    x == y
}

// What a comparison answers.
fn truth(holds: bool) -> Value
    ensures { result ≡ truth holds }
{
    Value {
        kind: Kind::Bool,
        num: if holds { 1 } else { 0 },
    }
}
