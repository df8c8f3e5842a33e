// The sums of a source, and what they come to.

ghost use Rattle.std.specs.Prelude.{◌≡◌, ◌<◌, IfSome};
ghost use Rattle.sy_sums.specs.Sums as spec;

use crate::numerals::number_of;
use crate::spots::MAX_HEIGHT;
use sy_num::{BinOp, Kind, Undefined, Value, apply};
use sy_tree::{Expr, FileItem, Operator, Printed, Stmt, Unit};

/// A sum so far: its value, or the line of the operator that overflowed.
#[derive(Clone, Copy)]
pub enum Summed {
    Holds(Value),
    Overflowed(u32),
}

/// What a whole sum gives: a number, or the line of the operator that overflowed.
#[derive(Clone, Copy)]
pub enum Given {
    Number(i128),
    Overflow(u32),
}

/// A printed sum: the line of its `<<`, and what it gives.
#[derive(Clone, Copy)]
pub struct Operand {
    pub line: u32,
    pub given: Given,
}

/// The value of a decimal literal without a suffix (C++17, "Integer literals").
fn literal(n: u64) -> Value
    requires { n < 1000000000000000000 }
    ensures { result ≡ spec.literal n }
{
    if n <= 2147483647 {
        Value::new(Kind::Int, n as i128)
    } else {
        Value::new(Kind::Long, n as i128)
    }
}

/// The sum after an operator of this line.
fn sum_from(result_of: Result<Value, Undefined>, line: u32) -> Summed
    ensures { result ≡ spec.summed result_of line }
{
    match result_of {
        Ok(value) => Summed::Holds(value),
        Err(_) => Summed::Overflowed(line),
    }
}

/// The sum with one more number.
fn add(op: BinOp, line: u32, sum: Summed, n: u64) -> Summed
    requires { n < 1000000000000000000 }
    ensures { result ≡ spec.add op line sum n }
{
    match sum {
        Summed::Overflowed(at) => Summed::Overflowed(at),
        Summed::Holds(value) => sum_from(apply(op, value, literal(n)), line),
    }
}

/// The same where both parts are there.
fn added(op: BinOp, line: u32, sum: Option<Summed>, n: Option<u64>) -> Option<Summed>
    requires { IfSome n (λ n. n < 1000000000000000000) }
    ensures { result ≡ spec.added op line sum n }
{
    match (sum, n) {
        (Some(sum), Some(n)) => Some(add(op, line, sum, n)),
        _ => None,
    }
}

pub fn is_additive(op: BinOp) -> bool
    ensures { result ≡ spec.is_additive op }
{
    matches!(op, BinOp::Add | BinOp::Sub)
}

/// The number that an expression is, if it is one of a sum.
#[tactic(auto, unfolding(crate::specs::Sums::number_in))]
pub fn number_in(expr: &Expr) -> Option<u64>
    ensures value { result ≡ spec.number_in expr.now }
    ensures small { IfSome result (λ n. n < 1000000000000000000) }
{
    match expr {
        Expr::Integer(lexeme) => number_of(lexeme.text.items()),
        _ => None,
    }
}

fn lone(n: Option<u64>) -> Option<Summed>
    requires { IfSome n (λ n. n < 1000000000000000000) }
    ensures { result ≡ spec.lone n }
{
    match n {
        Some(n) => Some(Summed::Holds(literal(n))),
        None => None,
    }
}

/// What an expression of such a height comes to, if it is a sum.
#[tactic(auto, unfolding(crate::specs::Sums::sum_of))]
fn sum_of(height: u32, expr: &Expr) -> Option<Summed>
    ensures { result ≡ spec.sum_of height expr.now }
{
    if height == 0 {
        return None;
    }
    match expr {
        Expr::Binary(left, spot, Operator::Strict(op), right) => {
            if is_additive(*op) {
                let sum = sum_of(height - 1, left.get());
                added(*op, spot.line, sum, number_in(right.get()))
            } else {
                None
            }
        }
        _ => lone(number_in(expr)),
    }
}

fn given_by(sum: Summed) -> Given
    ensures { result ≡ spec.given_by sum }
{
    match sum {
        Summed::Holds(value) => Given::Number(value.num()),
        Summed::Overflowed(line) => Given::Overflow(line),
    }
}

fn operand_from(line: u32, sum: Option<Summed>) -> Option<Operand>
    ensures { result ≡ spec.operand_from line sum }
{
    match sum {
        Some(sum) => Some(Operand {
            line,
            given: given_by(sum),
        }),
        None => None,
    }
}

/// A printed sum, with the line of its `<<`.
#[tactic(auto, unfolding(crate::specs::Sums::operand_of))]
pub fn operand_of(printed: &Printed) -> Option<Operand>
    ensures { result ≡ spec.operand_of printed.now }
{
    match printed {
        Printed::Operand(spot, expr) => operand_from(spot.line, sum_of(MAX_HEIGHT, expr)),
        _ => None,
    }
}

/// What a statement prints by itself.
#[tactic(auto, unfolding(crate::specs::Sums::printed_by))]
pub fn printed_by(statement: &Stmt) -> &[Printed]
    ensures { result.now ≡ spec.printed_by statement.now }
{
    match statement {
        Stmt::Print(_, items, _) => items.as_slice(),
        _ => &[],
    }
}

/// The statements of the first function.
pub fn statements_of(unit: &Unit) -> &[Stmt]
    ensures { result.now ≡ spec.statements_of unit.now.items }
{
    match unit.items.as_slice() {
        [FileItem::Function(function), ..] => function.body.statements.as_slice(),
        _ => &[],
    }
}
