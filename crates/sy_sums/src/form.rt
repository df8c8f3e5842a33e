// Whether a source is a main that prints sums.

ghost use Rattle.std.specs.Prelude.{◌≡◌, option_map, slice_get};
ghost use Rattle.sy_sums.specs.Form as spec;
ghost use Rattle.sy_sums.specs.Spots.{item_spot};

use crate::spots::{MAX_HEIGHT, first_token, item_spot, returned_spot, statement_spot};
use crate::sums::{is_additive, number_in};
use sy_note::Spot;
use sy_num::Kind;
use sy_tree::{Expr, FileItem, Function, Operator, Printed, ReturnType, Stmt, Unit};

/// The first token of what is no number of a sum.
fn unbuilt_number(expr: &Expr) -> Option<Spot>
    ensures { result ≡ spec.unbuilt_number expr.now }
{
    match number_in(expr) {
        Some(_) => None,
        None => Some(first_token(expr)),
    }
}

/// The first token of the first part that keeps an expression from being a sum of such a height.
#[tactic(auto, unfolding(crate::specs::Form::unbuilt_sum))]
fn unbuilt_sum(height: u32, expr: &Expr) -> Option<Spot>
    ensures { result ≡ spec.unbuilt_sum height expr.now }
{
    if height == 0 {
        return Some(first_token(expr));
    }
    match expr {
        Expr::Binary(left, _, Operator::Strict(op), right) => {
            if is_additive(*op) {
                unbuilt_sum(height - 1, left.get()).or(unbuilt_number(right.get()))
            } else {
                Some(first_token(expr))
            }
        }
        _ => unbuilt_number(expr),
    }
}

#[tactic(auto, unfolding(crate::specs::Form::unbuilt_printed))]
fn unbuilt_printed(printed: &Printed) -> Option<Spot>
    ensures { result ≡ spec.unbuilt_printed printed.now }
{
    match printed {
        Printed::Operand(_, expr) => unbuilt_sum(MAX_HEIGHT, expr),
        Printed::Text(_, lexeme) => Some(lexeme.spot),
        Printed::EndLine(_, name) => Some(name.namespace),
    }
}

fn unbuilt_print(mut items: &[Printed]) -> Option<Spot>
    ensures { result ≡ spec.first_given spec.unbuilt_printed items.entry.now }
{
    while let [item, rest @ ..] = items {
        if let Some(spot) = unbuilt_printed(item) {
            return Some(spot);
        }
        items = rest;
    }
    None
}

#[tactic(auto, unfolding(crate::specs::Form::unbuilt_statement))]
fn unbuilt_statement(statement: &Stmt) -> Option<Spot>
    ensures { result ≡ spec.unbuilt_statement statement.now }
{
    match statement {
        Stmt::Print(_, items, _) => unbuilt_print(items.as_slice()),
        _ => Some(statement_spot(statement)),
    }
}

fn unbuilt_block(mut statements: &[Stmt]) -> Option<Spot>
    ensures { result ≡ spec.first_given spec.unbuilt_statement statements.entry.now }
{
    while let [statement, rest @ ..] = statements {
        if let Some(spot) = unbuilt_statement(statement) {
            return Some(spot);
        }
        statements = rest;
    }
    None
}

fn is_int_kind(kind: Kind) -> bool
    ensures { result ≡ spec.is_int_kind kind }
{
    matches!(kind, Kind::Int)
}

fn is_int(returned: ReturnType) -> bool
    ensures { result ≡ spec.is_int returned }
{
    match returned {
        ReturnType::Void(_) => false,
        ReturnType::Integer(integer) => is_int_kind(integer.kind),
    }
}

/// Whether it is `int main()`.
#[tactic(auto, unfolding(crate::specs::Form::is_main))]
fn is_main(function: &Function) -> bool
    ensures { result ≡ spec.is_main function.now }
{
    is_int(function.returned)
        && function.name.text.items() == b"main".as_slice()
        && function.parameters.len() == 0
}

#[tactic(auto, unfolding(crate::specs::Form::unbuilt_item))]
fn unbuilt_item(item: &FileItem) -> Option<Spot>
    ensures { result ≡ spec.unbuilt_item item.now }
{
    match item {
        FileItem::Constant(_) => Some(item_spot(item)),
        FileItem::Function(function) => {
            if is_main(function) {
                unbuilt_block(function.body.statements.as_slice())
            } else {
                Some(returned_spot(function.returned))
            }
        }
    }
}

/// The first token of a second item, if there is one.
fn first_item(items: &[FileItem]) -> Option<Spot>
    ensures { result ≡ option_map item_spot (slice_get items.now 0) }
{
    match items {
        [] => None,
        [item, ..] => Some(item_spot(item)),
    }
}

fn unbuilt_items(items: &[FileItem]) -> Option<Spot>
    ensures { result ≡ spec.unbuilt_items items.now }
{
    match items {
        [] => Some(Spot::START),
        [item, rest @ ..] => unbuilt_item(item).or(first_item(rest)),
    }
}

fn first_using(usings: &[Spot]) -> Option<Spot>
    ensures { result ≡ slice_get usings.now 0 }
{
    match usings {
        [] => None,
        [spot, ..] => Some(*spot),
    }
}

/// The first token of the first part of a source that keeps it from being a main that prints sums, if there is one.
/// Includes mean nothing.
pub fn first_unbuilt(unit: &Unit) -> Option<Spot>
    ensures { result ≡ spec.first_unbuilt unit.now }
{
    first_using(unit.usings.as_slice()).or(unbuilt_items(unit.items.as_slice()))
}
