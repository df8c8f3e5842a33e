// Sources made by hand: `int main() { std::cout << 7 + 10; }` with this operator, and what it comes to.

use super::*;
use sqlite_items::{Boxed, Items};
use std::alloc::{AllocError, Global};
use std::test::Fail;
use sy_lex::Text;
use sy_note::Spot;
use sy_num::{BinOp, Kind};
use sy_tree::{
    Block, Expr, FileItem, Function, IntegerType, Lexeme, Operator, Printed, Qualified, ReturnType,
    Stmt, Unit,
};
use sy_work::Ending;

fn spot(line: u32, column: u32) -> Spot {
    Spot { line, column }
}

fn lexeme(alloc: Global, at: Spot, text: &str) -> Result<Lexeme, AllocError> {
    Ok(Lexeme {
        spot: at,
        text: Text::copied(alloc, text.as_bytes())?,
    })
}

fn number(alloc: Global, column: u32, text: &str) -> Result<Boxed<Expr>, AllocError> {
    Boxed::new(alloc, Expr::Integer(lexeme(alloc, spot(2, column), text)?))
}

/// The print, with its first number.
fn print(alloc: Global, text: &str, op: BinOp) -> Result<Stmt, AllocError> {
    let left = number(alloc, 16, text)?;
    let right = number(alloc, 20, "10")?;
    let sum = Expr::Binary(left, spot(2, 18), Operator::Strict(op), right);
    let mut items = Items::new(alloc);
    items.push(Printed::Operand(spot(2, 13), sum))?;
    let name = Qualified {
        namespace: spot(2, 1),
        name: spot(2, 6),
    };
    Ok(Stmt::Print(name, items, spot(2, 22)))
}

fn main_item(alloc: Global, text: &str, op: BinOp) -> Result<FileItem, AllocError> {
    let mut statements = Items::new(alloc);
    statements.push(print(alloc, text, op)?)?;
    Ok(FileItem::Function(Function {
        returned: ReturnType::Integer(IntegerType {
            spot: spot(1, 1),
            kind: Kind::Int,
        }),
        name: lexeme(alloc, spot(1, 5), "main")?,
        parameters: Items::new(alloc),
        body: Block {
            spot: spot(1, 12),
            statements,
            close: spot(3, 1),
        },
    }))
}

fn unit(alloc: Global, text: &str, op: BinOp) -> Result<Unit, AllocError> {
    let mut items = Items::new(alloc);
    items.push(main_item(alloc, text, op)?)?;
    Ok(Unit {
        includes: Items::new(alloc),
        usings: Items::new(alloc),
        items,
    })
}

#[test]
fn sources(rt: HostRuntime) -> Result<(), Fail> {
    for (text, op, unbuilt, output) in [
        ("7", BinOp::Add, None, "17"),
        ("7", BinOp::Sub, None, "-3"),
        ("7", BinOp::Mul, Some(spot(2, 16)), ""),
        ("07", BinOp::Sub, Some(spot(2, 16)), ""),
    ] {
        let source = unit(rt.alloc(), text, op)?;
        assert_eq!(rt; first_unbuilt(&source), unbuilt);
        let end = run_sums(rt.alloc(), &source, 10)?;
        assert_eq!(rt; end.ending, Ending::Returned(0));
        assert_eq!(rt; end.output.items(), output.as_bytes());
    }
    Ok(())
}

#[test]
fn endings(rt: HostRuntime) -> Result<(), Fail> {
    let source = unit(rt.alloc(), "2147483647", BinOp::Add)?;
    let end = run_sums(rt.alloc(), &source, 10)?;
    assert_eq!(rt; matches!(end.ending, Ending::Trapped(_)), true);
    assert_eq!(rt; end.order.as_slice(), [0].as_slice());
    Ok(())
}
