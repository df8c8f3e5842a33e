// Small trees in boxes, and the laws called once.

use super::*;
use sqlite_items::Boxed;
use std::test::Fail;
use sy_lex::Text;
use sy_note::Spot;

fn spot(column: u32) -> Spot {
    Spot { line: 1, column }
}

/// `-1`, in a box that is opened again.
#[test]
fn expressions(rt: HostRuntime) -> Result<(), Fail> {
    let literal = Lexeme {
        spot: spot(2),
        text: Text::of(Vec::from_slice(rt.alloc(), b"1")?),
    };
    let one = Boxed::new(rt.alloc(), Expr::Integer(literal))?;
    let minus = Expr::Unary(spot(1), sy_num::UnOp::Minus, one);
    let boxed = boxed_expr(rt.alloc(), minus).ok().ok_or("no memory")?;
    let Expr::Unary(at, sy_num::UnOp::Minus, operand) = Box::into_inner(boxed) else {
        return Err(Fail::new("another tree"));
    };
    assert_eq!(rt; at, spot(1));
    let Expr::Integer(literal) = operand.into_inner() else {
        return Err(Fail::new("another operand"));
    };
    assert_eq!(rt; literal.text.items(), b"1".as_slice());
    Ok(())
}

/// `break;`, in a box that is opened again.
#[test]
fn statements(rt: HostRuntime) -> Result<(), Fail> {
    let boxed = boxed_stmt(rt.alloc(), Stmt::Break(spot(1), spot(6)))
        .ok()
        .ok_or("no memory")?;
    let Stmt::Break(at, end) = Box::into_inner(boxed) else {
        return Err(Fail::new("another tree"));
    };
    assert_eq!(rt; (at, end), (spot(1), spot(6)));
    Ok(())
}

#[test]
fn the_laws(rt: HostRuntime) -> Result<(), Fail> {
    laws::bounds_are_upper_bounds();
    laws::trees_take_tokens();
    laws::trees_begin_with_their_words();
    laws::small_sources_have_trees();
    let _ = rt;
    Ok(())
}
