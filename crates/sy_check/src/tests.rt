// Expressions by themselves.

use super::*;
use std::alloc::{AllocError, Global};
use std::test::Fail;
use sy_lex::Text;
use sy_names::Names;
use sy_note::{Code, Diagnostic, FrontStop, Spot};
use sy_num::Kind;
use sy_tree::{Expr, Lexeme};
use sy_typed::Thing;

const HERE: Spot = Spot { line: 2, column: 7 };

/// The type of a literal, or the rule that it breaks.
fn literal(alloc: Global, text: &[u8]) -> Result<Result<Option<Thing>, Diagnostic>, AllocError> {
    let e = Expr::Integer(Lexeme {
        spot: HERE,
        text: Text::copied(alloc, text)?,
    });
    match type_of(alloc, Names::new(alloc, 0), Spot::START, &e) {
        Ok((seen, _)) => Ok(Ok(seen.what)),
        Err(FrontStop::Refused(d)) => Ok(Err(d)),
        Err(FrontStop::Memory) => Err(AllocError),
    }
}

#[test]
fn literals_have_types(rt: HostRuntime) -> Result<(), Fail> {
    let alloc = rt.alloc();
    assert_eq!(rt; literal(alloc, b"3")?, Ok(Some(Thing::Integer(Kind::Int))));
    assert_eq!(rt;
        literal(alloc, b"3ul")?,
        Ok(Some(Thing::Integer(Kind::ULong)))
    );
    let too_wide = Diagnostic {
        spot: HERE,
        code: Code::BadLiteral,
    };
    assert_eq!(rt; literal(alloc, b"18446744073709551616")?, Err(too_wide));
    Ok(())
}
