// What the texts of words stand for, the cursor's own steps, and the texts of its stops. What is read of sources is tested
// where expressions and blocks are parsed.

use super::*;
use std::test::Fail;
use sy_lex::{Row, tokens};
use sy_num::{BinOp, UnOp};
use sy_tree::{AccessTag, AssignmentOperator, FunctionObject, LibraryFunction, Operator, Step};

/// What the texts of words stand for.
#[test]
fn words(rt: HostRuntime) {
    assert_eq!(rt; unary_of(b"~"), Some(UnOp::Flip));
    assert_eq!(rt; step_of(b"--"), Some(Step::Decrement));
    assert_eq!(rt; operator_of(b"<<"), Some(Operator::Strict(BinOp::Shl)));
    assert_eq!(rt; operator_of(b"&&"), Some(Operator::LogicalAnd));
    assert_eq!(rt; operator_of(b"="), None);
    assert_eq!(rt; level(Operator::Strict(BinOp::Mul)), 11);
    assert_eq!(rt; assignment_of(b">>="), Some(AssignmentOperator::Shr));
    assert_eq!(rt; tag_of(b"no_init"), Some(AccessTag::NoInit));
    assert_eq!(rt; object_of(b"plus"), Some(FunctionObject::Plus));
    assert_eq!(rt; function_of(b"reduction"), Some(LibraryFunction::Reduction));
}

/// The cursor's own steps, and the greatest height.
#[test]
fn steps(rt: HostRuntime) -> Result<(), Fail> {
    let toks = tokens(rt.alloc(), b"std::cout << sycl::queue q;")?;
    let mut cursor = Tokens::new(rt.alloc(), toks.as_slice());
    assert!(rt; cursor.sees_namespace(b"std") && cursor.behind().sees(Row::Mark, b"::"));
    assert!(rt; cursor.within(b"std", b"endl").is_err());
    assert_eq!(rt; cursor.count_left(), 7);
    assert!(rt; cursor.advance().is_ok() && cursor.mark() == b"<<".as_slice());
    assert!(rt; cursor.eat(Row::Mark, b"<<") && declares_object(&cursor) == Ok(true));
    assert!(rt; object_type(&mut cursor).is_ok() && !cursor.ends());
    assert_eq!(rt; check_height(&cursor, 'x', 63), Ok(('x', 64)));
    assert_eq!(rt; check_height(&cursor, 'x', 64), Err(Stop::Grammar));
    Ok(())
}

#[test]
fn texts_of_stops(rt: HostRuntime) -> Result<(), Fail> {
    let table: [(Stop, &str); 2] = [
        (Stop::Grammar, "the tokens don't fit the grammar"),
        (Stop::Memory, "out of memory"),
    ];
    for (stop, text) in table {
        assert_eq!(rt; format!(in rt.alloc(); "{stop}")?.as_str(), text);
    }
    Ok(())
}
