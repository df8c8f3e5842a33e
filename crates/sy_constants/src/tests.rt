// Literals and constants, with values worked out by hand.

use super::*;
use std::test::Fail;
use sy_note::Spot;
use sy_num::{BinOp, Kind, UnOp};
use sy_rules::{Constant, Denotes, Seen};
use sy_tree::Operator;
use sy_typed::{Dimensions, Thing};

const LITERALS: [(&'static [u8], Option<Kind>, Constant); 10] = [
    (b"0", Some(Kind::Int), Constant::Number(0)),
    (
        b"2147483648",
        Some(Kind::Long),
        Constant::Number(2147483648),
    ),
    (
        b"0x80000000",
        Some(Kind::UInt),
        Constant::Number(2147483648),
    ),
    (b"0b101u", Some(Kind::UInt), Constant::Number(5)),
    (b"017L", Some(Kind::Long), Constant::Number(15)),
    (b"9ull", Some(Kind::ULLong), Constant::Number(9)),
    (b"9223372036854775808", None, Constant::Undefined),
    (
        b"0xFFFFFFFFFFFFFFFF",
        Some(Kind::ULong),
        Constant::Number(18446744073709551615),
    ),
    (b"18446744073709551616u", None, Constant::Undefined),
    (
        b"340282366920938463463374607431768211456",
        None,
        Constant::Undefined,
    ),
];

#[test]
fn literals_have_the_first_kind(rt: HostRuntime) -> Result<(), Fail> {
    for (text, kind, value) in LITERALS {
        assert_eq!(rt; literal_kind(text), kind);
        assert_eq!(rt; literal_value(text), value);
    }
    assert_eq!(rt; number_written(b"0x1F"), Some(31));
    assert_eq!(rt; dimensions_written(b"0x2"), Some(Dimensions::Two));
    assert_eq!(rt; dimensions_written(b"4"), None);
    assert_eq!(rt; character_value(b"'a'"), 97);
    assert_eq!(rt; character_value(b"'\\n'"), 10);
    Ok(())
}

fn seen(kind: Kind, constant: Constant) -> Seen {
    Seen {
        what: Some(Thing::Integer(kind)),
        first: Spot::START,
        denotes: Denotes::Value,
        constant,
        variable: None,
        is_bare: false,
    }
}

const SUMS: [(Operator, i128, i128, Constant); 5] = [
    (Operator::Strict(BinOp::Add), 2, 3, Constant::Number(5)),
    (Operator::Strict(BinOp::Div), 7, 0, Constant::Undefined),
    (
        Operator::Strict(BinOp::Add),
        2147483648,
        1,
        Constant::Undefined,
    ),
    (Operator::LogicalAnd, 0, 5, Constant::Number(0)),
    (Operator::LogicalOr, 0, 5, Constant::Number(1)),
];

#[test]
fn constants_are_computed(rt: HostRuntime) -> Result<(), Fail> {
    for (op, x, y, value) in SUMS {
        let a = seen(Kind::Int, Constant::Number(x));
        let b = seen(Kind::Int, Constant::Number(y));
        assert_eq!(rt; binary_of(op, a, b), value);
    }
    let big = Constant::Number(300);
    assert_eq!(rt; converted_to(Kind::UChar, big), Constant::Number(44));
    assert_eq!(rt; converted_to_type(None, big), Constant::Unknown);
    assert_eq!(rt;
        unary_of(UnOp::Minus, Some(Kind::Int), big),
        Constant::Number(-300)
    );
    assert_eq!(rt;
        choice_of(Constant::Number(0), Constant::Undefined, big),
        big
    );
    assert_eq!(rt; choice_of(big, Constant::Varying, big), Constant::Varying);
    assert_eq!(rt; or_unknown(Constant::Varying), Constant::Unknown);
    Ok(())
}
