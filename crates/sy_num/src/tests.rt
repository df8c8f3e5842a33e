// Tables of operators at the edges of the kinds. The expected values are those of C++17's rules, worked out
// by hand, with the widths and the traps of this language.

use super::*;
use BinOp::{Add, And, Div, Eq, Ge, Gt, Le, Lt, Mul, Ne, Or, Rem, Shl, Shr, Sub, Xor};
use Kind::{Bool, Char, Int, LLong, Long, SChar, Short, UChar, UInt, ULLong, ULong, UShort};
use UnOp::{Flip, Minus, Not, Plus};
use Undefined::{Overflow, Shift, ZeroDivisor};
use std::process::Abort;

const INT_MIN: i128 = -2147483648;

const INT_MAX: i128 = 2147483647;

const UINT_MAX: i128 = 4294967295;

const LONG_MIN: i128 = -9223372036854775808;

const LONG_MAX: i128 = 9223372036854775807;

const ULONG_MAX: i128 = 18446744073709551615;

// A number and its kind.
type Number = (i128, Kind);

type Binary = (Number, BinOp, Number, Result<Number, Undefined>);

type Unary = (UnOp, Number, Result<Number, Undefined>);

static SUMS: [Binary; 76] = [
    // equal kinds
    ((INT_MAX, Int), Add, (1, Int), Err(Overflow)),
    ((INT_MIN, Int), Add, (-1, Int), Err(Overflow)),
    ((INT_MAX, Int), Add, (0, Int), Ok((INT_MAX, Int))),
    ((INT_MIN, Int), Add, (INT_MAX, Int), Ok((-1, Int))),
    ((UINT_MAX, UInt), Add, (1, UInt), Ok((0, UInt))),
    (
        (UINT_MAX, UInt),
        Add,
        (UINT_MAX, UInt),
        Ok((4294967294, UInt)),
    ),
    ((LONG_MAX, Long), Add, (1, Long), Err(Overflow)),
    ((LONG_MAX, LLong), Add, (1, LLong), Err(Overflow)),
    ((ULONG_MAX, ULLong), Add, (2, ULLong), Ok((1, ULLong))),
    // kinds below Int
    ((1, Bool), Add, (1, Bool), Ok((2, Int))),
    ((127, Char), Add, (1, Char), Ok((128, Int))),
    ((-128, SChar), Add, (-128, SChar), Ok((-256, Int))),
    ((255, UChar), Add, (255, UChar), Ok((510, Int))),
    ((32767, Short), Add, (1, Short), Ok((32768, Int))),
    ((65535, UShort), Add, (65535, UShort), Ok((131070, Int))),
    ((255, UChar), Add, (1, Bool), Ok((256, Int))),
    ((INT_MAX, Int), Add, (1, Bool), Err(Overflow)),
    // Int and UInt
    ((-1, Int), Add, (1, UInt), Ok((0, UInt))),
    ((1, UInt), Add, (-2, Int), Ok((UINT_MAX, UInt))),
    ((-1, Short), Add, (0, UInt), Ok((UINT_MAX, UInt))),
    // Long and UInt: Long can represent all values of UInt
    ((1, Long), Add, (UINT_MAX, UInt), Ok((4294967296, Long))),
    ((UINT_MAX, UInt), Add, (-1, Long), Ok((4294967294, Long))),
    ((LONG_MAX, Long), Add, (1, UInt), Err(Overflow)),
    ((-1, LLong), Add, (1, UInt), Ok((0, LLong))),
    // Long and ULong
    ((-1, Long), Add, (0, ULong), Ok((ULONG_MAX, ULong))),
    ((ULONG_MAX, ULong), Add, (1, Int), Ok((0, ULong))),
    ((1, UInt), Add, (1, ULong), Ok((2, ULong))),
    // LLong and ULong: ULLong
    ((-1, LLong), Add, (0, ULong), Ok((ULONG_MAX, ULLong))),
    ((1, ULong), Add, (1, LLong), Ok((2, ULLong))),
    // the other pairs of 64 bits
    ((1, LLong), Add, (1, Long), Ok((2, LLong))),
    ((5, Long), Add, (-7, LLong), Ok((-2, LLong))),
    ((LONG_MIN, Long), Add, (-1, LLong), Err(Overflow)),
    ((-1, Long), Add, (0, ULLong), Ok((ULONG_MAX, ULLong))),
    ((-1, LLong), Add, (1, ULLong), Ok((0, ULLong))),
    ((1, ULong), Add, (ULONG_MAX, ULLong), Ok((0, ULLong))),
    ((1, Bool), Add, (ULONG_MAX, ULLong), Ok((0, ULLong))),
    ((1, Int), Add, (1, LLong), Ok((2, LLong))),
    ((1, Char), Add, (1, Long), Ok((2, Long))),
    // differences
    ((INT_MIN, Int), Sub, (1, Int), Err(Overflow)),
    ((0, Int), Sub, (INT_MIN, Int), Err(Overflow)),
    ((INT_MAX, Int), Sub, (-1, Int), Err(Overflow)),
    ((-1, Int), Sub, (INT_MAX, Int), Ok((INT_MIN, Int))),
    ((0, UInt), Sub, (1, UInt), Ok((UINT_MAX, UInt))),
    ((0, UInt), Sub, (-1, Int), Ok((1, UInt))),
    ((0, UChar), Sub, (1, UChar), Ok((-1, Int))),
    ((0, UShort), Sub, (65535, UShort), Ok((-65535, Int))),
    ((-128, Char), Sub, (127, Char), Ok((-255, Int))),
    ((0, Bool), Sub, (1, Bool), Ok((-1, Int))),
    ((0, Long), Sub, (1, UInt), Ok((-1, Long))),
    ((0, ULong), Sub, (1, Int), Ok((ULONG_MAX, ULong))),
    ((LONG_MIN, Long), Sub, (1, Long), Err(Overflow)),
    ((0, ULLong), Sub, (ULONG_MAX, ULLong), Ok((1, ULLong))),
    ((0, LLong), Sub, (1, ULong), Ok((ULONG_MAX, ULLong))),
    // products
    ((65536, Int), Mul, (32768, Int), Err(Overflow)),
    ((65536, Int), Mul, (-32768, Int), Ok((INT_MIN, Int))),
    ((46341, Int), Mul, (46341, Int), Err(Overflow)),
    ((46340, Int), Mul, (46340, Int), Ok((2147395600, Int))),
    ((INT_MIN, Int), Mul, (-1, Int), Err(Overflow)),
    ((65536, UInt), Mul, (65536, UInt), Ok((0, UInt))),
    ((UINT_MAX, UInt), Mul, (UINT_MAX, UInt), Ok((1, UInt))),
    ((65535, UShort), Mul, (65535, UShort), Err(Overflow)),
    ((-32768, Short), Mul, (-32768, Short), Ok((1073741824, Int))),
    ((255, UChar), Mul, (255, UChar), Ok((65025, Int))),
    ((1, Bool), Mul, (1, Bool), Ok((1, Int))),
    ((ULONG_MAX, ULong), Mul, (ULONG_MAX, ULong), Ok((1, ULong))),
    (
        (ULONG_MAX, ULong),
        Mul,
        (18446744073709551614, ULong),
        Ok((2, ULong)),
    ),
    (
        (4294967296, ULLong),
        Mul,
        (4294967296, ULLong),
        Ok((0, ULLong)),
    ),
    ((4294967296, Long), Mul, (2147483648, Long), Err(Overflow)),
    (
        (4294967296, Long),
        Mul,
        (INT_MIN, Long),
        Ok((LONG_MIN, Long)),
    ),
    ((LONG_MIN, Long), Mul, (-1, Long), Err(Overflow)),
    ((3037000500, LLong), Mul, (3037000500, LLong), Err(Overflow)),
    (
        (3037000499, LLong),
        Mul,
        (3037000499, LLong),
        Ok((9223372030926249001, LLong)),
    ),
    ((-1, Int), Mul, (1, UInt), Ok((UINT_MAX, UInt))),
    (
        (-2, Int),
        Mul,
        (3, ULong),
        Ok((18446744073709551610, ULong)),
    ),
    ((UINT_MAX, UInt), Mul, (-1, Long), Ok((-4294967295, Long))),
    ((ULONG_MAX, ULong), Mul, (-1, LLong), Ok((1, ULLong))),
];

static QUOTIENTS: [Binary; 44] = [
    ((-7, Int), Div, (2, Int), Ok((-3, Int))),
    ((7, Int), Div, (-2, Int), Ok((-3, Int))),
    ((-7, Int), Div, (-2, Int), Ok((3, Int))),
    ((7, Int), Div, (2, Int), Ok((3, Int))),
    ((-1, Int), Div, (2, Int), Ok((0, Int))),
    ((INT_MIN, Int), Div, (-1, Int), Err(Overflow)),
    ((INT_MIN, Int), Div, (1, Int), Ok((INT_MIN, Int))),
    ((1, Int), Div, (0, Int), Err(ZeroDivisor)),
    ((0, Int), Div, (0, Int), Err(ZeroDivisor)),
    ((INT_MIN, Int), Div, (0, Int), Err(ZeroDivisor)),
    ((7, UInt), Div, (0, UInt), Err(ZeroDivisor)),
    ((5, Int), Div, (0, Bool), Err(ZeroDivisor)),
    ((-7, Int), Div, (2, UInt), Ok((2147483644, UInt))),
    ((UINT_MAX, UInt), Div, (-1, Int), Ok((1, UInt))),
    ((LONG_MIN, Long), Div, (-1, Long), Err(Overflow)),
    ((LONG_MIN, Long), Div, (-1, Int), Err(Overflow)),
    ((LONG_MIN, LLong), Div, (-1, LLong), Err(Overflow)),
    ((LONG_MIN, Long), Div, (ULONG_MAX, ULong), Ok((0, ULong))),
    ((-128, SChar), Div, (-1, SChar), Ok((128, Int))),
    ((-32768, Short), Div, (-1, Short), Ok((32768, Int))),
    ((ULONG_MAX, ULong), Div, (2, UInt), Ok((LONG_MAX, ULong))),
    ((-1, Long), Div, (2, UInt), Ok((0, Long))),
    ((-1, LLong), Div, (2, ULong), Ok((LONG_MAX, ULLong))),
    ((1, Bool), Div, (1, Bool), Ok((1, Int))),
    ((-7, Int), Rem, (2, Int), Ok((-1, Int))),
    ((7, Int), Rem, (-2, Int), Ok((1, Int))),
    ((-7, Int), Rem, (-2, Int), Ok((-1, Int))),
    ((7, Int), Rem, (2, Int), Ok((1, Int))),
    ((INT_MIN, Int), Rem, (-1, Int), Err(Overflow)),
    ((INT_MIN, Int), Rem, (1, Int), Ok((0, Int))),
    ((INT_MAX, Int), Rem, (INT_MIN, Int), Ok((INT_MAX, Int))),
    ((LONG_MIN, Long), Rem, (-1, Long), Err(Overflow)),
    ((LONG_MIN, LLong), Rem, (-1, Long), Err(Overflow)),
    ((5, Int), Rem, (0, Int), Err(ZeroDivisor)),
    ((INT_MIN, Int), Rem, (0, Int), Err(ZeroDivisor)),
    ((0, UInt), Rem, (0, UInt), Err(ZeroDivisor)),
    ((7, UInt), Rem, (UINT_MAX, UInt), Ok((7, UInt))),
    ((-7, Int), Rem, (2, UInt), Ok((1, UInt))),
    ((-128, SChar), Rem, (-1, SChar), Ok((0, Int))),
    ((-7, Long), Rem, (4, UInt), Ok((-3, Long))),
    ((ULONG_MAX, ULong), Rem, (10, Int), Ok((5, ULong))),
    ((-1, LLong), Rem, (10, ULong), Ok((5, ULLong))),
    ((-1, Long), Rem, (10, ULong), Ok((5, ULong))),
    ((-1, Int), Rem, (ULONG_MAX, ULLong), Ok((0, ULLong))),
];

static SHIFTS: [Binary; 45] = [
    ((1, Int), Shl, (31, Int), Ok((INT_MIN, Int))),
    ((1, Int), Shl, (30, Int), Ok((1073741824, Int))),
    ((3, Int), Shl, (31, Int), Ok((INT_MIN, Int))),
    ((2, Int), Shl, (31, Int), Ok((0, Int))),
    ((0, Int), Shl, (31, Int), Ok((0, Int))),
    ((5, Int), Shl, (0, UInt), Ok((5, Int))),
    ((-1, Int), Shl, (1, Int), Err(Overflow)),
    ((-1, Int), Shl, (0, Int), Err(Overflow)),
    ((-1, Short), Shl, (0, Int), Err(Overflow)),
    ((1, Int), Shl, (32, Int), Err(Shift)),
    ((1, Int), Shl, (-1, Int), Err(Shift)),
    // the count is tested first
    ((-1, Int), Shl, (32, Int), Err(Shift)),
    ((-1, Int), Shl, (-1, Int), Err(Shift)),
    ((1, UInt), Shl, (31, UInt), Ok((2147483648, UInt))),
    ((UINT_MAX, UInt), Shl, (1, Int), Ok((4294967294, UInt))),
    ((1, UInt), Shl, (32, Int), Err(Shift)),
    ((1, Char), Shl, (8, Char), Ok((256, Int))),
    ((1, Char), Shl, (31, Int), Ok((INT_MIN, Int))),
    ((255, UChar), Shl, (24, Int), Ok((-16777216, Int))),
    ((1, SChar), Shl, (32, Int), Err(Shift)),
    ((1, Bool), Shl, (1, Bool), Ok((2, Int))),
    // the kind is the left operand's
    ((1, Int), Shl, (31, Long), Ok((INT_MIN, Int))),
    ((1, Int), Shl, (32, Long), Err(Shift)),
    ((1, Int), Shl, (ULONG_MAX, ULong), Err(Shift)),
    ((1, Int), Shl, (LONG_MIN, LLong), Err(Shift)),
    ((1, Long), Shl, (63, Int), Ok((LONG_MIN, Long))),
    ((1, Long), Shl, (64, Int), Err(Shift)),
    ((-1, LLong), Shl, (0, Int), Err(Overflow)),
    (
        (ULONG_MAX, ULong),
        Shl,
        (63, Int),
        Ok((9223372036854775808, ULong)),
    ),
    (
        (1, ULLong),
        Shl,
        (63, ULLong),
        Ok((9223372036854775808, ULLong)),
    ),
    ((1, ULong), Shl, (-1, Char), Err(Shift)),
    ((-1, Int), Shr, (1, Int), Ok((-1, Int))),
    ((-7, Int), Shr, (1, Int), Ok((-4, Int))),
    ((7, Int), Shr, (1, Int), Ok((3, Int))),
    ((INT_MIN, Int), Shr, (31, Int), Ok((-1, Int))),
    ((1, Int), Shr, (32, Int), Err(Shift)),
    ((-1, Int), Shr, (-1, Int), Err(Shift)),
    ((UINT_MAX, UInt), Shr, (31, Int), Ok((1, UInt))),
    ((ULONG_MAX, ULong), Shr, (63, Int), Ok((1, ULong))),
    ((LONG_MIN, Long), Shr, (63, Int), Ok((-1, Long))),
    ((1, Long), Shr, (64, Int), Err(Shift)),
    ((255, UChar), Shr, (4, Int), Ok((15, Int))),
    ((-32768, Short), Shr, (15, Int), Ok((-1, Int))),
    ((1, Bool), Shr, (1, Bool), Ok((0, Int))),
    ((-9, LLong), Shr, (2, ULLong), Ok((-3, LLong))),
];

static BITS: [Binary; 23] = [
    ((-1, Int), And, (255, Int), Ok((255, Int))),
    ((-2, Int), And, (-3, Int), Ok((-4, Int))),
    ((INT_MIN, Int), And, (INT_MAX, Int), Ok((0, Int))),
    ((-1, Int), And, (4042322160, UInt), Ok((4042322160, UInt))),
    ((-1, Char), And, (255, UChar), Ok((255, Int))),
    ((1, Bool), And, (0, Bool), Ok((0, Int))),
    ((-1, Long), And, (UINT_MAX, UInt), Ok((UINT_MAX, Long))),
    (
        (-1, LLong),
        And,
        (ULONG_MAX, ULong),
        Ok((ULONG_MAX, ULLong)),
    ),
    (
        (ULONG_MAX, ULong),
        And,
        (-2, Int),
        Ok((18446744073709551614, ULong)),
    ),
    ((-8, Int), Or, (3, Int), Ok((-5, Int))),
    ((5, Int), Or, (10, Int), Ok((15, Int))),
    ((INT_MIN, Int), Or, (INT_MAX, Int), Ok((-1, Int))),
    ((0, UInt), Or, (-1, Int), Ok((UINT_MAX, UInt))),
    ((1, Long), Or, (-2, Int), Ok((-1, Long))),
    ((1, Bool), Or, (1, Bool), Ok((1, Int))),
    ((65280, UShort), Or, (255, UChar), Ok((65535, Int))),
    ((-1, Int), Xor, (0, Int), Ok((-1, Int))),
    ((-1, Int), Xor, (-1, Int), Ok((0, Int))),
    ((-6, Int), Xor, (3, Int), Ok((-7, Int))),
    ((UINT_MAX, UInt), Xor, (1, Int), Ok((4294967294, UInt))),
    ((LONG_MIN, Long), Xor, (-1, Long), Ok((LONG_MAX, Long))),
    ((0, LLong), Xor, (ULONG_MAX, ULong), Ok((ULONG_MAX, ULLong))),
    ((1, Bool), Xor, (1, Bool), Ok((0, Int))),
];

static COMPARISONS: [Binary; 32] = [
    ((-1, Int), Lt, (0, Int), Ok((1, Bool))),
    ((-1, Int), Lt, (0, UInt), Ok((0, Bool))),
    ((-1, Int), Gt, (0, UInt), Ok((1, Bool))),
    ((-1, Int), Le, (0, UInt), Ok((0, Bool))),
    ((0, UInt), Ge, (-1, Int), Ok((0, Bool))),
    ((-1, Int), Eq, (UINT_MAX, UInt), Ok((1, Bool))),
    ((-1, Int), Ne, (UINT_MAX, UInt), Ok((0, Bool))),
    ((-1, Int), Ne, (ULONG_MAX, ULong), Ok((0, Bool))),
    ((-1, Short), Lt, (0, UShort), Ok((1, Bool))),
    ((-1, Char), Eq, (255, UChar), Ok((0, Bool))),
    ((-128, SChar), Gt, (127, Char), Ok((0, Bool))),
    ((-1, Long), Lt, (0, UInt), Ok((1, Bool))),
    ((-1, Long), Lt, (0, ULong), Ok((0, Bool))),
    ((-1, LLong), Lt, (0, ULong), Ok((0, Bool))),
    ((-1, LLong), Lt, (0, Long), Ok((1, Bool))),
    ((-1, LLong), Eq, (ULONG_MAX, ULong), Ok((1, Bool))),
    ((ULONG_MAX, ULong), Gt, (-1, LLong), Ok((0, Bool))),
    ((-1, Long), Ge, (ULONG_MAX, ULLong), Ok((1, Bool))),
    ((UINT_MAX, Long), Eq, (UINT_MAX, UInt), Ok((1, Bool))),
    ((ULONG_MAX, ULLong), Ge, (ULONG_MAX, ULong), Ok((1, Bool))),
    ((LONG_MIN, Long), Lt, (LONG_MAX, Long), Ok((1, Bool))),
    ((3, Int), Eq, (3, Int), Ok((1, Bool))),
    ((3, Int), Ne, (3, Int), Ok((0, Bool))),
    ((3, Int), Lt, (3, Int), Ok((0, Bool))),
    ((3, Int), Le, (3, Int), Ok((1, Bool))),
    ((3, Int), Gt, (3, Int), Ok((0, Bool))),
    ((3, Int), Ge, (3, Int), Ok((1, Bool))),
    ((1, Bool), Eq, (1, Int), Ok((1, Bool))),
    ((1, Bool), Ne, (2, Int), Ok((1, Bool))),
    ((1, Bool), Lt, (0, Bool), Ok((0, Bool))),
    ((2, UInt), Gt, (1, UChar), Ok((1, Bool))),
    ((2, UInt), Le, (1, UChar), Ok((0, Bool))),
];

static UNARY: [Unary; 33] = [
    (Plus, (1, Bool), Ok((1, Int))),
    (Plus, (-128, Char), Ok((-128, Int))),
    (Plus, (255, UChar), Ok((255, Int))),
    (Plus, (65535, UShort), Ok((65535, Int))),
    (Plus, (UINT_MAX, UInt), Ok((UINT_MAX, UInt))),
    (Plus, (LONG_MIN, Long), Ok((LONG_MIN, Long))),
    (Minus, (5, Int), Ok((-5, Int))),
    (Minus, (INT_MIN, Int), Err(Overflow)),
    (Minus, (LONG_MIN, Long), Err(Overflow)),
    (Minus, (LONG_MIN, LLong), Err(Overflow)),
    (Minus, (-128, SChar), Ok((128, Int))),
    (Minus, (-32768, Short), Ok((32768, Int))),
    (Minus, (1, UChar), Ok((-1, Int))),
    (Minus, (1, Bool), Ok((-1, Int))),
    (Minus, (0, UInt), Ok((0, UInt))),
    (Minus, (1, UInt), Ok((UINT_MAX, UInt))),
    (Minus, (1, ULong), Ok((ULONG_MAX, ULong))),
    (Minus, (ULONG_MAX, ULLong), Ok((1, ULLong))),
    (Not, (0, Int), Ok((1, Bool))),
    (Not, (-5, Int), Ok((0, Bool))),
    (Not, (1, Bool), Ok((0, Bool))),
    (Not, (0, Bool), Ok((1, Bool))),
    (Not, (0, Char), Ok((1, Bool))),
    (Not, (4294967296, Long), Ok((0, Bool))),
    (Not, (18446744073709551614, ULong), Ok((0, Bool))),
    (Flip, (0, Int), Ok((-1, Int))),
    (Flip, (INT_MIN, Int), Ok((INT_MAX, Int))),
    (Flip, (0, UInt), Ok((UINT_MAX, UInt))),
    (Flip, (0, UChar), Ok((-1, Int))),
    (Flip, (255, UChar), Ok((-256, Int))),
    (Flip, (1, Bool), Ok((-2, Int))),
    (Flip, (-1, Long), Ok((0, Long))),
    (Flip, (1, ULong), Ok((18446744073709551614, ULong))),
];

static CONVERSIONS: [(Number, Number); 34] = [
    ((200, Int), (-56, SChar)),
    ((128, Int), (-128, SChar)),
    ((127, Int), (127, SChar)),
    ((-129, Int), (127, SChar)),
    ((255, UChar), (-1, Char)),
    ((-1, Char), (-1, Char)),
    ((-1, Int), (255, UChar)),
    ((256, Int), (0, UChar)),
    ((511, Int), (255, UChar)),
    ((0, Int), (0, Bool)),
    ((1, Int), (1, Bool)),
    ((2, Int), (1, Bool)),
    ((-1, Int), (1, Bool)),
    ((4294967296, Long), (1, Bool)),
    ((ULONG_MAX, ULLong), (1, Bool)),
    ((40000, Int), (-25536, Short)),
    ((65536, Int), (0, Short)),
    ((-1, Int), (65535, UShort)),
    ((UINT_MAX, UInt), (-1, Int)),
    ((2147483648, Long), (INT_MIN, Int)),
    ((4294967296, Long), (0, Int)),
    ((ULONG_MAX, ULLong), (-1, Int)),
    ((1, Bool), (1, Int)),
    ((-1, Int), (UINT_MAX, UInt)),
    ((-4294967297, Long), (UINT_MAX, UInt)),
    ((ULONG_MAX, ULong), (-1, Long)),
    ((9223372036854775808, ULong), (LONG_MIN, Long)),
    ((UINT_MAX, UInt), (UINT_MAX, Long)),
    ((-1, Int), (ULONG_MAX, ULong)),
    ((-128, SChar), (18446744073709551488, ULong)),
    ((ULONG_MAX, ULong), (-1, LLong)),
    ((INT_MIN, Int), (INT_MIN, LLong)),
    ((LONG_MIN, Long), (9223372036854775808, ULLong)),
    ((ULONG_MAX, ULong), (ULONG_MAX, ULLong)),
];

fn value(rt: &impl Abort, (num, kind): Number) -> Value {
    assert!(rt; kind.holds(num), "{num} is no {kind:?}");
    Value::new(kind, num)
}

fn number(value: Value) -> Number {
    (value.num(), value.kind())
}

// The kind that the rules for the kinds alone give is that of the value.
fn check(rt: &impl Abort, rows: &[Binary]) {
    for (left, op, right, want) in rows {
        let got = apply(*op, value(rt, *left), value(rt, *right)).map(number);
        assert_eq!(rt; got, *want, "{left:?} {op:?} {right:?}");
        if let Ok((_, kind)) = want {
            assert_eq!(rt;
                result_kind(*op, left.1, right.1),
                *kind,
                "{left:?} {op:?} {right:?}"
            );
        }
    }
}

#[test]
fn sums_differences_and_products(rt: HostRuntime) {
    check(&rt, &SUMS);
}

#[test]
fn quotients_and_remainders(rt: HostRuntime) {
    check(&rt, &QUOTIENTS);
}

#[test]
fn shifts_bits_and_comparisons(rt: HostRuntime) {
    check(&rt, &SHIFTS);
    check(&rt, &BITS);
    check(&rt, &COMPARISONS);
}

#[test]
fn one_operand(rt: HostRuntime) {
    for (op, operand, want) in &UNARY {
        let got = apply_one(*op, value(&rt, *operand)).map(number);
        assert_eq!(rt; got, *want, "{op:?} {operand:?}");
        if let Ok((_, kind)) = want {
            assert_eq!(rt;
                result_kind_one(*op, operand.1),
                *kind,
                "{op:?} {operand:?}"
            );
        }
    }
}

#[test]
fn conversions(rt: HostRuntime) {
    for (from, to) in &CONVERSIONS {
        let got = number(convert(to.1, value(&rt, *from)));
        assert_eq!(rt; got, *to, "{from:?}");
    }
}
