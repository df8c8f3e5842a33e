// The operators on words. Each converts its operands first, so that it doesn't matter whether they are in the range of
// their kinds.

ghost use Rattle.std.specs.Prelude.{◌≡◌};
ghost use Rattle.sy_num.specs.Scalars.{scalar, converted_num};
ghost use Rattle.sy_num.specs.Operators.{applied, applied_one};
ghost use Rattle.sy_work.specs.Reductions.{combined, to_kind};
ghost use Rattle.sy_words.specs.Operands.{left_kind, right_kind, operand_kind};

use crate::numbers::{Word, convert, converted_num};
use sy_num::{BinOp, Kind, UnOp, Undefined, Value, apply, apply_one, common_kind};
use sy_work::RedOp;

fn operand(kind: Kind, num: i128) -> Value
    ensures { result ≡ scalar kind (converted_num kind num) }
{
    let number = converted_num(kind, num);
    Value::new(kind, number)
}

fn word_of(value: Value) -> Word
    ensures { result ≡ value }
{
    Word {
        kind: value.kind(),
        num: value.num(),
    }
}

fn worded(value: Result<Value, Undefined>) -> Result<Word, Undefined>
    ensures { result ≡ value }
{
    match value {
        Ok(number) => Ok(word_of(number)),
        Err(why) => Err(why),
    }
}

fn left_kind(op: BinOp, left: Kind, right: Kind) -> Kind
    ensures { result ≡ left_kind op left right }
{
    match op {
        BinOp::Shl => left.promoted(),
        BinOp::Shr => left.promoted(),
        _ => common_kind(left, right),
    }
}

fn right_kind(op: BinOp, left: Kind, right: Kind) -> Kind
    ensures { result ≡ right_kind op left right }
{
    match op {
        BinOp::Shl => right.promoted(),
        BinOp::Shr => right.promoted(),
        _ => common_kind(left, right),
    }
}

fn operand_kind(op: UnOp, kind: Kind) -> Kind
    ensures { result ≡ operand_kind op kind }
{
    match op {
        UnOp::Not => Kind::Bool,
        _ => kind.promoted(),
    }
}

fn apply_to(op: BinOp, j: Kind, left: i128, k: Kind, right: i128) -> Result<Word, Undefined>
    ensures { result ≡ applied op (scalar j left) (scalar k right) }
{
    let x = operand(left_kind(op, j, k), left);
    let y = operand(right_kind(op, j, k), right);
    worded(apply(op, x, y))
}

/// The value of an operator with two operands, or why it has none (C++17, "Multiplicative operators" to "Bitwise
/// inclusive OR operator").
pub fn applied(op: BinOp, left: Word, right: Word) -> Result<Word, Undefined>
    ensures { result ≡ applied op left right }
{
    apply_to(op, left.kind, left.num, right.kind, right.num)
}

fn apply_one_to(op: UnOp, kind: Kind, num: i128) -> Result<Word, Undefined>
    ensures { result ≡ applied_one op (scalar kind num) }
{
    let x = operand(operand_kind(op, kind), num);
    worded(apply_one(op, x))
}

/// The value of an operator with one operand, or why it has none (C++17, "Unary operators").
pub fn applied_one(op: UnOp, word: Word) -> Result<Word, Undefined>
    ensures { result ≡ applied_one op word }
{
    apply_one_to(op, word.kind, word.num)
}

fn to_kind(kind: Kind, value: Result<Word, Undefined>) -> Result<Word, Undefined>
    ensures { result ≡ to_kind kind value }
{
    match value {
        Ok(word) => Ok(convert(kind, word)),
        Err(why) => Err(why),
    }
}

/// What an operator of reductions makes of two words, as a word of the kind (SYCL 2020, "Function objects").
pub fn combined(op: RedOp, kind: Kind, a: Word, x: Word) -> Result<Word, Undefined>
    ensures { result ≡ combined op kind a x }
{
    match op {
        RedOp::Plus => to_kind(kind, applied(BinOp::Add, a, x)),
        RedOp::Times => to_kind(kind, applied(BinOp::Mul, a, x)),
        RedOp::Min => { if a.num <= x.num { Ok(a) } else { Ok(x) } }
        RedOp::Max => { if x.num <= a.num { Ok(a) } else { Ok(x) } }
        RedOp::And => to_kind(kind, applied(BinOp::And, a, x)),
        RedOp::Or => to_kind(kind, applied(BinOp::Or, a, x)),
        RedOp::Xor => to_kind(kind, applied(BinOp::Xor, a, x)),
    }
}
