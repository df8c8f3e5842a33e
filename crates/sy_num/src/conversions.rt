// The conversion of a value to a kind.

ghost use Rattle.std.specs.Prelude.{◌≡◌};
ghost use Rattle.std.specs.Int.{int_rem_euclid};
ghost use Rattle.sy_num.specs.Kinds.{InRange};
ghost use Rattle.sy_num.specs.Scalars.{modulus, reduced, converted_num, converted};

use crate::{Kind, Value};

/// The value that `value` is converted to: to `Bool` 0 for 0 and 1 else, to any other kind modulo 2^N
/// (C++17, "Integral conversions", "Boolean conversions").
pub fn convert(kind: Kind, value: Value) -> Value
    ensures { result ≡ converted kind value }
{
    Value {
        kind,
        num: converted_num(kind, value.num),
    }
}

#[tactic(auto, unfolding(crate::specs::Scalars::converted_num))]
pub(crate) fn converted_num(kind: Kind, num: i128) -> i128
    ensures value { result ≡ converted_num kind num }
    ensures in_range { InRange kind result }
{
    match kind {
        Kind::Bool => { if num == 0 { 0 } else { 1 } }
        _ => reduced(kind, num),
    }
}

// The number of the kind's range that equals `num` modulo 2^N: its low N bits, the highest of which
// counts negative where the kind is signed.
pub(crate) fn reduced(kind: Kind, num: i128) -> i128
    ensures value { result ≡ reduced kind num }
    ensures in_range { InRange kind result }
{
    let low_bits = low_bits(kind, num);
    if low_bits <= kind.greatest() {
        low_bits
    } else {
        low_bits - modulus(kind)
    }
}

// The low N bits.
fn low_bits(kind: Kind, num: i128) -> i128
    ensures { result ≡ int_rem_euclid num (modulus kind) }
{
    num & (modulus(kind) - 1)
}

// 2^N.
fn modulus(kind: Kind) -> i128
    ensures { result ≡ modulus kind }
{
    1i128 << kind.bits()
}
