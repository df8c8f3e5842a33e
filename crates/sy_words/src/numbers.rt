// Numbers with their kinds, and their conversions (C++17, "Integral conversions", "Boolean conversions").

ghost use Rattle.std.specs.Prelude.{◌≡◌};
ghost use Rattle.std.specs.Int.{int_rem_euclid};
ghost use Rattle.sy_num.specs.Kinds.{InRange};
ghost use Rattle.sy_num.specs.Scalars.{scalar, modulus, reduced, converted_num, converted};
ghost use Rattle.sy_num.specs.Operators.{truth};
ghost use Rattle.sy_work.specs.Reductions.{identity};
ghost use Rattle.sy_meaning.specs.Expressions.{one};

use std::marker::Model;
use sy_num::Kind;
use sy_work::RedOp;

/// A number with its kind, in whose range it needn't be.
#[derive(Clone, Copy)]
pub struct Word {
    pub kind: Kind,
    pub num: i128,
}

impl Model for Word {
    ghost use Rattle.sy_num.specs.Scalars.{Scalar};

    ghost Value = { Scalar };

    ghost view = { λ w. record { kind = w.kind; num = w.num } };

    ghost inverse = { λ s. record { kind = s.kind; num = s.num } };
}

// 2^N.
fn modulus(kind: Kind) -> i128
    ensures { result ≡ modulus kind }
{
    1i128 << kind.bits()
}

// The low N bits.
fn low_bits(kind: Kind, num: i128) -> i128
    ensures { result ≡ int_rem_euclid num (modulus kind) }
{
    num & (modulus(kind) - 1)
}

/// The number of the kind's range that equals `num` modulo 2^N.
pub fn reduced(kind: Kind, num: i128) -> i128
    ensures value { result ≡ reduced kind num }
    ensures in_range { InRange kind result }
{
    let low_bits = low_bits(kind, num);
    if low_bits <= kind.greatest() {
        low_bits
    } else {
        low_bits - modulus(kind)
    }
}

/// The number of the kind that `num` is converted to: to `Bool` 0 for 0 and 1 else, to any other kind modulo 2^N.
#[tactic(auto, unfolding(sy_num::specs::Scalars::converted_num))]
pub fn converted_num(kind: Kind, num: i128) -> i128
    ensures value { result ≡ converted_num kind num }
    ensures in_range { InRange kind result }
{
    match kind {
        Kind::Bool => { if num == 0 { 0 } else { 1 } }
        _ => reduced(kind, num),
    }
}

/// The word converted to a kind.
pub fn convert(kind: Kind, word: Word) -> Word
    ensures { result ≡ converted kind word }
{
    Word {
        kind,
        num: converted_num(kind, word.num),
    }
}

/// What a comparison answers.
pub fn truth(holds: bool) -> Word
    ensures { result ≡ truth holds }
{
    Word {
        kind: Kind::Bool,
        num: if holds { 1 } else { 0 },
    }
}

/// What `++` and `--` add and subtract.
pub fn one() -> Word
    ensures { result ≡ one }
{
    Word {
        kind: Kind::Int,
        num: 1,
    }
}

/// The number that changes no other under an operator of reductions.
pub fn identity(op: RedOp, kind: Kind) -> i128
    ensures { result ≡ identity op kind }
{
    match op {
        RedOp::Plus => 0,
        RedOp::Times => 1,
        RedOp::Min => kind.greatest(),
        RedOp::Max => kind.least(),
        RedOp::And => converted_num(kind, -1),
        RedOp::Or => 0,
        RedOp::Xor => 0,
    }
}
