// The integer types: rank, width, range, and the kinds that operands are converted to.

ghost use Rattle.std.specs.Prelude.{◌≡◌, ◌*◌, ◌^◌, ◌≤◌, IsTrue, ◌↔◌};
ghost use Rattle.sy_num.specs.Kinds.{rank, bits, is_signed, unsigned_of, least, greatest, InRange, is_in_range, represents_all, promoted, greater_rank, mixed, common_kind};

use crate::Kind;

impl Kind {
    /// The integer conversion rank (C++17, "Integer conversion rank").
    pub fn rank(self) -> u8
        ensures { result ≡ rank self }
    {
        match self {
            Kind::Bool => 0,
            Kind::Char | Kind::SChar | Kind::UChar => 1,
            Kind::Short | Kind::UShort => 2,
            Kind::Int | Kind::UInt => 3,
            Kind::Long | Kind::ULong => 4,
            Kind::LLong | Kind::ULLong => 5,
        }
    }

    /// The width in bits.
    pub fn bits(self) -> u32
        ensures { result ≡ bits self }
    {
        match self {
            Kind::Bool => 1,
            Kind::Char | Kind::SChar | Kind::UChar => 8,
            Kind::Short | Kind::UShort => 16,
            Kind::Int | Kind::UInt => 32,
            Kind::Long | Kind::ULong | Kind::LLong | Kind::ULLong => 64,
        }
    }

    pub fn is_signed(self) -> bool
        ensures { result ≡ is_signed self }
    {
        match self {
            Kind::Char | Kind::SChar | Kind::Short | Kind::Int | Kind::Long | Kind::LLong => true,
            Kind::Bool | Kind::UChar | Kind::UShort | Kind::UInt | Kind::ULong | Kind::ULLong =>
                false,
        }
    }

    /// The unsigned kind of the same rank.
    pub fn to_unsigned(self) -> Kind
        ensures { result ≡ unsigned_of self }
    {
        match self {
            Kind::Char | Kind::SChar => Kind::UChar,
            Kind::Short => Kind::UShort,
            Kind::Int => Kind::UInt,
            Kind::Long => Kind::ULong,
            Kind::LLong => Kind::ULLong,
            Kind::Bool | Kind::UChar | Kind::UShort | Kind::UInt | Kind::ULong | Kind::ULLong =>
                self,
        }
    }

    /// The least value.
    pub fn least(self) -> i128
        ensures { result ≡ least self }
    {
        match self {
            Kind::Char | Kind::SChar => i8::MIN as i128,
            Kind::Short => i16::MIN as i128,
            Kind::Int => i32::MIN as i128,
            Kind::Long | Kind::LLong => i64::MIN as i128,
            Kind::Bool | Kind::UChar | Kind::UShort | Kind::UInt | Kind::ULong | Kind::ULLong => 0,
        }
    }

    /// The greatest value.
    pub fn greatest(self) -> i128
        ensures { result ≡ greatest self }
    {
        match self {
            Kind::Bool => 1,
            Kind::Char | Kind::SChar => i8::MAX as i128,
            Kind::UChar => u8::MAX as i128,
            Kind::Short => i16::MAX as i128,
            Kind::UShort => u16::MAX as i128,
            Kind::Int => i32::MAX as i128,
            Kind::UInt => u32::MAX as i128,
            Kind::Long | Kind::LLong => i64::MAX as i128,
            Kind::ULong | Kind::ULLong => u64::MAX as i128,
        }
    }

    /// Whether the number is in the kind's range.
    pub fn holds(self, num: i128) -> bool
        ensures value { result ≡ is_in_range self num }
        ensures in_range { IsTrue result ↔ InRange self num }
    {
        self.least() <= num && num <= self.greatest()
    }

    /// Whether this kind can represent all values of the other.
    fn represents_all(self, other: Kind) -> bool
        ensures { result ≡ represents_all self other }
    {
        self.least() <= other.least() && other.greatest() <= self.greatest()
    }

    /// The kind after the integral promotions (C++17, "Integral promotions").
    pub fn promoted(self) -> Kind
        ensures { result ≡ promoted self }
    {
        match self {
            Kind::Bool | Kind::Char | Kind::SChar | Kind::UChar | Kind::Short | Kind::UShort =>
                Kind::Int,
            Kind::Int | Kind::UInt | Kind::Long | Kind::ULong | Kind::LLong | Kind::ULLong => self,
        }
    }
}

/// The kind to which the usual arithmetic conversions bring both operands (C++17, "Expressions"
/// paragraph 11).
#[tactic(auto, unfolding(crate::specs::Kinds::common_kind))]
pub fn common_kind(left: Kind, right: Kind) -> Kind
    ensures { result ≡ common_kind left right }
{
    let (left, right) = (left.promoted(), right.promoted());
    match (left.is_signed(), right.is_signed()) {
        (true, true) | (false, false) => greater_rank(left, right),
        (true, false) => mixed(left, right),
        (false, true) => mixed(right, left),
    }
}

// The kind of greater rank, of two that are both signed or both unsigned.
fn greater_rank(left: Kind, right: Kind) -> Kind
    ensures { result ≡ greater_rank left right }
{
    if left.rank() < right.rank() {
        right
    } else {
        left
    }
}

// The common kind of a signed and an unsigned one.
fn mixed(signed: Kind, unsigned: Kind) -> Kind
    ensures { result ≡ mixed signed unsigned }
{
    if signed.rank() <= unsigned.rank() {
        unsigned
    } else if signed.represents_all(unsigned) {
        signed
    } else {
        signed.to_unsigned()
    }
}
