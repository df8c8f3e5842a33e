//! What the texts of words stand for.

ghost use Rattle.std.specs.Prelude.{◌≡◌};
ghost use Rattle.sy_reading.specs.Tables as spec;
ghost use Rattle.sy_tree.specs.Words as words;

use sy_num::{BinOp, Kind, UnOp};
use sy_tree::{
    AccessTag, AssignmentOperator, FunctionObject, LibraryFunction, ObjectType, Operator,
    Qualified, Step,
};

macro_rules! one_of {
    ($text:expr; $($word:literal => $value:expr),+) => {
        $(if $text == $word.as_slice() { Some($value) } else)+ { None }
    };
}

/// The operator with one operand that a mark is.
#[tactic(auto, unfolding(sy_reading::specs::Tables::unary_of))]
pub fn unary_of(text: &[u8]) -> Option<UnOp>
    ensures { result ≡ spec.unary_of text.now }
{
    one_of! {
        text;
        b"+" => UnOp::Plus,
        b"-" => UnOp::Minus,
        b"!" => UnOp::Not,
        b"~" => UnOp::Flip
    }
}

/// `++` or `--`.
#[tactic(auto, unfolding(sy_reading::specs::Tables::step_of))]
pub fn step_of(text: &[u8]) -> Option<Step>
    ensures { result ≡ spec.step_of text.now }
{
    one_of! {
        text;
        b"++" => Step::Increment,
        b"--" => Step::Decrement
    }
}

#[tactic(auto, unfolding(sy_reading::specs::Tables::arithmetic_of))]
fn arithmetic_of(text: &[u8]) -> Option<Operator>
    ensures { result ≡ spec.arithmetic_of text.now }
{
    one_of! {
        text;
        b"+" => Operator::Strict(BinOp::Add),
        b"-" => Operator::Strict(BinOp::Sub),
        b"*" => Operator::Strict(BinOp::Mul),
        b"/" => Operator::Strict(BinOp::Div),
        b"%" => Operator::Strict(BinOp::Rem)
    }
}

#[tactic(auto, unfolding(sy_reading::specs::Tables::comparison_of))]
fn comparison_of(text: &[u8]) -> Option<Operator>
    ensures { result ≡ spec.comparison_of text.now }
{
    one_of! {
        text;
        b"==" => Operator::Strict(BinOp::Eq),
        b"!=" => Operator::Strict(BinOp::Ne),
        b"<" => Operator::Strict(BinOp::Lt),
        b"<=" => Operator::Strict(BinOp::Le),
        b">" => Operator::Strict(BinOp::Gt),
        b">=" => Operator::Strict(BinOp::Ge)
    }
}

#[tactic(auto, unfolding(sy_reading::specs::Tables::bitwise_of))]
fn bitwise_of(text: &[u8]) -> Option<Operator>
    ensures { result ≡ spec.bitwise_of text.now }
{
    one_of! {
        text;
        b"|" => Operator::Strict(BinOp::Or),
        b"^" => Operator::Strict(BinOp::Xor),
        b"&" => Operator::Strict(BinOp::And),
        b"<<" => Operator::Strict(BinOp::Shl),
        b">>" => Operator::Strict(BinOp::Shr)
    }
}

#[tactic(auto, unfolding(sy_reading::specs::Tables::logical_of))]
fn logical_of(text: &[u8]) -> Option<Operator>
    ensures { result ≡ spec.logical_of text.now }
{
    one_of! {
        text;
        b"||" => Operator::LogicalOr,
        b"&&" => Operator::LogicalAnd
    }
}

/// The assignment that a mark is.
#[tactic(auto, unfolding(sy_reading::specs::Tables::assignment_of))]
pub fn assignment_of(text: &[u8]) -> Option<AssignmentOperator>
    ensures { result ≡ spec.assignment_of text.now }
{
    one_of! {
        text;
        b"=" => AssignmentOperator::Assign,
        b"+=" => AssignmentOperator::Add,
        b"-=" => AssignmentOperator::Sub,
        b"*=" => AssignmentOperator::Mul,
        b"/=" => AssignmentOperator::Div,
        b"%=" => AssignmentOperator::Rem,
        b"&=" => AssignmentOperator::And,
        b"|=" => AssignmentOperator::Or,
        b"^=" => AssignmentOperator::Xor,
        b"<<=" => AssignmentOperator::Shl,
        b">>=" => AssignmentOperator::Shr
    }
}

#[tactic(auto, unfolding(sy_reading::specs::Tables::fixed_width_of))]
fn fixed_width_of(text: &[u8]) -> Option<Kind>
    ensures { result ≡ spec.fixed_width_of text.now }
{
    one_of! {
        text;
        b"int8_t" => Kind::SChar,
        b"uint8_t" => Kind::UChar,
        b"int16_t" => Kind::Short,
        b"uint16_t" => Kind::UShort,
        b"int32_t" => Kind::Int,
        b"uint32_t" => Kind::UInt,
        b"int64_t" => Kind::Long,
        b"uint64_t" => Kind::ULong,
        b"size_t" => Kind::ULong
    }
}

#[tactic(auto, unfolding(sy_reading::specs::Tables::keyword_of))]
fn keyword_of(text: &[u8]) -> Option<Kind>
    ensures { result ≡ spec.keyword_of text.now }
{
    one_of! {
        text;
        b"int" => Kind::Int,
        b"bool" => Kind::Bool,
        b"char" => Kind::Char,
        b"signed" => Kind::Int,
        b"unsigned" => Kind::UInt,
        b"short" => Kind::Short,
        b"long" => Kind::Long
    }
}

/// The access tag of that name.
#[tactic(auto, unfolding(sy_reading::specs::Tables::tag_of))]
pub fn tag_of(text: &[u8]) -> Option<AccessTag>
    ensures { result ≡ spec.tag_of text.now }
{
    one_of! {
        text;
        b"read_only" => AccessTag::ReadOnly,
        b"write_only" => AccessTag::WriteOnly,
        b"read_write" => AccessTag::ReadWrite,
        b"no_init" => AccessTag::NoInit
    }
}

/// The function object of that name.
#[tactic(auto, unfolding(sy_reading::specs::Tables::object_of))]
pub fn object_of(text: &[u8]) -> Option<FunctionObject>
    ensures { result ≡ spec.object_of text.now }
{
    one_of! {
        text;
        b"plus" => FunctionObject::Plus,
        b"multiplies" => FunctionObject::Multiplies,
        b"minimum" => FunctionObject::Minimum,
        b"maximum" => FunctionObject::Maximum,
        b"bit_and" => FunctionObject::BitAnd,
        b"bit_or" => FunctionObject::BitOr,
        b"bit_xor" => FunctionObject::BitXor
    }
}

/// The function with a value of that name.
#[tactic(auto, unfolding(sy_reading::specs::Tables::function_of))]
pub fn function_of(text: &[u8]) -> Option<LibraryFunction>
    ensures { result ≡ spec.function_of text.now }
{
    one_of! {
        text;
        b"reduction" => LibraryFunction::Reduction,
        b"reduce_over_group" => LibraryFunction::ReduceOverGroup,
        b"exclusive_scan_over_group" => LibraryFunction::ExclusiveScanOverGroup,
        b"inclusive_scan_over_group" => LibraryFunction::InclusiveScanOverGroup,
        b"group_broadcast" => LibraryFunction::GroupBroadcast
    }
}

/// The type without template arguments of that name.
#[tactic(auto, unfolding(sy_reading::specs::Tables::plain_object_of))]
pub fn plain_object_of(name: Qualified, text: &[u8]) -> Option<ObjectType>
    ensures { result ≡ spec.plain_object_of name text.now }
{
    one_of! {
        text;
        b"queue" => ObjectType::Queue(name),
        b"device" => ObjectType::Device(name),
        b"context" => ObjectType::Context(name),
        b"event" => ObjectType::Event(name),
        b"accessor" => ObjectType::Accessor(name),
        b"host_accessor" => ObjectType::HostAccessor(name)
    }
}

/// The operator with two operands that a mark is.
#[tactic(auto, unfolding(sy_reading::specs::Tables::operator_of))]
pub fn operator_of(text: &[u8]) -> Option<Operator>
    ensures { result ≡ spec.operator_of text.now }
{
    arithmetic_of(text).or(comparison_of(text).or(bitwise_of(text).or(logical_of(text))))
}

/// The type that one word is.
#[tactic(auto, unfolding(sy_reading::specs::Tables::one_word_of))]
pub fn one_word_of(text: &[u8]) -> Option<Kind>
    ensures { result ≡ spec.one_word_of text.now }
{
    keyword_of(text).or(fixed_width_of(text))
}

/// How tightly an operator binds its operands.
pub fn level(operator: Operator) -> u8
    ensures { result ≡ words.level operator }
{
    match operator {
        Operator::LogicalOr => 2,
        Operator::LogicalAnd => 3,
        Operator::Strict(strict) => match strict {
            BinOp::Or => 4,
            BinOp::Xor => 5,
            BinOp::And => 6,
            BinOp::Eq | BinOp::Ne => 7,
            BinOp::Lt | BinOp::Le | BinOp::Gt | BinOp::Ge => 8,
            BinOp::Shl | BinOp::Shr => 9,
            BinOp::Add | BinOp::Sub => 10,
            BinOp::Mul | BinOp::Div | BinOp::Rem => 11,
        },
    }
}

/// Whether a member may have a template argument.
pub fn takes_template_argument(text: &[u8]) -> bool
    ensures { result ≡ words.takes_template_argument text.now }
{
    text == b"get_info".as_slice()
        || text == b"create_sub_devices".as_slice()
        || text == b"single_task".as_slice()
        || text == b"parallel_for".as_slice()
}
