//! What the place of a part takes beyond what any place takes.

ghost use Rattle.std.specs.Prelude.{◌≡◌};
ghost use Rattle.sy_rules.specs.ExprRules.{is_equality};
ghost use Rattle.sy_rules.specs.Walk.{taken_by_object, taken_by_library, taken_by_member, taken_before_member, taken_inside, taken_beside, taken_as};

use sy_num::BinOp;
use sy_rules::Taken;
use sy_tree::{LibraryFunction, ObjectType, Operator};
use sy_typed::Member;

/// An argument of an object.
pub fn taken_by_object(t: &ObjectType) -> Taken
    ensures { result ≡ taken_by_object t.now }
{
    match t {
        ObjectType::Buffer(_, _) => Taken::Data,
        ObjectType::Accessor(_) => Taken::Source,
        ObjectType::HostAccessor(_) => Taken::Source,
        _ => Taken::Nothing,
    }
}

/// An argument of a function of the library.
pub fn taken_by_library(function: LibraryFunction) -> Taken
    ensures { result ≡ taken_by_library function }
{
    match function {
        LibraryFunction::Reduction => Taken::Source,
        _ => Taken::Nothing,
    }
}

/// An argument of a member.
pub fn taken_by_member(member: Option<Member>) -> Taken
    ensures { result ≡ taken_by_member member }
{
    match member {
        Some(Member::DependsOn) => Taken::Dependency,
        _ => Taken::Nothing,
    }
}

/// The object of a member, whose call stands where `taken` is taken.
pub fn taken_before_member(taken: Taken, member: Option<Member>) -> Taken
    ensures { result ≡ taken_before_member taken member }
{
    match member {
        Some(Member::Combine) => match taken {
            Taken::Statement => Taken::Reducer,
            _ => Taken::Nothing,
        },
        Some(Member::GetRange) => Taken::Source,
        Some(Member::Size) => Taken::Source,
        _ => Taken::Nothing,
    }
}

/// What stands in parentheses.
pub fn taken_inside(taken: Taken) -> Taken
    ensures { result ≡ taken_inside taken }
{
    match taken {
        Taken::Compared => taken,
        Taken::Dependency => taken,
        Taken::Source => taken,
        _ => Taken::Nothing,
    }
}

/// `==` or `!=`.
pub fn is_equality(op: Operator) -> bool
    ensures { result ≡ is_equality op }
{
    match op {
        Operator::Strict(BinOp::Eq) => true,
        Operator::Strict(BinOp::Ne) => true,
        _ => false,
    }
}

/// An operand of the operator.
pub fn taken_beside(op: Operator) -> Taken
    ensures { result ≡ taken_beside op }
{
    if is_equality(op) {
        Taken::Compared
    } else {
        Taken::Nothing
    }
}

/// A full expression that takes this where it stands as a statement.
pub fn taken_as(taken: Taken, stands: bool) -> Taken
    ensures { result ≡ taken_as taken stands }
{
    if stands { taken } else { Taken::Nothing }
}
