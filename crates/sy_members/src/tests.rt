// Rows of members, by hand from the tables of SYCL 2020.

use super::*;
use std::test::Fail;
use sy_note::Spot;
use sy_num::Kind;
use sy_rules::{Constant, Denotes, KernelIndex, Role, Row, Seen, SeenArgument};
use sy_typed::{Dimensions, ErrorName, Member, Thing};

fn seen(what: Thing) -> Seen {
    Seen {
        what: Some(what),
        first: Spot::START,
        denotes: Denotes::Place(false),
        constant: Constant::Varying,
        variable: Some(0),
        is_bare: true,
    }
}

fn one(what: Thing) -> [SeenArgument; 1] {
    [SeenArgument::Value(seen(what))]
}

const BUFFER: Thing = Thing::Buffer(Kind::Int, Dimensions::Two);

const MEMBERS: [(Thing, Member, Option<Thing>); 6] = [
    (Thing::Queue, Member::GetDevice, Some(Thing::Device)),
    (Thing::Queue, Member::Size, None),
    (
        BUFFER,
        Member::GetRange,
        Some(Thing::Range(Dimensions::Two)),
    ),
    (
        Thing::Vector(Kind::Int),
        Member::Data,
        Some(Thing::Data(Kind::Int)),
    ),
    (
        Thing::NdItem(Dimensions::One),
        Member::GetGroup,
        Some(Thing::Group(Dimensions::One)),
    ),
    (Thing::Exception, Member::Code, Some(Thing::ErrorCode)),
];

fn given(row: Option<Row>) -> Option<Thing> {
    match row {
        Some(row) => row.gives,
        None => None,
    }
}

#[test]
fn members_have_rows(rt: HostRuntime) -> Result<(), Fail> {
    for (object, member, gives) in MEMBERS {
        assert_eq!(rt;
            given(row_with(&None, member, member_row(object, member, &[]))),
            gives
        );
    }
    let role = member_role(
        Thing::Handler,
        0,
        Member::ParallelFor,
        &one(Thing::Range(Dimensions::One)),
    );
    assert_eq!(rt;
        role,
        Some(Role::Kernel(KernelIndex::OverRange(Dimensions::One), None))
    );
    assert_eq!(rt; has_its_words(Member::MaxComputeUnits, &None), false);
    Ok(())
}

const WORDS: [(&'static [u8], Option<Member>); 5] = [
    (b"submit", Some(Member::Submit)),
    (b"size", Some(Member::Size)),
    (b"get_group_linear_id", Some(Member::GetGroupLinearId)),
    (b"combine", Some(Member::Combine)),
    (b"sizes", None),
];

#[test]
fn words_are_found(rt: HostRuntime) -> Result<(), Fail> {
    for (text, member) in WORDS {
        assert_eq!(rt; member_named(text), member);
    }
    assert_eq!(rt; error_named(b"invalid"), Some(ErrorName::Invalid));
    assert_eq!(rt; error_named(b"valid"), None);
    Ok(())
}
