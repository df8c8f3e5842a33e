// Rows of objects, by hand from the tables of SYCL 2020.

use super::*;
use std::test::Fail;
use sy_access::Mode;
use sy_note::Spot;
use sy_num::Kind;
use sy_rules::{Constant, Denotes, Fit, Row, Seen, SeenArgument, SeenInitializer, Taken, Within};
use sy_tree::{ObjectType, Qualified};
use sy_typed::{Dimensions, Thing};

fn seen(what: Thing) -> Seen {
    Seen {
        what: Some(what),
        first: Spot::START,
        denotes: Denotes::Place(false),
        constant: Constant::Varying,
        variable: Some(0),
        is_bare: true,
    }
}

fn one(what: Thing) -> [SeenArgument; 1] {
    [SeenArgument::Value(seen(what))]
}

fn two(a: Thing, b: Thing) -> [SeenArgument; 2] {
    [SeenArgument::Value(seen(a)), SeenArgument::Value(seen(b))]
}

const INT: Thing = Thing::Integer(Kind::Int);

const BUFFER: Thing = Thing::Buffer(Kind::Int, Dimensions::Two);

const PLACE: Qualified = Qualified {
    namespace: Spot { line: 1, column: 2 },
    name: Spot { line: 1, column: 8 },
};

#[test]
fn objects_have_rows(rt: HostRuntime) -> Result<(), Fail> {
    let made = object_row(&ObjectType::Queue(PLACE), &one(Thing::Device));
    assert_eq!(rt;
        made,
        Row {
            fit: Fit::Fits,
            gives: Some(Thing::Queue)
        }
    );
    let made = object_row(&ObjectType::Queue(PLACE), &one(INT));
    assert_eq!(rt; made.fit, Fit::WrongArguments);
    let made = object_row(&ObjectType::Range(PLACE, None), &two(INT, INT));
    assert_eq!(rt; made.gives, Some(Thing::Range(Dimensions::Two)));
    let made = object_row(
        &ObjectType::Buffer(PLACE, None),
        &one(Thing::Vector(Kind::Char)),
    );
    assert_eq!(rt;
        made.gives,
        Some(Thing::Buffer(Kind::Char, Dimensions::One))
    );
    let accessor = object_row(&ObjectType::Accessor(PLACE), &two(BUFFER, Thing::Handler));
    assert_eq!(rt;
        accessor.gives,
        Some(Thing::Accessor(Kind::Int, Dimensions::Two, Mode::ReadWrite))
    );
    assert_eq!(rt; type_start(&ObjectType::Queue(PLACE)), PLACE.namespace);
    assert_eq!(rt; type_word(&ObjectType::Queue(PLACE)), PLACE.name);
    assert_eq!(rt; made_in_host(&ObjectType::Accessor(PLACE)), false);
    assert_eq!(rt;
        is_made_in(Within::Kernel, &ObjectType::Id(PLACE, None)),
        true
    );
    Ok(())
}

#[test]
fn initializers_have_rows(rt: HostRuntime) -> Result<(), Fail> {
    let event = Some(SeenInitializer::Copy(Seen {
        variable: None,
        ..seen(Thing::Event)
    }));
    assert_eq!(rt; is_submitted(&event), true);
    assert_eq!(rt; fit_device_vector(&event), Fit::WrongArguments);
    assert_eq!(rt; fit_vector(Kind::Int, &None), Fit::Fits);
    assert_eq!(rt; fit_vector(Kind::Bool, &None), Fit::WrongArguments);
    let made = initialized_row(&ObjectType::Device(PLACE), &event);
    assert_eq!(rt; made.fit, Fit::WrongArguments);
    Ok(())
}

#[test]
fn places_forbid_objects(rt: HostRuntime) -> Result<(), Fail> {
    assert_eq!(rt;
        foreign_to(Within::Kernel, Taken::Nothing, Thing::Queue),
        true
    );
    assert_eq!(rt; foreign_to(Within::Group, Taken::Source, BUFFER), false);
    assert_eq!(rt; is_accessor(BUFFER), false);
    Ok(())
}
