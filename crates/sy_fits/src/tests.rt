// Arguments and calls, by hand from the tables of SYCL 2020.

use super::*;
use std::test::Fail;
use sy_note::Spot;
use sy_num::Kind;
use sy_rules::{
    Constant, Denotes, Fit, Parameters, Passed, Row, Seen, SeenArgument, Signature, Wanted,
};
use sy_tree::{FunctionObject, LibraryFunction};
use sy_typed::{Dimensions, Thing};

fn seen(what: Thing) -> Seen {
    Seen {
        what: Some(what),
        first: Spot::START,
        denotes: Denotes::Place(false),
        constant: Constant::Varying,
        variable: Some(0),
        is_bare: true,
    }
}

fn one(what: Thing) -> [SeenArgument; 1] {
    [SeenArgument::Value(seen(what))]
}

const INT: Thing = Thing::Integer(Kind::Int);

#[test]
fn functions_take_arguments(rt: HostRuntime) -> Result<(), Fail> {
    let by_reference = Passed::Reference(Some(Thing::Queue), false);
    assert_eq!(rt; can_be_passed(by_reference, seen(Thing::Queue)), true);
    assert_eq!(rt;
        all_passed(
            &[by_reference, Passed::Integer],
            &[seen(Thing::Queue), seen(INT)]
        ),
        true
    );
    assert_eq!(rt; all_passed(&[by_reference], &[]), false);
    let parameters = Parameters::of(vec![in rt.alloc(); by_reference]?);
    let signature = Signature {
        is_main: false,
        returned: None,
        parameters,
    };
    assert_eq!(rt; takes_references(&signature), true);
    assert_eq!(rt; returned_type(None), Thing::Void);
    let plus = Thing::FunctionObject(FunctionObject::Plus, None);
    let combined = [
        SeenArgument::Value(seen(Thing::Group(Dimensions::One))),
        SeenArgument::Value(seen(INT)),
        SeenArgument::Value(seen(plus)),
    ];
    let row = library_row(LibraryFunction::ReduceOverGroup, &combined);
    assert_eq!(rt;
        row,
        Row {
            fit: Fit::Fits,
            gives: Some(INT)
        }
    );
    assert_eq!(rt; is_reduction_call(LibraryFunction::Reduction), true);
    assert_eq!(rt; integer_of(Some(Kind::Int)), Some(INT));
    assert_eq!(rt; is_const(Denotes::Place(true)), true);
    Ok(())
}

#[test]
fn types_have_sorts(rt: HostRuntime) -> Result<(), Fail> {
    assert_eq!(rt; is_of(Sort::Extent, Thing::NdRange(Dimensions::One)), true);
    let given = one(INT);
    assert_eq!(rt; may_be(Sort::Integer, &given[0]), true);
    assert_eq!(rt; type_in(&given[0]), Some(INT));
    assert_eq!(rt; is_lambda(&given[0]), false);
    assert_eq!(rt; same_kind(Kind::Long, Kind::LLong), false);
    assert_eq!(rt; same_dimensions(Dimensions::One, Dimensions::One), true);
    Ok(())
}

fn fitted(ask: u8) -> Fit {
    let integer = one(INT);
    let wanted = wanted_of(Some(Dimensions::Two));
    let range = Some(Thing::Range(Dimensions::Two));
    match ask {
        0 => both(dimension_if(true), element_if(false)),
        1 => arguments_if(all_integers(&integer)),
        2 => fit_dimensions(wanted, Dimensions::One),
        3 => fit_count(Wanted::Unwritten, 4),
        4 => fit_range_type(wanted, range),
        5 => fit_range(wanted, &integer[0]),
        6 => nothing_given(&integer),
        7 => one_given(Sort::Integer, &integer),
        8 => one_lambda(&integer),
        _ => row(Fit::Fits, INT).fit,
    }
}

#[test]
fn arguments_fit(rt: HostRuntime) -> Result<(), Fail> {
    for (ask, fit) in [
        (0, Fit::WrongElement),
        (1, Fit::Fits),
        (2, Fit::WrongDimension),
        (3, Fit::Fits),
        (4, Fit::Fits),
        (5, Fit::WrongArguments),
        (6, Fit::WrongArguments),
        (7, Fit::Fits),
        (8, Fit::WrongArguments),
        (9, Fit::Fits),
    ] {
        assert_eq!(rt; fitted(ask), fit);
    }
    Ok(())
}
