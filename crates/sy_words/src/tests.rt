// Each function on a worked case.

use crate::{
    Word, accessor_extents, accessor_first, accessor_owner, applied, applied_one, as_thing,
    as_truth, assignment_operator, bound, buffer_extents, buffer_first, buffer_number, buffer_root,
    cause_of, combined, context_device, context_place, convert, converted_to, copy_of, count_of,
    device_at, device_count, device_words, element_index, element_of, element_vector, error_object,
    error_of, extents_of, finish_of, global_extents, identity, indexes, is_zero, local_extents,
    nothing, object_from, of_natural, of_naturals, of_word, one, queue_device, queue_number,
    range_in, reduction_index, reduction_keeps, scalar_of, step_operator, taken_as, truth,
    unsigned_long, width, zero_of,
};
use std::alloc::{AllocError, Global};
use sy_access::{Device, Values};
use sy_meaning::{Area, Location};
use sy_num::{BinOp, Kind, UnOp, Undefined};
use sy_tree::{AssignmentOperator, Step};
use sy_typed::{Dimensions, ErrorName, Thing};
use sy_work::{Cause, RedOp};

fn is(made: Result<Values, AllocError>, wanted: &[i128]) -> bool {
    match made {
        Ok(object) => object.items() == wanted,
        Err(_) => false,
    }
}

fn are(made: Result<Vec<u64>, AllocError>, wanted: &[u64]) -> bool {
    match made {
        Ok(numbers) => numbers.as_slice() == wanted,
        Err(_) => false,
    }
}

fn comes_to(value: Result<Word, Undefined>, wanted: i128) -> bool {
    match value {
        Ok(word) => word.num == wanted,
        Err(_) => false,
    }
}

const INT: Word = Word {
    kind: Kind::Int,
    num: 2147483647,
};

const LONG_IN_CHAR: Word = Word {
    kind: Kind::Char,
    num: 300,
};

#[test]
fn operators_convert_words(rt: HostRuntime) {
    assert!(rt; matches!(applied(BinOp::Add, INT, one()), Err(Undefined::Overflow)));
    assert!(rt; comes_to(applied(BinOp::Mul, LONG_IN_CHAR, one()), 300));
    assert!(rt;
        matches!(
            applied(BinOp::Shl, one(), LONG_IN_CHAR),
            Err(Undefined::Shift)
        )
    );
    assert!(rt; comes_to(applied_one(UnOp::Not, LONG_IN_CHAR), 0));
    assert!(rt; comes_to(combined(RedOp::Min, Kind::Int, INT, one()), 1));
    assert!(rt; convert(Kind::Char, LONG_IN_CHAR).num == 44);
    assert!(rt; identity(RedOp::And, Kind::UChar) == 255);
    assert!(rt; truth(true).num == 1);
    assert!(rt; matches!(cause_of(Undefined::Shift), Cause::Shift));
    assert!(rt;
        matches!(
            assignment_operator(AssignmentOperator::Shl),
            Some(BinOp::Shl)
        )
    );
    assert!(rt; matches!(step_operator(Step::Decrement), BinOp::Sub));
}

#[test]
fn objects_are_words(rt: HostRuntime) {
    let alloc = rt.alloc();
    assert!(rt; is(taken_as(alloc, Kind::UChar, 300), &[44]));
    assert!(rt; is(unsigned_long(alloc, 7), &[7]));
    assert!(rt; is(of_word(alloc, LONG_IN_CHAR), &[300]));
    assert!(rt; is(of_natural(alloc, 9), &[9]));
    assert!(rt; is(of_naturals(alloc, &[4, 5]), &[4, 5]));
    assert!(rt; is(as_truth(alloc, &[5]), &[1]));
    assert!(rt; is(as_thing(alloc, Thing::Integer(Kind::Bool), &[5]), &[1]));
    assert!(rt; is(as_thing(alloc, Thing::Queue, &[5]), &[5, 0, 0]));
    assert!(rt; is(object_from(alloc, Thing::Device, &[2, 3, 4]), &[2, 3]));
    assert!(rt;
        is(
            bound(alloc, Thing::Integer(Kind::Int), true, nothing(alloc)),
            &[]
        )
    );
    assert!(rt; is(converted_to(alloc, Some(Kind::Char), &[300]), &[44]));
    assert!(rt; is(zero_of(alloc, Some(Kind::Char)), &[0]));
    assert!(rt; is(copy_of(alloc, &[1, 2]), &[1, 2]));
    assert!(rt; is(error_object(alloc, error_of(ErrorName::Invalid)), &[3]));
    assert!(rt; finish_of(Some(Kind::Int), &[4294967295]) == -1);
    assert!(rt; matches!(count_of(&[-1]), Ok(18446744073709551615)));
    assert!(rt; is_zero(&[]));
    assert!(rt; scalar_of(Thing::Integer(Kind::Char), &[65]).num == 65);
}

#[test]
fn words_say_what_an_object_is(rt: HostRuntime) {
    let device = Device { first: 2, units: 3 };
    assert!(rt; is(device_words(rt.alloc(), device), &[2, 3]));
    assert!(rt; matches!(device_at(&[2, 3, 2], 1), Ok(Device { first: 5, units: 3 })));
    assert!(rt; matches!(device_count(&[2, 3, 2]), Ok(2)));
    assert!(rt; matches!(queue_number(&[7, 2, 3]), Ok(7)));
    assert!(rt; matches!(queue_device(&[7, 2, 3]), Ok(Device { first: 2, units: 3 })));
    assert!(rt; matches!(context_place(&[7, 2, 3]), Ok(7)));
    assert!(rt;
        matches!(
            context_device(&[7, 2, 3]),
            Ok(Device { first: 2, units: 3 })
        )
    );
    assert!(rt; matches!(buffer_number(&[1, 2, 3, 4]), Ok(1)));
    assert!(rt; matches!(buffer_root(&[1, 2, 3, 4]), Ok(2)));
    assert!(rt; matches!(buffer_first(&[1, 2, 3, 4]), Ok(3)));
    assert!(rt; matches!(accessor_owner(&[4294967296]), Err(_)));
    assert!(rt; matches!(accessor_first(&[1, 2]), Ok(2)));
    assert!(rt; matches!(element_vector(&[1, 2]), Ok(1)));
    assert!(rt; matches!(element_index(&[1, 2]), Ok(2)));
    assert!(rt; matches!(reduction_index(&[1, 1]), Ok(1)));
    assert!(rt; reduction_keeps(&[1, 1]));
}

#[test]
fn types_say_how_many_words_there_are(rt: HostRuntime) {
    let alloc = rt.alloc();
    let two = Thing::NdRange(Dimensions::Two);
    assert!(rt; width(two) == 4);
    assert!(rt; width(Thing::Buffer(Kind::Int, Dimensions::Three)) == 6);
    assert!(rt;
        matches!(
            element_of(Thing::Vector(Kind::Int), Location::Nowhere),
            Location::Element
        )
    );
    assert!(rt;
        matches!(
            element_of(
                Thing::LocalAccessor(Kind::Int, Dimensions::One),
                Location::Nowhere
            ),
            Location::Cell(Area::Local)
        )
    );
    assert!(rt; are(global_extents(alloc, two, &[8, 6, 4, 3]), &[8, 6]));
    assert!(rt; are(local_extents(alloc, two, &[8, 6, 4, 3]), &[4, 3]));
    assert!(rt; are(buffer_extents(alloc, &[1, 2, 3, 4]), &[4]));
    assert!(rt; are(accessor_extents(alloc, &[1, 2, 3, 4]), &[3, 4]));
    assert!(rt; are(extents_of(alloc, Thing::Range(Dimensions::One), &[5]), &[5]));
    assert!(rt; are(indexes(alloc, Thing::Integer(Kind::Int), &[5]), &[5]));
    assert!(rt;
        are(
            range_in(alloc, Thing::Range(Dimensions::Two), &[5, 6]),
            &[5, 6]
        )
    );
}
