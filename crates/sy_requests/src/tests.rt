// Extents, positions, regions, needs and printed numbers, each on its happy path.

use crate::{
    Pairing, both, coordinates, first_of_region, fit_in, global_id, group_id, group_range,
    is_contiguous, is_nd, linear_id, local_id, need_index, printed_bytes, product, with_need,
};
use std::alloc::{AllocError, Global};
use sy_access::{Mode, Need};
use sy_num::{Kind, Value};
use sy_range::{Position, Range};

fn is(found: Result<Vec<u64>, AllocError>, wanted: &[u64]) -> bool {
    match found {
        Ok(numbers) => numbers.as_slice() == wanted,
        Err(_) => false,
    }
}

#[test]
fn extents_make_linear_ids(rt: HostRuntime) {
    assert!(rt; matches!(product(&[4, 5, 6]), Ok(120)));
    assert!(rt; matches!(linear_id(&[1, 2, 3], &[4, 5, 6]), Ok(45)));
    assert!(rt; is(coordinates(rt.alloc(), 45, &[4, 5, 6]), &[1, 2, 3]));
    assert!(rt; is(both(rt.alloc(), Pairing::Last, &[1, 2], &[3, 4]), &[3, 5]));
    assert!(rt; matches!(is_nd(&[8, 6], &[4, 3]), Ok(true)));
    assert!(rt; matches!(is_nd(&[8, 6], &[4, 4]), Ok(false)));
}

#[test]
fn an_item_knows_its_place(rt: HostRuntime) {
    let position = Position {
        global: Range::new(&[8, 6]),
        local: Some(Range::new(&[4, 3])),
        item: 34,
    };
    assert!(rt; is(global_id(rt.alloc(), &position), &[5, 4]));
    assert!(rt; is(local_id(rt.alloc(), &position), &[1, 1]));
    assert!(rt; is(group_id(rt.alloc(), &position), &[1, 1]));
    assert!(rt; is(group_range(rt.alloc(), &position), &[2, 2]));
}

#[test]
fn rows_of_a_buffer_follow_one_another(rt: HostRuntime) {
    assert!(rt; fit_in(&[1, 0], &[2, 6], &[4, 6]));
    assert!(rt; !fit_in(&[3, 0], &[2, 6], &[4, 6]));
    assert!(rt;
        matches!(
            is_contiguous(rt.alloc(), &[1, 0], &[2, 6], &[4, 6]),
            Ok(true)
        )
    );
    assert!(rt;
        matches!(
            is_contiguous(rt.alloc(), &[0, 1], &[2, 2], &[4, 6]),
            Ok(false)
        )
    );
    assert!(rt; matches!(first_of_region(&[1, 0], &[2, 6], &[4, 6]), Ok(6)));
}

const READ: Need = Need {
    buffer: 1,
    mode: Mode::Read,
    no_init: false,
    from: 0,
    to: 4,
};

const WRITE: Need = Need {
    buffer: 1,
    mode: Mode::Write,
    no_init: true,
    from: 0,
    to: 4,
};

fn are_one(alloc: Global) -> Result<bool, AllocError> {
    let needs = with_need(alloc, &WRITE, &[READ])?;
    Ok(
        needs.len() == 1
            && needs[0].mode == Mode::ReadWrite
            && !needs[0].no_init
            && need_index(&WRITE, needs.as_slice()) == 0,
    )
}

#[test]
fn two_needs_of_the_same_elements_are_one(rt: HostRuntime) {
    assert!(rt; matches!(are_one(rt.alloc()), Ok(true)));
}

fn prints(alloc: Global, value: Value, wanted: &[u8]) -> bool {
    match printed_bytes(alloc, value) {
        Ok(bytes) => bytes.items() == wanted,
        Err(_) => false,
    }
}

#[test]
fn a_char_is_one_byte(rt: HostRuntime) {
    assert!(rt; prints(rt.alloc(), Value::new(Kind::Char, 65), b"A"));
    assert!(rt; prints(rt.alloc(), Value::new(Kind::Char, -1), b"\xff"));
    assert!(rt; prints(rt.alloc(), Value::new(Kind::Int, -65), b"-65"));
}
