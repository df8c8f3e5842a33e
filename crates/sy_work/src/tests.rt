ghost use Rattle.std.specs.Prelude.{◌≡◌, IfOk};

use super::*;
use std::alloc::{AllocError, Global};
use std::test::Fail;
use sy_access::{Cell, Values};

fn input(
    alloc: Global,
    root: u32,
    from: u32,
    numbers: &[i128],
) -> Result<(u32, u32, Values), AllocError>
    ensures { IfOk result (λ x. x ≡ (root, from, numbers.now)) }
{
    Ok((root, from, Values::of(Vec::from_slice(alloc, numbers)?)))
}

#[test]
fn moves_write_their_target(rt: HostRuntime) -> Result<(), Fail> {
    let alloc = rt.alloc();
    let target = input(alloc, 3, 10, &[7, 8, 9])?;
    let fill = filled(alloc, &target, -1)?;
    let none = filled(alloc, &input(alloc, 3, 10, &[])?, -1)?;
    assert!(rt; none.items().is_empty());
    let copy = copied(alloc, &input(alloc, 4, 0, &[5, 6])?, &target)?;
    let short = copied(alloc, &target, &input(alloc, 5, 1, &[0])?)?;
    for (name, log, want) in [
        (
            "fill",
            &fill,
            [
                (Cell::Buffer(3, 10), -1),
                (Cell::Buffer(3, 11), -1),
                (Cell::Buffer(3, 12), -1),
            ]
            .as_slice(),
        ),
        (
            "a shorter source",
            &copy,
            [(Cell::Buffer(3, 10), 5), (Cell::Buffer(3, 11), 6)].as_slice(),
        ),
        (
            "a longer source",
            &short,
            [(Cell::Buffer(5, 1), 7)].as_slice(),
        ),
    ] {
        assert_eq!(rt; log.items().len(), want.len(), "{name}");
        for (got, want) in log.items().iter().zip(want) {
            assert_eq!(rt; (got.0, got.1), (want.0, want.1), "{name}");
        }
    }
    Ok(())
}

#[test]
fn inputs_hold_their_lists(rt: HostRuntime) -> Result<(), Fail> {
    let alloc = rt.alloc();
    let inputs = Inputs::of(vec![in alloc; input(alloc, 1, 2, &[3])?]?);
    assert_eq!(rt;
        (inputs.len(), inputs.get(0, 0), inputs.get(1, 0)),
        (1, Some(3), None)
    );
    assert_eq!(rt; inputs.items().len(), 1);
    for (root, from, values) in inputs.items() {
        assert_eq!(rt; (*root, *from), (1, 2));
        assert_eq!(rt; values.items(), [3].as_slice());
    }
    moves_are_read_back();
    NoGate.begin(0);
    NoGate.copy(0, 1);
    Ok(())
}
