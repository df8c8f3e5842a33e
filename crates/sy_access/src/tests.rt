use super::*;
use std::test::Fail;

fn need(buffer: u32, mode: Mode, from: u32, to: u32) -> Need {
    Need {
        buffer,
        mode,
        no_init: false,
        from,
        to,
    }
}

#[test]
fn needs_conflict(rt: HostRuntime) {
    let wide = need(1, Mode::Write, 2, 6);
    let cases = [
        ("overlap, one writes", need(1, Mode::Read, 5, 9), true),
        ("the same, both write", need(1, Mode::Write, 2, 6), true),
        ("within", need(1, Mode::ReadWrite, 3, 4), true),
        ("around", need(1, Mode::Read, 0, 9), true),
        ("touch above", need(1, Mode::Write, 6, 8), false),
        ("touch below", need(1, Mode::Write, 0, 2), false),
        ("another root", need(2, Mode::Write, 2, 6), false),
        ("empty within", need(1, Mode::Read, 4, 4), true),
        ("empty far away", need(1, Mode::Read, 9, 9), true),
        ("empty on another root", need(2, Mode::Write, 4, 4), false),
    ];
    for (name, other, want) in cases {
        assert_eq!(rt; conflicts(&wide, &other), want, "{name}");
        assert_eq!(rt; conflicts(&other, &wide), want, "{name}, the other way");
    }
    let read = need(1, Mode::Read, 2, 6);
    assert!(rt; !conflicts(&read, &read), "two reads");
    let empty = need(1, Mode::Write, 0, 0);
    assert!(rt; conflicts(&empty, &empty), "two empty ones");
}

#[test]
fn needs_are_apart(rt: HostRuntime) {
    let write = need(1, Mode::Write, 0, 4);
    let read = need(1, Mode::Read, 4, 8);
    let other = need(2, Mode::Write, 0, 4);
    for (name, a, place_a, b, place_b, want) in [
        ("two places, one writes", write, 0, read, 1, true),
        ("two places, the other writes", read, 1, write, 0, true),
        ("one place", write, 1, read, 1, false),
        ("two reads", read, 0, read, 1, false),
        ("two roots", write, 0, other, 1, false),
    ] {
        assert_eq!(rt; apart(&a, place_a, &b, place_b), want, "{name}");
    }
}

#[test]
fn modes_and_needs_tell(rt: HostRuntime) {
    for (mode, reads, writes) in [
        (Mode::Read, true, false),
        (Mode::Write, false, true),
        (Mode::ReadWrite, true, true),
    ] {
        assert_eq!(rt; (mode.reads(), mode.writes()), (reads, writes));
    }
    let two = need(3, Mode::Read, 4, 6);
    for (root, i, want) in [
        (3, 3, false),
        (3, 4, true),
        (3, 5, true),
        (3, 6, false),
        (2, 4, false),
    ] {
        assert_eq!(rt; two.has(root, i), want, "element {i} of {root}");
    }
    conflict_is_a_shared_element();
    needs_meet_both_ways();
}

#[test]
fn parts_of_the_whole(rt: HostRuntime) -> Result<(), Fail> {
    let whole = Device::whole();
    let none: &[u32] = &[];
    for (n, want) in [
        (0, None),
        (1, Some([0, 1, 2, 3, 4, 5, 6, 7].as_slice())),
        (2, Some([0, 2, 4, 6].as_slice())),
        (3, Some([0, 3].as_slice())),
        (4, Some([0, 4].as_slice())),
        (5, Some([0].as_slice())),
        (6, Some([0].as_slice())),
        (7, Some([0].as_slice())),
        (8, Some([0].as_slice())),
        (9, None),
    ] {
        match partition(rt.alloc(), &whole, n) {
            Ok(parts) => {
                let firsts = want.unwrap_or(none);
                assert_eq!(rt; parts.len(), firsts.len(), "parts of {n}");
                for (part, first) in parts.iter().zip(firsts) {
                    assert_eq!(rt;
                        (part.first, part.units as u64),
                        (*first, n),
                        "parts of {n}"
                    );
                    assert!(rt; part_of(part, &whole));
                }
            }
            Err(stop) => {
                assert_eq!(rt; stop, PartStop::Invalid);
                assert!(rt; want.is_none(), "no parts of {n}");
            }
        }
    }
    Ok(())
}

#[test]
fn texts_of_stops(rt: HostRuntime) -> Result<(), Fail> {
    for (stop, text) in [
        (PartStop::Invalid, "no part of that many units"),
        (PartStop::Memory, "out of memory"),
    ] {
        assert_eq!(rt; format!(in rt.alloc(); "{stop}")?.as_str(), text);
    }
    Ok(())
}

#[test]
fn parts_of_a_part(rt: HostRuntime) -> Result<(), Fail> {
    let last = Device { first: 4, units: 4 };
    let parts = partition(rt.alloc(), &last, 3).map_err(|_| "no memory")?;
    assert_eq!(rt;
        parts.as_slice(),
        [Device { first: 4, units: 3 }].as_slice()
    );
    for (name, d, want) in [
        ("itself", last, true),
        ("one unit", Device { first: 7, units: 1 }, true),
        ("past the end", Device { first: 7, units: 2 }, false),
        ("before", Device { first: 3, units: 2 }, false),
        ("the whole", Device::whole(), false),
        ("no unit", Device { first: 0, units: 0 }, true),
    ] {
        assert_eq!(rt; part_of(&d, &last), want, "{name}");
    }
    part_is_by_units();
    Ok(())
}

#[test]
fn lists_hold_their_items(rt: HostRuntime) -> Result<(), Fail> {
    let alloc = rt.alloc();
    let values = Values::of([5, -7].to_vec(alloc)?);
    assert_eq!(rt; values.copy(alloc)?.items(), [5, -7].as_slice());
    assert_eq!(rt;
        (values.len(), values.get(1), values.get(2)),
        (2, Some(-7), None)
    );
    assert_eq!(rt; values.into_items().as_slice(), [5, -7].as_slice());
    let numbers = Numbers::of([3, 1].to_vec(alloc)?);
    assert_eq!(rt; numbers.copy(alloc)?.items(), [3, 1].as_slice());
    let sizes = Sizes::of([1 << 40].to_vec(alloc)?);
    assert_eq!(rt; sizes.copy(alloc)?.items(), [1 << 40].as_slice());
    let mut bytes = Bytes::of(b"one".to_vec(alloc)?);
    bytes.append(&Bytes::of(b" two".to_vec(alloc)?))?;
    assert_eq!(rt; bytes.copy(alloc)?.items(), b"one two".as_slice());
    let needs = Needs::of([need(0, Mode::Write, 0, 3)].to_vec(alloc)?);
    assert_eq!(rt;
        needs.copy(alloc)?.items(),
        [need(0, Mode::Write, 0, 3)].as_slice()
    );
    Ok(())
}

#[test]
#[tactic(auto, unfolding(crate::specs::Logs::same_cell))]
fn a_log_tells_numbers(rt: HostRuntime) -> Result<(), Fail> {
    let alloc = rt.alloc();
    let items = vec![in alloc; (Cell::Buffer(1, 2), 10), (Cell::Local(1, 2), -20)]?;
    let log = Log::of(items).copy(alloc)?;
    assert_eq!(rt; log.items().len(), 2);
    for (cell, want) in [
        (Cell::Buffer(1, 2), Some(10)),
        (Cell::Local(1, 2), Some(-20)),
        (Cell::Buffer(2, 1), None),
    ] {
        assert_eq!(rt; log.number(cell), want, "{cell:?}");
    }
    assert!(rt; Cell::Local(4, 0).is(&Cell::Local(4, 0)));
    assert!(rt; !Cell::Local(4, 0).is(&Cell::Local(4, 1)));
    a_log_names_each_cell_once();
    Ok(())
}
