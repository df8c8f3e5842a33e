use super::*;
use std::test::Fail;

#[test]
fn ranges_hold_their_numbers(rt: HostRuntime) {
    let range = Range::new(&[5, 0, 7]);
    assert_eq!(rt; range.dims(), 3);
    assert_eq!(rt;
        (range.extent(0), range.extent(1), range.extent(2)),
        (5, 0, 7)
    );
    let id = Id::new(&[9, 4]);
    assert_eq!(rt; id.dims(), 2);
    assert_eq!(rt; (id.extent(0), id.extent(1)), (9, 4));
    assert_eq!(rt; Range::new(&[u64::MAX]).extent(0), u64::MAX);
}

#[test]
fn counts_of_ranges(rt: HostRuntime) {
    let big = 1 << 32;
    for (range, want) in [
        (Range::new(&[0]), Some(0)),
        (Range::new(&[1]), Some(1)),
        (Range::new(&[u64::MAX]), Some(u64::MAX)),
        (Range::new(&[3, 5]), Some(15)),
        (Range::new(&[big, big]), None),
        (Range::new(&[big, big - 1]), Some(u64::MAX - (big - 1))),
        (Range::new(&[u64::MAX, 0]), Some(0)),
        (Range::new(&[2, 3, 4]), Some(24)),
        (Range::new(&[big, big, 0]), Some(0)),
        (Range::new(&[0, big, big]), Some(0)),
        (Range::new(&[1 << 22, 1 << 21, 1 << 21]), None),
        (
            Range::new(&[1 << 22, 1 << 21, (1 << 21) - 1]),
            Some(u64::MAX - ((1 << 43) - 1)),
        ),
        (Range::new(&[u64::MAX, 1, 1]), Some(u64::MAX)),
    ] {
        assert_eq!(rt; count(&range), want, "{range:?}");
    }
}

#[test]
fn linear_ids_are_row_major(rt: HostRuntime) {
    let line = Range::new(&[4]);
    assert_eq!(rt; linear(&Id::new(&[0]), &line), 0);
    assert_eq!(rt; linear(&Id::new(&[3]), &line), 3);
    let table = Range::new(&[3, 5]);
    assert_eq!(rt; linear(&Id::new(&[0, 4]), &table), 4);
    assert_eq!(rt; linear(&Id::new(&[1, 0]), &table), 5);
    assert_eq!(rt; linear(&Id::new(&[2, 4]), &table), 14);
    let block = Range::new(&[2, 3, 4]);
    assert_eq!(rt; linear(&Id::new(&[0, 1, 0]), &block), 4);
    assert_eq!(rt; linear(&Id::new(&[1, 0, 2]), &block), 14);
    assert_eq!(rt; linear(&Id::new(&[1, 2, 3]), &block), 23);
    let wide = Range::new(&[1 << 32, 1 << 31]);
    assert_eq!(rt;
        linear(&Id::new(&[(1 << 32) - 1, (1 << 31) - 1]), &wide),
        (1 << 63) - 1
    );
    linear_ids_number_a_range();
}

#[test]
fn nd_ranges(rt: HostRuntime) {
    let big = 1 << 32;
    for (name, global, local, want) in [
        ("not a multiple", Range::new(&[10]), Range::new(&[4]), false),
        ("a multiple", Range::new(&[12]), Range::new(&[4]), true),
        ("no global item", Range::new(&[0]), Range::new(&[4]), true),
        ("no local item", Range::new(&[4]), Range::new(&[0]), false),
        ("1024 items", Range::new(&[2048]), Range::new(&[1024]), true),
        (
            "1025 items",
            Range::new(&[1025]),
            Range::new(&[1025]),
            false,
        ),
        (
            "two dimensions",
            Range::new(&[64, 96]),
            Range::new(&[32, 32]),
            true,
        ),
        (
            "the second no multiple",
            Range::new(&[64, 95]),
            Range::new(&[32, 32]),
            false,
        ),
        (
            "2048 items",
            Range::new(&[64, 32]),
            Range::new(&[64, 32]),
            false,
        ),
        (
            "three dimensions",
            Range::new(&[8, 8, 16]),
            Range::new(&[8, 8, 16]),
            true,
        ),
        (
            "1088 items",
            Range::new(&[8, 8, 17]),
            Range::new(&[8, 8, 17]),
            false,
        ),
        (
            "2^64 items",
            Range::new(&[big, big]),
            Range::new(&[big, big]),
            false,
        ),
    ] {
        assert_eq!(rt; global.dims(), local.dims());
        let made = nd(global, local);
        assert_eq!(rt; made.is_ok(), want, "{name}");
        if let Ok(made) = made {
            let first = Position {
                global: made.global,
                local: Some(made.local),
                item: 0,
            };
            assert_eq!(rt;
                (first.global, first.local),
                (global, Some(local)),
                "{name}"
            );
        }
    }
}

#[test]
fn text_of_bad_ranges(rt: HostRuntime) -> Result<(), Fail> {
    assert_eq!(rt;
        format!(in rt.alloc(); "{BadNd}")?.as_str(),
        "the two ranges are no nd-range"
    );
    Ok(())
}
