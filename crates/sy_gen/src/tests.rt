use super::*;
use std::test::Fail;

#[test]
fn writes_the_groups_of_a_seed(rt: HostRuntime) -> Result<(), Fail> {
    let cases: [(u32, u32, &[u8]); 3] = [
        (7, 2, b"  flip(q1, b0, b1, 61u);\n  mul(q0, b2, b3, 7u);\n"),
        (0, 1, b"  flip(q0, b0, b2, 41u);\n"),
        (65535, 1, b"  mul(q1, b3, b2, 94u);\n"),
    ];
    for (seed, groups, lines) in cases {
        assert!(rt; seed < 65536 && groups >= 1 && groups <= 20000);
        let mut want = Vec::from_slice(rt.alloc(), OPENING)?;
        want.extend_from_slice(lines)?;
        want.extend_from_slice(CLOSING)?;
        let text = source_of(rt.alloc(), seed, groups)?;
        assert_eq!(rt; text.as_slice(), want.as_slice(), "seed {seed}");
    }
    Ok(())
}

// The numbers come from a run of the recurrence outside this program.
#[test]
fn writes_the_most_groups(rt: HostRuntime) -> Result<(), Fail> {
    let text = source_of(rt.alloc(), 7, 20000)?;
    assert_eq!(rt; text.len(), 486_390);
    let mut end = Vec::from_slice(rt.alloc(), b"  mul(q0, b2, b3, 17u);\n")?;
    end.extend_from_slice(CLOSING)?;
    assert!(rt; text.as_slice().ends_with(end.as_slice()));
    Ok(())
}
