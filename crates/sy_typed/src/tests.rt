// Dimensions.

use super::*;
use std::test::Fail;

#[test]
fn dimensions(rt: HostRuntime) -> Result<(), Fail> {
    for (number, wanted) in [
        (0, None),
        (1, Some(1)),
        (2, Some(2)),
        (3, Some(3)),
        (4, None),
        (4294967297, None),
    ] {
        let found = Dimensions::of(number).map(|d| d.count());
        assert_eq!(rt; found, wanted);
    }
    Ok(())
}
