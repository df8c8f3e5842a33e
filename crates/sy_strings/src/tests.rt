// Strings with the bytes that they stand for.

use super::*;
use std::test::Fail;

const STRINGS: [(&'static [u8], &'static [u8]); 4] = [
    (b"\"\"", b""),
    (b"\"a b\"", b"a b"),
    (b"\"a\\n\\t\\r\\0\"", b"a\n\t\r\0"),
    (b"\"\\\\ \\\" \\'\"", b"\\ \" '"),
];

#[test]
fn strings_stand_for_bytes(rt: HostRuntime) -> Result<(), Fail> {
    for (text, bytes) in STRINGS {
        let found = string_bytes(rt.alloc(), text)?;
        assert_eq!(rt; found.as_slice(), bytes);
    }
    Ok(())
}
