// The texts, as a person reads them.

use super::*;
use std::test::Fail;

#[test]
fn lines(rt: HostRuntime) -> Result<(), Fail> {
    let table: [(u32, u32, Code, &[u8]); 4] = [
        (1, 1, Code::NotBuilt, b"1:1: not built"),
        (1, 20, Code::Lexical, b"1:20: no token"),
        (6, 41, Code::ThreadCapture, b"6:41: thread capture"),
        (
            4294967295,
            1048576,
            Code::NotInHost,
            b"4294967295:1048576: only in a group or kernel",
        ),
    ];
    for (line_number, column, code, text) in table {
        let spot = Spot {
            line: line_number,
            column,
        };
        let got = line(rt.alloc(), &Diagnostic { spot, code })?;
        assert_eq!(rt; got.as_slice(), text);
    }
    assert_eq!(rt;
        line(
            rt.alloc(),
            &Diagnostic {
                spot: Spot::START,
                code: Code::Grammar
            }
        )?
        .as_slice(),
        b"1:1: not in the grammar".as_slice()
    );
    Ok(())
}

#[test]
fn texts_of_stops(rt: HostRuntime) -> Result<(), Fail> {
    let refusal = Diagnostic {
        spot: Spot::START,
        code: Code::Grammar,
    };
    let table: [(FrontStop, &str); 2] = [
        (FrontStop::Refused(refusal), "the source breaks a rule"),
        (FrontStop::Memory, "out of memory"),
    ];
    for (stop, text) in table {
        assert_eq!(rt; format!(in rt.alloc(); "{stop}")?.as_str(), text);
    }
    Ok(())
}
