// Rules that are told in several orders, and what one expression breaks, by hand.

use super::*;
use std::test::Fail;
use sy_access::Mode;
use sy_note::{Code, Diagnostic, Spot};
use sy_num::Kind;
use sy_rules::{Constant, Denotes, Seen};
use sy_typed::Thing;

const LATER: Diagnostic = Diagnostic {
    spot: Spot { line: 2, column: 1 },
    code: Code::UnknownName,
};

const BESIDE: Diagnostic = Diagnostic {
    spot: Spot { line: 1, column: 9 },
    code: Code::UnknownName,
};

const ROW: Diagnostic = Diagnostic {
    spot: Spot { line: 1, column: 7 },
    code: Code::BadCall,
};

const FIRST: Diagnostic = Diagnostic {
    spot: Spot { line: 1, column: 7 },
    code: Code::WrongOperand,
};

const ORDERS: [[Diagnostic; 4]; 3] = [
    [FIRST, ROW, BESIDE, LATER],
    [LATER, BESIDE, ROW, FIRST],
    [ROW, LATER, FIRST, BESIDE],
];

#[test]
fn the_least_place_and_row_is_told(rt: HostRuntime) -> Result<(), Fail> {
    for order in ORDERS {
        let mut findings = Findings::new();
        assert_eq!(rt; findings.first(), None);
        for d in order {
            findings.tell(d.code, d.spot);
        }
        findings.tell_if(false, Code::Lexical, Spot::START);
        assert_eq!(rt; findings.first(), Some(FIRST));
        findings.tell_if(true, Code::Lexical, Spot::START);
        assert_eq!(rt;
            findings.first(),
            Some(Diagnostic {
                spot: Spot { line: 1, column: 1 },
                code: Code::Lexical
            })
        );
    }
    Ok(())
}

fn seen(what: Option<Thing>, denotes: Denotes) -> Seen {
    Seen {
        what,
        first: Spot::START,
        denotes,
        constant: Constant::Varying,
        variable: None,
        is_bare: false,
    }
}

const QUEUE: Option<Thing> = Some(Thing::Queue);

const FLAG: Option<Thing> = Some(Thing::Integer(Kind::Bool));

const NUMBER: Option<Thing> = Some(Thing::Integer(Kind::Int));

fn broken_by(ask: u8, a: Seen) -> Option<Code> {
    let mut findings = Findings::new();
    match ask {
        0 => no_integer(&mut findings, a),
        1 => if_bool(&mut findings, a),
        2 => no_target(&mut findings, a),
        3 => unread(&mut findings, a),
        _ => unwritten(&mut findings, a),
    }
    match findings.first() {
        Some(d) => Some(d.code),
        None => None,
    }
}

const ASKS: [(u8, Option<Thing>, Denotes, Option<Code>); 10] = [
    (0, QUEUE, Denotes::Value, Some(Code::WrongOperand)),
    (0, FLAG, Denotes::Value, None),
    (0, None, Denotes::Unknown, None),
    (1, FLAG, Denotes::Value, Some(Code::WrongOperand)),
    (2, QUEUE, Denotes::Place(false), Some(Code::NotAssignable)),
    (2, NUMBER, Denotes::Place(true), Some(Code::NotAssignable)),
    (2, NUMBER, Denotes::Element(Mode::Read), None),
    (
        3,
        NUMBER,
        Denotes::Element(Mode::Write),
        Some(Code::ModeBroken),
    ),
    (3, NUMBER, Denotes::Element(Mode::Read), None),
    (
        4,
        NUMBER,
        Denotes::Element(Mode::Read),
        Some(Code::ModeBroken),
    ),
];

#[test]
fn one_expression_is_asked(rt: HostRuntime) -> Result<(), Fail> {
    for (ask, what, denotes, code) in ASKS {
        assert_eq!(rt; broken_by(ask, seen(what, denotes)), code);
    }
    assert_eq!(rt; kind_of(FLAG), Some(Kind::Bool));
    assert_eq!(rt; table_place(Code::BadCall), 23);
    Ok(())
}
