// Scopes with names that hide one another, by hand.

use super::*;
use std::alloc::{AllocError, Global};
use std::process::Abort;
use std::test::Fail;
use sy_lex::Text;
use sy_note::Spot;
use sy_num::Kind;
use sy_rules::{
    Constant, Named, Parameters, Passed, Setting, Signature, Taken, ThreadScope, Within,
};
use sy_tree::Lexeme;
use sy_typed::Thing;

/// A call, with what it answers: of a declaration its number, of a look-up that of the declaration that it finds.
#[derive(Clone, Copy)]
enum Step {
    Enter,
    Leave,
    Declare(&'static [u8], u32),
    Twice(&'static [u8]),
    Found(&'static [u8], u32),
    Missing(&'static [u8]),
}

const STEPS: [Step; 31] = [
    Step::Missing(b"a"),
    Step::Declare(b"a", 0),
    Step::Twice(b"a"),
    Step::Found(b"a", 0),
    Step::Missing(b"A"),
    Step::Missing(b""),
    Step::Enter,
    Step::Found(b"a", 0),
    Step::Declare(b"b", 1),
    Step::Declare(b"a", 2),
    Step::Twice(b"a"),
    Step::Twice(b"b"),
    Step::Found(b"a", 2),
    Step::Enter,
    Step::Found(b"b", 1),
    Step::Declare(b"ab", 3),
    Step::Declare(b"a", 4),
    Step::Declare(b"a_name_that_is_longer_than_thirty_bytes", 5),
    Step::Found(b"a_name_that_is_longer_than_thirty_bytes", 5),
    Step::Found(b"a", 4),
    Step::Found(b"ab", 3),
    Step::Leave,
    Step::Missing(b"ab"),
    Step::Missing(b"a_name_that_is_longer_than_thirty_bytes"),
    Step::Found(b"a", 2),
    Step::Leave,
    Step::Found(b"a", 0),
    Step::Missing(b"b"),
    Step::Declare(b"b", 6),
    Step::Leave,
    Step::Missing(b"a"),
];

const TOLD: Declared = Declared {
    what: Some(Thing::Integer(Kind::Int)),
    fixed: false,
    constant: Constant::Varying,
    names_element: false,
};

const START: Spot = Spot { line: 1, column: 1 };

fn declared(
    alloc: Global,
    names: &mut Names,
    name: &[u8],
) -> Result<Result<u32, NamesStop>, AllocError> {
    let text = Text::copied(alloc, name)?;
    Ok(names.declare(&Lexeme { spot: START, text }, TOLD))
}

fn found(names: &Names, name: &[u8]) -> Option<u32> {
    match names.find(name) {
        Some(named) => Some(named.number),
        None => None,
    }
}

fn play(rt: &impl Abort, alloc: Global, names: &mut Names, step: Step) -> Result<(), AllocError> {
    match step {
        Step::Enter => names.enter()?,
        Step::Leave => names.leave(),
        Step::Declare(name, number) => {
            assert_eq!(rt; declared(alloc, names, name)?, Ok(number));
        }
        Step::Twice(name) => {
            assert_eq!(rt; declared(alloc, names, name)?, Err(NamesStop::Twice));
        }
        Step::Found(name, number) => {
            assert_eq!(rt; found(names, name), Some(number));
        }
        Step::Missing(name) => {
            assert_eq!(rt; found(names, name), None);
        }
    }
    Ok(())
}

#[test]
fn scopes_hide_names(rt: HostRuntime) -> Result<(), Fail> {
    let mut names = Names::new(rt.alloc(), 0);
    for step in STEPS {
        play(&rt, rt.alloc(), &mut names, step)?;
    }
    assert_eq!(rt; names.next(), 7);
    assert_eq!(rt; names.depth(), 0);
    Ok(())
}

#[test]
fn surroundings(rt: HostRuntime) -> Result<(), Fail> {
    let mut names = Names::new(rt.alloc(), 2);
    let mut setting = names.setting();
    assert_eq!(rt; setting.within, Within::Host);
    setting.within = Within::Kernel;
    names.set(setting);
    names.enter()?;
    assert_eq!(rt; names.setting().within, Within::Kernel);
    assert_eq!(rt; names.depth(), 1);
    assert_eq!(rt; names.take_body()?, 2);
    assert_eq!(rt; names.take_body()?, 3);
    Ok(())
}

#[test]
fn threads_in_threads(rt: HostRuntime) -> Result<(), Fail> {
    let mut names = Names::new(rt.alloc(), 0);
    let outer = ThreadScope {
        outside: 1,
        by_reference: true,
        variable: 0,
    };
    let inner = ThreadScope {
        outside: 2,
        by_reference: false,
        variable: 1,
    };
    names.enter_thread(outer)?;
    names.enter_thread(inner)?;
    assert_eq!(rt; names.threads(), [outer, inner].as_slice());
    names.leave_thread();
    assert_eq!(rt; names.threads(), [outer].as_slice());
    Ok(())
}

#[test]
fn functions_by_name(rt: HostRuntime) -> Result<(), Fail> {
    let mut names = Names::new(rt.alloc(), 1);
    let parameters = Parameters::of(vec![in rt.alloc(); Passed::Integer]?);
    names.add_function(Signature {
        is_main: false,
        returned: Some(Kind::Int),
        parameters,
    })?;
    let function = Named {
        number: 0,
        what: Some(Thing::Void),
        spot: START,
        fixed: true,
        names_element: false,
        depth: 0,
        constant: Constant::Varying,
        function: Some(0),
    };
    names.add_entry(b"f", function)?;
    assert_eq!(rt; names.find(b"f"), Some(function));
    assert_eq!(rt; names.is_here(b"f"), true);
    assert_eq!(rt; names.functions().len(), 1);
    assert_eq!(rt; returned(&names, 0), Some(Kind::Int));
    assert_eq!(rt; returned(&names, 1), None);
    Ok(())
}

fn returned(names: &Names, index: u32) -> Option<Kind> {
    match names.signature(index) {
        Some(signature) => signature.returned,
        None => None,
    }
}
