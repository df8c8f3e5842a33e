// Each call on its way, over a state in which nothing has happened.

use crate::{Exit, Stop, computed, flow_of, leave_block, leave_expression, settled};
use sqlite_items::Items;
use std::alloc::Global;
use std::test::Fail;
use sy_access::Values;
use sy_meaning::{Evaluated, Flow, Run, Store, World};
use sy_num::Undefined;
use sy_stack::{Stack, Table};
use sy_work::Errc;

fn fresh(alloc: Global) -> Run {
    Run {
        frame: Table::new(alloc),
        world: World {
            rows: Table::new(alloc),
            accesses: Table::new(alloc),
            scopes: Stack::new(alloc),
            joined: Stack::new(alloc),
            tries: 0,
            group: None,
            turns: 9,
            feed: Stack::new(alloc),
            asked: Stack::new(alloc),
            at: None,
            store: Store {
                cells: Items::new(alloc),
            },
            later: Items::new(alloc),
            steps: Stack::new(alloc),
        },
    }
}

fn is_thrown_at(value: Evaluated, wanted: u32) -> bool {
    matches!(settled(value), Err(Stop::Threw(_, line)) if line == wanted)
}

fn is_trapped(alloc: Global) -> bool {
    let mut run = fresh(alloc);
    let ended = computed(alloc, &mut run, 3, Err(Undefined::Overflow));
    matches!(ended, Err(Stop::Asked(_)))
}

fn leaves_a_value(alloc: Global) -> bool {
    let mut run = fresh(alloc);
    let ended = leave_expression(alloc, &mut run, 3, Ok(Values::of(Vec::new(alloc))));
    matches!(ended, Ok(_))
}

fn leaves_a_block(alloc: Global) -> bool {
    let mut run = fresh(alloc);
    let ended = leave_block(alloc, &mut run, 3, Err(Exit::Broke(7)));
    matches!(ended, Err(Exit::Broke(7)))
}

#[test]
fn errors_are_thrown_on(rt: HostRuntime) -> Result<(), Fail> {
    assert!(rt; is_thrown_at(Evaluated::Threw(Errc::Invalid, 4), 4));
    assert!(rt; matches!(flow_of(Err(Exit::Continued(5))), Ok(Flow::Continued(5))));
    Ok(())
}

#[test]
fn an_operator_without_a_value_traps(rt: HostRuntime) -> Result<(), Fail> {
    assert!(rt; is_trapped(rt.alloc()));
    Ok(())
}

#[test]
fn scopes_are_left(rt: HostRuntime) -> Result<(), Fail> {
    assert!(rt; leaves_a_value(rt.alloc()));
    assert!(rt; leaves_a_block(rt.alloc()));
    Ok(())
}
