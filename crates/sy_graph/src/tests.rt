ghost use Rattle.std.specs.Prelude.{◌≡◌, ◌-◌, ◌^◌, ◌<◌, length, [], ◌+◌, IfOk, OnOk};

use super::*;
use std::alloc::{AllocError, Global};
use std::test::Fail;
use sy_access::{Mode, Need, Needs, Numbers};

/// A node at a place with these needs, each a root, a mode and a run of elements.
fn node(alloc: Global, place: u32, needs: &[(u32, Mode, u32, u32)]) -> Result<Node, AllocError>
    ensures { IfOk result (λ node. node.after ≡ []) }
{
    let mut items = Vec::new(alloc);
    for (buffer, mode, from, to) in needs {
        items.push(Need {
            buffer: *buffer,
            mode: *mode,
            no_init: false,
            from: *from,
            to: *to,
        })?;
    }
    Ok(Node {
        needs: Needs::of(items),
        after: Numbers::of(Vec::new(alloc)),
        in_order: None,
        place,
    })
}

#[test]
fn nodes_come_before_others(rt: HostRuntime) -> Result<(), Fail> {
    let alloc = rt.alloc();
    let low = node(alloc, 0, &[(1, Mode::Write, 0, 4)])?;
    let high = node(alloc, 0, &[(1, Mode::ReadWrite, 4, 8)])?;
    let high_elsewhere = node(alloc, 1, &[(1, Mode::Read, 4, 8)])?;
    let both = node(alloc, 0, &[(2, Mode::Read, 0, 4), (1, Mode::Read, 3, 5)])?;
    assert!(rt; !before(&low, 0, &high), "runs that touch");
    assert!(rt; before(&low, 0, &high_elsewhere), "apart");
    assert!(rt; before(&low, 0, &both), "runs that overlap");
    assert!(rt; before(&high, 0, &both), "the second need");
    assert!(rt; !before(&both, 0, &high_elsewhere), "two that read");
    Ok(())
}

/// Adds a node that names no other.
fn add(graph: &mut Graph, node: Node) -> Result<(), &'static str>
    requires room { length graph.old < 2 ^ 32 - 1 }
    requires after { node.after ≡ [] }
    ensures { OnOk result (length graph.new ≡ length graph.old + 1) }
{
    match graph.add(node) {
        Ok(_) => Ok(()),
        Err(_) => Err("memory"),
    }
}

#[test]
fn nodes_get_ready(rt: HostRuntime) -> Result<(), Fail> {
    let alloc = rt.alloc();
    let mut graph = Graph::new(alloc);
    add(&mut graph, node(alloc, 0, &[(3, Mode::Write, 0, 8)])?)?;
    add(&mut graph, node(alloc, 0, &[(3, Mode::Read, 0, 8)])?)?;
    add(&mut graph, node(alloc, 0, &[(3, Mode::Read, 0, 8)])?)?;
    add(&mut graph, node(alloc, 0, &[(3, Mode::Write, 0, 8)])?)?;
    for (n, want) in [(0, true), (1, false), (2, false), (3, false), (4, false)] {
        assert_eq!(rt; graph.ready(n), want, "{n} at first");
    }
    assert!(rt; graph.ready(0));
    graph.done(0);
    for (n, want) in [(0, false), (1, true), (2, true), (3, false)] {
        assert_eq!(rt; graph.ready(n), want, "{n} after the writer");
    }
    Ok(())
}
