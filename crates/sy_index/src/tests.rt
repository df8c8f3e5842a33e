ghost use Rattle.std.specs.Prelude.{◌≡◌, ◌-◌, ◌^◌, ◌<◌, ◌+◌, length, [], IfOk, OnOk};

use super::*;
use std::alloc::{AllocError, Global};
use std::test::Fail;
use sy_access::{Mode, Need, Needs, Numbers};
use sy_graph::Graph as Plain;

/// A root, a mode and a run of its elements.
type Part = (u32, Mode, u32, u32);

/// A node at a place with these needs.
fn node(
    alloc: Global,
    place: u32,
    in_order: Option<u32>,
    needs: &[Part],
) -> Result<Node, AllocError>
    ensures { IfOk result (λ node. node.after ≡ []) }
{
    let mut items = Vec::new(alloc);
    for (buffer, mode, from, to) in needs {
        items.push(Need {
            buffer: *buffer,
            mode: *mode,
            no_init: false,
            from: *from,
            to: *to,
        })?;
    }
    Ok(Node {
        needs: Needs::of(items),
        after: Numbers::of(Vec::new(alloc)),
        in_order,
        place,
    })
}

/// Adds two nodes that are alike and name no other, one to each form.
fn add(plain: &mut Plain, index: &mut Graph, one: Node, other: Node) -> Result<(), &'static str>
    requires plain { length plain.old < 2 ^ 32 - 1 }
    requires index { length index.old < 2 ^ 32 - 1 }
    requires one { one.after ≡ [] }
    requires other { other.after ≡ [] }
    ensures plain_longer { OnOk result (length plain.new ≡ length plain.old + 1) }
    ensures index_longer { OnOk result (length index.new ≡ length index.old + 1) }
{
    if plain.add(one).is_err() {
        return Err("memory for the plain form");
    }
    if index.add(other).is_err() {
        return Err("memory for the index");
    }
    Ok(())
}

#[test]
fn index_ready(rt: HostRuntime) -> Result<(), Fail> {
    let alloc = rt.alloc();
    let mut plain = Plain::new(alloc);
    let mut index = Graph::new(alloc);
    let writes: [Part; 1] = [(3, Mode::Write, 0, 8)];
    let reads: [Part; 1] = [(3, Mode::Read, 0, 8)];
    add(
        &mut plain,
        &mut index,
        node(alloc, 0, None, &writes)?,
        node(alloc, 0, None, &writes)?,
    )?;
    add(
        &mut plain,
        &mut index,
        node(alloc, 0, None, &reads)?,
        node(alloc, 0, None, &reads)?,
    )?;
    add(
        &mut plain,
        &mut index,
        node(alloc, 0, None, &reads)?,
        node(alloc, 0, None, &reads)?,
    )?;
    add(
        &mut plain,
        &mut index,
        node(alloc, 0, None, &writes)?,
        node(alloc, 0, None, &writes)?,
    )?;
    for (n, want) in [(0, true), (1, false), (2, false), (3, false), (4, false)] {
        assert_eq!(rt; plain.ready(n), want, "{n} at first, plainly");
        assert_eq!(rt; index.ready(n), want, "{n} at first, by index");
    }
    assert!(rt; plain.ready(0));
    assert!(rt; index.ready(0));
    plain.done(0);
    index.done(0);
    for (n, want) in [(0, false), (1, true), (2, true), (3, false)] {
        assert_eq!(rt; plain.ready(n), want, "{n} after the writer, plainly");
        assert_eq!(rt; index.ready(n), want, "{n} after the writer, by index");
    }
    Ok(())
}

/// Whether a node with the second needs waits for one with the first, as both forms tell.
fn waits(
    alloc: Global,
    first: (u32, Option<u32>, &[Part]),
    second: (u32, Option<u32>, &[Part]),
) -> Result<(bool, bool), Fail> {
    let mut plain = Plain::new(alloc);
    let mut index = Graph::new(alloc);
    let (place, queue, needs) = first;
    add(
        &mut plain,
        &mut index,
        node(alloc, place, queue, needs)?,
        node(alloc, place, queue, needs)?,
    )?;
    let (place, queue, needs) = second;
    add(
        &mut plain,
        &mut index,
        node(alloc, place, queue, needs)?,
        node(alloc, place, queue, needs)?,
    )?;
    Ok((!plain.ready(1), !index.ready(1)))
}

#[test]
fn nodes_wait(rt: HostRuntime) -> Result<(), Fail> {
    use Mode::{Read, ReadWrite, Write};
    let low: [Part; 1] = [(1, Write, 0, 4)];
    let touching: [Part; 1] = [(1, Write, 4, 8)];
    let overlapping: [Part; 1] = [(1, Read, 3, 8)];
    let nested: [Part; 1] = [(1, ReadWrite, 1, 2)];
    let empty: [Part; 1] = [(1, Read, 9, 9)];
    let read: [Part; 1] = [(1, Read, 0, 4)];
    let other_root: [Part; 1] = [(2, Write, 0, 4)];
    let two: [Part; 2] = [(1, Read, 6, 8), (1, Write, 2, 3)];
    let none: [Part; 0] = [];
    let cases: [(
        &str,
        (u32, Option<u32>, &[Part]),
        (u32, Option<u32>, &[Part]),
        bool,
    ); 12] = [
        (
            "runs that touch",
            (0, None, &low),
            (0, None, &touching),
            false,
        ),
        (
            "runs that touch, at two places",
            (0, None, &low),
            (1, None, &touching),
            true,
        ),
        (
            "runs that overlap",
            (0, None, &low),
            (0, None, &overlapping),
            true,
        ),
        (
            "one within the other",
            (0, None, &low),
            (0, None, &nested),
            true,
        ),
        ("an empty need", (0, None, &low), (0, None, &empty), true),
        (
            "after an empty need",
            (0, None, &empty),
            (0, None, &touching),
            true,
        ),
        (
            "two that read",
            (0, None, &read),
            (1, None, &overlapping),
            false,
        ),
        (
            "a writer after a reader",
            (0, None, &read),
            (0, None, &low),
            true,
        ),
        ("two roots", (0, None, &low), (1, None, &other_root), false),
        (
            "the second of two needs on a root",
            (0, None, &two),
            (0, None, &read),
            true,
        ),
        ("one queue", (0, Some(5), &none), (0, Some(5), &none), true),
        (
            "two queues",
            (0, Some(5), &none),
            (0, Some(6), &none),
            false,
        ),
    ];
    for (name, first, second, want) in cases {
        assert_eq!(rt; waits(rt.alloc(), first, second)?, (want, want), "{name}");
    }
    Ok(())
}

/// A node's place, its queue and its needs.
type Asked<'a> = (u32, Option<u32>, &'a [Part]);

/// Adds a node that names no other.
fn enter(index: &mut Graph, alloc: Global, asked: Asked) -> Result<(), Fail>
    requires { length index.old < 2 ^ 32 - 1 }
    ensures { OnOk result (length index.new ≡ length index.old + 1) }
{
    let (place, queue, needs) = asked;
    match index.add(node(alloc, place, queue, needs)?) {
        Ok(_) => Ok(()),
        Err(_) => Err("memory")?,
    }
}

/// Of three nodes, whether the third is ready at first, and whether the second and the third are
/// once the first is done.
fn turns(
    alloc: Global,
    first: Asked,
    second: Asked,
    third: Asked,
) -> Result<(bool, bool, bool), Fail> {
    let mut index = Graph::new(alloc);
    enter(&mut index, alloc, first)?;
    enter(&mut index, alloc, second)?;
    enter(&mut index, alloc, third)?;
    let early = index.ready(2);
    if index.ready(0) {
        index.done(0);
    }
    Ok((early, index.ready(1), index.ready(2)))
}

#[test]
fn nodes_wait_through_others(rt: HostRuntime) -> Result<(), Fail> {
    use Mode::{Read, Write};
    let whole: [Part; 1] = [(1, Write, 0, 8)];
    let low: [Part; 1] = [(1, Write, 0, 4)];
    let high: [Part; 1] = [(1, Write, 4, 8)];
    let read: [Part; 1] = [(1, Read, 4, 8)];
    let empty: [Part; 1] = [(1, Write, 9, 9)];
    let two: [Part; 2] = [(1, Read, 0, 8), (1, Write, 0, 2)];
    let none: [Part; 0] = [];
    let cases: [(&str, Asked, Asked, Asked, (bool, bool, bool)); 7] = [
        (
            "the last writer stands for the first",
            (0, None, &whole),
            (0, None, &whole),
            (0, None, &read),
            (false, true, false),
        ),
        (
            "a writer of a part doesn't",
            (0, None, &whole),
            (0, None, &low),
            (0, None, &read),
            (false, true, true),
        ),
        (
            "nor does one at another place",
            (0, None, &low),
            (1, None, &low),
            (1, None, &high),
            (false, true, true),
        ),
        (
            "one without elements does",
            (0, None, &low),
            (1, None, &empty),
            (1, None, &high),
            (false, true, false),
        ),
        (
            "a writer after readers",
            (0, None, &read),
            (0, None, &whole),
            (0, None, &read),
            (false, true, false),
        ),
        (
            "a need that isn't covered, of two",
            (0, None, &two),
            (0, None, &low),
            (0, None, &high),
            (false, true, true),
        ),
        (
            "the last of a queue",
            (0, Some(5), &none),
            (0, Some(5), &none),
            (1, Some(5), &none),
            (false, true, false),
        ),
    ];
    for (name, first, second, third, want) in cases {
        assert_eq!(rt; turns(rt.alloc(), first, second, third)?, want, "{name}");
    }
    Ok(())
}

/// Adds a node that names the node `m`.
fn enter_after(index: &mut Graph, alloc: Global, m: u32) -> Result<(), Fail>
    requires room { length index.old < 2 ^ 32 - 1 }
    requires named { m < length index.old }
    ensures { OnOk result (length index.new ≡ length index.old + 1) }
{
    let mut after = Vec::new(alloc);
    after.push(m)?;
    let node = Node {
        needs: Needs::of(Vec::new(alloc)),
        after: Numbers::of(after),
        in_order: None,
        place: 0,
    };
    match index.add(node) {
        Ok(_) => Ok(()),
        Err(_) => Err("memory")?,
    }
}

#[test]
fn nodes_wait_for_those_named(rt: HostRuntime) -> Result<(), Fail> {
    let alloc = rt.alloc();
    let mut index = Graph::new(alloc);
    enter(&mut index, alloc, (0, None, &[]))?;
    assert!(rt; index.ready(0));
    index.done(0);
    assert!(rt; index.node(0).is_none());
    enter_after(&mut index, alloc, 0)?;
    enter_after(&mut index, alloc, 1)?;
    assert!(rt; index.ready(1), "it names one that is done");
    assert!(rt; !index.ready(2), "it names a pending one");
    assert!(rt; index.node(2).is_some());
    let freed = index.done(1);
    assert_eq!(rt; freed.as_slice(), [2].as_slice());
    assert!(rt; index.ready(2), "it named one that is done now");
    Ok(())
}

/// The next number of the generator.
fn draw(x: &mut u32) -> u32
    requires { x.old < 65537 }
    ensures { x.new < 65537 }
{
    *x = (75 * *x + 74) % 65537;
    *x
}

/// The next group: its place, the buffer that it reads, and the one that it reads and writes.
fn group(x: &mut u32) -> (u32, u32, u32)
    requires { x.old < 65537 }
    ensures { x.new < 65537 }
{
    let _first = draw(x);
    let place = 1 + draw(x) % 2;
    let target = draw(x) % 4;
    let other = (target + 1 + draw(x) % 3) % 4;
    let _last = draw(x);
    (place, other, target)
}

#[test]
fn same_ready(rt: HostRuntime) -> Result<(), Fail> {
    let alloc = rt.alloc();
    let mut plain = Plain::new(alloc);
    let mut index = Graph::new(alloc);
    let mut x = 7;
    for _ in 0..2000u32 {
        let (place, other, target) = group(&mut x);
        let needs: [Part; 2] = [(other, Mode::Read, 0, 64), (target, Mode::ReadWrite, 0, 64)];
        add(
            &mut plain,
            &mut index,
            node(alloc, place, None, &needs)?,
            node(alloc, place, None, &needs)?,
        )?;
    }
    let mut was: Vec<bool> = Vec::with_capacity(alloc, 2000)?;
    for n in 0..2000u32 {
        assert_eq!(rt; index.ready(n), plain.ready(n), "{n} at first");
        was.push(index.ready(n))?;
    }
    for step in 0..2000u32 {
        for n in (0..2000u32).rev() {
            if index.ready(n) {
                assert!(rt; plain.ready(n), "{n} in step {step}");
                plain.done(n);
                index.done(n);
                break;
            }
        }
        for (n, before) in (0..2000u32).zip(was.iter_mut()) {
            let now = index.ready(n);
            if n < 200 || now != *before {
                assert_eq!(rt; now, plain.ready(n), "{n} after step {step}");
            }
            *before = now;
        }
    }
    for n in 0..2000u32 {
        assert!(rt; !index.ready(n), "{n} at the end");
    }
    Ok(())
}
