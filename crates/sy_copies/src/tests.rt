ghost use Rattle.std.specs.Prelude.{◌≤◌};

use super::*;
use std::alloc::Global;
use std::test::Fail;
use sy_access::{Cell, Log, Mode, Need, Needs, Values};

fn write(buffer: u32, no_init: bool, from: u32, to: u32) -> Need {
    Need {
        buffer,
        mode: Mode::Write,
        no_init,
        from,
        to,
    }
}

fn read(buffer: u32, from: u32, to: u32) -> Need {
    Need {
        buffer,
        mode: Mode::Read,
        no_init: false,
        from,
        to,
    }
}

/// A new buffer of zeros.
fn make(copies: &mut Copies, len: u64) -> Result<u32, Fail> {
    if !copies.may_make() {
        return Err(Fail::from("too many buffers"));
    }
    Ok(copies.make(len, None)?)
}

/// Copies a buffer from one place to another.
fn carry(alloc: Global, copies: &mut Copies, from: u32, to: u32, buffer: u32) -> Result<(), Fail> {
    let values = match copies.view(from, buffer) {
        Some(values) => values.copy(alloc)?,
        None => return Err(Fail::from("no copy")),
    };
    if copies.len(buffer) != Some(values.items().len() as u64) {
        return Err(Fail::from("another length"));
    }
    match copies.install(to, buffer, values) {
        Ok(()) => Ok(()),
        Err(_) => Err(Fail::from("no memory")),
    }
}

/// Takes the room for a command and publishes it.
fn run(copies: &mut Copies, place: u32, needs: &Needs, log: &Log) -> Result<(), Fail> {
    for need in needs.items() {
        if copies.len(need.buffer).is_some() {
            copies.reserve(place, need.buffer)?;
        }
    }
    if !copies.may_publish(place, needs.items()) {
        return Err(Fail::from("not current"));
    }
    copies.publish(place, needs, log);
    Ok(())
}

/// Whether these numbers are current at the place.
fn shows(copies: &Copies, place: u32, buffer: u32, want: &[i128]) -> bool {
    match copies.view(place, buffer) {
        Some(values) => values.items() == want,
        None => false,
    }
}

fn needs(alloc: Global, items: &[Need]) -> Result<Needs, Fail> {
    Ok(Needs::of(items.to_vec(alloc)?))
}

/// The log of a command that wrote these numbers to elements of the buffer from `at` on.
#[tactic(auto, unfolding(sy_access::specs::Logs::same_cell))]
fn four(alloc: Global, b: u32, at: u32, v: [i128; 4]) -> Result<Log, Fail>
    requires { at ≤ 8 }
{
    let items = vec![in alloc;
        (Cell::Buffer(b, at), v[0]),
        (Cell::Buffer(b, at + 1), v[1]),
        (Cell::Buffer(b, at + 2), v[2]),
        (Cell::Buffer(b, at + 3), v[3]),
    ]?;
    Ok(Log::of(items))
}

/// The log of a command that wrote 7 to the elements 0 to 5 of the buffer.
#[tactic(auto, unfolding(sy_access::specs::Logs::same_cell))]
fn sevens(alloc: Global, b: u32) -> Result<Log, Fail> {
    let items = vec![in alloc;
        (Cell::Buffer(b, 0), 7),
        (Cell::Buffer(b, 1), 7),
        (Cell::Buffer(b, 2), 7),
        (Cell::Buffer(b, 3), 7),
        (Cell::Buffer(b, 4), 7),
        (Cell::Buffer(b, 5), 7),
    ]?;
    Ok(Log::of(items))
}

/// The log of a command that wrote 1 to the even elements of the buffer.
#[tactic(auto, unfolding(sy_access::specs::Logs::same_cell))]
fn even_ones(alloc: Global, b: u32) -> Result<Log, Fail> {
    let items = vec![in alloc;
        (Cell::Buffer(b, 0), 1),
        (Cell::Buffer(b, 2), 1),
        (Cell::Buffer(b, 4), 1),
    ]?;
    Ok(Log::of(items))
}

/// The host, and the contexts of two queues.
const HOST: u32 = 0;

const FIRST: u32 = 2;

const SECOND: u32 = 3;

/// A command with these needs that writes four numbers to the buffer.
fn write_four(
    alloc: Global,
    copies: &mut Copies,
    place: u32,
    items: &[Need],
    written: (u32, u32, [i128; 4]),
) -> Result<(), Fail>
    requires { written.1 ≤ 8 }
{
    let needs = needs(alloc, items)?;
    let log = four(alloc, written.0, written.1, written.2)?;
    run(copies, place, &needs, &log)
}

/// Two commands on one buffer at two places, and one at the first that reads it and writes another.
fn three_commands(alloc: Global, copies: &mut Copies, b: u32, c: u32) -> Result<(), Fail> {
    let fresh = [write(b, true, 0, 4)];
    write_four(alloc, copies, FIRST, &fresh, (b, 0, [0, 1, 2, 3]))?;
    carry(alloc, copies, FIRST, SECOND, b)?;
    let kept = [write(b, false, 0, 4)];
    write_four(alloc, copies, SECOND, &kept, (b, 0, [0, 10, 20, 30]))?;
    carry(alloc, copies, SECOND, FIRST, b)?;
    let both = [read(b, 0, 4), write(c, false, 0, 4)];
    write_four(alloc, copies, FIRST, &both, (c, 0, [1, 11, 21, 31]))
}

#[test]
fn three_commands_at_two_places(rt: HostRuntime) -> Result<(), Fail> {
    let alloc = rt.alloc();
    let mut copies = Copies::new(alloc);
    let b = make(&mut copies, 4)?;
    let c = make(&mut copies, 4)?;
    three_commands(alloc, &mut copies, b, c)?;
    assert!(rt; copies.view(SECOND, c).is_none());
    carry(alloc, &mut copies, FIRST, HOST, c)?;
    carry(alloc, &mut copies, SECOND, HOST, b)?;
    assert!(rt; shows(&copies, HOST, b, &[0, 10, 20, 30]));
    assert!(rt; shows(&copies, HOST, c, &[1, 11, 21, 31]));
    Ok(())
}

/// What the host sees of six elements: all were written at the first place, and then every second one
/// at the second, which had a copy if its need has no no_init.
fn partly_written(alloc: Global, no_init: bool, want: &[i128]) -> Result<bool, Fail> {
    let mut copies = Copies::new(alloc);
    let b = make(&mut copies, 6)?;
    let first = needs(alloc, &[write(b, true, 0, 6)])?;
    run(&mut copies, FIRST, &first, &sevens(alloc, b)?)?;
    if !no_init {
        carry(alloc, &mut copies, FIRST, SECOND, b)?;
    }
    let second = needs(alloc, &[write(b, no_init, 0, 6)])?;
    run(&mut copies, SECOND, &second, &even_ones(alloc, b)?)?;
    carry(alloc, &mut copies, SECOND, HOST, b)?;
    Ok(shows(&copies, HOST, b, want))
}

/// What the host sees of eight elements that two commands at one place wrote, each one half.
fn halves_written(alloc: Global, want: &[i128]) -> Result<bool, Fail> {
    let mut copies = Copies::new(alloc);
    let b = make(&mut copies, 8)?;
    let low = [write(b, false, 0, 4)];
    write_four(alloc, &mut copies, FIRST, &low, (b, 0, [0, 1, 2, 3]))?;
    let high = [write(b, false, 4, 8)];
    write_four(alloc, &mut copies, FIRST, &high, (b, 4, [9, 9, 9, 9]))?;
    carry(alloc, &mut copies, FIRST, HOST, b)?;
    Ok(shows(&copies, HOST, b, want))
}

#[test]
fn partial_writes(rt: HostRuntime) -> Result<(), Fail> {
    let alloc = rt.alloc();
    for (name, no_init, want) in [
        ("keeps", false, [1, 7, 1, 7, 1, 7]),
        ("no_init", true, [1, 0, 1, 0, 1, 0]),
    ] {
        assert!(rt; partly_written(alloc, no_init, &want)?, "{name}");
    }
    assert!(rt; halves_written(alloc, &[0, 1, 2, 3, 9, 9, 9, 9])?);
    Ok(())
}

#[test]
fn a_buffer_with_numbers(rt: HostRuntime) -> Result<(), Fail> {
    let alloc = rt.alloc();
    let mut copies = Copies::new(alloc);
    let b = copies.make(2, Some(Values::of([5, -6].to_vec(alloc)?)))?;
    assert!(rt; shows(&copies, HOST, b, &[5, -6]));
    assert!(rt; copies.view(FIRST, b).is_none());
    carry(alloc, &mut copies, HOST, FIRST, b)?;
    assert!(rt; shows(&copies, FIRST, b, &[5, -6]) && shows(&copies, HOST, b, &[5, -6]));
    copies.drop_buffer(b);
    assert!(rt; copies.view(HOST, b).is_none() && copies.view(FIRST, b).is_none());
    Ok(())
}

#[test]
fn a_host_access_puts_its_numbers_back(rt: HostRuntime) -> Result<(), Fail> {
    let alloc = rt.alloc();
    let mut copies = Copies::new(alloc);
    let b = copies.make(4, Some(Values::of([5, 6, 7, 8].to_vec(alloc)?)))?;
    carry(alloc, &mut copies, HOST, FIRST, b)?;
    let need = Need {
        buffer: b,
        mode: Mode::ReadWrite,
        no_init: false,
        from: 1,
        to: 3,
    };
    if !copies.may_publish(HOST, &[need]) {
        return Err(Fail::from("not current"));
    }
    copies.put_back(HOST, &need, &[1, 2]);
    assert!(rt; shows(&copies, HOST, b, &[5, 1, 2, 8]));
    assert!(rt; copies.view(FIRST, b).is_none());
    Ok(())
}
