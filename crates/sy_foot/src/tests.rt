use super::*;
use std::alloc::Global;
use std::process::Abort;
use std::test::Fail;
use sy_access::{Cell, Mode, Need};

/// Cells below this one are shared by groups.
const SHARED: u32 = 6;

const CELLS: u32 = 8;

/// A touch of a cell by an item of a group in a phase.
#[derive(Clone, Copy, Debug, PartialEq, Eq)]
struct Step {
    phase: u32,
    item: u32,
    cell: u32,
    writes: bool,
    number: i128,
}

impl Step {
    /// Both touch one cell, and one of them writes.
    fn meets(&self, other: &Step) -> bool {
        self.cell == other.cell && (self.writes || other.writes)
    }

    /// What it clashes with is a touch by another item in the phase.
    fn clashes(&self, taken: &[Step]) -> bool {
        taken.iter().any(|t| t.phase == self.phase && t.item != self.item && t.meets(self))
    }

    /// Whether it meets a touch of an earlier group.
    fn meets_groups(&self, earlier: &[Step]) -> bool {
        self.cell < SHARED && earlier.iter().any(|t| t.meets(self))
    }

    /// The number in its cell after the steps so far, each cell with 100 at first.
    fn number_seen(&self, taken: &[Step]) -> i128 {
        let mut number = 100;
        for t in taken {
            if t.writes && t.cell == self.cell {
                number = t.number;
            }
        }
        number
    }

    fn touch(&self, footprint: &mut Footprint) -> Result<i128, TouchStop> {
        if !self.writes {
            return footprint.read(self.cell, 100);
        }
        footprint.write(self.cell, self.number)?;
        Ok(self.number)
    }
}

/// Pseudo-random numbers (Knuth's MMIX).
#[derive(Drop)]
struct Draw(u64);

impl Draw {
    fn below(&mut self, n: u32) -> u32 {
        self.0 = self
            .0
            .wrapping_mul(6364136223846793005)
            .wrapping_add(1442695040888963407);
        ((self.0 >> 33) as u32).checked_rem(n).unwrap_or(0)
    }

    fn step(&mut self, phase: u32, item: u32) -> Step {
        Step {
            phase,
            item,
            cell: self.below(CELLS),
            writes: self.below(3) == 0,
            number: self.below(1000) as i128,
        }
    }
}

/// Takes one step, and compares with the lists of steps.
fn take(
    rt: &impl Abort,
    footprint: &mut Footprint,
    taken: &mut Vec<Step>,
    step: Step,
) -> Result<(), Fail> {
    if step.clashes(taken.as_slice()) {
        assert_eq!(rt; step.touch(footprint), Err(TouchStop::Clash), "{step:?}");
        return Ok(());
    }
    let seen = if step.writes {
        step.number
    } else {
        step.number_seen(taken.as_slice())
    };
    assert_eq!(rt; step.touch(footprint), Ok(seen), "{step:?}");
    taken.push(step)?;
    Ok(())
}

/// One phase of the items, each with up to three steps.
fn run_phase(
    rt: &impl Abort,
    draw: &mut Draw,
    footprint: &mut Footprint,
    taken: &mut Vec<Step>,
    phase: u32,
    items: u32,
) -> Result<(), Fail> {
    for item in 0..items {
        for _ in 0..draw.below(4) {
            let step = draw.step(phase, item);
            take(rt, footprint, taken, step)?;
        }
        footprint.next_item()?;
    }
    footprint.next_phase()?;
    Ok(())
}

/// Two groups of two to six items over three phases.
fn run_groups(rt: &impl Abort, alloc: Global, draw: &mut Draw) -> Result<(), Fail> {
    let mut footprint = Footprint::new(alloc, CELLS as usize)?;
    let mut groups = EarlierGroups::new(alloc, SHARED as usize)?;
    let mut earlier = Vec::new(alloc);
    for _ in 0..2u32 {
        let items = draw.below(5).saturating_add(2);
        let mut taken = Vec::new(alloc);
        footprint.clear();
        for phase in 0..3 {
            run_phase(rt, draw, &mut footprint, &mut taken, phase, items)?;
        }
        absorb(rt, &footprint, &mut groups, &mut earlier, taken.as_slice())?;
    }
    let needs = [need(0, 0, SHARED)];
    let numbers = CellNumbers::new(alloc, &needs, &[(CELLS - SHARED) as u64])?;
    let log = groups.log(alloc, &numbers)?;
    let mut want = Vec::new(alloc);
    for step in &earlier {
        note(&mut want, step)?;
    }
    assert_eq!(rt; log.items(), want.as_slice());
    Ok(())
}

/// Each shared cell once with its last number, in the order of first writes.
fn note(log: &mut Vec<(Cell, i128)>, step: &Step) -> Result<(), Fail> {
    if !step.writes || step.cell >= SHARED {
        return Ok(());
    }
    let cell = Cell::Buffer(0, step.cell);
    for (c, number) in log.iter_mut() {
        if *c == cell {
            *number = step.number;
            return Ok(());
        }
    }
    log.push((cell, step.number))?;
    Ok(())
}

/// Takes the group's steps to those of the earlier groups where none meets them.
fn absorb(
    rt: &impl Abort,
    footprint: &Footprint,
    groups: &mut EarlierGroups,
    earlier: &mut Vec<Step>,
    taken: &[Step],
) -> Result<(), Fail> {
    for step in taken {
        assert_eq!(rt;
            groups.meets(step.cell, step.writes),
            step.meets_groups(earlier.as_slice()),
            "{step:?}"
        );
    }
    let meets = taken.iter().any(|s| s.meets_groups(earlier.as_slice()));
    let absorbed = groups.absorb(footprint);
    assert_eq!(rt;
        absorbed,
        if meets {
            Err(AbsorbStop::Clash)
        } else {
            Ok(())
        }
    );
    if !meets {
        earlier.extend_from_slice(taken)?;
    }
    Ok(())
}

#[test]
fn drawn_steps(rt: HostRuntime) -> Result<(), Fail> {
    let mut draw = Draw(2026);
    for _ in 0..2000u32 {
        run_groups(&rt, rt.alloc(), &mut draw)?;
    }
    Ok(())
}

#[test]
fn one_group(rt: HostRuntime) -> Result<(), Fail> {
    let mut f = Footprint::new(rt.alloc(), 4)?;
    assert_eq!(rt; f.read(0, 7), Ok(7));
    assert_eq!(rt; f.write(0, 8), Ok(()), "an item's own touch");
    assert_eq!(rt; f.read(0, 7), Ok(8));
    assert_eq!(rt; f.read(1, 5), Ok(5));
    f.next_item()?;
    assert_eq!(rt; f.read(0, 7), Err(TouchStop::Clash), "written before");
    assert_eq!(rt; f.write(1, 0), Err(TouchStop::Clash), "read before");
    assert_eq!(rt; f.read(1, 5), Ok(5), "two reads");
    f.next_phase()?;
    assert_eq!(rt; f.read(0, 7), Ok(8), "a number of an earlier phase");
    assert_eq!(rt; f.write(1, 6), Ok(()));
    assert_eq!(rt; f.read(4, 0), Err(TouchStop::Outside));
    assert_eq!(rt; f.entries().len(), 2);
    f.clear();
    assert_eq!(rt; f.read(1, 5), Ok(5));
    Ok(())
}

#[test]
fn a_group_goes_on_after_it_meets_another(rt: HostRuntime) -> Result<(), Fail> {
    let mut groups = EarlierGroups::new(rt.alloc(), 2)?;
    let mut f = Footprint::new(rt.alloc(), 2)?;
    assert_eq!(rt; f.write(0, 1), Ok(()));
    assert_eq!(rt; groups.absorb(&f), Ok(()));
    f.clear();
    assert!(rt; groups.meets(0, false));
    assert_eq!(rt; f.read(0, 7), Ok(7), "the opening number");
    assert_eq!(rt; f.write(1, 2), Ok(()));
    f.next_item()?;
    assert_eq!(rt; f.read(1, 7), Err(TouchStop::Clash), "its own failure");
    assert_eq!(rt; groups.absorb(&f), Err(AbsorbStop::Clash));
    Ok(())
}

fn need(buffer: u32, from: u32, to: u32) -> Need {
    Need {
        buffer,
        mode: Mode::ReadWrite,
        no_init: false,
        from,
        to,
    }
}

#[test]
fn cells_are_numbered(rt: HostRuntime) -> Result<(), Fail> {
    let needs = [need(3, 0, 4), need(5, 7, 9), need(3, 9, 9), need(3, 2, 6)];
    let numbers = CellNumbers::new(rt.alloc(), &needs, &[2, 0, 1])?;
    assert_eq!(rt; (numbers.count(), numbers.shared()), (11, 8));
    let cells = [
        (Cell::Buffer(5, 7), 0),
        (Cell::Buffer(5, 8), 1),
        (Cell::Buffer(3, 0), 2),
        (Cell::Buffer(3, 5), 7),
        (Cell::Local(0, 0), 8),
        (Cell::Local(2, 0), 10),
    ];
    for (cell, number) in cells {
        assert_eq!(rt; numbers.number(cell), Some(number), "{cell:?}");
        assert_eq!(rt; numbers.cell(number), Some(cell), "{number}");
    }
    for cell in [
        Cell::Buffer(3, 6),
        Cell::Buffer(4, 0),
        Cell::Local(1, 0),
        Cell::Local(3, 0),
    ] {
        assert_eq!(rt; numbers.number(cell), None, "{cell:?}");
    }
    assert_eq!(rt; numbers.cell(11), None);
    Ok(())
}

#[test]
fn too_many_cells(rt: HostRuntime) -> Result<(), Fail> {
    let whole = need(0, 0, u32::MAX);
    assert_eq!(rt;
        CellNumbers::new(rt.alloc(), &[whole, whole], &[])?.count(),
        u32::MAX
    );
    for (needs, lengths) in [
        ([whole, need(1, 0, 1)], [0]),
        ([whole, whole], [1]),
        ([need(0, 0, 0), need(0, 0, 0)], [1 << 32]),
    ] {
        match CellNumbers::new(rt.alloc(), &needs, &lengths) {
            Ok(_) => assert!(rt; false),
            Err(stop) => assert_eq!(rt; stop, NumberingStop::TooMany),
        }
    }
    Ok(())
}
