// The plain run of a program: the least thread that may step makes each step.

ghost use Rattle.std.specs.Prelude.{◌≡◌, ◌+◌, ◌<◌, ◌≤◌, ◌^◌, true, [], ◌∷◌, ℕ, ℤ, List, Option, Some, None, IfOk, OnOk, length};
ghost use Rattle.sy_work.specs.Programs.{Program};
ghost use Rattle.sy_onecopy.specs.State.{State, start};
ghost use Rattle.sy_onecopy.specs.Step.{step};
ghost use Rattle.sy_onecopy.specs.Sequence.{seq, is_legal, IsRun, IsSerial};
ghost use Rattle.sy_sound.specs.Known.{AllKnown, Knows};
ghost use Rattle.sy_sound.specs.Agree.{AgreeOn};
ghost use Rattle.sy_plain.specs.Runs.{Begins, Hold, CanStep, least};

use crate::hosts::{add_child, hear_all, seat, take_ask};
use std::alloc::{AllocError, Global};
use sy_board::OneCopy;
use sy_work::{Ask, End, Host, Runner};

/// The least thread that may step.
fn first_thread(board: &OneCopy, asks: &[Option<Ask>]) -> Option<u32>
    requires { length asks.now ≤ 2 ^ 32 }
    ensures { result ≡ least board.now 0 asks.now }
{
    for (t, ask) in asks.iter().enumerate() {
        if board.may_go(t as u32, ask) {
            return Some(t as u32);
        }
    }
    None
}

/// One step of thread t.
fn step<H: Host + Drop, R: Runner>(
    alloc: Global,
    board: &mut OneCopy,
    hosts: &mut Vec<H>,
    asks: &mut Vec<Option<Ask>>,
    t: u32,
    runner: &R,
) -> Result<(), AllocError>
    requires can { CanStep H.pending H.stands (R.outcome runner.now) (R.knows runner.now) board.old hosts.old.items asks.old.items t }
    requires known { AllKnown (R.knows runner.now) board.old.entries }
    ensures known { OnOk result (AllKnown (R.knows runner.now) board.new.entries) }
    ensures counted { OnOk result (board.new.steps ≡ board.old.steps + 1) }
    ensures holds { (p : Program) (order : List ℕ) (s : State) → AgreeOn (R.knows runner.now) p.outcome (R.outcome runner.now) → seq p order ≡ Some s → is_legal p s t ≡ true → Hold H.pending H.stands p board.old hosts.old.items asks.old.items s → OnOk result (Hold H.pending H.stands p board.new hosts.new.items asks.new.items (step p s t)) }
{
    let ask = take_ask(asks, t);
    add_child(hosts, asks, board.threads(), t, &ask)?;
    board.turn(alloc, t, &ask, runner)?;
    hear_all(board, hosts, asks)?;
    Ok(())
}

/// Runs a program from the host of its main, until the run ends.
pub fn run_plain<H: Host + Drop, R: Runner>(
    alloc: Global,
    main: H,
    runner: &R,
) -> Result<End, AllocError>
    requires closed { H.pending main ≡ None }
    requires begins { (p : Program) × Begins H.stands (R.knows runner.now) (R.outcome runner.now) p main × Knows (R.knows runner.now) p }
    ensures run { (p : Program) → Begins H.stands (R.knows runner.now) (R.outcome runner.now) p main → IfOk result (λ e. IsRun p e.order.items e.ending e.output e.copies) }
    ensures serial { (p : Program) → Begins H.stands (R.knows runner.now) (R.outcome runner.now) p main → IfOk result (λ e. IsSerial p (start p) e.order.items) }
{
    let mut board = OneCopy::new(alloc)?;
    let mut hosts = Vec::new(alloc);
    let mut asks = Vec::new(alloc);
    seat(&mut hosts, &mut asks, main)?;
    let mut order = Vec::new(alloc);
    loop {
        let first = first_thread(&board, asks.as_slice());
        if let Some(ending) = board.ending(first) {
            let copies = board.copies(alloc)?;
            return Ok(End {
                ending,
                order,
                output: board.into_output(),
                copies,
            });
        }
        let Some(t) = first else { unreachable!() };
        step(alloc, &mut board, &mut hosts, &mut asks, t, runner)?;
        order.push(t)?;
    }
}
