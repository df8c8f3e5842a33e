// Hosts, one for each thread, and the asks that they have open.

ghost use Rattle.std.specs.Prelude.{◌≡◌, ◌⊎◌, ◌<◌, ◌≤◌, ◌^◌, [], ◌∷◌, ℕ, ℤ, List, Option, Some, None, IfOk, OnOk, length, slice_get, slice_set, map};
ghost use Rattle.sy_work.specs.declared.asks.Ask.{Ask};
ghost use Rattle.sy_work.specs.declared.asks.Answer.{Answer};
ghost use Rattle.sy_work.specs.Programs.{NextAsk};
ghost use Rattle.sy_work.specs.Answers.{Fits};
ghost use Rattle.sy_onecopy.specs.declared.Waits.TheVariants.{Due};
ghost use Rattle.sy_onecopy.specs.State.{Board};
ghost use Rattle.sy_onecopy.specs.Step.{once_heard};
ghost use Rattle.sy_board.specs.Turns.{due_of, hear_one};
ghost use Rattle.sy_plain.specs.Hosts.{Asked, Heard, CanHear, HeardAt, HearsAt, AfterDue, IsChild, Seats, Born, Alone};

use std::alloc::AllocError;
use std::mem;
use sy_board::OneCopy;
use sy_work::{Answer, Ask, Host, HostStop};

/// The turns that a host takes at a time.
const SLICE: u32 = 1 << 20;

/// Runs a host to its next ask.
pub fn ask_host<H: Host>(host: &mut H) -> Result<Ask, AllocError>
    requires { H.pending host.old ≡ None }
    ensures { IfOk result (λ q. Asked H.pending H.stands host.old host.new q) }
{
    loop {
        match host.next(SLICE)? {
            HostStop::Asked(ask) => return Ok(ask),
            HostStop::Sliced => {}
        }
    }
}

/// Gives a host its answer and runs it to its next ask.
fn tell<H: Host>(host: &mut H, a: Answer) -> Result<Ask, AllocError>
    requires { (ask : Ask) × (H.pending host.old ≡ Some ask) × Fits ask a }
    ensures { IfOk result (λ q. Heard H.pending H.stands host.old host.new a q) }
{
    host.answer(a)?;
    let ask = ask_host(host)?;
    Ok(ask)
}

/// Notes the ask that a thread has open.
fn note(slot: &mut Option<Ask>, ask: Ask)
    ensures { slot.new ≡ Some ask }
{
    let _old = mem::replace(slot, Some(ask));
}

/// Gives the host of thread k its answer, and notes its next ask.
fn tell_at<H: Host>(
    hosts: &mut Vec<H>,
    asks: &mut Vec<Option<Ask>>,
    k: usize,
    a: Answer,
) -> Result<(), AllocError>
    requires can { CanHear H.pending hosts.old.items k a }
    requires same { length asks.old.items ≡ length hosts.old.items }
    ensures { OnOk result (HeardAt H.pending H.stands hosts.old.items asks.old.items k a hosts.new.items asks.new.items) }
{
    let ask = tell(&mut hosts[k], a)?;
    note(&mut asks[k], ask);
    Ok(())
}

/// The ask that thread t has open, which is noted no longer.
pub fn take_ask(asks: &mut Vec<Option<Ask>>, t: u32) -> Ask
    requires { (q : Ask) × (slice_get asks.old.items t ≡ Some (Some q)) }
    ensures taken { slice_get asks.old.items t ≡ Some (Some result) }
    ensures rest { asks.new.items ≡ slice_set asks.old.items t None }
{
    match mem::replace(&mut asks[t as usize], None) {
        Some(ask) => ask,
        None => unreachable!(),
    }
}

/// Adds a host with its first ask.
pub fn seat<H: Host + Drop>(
    hosts: &mut Vec<H>,
    asks: &mut Vec<Option<Ask>>,
    host: H,
) -> Result<(), AllocError>
    requires { H.pending host ≡ None }
    ensures { OnOk result (Seats H.pending H.stands host hosts.old.items asks.old.items hosts.new.items asks.new.items) }
{
    let mut host = host;
    let ask = ask_host(&mut host)?;
    hosts.push(host)?;
    asks.push(Some(ask))?;
    Ok(())
}

/// The host that an ask starts, where there are so many already: at most 64 in the end.
fn child_of<H: Host>(count: usize, host: &H, ask: &Ask) -> Result<Option<H>, AllocError>
    requires { H.pending host.now ≡ Some ask.now }
    ensures { IfOk result (λ child. IsChild H.pending H.stands host.now ask.now count child) }
{
    match ask {
        Ask::Spawn(body, captures) => {
            if count >= 64 {
                return Ok(None);
            }
            let child = host.child(*body, captures)?;
            Ok(Some(child))
        }
        _ => Ok(None),
    }
}

/// Adds the host that the ask of thread t starts, if it starts one.
pub fn add_child<H: Host + Drop>(
    hosts: &mut Vec<H>,
    asks: &mut Vec<Option<Ask>>,
    count: usize,
    t: u32,
    ask: &Ask,
) -> Result<(), AllocError>
    requires { (h : H) × (slice_get hosts.old.items t ≡ Some h) × (H.pending h ≡ Some ask.now) }
    ensures { (h : H) → slice_get hosts.old.items t ≡ Some h → OnOk result (Born H.pending H.stands h ask.now count hosts.old.items asks.old.items hosts.new.items asks.new.items ⊎ Alone ask.now count hosts.old.items asks.old.items hosts.new.items asks.new.items) }
{
    let child = child_of(count, &hosts[t as usize], ask)?;
    match child {
        Some(host) => {
            seat(hosts, asks, host)?;
            Ok(())
        }
        None => Ok(()),
    }
}

/// The answer that is due to thread k, if one is, reaches it.
fn hear_at<H: Host>(
    board: &mut OneCopy,
    hosts: &mut Vec<H>,
    asks: &mut Vec<Option<Ask>>,
    k: usize,
) -> Result<(), AllocError>
    requires can { (a : Answer) → Some a ≡ due_of (slice_get board.old.waits k) → CanHear H.pending hosts.old.items k a }
    requires same { length asks.old.items ≡ length hosts.old.items }
    ensures board { OnOk result (board.new ≡ hear_one k board.old) }
    ensures heard { OnOk result (HearsAt H.pending H.stands (due_of (slice_get board.old.waits k)) hosts.old.items asks.old.items k hosts.new.items asks.new.items) }
{
    match board.hear(k) {
        Some(a) => {
            tell_at(hosts, asks, k, a)?;
            Ok(())
        }
        None => Ok(()),
    }
}

/// The answers that are due reach their threads.
pub fn hear_all<H: Host>(
    board: &mut OneCopy,
    hosts: &mut Vec<H>,
    asks: &mut Vec<Option<Ask>>,
) -> Result<(), AllocError>
    requires hosts { length hosts.old.items ≡ length board.old.waits }
    requires asks { length asks.old.items ≡ length board.old.waits }
    requires fit { (u : ℕ) (a : Answer) → slice_get board.old.waits u ≡ Some (Due a) → CanHear H.pending hosts.old.items u a }
    ensures board { OnOk result (board.new ≡ record board.old { waits = map once_heard board.old.waits }) }
    ensures hosts { OnOk result (length hosts.new.items ≡ length hosts.old.items) }
    ensures asks { OnOk result (length asks.new.items ≡ length asks.old.items) }
    ensures told { (u : ℕ) → OnOk result (AfterDue H.pending H.stands (due_of (slice_get board.old.waits u)) (slice_get hosts.old.items u) (slice_get hosts.new.items u) (slice_get asks.old.items u) (slice_get asks.new.items u)) }
{
    for k in 0..board.threads() {
        hear_at(board, hosts, asks, k)?;
    }
    Ok(())
}
