// What entries and waits tell of nodes, accesses and threads.

ghost use Rattle.std.specs.Prelude.{◌≡◌, ◌≤◌, ℕ, ℤ, length, slice_get, count_by};
ghost use Rattle.sy_onecopy.specs.Step.{is_access_of, accesses, is_access, access_from, error_in, error_on, node_done, is_node_on, number_of, is_past, queue_done, has_finished, ending_by};
ghost use Rattle.sy_onecopy.specs.Sequence.{is_ready, ready_at, value_of_main, has_open_node_on, is_command, has_open_node, error_of, first_error};

use crate::order::{is_done, is_node};
use sy_onecopy::{Entry, Stage, Waits, Work};
use sy_work::{Ending, Halt, HostTrap, KernelError};

fn is_access_of(work: &Work, t: u32) -> bool
    ensures { result ≡ is_access_of t work.now }
{
    match work {
        Work::Node(_, _, _) => false,
        Work::Access(u, _) => *u == t,
        Work::End(_, _) => false,
    }
}

/// How many accesses the thread has opened.
#[tactic(auto, unfolding(sy_onecopy::specs::Step::accesses))]
pub fn accesses(entries: &[Entry], t: u32) -> usize
    ensures count { result ≡ accesses entries.now t }
    ensures few { result ≤ length entries.now }
{
    entries.iter().filter(|e| is_access_of(&e.work, t)).count()
}

fn is_access(work: &Work, t: u32, k: u32) -> bool
    ensures { result ≡ is_access work.now t k }
{
    match work {
        Work::Node(_, _, _) => false,
        Work::Access(u, i) => *u == t && *i == k,
        Work::End(_, _) => false,
    }
}

/// Where the thread's access of that number stands.
pub fn access_at(entries: &[Entry], t: u32, k: u32) -> Option<usize>
    ensures { result ≡ access_from 0 entries.now t k }
{
    for (at, e) in entries.iter().enumerate() {
        if is_access(&e.work, t, k) {
            return Some(at);
        }
    }
    None
}

/// The error of a failed node of that queue.
fn error_in(q: u32, work: &Work, stage: &Stage) -> Option<KernelError>
    ensures { result ≡ error_in q work.now stage.now }
{
    match (work, stage) {
        (Work::Node(n, p, _), Stage::Failed(fault)) if *p == q => Some(KernelError {
            node: *n,
            fault: *fault,
        }),
        _ => None,
    }
}

/// The error of the least failed node of the queue.
pub fn error_on(q: u32, entries: &[Entry]) -> Option<KernelError>
    ensures { result ≡ error_on q entries.now }
{
    for e in entries {
        if let Some(error) = error_in(q, &e.work, &e.stage) {
            return Some(error);
        }
    }
    None
}

fn error_of(work: &Work, stage: &Stage) -> Option<KernelError>
    ensures { result ≡ error_of work.now stage.now }
{
    match (work, stage) {
        (Work::Node(n, _, _), Stage::Failed(fault)) => Some(KernelError {
            node: *n,
            fault: *fault,
        }),
        _ => None,
    }
}

/// The error of the least failed node.
pub fn first_error(entries: &[Entry]) -> Option<KernelError>
    ensures { result ≡ first_error entries.now }
{
    for e in entries {
        if let Some(error) = error_of(&e.work, &e.stage) {
            return Some(error);
        }
    }
    None
}

#[tactic(auto, unfolding(sy_onecopy::specs::Step::node_done))]
pub fn node_done(entries: &[Entry], n: u32) -> bool
    ensures { result ≡ node_done entries.now n }
{
    entries
        .iter()
        .any(|e| is_node(&e.work, n) && is_done(&e.stage))
}

fn is_node_on(work: &Work, q: u32) -> bool
    ensures { result ≡ is_node_on q work.now }
{
    match work {
        Work::Node(_, p, _) => *p == q,
        Work::Access(_, _) => false,
        Work::End(_, _) => false,
    }
}

fn number_of(work: &Work) -> u32
    ensures { result ≡ number_of work.now }
{
    match work {
        Work::Node(n, _, _) => *n,
        Work::Access(_, _) => 0,
        Work::End(_, _) => 0,
    }
}

/// Whether the entry is no node of that queue below that number, or is done.
fn is_past(q: u32, n: u32, e: &Entry) -> bool
    ensures { result ≡ is_past q n e.now }
{
    !(is_node_on(&e.work, q) && number_of(&e.work) < n) || is_done(&e.stage)
}

#[tactic(auto, unfolding(sy_onecopy::specs::Step::queue_done))]
pub fn queue_done(entries: &[Entry], q: u32, n: u32) -> bool
    ensures { result ≡ queue_done entries.now q n }
{
    entries.iter().all(|e| is_past(q, n, e))
}

pub fn has_finished(waits: &[Waits], t: u32) -> bool
    ensures { result ≡ has_finished (slice_get waits.now t) }
{
    matches!(waits.get(t as usize), Some(Waits::Finished(_)))
}

pub fn is_ready(waits: &[Waits], t: u32) -> bool
    ensures { result ≡ ready_at (slice_get waits.now t) }
{
    matches!(waits.get(t as usize), Some(Waits::Ready))
}

/// The value of main's last step, if it has made it.
pub fn value_of_main(waits: &[Waits]) -> Option<i32>
    ensures { result ≡ value_of_main waits.now }
{
    match waits.first() {
        Some(Waits::Finished(v)) => Some(*v),
        _ => None,
    }
}

/// Whether a node of the queue isn't done.
#[tactic(auto, unfolding(sy_onecopy::specs::Sequence::has_open_node_on))]
pub fn has_open_node_on(entries: &[Entry], q: u32) -> bool
    ensures { result ≡ has_open_node_on entries.now q }
{
    entries
        .iter()
        .any(|e| is_node_on(&e.work, q) && !is_done(&e.stage))
}

fn is_command(work: &Work) -> bool
    ensures { result ≡ is_command work.now }
{
    match work {
        Work::Node(_, _, _) => true,
        Work::Access(_, _) => false,
        Work::End(_, _) => false,
    }
}

#[tactic(auto, unfolding(sy_onecopy::specs::Sequence::has_open_node))]
pub fn has_open_node(entries: &[Entry]) -> bool
    ensures { result ≡ has_open_node entries.now }
{
    entries
        .iter()
        .any(|e| is_command(&e.work) && !is_done(&e.stage))
}

/// How a thread that halts ends the run.
pub fn ending_by(t: u32, halt: Halt) -> Ending
    ensures { result ≡ ending_by t halt }
{
    match halt {
        Halt::Terminated(why) => Ending::Terminated(why),
        Halt::Trapped(cause, line) => Ending::Trapped(HostTrap {
            thread: t,
            line,
            cause,
        }),
        Halt::TurnsSpent(line) => Ending::TurnsSpent(t, line),
    }
}
