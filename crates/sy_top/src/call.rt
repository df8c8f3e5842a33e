// The steps of a call: a source is read, judged and run, and then its output and its note are written.

ghost use Rattle.std.specs.Prelude.{◌≡◌, ◌≤◌, [], ◌++◌, length, IfOk};
ghost use Rattle.sy_top.specs.Headline.{Tells, not_built, stream};
ghost use Rattle.sy_top.specs.Judged.{Judges, JudgesTree, IsRefusal, IsRefusalBy, IsRunOfTree, ended_by_stop, is_failed, joined};
ghost use Rattle.sy_top.specs.Notes.{line_of};
ghost use Rattle.sy_top.specs.declared.jobs.Job.TheVariants.{Check, Serial};
ghost use Rattle.sy_top.specs.declared.notes.Ended.TheVariants as ended;

use crate::jobs::{Job, Settings};
use crate::notes::Ended;
use crate::runs::{Note, Run};
use crate::source::accepted_tree;
use crate::trace::tail;
use std::alloc::{AllocError, Global};
use sy_access::Bytes;
use sy_io::{ReadStop, Sink, write_all};
use sy_note::{Code, Diagnostic, FrontStop, Spot};
use sy_sums::{first_unbuilt, run_sums};
use sy_tree::Unit;
use sy_work::{End, Ending};

/// A run that is over, before its output is written.
#[derive(Drop)]
pub struct Ready {
    pub ending: Ending,
    pub order: Vec<u32>,
    pub output: Bytes,
    pub copies: u64,
    /// The line of its ending.
    pub line: Vec<u8>,
    /// What the settings want to be told of it.
    pub tail: Vec<u8>,
}

/// What a source that was read comes to, with its note.
#[derive(Drop)]
pub enum Judged {
    Ran(Ready),
    /// In mode check, the source is accepted.
    Checked,
    Refused(Diagnostic, Vec<u8>),
}

/// The diagnostic of a job that isn't built.
pub const NOT_BUILT: Diagnostic = Diagnostic {
    spot: Spot::START,
    code: Code::NotBuilt,
};

/// A refusal, with its note.
fn refuse(alloc: Global, diagnostic: Diagnostic) -> Result<Judged, AllocError>
    ensures { IfOk result (IsRefusal diagnostic) }
{
    let note = Ended::Refused(diagnostic).line(alloc)?;
    Ok(Judged::Refused(diagnostic, note))
}

/// The same where a layer of the front end stopped.
fn refuse_stop(alloc: Global, stop: FrontStop) -> Result<Judged, AllocError>
    ensures { IfOk result (IsRefusalBy stop) }
{
    match stop {
        FrontStop::Refused(diagnostic) => refuse(alloc, diagnostic),
        FrontStop::Memory => Err(AllocError),
    }
}

/// The run of a tree, which submits no command.
fn run_tree(alloc: Global, set: &Settings, unit: &Unit) -> Result<Ready, AllocError>
    ensures { IfOk result (IsRunOfTree set.now unit.now) }
{
    let End {
        ending,
        order,
        output,
        copies,
    } = run_sums(alloc, unit, set.turns)?;
    let line = Ended::by(ending).line(alloc)?;
    let tail = tail(alloc, set, order.as_slice(), 0, copies)?;
    Ok(Ready {
        ending,
        order,
        output,
        copies,
        line,
        tail,
    })
}

/// Runs a tree whose forms are all built.
fn judge_tree(alloc: Global, set: &Settings, unit: &Unit) -> Result<Judged, AllocError>
    ensures { IfOk result (JudgesTree set.now unit.now) }
{
    match first_unbuilt(unit) {
        Some(spot) => refuse(
            alloc,
            Diagnostic {
                spot,
                code: Code::NotBuilt,
            },
        ),
        None => Ok(Judged::Ran(run_tree(alloc, set, unit)?)),
    }
}

/// Looks whether a source is accepted.
fn check_source(alloc: Global, set: &Settings, bytes: &[u8]) -> Result<Judged, AllocError>
    requires bytes { length bytes.now ≤ 1048576 }
    requires job { set.now.job ≡ Check }
    ensures { IfOk result (Judges set.now bytes.now) }
{
    let _ = set;
    match accepted_tree(alloc, bytes) {
        Ok(_unit) => Ok(Judged::Checked),
        Err(stop) => refuse_stop(alloc, stop),
    }
}

/// Runs a source if it is accepted.
fn run_source(alloc: Global, set: &Settings, bytes: &[u8]) -> Result<Judged, AllocError>
    requires bytes { length bytes.now ≤ 1048576 }
    requires job { set.now.job ≡ Serial }
    ensures { IfOk result (Judges set.now bytes.now) }
{
    match accepted_tree(alloc, bytes) {
        Ok(unit) => judge_tree(alloc, set, &unit),
        Err(stop) => refuse_stop(alloc, stop),
    }
}

/// Does a job over a source that was read.
pub fn judge(alloc: Global, set: &Settings, bytes: &[u8]) -> Result<Judged, AllocError>
    requires { length bytes.now ≤ 1048576 }
    ensures { IfOk result (Judges set.now bytes.now) }
{
    match set.job {
        Job::Check => check_source(alloc, set, bytes),
        Job::Serial => run_source(alloc, set, bytes),
        _ => refuse(alloc, NOT_BUILT),
    }
}

impl Ended {
    /// The answer where the source wasn't read.
    pub fn by_stop(stop: ReadStop) -> Ended
        ensures { result ≡ ended_by_stop stop }
    {
        match stop {
            ReadStop::TooLong => Ended::SourceTooLong,
            ReadStop::Fault => Ended::ReadFault,
            ReadStop::Memory => Ended::Memory,
        }
    }
}

/// The line of such an answer, which needs no memory.
#[tactic(auto, unfolding(crate::specs::Notes::line_of))]
pub fn stop_line(stop: ReadStop) -> &'static [u8]
    ensures { result.now ≡ line_of (ended_by_stop stop) }
{
    match stop {
        ReadStop::TooLong => b"syclrun: source longer than 1048576 bytes\n",
        ReadStop::Fault => b"syclrun: read fault\n",
        ReadStop::Memory => b"syclrun: out of memory\n",
    }
}

/// The line of what isn't built.
#[tactic(auto, unfolding(crate::specs::Notes::line_of))]
pub fn not_built_line() -> &'static [u8]
    ensures { result.now ≡ line_of (ended.Refused not_built) }
{
    b"syclrun: 1:1: not built\n"
}

/// The line of a run whose output met a fault.
#[tactic(auto, unfolding(crate::specs::Notes::line_of))]
pub fn write_fault_line() -> &'static [u8]
    ensures { result.now ≡ line_of ended.WriteFault }
{
    b"syclrun: write fault\n"
}

/// The line of words that aren't taken.
#[tactic(auto, unfolding(crate::specs::Notes::line_of))]
pub fn bad_words_line() -> &'static [u8]
    ensures { result.now ≡ line_of ended.BadWords }
{
    b"syclrun: bad words\n"
}

impl Note {
    fn is_failed(self) -> bool
        ensures { result ≡ is_failed self }
    {
        matches!(self, Note::Failed)
    }

    /// What is noted of two texts that are told one after the other.
    fn joined(self, next: Note) -> Note
        ensures { result ≡ joined self next }
    {
        match (self, next) {
            (Note::Nothing, _) => next,
            (Note::Failed, _) | (_, Note::Failed) => Note::Failed,
            (Note::Written, _) => Note::Written,
        }
    }
}

/// Tells standard error a text.
pub fn tell<E: Sink>(err: &mut E, text: &[u8]) -> Note
    ensures { Tells (stream (E.taken err.old) (E.taken err.new) (E.faults err.old) (E.faults err.new)) text.now result }
{
    if text.is_empty() {
        return Note::Nothing;
    }
    match write_all(err, text) {
        Ok(()) => Note::Written,
        Err(_) => Note::Failed,
    }
}

/// Tells standard error two texts, one after the other.
pub fn tell_both<E: Sink>(err: &mut E, first: &[u8], second: &[u8]) -> Note
    ensures { Tells (stream (E.taken err.old) (E.taken err.new) (E.faults err.old) (E.faults err.new)) (first.now ++ second.now) result }
{
    let note = tell(err, first);
    if note.is_failed() {
        return note;
    }
    note.joined(tell(err, second))
}

/// An answer without a run.
pub fn without_run(alloc: Global, ended: Ended, note: Note) -> Run
    ensures ended { result.ended ≡ ended }
    ensures order { result.order.items ≡ [] }
    ensures copies { result.copies ≡ 0 }
    ensures note { result.note ≡ note }
{
    Run {
        ended,
        order: Vec::new(alloc),
        copies: 0,
        note,
    }
}
