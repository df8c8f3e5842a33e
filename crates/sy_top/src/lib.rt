//! The top call: all that the program does, over a source and sinks of bytes.
//!
//! It reads the words and the source, finds its tokens and its tree, asks the rules of typing, runs it, and writes its
//! output and a note. The one form that runs so far is a main that prints sums.
#![tactic(auto)]

ghost use Rattle.std.specs.Prelude.{◌≡◌, IsTrue, ◌++◌, map, string_bytes};
ghost use Rattle.sy_top.specs.Headline.{Answers, AnswersJob, HasCause, Tells, is_plain, outside, stream};
ghost use Rattle.sy_top.specs.Judged.{Writes};
ghost use Rattle.sy_top.specs.Notes.{ended_by, line_of};
ghost use Rattle.sy_top.specs.Words.{words_of};

mod call;
mod jobs;
mod notes;
mod runs;
mod source;
mod trace;
mod words;

use call::{
    Judged, NOT_BUILT, Ready, bad_words_line, judge, not_built_line, stop_line, tell, tell_both,
    without_run, write_fault_line,
};
pub use jobs::{Job, Settings};
pub use notes::Ended;
pub use runs::{Note, Run};
use std::alloc::Global;
use std::sync::Wait;
use std::thread::Threads;
use sy_io::{ReadStop, Sink, Source, read_all, write_all};
use sy_work::Gate;
pub use trace::lines_are_longest;
pub use words::{BadWords, settings};

const SOURCE_LIMIT: usize = 1_048_576;

/// Writes the output of a run, and its note.
fn write_run<O: Sink, E: Sink>(alloc: Global, ready: Ready, out: &mut O, err: &mut E) -> Run
    ensures written { Writes (stream (O.taken out.old) (O.taken out.new) (O.faults out.old) (O.faults out.new)) ready.ending ready.output result.ended }
    ensures order { result.order.items ≡ ready.order.items }
    ensures copies { result.copies ≡ ready.copies }
    ensures note { ready.line.items ≡ line_of (ended_by ready.ending)
        → Tells (stream (E.taken err.old) (E.taken err.new) (E.faults err.old) (E.faults err.new)) (line_of result.ended ++ ready.tail.items) result.note }
{
    let Ready {
        ending,
        order,
        output,
        copies,
        line,
        tail,
    } = ready;
    match write_all(out, output.items()) {
        Ok(()) => {
            let note = tell_both(err, line.as_slice(), tail.as_slice());
            Run {
                ended: Ended::by(ending),
                order,
                copies,
                note,
            }
        }
        Err(_) => {
            let note = tell_both(err, write_fault_line(), tail.as_slice());
            Run {
                ended: Ended::WriteFault,
                order,
                copies,
                note,
            }
        }
    }
}

/// Does a job over the source that it reads.
fn read_and_run<S: Source, O: Sink, E: Sink>(
    alloc: Global,
    set: &Settings,
    source: &mut S,
    out: &mut O,
    err: &mut E,
) -> Run
    ensures cause { HasCause (outside
        (stream (S.left source.old) (S.left source.new) (S.faults source.old) (S.faults source.new))
        (stream (O.taken out.old) (O.taken out.new) (O.faults out.old) (O.faults out.new))
        (stream (E.taken err.old) (E.taken err.new) (E.faults err.old) (E.faults err.new))) set.now result }
{
    let bytes = match read_all(alloc, source, SOURCE_LIMIT) {
        Ok(bytes) => bytes,
        Err(stop) => {
            let note = tell(err, stop_line(stop));
            return without_run(alloc, Ended::by_stop(stop), note);
        }
    };
    match judge(alloc, set, bytes.as_slice()) {
        Ok(Judged::Ran(ready)) => write_run(alloc, ready, out, err),
        Ok(Judged::Checked) => without_run(alloc, Ended::Checked, Note::Nothing),
        Ok(Judged::Refused(diagnostic, line)) => {
            let note = tell(err, line.as_slice());
            without_run(alloc, Ended::Refused(diagnostic), note)
        }
        Err(_) => {
            let note = tell(err, stop_line(ReadStop::Memory));
            without_run(alloc, Ended::Memory, note)
        }
    }
}

/// Does the jobs that wait for nobody, and returns.
pub fn plain_top<S: Source, O: Sink, E: Sink>(
    alloc: Global,
    set: &Settings,
    source: &mut S,
    out: &mut O,
    err: &mut E,
) -> Run
    requires { IsTrue (is_plain set.now.job) }
    ensures cause { HasCause (outside
        (stream (S.left source.old) (S.left source.new) (S.faults source.old) (S.faults source.new))
        (stream (O.taken out.old) (O.taken out.new) (O.faults out.old) (O.faults out.new))
        (stream (E.taken err.old) (E.taken err.new) (E.faults err.old) (E.faults err.new))) set.now result }
{
    read_and_run(alloc, set, source, out, err)
}

/// Does the job that the words name.
fn do_job<S: Source, O: Sink, E: Sink>(
    alloc: Global,
    set: &Settings,
    source: &mut S,
    out: &mut O,
    err: &mut E,
) -> Run
    ensures answer { AnswersJob set.now.job (outside
        (stream (S.left source.old) (S.left source.new) (S.faults source.old) (S.faults source.new))
        (stream (O.taken out.old) (O.taken out.new) (O.faults out.old) (O.faults out.new))
        (stream (E.taken err.old) (E.taken err.new) (E.faults err.old) (E.faults err.new))) set.now result }
{
    if set.job.is_plain() {
        return plain_top(alloc, set, source, out, err);
    }
    match set.job {
        Job::SelfTest => {
            let note = tell(err, not_built_line());
            without_run(alloc, Ended::Refused(NOT_BUILT), note)
        }
        _ => read_and_run(alloc, set, source, out, err),
    }
}

/// Does all that the program does with these words.
pub fn syclrun_top<T: Threads + Wait + Sync, S: Source, O: Sink, E: Sink, G: Gate>(
    rt: &T,
    alloc: Global,
    words: &[String],
    source: &mut S,
    out: &mut O,
    err: &mut E,
    gate: &G,
) -> Run
    ensures answer { Answers (words_of (map string_bytes words.now)) (outside
        (stream (S.left source.old) (S.left source.new) (S.faults source.old) (S.faults source.new))
        (stream (O.taken out.old) (O.taken out.new) (O.faults out.old) (O.faults out.new))
        (stream (E.taken err.old) (E.taken err.new) (E.faults err.old) (E.faults err.new))) result }
{
    let _ = rt;
    let _ = gate;
    match settings(words) {
        Ok(set) => do_job(alloc, &set, source, out, err),
        Err(_) => {
            let note = tell(err, bad_words_line());
            without_run(alloc, Ended::BadWords, note)
        }
    }
}

#[cfg(test)]
mod note_tests;
#[cfg(test)]
mod tests;
#[cfg(test)]
mod words_tests;
