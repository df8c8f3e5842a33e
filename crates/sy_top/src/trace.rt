// What a note tells of a run besides its ending: the counts of the run, and the order of its steps.

ghost use Rattle.std.specs.Prelude.{◌≡◌, ◌++◌, ◌≤◌, ℕ, List, length, nat_eq, IfOk, OnOk};
ghost use Rattle.std.specs.List.{prefix_len};
ghost use Rattle.sy_top.specs.Notes as spec;
ghost use Rattle.sy_top.specs.Trace as trace;

use crate::jobs::Settings;
use crate::notes::Line;
use std::alloc::{AllocError, Global};

/// How many steps at the front are of this thread.
fn steps_of(thread: u32, order: &[u32]) -> usize
    ensures steps { result ≡ prefix_len (nat_eq thread) order.now }
    ensures within { result ≤ length order.now }
{
    order.iter().take_while(|t| thread == **t).count()
}

impl Line {
    fn stretch(&mut self, thread: u32, steps: usize) -> Result<(), AllocError>
        ensures { OnOk result (self.new.text.items ≡ self.old.text.items ++ trace.stretch_line (record { thread = thread; steps = steps })) }
    {
        self.number(b"", thread as u64)?;
        self.number(b" ", steps as u64)?;
        self.put(b"\n")
    }

    /// A line for each longest stretch of steps of one thread.
    fn stretches(&mut self, order: &[u32]) -> Result<(), AllocError>
        ensures { OnOk result (self.new.text.items ≡ self.old.text.items ++ trace.stretch_lines (trace.stretches_of order.now)) }
    {
        let mut rest = order;
        while let [thread, ..] = rest {
            let steps = steps_of(*thread, rest);
            self.stretch(*thread, steps)?;
            rest = rest.split_at(steps).1;
        }
        Ok(())
    }

    #[tactic(auto, unfolding(crate::specs::Trace::trace_text))]
    fn trace(&mut self, order: &[u32]) -> Result<(), AllocError>
        ensures { OnOk result (self.new.text.items ≡ self.old.text.items ++ trace.trace_text order.now) }
    {
        self.put(b"trace 1\n")?;
        self.stretches(order)?;
        self.put(b"end\n")
    }

    #[tactic(auto, unfolding(crate::specs::Notes::stats_line))]
    fn stats(&mut self, commands: u64, steps: usize, copies: u64) -> Result<(), AllocError>
        ensures { OnOk result (self.new.text.items ≡ self.old.text.items ++ spec.stats_line commands steps copies) }
    {
        self.number(b"syclrun: commands ", commands)?;
        self.number(b", steps ", steps as u64)?;
        self.number(b", copies ", copies)?;
        self.put(b"\n")
    }
}

/// What the settings want to be told of a run.
#[tactic(auto, unfolding(crate::specs::Notes::tail_of))]
pub fn tail(
    alloc: Global,
    set: &Settings,
    order: &[u32],
    commands: u64,
    copies: u64,
) -> Result<Vec<u8>, AllocError>
    ensures { IfOk result (λ text. text.items ≡ spec.tail_of set.now order.now commands copies) }
{
    let mut told = Line {
        text: Vec::new(alloc),
    };
    if set.stats {
        told.stats(commands, order.len(), copies)?;
    }
    if set.trace {
        told.trace(order)?;
    }
    let Line { text } = told;
    Ok(text)
}

/// The lines of a trace, spelled out, are the order; each has a step, and neighbours are of different
/// threads.
pub fn lines_are_longest()
    ensures spelled { (order : List ℕ) → trace.spelled (trace.stretches_of order) ≡ order }
    ensures steps { (order : List ℕ) → trace.HaveSteps (trace.stretches_of order) }
    ensures longest { (order : List ℕ) → trace.AreLongest (trace.stretches_of order) }
{}
