// How a run ends, given the least thread that may step, and which thread may step.

ghost use Rattle.std.specs.Prelude.{◌≡◌, ◌<◌, ◌^◌, IfOk};
ghost use Rattle.sy_onecopy.specs.Copies.{copies};
ghost use Rattle.sy_onecopy.specs.Sequence.{goes_on, is_clear, ending_after_main, ending_of_threads, ending_of_main, ending_at};
ghost use Rattle.sy_sound.specs.Sound.{IsSound};
ghost use Rattle.sy_board.specs.Turns.{may_go};

use crate::board::OneCopy;
use std::alloc::{AllocError, Global};
use sy_entries::copies::copies;
use sy_entries::waits::{first_error, has_open_node, has_open_node_on, is_ready, value_of_main};
use sy_work::{Ask, Ending, KernelError};

impl OneCopy {
    /// Whether nothing has ended the run, and main goes on.
    fn goes_on(&self) -> bool
        ensures { result ≡ goes_on self.now }
    {
        self.ended.is_none() && value_of_main(self.waits.as_slice()).is_none()
    }

    /// Whether no node keeps the ask waiting: a throw of a queue waits for the nodes of the queue.
    fn is_clear(&self, ask: &Ask) -> bool
        ensures { result ≡ is_clear self.now ask.now }
    {
        match ask {
            Ask::ThrowQueue(q) => !has_open_node_on(self.entries.as_slice(), *q),
            _ => true,
        }
    }

    /// Whether thread t may step with the ask that is open, if one is.
    pub fn may_go(&self, t: u32, ask: &Option<Ask>) -> bool
        ensures { result ≡ may_go self.now t ask.now }
    {
        match ask {
            Some(ask) => {
                self.goes_on() && (is_ready(self.waits.as_slice(), t) && self.is_clear(ask))
            }
            None => false,
        }
    }

    /// The ending after main's last step, with this value.
    fn main_ending(&self, v: i32) -> Ending
        ensures { result ≡ ending_of_main self.now.entries v }
    {
        if has_open_node(self.entries.as_slice()) {
            return Ending::Stuck;
        }
        ending_after_main(v, first_error(self.entries.as_slice()))
    }

    fn threads_ending(&self, first: Option<u32>) -> Option<Ending>
        ensures { result ≡ ending_of_threads self.now.steps first }
    {
        match first {
            None => Some(Ending::Stuck),
            Some(_) => {
                if self.steps < 1 << 24 {
                    None
                } else {
                    Some(Ending::HistoryFull)
                }
            }
        }
    }

    /// The ending, if there is one, where this is the least thread that may step.
    pub fn ending(&self, first: Option<u32>) -> Option<Ending>
        ensures { result ≡ ending_at self.now first }
    {
        if let Some(e) = self.ended {
            return Some(e);
        }
        match value_of_main(self.waits.as_slice()) {
            Some(v) => Some(self.main_ending(v)),
            None => self.threads_ending(first),
        }
    }

    /// How many copies the run needs.
    pub fn copies(&self, alloc: Global) -> Result<u64, AllocError>
        requires { IsSound self.now }
        ensures { IfOk result (λ n. n ≡ copies self.now.entries self.now.buffers) }
    {
        copies(alloc, self.entries.as_slice(), self.buffers.as_slice())
    }
}

fn ending_after_main(v: i32, error: Option<KernelError>) -> Ending
    ensures { result ≡ ending_after_main v error }
{
    match error {
        None => Ending::Returned(v),
        Some(e) => Ending::KernelFailed(e),
    }
}
