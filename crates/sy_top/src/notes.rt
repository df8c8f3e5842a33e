// What a run's end is called: the answer, its status, and its line on standard error.

ghost use Rattle.std.specs.Prelude.{◌≡◌, ◌++◌, length, IfOk, OnOk, OnErr, codes, decimal};
ghost use Rattle.sy_top.specs.Notes as spec;

use itoa::Buffer;
use std::alloc::{AllocError, Global};
use sy_access::Cell;
use sy_note::Diagnostic;
use sy_work::{Cause, Ending, Errc, HostTrap, KernelError, Why};

/// What a call of the program comes to. The first nine are of an accepted source.
#[derive(Clone, Copy, PartialEq, Eq, Debug)]
pub enum Ended {
    /// In mode check, the source is accepted.
    Checked,
    Returned(i32),
    Terminated(Why),
    KernelFailed(KernelError),
    Trapped(HostTrap),
    /// The thread, and the line at which it had no turn left.
    TurnsSpent(u32, u32),
    Stuck,
    OutputFull,
    HistoryFull,
    /// The source breaks a rule.
    Refused(Diagnostic),
    BadWords,
    SourceTooLong,
    ReadFault,
    WriteFault,
    Memory,
    /// In mode replay, the line of the trace that isn't of its form.
    BadTrace(u32),
    /// In mode replay, the first step of the trace that the machine doesn't make.
    Illegal(u64),
    /// In mode replay, the trace is over before the run.
    Unfinished,
}

impl Ended {
    /// The ending of a run.
    pub fn by(ending: Ending) -> Ended
        ensures { result ≡ spec.ended_by ending }
    {
        match ending {
            Ending::Returned(value) => Ended::Returned(value),
            Ending::Terminated(why) => Ended::Terminated(why),
            Ending::KernelFailed(error) => Ended::KernelFailed(error),
            Ending::Trapped(trap) => Ended::Trapped(trap),
            Ending::TurnsSpent(thread, at) => Ended::TurnsSpent(thread, at),
            Ending::Stuck => Ended::Stuck,
            Ending::OutputFull => Ended::OutputFull,
            Ending::HistoryFull => Ended::HistoryFull,
        }
    }

    /// The program's status: the value of main modulo 256, or 120 where that is a status of
    /// another answer.
    pub fn status(&self) -> u8
        ensures { result ≡ spec.status_of self.now }
    {
        match self {
            Ended::Checked => 0,
            Ended::Returned(value) => returned_status(*value),
            Ended::BadWords => 121,
            Ended::SourceTooLong => 122,
            Ended::ReadFault => 123,
            Ended::Refused(_) => 124,
            Ended::Terminated(_) => 125,
            Ended::KernelFailed(_) => 126,
            Ended::Trapped(_) => 127,
            Ended::TurnsSpent(_, _) => 128,
            Ended::Stuck => 129,
            Ended::OutputFull => 130,
            Ended::HistoryFull => 131,
            Ended::WriteFault => 132,
            Ended::Memory => 133,
            Ended::BadTrace(_) => 134,
            Ended::Illegal(_) => 135,
            Ended::Unfinished => 136,
        }
    }
}

fn returned_status(value: i32) -> u8
    ensures { result ≡ spec.returned_status value }
{
    let low = value.rem_euclid(256) as u8;
    if 121 <= low && low <= 136 { 120 } else { low }
}

/// The words of an error code (SYCL 2020, "Exception class interface").
fn errc_text(errc: Errc) -> &'static [u8]
    ensures { result.now ≡ spec.errc_text errc }
{
    match errc {
        Errc::Runtime => b"terminated: errc::runtime",
        Errc::NdRange => b"terminated: errc::nd_range",
        Errc::KernelArgument => b"terminated: errc::kernel_argument",
        Errc::Invalid => b"terminated: errc::invalid",
        Errc::MemoryAllocation => b"terminated: errc::memory_allocation",
    }
}

fn why_text(why: Why) -> &'static [u8]
    ensures { result.now ≡ spec.why_text why }
{
    match why {
        Why::Joinable => b"terminated: joinable",
        Why::NotJoinable => b"terminated: not joinable",
        Why::Threads => b"terminated: too many threads",
        Why::Length => b"terminated: length",
        Why::Errc(errc) => errc_text(errc),
    }
}

/// A text that is being written.
#[derive(Drop)]
pub struct Line {
    pub text: Vec<u8>,
}

impl Line {
    pub fn put(&mut self, piece: &[u8]) -> Result<(), AllocError>
        ensures { OnOk result (self.new.text.items ≡ self.old.text.items ++ piece.now) }
    {
        self.text.extend_from_slice(piece)
    }

    pub fn number(&mut self, piece: &[u8], n: u64) -> Result<(), AllocError>
        ensures { OnOk result (self.new.text.items ≡ self.old.text.items ++ (piece.now ++ decimal n)) }
    {
        let mut digits = Buffer::new();
        self.text.extend_from_slice(piece)?;
        self.text.extend_from_slice(digits.format(n).as_bytes())
    }

    #[tactic(auto, unfolding(crate::specs::Notes::clash_text))]
    fn clash(&mut self, place: &[u8], owner: u32, element: u32) -> Result<(), AllocError>
        ensures { OnOk result (self.new.text.items ≡ self.old.text.items ++ spec.clash_text place.now owner element) }
    {
        self.number(place, owner as u64)?;
        self.number(b" cell ", element as u64)
    }

    fn cell(&mut self, cell: Cell) -> Result<(), AllocError>
        ensures { OnOk result (self.new.text.items ≡ self.old.text.items ++ spec.cell_text cell) }
    {
        match cell {
            Cell::Buffer(buffer, element) => self.clash(b"clash at buffer ", buffer, element),
            Cell::Local(slot, element) => self.clash(b"clash at local ", slot, element),
        }
    }

    fn cause(&mut self, cause: Cause) -> Result<(), AllocError>
        ensures { OnOk result (self.new.text.items ≡ self.old.text.items ++ spec.cause_text cause) }
    {
        match cause {
            Cause::Overflow => self.put(b"overflow"),
            Cause::ZeroDivisor => self.put(b"division by zero"),
            Cause::Shift => self.put(b"shift count"),
            Cause::Index => self.put(b"index out of range"),
            Cause::Leased => self.put(b"leased vector"),
            Cause::Turns => self.put(b"turns spent"),
            Cause::Clash(cell) => self.cell(cell),
            Cause::Divergence => self.put(b"divergence"),
        }
    }

    #[tactic(auto, unfolding(crate::specs::Notes::at_text))]
    fn at(&mut self, line_number: u32, cause: Cause) -> Result<(), AllocError>
        ensures { OnOk result (self.new.text.items ≡ self.old.text.items ++ spec.at_text line_number cause) }
    {
        self.number(b", line ", line_number as u64)?;
        self.put(b": ")?;
        self.cause(cause)
    }

    #[tactic(auto, unfolding(crate::specs::Notes::item_text))]
    fn item(&mut self, node: u32, item: u64) -> Result<(), AllocError>
        ensures { OnOk result (self.new.text.items ≡ self.old.text.items ++ spec.item_text node item) }
    {
        self.number(b"kernel error: node ", node as u64)?;
        self.number(b", item ", item)
    }

    #[tactic(auto, unfolding(crate::specs::Notes::kernel_text))]
    fn kernel_error(&mut self, error: KernelError) -> Result<(), AllocError>
        ensures { OnOk result (self.new.text.items ≡ self.old.text.items ++ spec.kernel_text error) }
    {
        self.item(error.node, error.fault.item)?;
        self.at(error.fault.line, error.fault.cause)
    }

    #[tactic(auto, unfolding(crate::specs::Notes::trap_text))]
    fn trap(&mut self, trap: HostTrap) -> Result<(), AllocError>
        ensures { OnOk result (self.new.text.items ≡ self.old.text.items ++ spec.trap_text trap) }
    {
        self.number(b"trap: thread ", trap.thread as u64)?;
        self.at(trap.line, trap.cause)
    }

    #[tactic(auto, unfolding(crate::specs::Notes::turns_text))]
    fn turns_spent(&mut self, thread: u32, at: u32) -> Result<(), AllocError>
        ensures { OnOk result (self.new.text.items ≡ self.old.text.items ++ spec.turns_text thread at) }
    {
        self.number(b"turns spent: thread ", thread as u64)?;
        self.number(b", line ", at as u64)
    }
}

/// The text of an answer, without the head and the end of its line.
fn put_text(alloc: Global, to: &mut Line, ended: &Ended) -> Result<(), AllocError>
    ensures { OnOk result (to.new.text.items ≡ to.old.text.items ++ spec.ending_text ended.now) }
{
    match ended {
        Ended::Terminated(why) => to.put(why_text(*why)),
        Ended::KernelFailed(error) => to.kernel_error(*error),
        Ended::Trapped(trap) => to.trap(*trap),
        Ended::TurnsSpent(thread, at) => to.turns_spent(*thread, *at),
        Ended::Stuck => to.put(b"stuck"),
        Ended::OutputFull => to.put(b"output full"),
        Ended::HistoryFull => to.put(b"history full"),
        Ended::BadTrace(at) => to.number(b"bad trace: line ", *at as u64),
        Ended::Illegal(step) => to.number(b"illegal step ", *step),
        Ended::Unfinished => to.put(b"trace ends before the run"),
        Ended::BadWords => to.put(b"bad words"),
        Ended::SourceTooLong => to.put(b"source longer than 1048576 bytes"),
        Ended::ReadFault => to.put(b"read fault"),
        Ended::WriteFault => to.put(b"write fault"),
        Ended::Memory => to.put(b"out of memory"),
        Ended::Refused(diagnostic) => to.put(sy_note::line(alloc, diagnostic)?.as_slice()),
        Ended::Checked | Ended::Returned(_) => Ok(()),
    }
}

impl Ended {
    fn is_silent(&self) -> bool
        ensures { result ≡ spec.is_silent self.now }
    {
        matches!(self, Ended::Checked | Ended::Returned(_))
    }

    /// The line that standard error is told of it, or nothing for a run that ends well.
    #[tactic(auto, unfolding(crate::specs::Notes::line_of))]
    pub fn line(&self, alloc: Global) -> Result<Vec<u8>, AllocError>
        ensures { IfOk result (λ text. text.items ≡ spec.line_of self.now) }
    {
        if self.is_silent() {
            return Ok(Vec::new(alloc));
        }
        let text = Vec::with_capacity(alloc, 96)?;
        let mut told = Line { text };
        told.put(b"syclrun: ")?;
        put_text(alloc, &mut told, self)?;
        told.put(b"\n")?;
        let Line { text } = told;
        Ok(text)
    }
}
