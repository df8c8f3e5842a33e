// Asks as plain data, from which rows are written.

ghost use Rattle.std.specs.Prelude.{◌≡◌, IfOk};

use std::alloc::{AllocError, Global};
use sy_access::{Bytes, Cell, Device, Log, Mode, Need, Needs, Numbers, Sizes, Values};
use sy_num::Kind;
use sy_range::Range;
use sy_scripted::{Line, Script, TableRow};
use sy_work::{
    Answer, Ask, Command, Errc, Fault, Halt, Kernel, NewBuffer, NewQueue, Outcome, Submission, Why,
    copied,
};

/// A need: the buffer, the mode, whether it has `no_init`, and the run of elements.
pub type Wanted = (u32, Mode, bool, u32, u32);

/// A command: the kernel of this code number, a fill of its first need, or a copy from its first
/// need to its second.
#[derive(Clone, Copy)]
pub enum Does {
    Kernel(u32),
    Fill(i128),
    Copy,
}

/// An ask.
#[derive(Clone, Copy)]
pub enum Do {
    Print(&'static str),
    /// A text of so many bytes.
    PrintLong(u32),
    /// A buffer from a range of so many elements.
    Buffer(u64),
    /// A buffer over a vector.
    Over(&'static [i128]),
    /// Elements of a buffer: the first of them, and how many.
    Part(u32, u32, u64),
    End(u32),
    Open(Wanted),
    Close(u32, &'static [i128]),
    Context,
    /// A queue of the context at the place, in order or not.
    Queue(u32, bool),
    /// A command on a queue with its needs, behind the nodes that it names.
    Submit(u32, Does, &'static [Wanted], &'static [u32]),
    WaitNode(u32),
    WaitQueue(u32),
    Throw(u32),
    Spawn(u32),
    Join(u32),
    Terminate(Why),
    /// The run ends, as the thread has no turn left at this line.
    SpendTurns(u32),
}

/// The answer that an ask wants.
#[derive(Clone, Copy)]
pub enum Gets {
    Done,
    Number(u32),
    Contents(&'static [i128]),
    Refused(Errc),
    /// None comes, or it isn't looked at.
    Any,
}

/// What a kernel does: it writes numbers to the elements of a buffer from this one on, or fails.
#[derive(Clone, Copy)]
pub enum Outcomes {
    Writes(u32, u32, &'static [i128]),
    /// It writes a number to elements 0, 2 and 4 of a buffer.
    WritesEven(u32, i128),
    Fails(Fault),
}

fn values(alloc: Global, numbers: &[i128]) -> Result<Values, AllocError>
    ensures { IfOk result (λ values. values ≡ numbers.now) }
{
    Ok(Values::of(Vec::from_slice(alloc, numbers)?))
}

fn need(wanted: &Wanted) -> Need {
    let (buffer, mode, no_init, from, to) = *wanted;
    Need {
        buffer,
        mode,
        no_init,
        from,
        to,
    }
}

fn needs(alloc: Global, wanted: &[Wanted]) -> Result<Needs, AllocError> {
    let mut items = Vec::new(alloc);
    for one in wanted {
        items.push(need(one))?;
    }
    Ok(Needs::of(items))
}

fn buffer(alloc: Global, count: u64, init: Option<&[i128]>) -> Result<Ask, AllocError> {
    let init = match init {
        Some(numbers) => Some(values(alloc, numbers)?),
        None => None,
    };
    Ok(Ask::MakeBuffer(NewBuffer {
        kind: Kind::Int,
        range: Range::new(&[count]),
        init,
    }))
}

fn command(alloc: Global, does: Does) -> Command {
    match does {
        Does::Kernel(code) => Command::Single(Kernel {
            code,
            captures: Values::of(Vec::new(alloc)),
            locals: Sizes::of(Vec::new(alloc)),
            turns: 1,
        }),
        Does::Fill(number) => Command::Fill(0, number),
        Does::Copy => Command::Copy(0, 1),
    }
}

fn submission(
    alloc: Global,
    queue: u32,
    does: Does,
    wanted: &[Wanted],
    after: &[u32],
) -> Result<Ask, AllocError> {
    Ok(Ask::Submit(Submission {
        queue,
        command: command(alloc, does),
        needs: needs(alloc, wanted)?,
        after: Numbers::of(Vec::from_slice(alloc, after)?),
    }))
}

fn ask(alloc: Global, what: &Do) -> Result<Ask, AllocError> {
    match *what {
        Do::Print(text) => Ok(Ask::Print(Bytes::of(Vec::from_slice(alloc, text.as_bytes())?))),
        Do::PrintLong(count) => Ok(Ask::Print(Bytes::of(vec![in alloc; b'x'; count as usize]?))),
        Do::Buffer(count) => buffer(alloc, count, None),
        Do::Over(numbers) => buffer(alloc, numbers.len() as u64, Some(numbers)),
        Do::Part(parent, base, count) => Ok(Ask::MakeSub(parent, base, Range::new(&[count]))),
        Do::End(buffer) => Ok(Ask::EndBuffer(buffer)),
        Do::Open(wanted) => Ok(Ask::OpenHost(need(&wanted))),
        Do::Close(access, numbers) => Ok(Ask::CloseHost(access, values(alloc, numbers)?)),
        Do::Context => Ok(Ask::MakeContext(Device::whole())),
        Do::Queue(context, in_order) => Ok(Ask::MakeQueue(NewQueue {
            context,
            device: Device::whole(),
            in_order,
        })),
        Do::Submit(queue, does, wanted, after) => submission(alloc, queue, does, wanted, after),
        Do::WaitNode(node) => Ok(Ask::WaitNode(node)),
        Do::WaitQueue(queue) => Ok(Ask::WaitQueue(queue)),
        Do::Throw(queue) => Ok(Ask::ThrowQueue(queue)),
        Do::Spawn(body) => Ok(Ask::Spawn(body, Values::of(Vec::new(alloc)))),
        Do::Join(thread) => Ok(Ask::Join(thread)),
        Do::Terminate(why) => Ok(Ask::Halt(Halt::Terminated(why))),
        Do::SpendTurns(line) => Ok(Ask::Halt(Halt::TurnsSpent(line))),
    }
}

fn answer(alloc: Global, gets: &Gets) -> Result<Option<Answer>, AllocError> {
    match *gets {
        Gets::Any => Ok(None),
        Gets::Done => Ok(Some(Answer::Done)),
        Gets::Number(n) => Ok(Some(Answer::Number(n))),
        Gets::Contents(numbers) => Ok(Some(Answer::Contents(values(alloc, numbers)?))),
        Gets::Refused(errc) => Ok(Some(Answer::Refused(errc))),
    }
}

fn line(alloc: Global, what: &Do, gets: &Gets) -> Result<Line, AllocError> {
    let ask = ask(alloc, what)?;
    let wants = answer(alloc, gets)?;
    Ok(Line { ask, wants })
}

/// Some lines of a script.
pub type Part = &'static [(Do, Gets)];

fn add_part(alloc: Global, to: &mut Vec<Line>, part: Part) -> Result<(), AllocError> {
    for (what, gets) in part {
        to.push(line(alloc, what, gets)?)?;
    }
    Ok(())
}

/// The script of a body, whose lines come in parts.
pub fn script(alloc: Global, parts: &[Part]) -> Result<Script, AllocError> {
    let mut lines = Vec::new(alloc);
    for part in parts {
        add_part(alloc, &mut lines, part)?;
    }
    Ok(Script::of(lines))
}

fn run_of(alloc: Global, buffer: u32, from: u32, numbers: &[i128]) -> Result<Outcome, AllocError> {
    if numbers.len() > 1 << 20 || from > 1 << 20 {
        return Ok(Outcome::Wrote(Log::of(Vec::new(alloc))));
    }
    let target = (buffer, from, values(alloc, numbers)?);
    Ok(Outcome::Wrote(copied(alloc, &target, &target)?))
}

#[tactic(auto, unfolding(sy_access::specs::Logs::same_cell))]
fn evens(alloc: Global, buffer: u32, number: i128) -> Result<Outcome, AllocError> {
    let log = Log::of(vec![in alloc;
        (Cell::Buffer(buffer, 0), number),
        (Cell::Buffer(buffer, 2), number),
        (Cell::Buffer(buffer, 4), number),
    ]?);
    Ok(Outcome::Wrote(log))
}

/// The row of a kernel in the table.
pub fn row(alloc: Global, code: u32, does: &Outcomes) -> Result<TableRow, AllocError> {
    let outcome = match *does {
        Outcomes::Writes(buffer, from, numbers) => run_of(alloc, buffer, from, numbers)?,
        Outcomes::WritesEven(buffer, number) => evens(alloc, buffer, number)?,
        Outcomes::Fails(fault) => Outcome::Failed(fault),
    };
    Ok(TableRow { code, outcome })
}
