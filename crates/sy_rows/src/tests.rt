// The rows: each with its scripts, its table of kernels, and how it comes out.

use crate::asks::{Do, Does, Gets, Outcomes, Part, row, script};
use crate::play;
use std::alloc::{AllocError, Global};
use std::process::Abort;
use std::test::Fail;
use sy_access::Mode;
use sy_scripted::{Script, TableRow};
use sy_work::{Cause, End, Ending, Errc, Fault, KernelError, Why};

/// The script of each body, main's first, the kernels by their code numbers, and how the run comes
/// out: its order as stretches of one thread's steps.
#[derive(Clone, Copy)]
struct Row {
    bodies: &'static [&'static [Part]],
    kernels: &'static [Outcomes],
    ending: Ending,
    order: &'static [(u32, usize)],
    output: &'static str,
    copies: u64,
}

const FAULT: Fault = Fault {
    item: 5,
    line: 6,
    cause: Cause::ZeroDivisor,
};

const FIRST_NODE_FAILED: Ending = Ending::KernelFailed(KernelError {
    node: 0,
    fault: FAULT,
});

fn scripts(alloc: Global, bodies: &[&[Part]]) -> Result<Vec<Script>, AllocError> {
    let mut items = Vec::new(alloc);
    for parts in bodies {
        items.push(script(alloc, parts)?)?;
    }
    Ok(items)
}

fn table(alloc: Global, kernels: &[Outcomes]) -> Result<Vec<TableRow>, AllocError> {
    let mut items = Vec::new(alloc);
    for (code, kernel) in (0u32..100).zip(kernels) {
        items.push(row(alloc, code, kernel)?)?;
    }
    Ok(items)
}

fn spelled(alloc: Global, order: &[(u32, usize)]) -> Result<Vec<u32>, AllocError> {
    let mut items = Vec::new(alloc);
    for (thread, steps) in order {
        for _ in 0..*steps {
            items.push(*thread)?;
        }
    }
    Ok(items)
}

fn comes_out<R: AllocGlobal + Abort>(rt: &R, name: &str, end: &End, row: &Row) -> Result<(), Fail> {
    let order = spelled(rt.alloc(), row.order)?;
    assert_eq!(rt; end.ending, row.ending, "{name}");
    assert_eq!(rt; end.order.as_slice(), order.as_slice(), "{name}");
    assert_eq!(rt; end.output.items(), row.output.as_bytes(), "{name}");
    assert_eq!(rt; end.copies, row.copies, "{name}");
    Ok(())
}

fn check<R: AllocGlobal + Abort>(rt: &R, name: &str, row: &Row) -> Result<(), Fail> {
    let alloc = rt.alloc();
    let scripts = scripts(alloc, row.bodies)?;
    let table = table(alloc, row.kernels)?;
    let end = play(alloc, scripts, table)?;
    comes_out(rt, name, &end, row)
}

/// A queue of the default context.
const QUEUE: (Do, Gets) = (Do::Queue(1, false), Gets::Number(0));

/// Two contexts with a queue of each.
const TWO: Part = &[
    (Do::Context, Gets::Number(2)),
    (Do::Context, Gets::Number(3)),
    (Do::Queue(2, false), Gets::Number(0)),
    (Do::Queue(3, false), Gets::Number(1)),
];

const EMPTY_MAIN: Row = Row {
    bodies: &[&[]],
    kernels: &[],
    ending: Ending::Returned(0),
    order: &[(0, 1)],
    output: "",
    copies: 0,
};

#[test]
fn empty_main(rt: HostRuntime) -> Result<(), Fail> {
    check(&rt, "empty-main", &EMPTY_MAIN)
}

const ADD_TWO: Row = Row {
    bodies: &[&[
        &[
            QUEUE,
            (Do::Over(&[1; 16]), Gets::Number(0)),
            (
                Do::Submit(
                    0,
                    Does::Kernel(0),
                    &[(0, Mode::ReadWrite, false, 0, 16)],
                    &[],
                ),
                Gets::Number(0),
            ),
            (Do::End(0), Gets::Contents(&[3; 16])),
        ],
        &[(Do::Print("3"), Gets::Done); 16],
    ]],
    kernels: &[Outcomes::Writes(0, 0, &[3; 16])],
    ending: Ending::Returned(0),
    order: &[(0, 21)],
    output: "3333333333333333",
    copies: 2,
};

#[test]
fn add_two(rt: HostRuntime) -> Result<(), Fail> {
    check(&rt, "add-two", &ADD_TWO)
}

const THREE_COMMANDS: Row = Row {
    bodies: &[&[
        TWO,
        &[
            (Do::Buffer(4), Gets::Number(0)),
            (Do::Buffer(4), Gets::Number(1)),
            (
                Do::Submit(0, Does::Kernel(0), &[(0, Mode::Write, true, 0, 4)], &[]),
                Gets::Number(0),
            ),
            (
                Do::Submit(
                    1,
                    Does::Kernel(1),
                    &[(0, Mode::ReadWrite, false, 0, 4)],
                    &[],
                ),
                Gets::Number(1),
            ),
            (
                Do::Submit(
                    0,
                    Does::Kernel(2),
                    &[(0, Mode::Read, false, 0, 4), (1, Mode::Write, false, 0, 4)],
                    &[],
                ),
                Gets::Number(2),
            ),
            (
                Do::Open((1, Mode::Read, false, 0, 4)),
                Gets::Contents(&[1, 11, 21, 31]),
            ),
            (
                Do::Open((0, Mode::Read, false, 0, 4)),
                Gets::Contents(&[0, 10, 20, 30]),
            ),
        ],
        &[
            (Do::Print("1"), Gets::Done),
            (Do::Print(" "), Gets::Done),
            (Do::Print("0"), Gets::Done),
            (Do::Print(" "), Gets::Done),
            (Do::Print("11"), Gets::Done),
            (Do::Print(" "), Gets::Done),
            (Do::Print("10"), Gets::Done),
            (Do::Print(" "), Gets::Done),
            (Do::Print("21"), Gets::Done),
            (Do::Print(" "), Gets::Done),
            (Do::Print("20"), Gets::Done),
            (Do::Print(" "), Gets::Done),
            (Do::Print("31"), Gets::Done),
            (Do::Print(" "), Gets::Done),
            (Do::Print("30"), Gets::Done),
            (Do::Print(" "), Gets::Done),
        ],
        &[
            (Do::Close(1, &[0, 10, 20, 30]), Gets::Done),
            (Do::Close(0, &[1, 11, 21, 31]), Gets::Done),
            (Do::End(1), Gets::Done),
            (Do::End(0), Gets::Done),
        ],
    ]],
    kernels: &[
        Outcomes::Writes(0, 0, &[0, 1, 2, 3]),
        Outcomes::Writes(0, 0, &[0, 10, 20, 30]),
        Outcomes::Writes(1, 0, &[1, 11, 21, 31]),
    ],
    ending: Ending::Returned(0),
    order: &[(0, 32)],
    output: "1 0 11 10 21 20 31 30 ",
    copies: 4,
};

#[test]
fn three_commands(rt: HostRuntime) -> Result<(), Fail> {
    check(&rt, "three-commands-two-places, stats", &THREE_COMMANDS)
}

const PARTIAL_WRITE: Row = Row {
    bodies: &[&[
        TWO,
        &[
            (Do::Buffer(6), Gets::Number(0)),
            (
                Do::Submit(0, Does::Kernel(0), &[(0, Mode::Write, true, 0, 6)], &[]),
                Gets::Number(0),
            ),
            (
                Do::Submit(1, Does::Kernel(1), &[(0, Mode::Write, false, 0, 6)], &[]),
                Gets::Number(1),
            ),
            (
                Do::Open((0, Mode::Read, false, 0, 6)),
                Gets::Contents(&[1, 7, 1, 7, 1, 7]),
            ),
        ],
        &[
            (Do::Print("1"), Gets::Done),
            (Do::Print("7"), Gets::Done),
            (Do::Print("1"), Gets::Done),
            (Do::Print("7"), Gets::Done),
            (Do::Print("1"), Gets::Done),
            (Do::Print("7"), Gets::Done),
        ],
        &[
            (Do::Close(0, &[1, 7, 1, 7, 1, 7]), Gets::Done),
            (Do::End(0), Gets::Done),
        ],
    ]],
    kernels: &[Outcomes::Writes(0, 0, &[7; 6]), Outcomes::WritesEven(0, 1)],
    ending: Ending::Returned(0),
    order: &[(0, 17)],
    output: "171717",
    copies: 2,
};

#[test]
fn partial_write(rt: HostRuntime) -> Result<(), Fail> {
    check(&rt, "partial-write-keeps", &PARTIAL_WRITE)
}

const PARTIAL_WRITE_NO_INIT: Row = Row {
    bodies: &[&[
        TWO,
        &[
            (Do::Buffer(6), Gets::Number(0)),
            (
                Do::Submit(0, Does::Kernel(0), &[(0, Mode::Write, true, 0, 6)], &[]),
                Gets::Number(0),
            ),
            (
                Do::Submit(1, Does::Kernel(1), &[(0, Mode::Write, true, 0, 6)], &[]),
                Gets::Number(1),
            ),
            (
                Do::Open((0, Mode::Read, false, 0, 6)),
                Gets::Contents(&[1, 0, 1, 0, 1, 0]),
            ),
        ],
        &[
            (Do::Print("1"), Gets::Done),
            (Do::Print("0"), Gets::Done),
            (Do::Print("1"), Gets::Done),
            (Do::Print("0"), Gets::Done),
            (Do::Print("1"), Gets::Done),
            (Do::Print("0"), Gets::Done),
        ],
        &[
            (Do::Close(0, &[1, 0, 1, 0, 1, 0]), Gets::Done),
            (Do::End(0), Gets::Done),
        ],
    ]],
    kernels: &[Outcomes::Writes(0, 0, &[7; 6]), Outcomes::WritesEven(0, 1)],
    ending: Ending::Returned(0),
    order: &[(0, 17)],
    output: "101010",
    copies: 1,
};

#[test]
fn partial_write_no_init(rt: HostRuntime) -> Result<(), Fail> {
    check(&rt, "partial-write-no-init", &PARTIAL_WRITE_NO_INIT)
}

const COMMAND_WAITS: Row = Row {
    bodies: &[&[&[
        QUEUE,
        (Do::Buffer(1), Gets::Number(0)),
        (Do::Buffer(1), Gets::Number(1)),
        (
            Do::Open((0, Mode::ReadWrite, false, 0, 1)),
            Gets::Contents(&[0]),
        ),
        (
            Do::Submit(
                0,
                Does::Kernel(0),
                &[(0, Mode::Read, false, 0, 1), (1, Mode::Write, false, 0, 1)],
                &[],
            ),
            Gets::Number(0),
        ),
        (Do::Close(0, &[41]), Gets::Done),
        (
            Do::Open((1, Mode::Read, false, 0, 1)),
            Gets::Contents(&[42]),
        ),
        (Do::Print("42"), Gets::Done),
        (Do::Close(1, &[42]), Gets::Done),
        (Do::End(1), Gets::Done),
        (Do::End(0), Gets::Done),
    ]]],
    kernels: &[Outcomes::Writes(1, 0, &[42])],
    ending: Ending::Returned(0),
    order: &[(0, 12)],
    output: "42",
    copies: 2,
};

#[test]
fn command_waits(rt: HostRuntime) -> Result<(), Fail> {
    check(&rt, "command-waits-for-host-accessor", &COMMAND_WAITS)
}

const KERNEL_ERROR_THROWN: Row = Row {
    bodies: &[&[&[
        (Do::Print("go"), Gets::Done),
        QUEUE,
        (Do::Buffer(8), Gets::Number(0)),
        (Do::Buffer(8), Gets::Number(1)),
        (
            Do::Submit(0, Does::Kernel(0), &[(0, Mode::Write, false, 0, 8)], &[]),
            Gets::Number(0),
        ),
        (
            Do::Submit(0, Does::Kernel(1), &[(1, Mode::Write, false, 0, 8)], &[]),
            Gets::Number(1),
        ),
        (Do::Throw(0), Gets::Any),
        (Do::Print("no"), Gets::Done),
    ]]],
    kernels: &[Outcomes::Fails(FAULT), Outcomes::Writes(1, 0, &[1; 8])],
    ending: FIRST_NODE_FAILED,
    order: &[(0, 7)],
    output: "go",
    copies: 0,
};

#[test]
fn kernel_error_thrown(rt: HostRuntime) -> Result<(), Fail> {
    check(&rt, "kernel-error-after_throw", &KERNEL_ERROR_THROWN)
}

const KERNEL_ERROR_AT_THE_END: Row = Row {
    bodies: &[&[&[
        (Do::Print("go"), Gets::Done),
        QUEUE,
        (Do::Buffer(8), Gets::Number(0)),
        (Do::Buffer(8), Gets::Number(1)),
        (
            Do::Submit(0, Does::Kernel(0), &[(0, Mode::Write, false, 0, 8)], &[]),
            Gets::Number(0),
        ),
        (
            Do::Submit(0, Does::Kernel(1), &[(1, Mode::Write, false, 0, 8)], &[]),
            Gets::Number(1),
        ),
        (Do::Print("no"), Gets::Done),
        (Do::End(1), Gets::Done),
        (Do::End(0), Gets::Done),
    ]]],
    kernels: &[Outcomes::Fails(FAULT), Outcomes::Writes(1, 0, &[1; 8])],
    ending: FIRST_NODE_FAILED,
    order: &[(0, 10)],
    output: "gono",
    copies: 0,
};

#[test]
fn kernel_error_at_the_end(rt: HostRuntime) -> Result<(), Fail> {
    check(&rt, "kernel-error-at-the-end", &KERNEL_ERROR_AT_THE_END)
}

const STUCK: Row = Row {
    bodies: &[&[&[
        (Do::Buffer(1), Gets::Number(0)),
        (Do::Print("x"), Gets::Done),
        (
            Do::Open((0, Mode::ReadWrite, false, 0, 1)),
            Gets::Contents(&[0]),
        ),
        (Do::Open((0, Mode::ReadWrite, false, 0, 1)), Gets::Any),
        (Do::Print("y"), Gets::Done),
    ]]],
    kernels: &[],
    ending: Ending::Stuck,
    order: &[(0, 4)],
    output: "x",
    copies: 0,
};

#[test]
fn stuck(rt: HostRuntime) -> Result<(), Fail> {
    check(&rt, "stuck-on-own-accessor", &STUCK)
}

const TWO_THREADS: Row = Row {
    bodies: &[
        &[&[
            QUEUE,
            (Do::Buffer(1), Gets::Number(0)),
            (Do::Spawn(1), Gets::Number(1)),
            (Do::Spawn(2), Gets::Number(2)),
            (Do::Join(1), Gets::Done),
            (Do::Join(2), Gets::Done),
            (
                Do::Open((0, Mode::Read, false, 0, 1)),
                Gets::Contents(&[20]),
            ),
            (Do::Print("20"), Gets::Done),
            (Do::Close(0, &[20]), Gets::Done),
            (Do::End(0), Gets::Done),
        ]],
        &[&[
            (
                Do::Submit(
                    0,
                    Does::Kernel(0),
                    &[(0, Mode::ReadWrite, false, 0, 1)],
                    &[],
                ),
                Gets::Number(0),
            ),
            (
                Do::Submit(
                    0,
                    Does::Kernel(1),
                    &[(0, Mode::ReadWrite, false, 0, 1)],
                    &[],
                ),
                Gets::Number(1),
            ),
            (
                Do::Submit(
                    0,
                    Does::Kernel(2),
                    &[(0, Mode::ReadWrite, false, 0, 1)],
                    &[],
                ),
                Gets::Number(2),
            ),
            (
                Do::Submit(
                    0,
                    Does::Kernel(3),
                    &[(0, Mode::ReadWrite, false, 0, 1)],
                    &[],
                ),
                Gets::Number(3),
            ),
            (
                Do::Submit(
                    0,
                    Does::Kernel(4),
                    &[(0, Mode::ReadWrite, false, 0, 1)],
                    &[],
                ),
                Gets::Number(4),
            ),
            (
                Do::Submit(
                    0,
                    Does::Kernel(5),
                    &[(0, Mode::ReadWrite, false, 0, 1)],
                    &[],
                ),
                Gets::Number(5),
            ),
            (
                Do::Submit(
                    0,
                    Does::Kernel(6),
                    &[(0, Mode::ReadWrite, false, 0, 1)],
                    &[],
                ),
                Gets::Number(6),
            ),
            (
                Do::Submit(
                    0,
                    Does::Kernel(7),
                    &[(0, Mode::ReadWrite, false, 0, 1)],
                    &[],
                ),
                Gets::Number(7),
            ),
            (
                Do::Submit(
                    0,
                    Does::Kernel(8),
                    &[(0, Mode::ReadWrite, false, 0, 1)],
                    &[],
                ),
                Gets::Number(8),
            ),
            (
                Do::Submit(
                    0,
                    Does::Kernel(9),
                    &[(0, Mode::ReadWrite, false, 0, 1)],
                    &[],
                ),
                Gets::Number(9),
            ),
        ]],
        &[&[
            (
                Do::Submit(
                    0,
                    Does::Kernel(10),
                    &[(0, Mode::ReadWrite, false, 0, 1)],
                    &[],
                ),
                Gets::Number(10),
            ),
            (
                Do::Submit(
                    0,
                    Does::Kernel(11),
                    &[(0, Mode::ReadWrite, false, 0, 1)],
                    &[],
                ),
                Gets::Number(11),
            ),
            (
                Do::Submit(
                    0,
                    Does::Kernel(12),
                    &[(0, Mode::ReadWrite, false, 0, 1)],
                    &[],
                ),
                Gets::Number(12),
            ),
            (
                Do::Submit(
                    0,
                    Does::Kernel(13),
                    &[(0, Mode::ReadWrite, false, 0, 1)],
                    &[],
                ),
                Gets::Number(13),
            ),
            (
                Do::Submit(
                    0,
                    Does::Kernel(14),
                    &[(0, Mode::ReadWrite, false, 0, 1)],
                    &[],
                ),
                Gets::Number(14),
            ),
            (
                Do::Submit(
                    0,
                    Does::Kernel(15),
                    &[(0, Mode::ReadWrite, false, 0, 1)],
                    &[],
                ),
                Gets::Number(15),
            ),
            (
                Do::Submit(
                    0,
                    Does::Kernel(16),
                    &[(0, Mode::ReadWrite, false, 0, 1)],
                    &[],
                ),
                Gets::Number(16),
            ),
            (
                Do::Submit(
                    0,
                    Does::Kernel(17),
                    &[(0, Mode::ReadWrite, false, 0, 1)],
                    &[],
                ),
                Gets::Number(17),
            ),
            (
                Do::Submit(
                    0,
                    Does::Kernel(18),
                    &[(0, Mode::ReadWrite, false, 0, 1)],
                    &[],
                ),
                Gets::Number(18),
            ),
            (
                Do::Submit(
                    0,
                    Does::Kernel(19),
                    &[(0, Mode::ReadWrite, false, 0, 1)],
                    &[],
                ),
                Gets::Number(19),
            ),
        ]],
    ],
    kernels: &[
        Outcomes::Writes(0, 0, &[1]),
        Outcomes::Writes(0, 0, &[2]),
        Outcomes::Writes(0, 0, &[3]),
        Outcomes::Writes(0, 0, &[4]),
        Outcomes::Writes(0, 0, &[5]),
        Outcomes::Writes(0, 0, &[6]),
        Outcomes::Writes(0, 0, &[7]),
        Outcomes::Writes(0, 0, &[8]),
        Outcomes::Writes(0, 0, &[9]),
        Outcomes::Writes(0, 0, &[10]),
        Outcomes::Writes(0, 0, &[11]),
        Outcomes::Writes(0, 0, &[12]),
        Outcomes::Writes(0, 0, &[13]),
        Outcomes::Writes(0, 0, &[14]),
        Outcomes::Writes(0, 0, &[15]),
        Outcomes::Writes(0, 0, &[16]),
        Outcomes::Writes(0, 0, &[17]),
        Outcomes::Writes(0, 0, &[18]),
        Outcomes::Writes(0, 0, &[19]),
        Outcomes::Writes(0, 0, &[20]),
    ],
    ending: Ending::Returned(0),
    order: &[(0, 5), (1, 11), (0, 1), (2, 11), (0, 5)],
    output: "20",
    copies: 1,
};

#[test]
fn two_threads(rt: HostRuntime) -> Result<(), Fail> {
    check(&rt, "two-threads-twenty", &TWO_THREADS)
}

const TWO_PRINTERS: Row = Row {
    bodies: &[
        &[&[
            (Do::Spawn(1), Gets::Number(1)),
            (Do::Print("B"), Gets::Done),
            (Do::Join(1), Gets::Done),
        ]],
        &[&[(Do::Print("A"), Gets::Done)]],
    ],
    kernels: &[],
    ending: Ending::Returned(0),
    order: &[(0, 3), (1, 2), (0, 1)],
    output: "BA",
    copies: 0,
};

#[test]
fn two_printers(rt: HostRuntime) -> Result<(), Fail> {
    check(&rt, "two-printers", &TWO_PRINTERS)
}

const JOINABLE: Row = Row {
    bodies: &[
        &[&[
            (Do::Spawn(1), Gets::Number(1)),
            (Do::Terminate(Why::Joinable), Gets::Any),
        ]],
        &[],
    ],
    kernels: &[],
    ending: Ending::Terminated(Why::Joinable),
    order: &[(0, 2)],
    output: "",
    copies: 0,
};

#[test]
fn joinable(rt: HostRuntime) -> Result<(), Fail> {
    check(&rt, "joinable-thread", &JOINABLE)
}

const JOIN_TWICE: Row = Row {
    bodies: &[
        &[&[
            (Do::Spawn(1), Gets::Number(1)),
            (Do::Join(1), Gets::Done),
            (Do::Terminate(Why::NotJoinable), Gets::Any),
        ]],
        &[],
    ],
    kernels: &[],
    ending: Ending::Terminated(Why::NotJoinable),
    order: &[(0, 2), (1, 1), (0, 1)],
    output: "",
    copies: 0,
};

#[test]
fn join_twice(rt: HostRuntime) -> Result<(), Fail> {
    check(&rt, "join-twice", &JOIN_TWICE)
}

const RANGE_BUFFER: Row = Row {
    bodies: &[&[&[
        QUEUE,
        (Do::Buffer(4), Gets::Number(0)),
        (
            Do::Submit(0, Does::Kernel(0), &[(0, Mode::Write, false, 0, 4)], &[]),
            Gets::Number(0),
        ),
        (Do::End(0), Gets::Done),
        (Do::Print("done"), Gets::Done),
    ]]],
    kernels: &[Outcomes::Writes(0, 0, &[1; 4])],
    ending: Ending::Returned(0),
    order: &[(0, 6)],
    output: "done",
    copies: 0,
};

#[test]
fn range_buffer(rt: HostRuntime) -> Result<(), Fail> {
    check(&rt, "range-buffer-ends", &RANGE_BUFFER)
}

const FILL_AND_COPY: Row = Row {
    bodies: &[&[&[
        (Do::Queue(1, true), Gets::Number(0)),
        (Do::Buffer(3), Gets::Number(0)),
        (Do::Buffer(3), Gets::Number(1)),
        (
            Do::Submit(0, Does::Fill(7), &[(0, Mode::Write, false, 0, 3)], &[]),
            Gets::Number(0),
        ),
        (
            Do::Submit(
                0,
                Does::Copy,
                &[(0, Mode::Read, false, 0, 3), (1, Mode::Write, false, 0, 3)],
                &[],
            ),
            Gets::Number(1),
        ),
        (
            Do::Open((1, Mode::ReadWrite, false, 0, 3)),
            Gets::Contents(&[7, 7, 7]),
        ),
        (Do::Print("7"), Gets::Done),
        (Do::Print("7"), Gets::Done),
        (Do::Print("7"), Gets::Done),
        (Do::Close(0, &[7, 7, 7]), Gets::Done),
        (Do::End(1), Gets::Done),
        (Do::End(0), Gets::Done),
    ]]],
    kernels: &[],
    ending: Ending::Returned(0),
    order: &[(0, 13)],
    output: "777",
    copies: 1,
};

#[test]
fn fill_and_copy(rt: HostRuntime) -> Result<(), Fail> {
    check(&rt, "fill-and-copy", &FILL_AND_COPY)
}

const FAILED_NODE: Row = Row {
    bodies: &[&[&[
        QUEUE,
        (Do::Buffer(1), Gets::Number(0)),
        (Do::Buffer(1), Gets::Number(1)),
        (
            Do::Submit(
                0,
                Does::Kernel(0),
                &[(0, Mode::ReadWrite, false, 0, 1)],
                &[],
            ),
            Gets::Number(0),
        ),
        (
            Do::Submit(
                0,
                Does::Kernel(0),
                &[(1, Mode::ReadWrite, false, 0, 1)],
                &[0],
            ),
            Gets::Number(1),
        ),
        (Do::WaitNode(0), Gets::Done),
        (Do::Print("1"), Gets::Done),
        (Do::Throw(0), Gets::Any),
    ]]],
    kernels: &[Outcomes::Fails(FAULT)],
    ending: FIRST_NODE_FAILED,
    order: &[(0, 8)],
    output: "1",
    copies: 0,
};

#[test]
fn failed_node(rt: HostRuntime) -> Result<(), Fail> {
    check(&rt, "failed-node-counts-as-done", &FAILED_NODE)
}

const AT_HOME: Row = Row {
    bodies: &[&[
        TWO,
        &[
            (Do::Over(&[1, 1]), Gets::Number(0)),
            (
                Do::Submit(0, Does::Kernel(0), &[(0, Mode::Read, false, 0, 2)], &[]),
                Gets::Number(0),
            ),
            (
                Do::Submit(1, Does::Kernel(0), &[(0, Mode::Read, false, 0, 2)], &[]),
                Gets::Number(1),
            ),
            (Do::End(0), Gets::Contents(&[1, 1])),
        ],
    ]],
    kernels: &[Outcomes::Writes(0, 0, &[])],
    ending: Ending::Returned(0),
    order: &[(0, 9)],
    output: "",
    copies: 2,
};

#[test]
fn at_home(rt: HostRuntime) -> Result<(), Fail> {
    check(&rt, "first-version-at-home", &AT_HOME)
}

const TWO_HALVES: Row = Row {
    bodies: &[&[&[
        QUEUE,
        (Do::Buffer(8), Gets::Number(0)),
        (Do::Part(0, 0, 4), Gets::Number(1)),
        (Do::Part(0, 4, 4), Gets::Number(2)),
        (
            Do::Submit(0, Does::Kernel(0), &[(0, Mode::Write, false, 0, 4)], &[]),
            Gets::Number(0),
        ),
        (
            Do::Submit(0, Does::Kernel(1), &[(0, Mode::Write, false, 4, 8)], &[]),
            Gets::Number(1),
        ),
        (
            Do::Open((0, Mode::Read, false, 0, 8)),
            Gets::Contents(&[0, 1, 2, 3, 9, 9, 9, 9]),
        ),
        (Do::Print("0"), Gets::Done),
        (Do::Print("1"), Gets::Done),
        (Do::Print("2"), Gets::Done),
        (Do::Print("3"), Gets::Done),
        (Do::Print("9"), Gets::Done),
        (Do::Print("9"), Gets::Done),
        (Do::Print("9"), Gets::Done),
        (Do::Print("9"), Gets::Done),
        (Do::Close(0, &[0, 1, 2, 3, 9, 9, 9, 9]), Gets::Done),
        (Do::End(2), Gets::Done),
        (Do::End(1), Gets::Done),
        (Do::End(0), Gets::Done),
    ]]],
    kernels: &[
        Outcomes::Writes(0, 0, &[0, 1, 2, 3]),
        Outcomes::Writes(0, 4, &[9; 4]),
    ],
    ending: Ending::Returned(0),
    order: &[(0, 20)],
    output: "01239999",
    copies: 1,
};

#[test]
fn two_halves(rt: HostRuntime) -> Result<(), Fail> {
    check(&rt, "two-halves", &TWO_HALVES)
}

const TWO_HALVES_APART: Row = Row {
    bodies: &[&[
        TWO,
        &[
            (Do::Buffer(8), Gets::Number(0)),
            (Do::Part(0, 0, 4), Gets::Number(1)),
            (Do::Part(0, 4, 4), Gets::Number(2)),
            (
                Do::Submit(0, Does::Kernel(0), &[(0, Mode::Write, false, 0, 4)], &[]),
                Gets::Number(0),
            ),
            (
                Do::Submit(1, Does::Kernel(1), &[(0, Mode::Write, false, 4, 8)], &[]),
                Gets::Number(1),
            ),
            (
                Do::Open((0, Mode::Read, false, 0, 8)),
                Gets::Contents(&[0, 1, 2, 3, 9, 9, 9, 9]),
            ),
            (Do::Print("0"), Gets::Done),
            (Do::Print("1"), Gets::Done),
            (Do::Print("2"), Gets::Done),
            (Do::Print("3"), Gets::Done),
            (Do::Print("9"), Gets::Done),
            (Do::Print("9"), Gets::Done),
            (Do::Print("9"), Gets::Done),
            (Do::Print("9"), Gets::Done),
            (Do::Close(0, &[0, 1, 2, 3, 9, 9, 9, 9]), Gets::Done),
            (Do::End(2), Gets::Done),
            (Do::End(1), Gets::Done),
            (Do::End(0), Gets::Done),
        ],
    ]],
    kernels: &[
        Outcomes::Writes(0, 0, &[0, 1, 2, 3]),
        Outcomes::Writes(0, 4, &[9; 4]),
    ],
    ending: Ending::Returned(0),
    order: &[(0, 23)],
    output: "01239999",
    copies: 2,
};

#[test]
fn two_halves_apart(rt: HostRuntime) -> Result<(), Fail> {
    check(&rt, "two-halves-two-places", &TWO_HALVES_APART)
}

const BUFFERS_WITHIN: Row = Row {
    bodies: &[&[&[
        (Do::Buffer(4194304), Gets::Number(0)),
        (Do::End(0), Gets::Done),
    ]]],
    kernels: &[],
    ending: Ending::Returned(0),
    order: &[(0, 3)],
    output: "",
    copies: 0,
};

#[test]
fn buffers_within(rt: HostRuntime) -> Result<(), Fail> {
    check(&rt, "buffer-limit", &BUFFERS_WITHIN)
}

const BUFFERS_BEYOND: Row = Row {
    bodies: &[&[&[
        (Do::Buffer(4194305), Gets::Refused(Errc::MemoryAllocation)),
        (Do::Terminate(Why::Errc(Errc::MemoryAllocation)), Gets::Any),
    ]]],
    kernels: &[],
    ending: Ending::Terminated(Why::Errc(Errc::MemoryAllocation)),
    order: &[(0, 2)],
    output: "",
    copies: 0,
};

#[test]
fn buffers_beyond(rt: HostRuntime) -> Result<(), Fail> {
    check(&rt, "buffer-limit", &BUFFERS_BEYOND)
}

const CONTEXTS_WITHIN: Row = Row {
    bodies: &[&[&[
        (Do::Context, Gets::Number(2)),
        (Do::Context, Gets::Number(3)),
        (Do::Context, Gets::Number(4)),
        (Do::Context, Gets::Number(5)),
        (Do::Context, Gets::Number(6)),
        (Do::Context, Gets::Number(7)),
        (Do::Context, Gets::Number(8)),
        (Do::Context, Gets::Number(9)),
        (Do::Context, Gets::Number(10)),
        (Do::Context, Gets::Number(11)),
        (Do::Context, Gets::Number(12)),
        (Do::Context, Gets::Number(13)),
        (Do::Context, Gets::Number(14)),
        (Do::Context, Gets::Number(15)),
        (Do::Context, Gets::Number(16)),
    ]]],
    kernels: &[],
    ending: Ending::Returned(0),
    order: &[(0, 16)],
    output: "",
    copies: 0,
};

#[test]
fn contexts_within(rt: HostRuntime) -> Result<(), Fail> {
    check(&rt, "context-limit", &CONTEXTS_WITHIN)
}

const CONTEXTS_BEYOND: Row = Row {
    bodies: &[&[
        &[
            (Do::Context, Gets::Number(2)),
            (Do::Context, Gets::Number(3)),
            (Do::Context, Gets::Number(4)),
            (Do::Context, Gets::Number(5)),
            (Do::Context, Gets::Number(6)),
            (Do::Context, Gets::Number(7)),
            (Do::Context, Gets::Number(8)),
            (Do::Context, Gets::Number(9)),
            (Do::Context, Gets::Number(10)),
            (Do::Context, Gets::Number(11)),
            (Do::Context, Gets::Number(12)),
            (Do::Context, Gets::Number(13)),
            (Do::Context, Gets::Number(14)),
            (Do::Context, Gets::Number(15)),
            (Do::Context, Gets::Number(16)),
        ],
        &[
            (Do::Context, Gets::Refused(Errc::Runtime)),
            (Do::Terminate(Why::Errc(Errc::Runtime)), Gets::Any),
        ],
    ]],
    kernels: &[],
    ending: Ending::Terminated(Why::Errc(Errc::Runtime)),
    order: &[(0, 17)],
    output: "",
    copies: 0,
};

#[test]
fn contexts_beyond(rt: HostRuntime) -> Result<(), Fail> {
    check(&rt, "context-limit", &CONTEXTS_BEYOND)
}

const MANY_THREADS: Row = Row {
    bodies: &[
        &[
            &[
                (Do::Spawn(1), Gets::Number(1)),
                (Do::Spawn(1), Gets::Number(2)),
                (Do::Spawn(1), Gets::Number(3)),
                (Do::Spawn(1), Gets::Number(4)),
                (Do::Spawn(1), Gets::Number(5)),
                (Do::Spawn(1), Gets::Number(6)),
                (Do::Spawn(1), Gets::Number(7)),
                (Do::Spawn(1), Gets::Number(8)),
                (Do::Spawn(1), Gets::Number(9)),
                (Do::Spawn(1), Gets::Number(10)),
                (Do::Spawn(1), Gets::Number(11)),
                (Do::Spawn(1), Gets::Number(12)),
                (Do::Spawn(1), Gets::Number(13)),
                (Do::Spawn(1), Gets::Number(14)),
                (Do::Spawn(1), Gets::Number(15)),
                (Do::Spawn(1), Gets::Number(16)),
                (Do::Spawn(1), Gets::Number(17)),
                (Do::Spawn(1), Gets::Number(18)),
                (Do::Spawn(1), Gets::Number(19)),
                (Do::Spawn(1), Gets::Number(20)),
                (Do::Spawn(1), Gets::Number(21)),
                (Do::Spawn(1), Gets::Number(22)),
                (Do::Spawn(1), Gets::Number(23)),
                (Do::Spawn(1), Gets::Number(24)),
                (Do::Spawn(1), Gets::Number(25)),
                (Do::Spawn(1), Gets::Number(26)),
                (Do::Spawn(1), Gets::Number(27)),
                (Do::Spawn(1), Gets::Number(28)),
                (Do::Spawn(1), Gets::Number(29)),
                (Do::Spawn(1), Gets::Number(30)),
                (Do::Spawn(1), Gets::Number(31)),
                (Do::Spawn(1), Gets::Number(32)),
                (Do::Spawn(1), Gets::Number(33)),
                (Do::Spawn(1), Gets::Number(34)),
                (Do::Spawn(1), Gets::Number(35)),
                (Do::Spawn(1), Gets::Number(36)),
                (Do::Spawn(1), Gets::Number(37)),
                (Do::Spawn(1), Gets::Number(38)),
                (Do::Spawn(1), Gets::Number(39)),
                (Do::Spawn(1), Gets::Number(40)),
                (Do::Spawn(1), Gets::Number(41)),
                (Do::Spawn(1), Gets::Number(42)),
                (Do::Spawn(1), Gets::Number(43)),
                (Do::Spawn(1), Gets::Number(44)),
                (Do::Spawn(1), Gets::Number(45)),
                (Do::Spawn(1), Gets::Number(46)),
                (Do::Spawn(1), Gets::Number(47)),
                (Do::Spawn(1), Gets::Number(48)),
                (Do::Spawn(1), Gets::Number(49)),
                (Do::Spawn(1), Gets::Number(50)),
                (Do::Spawn(1), Gets::Number(51)),
                (Do::Spawn(1), Gets::Number(52)),
                (Do::Spawn(1), Gets::Number(53)),
                (Do::Spawn(1), Gets::Number(54)),
                (Do::Spawn(1), Gets::Number(55)),
                (Do::Spawn(1), Gets::Number(56)),
                (Do::Spawn(1), Gets::Number(57)),
                (Do::Spawn(1), Gets::Number(58)),
                (Do::Spawn(1), Gets::Number(59)),
                (Do::Spawn(1), Gets::Number(60)),
                (Do::Spawn(1), Gets::Number(61)),
                (Do::Spawn(1), Gets::Number(62)),
                (Do::Spawn(1), Gets::Number(63)),
            ],
            &[
                (Do::Join(1), Gets::Done),
                (Do::Join(2), Gets::Done),
                (Do::Join(3), Gets::Done),
                (Do::Join(4), Gets::Done),
                (Do::Join(5), Gets::Done),
                (Do::Join(6), Gets::Done),
                (Do::Join(7), Gets::Done),
                (Do::Join(8), Gets::Done),
                (Do::Join(9), Gets::Done),
                (Do::Join(10), Gets::Done),
                (Do::Join(11), Gets::Done),
                (Do::Join(12), Gets::Done),
                (Do::Join(13), Gets::Done),
                (Do::Join(14), Gets::Done),
                (Do::Join(15), Gets::Done),
                (Do::Join(16), Gets::Done),
                (Do::Join(17), Gets::Done),
                (Do::Join(18), Gets::Done),
                (Do::Join(19), Gets::Done),
                (Do::Join(20), Gets::Done),
                (Do::Join(21), Gets::Done),
                (Do::Join(22), Gets::Done),
                (Do::Join(23), Gets::Done),
                (Do::Join(24), Gets::Done),
                (Do::Join(25), Gets::Done),
                (Do::Join(26), Gets::Done),
                (Do::Join(27), Gets::Done),
                (Do::Join(28), Gets::Done),
                (Do::Join(29), Gets::Done),
                (Do::Join(30), Gets::Done),
                (Do::Join(31), Gets::Done),
                (Do::Join(32), Gets::Done),
                (Do::Join(33), Gets::Done),
                (Do::Join(34), Gets::Done),
                (Do::Join(35), Gets::Done),
                (Do::Join(36), Gets::Done),
                (Do::Join(37), Gets::Done),
                (Do::Join(38), Gets::Done),
                (Do::Join(39), Gets::Done),
                (Do::Join(40), Gets::Done),
                (Do::Join(41), Gets::Done),
                (Do::Join(42), Gets::Done),
                (Do::Join(43), Gets::Done),
                (Do::Join(44), Gets::Done),
                (Do::Join(45), Gets::Done),
                (Do::Join(46), Gets::Done),
                (Do::Join(47), Gets::Done),
                (Do::Join(48), Gets::Done),
                (Do::Join(49), Gets::Done),
                (Do::Join(50), Gets::Done),
                (Do::Join(51), Gets::Done),
                (Do::Join(52), Gets::Done),
                (Do::Join(53), Gets::Done),
                (Do::Join(54), Gets::Done),
                (Do::Join(55), Gets::Done),
                (Do::Join(56), Gets::Done),
                (Do::Join(57), Gets::Done),
                (Do::Join(58), Gets::Done),
                (Do::Join(59), Gets::Done),
                (Do::Join(60), Gets::Done),
                (Do::Join(61), Gets::Done),
                (Do::Join(62), Gets::Done),
                (Do::Join(63), Gets::Done),
            ],
        ],
        &[],
    ],
    kernels: &[],
    ending: Ending::Returned(0),
    order: &[
        (0, 63),
        (0, 1),
        (1, 1),
        (0, 1),
        (2, 1),
        (0, 1),
        (3, 1),
        (0, 1),
        (4, 1),
        (0, 1),
        (5, 1),
        (0, 1),
        (6, 1),
        (0, 1),
        (7, 1),
        (0, 1),
        (8, 1),
        (0, 1),
        (9, 1),
        (0, 1),
        (10, 1),
        (0, 1),
        (11, 1),
        (0, 1),
        (12, 1),
        (0, 1),
        (13, 1),
        (0, 1),
        (14, 1),
        (0, 1),
        (15, 1),
        (0, 1),
        (16, 1),
        (0, 1),
        (17, 1),
        (0, 1),
        (18, 1),
        (0, 1),
        (19, 1),
        (0, 1),
        (20, 1),
        (0, 1),
        (21, 1),
        (0, 1),
        (22, 1),
        (0, 1),
        (23, 1),
        (0, 1),
        (24, 1),
        (0, 1),
        (25, 1),
        (0, 1),
        (26, 1),
        (0, 1),
        (27, 1),
        (0, 1),
        (28, 1),
        (0, 1),
        (29, 1),
        (0, 1),
        (30, 1),
        (0, 1),
        (31, 1),
        (0, 1),
        (32, 1),
        (0, 1),
        (33, 1),
        (0, 1),
        (34, 1),
        (0, 1),
        (35, 1),
        (0, 1),
        (36, 1),
        (0, 1),
        (37, 1),
        (0, 1),
        (38, 1),
        (0, 1),
        (39, 1),
        (0, 1),
        (40, 1),
        (0, 1),
        (41, 1),
        (0, 1),
        (42, 1),
        (0, 1),
        (43, 1),
        (0, 1),
        (44, 1),
        (0, 1),
        (45, 1),
        (0, 1),
        (46, 1),
        (0, 1),
        (47, 1),
        (0, 1),
        (48, 1),
        (0, 1),
        (49, 1),
        (0, 1),
        (50, 1),
        (0, 1),
        (51, 1),
        (0, 1),
        (52, 1),
        (0, 1),
        (53, 1),
        (0, 1),
        (54, 1),
        (0, 1),
        (55, 1),
        (0, 1),
        (56, 1),
        (0, 1),
        (57, 1),
        (0, 1),
        (58, 1),
        (0, 1),
        (59, 1),
        (0, 1),
        (60, 1),
        (0, 1),
        (61, 1),
        (0, 1),
        (62, 1),
        (0, 1),
        (63, 1),
        (0, 1),
    ],
    output: "",
    copies: 0,
};

#[test]
fn many_threads(rt: HostRuntime) -> Result<(), Fail> {
    check(&rt, "many-threads", &MANY_THREADS)
}

const TOO_MANY_THREADS: Row = Row {
    bodies: &[
        &[
            &[
                (Do::Spawn(1), Gets::Number(1)),
                (Do::Spawn(1), Gets::Number(2)),
                (Do::Spawn(1), Gets::Number(3)),
                (Do::Spawn(1), Gets::Number(4)),
                (Do::Spawn(1), Gets::Number(5)),
                (Do::Spawn(1), Gets::Number(6)),
                (Do::Spawn(1), Gets::Number(7)),
                (Do::Spawn(1), Gets::Number(8)),
                (Do::Spawn(1), Gets::Number(9)),
                (Do::Spawn(1), Gets::Number(10)),
                (Do::Spawn(1), Gets::Number(11)),
                (Do::Spawn(1), Gets::Number(12)),
                (Do::Spawn(1), Gets::Number(13)),
                (Do::Spawn(1), Gets::Number(14)),
                (Do::Spawn(1), Gets::Number(15)),
                (Do::Spawn(1), Gets::Number(16)),
                (Do::Spawn(1), Gets::Number(17)),
                (Do::Spawn(1), Gets::Number(18)),
                (Do::Spawn(1), Gets::Number(19)),
                (Do::Spawn(1), Gets::Number(20)),
                (Do::Spawn(1), Gets::Number(21)),
                (Do::Spawn(1), Gets::Number(22)),
                (Do::Spawn(1), Gets::Number(23)),
                (Do::Spawn(1), Gets::Number(24)),
                (Do::Spawn(1), Gets::Number(25)),
                (Do::Spawn(1), Gets::Number(26)),
                (Do::Spawn(1), Gets::Number(27)),
                (Do::Spawn(1), Gets::Number(28)),
                (Do::Spawn(1), Gets::Number(29)),
                (Do::Spawn(1), Gets::Number(30)),
                (Do::Spawn(1), Gets::Number(31)),
                (Do::Spawn(1), Gets::Number(32)),
                (Do::Spawn(1), Gets::Number(33)),
                (Do::Spawn(1), Gets::Number(34)),
                (Do::Spawn(1), Gets::Number(35)),
                (Do::Spawn(1), Gets::Number(36)),
                (Do::Spawn(1), Gets::Number(37)),
                (Do::Spawn(1), Gets::Number(38)),
                (Do::Spawn(1), Gets::Number(39)),
                (Do::Spawn(1), Gets::Number(40)),
                (Do::Spawn(1), Gets::Number(41)),
                (Do::Spawn(1), Gets::Number(42)),
                (Do::Spawn(1), Gets::Number(43)),
                (Do::Spawn(1), Gets::Number(44)),
                (Do::Spawn(1), Gets::Number(45)),
                (Do::Spawn(1), Gets::Number(46)),
                (Do::Spawn(1), Gets::Number(47)),
                (Do::Spawn(1), Gets::Number(48)),
                (Do::Spawn(1), Gets::Number(49)),
                (Do::Spawn(1), Gets::Number(50)),
                (Do::Spawn(1), Gets::Number(51)),
                (Do::Spawn(1), Gets::Number(52)),
                (Do::Spawn(1), Gets::Number(53)),
                (Do::Spawn(1), Gets::Number(54)),
                (Do::Spawn(1), Gets::Number(55)),
                (Do::Spawn(1), Gets::Number(56)),
                (Do::Spawn(1), Gets::Number(57)),
                (Do::Spawn(1), Gets::Number(58)),
                (Do::Spawn(1), Gets::Number(59)),
                (Do::Spawn(1), Gets::Number(60)),
                (Do::Spawn(1), Gets::Number(61)),
                (Do::Spawn(1), Gets::Number(62)),
                (Do::Spawn(1), Gets::Number(63)),
            ],
            &[(Do::Spawn(1), Gets::Any)],
        ],
        &[],
    ],
    kernels: &[],
    ending: Ending::Terminated(Why::Threads),
    order: &[(0, 64)],
    output: "",
    copies: 0,
};

#[test]
fn too_many_threads(rt: HostRuntime) -> Result<(), Fail> {
    check(&rt, "too-many-threads", &TOO_MANY_THREADS)
}

const THROW_WAITS: Row = Row {
    bodies: &[
        &[&[
            QUEUE,
            (Do::Buffer(1), Gets::Number(0)),
            (Do::Spawn(1), Gets::Number(1)),
            (Do::Spawn(2), Gets::Number(2)),
            (Do::Join(2), Gets::Done),
            (Do::Throw(0), Gets::Any),
        ]],
        &[&[
            (
                Do::Open((0, Mode::ReadWrite, false, 0, 1)),
                Gets::Contents(&[0]),
            ),
            (Do::Join(2), Gets::Done),
            (Do::Close(0, &[8]), Gets::Done),
            (Do::Print("late"), Gets::Done),
        ]],
        &[&[(
            Do::Submit(0, Does::Kernel(0), &[(0, Mode::Read, false, 0, 1)], &[]),
            Gets::Number(0),
        )]],
    ],
    kernels: &[Outcomes::Fails(FAULT)],
    ending: FIRST_NODE_FAILED,
    order: &[(0, 5), (1, 2), (2, 2), (1, 1), (0, 1)],
    output: "",
    copies: 1,
};

#[test]
fn throw_waits(rt: HostRuntime) -> Result<(), Fail> {
    check(&rt, "a throw that is kept waiting", &THROW_WAITS)
}

const QUEUE_WAITS: Row = Row {
    bodies: &[
        &[&[
            QUEUE,
            (Do::Queue(1, false), Gets::Number(1)),
            (Do::Buffer(1), Gets::Number(0)),
            (Do::Spawn(1), Gets::Number(1)),
            (Do::Spawn(2), Gets::Number(2)),
            (Do::Join(2), Gets::Done),
            (
                Do::Submit(0, Does::Kernel(0), &[(0, Mode::Write, false, 0, 1)], &[]),
                Gets::Number(0),
            ),
            (Do::WaitQueue(1), Gets::Done),
            (Do::Print("a"), Gets::Done),
            (Do::WaitQueue(0), Gets::Done),
            (Do::Print("c"), Gets::Done),
        ]],
        &[&[
            (
                Do::Open((0, Mode::ReadWrite, false, 0, 1)),
                Gets::Contents(&[0]),
            ),
            (Do::Join(2), Gets::Done),
            (Do::Print("b"), Gets::Done),
            (Do::Close(0, &[8]), Gets::Done),
            (Do::Print("late"), Gets::Done),
        ]],
        &[],
    ],
    kernels: &[Outcomes::Writes(0, 0, &[9])],
    ending: Ending::Returned(0),
    order: &[(0, 6), (1, 2), (2, 1), (0, 4), (1, 2), (0, 2)],
    output: "abc",
    copies: 1,
};

#[test]
fn queue_waits(rt: HostRuntime) -> Result<(), Fail> {
    check(&rt, "a wait for a queue whose node waits", &QUEUE_WAITS)
}

const WAIT_FOR_EARLIER: Row = Row {
    bodies: &[
        &[&[
            QUEUE,
            (Do::Buffer(1), Gets::Number(0)),
            (Do::Buffer(1), Gets::Number(1)),
            (
                Do::Open((0, Mode::ReadWrite, false, 0, 1)),
                Gets::Contents(&[0]),
            ),
            (
                Do::Open((1, Mode::ReadWrite, false, 0, 1)),
                Gets::Contents(&[0]),
            ),
            (
                Do::Submit(0, Does::Kernel(0), &[(0, Mode::Read, false, 0, 1)], &[]),
                Gets::Number(0),
            ),
            (Do::Spawn(1), Gets::Number(1)),
            (Do::Spawn(2), Gets::Number(2)),
            (Do::Join(2), Gets::Done),
            (
                Do::Submit(0, Does::Kernel(0), &[(1, Mode::Read, false, 0, 1)], &[]),
                Gets::Number(1),
            ),
            (Do::Close(0, &[8]), Gets::Done),
            (Do::Join(1), Gets::Done),
            (Do::WaitQueue(0), Gets::Any),
            (Do::Print("no"), Gets::Done),
        ]],
        &[&[(Do::WaitQueue(0), Gets::Done), (Do::Print("a"), Gets::Done)]],
        &[],
    ],
    kernels: &[Outcomes::Writes(0, 0, &[])],
    ending: Ending::Stuck,
    order: &[(0, 9), (1, 1), (2, 1), (0, 3), (1, 2), (0, 1)],
    output: "a",
    copies: 2,
};

#[test]
fn wait_for_earlier(rt: HostRuntime) -> Result<(), Fail> {
    check(&rt, "a wait for a queue's earlier nodes", &WAIT_FOR_EARLIER)
}

const TURNS_SPENT: Row = Row {
    bodies: &[
        &[&[
            (Do::Spawn(1), Gets::Number(1)),
            (Do::Print("x"), Gets::Done),
            (Do::Join(1), Gets::Any),
            (Do::Print("no"), Gets::Done),
        ]],
        &[&[
            (Do::SpendTurns(6), Gets::Any),
            (Do::Print("no"), Gets::Done),
        ]],
    ],
    kernels: &[],
    ending: Ending::TurnsSpent(1, 6),
    order: &[(0, 3), (1, 1)],
    output: "x",
    copies: 0,
};

#[test]
fn turns_spent(rt: HostRuntime) -> Result<(), Fail> {
    check(&rt, "turns-spent", &TURNS_SPENT)
}

const OUTPUT_FULL: Row = Row {
    bodies: &[&[&[
        (Do::Print("x"), Gets::Done),
        (Do::PrintLong(16777216), Gets::Any),
        (Do::Print("no"), Gets::Done),
    ]]],
    kernels: &[],
    ending: Ending::OutputFull,
    order: &[(0, 2)],
    output: "x",
    copies: 0,
};

#[test]
fn output_full(rt: HostRuntime) -> Result<(), Fail> {
    check(&rt, "a print past 2^24 bytes", &OUTPUT_FULL)
}

const OUTPUT_WITHIN: &[&[Part]] = &[&[&[
    (Do::PrintLong(16777215), Gets::Done),
    (Do::Print("x"), Gets::Done),
    (Do::Print(""), Gets::Done),
    (Do::Print("x"), Gets::Any),
]]];

// The longest output is taken whole, and one byte more ends the run.
#[test]
fn output_within(rt: HostRuntime) -> Result<(), Fail> {
    let alloc = rt.alloc();
    let scripts = scripts(alloc, OUTPUT_WITHIN)?;
    let end = play(alloc, scripts, Vec::new(alloc))?;
    assert_eq!(rt; end.ending, Ending::OutputFull);
    assert_eq!(rt; end.order.len(), 4);
    assert_eq!(rt; end.output.items().len(), 16777216);
    Ok(())
}

const NAMES_NOTHING: Row = Row {
    bodies: &[
        &[&[
            (Do::Spawn(1), Gets::Number(1)),
            (Do::Print("a"), Gets::Done),
            (Do::End(0), Gets::Any),
            (Do::Print("no"), Gets::Done),
        ]],
        &[&[
            (Do::Print("b"), Gets::Done),
            (Do::Join(5), Gets::Any),
            (Do::Print("no"), Gets::Done),
        ]],
    ],
    kernels: &[],
    ending: Ending::Stuck,
    order: &[(0, 3), (1, 2)],
    output: "ab",
    copies: 0,
};

#[test]
fn names_nothing(rt: HostRuntime) -> Result<(), Fail> {
    check(&rt, "an end of a buffer that isn't there", &NAMES_NOTHING)
}

const NEEDS_MEET: Row = Row {
    bodies: &[&[&[
        QUEUE,
        (Do::Buffer(4), Gets::Number(0)),
        (
            Do::Submit(
                0,
                Does::Kernel(0),
                &[(0, Mode::Write, false, 0, 4), (0, Mode::Read, false, 0, 4)],
                &[],
            ),
            Gets::Any,
        ),
        (Do::Print("no"), Gets::Done),
    ]]],
    kernels: &[Outcomes::Writes(0, 0, &[1; 4])],
    ending: Ending::Stuck,
    order: &[(0, 3)],
    output: "",
    copies: 0,
};

#[test]
fn needs_meet(rt: HostRuntime) -> Result<(), Fail> {
    check(
        &rt,
        "a command that needs the same elements twice",
        &NEEDS_MEET,
    )
}

const READS_NO_FORMER_VALUES: Row = Row {
    bodies: &[
        &[&[
            (Do::Spawn(1), Gets::Number(1)),
            QUEUE,
            (Do::Buffer(2), Gets::Number(0)),
            (
                Do::Submit(
                    0,
                    Does::Kernel(0),
                    &[(0, Mode::Read, true, 0, 2), (0, Mode::Write, true, 0, 1)],
                    &[],
                ),
                Gets::Any,
            ),
            (Do::Print("no"), Gets::Done),
        ]],
        &[&[
            (Do::Buffer(2), Gets::Number(1)),
            (Do::Open((1, Mode::Read, true, 0, 2)), Gets::Any),
            (Do::Print("no"), Gets::Done),
        ]],
    ],
    kernels: &[Outcomes::Writes(1, 0, &[1])],
    ending: Ending::Stuck,
    order: &[(0, 4), (1, 2)],
    output: "",
    copies: 0,
};

#[test]
fn reads_no_former_values(rt: HostRuntime) -> Result<(), Fail> {
    check(
        &rt,
        "a need with no_init that doesn't write",
        &READS_NO_FORMER_VALUES,
    )
}

/// Two commands on queue 0, of which the first waits for a host access and the second needs
/// another buffer, and then a host access to that buffer.
const TWO_COMMANDS: Part = &[
    (Do::Buffer(1), Gets::Number(0)),
    (Do::Buffer(1), Gets::Number(1)),
    (
        Do::Open((0, Mode::ReadWrite, false, 0, 1)),
        Gets::Contents(&[0]),
    ),
    (
        Do::Submit(0, Does::Kernel(0), &[(0, Mode::Read, false, 0, 1)], &[]),
        Gets::Number(0),
    ),
    (
        Do::Submit(0, Does::Kernel(1), &[(1, Mode::Write, false, 0, 1)], &[]),
        Gets::Number(1),
    ),
    (Do::Open((1, Mode::Read, false, 0, 1)), Gets::Contents(&[9])),
    (Do::Print("9"), Gets::Done),
];

const IN_ORDER: Row = Row {
    bodies: &[&[&[(Do::Queue(1, true), Gets::Number(0))], TWO_COMMANDS]],
    kernels: &[Outcomes::Writes(0, 0, &[]), Outcomes::Writes(1, 0, &[9])],
    ending: Ending::Stuck,
    order: &[(0, 7)],
    output: "",
    copies: 2,
};

#[test]
fn in_order(rt: HostRuntime) -> Result<(), Fail> {
    check(&rt, "in_order alone", &IN_ORDER)
}

const IN_NO_ORDER: Row = Row {
    bodies: &[&[&[QUEUE], TWO_COMMANDS, &[(Do::Close(0, &[8]), Gets::Done)]]],
    kernels: &[Outcomes::Writes(0, 0, &[]), Outcomes::Writes(1, 0, &[9])],
    ending: Ending::Returned(0),
    order: &[(0, 10)],
    output: "9",
    copies: 2,
};

#[test]
fn in_no_order(rt: HostRuntime) -> Result<(), Fail> {
    check(&rt, "in_order left out", &IN_NO_ORDER)
}
