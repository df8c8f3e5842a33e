// The note of each ending, as a person reads it.

use crate::jobs::{Job, Settings};
use crate::notes::Ended;
use crate::trace::tail;
use std::test::Fail;
use sy_access::Cell;
use sy_note::{Code, Diagnostic, Spot};
use sy_work::{Cause, Errc, Fault, HostTrap, KernelError, Why};

fn kernel_error(cause: Cause) -> Ended {
    let fault = Fault {
        item: 5,
        line: 6,
        cause,
    };
    Ended::KernelFailed(KernelError { node: 0, fault })
}

#[test]
fn notes(rt: HostRuntime) -> Result<(), Fail> {
    let spot = Spot {
        line: 1,
        column: 20,
    };
    let cases: [(Ended, &str); 31] = [
        (Ended::Checked, ""),
        (Ended::Returned(7), ""),
        (Ended::BadWords, "bad words"),
        (Ended::SourceTooLong, "source longer than 1048576 bytes"),
        (Ended::ReadFault, "read fault"),
        (Ended::WriteFault, "write fault"),
        (
            Ended::Refused(Diagnostic {
                spot,
                code: Code::UnknownName,
            }),
            "1:20: unknown name",
        ),
        (Ended::Terminated(Why::Joinable), "terminated: joinable"),
        (
            Ended::Terminated(Why::NotJoinable),
            "terminated: not joinable",
        ),
        (
            Ended::Terminated(Why::Threads),
            "terminated: too many threads",
        ),
        (Ended::Terminated(Why::Length), "terminated: length"),
        (
            Ended::Terminated(Why::Errc(Errc::Runtime)),
            "terminated: errc::runtime",
        ),
        (
            Ended::Terminated(Why::Errc(Errc::NdRange)),
            "terminated: errc::nd_range",
        ),
        (
            Ended::Terminated(Why::Errc(Errc::KernelArgument)),
            "terminated: errc::kernel_argument",
        ),
        (
            Ended::Terminated(Why::Errc(Errc::Invalid)),
            "terminated: errc::invalid",
        ),
        (
            Ended::Terminated(Why::Errc(Errc::MemoryAllocation)),
            "terminated: errc::memory_allocation",
        ),
        (
            kernel_error(Cause::ZeroDivisor),
            "kernel error: node 0, item 5, line 6: division by zero",
        ),
        (
            kernel_error(Cause::Clash(Cell::Buffer(2, 9))),
            "kernel error: node 0, item 5, line 6: clash at buffer 2 cell 9",
        ),
        (
            kernel_error(Cause::Clash(Cell::Local(1, 0))),
            "kernel error: node 0, item 5, line 6: clash at local 1 cell 0",
        ),
        (
            kernel_error(Cause::Divergence),
            "kernel error: node 0, item 5, line 6: divergence",
        ),
        (
            kernel_error(Cause::Turns),
            "kernel error: node 0, item 5, line 6: turns spent",
        ),
        (
            Ended::Trapped(HostTrap {
                thread: 3,
                line: 12,
                cause: Cause::Leased,
            }),
            "trap: thread 3, line 12: leased vector",
        ),
        (
            Ended::Trapped(HostTrap {
                thread: 0,
                line: 1,
                cause: Cause::Shift,
            }),
            "trap: thread 0, line 1: shift count",
        ),
        (Ended::TurnsSpent(0, 1), "turns spent: thread 0, line 1"),
        (Ended::Stuck, "stuck"),
        (Ended::OutputFull, "output full"),
        (Ended::HistoryFull, "history full"),
        (Ended::Memory, "out of memory"),
        (Ended::BadTrace(3), "bad trace: line 3"),
        (
            Ended::Illegal(18446744073709551615),
            "illegal step 18446744073709551615",
        ),
        (Ended::Unfinished, "trace ends before the run"),
    ];
    for (ended, text) in cases {
        let note = ended.line(rt.alloc())?;
        let mut wanted = String::new(rt.alloc());
        if !text.is_empty() {
            wanted.push_str("syclrun: ")?;
            wanted.push_str(text)?;
            wanted.push_str("\n")?;
        }
        assert_eq!(rt; note.as_slice(), wanted.as_bytes());
    }
    Ok(())
}

// trace-text, stats, and an order of one step
#[test]
fn tails(rt: HostRuntime) -> Result<(), Fail> {
    let mut set = Settings {
        job: Job::Serial,
        workers: 4,
        turns: 1,
        seed: 0,
        groups: 0,
        stats: false,
        trace: true,
    };
    let cases: [(&[u32], &str); 4] = [
        (&[0, 0, 0, 1, 1, 0], "trace 1\n0 3\n1 2\n0 1\nend\n"),
        (&[], "trace 1\nend\n"),
        (&[0], "trace 1\n0 1\nend\n"),
        (&[63, 0, 63, 63], "trace 1\n63 1\n0 1\n63 2\nend\n"),
    ];
    for (order, text) in cases {
        let told = tail(rt.alloc(), &set, order, 0, 0)?;
        assert_eq!(rt; told.as_slice(), text.as_bytes());
    }
    set.trace = false;
    assert!(rt; tail(rt.alloc(), &set, &[0], 9, 9)?.is_empty());
    set.stats = true;
    let told = tail(rt.alloc(), &set, &[0; 32], 3, 4)?;
    assert_eq!(rt;
        told.as_slice(),
        b"syclrun: commands 3, steps 32, copies 4\n".as_slice()
    );
    Ok(())
}
