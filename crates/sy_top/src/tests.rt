// Whole calls over sources and sinks in memory, with what the standard and the words say of them.

use super::*;
use std::test::Fail;
use sy_gen::source_of;
use sy_io::{MemSink, MemSource};
use sy_note::{Code, Diagnostic, Spot};
use sy_work::{Cause, HostTrap, NoGate};

/// One call: the pieces and failing calls of the source and of standard output.
#[derive(Clone, Copy)]
struct Outside<'a> {
    source_fails: &'a [u64],
    out_piece: usize,
    out_fails: &'a [u64],
}

const CLEAN: Outside<'static> = Outside {
    source_fails: &[],
    out_piece: 1_000_000,
    out_fails: &[],
};

/// A call in this mode; also what standard output and standard error took.
fn call_in<R: AllocGlobal + Threads + Wait + Sync>(
    rt: &R,
    mode: &str,
    source: &[u8],
    outside: &Outside,
) -> Result<(Run, Vec<u8>, Vec<u8>), Fail> {
    let alloc = rt.alloc();
    let piece = outside.out_piece.max(1);
    let mut from = MemSource::new(
        source.to_vec(alloc)?,
        4,
        outside.source_fails.to_vec(alloc)?,
    );
    let mut out = MemSink::new(alloc, 100_000, piece, outside.out_fails.to_vec(alloc)?)?;
    let mut err = MemSink::new(alloc, 1000, 3, Vec::new(alloc))?;
    let words = vec![in alloc; String::from_str(alloc, mode)?]?;
    let run = syclrun_top(
        rt,
        alloc,
        words.as_slice(),
        &mut from,
        &mut out,
        &mut err,
        &NoGate,
    );
    Ok((run, out.taken().to_vec(alloc)?, err.taken().to_vec(alloc)?))
}

fn overflow(line: u32) -> Ended {
    Ended::Trapped(HostTrap {
        thread: 0,
        line,
        cause: Cause::Overflow,
    })
}

const NOT_BUILT: Ended = Ended::Refused(Diagnostic {
    spot: Spot { line: 1, column: 1 },
    code: Code::NotBuilt,
});

// Each source with its ending, its steps and its output.
#[test]
fn runs(rt: HostRuntime) -> Result<(), Fail> {
    let cases: [(&[u8], Ended, usize, &[u8]); 15] = [
        // empty-main, sums, sum-overflows
        (b"int main(){}", Ended::Returned(0), 1, b""),
        (
            b"int main() { std::cout << 40 + 2 << 7 - 10; }",
            Ended::Returned(0),
            3,
            b"42-3",
        ),
        (
            b"int main(){ std::cout << 2147483647 + 1; }",
            overflow(1),
            1,
            b"",
        ),
        // the kinds of literals, and the usual conversions
        (
            b"int main(){ std::cout << 2147483648 + 1; }",
            Ended::Returned(0),
            2,
            b"2147483649",
        ),
        (
            b"int main(){ std::cout << 0 - 2147483647 - 1; }",
            Ended::Returned(0),
            2,
            b"-2147483648",
        ),
        (
            b"int main(){ std::cout << 0 - 2147483647 - 2; }",
            overflow(1),
            1,
            b"",
        ),
        (
            b"int main(){ std::cout << 999999999999999999 + 2147483647; }",
            Ended::Returned(0),
            2,
            b"1000000002147483646",
        ),
        // what stands before a trap is printed, and the trap is on its operator's line
        (
            b"int main(){\nstd::cout << 1 << 2147483647\n  + 1;\n std::cout << 3; }",
            overflow(3),
            2,
            b"1",
        ),
        // the kind of main decides, not its words
        (
            b"signed main(){ std::cout << 5; }",
            Ended::Returned(0),
            2,
            b"5",
        ),
        // blanks, comments and includes
        (
            b" #include <iostream>\n#\tinclude\r<sycl/sycl.hpp>//x\n#include<vector>\n#include <thread>\n#include <cstdint>\nint/**/main ( ) { /* } */ }// end",
            Ended::Returned(0),
            1,
            b"",
        ),
        (
            b"int main(){ /* \n */ std::cout << 2147483647 /*\n\n*/ + 1; }",
            overflow(4),
            1,
            b"",
        ),
        (
            b"int main(){ std::cout<<1-2+3<<0;std::cout<<5;}\n",
            Ended::Returned(0),
            4,
            b"205",
        ),
        (
            b"int main(){ std::cout << 1<<2<<3; }",
            Ended::Returned(0),
            4,
            b"123",
        ),
        (
            b"int main(){ std::cout << 9 - /*/ */ 8; }",
            Ended::Returned(0),
            2,
            b"1",
        ),
        (
            b"int main(){ std::cout << 100000000000000000 - 1; }",
            Ended::Returned(0),
            2,
            b"99999999999999999",
        ),
    ];
    for (source, ended, steps, output) in cases {
        let (run, out, err) = call_in(&rt, "serial", source, &CLEAN)?;
        assert_eq!(rt; run.ended, ended);
        assert_eq!(rt; run.order.len(), steps);
        assert!(rt; run.order.iter().all(|t| *t == 0));
        assert_eq!(rt; run.copies, 0);
        assert_eq!(rt; out.as_slice(), output);
        assert_eq!(rt; run.note == Note::Nothing, err.is_empty());
    }
    Ok(())
}

/// A refusal by this rule at this place of the first line.
fn refused(code: Code, column: u32) -> Ended {
    Ended::Refused(Diagnostic {
        spot: Spot { line: 1, column },
        code,
    })
}

// Sources of one line, each with the rule that refuses it in mode serial, and the column. All but what isn't built is
// refused so in mode check, and that is accepted there.
#[test]
fn refuses(rt: HostRuntime) -> Result<(), Fail> {
    let cases: [(&[u8], Code, u32); 37] = [
        // no-text
        (b"", Code::Grammar, 1),
        (b"int main(){ std::cout << \"ab", Code::Lexical, 26),
        (b"int main(){ std::cout << 08; }", Code::Lexical, 26),
        (b"int main(){ /* }", Code::Lexical, 13),
        (b"#include <map>\nint main(){}", Code::Lexical, 1),
        (b"#include\n<vector>\nint main(){}", Code::Lexical, 1),
        // no-tree
        (b"int main(){ return 1 + * 2; }", Code::Grammar, 24),
        (b"int main(){ std::cout; }", Code::Grammar, 22),
        (b"int main(){ std::cout << ; }", Code::Grammar, 26),
        (b"int main(){ std::cout << 1 }", Code::Grammar, 28),
        (b"int main(){ std::cout << 1; ", Code::Grammar, 29),
        (b"int main(){ std::cout << 1; } int", Code::Grammar, 34),
        (b"int main(){ std::cout << 1 ++ 2; }", Code::Grammar, 31),
        (b"int main(){ std::cout << 1 -= 2; }", Code::Grammar, 28),
        (b"int main(){ std::cout <<= 1; }", Code::Grammar, 23),
        (b"int main(){ std::cout < < 1; }", Code::Grammar, 23),
        (b"int main(){ std:cout << 1; }", Code::Grammar, 16),
        (b"int main(){ std:::cout << 1; }", Code::Grammar, 18),
        (b"intmain(){}", Code::Grammar, 1),
        (b"int main(){ / }", Code::Grammar, 13),
        (b"int main(){} #include <vector>", Code::Grammar, 14),
        // bad-octal, unknown-name, and rules that are asked before what isn't built
        (b"int main(){ return 08; }", Code::Lexical, 20),
        (b"int main(){ return y; }", Code::UnknownName, 20),
        (
            b"using namespace sycl; int main(){ break; }",
            Code::LoopWord,
            35,
        ),
        (b"int main(int n){ std::cout << 1; }", Code::NoMain, 1),
        (b"unsigned main(){ std::cout << 1; }", Code::NoMain, 1),
        // forms that aren't built
        (b"using namespace sycl; int main(){}", Code::NotBuilt, 1),
        (b"int main(){ return 1; }", Code::NotBuilt, 13),
        (b"int main(){ std::cout << 1 << 0x1; }", Code::NotBuilt, 31),
        (b"int main(){ std::cout << 00; }", Code::NotBuilt, 26),
        (b"int main(){ std::cout << 1u; }", Code::NotBuilt, 26),
        (
            b"int main(){ std::cout << 1000000000000000000; }",
            Code::NotBuilt,
            26,
        ),
        (b"int main(){ std::cout << 1 + + 2; }", Code::NotBuilt, 30),
        (b"int main(){ std::cout << -1; }", Code::NotBuilt, 26),
        (b"int main(){ std::cout << 1 << 'a'; }", Code::NotBuilt, 31),
        (
            b"int main(){ std::cout << 1 << std::endl; }",
            Code::NotBuilt,
            31,
        ),
        (
            b"int main(){ std::cout << 1; } int f(){}",
            Code::NotBuilt,
            31,
        ),
    ];
    for (source, code, column) in cases {
        let (run, out, err) = call_in(&rt, "serial", source, &CLEAN)?;
        assert_eq!(rt; run.ended, refused(code, column));
        assert_eq!(rt; run.status(), 124);
        assert!(rt; run.order.is_empty());
        assert!(rt; out.is_empty());
        assert!(rt; err.as_slice().starts_with(b"syclrun: 1:"));
        assert_eq!(rt; run.note, Note::Written);
        let (checked, _, _) = call_in(&rt, "check", source, &CLEAN)?;
        let accepted = code == Code::NotBuilt;
        assert_eq!(rt;
            checked.ended,
            if accepted { Ended::Checked } else { run.ended }
        );
    }
    Ok(())
}

// The notes of refusals, as a person reads them.
#[test]
fn notes_of_refusals(rt: HostRuntime) -> Result<(), Fail> {
    let cases: [(&[u8], &str); 5] = [
        (
            b"int main(){ std::cout << \"ab",
            "syclrun: 1:26: no token\n",
        ),
        (
            b"int main(){\n  return 1 + * 2; }",
            "syclrun: 2:14: not in the grammar\n",
        ),
        (
            b"int main(){\n  return y; }",
            "syclrun: 2:10: unknown name\n",
        ),
        // captured-int
        (
            b"#include <sycl/sycl.hpp>\n#include <iostream>\n#include <vector>\n#include <thread>\nusing namespace sycl;\nint main() { int x = 0; std::thread t([&x] { x = 1; }); t.join(); }\n",
            "syclrun: 6:41: thread capture\n",
        ),
        (b"int main(){\n  return 1; }", "syclrun: 2:3: not built\n"),
    ];
    for (source, note) in cases {
        let (_, _, err) = call_in(&rt, "serial", source, &CLEAN)?;
        assert_eq!(rt; err.as_slice(), note.as_bytes());
    }
    Ok(())
}

// height: 61 pairs of parentheses round a number make a tree of height 64, 62 pairs one that is too high
#[test]
fn heights(rt: HostRuntime) -> Result<(), Fail> {
    let alloc = rt.alloc();
    for (pairs, code) in [(61, Code::NotBuilt), (62, Code::Grammar)] {
        let mut source = b"int main() { return ".to_vec(alloc)?;
        for _ in 0..pairs {
            source.push(b'(')?;
        }
        source.push(b'1')?;
        for _ in 0..pairs {
            source.push(b')')?;
        }
        source.extend_from_slice(b"; }")?;
        let (run, _, _) = call_in(&rt, "serial", source.as_slice(), &CLEAN)?;
        match run.ended {
            Ended::Refused(diagnostic) => assert_eq!(rt; diagnostic.code, code),
            _ => return Err(Fail::from("taken")),
        }
        let (checked, _, _) = call_in(&rt, "check", source.as_slice(), &CLEAN)?;
        let accepted = code == Code::NotBuilt;
        assert_eq!(rt;
            checked.ended,
            if accepted { Ended::Checked } else { run.ended }
        );
    }
    Ok(())
}

const REVERSE_IN_GROUPS: &[u8] = b"#include <sycl/sycl.hpp>
#include <iostream>
#include <vector>
using namespace sycl;
int main() {
  std::vector<int> v;
  for (int i = 0; i < 16; ++i) v.push_back(i);
  queue q;
  {
    buffer b{v};
    q.submit([&](handler& h) {
      accessor a{b, h};
      local_accessor<int> l{range<1>{8}, h};
      h.parallel_for(nd_range<1>{range<1>{16}, range<1>{8}}, [=](nd_item<1> it) {
        size_t g = it.get_global_id(0);
        size_t k = it.get_local_id(0);
        l[k] = a[g];
        group_barrier(it.get_group());
        a[g] = l[7 - k];
      });
    });
  }
  for (int x : v) std::cout << x << ' ';
}
";

// every-prefix: what ends before the last `}` has no tokens or no tree, and the whole is accepted
#[test]
fn every_prefix(rt: HostRuntime) -> Result<(), Fail> {
    let whole = REVERSE_IN_GROUPS.len();
    for len in 0..whole - 1 {
        let (run, out, _) = call_in(&rt, "check", &REVERSE_IN_GROUPS[..len], &CLEAN)?;
        match run.ended {
            Ended::Refused(diagnostic) => {
                assert!(rt; diagnostic.code == Code::Lexical || diagnostic.code == Code::Grammar)
            }
            _ => return Err(Fail::from("taken")),
        }
        assert!(rt; out.is_empty());
    }
    let (run, _, _) = call_in(&rt, "check", REVERSE_IN_GROUPS, &CLEAN)?;
    assert_eq!(rt; run.ended, Ended::Checked);
    Ok(())
}

// generated-run: the sources of the self test are accepted, and their first form that isn't built is in the third line
#[test]
fn generated_run(rt: HostRuntime) -> Result<(), Fail> {
    let third_line = Ended::Refused(Diagnostic {
        spot: Spot { line: 3, column: 1 },
        code: Code::NotBuilt,
    });
    for groups in [2, 200] {
        let source = source_of(rt.alloc(), 7, groups)?;
        for (mode, ended) in [("check", Ended::Checked), ("serial", third_line)] {
            let (run, _, _) = call_in(&rt, mode, source.as_slice(), &CLEAN)?;
            assert_eq!(rt; run.ended, ended);
        }
    }
    Ok(())
}

// sums-write-fault, and the limit and the faults of a source
#[test]
fn faults_and_limits(rt: HostRuntime) -> Result<(), Fail> {
    let alloc = rt.alloc();
    let sums = b"int main() { std::cout << 40 + 2 << 7 - 10; }";
    let broken = Outside {
        out_piece: 2,
        out_fails: &[2],
        ..CLEAN
    };
    let (run, out, err) = call_in(&rt, "serial", sums, &broken)?;
    assert_eq!(rt; run.ended, Ended::WriteFault);
    assert_eq!(rt; run.order.len(), 3);
    assert_eq!(rt; out.as_slice(), b"42".as_slice());
    assert_eq!(rt; err.as_slice(), b"syclrun: write fault\n".as_slice());

    let unread = Outside {
        source_fails: &[3],
        ..CLEAN
    };
    let (run, out, err) = call_in(&rt, "serial", b"int main(){}", &unread)?;
    assert_eq!(rt; run.ended, Ended::ReadFault);
    assert!(rt; run.order.is_empty() && out.is_empty());
    assert_eq!(rt; err.as_slice(), b"syclrun: read fault\n".as_slice());

    let mut long = Vec::with_capacity(alloc, 1_048_577)?;
    long.extend_from_slice(b"int main(){}")?;
    for _ in 0..1_048_564u32 {
        long.push(b' ')?;
    }
    assert_eq!(rt;
        call_in(&rt, "serial", long.as_slice(), &CLEAN)?.0.ended,
        Ended::Returned(0)
    );
    long.push(b' ')?;
    let (run, _, err) = call_in(&rt, "serial", long.as_slice(), &CLEAN)?;
    assert_eq!(rt; run.ended, Ended::SourceTooLong);
    assert_eq!(rt;
        err.as_slice(),
        b"syclrun: source longer than 1048576 bytes\n".as_slice()
    );
    Ok(())
}

const TWO_SUMS: &[u8] = b"int main(){ std::cout << 1 << 2; }";

/// What a call with these words took of the source and gave to standard output and error.
#[derive(Drop)]
struct Called {
    run: Run,
    out: Vec<u8>,
    err: Vec<u8>,
}

fn call<R: AllocGlobal + Threads + Wait + Sync>(
    rt: &R,
    texts: &[&str],
    source_fails: &[u64],
    err_fails: &[u64],
) -> Result<Called, Fail> {
    let alloc = rt.alloc();
    let mut words = Vec::new(alloc);
    for text in texts {
        words.push(String::from_str(alloc, text)?)?;
    }
    let mut source = MemSource::new(TWO_SUMS.to_vec(alloc)?, 9, source_fails.to_vec(alloc)?);
    let mut out = MemSink::new(alloc, 9, 9, Vec::new(alloc))?;
    let mut err = MemSink::new(alloc, 99, 99, err_fails.to_vec(alloc)?)?;
    let run = syclrun_top(
        rt,
        alloc,
        words.as_slice(),
        &mut source,
        &mut out,
        &mut err,
        &NoGate,
    );
    Ok(Called {
        run,
        out: out.taken().to_vec(alloc)?,
        err: err.taken().to_vec(alloc)?,
    })
}

// The words with the ending, the output and what standard error is told.
#[test]
fn calls(rt: HostRuntime) -> Result<(), Fail> {
    let stats = "syclrun: commands 0, steps 3, copies 0\n";
    let both = "syclrun: commands 0, steps 3, copies 0\ntrace 1\n0 3\nend\n";
    let cases: [(&[&str], Ended, &str, &str); 9] = [
        (&["serial"], Ended::Returned(0), "12", ""),
        (&["--stats", "serial"], Ended::Returned(0), "12", stats),
        (
            &["serial", "--trace"],
            Ended::Returned(0),
            "12",
            "trace 1\n0 3\nend\n",
        ),
        (
            &["--trace", "serial", "--stats"],
            Ended::Returned(0),
            "12",
            both,
        ),
        (
            &["serial", "--turns=1"],
            Ended::TurnsSpent(0, 1),
            "1",
            "syclrun: turns spent: thread 0, line 1\n",
        ),
        (&["check"], Ended::Checked, "", ""),
        (
            &["run", "--workers", "2", "--stats"],
            NOT_BUILT,
            "",
            "syclrun: 1:1: not built\n",
        ),
        (
            &["selftest", "--seed", "7", "--groups", "2"],
            NOT_BUILT,
            "",
            "syclrun: 1:1: not built\n",
        ),
        (
            &["serial", "serial"],
            Ended::BadWords,
            "",
            "syclrun: bad words\n",
        ),
    ];
    for (words, ended, output, note) in cases {
        let told = call(&rt, words, &[], &[])?;
        assert_eq!(rt; told.run.ended, ended);
        assert_eq!(rt; told.out.as_slice(), output.as_bytes());
        assert_eq!(rt; told.err.as_slice(), note.as_bytes());
        assert_eq!(rt; told.run.note == Note::Nothing, note.is_empty());
    }
    Ok(())
}

// Modes that read a source meet its fault; the self test reads none. A fault of standard error is noted.
#[test]
fn what_is_read_and_told(rt: HostRuntime) -> Result<(), Fail> {
    let selftest = ["selftest", "--seed", "7", "--groups", "2"];
    assert_eq!(rt;
        call(&rt, &["replay"], &[1], &[])?.run.ended,
        Ended::ReadFault
    );
    assert_eq!(rt; call(&rt, &selftest, &[1], &[])?.run.ended, NOT_BUILT);
    for fails in [1, 2] {
        let told = call(&rt, &["serial", "--turns", "1", "--trace"], &[], &[fails])?;
        assert_eq!(rt; told.run.ended, Ended::TurnsSpent(0, 1));
        assert_eq!(rt; told.run.note, Note::Failed);
    }
    Ok(())
}

#[test]
fn statuses(rt: HostRuntime) {
    let cases: [(Ended, u8); 12] = [
        (Ended::Checked, 0),
        (Ended::Returned(300), 44),
        (Ended::Returned(-1), 255),
        (Ended::Returned(120), 120),
        (Ended::Returned(121), 120),
        (Ended::Returned(136), 120),
        (Ended::Returned(137), 137),
        (Ended::BadWords, 121),
        (NOT_BUILT, 124),
        (overflow(1), 127),
        (Ended::Memory, 133),
        (Ended::Unfinished, 136),
    ];
    for (ended, status) in cases {
        assert_eq!(rt; ended.status(), status);
    }
}
