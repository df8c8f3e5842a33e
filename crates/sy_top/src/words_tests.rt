// Words that the program takes, and words that it does not.

use crate::{BadWords, Job, Settings, settings};
use std::alloc::Global;
use std::test::Fail;

const LEFT_OUT: Settings = Settings {
    job: Job::Serial,
    workers: 4,
    turns: 10_000_000,
    seed: 0,
    groups: 0,
    stats: false,
    trace: false,
};

/// What these words say, which one blank separates.
fn said(alloc: Global, line: &str) -> Result<Result<Settings, BadWords>, Fail> {
    let mut words = Vec::new(alloc);
    for word in line.split(' ') {
        words.push(String::from_str(alloc, word)?)?;
    }
    Ok(settings(words.as_slice()))
}

#[test]
fn words(rt: HostRuntime) -> Result<(), Fail> {
    let alloc = rt.alloc();
    let taken: [(&str, Settings); 8] = [
        ("serial", LEFT_OUT),
        // option-before-mode
        (
            "--stats serial",
            Settings {
                stats: true,
                ..LEFT_OUT
            },
        ),
        (
            "run --workers 64 --turns=1 --trace --stats",
            Settings {
                job: Job::Run,
                workers: 64,
                turns: 1,
                stats: true,
                trace: true,
                ..LEFT_OUT
            },
        ),
        (
            "selftest --seed 65535 --groups=20000",
            Settings {
                job: Job::SelfTest,
                seed: 65_535,
                groups: 20_000,
                ..LEFT_OUT
            },
        ),
        (
            "check --turns 1000000000",
            Settings {
                job: Job::Check,
                turns: 1_000_000_000,
                ..LEFT_OUT
            },
        ),
        (
            "replay --trace",
            Settings {
                job: Job::Replay,
                trace: true,
                ..LEFT_OUT
            },
        ),
        (
            "selftest --groups 1 --workers=1 --seed 0",
            Settings {
                job: Job::SelfTest,
                workers: 1,
                groups: 1,
                ..LEFT_OUT
            },
        ),
        (
            "--turns=100 replay --stats",
            Settings {
                job: Job::Replay,
                turns: 100,
                stats: true,
                ..LEFT_OUT
            },
        ),
    ];
    for (line, set) in taken {
        assert_eq!(rt; said(alloc, line)?, Ok(set), "{}", line);
    }

    let refused: [&str; 42] = [
        "serial serial",
        "serial run",
        "--stats",
        "run --workers 4 --workers=4",
        "run --workers=4 --workers 4",
        "serial --stats --stats",
        "serial --trace --trace",
        "serial --workers 4",
        "replay --workers=4",
        "run --seed 7",
        "run --groups 7",
        "check --stats",
        "check --trace",
        "selftest --seed 7",
        "selftest --groups 2",
        "run --work 4",
        "--",
        "-h",
        "--help",
        "--version",
        "serial --help",
        "run --workers=",
        "run --workers ",
        "run --workers",
        "run --workers --stats",
        "run --workers 04",
        "run --workers 00",
        "run --workers +4",
        "run --workers -4",
        "run --workers 4x",
        "run --workers 0",
        "run --workers 65",
        "serial --turns 0",
        "serial --turns 1000000001",
        "serial --turns 99999999999999999999999",
        "selftest --seed 65536 --groups 2",
        "selftest --seed 7 --groups 0",
        "selftest --seed 7 --groups 20001",
        "serial --stats=1",
        "",
        "serial ",
        "serial x",
    ];
    for line in refused {
        assert_eq!(rt; said(alloc, line)?, Err(BadWords), "{}", line);
    }
    assert_eq!(rt; settings(&[]), Err(BadWords));
    assert_eq!(rt;
        format!(in alloc; "{BadWords}")?.as_str(),
        "no words that the program takes"
    );
    Ok(())
}
