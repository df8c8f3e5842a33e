//! The program: standard input is the source, standard output takes what it prints, and standard
//! error takes the notes. All else is the top call's.
#![tactic(auto)]

use std::process::ExitCode;
use std::{env, io};
use sy_io::{StdSink, StdSource};
use sy_top::{Ended, syclrun_top};
use sy_work::NoGate;

/// The words after the program's name. Words that aren't text are no words at all.
fn words(rt: &HostRuntime) -> io::Result<Vec<String>> {
    let mut words = Vec::new(rt.alloc());
    match env::args(rt) {
        Ok(all) => {
            for word in all.skip(1) {
                words.push(word)?;
            }
            Ok(words)
        }
        Err(error) => match error.kind() {
            io::ErrorKind::InvalidData => Ok(words),
            _ => Err(error),
        },
    }
}

fn main(rt: HostRuntime) -> ExitCode {
    let Ok(words) = words(&rt) else {
        let _ = eprintln!(rt; "syclrun: out of memory");
        return ExitCode::from(Ended::Memory.status());
    };
    let mut source = StdSource::new(rt.stdin());
    let mut out = StdSink::new(rt.stdout());
    let mut err = StdSink::new(rt.stderr());
    let run = syclrun_top(
        &rt,
        rt.alloc(),
        words.as_slice(),
        &mut source,
        &mut out,
        &mut err,
        &NoGate,
    );
    ExitCode::from(run.status())
}
