//! Asks mode check of each source in a table, and tells where its answer isn't the one that stands beside the source.
//! The file `stdin` of this crate is the table, and says how it is read.
#![tactic(auto)]

use std::alloc::{AllocError, Global};
use std::io;
use sy_io::{MemSink, MemSource};
use sy_top::{Job, Settings, plain_top};

const CHECK: Settings = Settings {
    job: Job::Check,
    workers: 4,
    turns: 10_000_000,
    seed: 0,
    groups: 0,
    stats: false,
    trace: false,
};

/// What mode check tells of a source on standard error.
fn note_of(alloc: Global, source: &str) -> Result<Vec<u8>, AllocError> {
    let bytes = Vec::from_slice(alloc, source.as_bytes())?;
    let mut from = MemSource::new(bytes, 4096, Vec::new(alloc));
    let mut out = MemSink::new(alloc, 0, 1, Vec::new(alloc))?;
    let mut err = MemSink::new(alloc, 200, 200, Vec::new(alloc))?;
    let _ = plain_top(alloc, &CHECK, &mut from, &mut out, &mut err);
    Vec::from_slice(alloc, err.taken())
}

/// The note that an answer of the table stands for.
fn note_written(alloc: Global, answer: &str) -> Result<String, AllocError> {
    if answer == "accepted" {
        return Ok(String::new(alloc));
    }
    format!(in alloc; "syclrun: {answer}\n")
}

fn main(rt: HostRuntime) -> io::Result<()> {
    let alloc = rt.alloc();
    let table = io::read_to_string(alloc, rt.stdin())?;
    let mut rows = 0u64;
    let mut wrong = 0u64;
    for row in table.as_str().split("\n-- ").skip(1) {
        let Some((head, source)) = row.split_once("\n") else {
            continue;
        };
        let Some((title, answer)) = head.split_once(" -> ") else {
            continue;
        };
        rows = rows.wrapping_add(1);
        let note = note_of(alloc, source)?;
        if note.as_slice() != note_written(alloc, answer)?.as_bytes() {
            wrong = wrong.wrapping_add(1);
            let told = String::from_utf8_lossy(alloc, note.as_slice())?;
            println!(rt; "{title}: {answer} is written, and check says {told}")?;
        }
    }
    println!(rt; "{rows} sources, {wrong} with another answer")
}
