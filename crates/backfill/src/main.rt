//! Runs dated task graphs; `backfill --help` says how.
#![tactic(auto)]

use bf_command_fault::Status;
use bf_device::Output;
use bf_disk::Disk;
use bf_program::{answer, explain_check};
use bf_views::Canvas;
use std::fs::File;
use std::io::IsTerminal;
use std::mem::forget;
use std::os::fd::AsRawFd;
use std::process::ExitCode;
use std::{env, io};

/// What Rust's `clap` says where a word is no UTF-8. The words of such a line can't be read, so `clap` isn't asked
/// here.
const NOT_UTF8: &str = "error: invalid UTF-8 was detected in one or more arguments

For more information, try '--help'.";

/// Answers the command line with the machine's files, clocks, threads and programs, and ends with the exit status that
/// this gives. After a refusal, tells what is wrong with the graph where `check --explain` asks for it.
fn main(rt: HostRuntime) -> ExitCode {
    fill_closed_streams(&rt);
    let words = match words(&rt) {
        Ok(words) => words,
        Err(error) => return ExitCode::from(tell_unreadable_words(&rt, &error).code()),
    };
    let mut files = Disk::new(&rt);
    let journals = Disk::new(&rt);
    let mut folder = Disk::new(&rt);
    let mut out = Output::new(rt.stdout());
    let mut err = Output::new(rt.stderr());
    let status = answer(
        &rt,
        rt.alloc(),
        &words,
        canvas(&rt),
        &mut files,
        &journals,
        &mut folder,
        &mut out,
        &mut err,
    );
    if status == Status::Refused.code() {
        // What is wrong is told already, and where more can't be, nothing is left to say so on.
        let _ = explain_check(rt.alloc(), &words, &mut files, &mut err);
    }
    ExitCode::from(status)
}

/// Opens `/dev/null` in the place of each standard stream that is closed, so that no file which is opened later, as a
/// journal, gets what is written there. It is opened for reading: writing there fails, as where it is closed.
fn fill_closed_streams(rt: &HostRuntime) {
    for _ in 0..3 {
        let Ok(file) = File::open(rt, "/dev/null") else {
            return;
        };
        if file.as_raw_fd() > 2 {
            return;
        }
        forget(file);
    }
}

/// Reads the words of the command line, the program's own name first. An error where one isn't UTF-8, or at want of
/// memory.
fn words(rt: &HostRuntime) -> io::Result<Vec<String>> {
    Ok(env::args(rt)?.collect(rt.alloc())?)
}

/// Answers how a grid looks on standard output: by whether that is a terminal, and by COLUMNS, NO_COLOR and TERM. A
/// variable that can't be read counts as not set.
fn canvas(rt: &HostRuntime) -> Canvas {
    let columns = env::var(rt, "COLUMNS").ok();
    let no_color = env::var(rt, "NO_COLOR").ok();
    let term = env::var(rt, "TERM").ok();
    Canvas::of(
        rt.stdout().is_terminal(),
        columns.as_deref(),
        no_color.as_deref(),
        term.as_deref(),
    )
}

/// Writes to standard error why the words can't be read, and gives the exit status: `Refused` where one isn't UTF-8,
/// else `Fault`. Ignores a failed write.
fn tell_unreadable_words(rt: &HostRuntime, error: &io::Error) -> Status {
    if error.kind() == io::ErrorKind::InvalidData {
        let _ = eprintln!(rt; "{NOT_UTF8}");
        return Status::Refused;
    }
    let _ = eprintln!(rt; "fault: {error}");
    Status::Fault
}
