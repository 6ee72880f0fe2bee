//! Logs, made anew.
use crate::heard::Heard;
use crate::log_faults::LogFaults;
use crate::setting::TryLogs;
use bf_failure::Detail;
use std::fs::{File, OpenOptions};
use std::io::{ErrorKind, Write};
use std::{fs, io};

/// The open log of a try's standard output, and where it is noted that the log lacks a part.
#[derive(Drop)]
pub(crate) struct OutputLog<'f> {
    pub(crate) file: File,
    pub(crate) faults: &'f LogFaults,
}

/// The open logs of a try: of its standard output and of its standard error.
#[derive(Drop)]
pub(crate) struct OpenLogs<'f> {
    pub(crate) out: OutputLog<'f>,
    pub(crate) err: File,
}

/// Answers whether there is a folder at a path; false for a link to one, and where the path can't be examined.
fn is_folder(files: &HostRuntime, path: &str) -> bool {
    match fs::symlink_metadata(files, path) {
        Ok(there) => there.is_dir(),
        Err(_) => false,
    }
}

/// Makes a folder unless it exists; Err where it can't, or where a link or a file stands at the path.
fn make_folder(files: &HostRuntime, path: &str) -> io::Result<()> {
    if is_folder(files, path) {
        return Ok(());
    }
    match fs::create_dir(files, path) {
        Ok(()) => Ok(()),
        Err(_) if is_folder(files, path) => Ok(()),
        Err(error) => Err(error),
    }
}

/// Makes the folder of all logs, and those above it, unless it exists; a link to a folder will do.
fn make_logs_folder(files: &HostRuntime, path: &str) -> io::Result<()> {
    match fs::metadata(files, path) {
        Ok(there) if there.is_dir() => Ok(()),
        _ => fs::create_dir_all(files, path),
    }
}

/// Gives the path up to its last `/`, without it; empty where the path has no `/`.
fn folder_of(path: &str) -> &str {
    match path.rsplit_once('/') {
        Some((folder, _)) => folder,
        None => "",
    }
}

/// Makes the folders that a log with this path lies in, unless they exist: that of all logs, and in it those of the
/// graph, the run and the task.
fn make_folders_of_log(files: &HostRuntime, path: &str) -> io::Result<()> {
    let task = folder_of(path);
    let run = folder_of(task);
    let dag = folder_of(run);
    make_logs_folder(files, folder_of(dag))?;
    make_folder(files, dag)?;
    make_folder(files, run)?;
    make_folder(files, task)
}

/// Creates a file at a path and opens it for appending; Err where something is at the path already.
fn create_log(files: &HostRuntime, path: &str) -> io::Result<File> {
    OpenOptions::new()
        .append(true)
        .create_new(true)
        .open(files, path)
}

/// Creates an empty file at a path and opens it for appending, once it has removed what was there: of a link only the
/// link itself.
fn replace_log(files: &HostRuntime, path: &str) -> io::Result<File> {
    match create_log(files, path) {
        Err(error) if error.kind() == ErrorKind::AlreadyExists => {
            fs::remove_file(files, path)?;
            create_log(files, path)
        }
        made => made,
    }
}

/// Writes the file of what a try was given, and creates those of its standard output and standard error, with the
/// folders that they lie in; Err where one can't be made. No contract covers this.
pub(crate) fn open_logs<'f>(
    files: &HostRuntime,
    logs: &TryLogs,
    faults: &'f LogFaults,
) -> io::Result<OpenLogs<'f>> {
    make_folders_of_log(files, logs.out.as_str())?;
    replace_log(files, logs.given.as_str())?.write_all(logs.given_text.as_bytes())?;
    let file = replace_log(files, logs.out.as_str())?;
    Ok(OpenLogs {
        out: OutputLog { file, faults },
        err: replace_log(files, logs.err.as_str())?,
    })
}

/// Appends why a program wasn't started to the log of its standard error, in the form `backfill: /no/such: No such file
/// or directory`; does nothing where it was started. A failed write is ignored.
pub(crate) fn note_start_fault(files: &HostRuntime, logs: &TryLogs, program: &str, heard: &Heard) {
    let Some(Detail::NotStarted(words)) = &heard.detail else {
        return;
    };
    if let Ok(mut err) = OpenOptions::new()
        .append(true)
        .open(files, logs.err.as_str())
    {
        let _ = writeln!(err, "backfill: {program}: {words}");
    }
}
