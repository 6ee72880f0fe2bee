//! What is told of a journal, beside the report.

use bf_journal::Found;
use bf_progress::Screen;
use std::alloc::{AllocError, Global};

/// Counts the whole lines of a journal after its head; 0 where it has no line. No contract rests on it.
fn lines_behind_head(held: &[u8]) -> usize {
    let lines = held.iter().filter(|byte| **byte == b'\n').count();
    lines.saturating_sub(1)
}

/// Shows a line on the screen; shows nothing where memory ran out for it.
fn show_line<RT: Screen>(rt: &RT, line: Result<String, AllocError>) {
    if let Ok(line) = line {
        rt.show(line.as_str());
    }
}

/// Tells on the screen how many bytes of an unfinished record are dropped, and after how many tries the journal goes
/// on; nothing where it was empty. `held` are the journal's bytes.
pub(crate) fn tell_found<RT: Screen>(rt: &RT, alloc: Global, held: &[u8], found: &Found) {
    let torn = found.torn;
    if torn > 0 {
        let line = format!(in alloc;
            "journal: {torn} bytes of a record that was cut short are dropped\n"
        );
        show_line(rt, line);
    }
    if found.whole > 0 {
        let tries = lines_behind_head(held);
        show_line(
            rt,
            format!(in alloc; "journal: goes on behind {tries} tries\n"),
        );
    }
}

/// Tells on the screen that the report is whole and the journal isn't.
pub(crate) fn tell_unrecorded<RT: Screen>(rt: &RT) {
    rt.show("journal: the report is whole, the journal isn't\n");
}
