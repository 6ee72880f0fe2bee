//! Where progress is shown.
ghost use Rattle.std.specs.Prelude.{◌≡◌, Bool, IfOk, string_bytes};
ghost use Rattle.bf_progress.specs.inner.Lines.{line_at};

use bf_device::{Output, send};
use bf_value::OutOfMemory;
use std::alloc::Global;
use std::env;
use std::io::IsTerminal;

/// Where progress is shown, apart from what a backfill prints.
pub trait Screen {
    /// It may be told so whether this is a terminal.
    ghost may_be_terminal: { Self → Bool → Type 0 };

    /// Answers whether this is a terminal, on which a line can be overwritten.
    fn is_terminal(&self) -> bool
        ensures { may_be_terminal self.now result };

    /// Shows a text in one write. A failure is ignored: there is nowhere left to report it.
    fn show(&self, text: &str);
}

/// Standard error. It may be a terminal or not: std says nothing of what it is.
impl Screen for HostRuntime {
    ghost may_be_terminal = { λ _ is_terminal. Unit {0} };

    /// Answers whether standard error is a terminal, and TERM isn't `dumb`: on such a one no line can be overwritten.
    fn is_terminal(&self) -> bool {
        let term = env::var(self, "TERM").ok();
        self.stderr().is_terminal() && term.as_deref().unwrap_or("") != "dumb"
    }

    /// Writes the text to standard error in one write. A failure is ignored.
    fn show(&self, text: &str) {
        let _ = send(&mut Output::new(self.stderr()), text.as_bytes());
    }
}

/// Gives the text that shows a line: the line itself, on a terminal behind the escape sequence that clears the line of
/// progress that may stand there.
fn line_on(alloc: Global, is_terminal: bool, line: &str) -> Result<String, OutOfMemory>
    ensures { IfOk result (λ text. string_bytes text ≡ line_at is_terminal line.now) }
{
    if is_terminal {
        Ok(format!(in alloc; "\r\u{1b}[K{line}")?)
    } else {
        Ok(String::from_str(alloc, line)?)
    }
}

/// Shows a line in one write; on a terminal it replaces the line of progress that may stand there. Does nothing at want
/// of memory.
pub fn tell_line<RT: Screen>(rt: &RT, alloc: Global, line: &str) {
    if let Ok(text) = line_on(alloc, rt.is_terminal(), line) {
        rt.show(text.as_str());
    }
}
