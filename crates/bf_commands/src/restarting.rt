//! Programs that are started again for which processes or memory were wanting.
ghost use Rattle.std.specs.Prelude.{◌≡◌, IfOk, string_bytes};
ghost use Rattle.bf_commands.specs.inner.Restarting.{restart_line_of};

use bf_failure::{Detail, try_text};
use bf_process::{Heard, Setting, Starter};
use bf_progress::{Screen, tell_line};
use bf_try::RunnerFault;
use bf_value::OutOfMemory;
use bf_words::JobContext;
use std::alloc::Global;
use std::time::{Clock, Duration};

/// How many seconds pass before a program is started again, each time that processes or memory are wanting for it.
static PAUSES: [u64; 10] = [1, 2, 4, 8, 16, 32, 60, 60, 60, 60];

/// Starts programs on the machine; one for which processes or memory are wanting it starts again later, up to ten times.
#[derive(Drop)]
pub(crate) struct Restarting<'m, RT> {
    pub(crate) rt: &'m RT,
    /// Whether it tells on the screen which program is to be started again.
    pub(crate) tells: bool,
}

/// Makes the line of a try whose program is to be started again, with its line feed, in the form `not started yet: load
/// 2024-02-14T00:00:00Z try 1: Resource temporarily unavailable`. `words` are the system's.
fn restart_line(alloc: Global, context: &JobContext<'_>, words: &str) -> Result<String, OutOfMemory>
    ensures { IfOk result (λ line. string_bytes line ≡ restart_line_of context.now words.now) }
{
    let text = try_text(alloc, context)?;
    Ok(format!(in alloc; "not started yet: {text}: {words}\n")?)
}

impl<'m, RT: Screen> Restarting<'m, RT> {
    /// Tells that a try's program is to be started again, where that is told; tells nothing at want of memory.
    fn tell(&self, alloc: Global, context: &JobContext<'_>, heard: &Heard) {
        if !self.tells || !heard.may_start_later {
            return;
        }
        let Some(Detail::NotStarted(words)) = &heard.detail else {
            return;
        };
        if let Ok(line) = restart_line(alloc, context, words.as_str()) {
            tell_line(self.rt, alloc, line.as_str());
        }
    }
}

impl<'m, RT: Starter + Screen + Clock> Starter for Restarting<'m, RT> {
    ghost may_hear = { λ s launched raw. RT.may_hear s.rt.now launched raw };

    ghost may_lose = { λ s launched. RT.may_lose s.rt.now launched };

    /// Starts a program as the machine does. Where processes or memory are wanting for it, tells that once, and starts
    /// it again behind each of `PAUSES`, until it starts; else gives what the last start gave.
    fn start(
        &self,
        alloc: Global,
        program: &str,
        arguments: &[String],
        setting: &Setting<'_, '_>,
    ) -> Result<Heard, RunnerFault> {
        let mut heard = self.rt.start(alloc, program, arguments, setting)?;
        self.tell(alloc, setting.context, &heard);
        for seconds in &PAUSES {
            if !heard.may_start_later {
                return Ok(heard);
            }
            self.rt.sleep(Duration::from_secs(*seconds));
            heard = self.rt.start(alloc, program, arguments, setting)?;
        }
        Ok(heard)
    }
}
