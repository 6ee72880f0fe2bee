//! Events, a line each.
use bf_core::Event;
use bf_try::Outcome;
use std::io;

fn word(outcome: &Outcome) -> &'static str {
    match outcome {
        Outcome::Success(_) => "success",
        Outcome::Failed => "failed",
        Outcome::Skipped => "skipped",
    }
}

/// Prints one event on a line of its own.
fn show_event(rt: &HostRuntime, event: &Event) -> io::Result<()> {
    match event {
        Event::Open => println!(rt; "open"),
        Event::Settle { run, task } => println!(rt; "settle {run} {task}"),
        Event::Expand { run, task } => println!(rt; "expand {run} {task}"),
        Event::Begin(name) => println!(rt;
            "begin {} {} {} {}",
            name.run, name.task, name.index, name.attempt
        ),
        Event::End(name, outcome) => println!(rt;
            "end {} {} {} {} {}",
            name.run,
            name.task,
            name.index,
            name.attempt,
            word(outcome)
        ),
        Event::Close { run } => println!(rt; "close {run}"),
        Event::Tick { moment } => println!(rt; "tick {moment}"),
    }
}

/// Prints events, a line each, up to the first that can't be printed; false where there is one.
pub(crate) fn show(rt: &HostRuntime, events: &[Event]) -> bool {
    events.iter().all(|event| show_event(rt, event).is_ok())
}
