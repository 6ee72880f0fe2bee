//! How tries are launched.
use bf_moment::Moment;

/// How the programs of tries are launched.
#[derive(Clone, Copy, Debug, Drop)]
pub struct Launching<'l> {
    /// The path of the launcher, which is started with a command's words as its arguments; None to start the command
    /// itself.
    pub launcher: Option<&'l str>,
    /// The folder of the logs; None where none are kept.
    pub logs: Option<&'l str>,
    /// What the clocks of the graph's zone show at the start of each run, as `clocks_of` finds it. A run that it has
    /// none for has the clock of UTC.
    pub clocks: &'l [Moment],
}
