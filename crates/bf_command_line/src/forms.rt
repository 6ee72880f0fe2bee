//! What a command line asks for. Files are named by path, and moments stand as they were written.

use bf_workers::Workers;

/// `GRAPH [--zone-file PATH]`: the paths of a graph file, and of the zone file that its zone `file` means.
#[derive(Drop)]
pub struct GraphAsked {
    pub graph: String,
    pub zone_file: Option<String>,
}

/// `check GRAPH [--explain]`: a graph, and whether to tell all that is wrong with it.
#[derive(Drop)]
pub struct CheckAsked {
    pub graph: GraphAsked,
    pub explain: bool,
}

/// Where data intervals have to start.
#[derive(Drop)]
pub enum StartsAsked {
    /// `--from T --to T`: the first and the last moment at which one may start, both included.
    Between { from: String, to: String },
    /// `--on DAYS`: the day, or the first and the last day, on which one may start by the graph's zone.
    On(String),
}

/// `(--from T --to T | --on DAYS) [--some]`: where data intervals have to start, and whether a range without any is
/// refused.
#[derive(Drop)]
pub struct RangeAsked {
    pub starts: StartsAsked,
    pub some: bool,
}

/// `list GRAPH RANGE`: print the data intervals that start in a range.
#[derive(Drop)]
pub struct ListAsked {
    pub graph: GraphAsked,
    pub range: RangeAsked,
}

/// `single GRAPH TABLE --at T`: make one run, whose interval starts and ends at `T`, with a table's answers.
#[derive(Drop)]
pub struct SingleAsked {
    pub graph: GraphAsked,
    pub table: String,
    pub at: String,
}

/// `dry GRAPH TABLE RANGE [--workers N] [--progress]`: make a run for each data interval of a range, with a table's
/// answers.
#[derive(Drop)]
pub struct DryAsked {
    pub graph: GraphAsked,
    pub table: String,
    pub range: RangeAsked,
    pub workers: Workers,
    pub progress: bool,
}

/// `--journal PATH [--stop-after N] [--retry-failed]`: the file to record tries in and to go on from; after how many
/// failed tries no further one begins, None for any number; and whether recorded tries that failed are made again.
#[derive(Drop)]
pub struct JournalAsked {
    pub path: String,
    pub stop_after: Option<u32>,
    pub retry_failed: bool,
}

/// `run GRAPH RANGE [--workers N] [--progress] [--launcher PATH] [--logs FOLDER] [--journal PATH ..] [--quiet]`: make a
/// run for each data interval of a range, with the programs of its tasks. A launcher is handed the words of their
/// commands; a folder of logs keeps what they write and are given. `progress` is false where `quiet` is set.
#[derive(Drop)]
pub struct RunAsked {
    pub graph: GraphAsked,
    pub range: RangeAsked,
    pub workers: Workers,
    pub progress: bool,
    pub quiet: bool,
    pub launcher: Option<String>,
    pub logs: Option<String>,
    pub journal: Option<JournalAsked>,
}

/// `--task ID --run T [--index N]`: a task in the run of a logical date, or only its instance of a map index.
#[derive(Drop)]
pub struct SeedAsked {
    pub task: String,
    pub run: String,
    pub index: Option<i32>,
}

/// What to clear in a report.
#[derive(Drop)]
pub enum ClearedAsked {
    /// `--task ID --run T [--index N] ..`: the first task in the first run with the first index, and so on.
    Seeds(Vec<SeedAsked>),
    /// `--seeds PATH`: what the lines of a file name.
    File(String),
    /// `--failed`: each instance that failed.
    Failed,
    /// Nothing, for `run` and `dry` with `--keep`.
    Nothing,
}

/// `clear GRAPH REPORT RANGE CLEARED [--table PATH] [--workers N] [--progress] [--launcher PATH] [--logs FOLDER]
/// [--journal PATH ..] [--quiet]`: go on from a report with some tasks in runs cleared, and all that follows from
/// them. A table answers the tries where one is named, else programs make them, as with `run`.
#[derive(Drop)]
pub struct ClearAsked {
    pub graph: GraphAsked,
    pub report: String,
    pub range: RangeAsked,
    pub cleared: ClearedAsked,
    pub table: Option<String>,
    pub workers: Workers,
    pub progress: bool,
    pub quiet: bool,
    pub launcher: Option<String>,
    pub logs: Option<String>,
    pub journal: Option<JournalAsked>,
}

/// `clear GRAPH REPORT RANGE CLEARED --plan`: print what would be cleared.
#[derive(Drop)]
pub struct ClearPlanAsked {
    pub graph: GraphAsked,
    pub report: String,
    pub range: RangeAsked,
    pub cleared: ClearedAsked,
}

/// When to colour a grid.
#[derive(Clone, Copy, PartialEq, Eq)]
pub enum Color {
    /// On a terminal, unless NO_COLOR is set and not empty, or TERM is `dumb`.
    Auto,
    Always,
    Never,
}

/// `show GRAPH REPORT [--from T] [--to T] [--failed] [--width N] [--color WHEN]`: show a report as a grid, the runs
/// from a moment on or up to one, or only what failed. The width is in characters, 20 to 10,000.
#[derive(Drop)]
pub struct ShowAsked {
    pub graph: GraphAsked,
    pub report: String,
    pub from: Option<String>,
    pub to: Option<String>,
    pub failed: bool,
    pub width: Option<u32>,
    pub color: Color,
}

/// `page GRAPH REPORT [--states-only] [--journal PATH]`: write a page that shows a report, without its tries and values
/// where only states are asked for, and with the times of a journal where one is named.
#[derive(Drop)]
pub struct PageAsked {
    pub graph: GraphAsked,
    pub report: String,
    pub states_only: bool,
    pub journal: Option<String>,
}

/// `--task ID [--index N]`: a task, or only its instance of a map index.
#[derive(Drop)]
pub struct TaskAsked {
    pub id: String,
    pub index: Option<i32>,
}

/// `explain GRAPH REPORT --run T [--task ID [--index N]]`: tell why a task in the run of a logical date has its state,
/// or why the run has, where no task is named.
#[derive(Drop)]
pub struct ExplainAsked {
    pub graph: GraphAsked,
    pub report: String,
    pub run: String,
    pub task: Option<TaskAsked>,
}

/// A file format that has a JSON Schema.
#[derive(Clone, Copy, PartialEq, Eq)]
pub enum Format {
    Graph,
    Table,
}

/// A shell that can complete command lines.
#[derive(Clone, Copy, PartialEq, Eq)]
pub enum Shell {
    Bash,
    Zsh,
    Fish,
}

/// A command with its paths and options.
#[derive(Drop)]
pub enum Asked {
    /// `check`: tell whether a graph file is good.
    Check(CheckAsked),
    /// `list`: print the data intervals that start in a range.
    List(ListAsked),
    /// `single`: run a graph once over a table.
    Single(SingleAsked),
    /// `dry`: run a graph for a range over a table.
    Dry(DryAsked),
    /// `run`: run a graph for a range with the programs of its tasks.
    Run(RunAsked),
    /// `run GRAPH RANGE --keep REPORT ..` and `dry GRAPH TABLE RANGE --keep REPORT ..`: go on from a report of the same
    /// graph, even if its tasks or runs were others; as a `clear` that clears nothing.
    Keep(ClearAsked),
    /// `clear`: go on from a report with some of it cleared.
    Clear(ClearAsked),
    /// `clear --plan`: print what `Clear` would clear.
    ClearPlan(ClearPlanAsked),
    /// `show`: print a report as a grid.
    Show(ShowAsked),
    /// `show --json REPORT`: print the task instances of a report as lines of JSON.
    ShowJson(String),
    /// `page`: write a page that shows a report.
    Page(PageAsked),
    /// `explain`: tell why a task or a run has its state.
    Explain(ExplainAsked),
    /// `answers REPORT`: print the table with which `dry` makes the report again.
    Answers(String),
    /// `schema FORMAT`: print the JSON Schema of a format's files.
    Schema(Format),
    /// `completions SHELL`: print the script by which a shell completes command lines.
    Completions(Shell),
}

/// What a whole line asks for: `COMMAND [--out PATH]`. Where a file is named, the report goes there and not to standard
/// output; only commands that write reports have the option.
#[derive(Drop)]
pub struct CommandLine {
    pub command: Asked,
    pub out: Option<String>,
}
