//! The graphs that are backfilled, and what their tries answer.
use bf_try::Raw;
use bf_value::{JobName, OutOfMemory, Sequence};
use std::alloc::Global;

/// A graph, with what its tries answer.
#[derive(Clone, Copy, Debug, PartialEq, Eq)]
pub(crate) enum GraphCase {
    /// Has a retry that waits, a dependence on the past, an expansion, a pool and a rule that decides early.
    Delayed,
    /// Has a task expanded over a list, of whose instances one fails, and a task expanded over what those pushed.
    Expanded,
}

const DELAYED: &str =
    r#"{"dag_id":"d","schedule":"@daily","max_active_runs":2,"pools":{"narrow":1},"tasks":[
    {"id":"list","retries":1,"retry_delay":60,"depends_on_past":true},
    {"id":"each","upstream":["list"],"expand":"list","pool":"narrow"},
    {"id":"first","upstream":["each"],"rule":"one_success"},
    {"id":"sum","upstream":["each"],"command":["echo",{"pull":"each"}]}]}"#;

const EXPANDED: &str = r#"{"dag_id":"d","schedule":"@daily","tasks":[
    {"id":"src"},
    {"id":"m","upstream":["src"],"expand":"src"},
    {"id":"n","upstream":["m"],"expand":"m","rule":"all_done"}]}"#;

impl GraphCase {
    /// Gives the graph file.
    pub fn file(self) -> &'static str {
        match self {
            GraphCase::Delayed => DELAYED,
            GraphCase::Expanded => EXPANDED,
        }
    }

    /// Gives the exit status of a try, and the last line that it prints.
    fn answer(self, name: JobName) -> (i32, &'static str) {
        match (self, name.task, name.index, name.attempt) {
            (GraphCase::Delayed, 0, _, 1) | (GraphCase::Delayed, 1, 1, _) => (1, ""),
            (GraphCase::Delayed, 0, _, _) => (0, "[1,2]"),
            (GraphCase::Expanded, 0, _, _) => (0, "[1,2,3]"),
            (GraphCase::Expanded, 1, 0, _) => (0, "1"),
            (GraphCase::Expanded, 1, 1, _) => (1, ""),
            (GraphCase::Expanded, 1, 2, _) => (0, "3"),
            _ => (0, ""),
        }
    }

    /// Gives the raw answer of a try.
    pub fn raw(self, alloc: Global, name: JobName) -> Result<Raw, OutOfMemory> {
        let (status, line) = self.answer(name);
        let line = line.as_bytes().to_vec(alloc)?;
        Ok(Raw::with_code(status, Sequence::from_vec(line)))
    }
}
