//! Branches.
ghost use Rattle.std.specs.Prelude.{◌≡◌, ◌⊎◌, ◌↔◌, ◌<◌, length, IsTrue, Some, option_map};
ghost use Rattle.bf_graph.specs.Reach.{Reaches};
ghost use Rattle.bf_rule.specs.Branches.{is_direct_downstream_in, is_downstream_name_in, name_in, names_downstreams_in, followed_at};
ghost use Rattle.bf_rule.specs.inner.Branches.{followed_by_name};
ghost use Rattle.std.specs.List.{list_all, list_any};

use bf_graph::Graph;
use bf_value::Xval;

/// Whether a task comes directly after a branch: it has the branch as an upstream.
fn is_direct_downstream(graph: &Graph, branch: u32, task: u32) -> bool
    requires { task < length graph.now.upstreams }
    ensures { result ≡ is_direct_downstream_in graph.now branch task }
{
    graph
        .upstreams(task)
        .iter()
        .any(|upstream| *upstream == branch)
}

/// Whether `name` is the id of a task that comes directly after the branch.
fn is_downstream_name(graph: &Graph, branch: u32, name: &str) -> bool
    ensures { result ≡ is_downstream_name_in graph.now branch (Some name.now) }
{
    let _tasks = graph.len();
    match graph.number_of(name) {
        Some(task) => is_direct_downstream(graph, branch, task),
        None => false,
    }
}

/// Whether a value is a text, and the id of a task directly after the branch.
fn is_downstream_value(graph: &Graph, branch: u32, value: &Xval) -> bool
    ensures { result ≡ is_downstream_name_in graph.now branch (name_in value.now) }
{
    match value {
        Xval::Text(name) => is_downstream_name(graph, branch, name.as_str()),
        _ => false,
    }
}

/// Whether each value is a text, and the id of a task directly after the branch.
fn are_downstream_values(graph: &Graph, branch: u32, values: &[Xval]) -> bool
    ensures { result ≡ list_all
        (λ v. is_downstream_name_in graph.now branch (name_in v)) values.now }
{
    values
        .iter()
        .all(|value| is_downstream_value(graph, branch, value))
}

/// Whether a branch may push this: nothing, the id of one of its direct downstreams, or a list of such ids (Airflow's
/// "Branching"; that any other value is refused is this project's own).
pub fn names_downstreams(graph: &Graph, branch: u32, value: Option<&Xval>) -> bool
    ensures { result ≡ names_downstreams_in graph.now branch (option_map (λ v. v.now) value.entry) }
{
    match value {
        None => true,
        Some(Xval::List(values)) => are_downstream_values(graph, branch, values.as_slice()),
        Some(value) => is_downstream_value(graph, branch, value),
    }
}

/// Whether two tasks are the same, or edges lead from the first to the second.
fn is_or_reaches(graph: &Graph, from: u32, to: u32) -> bool
    requires from { from < length graph.now.upstreams }
    requires to { to < length graph.now.upstreams }
    ensures { IsTrue result ↔ ((from ≡ to) ⊎ Reaches graph.now.upstreams from to) }
{
    from == to || graph.reaches(from, to)
}

/// Whether a branch that names this id lets a task follow: the id is of a task directly after the branch, and
/// the task is that one or comes after it.
fn follows_by_name(graph: &Graph, branch: u32, name: &str, task: u32) -> bool
    requires { task < length graph.now.upstreams }
    ensures { result ≡ followed_by_name graph.now branch task (Some name.now) }
{
    let _tasks = graph.len();
    graph.tasks_have_ranks();
    graph.ids_are_distinct();
    match graph.number_of(name) {
        Some(named) => {
            is_direct_downstream(graph, branch, named) && is_or_reaches(graph, named, task)
        }
        None => false,
    }
}

/// Whether a branch that pushes this id lets a task follow: the id is of a task directly after the branch, which is
/// `task` or which `task` comes after. False for a value that is no text.
fn follows_by_value(graph: &Graph, branch: u32, value: &Xval, task: u32) -> bool
    requires { task < length graph.now.upstreams }
    ensures { result ≡ followed_by_name graph.now branch task (name_in value.now) }
{
    match value {
        Xval::Text(name) => follows_by_name(graph, branch, name.as_str(), task),
        _ => false,
    }
}

/// Whether a branch that pushes a list of these values lets a task follow: one of them is the id of a task directly
/// after the branch, which is `task` or which `task` comes after.
fn follows_by_values(graph: &Graph, branch: u32, values: &[Xval], task: u32) -> bool
    requires { task < length graph.now.upstreams }
    ensures { result ≡ list_any
        (λ v. followed_by_name graph.now branch task (name_in v)) values.now }
{
    values
        .iter()
        .any(|value| follows_by_value(graph, branch, value, task))
}

/// Whether a branch that pushes this value, an id or a list of ids, lets a task follow; false for any other value.
fn follows_by_pushed(graph: &Graph, branch: u32, value: &Xval, task: u32) -> bool
    requires { task < length graph.now.upstreams }
    ensures { result ≡ followed_at graph.now branch (Some value.now) task }
{
    let _tasks = graph.len();
    graph.tasks_have_ranks();
    match value {
        Xval::Text(name) => follows_by_name(graph, branch, name.as_str(), task),
        Xval::List(values) => follows_by_values(graph, branch, values.as_slice(), task),
        Xval::Flag(_) | Xval::Int(_) | Xval::Nil => false,
    }
}

/// Whether a branch that pushed this follows a task: it names, among its direct downstreams, the task or one that
/// reaches the task (Airflow's "Branching": a join of a followed path is not skipped). False where it pushed nothing.
pub fn followed(graph: &Graph, branch: u32, value: Option<&Xval>, task: u32) -> bool
    requires { task < length graph.now.upstreams }
    ensures { result ≡ followed_at graph.now branch (option_map (λ v. v.now) value.entry) task }
{
    match value {
        Some(value) => follows_by_pushed(graph, branch, value, task),
        None => false,
    }
}
