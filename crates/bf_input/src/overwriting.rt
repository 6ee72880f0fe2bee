//! Whether a report would be written over what its line reads or starts.
ghost use Rattle.std.specs.Prelude.{◌≡◌, false, option_copied, option_map, true};
ghost use Rattle.bf_command_line.specs.Naming.{logs_of};
ghost use Rattle.bf_input.specs.Overwriting.{IsOverwriting, IsSparing, MayLead, MayMiss, graph_path, leads_of, other_than, zone_path};

use bf_command_line::{Asked, GraphAsked};
use bf_disk::Places;

/// Whether the path that is named leads to the file at `path`; false where none is named.
fn leads_to<P: Places>(places: &P, named: Option<&str>, path: &str) -> bool
    ensures yes { result ≡ true
        → MayLead (P.same places.now) (option_map (λ n. n.now) named.entry) path.now }
    ensures no { result ≡ false
        → MayMiss (P.same places.now) (option_map (λ n. n.now) named.entry) path.now }
{
    match named {
        Some(named) => places.are_one(named, path),
        None => false,
    }
}

/// Whether the launcher that is named is the file at `path`; false where none is named.
fn starts<P: Places>(places: &P, launcher: Option<&str>, path: &str) -> bool
    ensures yes { result ≡ true
        → MayLead (P.started places.now) (option_map (λ n. n.now) launcher.entry) path.now }
    ensures no { result ≡ false
        → MayMiss (P.started places.now) (option_map (λ n. n.now) launcher.entry) path.now }
{
    match launcher {
        Some(launcher) => places.is_launcher(launcher, path),
        None => false,
    }
}

/// The path of the graph file.
fn graph_named(graph: Option<&GraphAsked>) -> Option<&str>
    ensures { option_map (λ path. path.now) result ≡ graph_path (option_copied graph.entry) }
{
    match graph {
        Some(graph) => Some(graph.graph.as_str()),
        None => None,
    }
}

/// The path of the zone file.
fn zone_named(graph: Option<&GraphAsked>) -> Option<&str>
    ensures { option_map (λ path. path.now) result ≡ zone_path (option_copied graph.entry) }
{
    match graph {
        Some(graph) => graph.zone_file.as_deref(),
        None => None,
    }
}

/// The report, unless `path` is spelled the same.
fn unless_spelled<'a>(report: Option<&'a str>, path: &str) -> Option<&'a str>
    ensures { option_map (λ r. r.now) result
        ≡ other_than (option_map (λ r. r.now) report.entry) path.now }
{
    match report {
        Some(report) if report == path => None,
        report => report,
    }
}

/// Whether a report at `path` would be written over a file that its command reads, its journal or its launcher, links
/// followed. The report that it goes on from may be replaced, where it is spelled the same.
pub fn is_overwriting<P: Places>(places: &P, asked: &Asked, path: &str) -> bool
    ensures yes { result ≡ true → IsOverwriting
        (leads_of (P.same places.now) (P.started places.now)) asked.now path.now }
    ensures no { result ≡ false → IsSparing
        (leads_of (P.same places.now) (P.started places.now)) asked.now path.now }
{
    leads_to(places, graph_named(asked.graph()), path)
        || leads_to(places, zone_named(asked.graph()), path)
        || leads_to(places, asked.table(), path)
        || leads_to(places, asked.seeds(), path)
        || leads_to(places, asked.journal(), path)
        || leads_to(places, unless_spelled(asked.report(), path), path)
        || starts(places, asked.launcher(), path)
}

/// Whether `path` leads to the folder of a command's logs, or would where neither is there.
pub fn is_of_logs<P: Places>(places: &P, asked: &Asked, path: &str) -> bool
    ensures yes { result ≡ true → MayLead (P.same places.now) (logs_of asked.now) path.now }
    ensures no { result ≡ false → MayMiss (P.same places.now) (logs_of asked.now) path.now }
{
    leads_to(places, asked.logs(), path)
}
