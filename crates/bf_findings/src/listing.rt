//! All that is wrong with a graph file.
ghost use Rattle.std.specs.Prelude.{◌≡◌, ◌<◌, ◌≤◌, ℕ, List, length, Option, Some, option_map, position, All, IfOk, IfSome};
ghost use Rattle.std.specs.List.{list_any};
ghost use Rattle.serde_json.specs.View.{view};
ghost use Rattle.bf_read.specs.Reading.{data_in};
ghost use Rattle.std.specs.Str.{bytes_eq};
ghost use Rattle.bf_findings.specs.Findings.{AreFindings, AreTold, IsCheckRefusal, IsFinding, IsPulled, IsRefusal, IsToldOfData, IsToldOfFile, PullsUnsettledIn, findings_of};
ghost use Rattle.bf_findings.specs.Findings as spec;
ghost use Rattle.bf_findings.specs.inner.Findings.{IsRefusalIfAny};

use crate::faults::MOST_FAULTS;
use crate::finding::{Fault, Finding};
use crate::judging::Document;
use crate::place::DocumentPlace;
use crate::refusal::Refusal;
use bf_check::{CheckFault, TaskFault, check, unsettled_pull};
use bf_read::{Draft, MOST_BYTES, Path, ReadFault, TaskKey, read_graph};
use bf_value::{OutOfMemory, Text};
use serde_json::Value;
use std::alloc::Global;

/// Gives the number of the task of this id, from 0; None where there is none.
fn number_of_task(draft: &Draft, id: &str) -> Option<usize>
    ensures number { result ≡ position (λ task. bytes_eq id.now task.id) draft.now.tasks }
    ensures within { IfSome result (λ t. t < length draft.now.tasks) }
{
    draft
        .tasks
        .as_slice()
        .iter()
        .position(|task| id == task.id.as_str())
}

/// Gives the id of the first task from which the task of this id pulls in a graph file, and may not; None where none is
/// found. `zone_file` has the bytes for the zone `file`.
fn unsettled_pull_in(
    alloc: Global,
    graph: &[u8],
    zone_file: Option<&[u8]>,
    id: &str,
) -> Result<Option<Text>, OutOfMemory>
    ensures { IfOk result (λ found. IfSome found (PullsUnsettledIn graph.now id.now)) }
{
    let draft = match read_graph(alloc, graph) {
        Ok(draft) => draft,
        Err(ReadFault::OutOfMemory) => return Err(OutOfMemory),
        Err(_) => return Ok(None),
    };
    let Some(t) = number_of_task(&draft, id) else {
        return Ok(None);
    };
    match unsettled_pull(alloc, &draft, zone_file, t as u32) {
        Ok(found) => Ok(found),
        Err(CheckFault::OutOfMemory) => Err(OutOfMemory),
        Err(_) => Ok(None),
    }
}

/// Gives the id of the task that is pulled from, where the check refuses a graph for a pull and the task is found.
/// `zone_file` has the bytes for the zone `file`.
fn pulled_task(
    alloc: Global,
    graph: &[u8],
    zone_file: Option<&[u8]>,
    fault: &CheckFault,
) -> Result<Option<Text>, OutOfMemory>
    ensures { IfOk result (λ found. IfSome found (IsPulled graph.now fault.now)) }
{
    match fault {
        CheckFault::Task(TaskFault::PullNotSettled, task) => {
            unsettled_pull_in(alloc, graph, zone_file, task.as_str())
        }
        _ => Ok(None),
    }
}

/// Gives why a graph is refused that the check refuses for this fault. `zone_file` has the bytes for the zone `file`.
fn refusal_of_check(
    alloc: Global,
    graph: &[u8],
    zone_file: Option<&[u8]>,
    fault: CheckFault,
) -> Result<Refusal, OutOfMemory>
    ensures { (file : Option (List ℕ)) → IsCheckRefusal graph.now file fault
        → IfOk result (IsRefusal graph.now file) }
{
    match pulled_task(alloc, graph, zone_file, &fault)? {
        Some(pulled) => Ok(Refusal::Pull(fault, pulled)),
        None => Ok(Refusal::Check(fault)),
    }
}

/// Gives why a graph file is refused; None where it is accepted. `zone_file` has the bytes for the zone `file`.
fn refusal(
    alloc: Global,
    graph: &[u8],
    zone_file: Option<&[u8]>,
) -> Result<Option<Refusal>, OutOfMemory>
    ensures { IfOk result (IsRefusalIfAny graph.now (option_map (λ s. s.now) zone_file.entry)) }
{
    let draft = match read_graph(alloc, graph) {
        Ok(draft) => draft,
        Err(ReadFault::OutOfMemory) => return Err(OutOfMemory),
        Err(fault) => return Ok(Some(Refusal::Read(fault))),
    };
    match check(alloc, draft, zone_file) {
        Ok(_) => Ok(None),
        Err(CheckFault::OutOfMemory) => Err(OutOfMemory),
        Err(fault) => Ok(Some(refusal_of_check(alloc, graph, zone_file, fault)?)),
    }
}

/// Turns the faults into findings, in order: the first hundred, and that there are more.
fn as_findings(alloc: Global, faults: Vec<Fault>) -> Result<Vec<Finding>, OutOfMemory>
    ensures { IfOk result (λ v. v.items ≡ findings_of faults.items) }
{
    let are_more = faults.len() > MOST_FAULTS;
    let mut faults = faults;
    faults.truncate(MOST_FAULTS);
    let mut found: Vec<Finding> = faults.into_iter().map(Finding::Fault).collect(alloc)?;
    if are_more {
        found.push(Finding::More)?;
    }
    Ok(found)
}

/// Finds what is wrong at the places of a document, from the top down, up to the hundredth fault. `zone_file` has the
/// bytes for the zone `file`.
fn document_findings(
    alloc: Global,
    value: &Value,
    zone_file: Option<&[u8]>,
) -> Result<Vec<Finding>, OutOfMemory>
    ensures each { IfOk result (λ v. (graph : List ℕ) → data_in graph ≡ Some (view value.now)
        → All (IsFinding graph (option_map (λ s. s.now) zone_file.entry)) v.items) }
    ensures few { IfOk result (λ v. length v.items ≤ 101) }
    ensures told { IfOk result (λ v. IsToldOfData (option_map (λ s. s.now) zone_file.entry)
        (Some (view value.now)) v.items) }
{
    let document = Document { value, zone_file };
    let faults = document.faults(alloc)?;
    let found = as_findings(alloc, faults)?;
    Ok(found)
}

/// Finds what is wrong in the bytes of a graph file: that they are no JSON, or else the faults of its document. Empty
/// where they are too many, which the file's refusal tells.
#[tactic(auto, using(crate::proofs::Files::data_there, crate::proofs::Files::no_data_there))]
fn findings_in_bytes(
    alloc: Global,
    graph: &[u8],
    zone_file: Option<&[u8]>,
) -> Result<Vec<Finding>, OutOfMemory>
    ensures each { IfOk result (λ v. All
        (IsFinding graph.now (option_map (λ s. s.now) zone_file.entry)) v.items) }
    ensures few { IfOk result (λ v. length v.items ≤ 101) }
    ensures told { IfOk result (λ v. IsToldOfFile graph.now
        (option_map (λ s. s.now) zone_file.entry) v.items) }
{
    if graph.len() > MOST_BYTES {
        return Ok(Vec::new(alloc));
    }
    match Value::from_slice(alloc, graph) {
        Ok(value) => document_findings(alloc, &value, zone_file),
        Err(e) if e.is_memory() => Err(OutOfMemory),
        Err(e) => {
            let mut found = Vec::new(alloc);
            found.push(Finding::NotJson(e.line(), e.column()))?;
            Ok(found)
        }
    }
}

/// Answers whether a place is the command of task `n`, counted from 0, or a word of it.
fn is_in_command(place: &DocumentPlace, n: u32) -> bool
    ensures { result ≡ spec.is_in_command n place.now }
{
    match place {
        DocumentPlace::TaskKey(m, TaskKey::Command) | DocumentPlace::Word(m, _) => {
            *m == n as usize
        }
        _ => false,
    }
}

/// Answers whether a finding is of the command of task `n`, counted from 0.
fn is_of_command(finding: &Finding, n: u32) -> bool
    ensures { result ≡ spec.is_of_command n finding.now }
{
    match finding {
        Finding::Fault(fault) => is_in_command(&fault.place, n),
        _ => false,
    }
}

/// Answers whether one of these findings is of the command of task `n`, counted from 0.
fn tells_command(found: &[Finding], n: u32) -> bool
    ensures { result ≡ list_any (spec.is_of_command n) found.now }
{
    found.iter().any(|finding| is_of_command(finding, n))
}

/// Answers whether the refusal is for a limit that none of these findings shows: too many edges, or too many pulls of a
/// command.
fn is_untold_limit(refusal: &Refusal, found: &[Finding]) -> bool
    ensures { result ≡ spec.is_untold_limit refusal.now found.now }
{
    match refusal {
        Refusal::Read(ReadFault::LimitPassed(Path::TaskKey(_, TaskKey::Upstream))) => true,
        Refusal::Read(ReadFault::LimitPassed(Path::TaskKey(n, TaskKey::Command))) => {
            !tells_command(found, *n)
        }
        _ => false,
    }
}

/// Answers whether a refusal is told behind these findings: there are none, or less than a hundred that don't show the
/// limit for which the file is refused.
fn tells_refusal(refusal: &Refusal, found: &[Finding]) -> bool
    ensures { result ≡ spec.tells_refusal refusal.now found.now }
{
    found.is_empty() || found.len() < MOST_FAULTS && is_untold_limit(refusal, found)
}

/// Adds the refusal behind the findings where it is told, too.
fn with_refusal(found: Vec<Finding>, refusal: Refusal) -> Result<Vec<Finding>, OutOfMemory>
    ensures { IfOk result (λ v. v.items ≡ spec.with_refusal refusal found.items) }
{
    let mut found = found;
    if tells_refusal(&refusal, found.as_slice()) {
        found.push(Finding::Refused(refusal))?;
    }
    Ok(found)
}

/// Finds what is wrong in a graph file that is refused: the faults at its places, and `refusal` where there are none or
/// it is for a limit that they don't show.
#[tactic(auto, using(crate::proofs::Told::are_told))]
fn findings_of_refused(
    alloc: Global,
    graph: &[u8],
    zone_file: Option<&[u8]>,
    refusal: Refusal,
) -> Result<Vec<Finding>, OutOfMemory>
    requires { IsRefusalIfAny graph.now (option_map (λ s. s.now) zone_file) (Some refusal) }
    ensures { IfOk result (λ v. AreTold graph.now (option_map (λ s. s.now) zone_file.entry)
        v.items) }
{
    let found = findings_in_bytes(alloc, graph, zone_file)?;
    with_refusal(found, refusal)
}

/// Finds all that can be told at once of what is wrong with a graph file, from the top down, up to the hundredth
/// finding, behind which `More` says that there are more. Empty exactly where the file is accepted. `zone_file` has the
/// bytes for the zone `file`; no other zone needs them.
pub fn findings(
    alloc: Global,
    graph: &[u8],
    zone_file: Option<&[u8]>,
) -> Result<Vec<Finding>, OutOfMemory>
    ensures { IfOk result (λ v. AreFindings graph.now (option_map (λ s. s.now) zone_file.entry)
        v.items) }
{
    match refusal(alloc, graph, zone_file)? {
        Some(refusal) => findings_of_refused(alloc, graph, zone_file, refusal),
        None => Ok(Vec::new(alloc)),
    }
}
