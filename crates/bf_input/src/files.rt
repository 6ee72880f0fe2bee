//! The files that a command line names, read.
ghost use Rattle.std.specs.Prelude.{◌≡◌, ◌<◌, ◌^◌, ℕ, List, [], ◌∷◌, Option, IfOk, IfErr, IfSome, OnOk, option_map, string_bytes};
ghost use Rattle.bf_read.specs.Reading.{graph_in};
ghost use Rattle.bf_table.specs.Tables.{table_in};
ghost use Rattle.bf_report_reader.specs.Reading.{IsReadAs};
ghost use Rattle.bf_report_reader.specs.Rules.{IsShownReport};
ghost use Rattle.bf_disk.specs.Files.{AreReadable, IsHeld, IsReadable, IsHeldIfNamed, named_paths};
ghost use Rattle.bf_input.specs.Inputs.{OfFiles, OfFilesAndTable, graph_paths, table_paths, AreAlike, IsFrontFault, IsReadGraph, IsReadingFault, IsReportFault, IsWholeGraph, MeanAlike, bytes_of};
ghost use Rattle.bf_input.specs.inner.Inputs.{of_source};
ghost use Rattle.bf_disk.specs.Source.{IsWholeUpTo};

use bf_command_fault::CommandFault;
use bf_command_line::GraphAsked;
use bf_disk::{Source, SourceFault, read_behind, read_first_bytes};
use bf_journal::JournalFault;
use bf_read::MOST_BYTES;
use bf_report::Report;
use bf_report_reader::{ReportFault, read_report};
use bf_seeds::LONGEST_FILE;
use bf_table::LONGEST_TABLE;
use bf_value::Text;
use bf_zone::MOST_FILE_BYTES;
use std::alloc::Global;

/// Gives the command's fault where the file at `path` can't be read; want of memory stays that, without the path.
fn reading_fault(path: String, fault: SourceFault) -> CommandFault
    ensures { result ≡ of_source (string_bytes path) fault }
{
    match fault {
        SourceFault::CannotRead => CommandFault::CannotRead(Text::new(path)),
        SourceFault::OutOfMemory => CommandFault::OutOfMemory,
    }
}

/// Reads a file, but at most `longest` + 1 bytes, by which its reader sees that it is too long. `Err` where it can't be
/// read, with its path, or at want of memory.
fn read_bytes_up_to<S: Source>(
    alloc: Global,
    path: String,
    longest: usize,
    files: &mut S,
) -> Result<Vec<u8>, CommandFault>
    requires { longest < 2 ^ 63 }
    ensures ok { IfOk result (λ bytes. IfSome (S.file files.old (string_bytes path)) (λ held.
        IsWholeUpTo longest held bytes.items)) }
    ensures readable { OnOk result (IsReadable (S.file files.old (string_bytes path))) }
    ensures fault { IfErr result (IsReadingFault (S.file files.old) (string_bytes path ∷ [])) }
    ensures stays { (p : List ℕ) → S.file files.new p ≡ S.file files.old p }
{
    match read_first_bytes(alloc, path.as_str(), longest + 1, files) {
        Ok(bytes) => Ok(bytes),
        Err(fault) => Err(reading_fault(path, fault)),
    }
}

/// Reads a graph file, but at most one byte more than a graph may have, by which its reader sees that it is too long.
/// `Err` where it can't be read, or at want of memory.
fn read_graph_bytes<S: Source>(
    alloc: Global,
    path: String,
    files: &mut S,
) -> Result<Vec<u8>, CommandFault>
    ensures says { IfOk result (λ bytes. (held : List ℕ)
        → IsHeld (S.file files.old (string_bytes path)) held
        → graph_in bytes.items ≡ graph_in held) }
    ensures whole { IfOk result (λ bytes. (held : List ℕ)
        → IsHeld (S.file files.old (string_bytes path)) held
        → IsWholeGraph held bytes.items) }
    ensures read { IfOk result (λ bytes. (held : List ℕ)
        → IsHeld (S.file files.old (string_bytes path)) held
        → IsReadGraph held bytes.items) }
    ensures readable { OnOk result (IsReadable (S.file files.old (string_bytes path))) }
    ensures fault { IfErr result (IsReadingFault (S.file files.old) (string_bytes path ∷ [])) }
    ensures stays { (p : List ℕ) → S.file files.new p ≡ S.file files.old p }
{
    read_bytes_up_to(alloc, path, MOST_BYTES, files)
}

/// Reads a table file, but at most one byte more than a table may have, by which its reader sees that it is too long.
/// `Err` where it can't be read, or at want of memory.
fn read_table_bytes<S: Source>(
    alloc: Global,
    path: String,
    files: &mut S,
) -> Result<Vec<u8>, CommandFault>
    ensures says { IfOk result (λ bytes. (held : List ℕ)
        → IsHeld (S.file files.old (string_bytes path)) held
        → table_in bytes.items ≡ table_in held) }
    ensures readable { OnOk result (IsReadable (S.file files.old (string_bytes path))) }
    ensures fault { IfErr result (IsReadingFault (S.file files.old) (string_bytes path ∷ [])) }
    ensures stays { (p : List ℕ) → S.file files.new p ≡ S.file files.old p }
{
    read_bytes_up_to(alloc, path, LONGEST_TABLE, files)
}

/// Reads a zone file, but at most one byte more than it may have, by which its reader sees that it is too long; None
/// where none is named. `Err` where it can't be read, or at want of memory.
fn read_zone_bytes<S: Source>(
    alloc: Global,
    path: Option<String>,
    files: &mut S,
) -> Result<Option<Vec<u8>>, CommandFault>
    ensures means { IfOk result (λ bytes. (held : Option (List ℕ))
        → IsHeldIfNamed (S.file files.old) (option_map string_bytes path) held
        → MeanAlike (bytes_of bytes) held) }
    ensures readable { OnOk result
        (AreReadable (S.file files.old) (named_paths (option_map string_bytes path))) }
    ensures fault { IfErr result (IsReadingFault (S.file files.old)
        (named_paths (option_map string_bytes path))) }
    ensures stays { (p : List ℕ) → S.file files.new p ≡ S.file files.old p }
{
    match path {
        Some(path) => {
            let bytes = read_bytes_up_to(alloc, path, MOST_FILE_BYTES, files)?;
            Ok(Some(bytes))
        }
        None => Ok(None),
    }
}

/// Reads a table file, but at most one byte more than a table may have, by which its reader sees that it is too long;
/// None where none is named. `Err` where it can't be read, or at want of memory.
pub fn read_named_table<S: Source>(
    alloc: Global,
    path: Option<String>,
    files: &mut S,
) -> Result<Option<Vec<u8>>, CommandFault>
    ensures says { IfOk result (λ bytes. (held : Option (List ℕ))
        → IsHeldIfNamed (S.file files.old) (option_map string_bytes path) held
        → option_map table_in (bytes_of bytes) ≡ option_map table_in held) }
    ensures readable { OnOk result
        (AreReadable (S.file files.old) (named_paths (option_map string_bytes path))) }
    ensures fault { IfErr result (IsReadingFault (S.file files.old)
        (named_paths (option_map string_bytes path))) }
    ensures stays { (p : List ℕ) → S.file files.new p ≡ S.file files.old p }
{
    match path {
        Some(path) => {
            let bytes = read_table_bytes(alloc, path, files)?;
            Ok(Some(bytes))
        }
        None => Ok(None),
    }
}

/// Reads a seeds file, but at most one byte more than its 8,388,608, by which its reader sees that it is too long.
/// `Err` where it can't be read, or at want of memory.
pub fn read_seeds_bytes<S: Source>(
    alloc: Global,
    path: String,
    files: &mut S,
) -> Result<Vec<u8>, CommandFault>
    ensures ok { IfOk result (λ bytes. IfSome (S.file files.old (string_bytes path)) (λ held.
        IsWholeUpTo 8_388_608 held bytes.items)) }
    ensures readable { OnOk result (IsReadable (S.file files.old (string_bytes path))) }
    ensures fault { IfErr result (IsReadingFault (S.file files.old) (string_bytes path ∷ [])) }
    ensures stays { (p : List ℕ) → S.file files.new p ≡ S.file files.old p }
{
    read_bytes_up_to(alloc, path, LONGEST_FILE, files)
}

/// Reads a journal to its end, which is a regular file that begins with `front`. `Err(Journal(Mismatch))` where it begins
/// otherwise, for which no more is read than `front` has; `Err` also where it can't be read, or at want of memory.
pub fn read_journal_bytes<S: Source>(
    alloc: Global,
    path: String,
    front: &[u8],
    files: &mut S,
) -> Result<Vec<u8>, CommandFault>
    ensures whole { IfOk result (λ bytes. (held : List ℕ)
        → IsHeld (S.file files.old (string_bytes path)) held
        → bytes.items ≡ held) }
    ensures readable { OnOk result (IsReadable (S.file files.old (string_bytes path))) }
    ensures fault { IfErr result (IsFrontFault (S.file files.old) (string_bytes path) front.now) }
    ensures stays { (p : List ℕ) → S.file files.new p ≡ S.file files.old p }
{
    match read_behind(alloc, path.as_str(), front, files) {
        Ok(Some(bytes)) => Ok(bytes),
        Ok(None) => Err(CommandFault::Journal(JournalFault::Mismatch)),
        Err(fault) => Err(reading_fault(path, fault)),
    }
}

/// Reads a report file, and no further than its first fault. `Err` where it can't be opened or read, isn't a report, or
/// memory runs out.
pub fn read_report_file<S: Source>(
    alloc: Global,
    path: String,
    files: &mut S,
) -> Result<Report, CommandFault>
    ensures says { IfOk result (λ report. (held : List ℕ)
        → IsHeld (S.file files.old (string_bytes path)) held
        → IsReadAs held report) }
    ensures rules { IfOk result IsShownReport }
    ensures readable { OnOk result (IsReadable (S.file files.old (string_bytes path))) }
    ensures fault { IfErr result (IsReportFault (string_bytes path)
        (S.file files.old (string_bytes path))) }
    ensures stays { (p : List ℕ) → S.file files.new p ≡ S.file files.old p }
{
    let mut device = match files.open(path.as_str()) {
        Ok(device) => device,
        Err(fault) => return Err(reading_fault(path, fault)),
    };
    match read_report(alloc, &mut device) {
        Ok(report) => Ok(report),
        Err(ReportFault::Io) => Err(CommandFault::CannotRead(Text::new(path))),
        Err(fault) => Err(CommandFault::from(fault)),
    }
}

/// The bytes of a graph file, and those of its zone file where one was named.
#[derive(Drop)]
pub struct GraphFiles {
    pub graph: Vec<u8>,
    pub zone_file: Option<Vec<u8>>,
}

impl GraphFiles {
    /// The bytes of the zone file; None where none was named.
    pub fn zone_file(&self) -> Option<&[u8]>
        ensures { option_map (λ s. s.now) result ≡ bytes_of self.now.zone_file }
    {
        self.zone_file.as_deref()
    }
}

/// Reads the graph file, and then the zone file where one is named, without checking them. `Err` for the first that
/// can't be read, or at want of memory.
pub fn read_graph_files<S: Source>(
    alloc: Global,
    asked: GraphAsked,
    files: &mut S,
) -> Result<GraphFiles, CommandFault>
    ensures alike { IfOk result (λ f. OfFiles (S.file files.old) asked
        (λ graph zone. AreAlike f.graph.items graph (bytes_of f.zone_file) zone)) }
    ensures whole { IfOk result (λ f. OfFiles (S.file files.old) asked
        (λ graph zone. IsWholeGraph graph f.graph.items)) }
    ensures read { IfOk result (λ f. OfFiles (S.file files.old) asked
        (λ graph zone. IsReadGraph graph f.graph.items)) }
    ensures readable { OnOk result (AreReadable (S.file files.old) (graph_paths asked)) }
    ensures fault { IfErr result (IsReadingFault (S.file files.old) (graph_paths asked)) }
    ensures stays { (p : List ℕ) → S.file files.new p ≡ S.file files.old p }
{
    let graph = read_graph_bytes(alloc, asked.graph, files)?;
    let zone_file = read_zone_bytes(alloc, asked.zone_file, files)?;
    Ok(GraphFiles { graph, zone_file })
}

/// The bytes of the files of a backfill whose tries a table answers.
#[derive(Drop)]
pub struct FilesWithTable {
    pub graph: GraphFiles,
    pub table: Vec<u8>,
}

/// Reads the graph file, the zone file where one is named, and then the table file, without checking them. `Err` for
/// the first that can't be read, or at want of memory.
pub fn read_files_with_table<S: Source>(
    alloc: Global,
    asked: GraphAsked,
    table: String,
    files: &mut S,
) -> Result<FilesWithTable, CommandFault>
    ensures alike { IfOk result (λ f. OfFilesAndTable (S.file files.old) asked (string_bytes table)
        (λ graph zone held.
        AreAlike f.graph.graph.items graph (bytes_of f.graph.zone_file) zone
        × (table_in f.table.items ≡ table_in held))) }
    ensures readable { OnOk result
        (AreReadable (S.file files.old) (table_paths asked (string_bytes table))) }
    ensures fault { IfErr result (IsReadingFault (S.file files.old)
        (table_paths asked (string_bytes table))) }
    ensures stays { (p : List ℕ) → S.file files.new p ≡ S.file files.old p }
{
    let graph = read_graph_files(alloc, asked, files)?;
    let table = read_table_bytes(alloc, table, files)?;
    Ok(FilesWithTable { graph, table })
}
