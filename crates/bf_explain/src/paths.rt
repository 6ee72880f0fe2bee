//! The files that are spoken of.
use bf_value::Text;

/// The paths of the graph, the report and the zone file, as the command line gave them.
#[derive(Debug, Drop)]
pub struct Paths {
    pub graph: Text,
    pub report: Text,
    pub zone_file: Option<Text>,
}
