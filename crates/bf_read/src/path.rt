//! Places in a graph file.
use crate::keys::{GraphKey, TaskKey};
use std::fmt;

/// Where in a graph file a fault is. It displays as the keys that lead there, with tasks counted from 0:
/// `tasks[3].upstream`.
#[derive(Clone, Copy, Debug, PartialEq, Eq)]
pub enum Path {
    /// The file as a whole, as bytes.
    Bytes,
    /// The outer object.
    Top,
    Key(GraphKey),
    Task(u32),
    TaskKey(u32, TaskKey),
}

impl fmt::Display for Path {
    ghost use Rattle.std.specs.Prelude.{Some};
    ghost use Rattle.bf_read.specs.Paths.{path_text};

    ghost output = { λ path. Some (path_text path) };

    /// Writes the keys that lead to the place, such as `tasks[3].upstream`.
    fn fmt<W: fmt::Write>(&self, f: &mut fmt::Formatter<W>) -> fmt::Result {
        match self {
            Path::Bytes => write!(f, "bytes"),
            Path::Top => write!(f, "top"),
            Path::Key(key) => write!(f, "{}", key.name()),
            Path::Task(n) => write!(f, "tasks[{n}]"),
            Path::TaskKey(n, key) => write!(f, "tasks[{n}].{}", key.name()),
        }
    }
}
