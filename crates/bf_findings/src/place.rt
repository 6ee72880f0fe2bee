//! Places in the document of a graph file.
use bf_read::{GraphKey, TaskKey};
use bf_value::Text;
use std::fmt;

/// A key that an object which is a word of a command may have.
#[derive(Clone, Copy, Debug, PartialEq, Eq)]
pub enum WordKey {
    Context,
    Pull,
    Item,
}

/// All keys of a word that is an object.
pub(crate) const WORD_KEYS: [WordKey; 3] = [WordKey::Context, WordKey::Pull, WordKey::Item];

impl WordKey {
    ghost use Rattle.std.specs.Prelude.{◌≡◌};
    ghost use Rattle.bf_findings.specs.Places.{word_key_name};

    /// Gives the key as it stands in a file.
    pub(crate) fn name(self) -> &'static str
        ensures { result.now ≡ word_key_name self }
    {
        match self {
            WordKey::Context => "context",
            WordKey::Pull => "pull",
            WordKey::Item => "item",
        }
    }
}

/// A place in the document of a graph file. Tasks, upstreams and words count from 0.
#[derive(Debug, Drop)]
pub enum DocumentPlace {
    /// The whole document.
    Top,
    Key(GraphKey),
    /// The value under a key that graph files don't have.
    OtherKey(Text),
    /// The slots of the pool with this name.
    Pool(Text),
    Task(usize),
    TaskKey(usize, TaskKey),
    /// The value in a task under a key that tasks don't have.
    OtherTaskKey(usize, Text),
    Upstream(usize, usize),
    Word(usize, usize),
    WordKey(usize, usize, WordKey),
}

/// The keys that lead to the place; for an unknown key or a pool's slots, those that lead to the object around them.
impl fmt::Display for DocumentPlace {
    ghost use Rattle.std.specs.Prelude.{Some};
    ghost use Rattle.bf_findings.specs.Places.{place_text};

    ghost output = { λ place. Some (place_text place) };

    /// Writes the keys that lead to the place, such as `tasks[3].upstream[0]`. For an unknown key or a pool's slots,
    /// writes the place of the object that they stand in.
    fn fmt<W: fmt::Write>(&self, f: &mut fmt::Formatter<W>) -> fmt::Result {
        match self {
            DocumentPlace::Top | DocumentPlace::OtherKey(_) => write!(f, "top"),
            DocumentPlace::Key(key) => write!(f, "{}", key.name()),
            DocumentPlace::Pool(_) => write!(f, "pools"),
            DocumentPlace::Task(n) | DocumentPlace::OtherTaskKey(n, _) => write!(f, "tasks[{n}]"),
            DocumentPlace::TaskKey(n, key) => write!(f, "tasks[{n}].{}", key.name()),
            DocumentPlace::Upstream(n, i) => {
                write!(f, "tasks[{n}].upstream")?;
                write!(f, "[{i}]")
            }
            DocumentPlace::Word(n, i) => {
                write!(f, "tasks[{n}].command")?;
                write!(f, "[{i}]")
            }
            DocumentPlace::WordKey(n, i, key) => {
                write!(f, "tasks[{n}].command")?;
                write!(f, "[{i}].{}", key.name())
            }
        }
    }
}
