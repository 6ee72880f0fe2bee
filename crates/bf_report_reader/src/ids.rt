//! The ids of the tasks of a report, each found by its hash: its first run tells them, and no id twice.
ghost use Rattle.std.specs.Prelude.{◌≡◌, ◌++◌, ◌∷◌, [], false, length, slice_get, IfOk, OnOk};
ghost use Rattle.std.specs.List.{list_any};
ghost use Rattle.std.specs.Str.{bytes_eq};
ghost use Rattle.bf_report_reader.specs.Beginning.{is_text};

use bf_value::{OutOfMemory, Sequence, Text};
use indexmap::IndexSet;
use std::alloc::Global;
use std::marker::Model;

/// The ids of a report's tasks, in file order and each once. Contracts see the list of them.
#[derive(Drop)]
pub(crate) struct TaskIds {
    set: IndexSet<String>,
}

impl Model for TaskIds {
    ghost use Rattle.std.specs.Prelude.{List, ℕ};
    ghost use Rattle.bf_graph.specs.Shape.{texts};

    ghost Value = { List (List ℕ) };

    ghost view = { λ ids. texts ids.set.keys };
}

impl TaskIds {
    /// Makes a list without ids.
    pub(crate) fn new(alloc: Global) -> TaskIds
        ensures { result ≡ [] }
    {
        TaskIds {
            set: IndexSet::new(alloc),
        }
    }

    /// Counts the ids.
    pub(crate) fn len(&self) -> usize
        ensures { result ≡ length self.now }
    {
        self.set.len()
    }

    /// Answers whether a task has this id.
    pub(crate) fn contains(&self, id: &str) -> bool
        ensures { result ≡ list_any (λ task. bytes_eq task id.now) self.now }
    {
        self.set.contains(id)
    }

    /// Answers whether the task at this place, from 0, has this id; false where there is no such place.
    pub(crate) fn has_id_at(&self, number: usize, id: &[u8]) -> bool
        ensures { result ≡ is_text (slice_get self.now number) id.now }
    {
        match self.set.get_index(number) {
            Some(task) => task.as_bytes() == id,
            None => false,
        }
    }

    /// Adds an id, which isn't in the list, at its end.
    pub(crate) fn add(&mut self, alloc: Global, id: &str) -> Result<(), OutOfMemory>
        requires { list_any (λ task. bytes_eq task id.now) self.old ≡ false }
        ensures { OnOk result (self.new ≡ self.old ++ id.now ∷ []) }
    {
        self.set.insert(String::from_str(alloc, id)?)?;
        Ok(())
    }

    /// Turns the ids into texts, in file order.
    pub(crate) fn into_texts(self, alloc: Global) -> Result<Sequence<Text>, OutOfMemory>
        ensures { IfOk result (λ texts. texts ≡ self) }
    {
        let TaskIds { set } = self;
        Ok(Sequence::from_vec(set.into_iter().map(Text::new).collect(alloc)?))
    }
}
