//! Ids of tasks, numbered.
ghost use Rattle.std.specs.Prelude.{◌≡◌, ◌<◌, ◌+◌, ◌^◌, length, position, slice_get, Some, IfOk};
ghost use Rattle.std.specs.Str.{bytes_eq};
ghost use Rattle.bf_value.specs.Distinct.{AreDistinct};
ghost use Rattle.bf_graph.specs.Shape.{texts, AreNumbersOf};

use bf_value::OutOfMemory;
use std::alloc::Global;
use std::collections::BTreeMap;
use std::marker::Model;

/// The distinct ids of tasks, which number them in order. Contracts see the list of them.
#[derive(Drop)]
pub struct Ids {
    ids: Vec<String>,
    /// The number of each id. A tree of std, and no `IndexSet`, since all that a crate holds is read where others build on it.
    numbers: BTreeMap<String, u32>,
}

impl Model for Ids {
    ghost use Rattle.std.specs.Prelude.{List, ℕ};
    ghost use Rattle.bf_graph.specs.Shape.{texts, AreNumbersOf};

    ghost Value = { List (List ℕ) };

    ghost view = { λ i. texts i.ids.items };

    ghost invariant = { λ i. AreNumbersOf (texts i.ids.items) i.numbers };
}

impl Ids {
    /// Numbers these ids in order from 0.
    pub fn from_distinct(alloc: Global, ids: Vec<String>) -> Result<Ids, OutOfMemory>
        requires distinct { AreDistinct (texts ids.items) }
        requires few { length ids.items + 1 < 2 ^ 32 }
        ensures { IfOk result (λ numbered. numbered ≡ texts ids.items) }
    {
        let numbers = numbers_of(alloc, ids.as_slice())?;
        Ok(Ids { ids, numbers })
    }

    /// The number of an id, from 0; None where it isn't among these ids.
    pub fn number_of(&self, id: &str) -> Option<u32>
        ensures { result ≡ position (bytes_eq id.now) self.now }
    {
        self.numbers.get(id).copied()
    }

    /// The id that has this number, from 0.
    pub(crate) fn get(&self, number: u32) -> &str
        requires { number < length self.now }
        ensures { slice_get self.now number ≡ Some result.now }
    {
        self.ids[number as usize].as_str()
    }
}

/// The number of each id: its index in `ids`.
fn numbers_of(alloc: Global, ids: &[String]) -> Result<BTreeMap<String, u32>, OutOfMemory>
    requires distinct { AreDistinct (texts ids.now) }
    requires few { length ids.now + 1 < 2 ^ 32 }
    ensures { IfOk result (AreNumbersOf (texts ids.now)) }
{
    let mut numbers = BTreeMap::new(alloc);
    for (number, id) in ids.iter().enumerate() {
        numbers.insert(id.clone()?, number as u32)?;
    }
    Ok(numbers)
}
