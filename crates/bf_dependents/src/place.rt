//! Tasks in runs, and instances of them.
ghost use Rattle.std.specs.Prelude.{◌≡◌, ◌∷◌, ◌++◌, [], OnErr, OnOk};

use bf_value::OutOfMemory;

/// A task in a run, by their numbers from 0, or one instance of it. Places are ordered by run, task and map index.
#[derive(Clone, Copy, Debug, PartialEq, Eq, PartialOrd, Ord)]
pub struct Place {
    pub run: u32,
    pub task: u32,
    /// The map index of the one instance, -1 where the task isn't expanded; None for all instances.
    pub index: Option<i32>,
}

/// Adds a place at the end of `places`; `Err` changes nothing.
pub fn add_place(places: &mut Vec<Place>, place: Place) -> Result<(), OutOfMemory>
    ensures ok { OnOk result (places.new.items ≡ places.old.items ++ place ∷ []) }
    ensures err { OnErr result (places.new.items ≡ places.old.items) }
{
    places.push(place)?;
    Ok(())
}
