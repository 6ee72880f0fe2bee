//! Lists that contracts see as lists.
ghost use Rattle.std.specs.Prelude.{◌≡◌, ◌↔◌, ◌<◌, ◌++◌, ◌∷◌, [], length, IsTrue, OnOk, OnErr, option_copied, slice_get, slice_set, Some};

use crate::memory::OutOfMemory;
use std::alloc::Global;
use std::marker::Model;

/// Items in order. Contracts see the list of them, and not how much room is kept for more. Any vector is a
/// sequence, so its field is public.
#[derive(Debug, Drop)]
pub struct Sequence<T> {
    pub items: Vec<T>,
}

impl<T> Model for Sequence<T> {
    ghost use Rattle.std.specs.Prelude.{List};

    ghost Value = { List T };

    ghost view = { λ s. s.items.items };
}

impl<T: Drop> Sequence<T> {
    /// An empty sequence.
    pub fn new(alloc: Global) -> Self
        ensures { result ≡ [] }
    {
        Sequence {
            items: Vec::new(alloc),
        }
    }

    /// A sequence of the items of a vector, which is moved in.
    pub fn from_vec(items: Vec<T>) -> Self
        ensures { result ≡ items.items }
    {
        Sequence { items }
    }

    /// The items as a vector.
    pub fn into_vec(self) -> Vec<T>
        ensures { result.items ≡ self }
    {
        let Sequence { items } = self;
        items
    }

    /// The items as a slice.
    pub fn as_slice(&self) -> &[T]
        ensures { result.now ≡ self.now }
    {
        self.items.as_slice()
    }

    /// How many items there are.
    pub fn len(&self) -> usize
        ensures { result ≡ length self.now }
    {
        self.items.len()
    }

    /// Whether there is no item.
    pub fn is_empty(&self) -> bool
        ensures { IsTrue result ↔ (length self.now ≡ 0) }
    {
        self.items.is_empty()
    }

    /// The item at an index from 0; None past the end.
    pub fn get(&self, index: usize) -> Option<&T>
        ensures { option_copied result ≡ slice_get self.now index }
    {
        self.items.get(index)
    }

    /// Adds an item at the end; `Err` changes nothing.
    pub fn push(&mut self, item: T) -> Result<(), OutOfMemory>
        ensures ok { OnOk result (self.new ≡ self.old ++ item ∷ []) }
        ensures err { OnErr result (self.new ≡ self.old) }
    {
        self.items.push(item)?;
        Ok(())
    }

    /// Puts an item in the place of the one at `index`, from 0, and gives that one back.
    pub fn replace(&mut self, index: usize, item: T) -> T
        requires { index < length self.old }
        ensures was { slice_get self.old index ≡ Some result }
        ensures now { self.new ≡ slice_set self.old index item }
    {
        std::mem::replace(&mut self.items[index], item)
    }
}
