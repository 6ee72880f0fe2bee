//! Instances that wait for room in a pool, those that begin first at hand.
ghost use Rattle.std.specs.Prelude.{◌≡◌, ◌≤◌, ◌+◌, [], ◌∷◌, length, slice_get, Contains, IfSome, IfNone, OnOk, OnSome};
ghost use Rattle.std.specs.List.Sorted.{IsPermutation};
ghost use Rattle.bf_waiting.specs.inner.Heaps.{Leads};
ghost use Rattle.bf_waiting.specs.declared.batches.Batch.{Batch};

use bf_value::OutOfMemory;
use std::alloc::Global;
use std::cmp::Reverse;
use std::collections::BinaryHeap;
use std::marker::Model;

/// Instances of a task in a run, from the place `first` to the place `last`, of which some may wait. The greatest batch
/// begins first: by weight, then the earlier run, the earlier task and the earlier place.
#[derive(Clone, Copy, Debug, PartialEq, Eq, PartialOrd, Ord)]
pub(crate) struct Batch {
    pub weight: u32,
    pub run: Reverse<u32>,
    pub task: Reverse<u32>,
    pub first: Reverse<u32>,
    pub last: u32,
}

/// A heap of batches with the greatest on top. A batch may be there twice.
#[derive(Drop)]
pub(crate) struct Batches {
    heap: BinaryHeap<Batch>,
}

impl Model for Batches {
    ghost use Rattle.std.specs.BinaryHeap.{heap_items, heap_capacity};
    ghost use Rattle.bf_waiting.specs.Heaps.{Heap, batch_cmp};
    ghost use Rattle.bf_waiting.specs.declared.batches.Batch.{Batch};
    ghost use Rattle.bf_waiting.specs.contracts.batches.Batch;
    ghost use Rattle.std.specs.Coded.{codes};
    ghost use Rattle.std.specs.BinaryHeap.{IsHeap};

    ghost Value = { Heap Batch };

    ghost coded = { Prim.hlevel (codes, Batch.the_row.coded) };

    ghost view = { λ b. record { items = heap_items b.heap; room = heap_capacity b.heap } };

    ghost invariant = { λ b. IsHeap batch_cmp (heap_items b.heap) };
}

impl Batches {
    /// An empty heap of batches.
    pub(crate) fn new(alloc: Global) -> Batches
        ensures { result.items ≡ [] }
    {
        Batches {
            heap: BinaryHeap::new(alloc),
        }
    }

    /// Makes room for `more` batches more. The batches stay as they are, at `Err` too.
    pub(crate) fn make_room(&mut self, more: usize) -> Result<(), OutOfMemory>
        ensures same { self.new.items ≡ self.old.items }
        ensures grown { self.old.room ≤ self.new.room }
        ensures room { OnOk result (length self.new.items + more ≤ self.new.room) }
    {
        self.heap.reserve(more)?;
        Ok(())
    }

    /// The greatest batch, which begins before all others; None where there is none.
    pub(crate) fn first(&self) -> Option<Batch>
        ensures top { result ≡ slice_get self.now.items 0 }
        ensures one { IfSome result (λ x. Contains self.now.items x) }
        ensures none { IfNone result (self.now.items ≡ []) }
        ensures first { IfSome result (λ x. (y : Batch) → Contains self.now.items y
            → Leads x y) }
    {
        match self.heap.peek() {
            None => None,
            Some(top) => Some(*top),
        }
    }

    /// Adds a batch, for which there is room.
    pub(crate) fn add(&mut self, batch: Batch)
        requires { length self.old.items + 1 ≤ self.old.room }
        ensures gained { IsPermutation (batch ∷ self.old.items) self.new.items }
        ensures len { length self.new.items ≡ length self.old.items + 1 }
        ensures room { self.old.room ≤ self.new.room }
    {
        match self.heap.push(batch) {
            Ok(()) => {}
            Err(_) => unreachable!(),
        }
    }

    /// Takes out the greatest batch; None where there is none.
    pub(crate) fn take_first(&mut self) -> Option<Batch>
        ensures top { result ≡ slice_get self.old.items 0 }
        ensures lost { IfSome result (λ x. IsPermutation self.old.items (x ∷ self.new.items)) }
        ensures len { OnSome result (length self.new.items + 1 ≡ length self.old.items) }
        ensures none { IfNone result (self.new.items ≡ self.old.items) }
        ensures room { self.new.room ≡ self.old.room }
    {
        self.heap.pop()
    }
}
