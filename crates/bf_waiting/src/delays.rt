//! Instances that wait for a moment, the next moment at hand.
ghost use Rattle.std.specs.Prelude.{◌≡◌, ◌<◌, ◌≤◌, ◌+◌, ◌^◌, ◌≤ℤ◌, [], ◌∷◌, length, slice_get, Contains, IfSome, IfNone, OnOk, OnSome};
ghost use Rattle.std.specs.List.Sorted.{IsPermutation};
ghost use Rattle.bf_waiting.specs.declared.delays.Delay.{Delay};

use bf_value::OutOfMemory;
use std::alloc::Global;
use std::cmp::Reverse;
use std::collections::BinaryHeap;
use std::marker::Model;

/// An instance that waits for a moment, in seconds since 1970. The greatest delay is the one of the earliest moment.
#[derive(Clone, Copy, Debug, PartialEq, Eq, PartialOrd, Ord)]
pub(crate) struct Delay {
    pub moment: Reverse<i64>,
    pub run: u32,
    pub task: u32,
    pub place: u32,
}

/// A heap of delays with one of the earliest moment on top.
#[derive(Drop)]
pub(crate) struct Delays {
    heap: BinaryHeap<Delay>,
}

impl Model for Delays {
    ghost use Rattle.std.specs.BinaryHeap.{heap_items, heap_capacity};
    ghost use Rattle.bf_waiting.specs.Heaps.{Heap, delay_cmp};
    ghost use Rattle.bf_waiting.specs.declared.delays.Delay.{Delay};
    ghost use Rattle.bf_waiting.specs.contracts.delays.Delay;
    ghost use Rattle.std.specs.Coded.{codes};
    ghost use Rattle.std.specs.BinaryHeap.{IsHeap};

    ghost Value = { Heap Delay };

    ghost coded = { Prim.hlevel (codes, Delay.the_row.coded) };

    ghost view = { λ d. record { items = heap_items d.heap; room = heap_capacity d.heap } };

    ghost invariant = { λ d. IsHeap delay_cmp (heap_items d.heap) };
}

impl Delays {
    /// An empty heap of delays.
    pub(crate) fn new(alloc: Global) -> Delays
        ensures { result.items ≡ [] }
    {
        Delays {
            heap: BinaryHeap::new(alloc),
        }
    }

    /// How many delays there are.
    pub(crate) fn len(&self) -> usize
        ensures len { result ≡ length self.now.items }
        ensures few { result < 2 ^ 63 }
    {
        self.heap.len()
    }

    /// Makes room for `more` delays more. The delays stay as they are, at `Err` too.
    pub(crate) fn make_room(&mut self, more: usize) -> Result<(), OutOfMemory>
        ensures same { self.new.items ≡ self.old.items }
        ensures grown { self.old.room ≤ self.new.room }
        ensures room { OnOk result (length self.new.items + more ≤ self.new.room) }
    {
        self.heap.reserve(more)?;
        Ok(())
    }

    /// A delay of the earliest moment; None where there is none.
    pub(crate) fn first(&self) -> Option<Delay>
        ensures top { result ≡ slice_get self.now.items 0 }
        ensures one { IfSome result (λ x. Contains self.now.items x) }
        ensures none { IfNone result (self.now.items ≡ []) }
        ensures first { IfSome result (λ x. (y : Delay) → Contains self.now.items y
            → x.moment.0 ≤ℤ y.moment.0) }
    {
        match self.heap.peek() {
            None => None,
            Some(top) => Some(*top),
        }
    }

    /// Adds a delay, for which there is room.
    pub(crate) fn add(&mut self, delay: Delay)
        requires { length self.old.items + 1 ≤ self.old.room }
        ensures gained { IsPermutation (delay ∷ self.old.items) self.new.items }
        ensures len { length self.new.items ≡ length self.old.items + 1 }
        ensures room { self.old.room ≤ self.new.room }
    {
        match self.heap.push(delay) {
            Ok(()) => {}
            Err(_) => unreachable!(),
        }
    }

    /// Takes out the delay that `first` gives; None where there is none.
    pub(crate) fn take_first(&mut self) -> Option<Delay>
        ensures top { result ≡ slice_get self.old.items 0 }
        ensures lost { IfSome result (λ x. IsPermutation self.old.items (x ∷ self.new.items)) }
        ensures len { OnSome result (length self.new.items + 1 ≡ length self.old.items) }
        ensures none { IfNone result (self.new.items ≡ self.old.items) }
        ensures room { self.new.room ≡ self.old.room }
    {
        self.heap.pop()
    }
}
