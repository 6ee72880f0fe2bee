//! Steps, of which the first is at hand.
ghost use Rattle.std.specs.Prelude.{◌≡◌, ◌≤◌, ◌+◌, [], ◌∷◌, length, slice_get, Contains, IfSome, IfNone, OnOk, OnSome};
ghost use Rattle.std.specs.List.Sorted.{IsPermutation};
ghost use Rattle.bf_due.specs.Agendas.{event_of};
ghost use Rattle.bf_due.specs.inner.Agendas.{Comes};
ghost use Rattle.bf_due.specs.declared.agenda.Step.{Step};

use bf_core::Event;
use bf_value::OutOfMemory;
use std::alloc::Global;
use std::cmp::Reverse;
use std::collections::BinaryHeap;
use std::marker::Model;

/// A task in a run. Turns are ordered by run, by the task's rank, and then as the tasks stand in the file.
#[derive(Clone, Copy, Debug, PartialEq, Eq, PartialOrd, Ord)]
pub(crate) struct Turn {
    pub run: u32,
    pub rank: u32,
    pub task: u32,
}

/// An event that comes by itself. Steps are ordered by kind, as these variants are, and then by run or turn.
#[derive(Clone, Copy, Debug, PartialEq, Eq, PartialOrd, Ord)]
pub(crate) enum Step {
    Close { run: u32 },
    Open,
    Settle(Turn),
    Expand(Turn),
}

impl Step {
    /// The event of this step.
    pub(crate) fn event(self) -> Event
        ensures { result ≡ event_of self }
    {
        match self {
            Step::Close { run } => Event::Close { run },
            Step::Open => Event::Open,
            Step::Settle(turn) => Event::Settle {
                run: turn.run,
                task: turn.task,
            },
            Step::Expand(turn) => Event::Expand {
                run: turn.run,
                task: turn.task,
            },
        }
    }
}

/// A heap of steps with the first on top. A step may be there twice.
#[derive(Drop)]
pub(crate) struct Agenda {
    heap: BinaryHeap<Reverse<Step>>,
}

impl Model for Agenda {
    ghost use Rattle.std.specs.Prelude.{map};
    ghost use Rattle.std.specs.BinaryHeap.{heap_items, heap_capacity, IsHeap};
    ghost use Rattle.bf_due.specs.Agendas.{Steps, reverse_cmp};
    ghost use Rattle.bf_due.specs.contracts.agenda.Step;
    ghost use Rattle.std.specs.Coded.{codes};

    ghost Value = { Steps };

    ghost coded = { Prim.hlevel (codes, Step.the_row.coded) };

    ghost view = { λ a. record {
      items = map (λ r. r.0) (heap_items a.heap);
      room = heap_capacity a.heap;
    } };

    ghost invariant = { λ a. IsHeap reverse_cmp (heap_items a.heap) };
}

impl Agenda {
    /// An agenda without steps.
    pub(crate) fn new(alloc: Global) -> Agenda
        ensures { result.items ≡ [] }
    {
        Agenda {
            heap: BinaryHeap::new(alloc),
        }
    }

    /// Makes room for so many steps more. The steps stay as they are, at `Err` too.
    pub(crate) fn make_room(&mut self, steps: usize) -> Result<(), OutOfMemory>
        ensures items { self.new.items ≡ self.old.items }
        ensures grown { self.old.room ≤ self.new.room }
        ensures room { OnOk result (length self.new.items + steps ≤ self.new.room) }
    {
        self.heap.reserve(steps)?;
        Ok(())
    }

    /// The first step; None where there is none.
    pub(crate) fn first(&self) -> Option<Step>
        ensures top { result ≡ slice_get self.now.items 0 }
        ensures some { IfSome result (λ x. Contains self.now.items x) }
        ensures first { IfSome result (λ x. (y : Step) → Contains self.now.items y
            → Comes x y) }
    {
        match self.heap.peek() {
            None => None,
            Some(top) => Some(top.0),
        }
    }

    /// Adds a step, for which there is room.
    pub(crate) fn add(&mut self, step: Step)
        requires { length self.old.items + 1 ≤ self.old.room }
        ensures gained { IsPermutation (step ∷ self.old.items) self.new.items }
        ensures len { length self.new.items ≡ length self.old.items + 1 }
        ensures room { self.old.room ≤ self.new.room }
    {
        match self.heap.push(Reverse(step)) {
            Ok(()) => {}
            Err(_) => unreachable!(),
        }
    }

    /// Takes the first step out; None where there is none.
    pub(crate) fn take_first(&mut self) -> Option<Step>
        ensures top { result ≡ slice_get self.old.items 0 }
        ensures lost { IfSome result (λ x. IsPermutation self.old.items (x ∷ self.new.items)) }
        ensures len { OnSome result (length self.new.items + 1 ≡ length self.old.items) }
        ensures none { IfNone result (self.new.items ≡ self.old.items) }
        ensures room { self.new.room ≡ self.old.room }
    {
        let top = self.heap.pop()?;
        Some(top.0)
    }
}
