//! The rule of a queue between two threads: what was put in is what was taken out, followed by what it holds.
use crossbeam_queue::protocol::{Join, Lesson, Outcome, Protocol, Split};
use crossbeam_queue::{Pass, RuledArrayQueue};
use std::collections::LinkedList;

/// What a pass may do, and what it has put in and taken out. It is for contracts alone: no value of it is made.
pub struct Log<T> {
    pub puts: bool,
    pub takes: bool,
    pub put: LinkedList<T>,
    pub taken: LinkedList<T>,
}

/// The rule of a queue: what was put in is what was taken out, followed by what the queue holds.
pub struct InOrder;

impl<T> Protocol<T, Log<T>> for InOrder {
    ghost use Rattle.std.specs.Prelude.{true, []};
    ghost use Rattle.bf_lane.specs.Relay.{log, Relayed};

    ghost holds = { Relayed };

    ghost first = { log true true [] [] };
}

/// Splits a pass into one that puts, and a new one that takes.
pub(crate) struct Apart;

impl<T> Split<Log<T>> for Apart {
    ghost use Rattle.std.specs.Prelude.{true, false, []};
    ghost use Rattle.bf_lane.specs.Relay.{log};

    ghost left = { λ v. log true false v.put [] };

    ghost right = { λ v. log false true [] v.taken };
}

/// Joins the pass that takes to the one that puts, which then does both.
pub(crate) struct Together;

impl<T> Join<Log<T>> for Together {
    ghost use Rattle.std.specs.Prelude.{true, false, []};
    ghost use Rattle.bf_lane.specs.Relay.{log};

    ghost both = { λ v w. log true true v.put w.taken };

    ghost spent = { log false false [] [] };
}

/// What a pass knows once it has put a value in.
pub(crate) struct Put;

impl<T> Outcome<T, Log<T>> for Put {
    ghost use Rattle.std.specs.Prelude.{◌≡◌, ◌++◌, ◌∷◌, []};
    ghost use Rattle.bf_lane.specs.Relay.{log};

    ghost then = { λ v x w. w ≡ log v.puts v.takes (v.put ++ x ∷ []) v.taken };
}

/// What a pass knows once it has taken a value out, or found none; and what one learns that puts and takes.
pub(crate) struct Taken;

impl<T> Outcome<T, Log<T>> for Taken {
    ghost use Rattle.std.specs.Prelude.{◌≡◌, ◌++◌, ◌∷◌, []};
    ghost use Rattle.bf_lane.specs.Relay.{log};

    ghost then = { λ v x w. w ≡ log v.puts v.takes v.put (v.taken ++ x ∷ []) };
}

impl<T> Lesson<T, Log<T>> for Taken {
    ghost use Rattle.std.specs.Prelude.{◌≡◌, ◌++◌};

    ghost fact = { λ v items. v.put ≡ v.taken ++ items };
}

/// A queue under the rule `InOrder`.
pub type RuledQueue<T> = RuledArrayQueue<T, Log<T>, InOrder>;

/// A pass to a queue under the rule `InOrder`.
pub type QueuePass<T> = Pass<T, Log<T>>;
