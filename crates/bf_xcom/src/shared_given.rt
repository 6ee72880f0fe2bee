//! What tries are given, as a backfill keeps it.
ghost use Rattle.std.specs.Prelude.{◌≡◌, ◌↔◌, IfOk, IsTrue, option_copied};
ghost use Rattle.bf_xcom.specs.Givens.{nothing_given};

use crate::shared_value::SharedValue;
use crate::values::{Given, are_same};
use bf_value::{OutOfMemory, Sequence, Xval, copy_option, is_same_option};
use std::alloc::Global;
use std::marker::Model;
use std::sync::Arc;

/// What is shared. Most instances are given nothing, or an item alone.
#[derive(Debug, Drop)]
enum Shared {
    Nothing,
    Item(Arc<Xval, Global>),
    Whole(Arc<Given, Global>),
}

/// What the tries of an instance are given. The instance and the ledger's entries of its tries share it, in any threads,
/// and none changes it; where nothing is given, it takes no memory of its own. Contracts see what is given, and not who
/// shares it.
#[derive(Debug, Drop)]
pub struct SharedGiven {
    shared: Shared,
}

impl Model for SharedGiven {
    ghost use Rattle.bf_xcom.specs.Shared.{given_shared};
    ghost use Rattle.bf_xcom.specs.declared.values.Given.{Given};
    ghost use Rattle.bf_xcom.specs.contracts.values.Given;
    ghost use Rattle.std.specs.Coded.{codes};

    ghost Value = { Given };

    ghost coded = { Prim.hlevel (codes, Given.the_row.coded) };

    ghost view = { λ s. given_shared s.shared };
}

impl SharedGiven {
    /// Nothing: no item, and nothing pulled. Takes no memory.
    pub fn nothing() -> SharedGiven
        ensures { result ≡ nothing_given }
    {
        SharedGiven {
            shared: Shared::Nothing,
        }
    }

    /// What is given, in a form that many can share.
    pub fn new(alloc: Global, given: Given) -> Result<SharedGiven, OutOfMemory>
        ensures { IfOk result (λ shared. shared ≡ given) }
    {
        let Given { item, pulled } = given;
        let shared = match (item, pulled.is_empty()) {
            (None, true) => Shared::Nothing,
            (Some(item), true) => Shared::Item(Arc::new(alloc, item)?),
            (item, false) => Shared::Whole(Arc::new(alloc, Given { item, pulled })?),
        };
        Ok(SharedGiven { shared })
    }

    /// The same for one more holder; it is shared and not copied. Contracts see no sharing.
    pub fn share(&self) -> Result<SharedGiven, OutOfMemory>
        ensures { IfOk result (λ shared. shared ≡ self.now) }
    {
        let shared = match &self.shared {
            Shared::Nothing => Shared::Nothing,
            Shared::Item(item) => Shared::Item(Arc::try_clone(item)?),
            Shared::Whole(given) => Shared::Whole(Arc::try_clone(given)?),
        };
        Ok(SharedGiven { shared })
    }

    /// A copy for a try to take along; pulled values are shared and not copied.
    pub fn copy(&self, alloc: Global) -> Result<Given, OutOfMemory>
        ensures { IfOk result (λ given. given ≡ self.now) }
    {
        match &self.shared {
            Shared::Whole(given) => given.copy(alloc),
            Shared::Nothing | Shared::Item(_) => Ok(Given {
                item: copy_option(alloc, self.item())?,
                pulled: Sequence::new(alloc),
            }),
        }
    }

    /// The item, for an instance of an expanded task.
    pub fn item(&self) -> Option<&Xval>
        ensures { option_copied result ≡ self.now.item }
    {
        match &self.shared {
            Shared::Nothing => None,
            Shared::Item(item) => Some(&**item),
            Shared::Whole(given) => given.item.as_ref(),
        }
    }

    /// For each pull of the task the value or nothing.
    pub fn pulled(&self) -> &[SharedValue]
        ensures { result.now ≡ self.now.pulled }
    {
        match &self.shared {
            Shared::Nothing | Shared::Item(_) => &[],
            Shared::Whole(given) => given.pulled.as_slice(),
        }
    }

    /// Whether this is the same as `given`: equal items and pulls.
    pub fn is_same_as(&self, given: &Given) -> bool
        ensures { IsTrue result ↔ (self.now ≡ given.now) }
    {
        is_same_option(self.item(), given.item.as_ref())
            && are_same(self.pulled(), given.pulled.as_slice())
    }

    /// Whether both are the same: equal items and pulls.
    pub fn is_same(&self, other: &SharedGiven) -> bool
        ensures { IsTrue result ↔ (self.now ≡ other.now) }
    {
        is_same_option(self.item(), other.item()) && are_same(self.pulled(), other.pulled())
    }
}
