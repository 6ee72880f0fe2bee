//! Values that tries push, and others pull.
ghost use Rattle.std.specs.Prelude.{◌≡◌, ◌↔◌, IfOk, IsTrue, None, option_copied};

use bf_value::{OutOfMemory, Xval, is_same_option};
use std::alloc::Global;
use std::marker::Model;
use std::sync::Arc;

/// A value or nothing, as a try pushes it and others pull it. All that hold it share the value, in any threads, and none
/// changes it, so that a list which a thousand instances pull is held once. Contracts see the value, and not who shares it.
#[derive(Debug, Drop)]
pub struct SharedValue {
    value: Option<Arc<Xval, Global>>,
}

impl Model for SharedValue {
    ghost use Rattle.std.specs.Prelude.{Option, option_map};
    ghost use Rattle.bf_value.specs.declared.xval.Xval.{Xval};

    ghost Value = { Option Xval };

    ghost use Rattle.bf_value.specs.contracts.xval.Xval;
    ghost use Rattle.std.specs.Coded.{codes};

    ghost coded = { Prim.hlevel (codes, Xval.the_row.coded) };

    ghost view = { λ p. option_map (λ arc. arc.value) p.value };
}

impl SharedValue {
    /// Nothing. Takes no memory.
    pub fn nothing() -> SharedValue
        ensures { result ≡ None }
    {
        SharedValue { value: None }
    }

    /// A value, or nothing, in a form that many can share.
    pub fn new(alloc: Global, value: Option<Xval>) -> Result<SharedValue, OutOfMemory>
        ensures { IfOk result (λ shared. shared ≡ value) }
    {
        match value {
            Some(value) => Ok(SharedValue {
                value: Some(Arc::new(alloc, value)?),
            }),
            None => Ok(SharedValue { value: None }),
        }
    }

    /// The same value for one more holder; it is shared and not copied. Contracts see no sharing.
    pub fn share(&self) -> Result<SharedValue, OutOfMemory>
        ensures { IfOk result (λ shared. shared ≡ self.now) }
    {
        match &self.value {
            Some(value) => Ok(SharedValue {
                value: Some(Arc::try_clone(value)?),
            }),
            None => Ok(SharedValue { value: None }),
        }
    }

    /// The value; None of nothing.
    pub fn get(&self) -> Option<&Xval>
        ensures { option_copied result ≡ self.now }
    {
        match &self.value {
            Some(value) => Some(value),
            None => None,
        }
    }

    /// Whether both are equal values, or both nothing.
    pub fn is_same(&self, other: &SharedValue) -> bool
        ensures { IsTrue result ↔ (self.now ≡ other.now) }
    {
        is_same_option(self.get(), other.get())
    }
}
