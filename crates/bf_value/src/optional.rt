//! Values that may be missing, as a try may push nothing.
ghost use Rattle.std.specs.Prelude.{◌≡◌, ◌↔◌, IfOk, IsTrue, option_copied};

use crate::memory::OutOfMemory;
use crate::xval::Xval;
use std::alloc::Global;

/// A copy of a value; None where there is none.
pub fn copy_option(alloc: Global, value: Option<&Xval>) -> Result<Option<Xval>, OutOfMemory>
    ensures { IfOk result (λ copy. copy ≡ option_copied value.entry) }
{
    match value {
        Some(value) => Ok(Some(value.copy(alloc)?)),
        None => Ok(None),
    }
}

/// Whether two values are equal, or both missing.
pub fn is_same_option(one: Option<&Xval>, other: Option<&Xval>) -> bool
    ensures { IsTrue result ↔ (option_copied one.entry ≡ option_copied other.entry) }
{
    match (one, other) {
        (Some(one), Some(other)) => one.is_same(other),
        (None, None) => true,
        _ => false,
    }
}
