//! Numbers that rise.
ghost use Rattle.std.specs.Prelude.{◌≡◌, ℕ, ◌<◌, ◌≤◌, OnOk, OnErr, length, get_or};
ghost use Rattle.std.specs.List.Sorted.{IsStrictlyIncreasing};
ghost use Rattle.bf_interval.specs.inner.Search.{Adds};

use std::alloc::AllocError;

/// Inserts a number among rising ones, in order; does nothing where it is one of them already. At an Err they stay as
/// they were.
pub(crate) fn insert_in_order(numbers: &mut Vec<u64>, number: u64) -> Result<(), AllocError>
    requires { IsStrictlyIncreasing numbers.old.items }
    ensures rising { IsStrictlyIncreasing numbers.new.items }
    ensures ok { OnOk result (Adds number numbers.old.items numbers.new.items) }
    ensures err { OnErr result (numbers.new.items ≡ numbers.old.items) }
{
    match numbers.binary_search(&number) {
        Ok(_) => Ok(()),
        Err(place) => {
            numbers.insert(place, number)?;
            Ok(())
        }
    }
}

/// Gives the index of the first of these rising numbers above `limit`; their count where there is none.
pub(crate) fn place_above(numbers: &[u64], limit: u64) -> usize
    requires { IsStrictlyIncreasing numbers.now }
    ensures within { result ≤ length numbers.now }
    ensures below { (i : ℕ) → i < result → get_or numbers.now i 0 ≤ limit }
    ensures above { (i : ℕ) → result ≤ i → i < length numbers.now → limit < get_or numbers.now i 0 }
{
    match numbers.binary_search(&limit) {
        Ok(place) => place + 1,
        Err(place) => place,
    }
}
