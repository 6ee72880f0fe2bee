//! Items of a field.

/// The numbers from `low` to `high` in steps of `step`, beginning with `low`.
#[derive(Clone, Copy, Debug, PartialEq, Eq)]
pub struct Item {
    pub low: u8,
    pub high: u8,
    pub step: u8,
}
