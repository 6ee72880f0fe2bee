//! How wide the parts of a grid are.
ghost use Rattle.std.specs.Prelude.{◌≡◌, ◌≤◌, ◌++◌, OnOk, IfOk};
ghost use Rattle.bf_marks.specs.Widths.{room_beside_of, cut_name, heads_text, in_column, column_count_in, sum_text, sums_text, width_in, widths_of};

use crate::label::push_right_aligned;
use crate::phrases::{push, push_number};
use crate::tally::Tally;
use bf_value::OutOfMemory;
use std::alloc::Global;

/// How many bytes wide the column of sums of each state is; 0 where it isn't shown.
#[derive(Clone, Copy, Debug, PartialEq, Eq)]
pub struct Widths {
    pub success: usize,
    pub failed: usize,
    pub upstream_failed: usize,
    pub skipped: usize,
    pub no_status: usize,
}

/// How many bytes wide a column of sums is where the greatest is `greatest`; 0 where the column isn't shown.
fn width_of(alloc: Global, shown: bool, greatest: u64) -> Result<usize, OutOfMemory>
    ensures { IfOk result (λ n. n ≡ width_in shown greatest) }
{
    if !shown {
        return Ok(0);
    }
    let mut text = Vec::new(alloc);
    push_number(alloc, &mut text, greatest)?;
    Ok(text.len())
}

/// Adds a space and `shown`, right-aligned in `width` bytes; adds nothing where `width` is 0.
fn push_in_column(text: &mut Vec<u8>, width: usize, shown: &[u8]) -> Result<(), OutOfMemory>
    ensures { OnOk result (text.new.items ≡ text.old.items ++ in_column width shown.now) }
{
    if width == 0 {
        return Ok(());
    }
    push(text, b" ")?;
    push_right_aligned(text, width, shown)
}

/// Adds a space and a sum, right-aligned in `width` bytes, with a sum of 0 left blank; adds nothing where `width` is 0.
fn push_sum(alloc: Global, text: &mut Vec<u8>, width: usize, number: u64) -> Result<(), OutOfMemory>
    ensures { OnOk result (text.new.items ≡ text.old.items ++ sum_text width number) }
{
    let mut shown = Vec::new(alloc);
    if number != 0 {
        push_number(alloc, &mut shown, number)?;
    }
    push_in_column(text, width, shown.as_slice())
}

impl Widths {
    /// How wide the columns of sums are, by the sums over all tasks, `total`, and over the runs, `states`. Only a state
    /// that some task has gets a column; failed gets one for a failed run, too.
    pub fn of(alloc: Global, total: Tally, states: Tally) -> Result<Widths, OutOfMemory>
        ensures { IfOk result (λ widths. widths ≡ widths_of total states) }
    {
        let has_failed = total.failed > 0 || states.failed > 0;
        Ok(Widths {
            success: width_of(alloc, total.success > 0, total.success.max(states.success))?,
            failed: width_of(alloc, has_failed, total.failed.max(states.failed))?,
            upstream_failed: width_of(alloc, total.upstream_failed > 0, total.upstream_failed)?,
            skipped: width_of(alloc, total.skipped > 0, total.skipped)?,
            no_status: width_of(alloc, total.no_status > 0, total.no_status)?,
        })
    }

    /// Adds the sums of a tally, each right-aligned in the column of its state; a state without a column is left out.
    pub fn push_sums(
        self,
        alloc: Global,
        text: &mut Vec<u8>,
        tally: Tally,
    ) -> Result<(), OutOfMemory>
        ensures { OnOk result (text.new.items ≡ text.old.items ++ sums_text self tally) }
    {
        push_sum(alloc, text, self.success, tally.success)?;
        push_sum(alloc, text, self.failed, tally.failed)?;
        push_sum(alloc, text, self.upstream_failed, tally.upstream_failed)?;
        push_sum(alloc, text, self.skipped, tally.skipped)?;
        push_sum(alloc, text, self.no_status, tally.no_status)
    }

    /// Adds the letters of the states that have a column, each right-aligned in it.
    pub fn push_heads(self, text: &mut Vec<u8>) -> Result<(), OutOfMemory>
        ensures { OnOk result (text.new.items ≡ text.old.items ++ heads_text self) }
    {
        push_in_column(text, self.success, b".")?;
        push_in_column(text, self.failed, b"F")?;
        push_in_column(text, self.upstream_failed, b"u")?;
        push_in_column(text, self.skipped, b"s")?;
        push_in_column(text, self.no_status, b"n")
    }
}

/// Adds a name, cut to `room` bytes, with `..` for its middle, where it is longer.
pub fn push_cut_name(text: &mut Vec<u8>, room: usize, name: &[u8]) -> Result<(), OutOfMemory>
    requires { 2 ≤ room }
    ensures { OnOk result (text.new.items ≡ text.old.items ++ cut_name room name.now) }
{
    if name.len() <= room {
        return push(text, name);
    }
    let front = (room - 2) / 2;
    push(text, &name[..front])?;
    push(text, b"..")?;
    push(text, &name[name.len() - (room - 2 - front)..])
}

/// How much of `room` is left beside a column of sums of this width and the space before it; all of it where the width
/// is 0.
fn room_beside(width: usize, room: usize) -> usize
    ensures { result ≡ room_beside_of width room }
{
    if width == 0 {
        room
    } else {
        room.saturating_sub(width).saturating_sub(1)
    }
}

/// How many columns of runs fit into a grid of `width` characters beside names of `names` bytes and the columns of
/// sums; at least 8.
pub fn column_count_of(width: usize, names: usize, widths: Widths) -> usize
    ensures room { result ≡ column_count_in width names widths }
    ensures some { 8 ≤ result }
{
    let room = width.saturating_sub(names).saturating_sub(4);
    let room = room_beside(widths.success, room);
    let room = room_beside(widths.failed, room);
    let room = room_beside(widths.upstream_failed, room);
    let room = room_beside(widths.skipped, room);
    room_beside(widths.no_status, room).max(8)
}
