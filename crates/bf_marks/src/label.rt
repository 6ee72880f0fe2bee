//! What columns are labelled by.
ghost use Rattle.std.specs.Prelude.{◌≡◌, ◌≤◌, ◌<◌, ◌+◌, ◌==◌, ◌++◌, max, length, map, replicate, if◌then◌else◌, OnOk};
ghost use Rattle.bf_marks.specs.Labels.{are_apart_in, seconds_of, is_behind, scale_of, group_size_of, unit_place_of, fitted_of, digits_at, group_label, groups_of, groups_text, counted, left, right};
ghost use Rattle.bf_marks.specs.inner.Labels.{same_first};

use crate::phrases::push;
use bf_moment::{Moment, moment_bytes};
use bf_value::OutOfMemory;
use std::alloc::Global;

/// What the two digits above a column tell, within the group that is named above them: the year of a decade, the month
/// of a year, the day of a month, the hour of a day, or the minute of an hour.
#[derive(Clone, Copy, Debug, PartialEq, Eq)]
pub enum Scale {
    Years,
    Months,
    Days,
    Hours,
    Minutes,
}

/// Whether `second` is at least `seconds` seconds after `first`.
fn is_later_by(first: Moment, second: Moment, seconds: u32) -> bool
    ensures { result ≡ is_behind (seconds_of seconds) first.at.nanosecond second.at.nanosecond }
{
    let least = i128::from(seconds) * 1_000_000_000;
    second.at.as_nanosecond() >= first.at.as_nanosecond() + least
}

/// Whether each of these moments is at least `seconds` seconds after the one before it; true for fewer than two.
fn are_apart(starts: &[Moment], seconds: u32) -> bool
    ensures { result ≡ are_apart_in (seconds_of seconds)
        (map (λ start. start.at.nanosecond) starts.now) }
{
    let Some((first, rest)) = starts.split_first() else {
        return true;
    };
    let mut before = *first;
    for start in rest {
        if !is_later_by(before, *start, seconds) {
            return false;
        }
        before = *start;
    }
    true
}

impl Scale {
    /// The scale for columns that start at these moments, by the least time between neighbours: years from 300 days,
    /// months from 28 days, days from 6 hours, hours from 15 minutes, else minutes. Days for fewer than two columns.
    pub fn of(starts: &[Moment]) -> Scale
        ensures { result ≡ scale_of (map (λ start. start.at.nanosecond) starts.now) }
    {
        if starts.len() < 2 {
            return Scale::Days;
        }
        if are_apart(starts, 25_920_000) {
            return Scale::Years;
        }
        if are_apart(starts, 2_419_200) {
            return Scale::Months;
        }
        if are_apart(starts, 21_600) {
            return Scale::Days;
        }
        if are_apart(starts, 900) {
            Scale::Hours
        } else {
            Scale::Minutes
        }
    }

    /// How many bytes at the front of a moment's text, such as `2024-01-31T06:00:00Z`, name the group of a column: 7
    /// for days, whose group is the month.
    fn group_size(self) -> usize
        ensures { result ≡ group_size_of self }
    {
        match self {
            Scale::Years => 3,
            Scale::Months => 4,
            Scale::Days => 7,
            Scale::Hours => 10,
            Scale::Minutes => 13,
        }
    }

    /// Where in a moment's text, such as `2024-01-31T06:00:00Z`, the two digits of a column begin, from 0: 8 for days.
    pub fn unit_place(self) -> usize
        ensures { result ≡ unit_place_of self }
    {
        match self {
            Scale::Years => 2,
            Scale::Months => 5,
            Scale::Days => 8,
            Scale::Hours => 11,
            Scale::Minutes => 14,
        }
    }

    /// Adds the label of a group: `group`, as it stands at the front of a moment's text, and for a decade `0s` after
    /// it, such as `2020s`.
    fn push_label(self, label: &mut Vec<u8>, group: &[u8]) -> Result<(), OutOfMemory>
        ensures { OnOk result (label.new.items ≡ label.old.items ++ group_label self group.now) }
    {
        push(label, group)?;
        if self == Scale::Years {
            push(label, b"0s")?;
        }
        Ok(())
    }
}

/// The label, or its last three bytes where it has more than five, or nothing: the first of these that leaves one of
/// `room` columns free after it.
fn fitted(label: &[u8], room: usize) -> &[u8]
    ensures { result.now ≡ fitted_of room label.now }
{
    if label.len() < room {
        return label;
    }
    if label.len() > 5 && room > 3 {
        return &label[label.len() - 3..];
    }
    &[]
}

/// How many moments at the front of `starts` are in this group, up to the first that isn't.
fn count_same_at_front(scale: Scale, group: &[u8], starts: &[Moment]) -> usize
    ensures count { result ≡ same_first group.now
        (groups_of scale (map (λ start. start.at.nanosecond) starts.now)) }
    ensures within { result ≤ length starts.now }
{
    for (place, start) in starts.iter().enumerate() {
        if &moment_bytes(start.at)[..scale.group_size()] != group {
            return place;
        }
    }
    starts.len()
}

/// Adds the label of a group, cut to fit into `room` columns, and spaces after it up to `count` columns.
fn push_group(
    alloc: Global,
    text: &mut Vec<u8>,
    scale: Scale,
    group: &[u8],
    count: usize,
    room: usize,
) -> Result<(), OutOfMemory>
    ensures { OnOk result (text.new.items ≡ text.old.items
        ++ left count (fitted_of room (group_label scale group.now))) }
{
    let mut label = Vec::new(alloc);
    scale.push_label(&mut label, group)?;
    push_left_aligned(text, count, fitted(label.as_slice(), room))
}

/// Adds `count` spaces.
pub fn push_spaces(text: &mut Vec<u8>, count: usize) -> Result<(), OutOfMemory>
    ensures { OnOk result (text.new.items ≡ text.old.items ++ replicate count 32) }
{
    for _ in 0..count {
        text.push(b' ')?;
    }
    Ok(())
}

/// Adds `shown` and spaces after it, up to `width` bytes; a longer text isn't cut.
pub fn push_left_aligned(text: &mut Vec<u8>, width: usize, shown: &[u8]) -> Result<(), OutOfMemory>
    ensures { OnOk result (text.new.items ≡ text.old.items ++ left width shown.now) }
{
    push(text, shown)?;
    push_spaces(text, width.saturating_sub(shown.len()))
}

/// Adds `shown` with spaces before it, up to `width` bytes; a longer text isn't cut.
pub fn push_right_aligned(text: &mut Vec<u8>, width: usize, shown: &[u8]) -> Result<(), OutOfMemory>
    ensures { OnOk result (text.new.items ≡ text.old.items ++ right width shown.now) }
{
    push_spaces(text, width.saturating_sub(shown.len()))?;
    push(text, shown)
}

/// How many columns the label of a group of `count` columns may take: `count`, or at least 99 for the last group, which
/// no column in `further` follows.
fn label_room(count: usize, further: &[Moment]) -> usize
    ensures { result ≡ (if length further.now == 0 then max count 99 else count) }
{
    if further.is_empty() {
        count.max(99)
    } else {
        count
    }
}

/// Adds the labels of the groups that these columns, by their starts, are in, each above its group's first column.
pub fn push_groups(
    alloc: Global,
    text: &mut Vec<u8>,
    scale: Scale,
    starts: &[Moment],
) -> Result<(), OutOfMemory>
    ensures { OnOk result (text.new.items ≡ text.old.items ++ groups_text scale
        (counted (groups_of scale (map (λ start. start.at.nanosecond) starts.now)))) }
{
    let mut rest = starts;
    while let Some((first, further)) = rest.split_first() {
        let moment = moment_bytes(first.at);
        let group = &moment[..scale.group_size()];
        let same = count_same_at_front(scale, group, further);
        rest = &further[same..];
        push_group(
            alloc,
            text,
            scale,
            group,
            same + 1,
            label_room(same + 1, rest),
        )?;
    }
    Ok(())
}

/// Adds for each column one character of its start's text, such as `2024-01-31T06:00:00Z`: the one at `place`, from 0.
pub fn push_digits(text: &mut Vec<u8>, place: usize, starts: &[Moment]) -> Result<(), OutOfMemory>
    requires { place < 20 }
    ensures { OnOk result (text.new.items ≡ text.old.items
        ++ digits_at place (map (λ start. start.at.nanosecond) starts.now)) }
{
    for start in starts {
        text.push(moment_bytes(start.at)[place])?;
    }
    Ok(())
}
