//! The table of a grid: labels, rows and legend.
ghost use Rattle.std.specs.Prelude.{◌≡◌, ◌<◌, ◌*◌, ◌++◌, map, slice_get, IfOk, OnOk};
ghost use Rattle.std.specs.List.{flat_map};
ghost use Rattle.bf_marks.specs.Labels.{scale_of};
ghost use Rattle.bf_grid.specs.Grid.{column_starts, label_lines, margin, start_or};
ghost use Rattle.bf_grid.specs.inner.GridTables.{row_in, text_in};

use crate::legend::push_legend;
use crate::row::{Columns, Layout, push_line};
use bf_marks::{
    Scale, push, push_digits, push_groups, push_spaces, tally_in, tally_of_shown_states,
};
use bf_moment::Moment;
use bf_plan::Dag;
use bf_value::OutOfMemory;
use jiff::Timestamp;
use std::alloc::Global;

impl Columns<'_> {
    /// The start of the first run in the column at `place`, from 0; 1970-01-01 where the column has no run.
    fn start(self, place: usize) -> Moment
        requires { place < self.count }
        ensures { result.at.nanosecond ≡ start_or
            (slice_get (map (λ run. run.now) self.entry.runs.now) (place * self.entry.each)) }
    {
        match self.runs.get(place * self.each) {
            Some(run) => Moment::new(run.interval.start),
            None => Moment::new(Timestamp::UNIX_EPOCH),
        }
    }

    /// The start of the first run in each column, in order.
    fn starts(self, alloc: Global) -> Result<Vec<Moment>, OutOfMemory>
        ensures { IfOk result (λ starts. map (λ start. start.at.nanosecond) starts.items
            ≡ column_starts self.entry.count self.entry.each
            (map (λ run. run.now) self.entry.runs.now)) }
    {
        let mut starts = Vec::with_capacity(alloc, self.count)?;
        for place in 0..self.count {
            starts.push(self.start(place))?;
        }
        Ok(starts)
    }
}

impl Layout {
    /// The spaces at the beginning of a line of labels, as wide as the column of names and the two spaces after it.
    fn margin(self, alloc: Global) -> Result<Vec<u8>, OutOfMemory>
        ensures { IfOk result (λ line. line.items ≡ margin self.names) }
    {
        let mut line = Vec::new(alloc);
        push_spaces(&mut line, self.names + 2)?;
        Ok(line)
    }

    /// Adds the three lines above the rows: the labels of groups of columns, the two digits of each column, one above
    /// the other, and the letters of the sums. `starts` are the starts of the columns.
    fn push_labels(
        self,
        alloc: Global,
        text: &mut Vec<u8>,
        starts: &[Moment],
    ) -> Result<(), OutOfMemory>
        ensures { OnOk result (text.new.items ≡ text.old.items ++ label_lines self.names self.widths
            (scale_of (map (λ start. start.at.nanosecond) starts.now))
            (map (λ start. start.at.nanosecond) starts.now)) }
    {
        let scale = Scale::of(starts);
        let mut groups = self.margin(alloc)?;
        push_groups(alloc, &mut groups, scale, starts)?;
        push_line(text, groups.as_slice())?;
        let mut tens = self.margin(alloc)?;
        push_digits(&mut tens, scale.unit_place(), starts)?;
        push_line(text, tens.as_slice())?;
        let mut ones = self.margin(alloc)?;
        push_digits(&mut ones, scale.unit_place() + 1, starts)?;
        push(&mut ones, b"  ")?;
        self.widths.push_heads(&mut ones)?;
        push_line(text, ones.as_slice())
    }
}

/// What a table shows: the marks of these tasks of a graph, by columns of runs, and how they are laid out.
#[derive(Clone, Copy)]
pub(crate) struct Table<'a> {
    pub(crate) dag: &'a Dag,
    pub(crate) columns: Columns<'a>,
    pub(crate) tasks: &'a [u32],
    pub(crate) layout: Layout,
}

impl Table<'_> {
    /// Adds the row of task number `task`, with its line feed: its id, its mark in each column and its sums.
    fn push_task(self, alloc: Global, text: &mut Vec<u8>, task: u32) -> Result<(), OutOfMemory>
        ensures { OnOk result (text.new.items ≡ text.old.items
            ++ row_in self.entry task) }
    {
        let marks = self.columns.marks(alloc, task)?;
        let tally = tally_in(self.columns.runs, task)?;
        let name = self.dag.id_of(task).as_bytes();
        self.layout
            .push_row(alloc, text, name, marks.as_slice(), tally)
    }

    /// Adds the rows of the tasks that the table shows, in order.
    fn push_tasks(self, alloc: Global, text: &mut Vec<u8>) -> Result<(), OutOfMemory>
        ensures { OnOk result (text.new.items ≡ text.old.items
            ++ flat_map (row_in self.entry) self.entry.tasks.now) }
    {
        for task in self.tasks {
            self.push_task(alloc, text, *task)?;
        }
        Ok(())
    }

    /// Adds the table: its labels, the row of the runs' states, the rows of the tasks, and the legend.
    pub(crate) fn push(self, alloc: Global, text: &mut Vec<u8>) -> Result<(), OutOfMemory>
        ensures { OnOk result (text.new.items ≡ text.old.items
            ++ text_in self.entry) }
    {
        let (columns, layout) = (self.columns, self.layout);
        let starts = columns.starts(alloc)?;
        layout.push_labels(alloc, text, starts.as_slice())?;
        let states = columns.states(alloc)?;
        let tally = tally_of_shown_states(columns.runs);
        layout.push_row(alloc, text, b"run", states.as_slice(), tally)?;
        self.push_tasks(alloc, text)?;
        push_legend(alloc, text, layout.colored, columns.runs, self.tasks)
    }
}
