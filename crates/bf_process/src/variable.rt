//! The variables of a try's environment.
ghost use Rattle.std.specs.Prelude.{◌≡◌, IfOk, string_bytes};
ghost use Rattle.bf_process.specs.Environment.{variable_name, variable_value, variables_of};

use crate::clocks::{digits_of_date, text_for_airflow, text_of_date};
use bf_moment::Moment;
use bf_value::OutOfMemory;
use bf_words::JobContext;
use std::alloc::Global;

/// A variable of a try's environment. The last four are those that Airflow's operators set.
#[derive(Clone, Copy, Debug, PartialEq, Eq)]
pub enum Variable {
    DagId,
    TaskId,
    /// The run's logical date, which is the start of its data interval.
    Run,
    /// The date that the graph's zone has at that moment, as 2024-03-04.
    Date,
    /// The same date, as 20240304.
    DateNodash,
    IntervalStart,
    IntervalEnd,
    /// -1 for the instance of a task that isn't expanded.
    MapIndex,
    /// From 1.
    TryNumber,
    AirflowDagId,
    AirflowTaskId,
    AirflowExecutionDate,
    AirflowTryNumber,
}

/// All variables of a try but `BACKFILL_GIVEN`.
static VARIABLES: [Variable; 13] = [
    Variable::DagId,
    Variable::TaskId,
    Variable::Run,
    Variable::Date,
    Variable::DateNodash,
    Variable::IntervalStart,
    Variable::IntervalEnd,
    Variable::MapIndex,
    Variable::TryNumber,
    Variable::AirflowDagId,
    Variable::AirflowTaskId,
    Variable::AirflowExecutionDate,
    Variable::AirflowTryNumber,
];

impl Variable {
    /// Gives all variables of a try but `BACKFILL_GIVEN`, which is set only where logs are kept.
    pub fn all() -> &'static [Variable]
        ensures { result.now ≡ variables_of }
    {
        &VARIABLES
    }

    /// Gives the variable's name, such as `BACKFILL_DAG_ID`.
    pub fn name(self) -> &'static str
        ensures { result.now ≡ variable_name self }
    {
        match self {
            Variable::DagId => "BACKFILL_DAG_ID",
            Variable::TaskId => "BACKFILL_TASK_ID",
            Variable::Run => "BACKFILL_RUN",
            Variable::Date => "BACKFILL_DATE",
            Variable::DateNodash => "BACKFILL_DATE_NODASH",
            Variable::IntervalStart => "BACKFILL_INTERVAL_START",
            Variable::IntervalEnd => "BACKFILL_INTERVAL_END",
            Variable::MapIndex => "BACKFILL_MAP_INDEX",
            Variable::TryNumber => "BACKFILL_TRY_NUMBER",
            Variable::AirflowDagId => "AIRFLOW_CTX_DAG_ID",
            Variable::AirflowTaskId => "AIRFLOW_CTX_TASK_ID",
            Variable::AirflowExecutionDate => "AIRFLOW_CTX_EXECUTION_DATE",
            Variable::AirflowTryNumber => "AIRFLOW_CTX_TRY_NUMBER",
        }
    }

    /// Gives the variable's value for a try, moments as `2024-02-14T00:00:00Z`, or as Airflow spells them where the
    /// variable is Airflow's. `clock` is what the clocks of the graph's zone show at the start of the try's run, from
    /// which the dates come.
    pub fn value(
        self,
        alloc: Global,
        context: &JobContext<'_>,
        clock: &Moment,
    ) -> Result<String, OutOfMemory>
        ensures { IfOk result (λ value.
            string_bytes value ≡ variable_value context.now clock.now.at.nanosecond self) }
    {
        Ok(match self {
            Variable::DagId | Variable::AirflowDagId => String::from_str(alloc, context.dag_id)?,
            Variable::TaskId | Variable::AirflowTaskId => {
                String::from_str(alloc, context.task_id)?
            }
            Variable::Run | Variable::IntervalStart => {
                context.data_interval_start.to_string(alloc)?
            }
            Variable::AirflowExecutionDate => {
                text_for_airflow(alloc, &context.data_interval_start)?
            }
            Variable::Date => text_of_date(alloc, clock)?,
            Variable::DateNodash => digits_of_date(alloc, clock)?,
            Variable::IntervalEnd => context.data_interval_end.to_string(alloc)?,
            Variable::MapIndex => context.map_index.to_string(alloc)?,
            Variable::TryNumber | Variable::AirflowTryNumber => {
                context.try_number.to_string(alloc)?
            }
        })
    }
}
