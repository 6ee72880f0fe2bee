//! Journals: the tries of a backfill, each written as it ends, so that none is made again of what a crash leaves.
//!
//! A journal is text, a JSON list a line: its head, which `head_of` makes of a plan and its runs, and then the record of each
//! try, which `record_of` makes. A `Recording` is a runner round a runner: it records each try that it hands on before the
//! scheduler hears of its end, and gives up every further one where a record can't be written or enough tries have failed.
//! `read_journal` reads what is left, of which only whole lines count, into a `Ledger` of tries, which are kept as they are
//! or `WithoutFailed` ones. The laws say that what is read of any beginning of a journal is what was written there.
#![tactic(auto)]

mod bare;
mod cuttable;
mod durable;
mod fault;
mod field;
mod found;
mod head;
mod journaled;
mod last;
mod laws;
mod lines;
mod part;
mod record;
mod recorder;
mod recording;
mod retrying;
mod run;
mod since;
mod stamp;
mod stop;
mod told;
mod tried;
mod value;
mod whole;

pub use cuttable::Cuttable;
pub use durable::Durable;
pub use fault::JournalFault;
pub use found::{Found, read_journal};
pub use head::{ClearedTask, head_of};
pub use journaled::Journaled;
pub use laws::{
    cut_journals_keep_graded_tries, journals_are_cut_and_gone_on_with, journals_tell_one_list,
    what_crashes_leave_may_be_cut, what_is_left_is_kept, whole_records_are_read,
};
pub use record::record_of;
pub use recorder::Recorder;
pub use recording::Recording;
pub use since::Since;
pub use stamp::Stamp;
pub use stop::Stop;
pub use whole::try_make_whole;
