//! The run of a workload on a catalogue: its world, carried out, and the report on it.
//!
//! The contract to the layer above: the text is the report on *the* log of the run (`run_report`),
//! or its summary (`run_summary`), or the limit ends that log. Laws say that there is a report
//! (`law_has_report`) and one only (`law_one_report`), that clocks stay low (`law_low_clocks`), for
//! what transactions wait (`law_standings`), and who never waits (`law_free_answered`).
#![tactic(auto)]

mod era_lists;
mod law;
mod run;
mod running;
mod telling;

pub use era_lists::{first_table, further, tables_of};
pub use law::{law_free_answered, law_has_report, law_low_clocks, law_one_report, law_standings};
pub use run::{run_report, run_summary};

// What lies below, for the crates above.
pub use sdd_lists::{Lists, lists_of};
pub use sdd_make::{bank, law_workload_allowed, workload};
pub use sdd_report::put_reply;
pub use sdd_schedule::{
    Answer, Asked, ClassList, ClassNos, ClassRun, DataModule, Line, Observer, Turn, TxnModule,
    UModule, World, WorldEnd, carry_out, data_modules, home,
};
pub use sdd_script::{Counts, StartRows, WorkError, WorkFault, WorkRule, Workload, read_workload};
