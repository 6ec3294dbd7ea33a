//! Running a file from its entry on the machine of the definitions, and what is reported of that.
//!
//! `tracing` runs: a machine is started on the file and a log, and steps until it stops or has completed as many steps as
//! asked. `counting` reads the counters of the file's frame. `report` has what is reported, `text` writes it. The
//! definitions in specs/ say which report a file, a log and a number of steps have, over the run of the definitions alone;
//! `laws` says that it is one.
#![tactic(auto)]

mod counting;
pub mod laws;
pub mod report;
pub mod text;
pub mod tracing;

pub use report::{Counts, End, Report};
pub use text::report_text;
pub use tracing::{TraceFault, trace};
