//! The texts of the container: the words of its command, and what it prints, a run's report or the line of its fault.
//!
//! `specs/` has them byte by byte (`Words`, `ReportText`, `FaultText`), the status of each fault (`Statuses`), what a report
//! tells of a unit (`UnitReports`), and what a sink received of a text (`Printing`).
#![tactic(auto)]

mod fault_lines;
mod faults;
mod printing;
mod reports;
mod texts;
mod unit_reports;
mod words;

pub use fault_lines::fault_line;
pub use faults::{RunFault, Stopped};
pub use printing::{put_fault, put_report};
pub use reports::{InputReport, OutputReport, StoreReport, TaskReport, report};
pub use unit_reports::task_report;
pub use words::read_words;
