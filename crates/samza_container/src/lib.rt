//! The container: it runs the job of a folder, from the files that come in to the files that go out.
#![tactic(auto)]

mod config_text;
mod faults;
mod hosting;
mod laws;
mod not_built;
mod preparing;
mod setups;
mod top;

pub use container_texts::{
    InputReport, OutputReport, RunFault, StoreReport, TaskReport, fault_line, report,
};
pub use laws::{
    built_configurations_set_up, ended_runs_never_fail, runs_or_says_why, stops_with_one_line,
};
pub use top::samza_main;
