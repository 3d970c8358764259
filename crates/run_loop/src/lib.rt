//! The loop of a run over one task: it delivers messages, makes acts in the order that its turns give, commits when a commit is
//! due, and once more at its end.
#![tactic(auto)]

mod inline;
mod stops;
mod turns;

pub use inline::{RunEnd, run_inline};
pub use stops::Stop;
