//! Plain, slow programs beside the definitions of the model. The contract of each is the definition itself, so that
//! worked examples, whose results were found outside, check the definitions, and faster programs can be run against them.
#![tactic(auto)]

mod behind;
mod ends;
mod flights;
mod journals;
mod lows;
mod replays;
mod requests;
mod states;
mod tasks;
mod turns;
mod windows;

pub use behind::state_behind;
pub use ends::end_at;
pub use flights::flights_of;
pub use journals::kept_of;
pub use lows::{is_covered, low_of};
pub use replays::replay;
pub use requests::is_due;
pub use states::PlainState;
pub use tasks::{PlainInput, PlainTask, blank};
pub use turns::{fold_all, run_one};
pub use windows::{failure_in, window_answers, window_open};
