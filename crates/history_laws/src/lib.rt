//! Laws of the definitions of a task's events. They are of the definitions alone: no program is spoken of.
#![tactic(auto)]

mod laws;

pub use laws::{
    content_is_the_fold, delivered_in_order, fails_once, failure_is_the_folds,
    failures_have_places, few_answers, folded_never_fails, lows_are_least, untimed_never_expires,
};
