// The callbacks that a task has in flight.

use crate::{Answer, Envelope, Items};

/// A callback in flight.
#[derive(Debug, Drop)]
pub struct Flight {
    /// The task's callbacks are counted from 0.
    pub number: u64,
    /// The place of its input in the setup.
    pub input: u32,
    pub envelope: Envelope,
    /// The moment of its delivery, in milliseconds.
    pub delivered: u64,
    /// What its acts were answered so far.
    pub answers: Items<Answer>,
}
