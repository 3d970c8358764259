// What a configuration holds.

use samza_model::{Bin, Class, Items, OffsetDefault, StoreSetup};

/// One input of a job.
#[derive(Drop)]
pub struct InputConfig {
    pub system: Bin,
    pub stream: Bin,
    /// Where a partition of it begins if no offset is kept.
    pub fallback: OffsetDefault,
    /// Whether a kept offset is passed over.
    pub reset: bool,
    /// Whether its messages come before those of inputs that are no bootstrap inputs.
    pub bootstrap: bool,
    /// At most 1,000,000; a greater one comes first.
    pub priority: u32,
}

/// The configuration of a job.
#[derive(Drop)]
pub struct JobConfig {
    /// The job's name: at most 255 characters from `!` to `~`.
    pub job: Bin,
    pub class: Class,
    /// 1 to 16, in order of the bytes of `system.stream`.
    pub inputs: Items<InputConfig>,
    /// 1 to 8 names `system.stream`, each once, in the list's order.
    pub outputs: Items<Bin>,
    /// 1 to 8, in order of name.
    pub stores: Items<StoreSetup>,
    /// 1 to 256.
    pub containers: u32,
    /// At most 32.
    pub workers: u32,
    /// The greatest number of messages of a task in flight, 1 to 64.
    pub concurrency: u32,
    /// Intervals in milliseconds, from 1 on and below 2^63; none means never.
    pub window_ms: Option<u64>,
    pub commit_ms: Option<u64>,
    pub timeout_ms: Option<u64>,
    pub async_commit: bool,
    /// How many messages of one input are taken running, 1 to 1,000,000.
    pub batch: u32,
    /// The keys that weren't read, in order of their units, each as properties text writes it.
    pub unread: Items<Bin>,
}
