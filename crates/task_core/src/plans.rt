// What a commit appends, and what the core keeps behind it.

use core_plans::Frames;
use packed_events::Packed;
use samza_model::{Checkpoint, Items};

/// What a core keeps behind a mark.
#[derive(Drop)]
pub struct Kept {
    /// The callbacks that the mark doesn't cover, the newest first.
    pub uncovered: Items<u64>,
    /// Their events, the oldest first.
    pub events: Packed,
}

/// A commit, made in memory before anything is written.
#[derive(Drop)]
pub struct Plan {
    /// What it appends.
    pub frames: Frames,
    /// The checkpoint that it makes.
    pub mark: Checkpoint,
    /// What the core keeps once the checkpoint is written.
    pub kept: Kept,
}
