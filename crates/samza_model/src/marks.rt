// What a task keeps of a commit.

use crate::Checkpoint;

/// A checkpoint of a task, none where it never committed, and the number of calls that its disk had served when the
/// checkpoint was acknowledged (for the one that an opening found: when it was opened).
#[derive(Debug, Drop)]
pub struct KeptMark {
    pub checkpoint: Option<Checkpoint>,
    pub at: u64,
}
