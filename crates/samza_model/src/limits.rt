// The limits of files, frames, keys, values and a task's lists.

/// The greatest size of a log's file.
pub const FILE_LIMIT: u64 = 1 << 40;

/// The greatest number of records in a frame, but for a store's changes.
pub const FRAME_BATCH: u32 = 500;

/// The greatest length of a key.
pub const KEY_LIMIT: usize = 1_024;

/// The greatest length of a value.
pub const VALUE_LIMIT: usize = 65_536;

/// The greatest number of a task's stores.
pub const STORE_LIMIT: usize = 8;

/// The greatest number of a task's outputs.
pub const OUTPUT_LIMIT: usize = 8;
