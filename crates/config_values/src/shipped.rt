// The jobs that come with the container.

/// A shipped job by its class, without what it is given.
#[derive(Clone, Copy)]
pub enum Shipped {
    WordCount,
    Dedupe,
    SessionCount,
    TableJoin,
}
