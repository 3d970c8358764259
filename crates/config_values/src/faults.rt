// What may be wrong with the value of a key.

use std::fmt;

/// What is wrong with the value of a key.
#[derive(Clone, Copy, Debug, PartialEq, Eq)]
pub enum What {
    /// It isn't there, or is empty where it may not be.
    Missing,
    /// It isn't a number in decimal.
    NotNumber,
    /// It is a number, or a number of names, outside its bounds.
    OutOfRange,
    /// It isn't spelled as the name of a job, a stream or a store.
    BadName,
    /// It is none of the words that the key knows.
    Unknown,
}

impl fmt::Display for What {
    fn fmt<W: fmt::Write>(&self, f: &mut fmt::Formatter<W>) -> fmt::Result {
        match self {
            What::Missing => write!(f, "Missing"),
            What::NotNumber => write!(f, "NotNumber"),
            What::OutOfRange => write!(f, "OutOfRange"),
            What::BadName => write!(f, "BadName"),
            What::Unknown => write!(f, "Unknown"),
        }
    }
}
