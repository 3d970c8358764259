// What each test ends with.
use std::fmt::Debug;
use std::process::Abort;

/// Stops the test, and shows both, where what was found isn't what is wanted.
pub(crate) fn is_same<T: PartialEq + Debug + Drop>(rt: &impl Abort, found: T, want: T) {
    assert_eq!(rt; found, want);
}
