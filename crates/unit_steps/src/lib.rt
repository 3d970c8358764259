//! What the calls of a task's unit do to its value, and that it goes on standing by its events, marks and files.
#![tactic(auto)]
