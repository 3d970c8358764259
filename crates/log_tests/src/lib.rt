//! Worked examples over frames, logs and what is kept in them, up to a task's restart. What is wanted was spelled by hand.
#![tactic(auto)]

#[cfg(test)]
mod changelogs;
#[cfg(test)]
mod checkpoints;
#[cfg(test)]
mod frames;
#[cfg(test)]
mod logs;
#[cfg(test)]
mod outputs;
#[cfg(test)]
mod restores;
#[cfg(test)]
mod tables;
