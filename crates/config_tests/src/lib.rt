//! Worked examples over the crates that read and write properties, and over what the table of keys makes of them.
#![tactic(auto)]

#[cfg(test)]
mod configurations;
#[cfg(test)]
mod properties;
